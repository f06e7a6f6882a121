//! Resolution, by which two clauses give a third that follows from them.
ghost use Rattle.std.specs.Prelude.{◌≡◌, ℕ, Bool, ◌++◌, Contains, IfOk, OnOk};
ghost use Rattle.bs_clause.specs.Literal.{negation, Satisfies};
ghost use Rattle.bs_clause.specs.Resolvent.{without, news, resolvent};

use crate::lists::Lits;
use crate::literal::{Lit, has_literal, is_same};
use bs_bits::NoMemory;
use std::alloc::Global;

// The clause's other literals.
fn others(alloc: Global, clause: &[Lit], l: Lit) -> Result<Lits, NoMemory>
    ensures { IfOk result (λ rest. rest ≡ without l clause.now) }
{
    let mut rest = Lits::new(alloc);
    for m in clause {
        if !is_same(l, *m) {
            rest.push(*m)?;
        }
    }
    Ok(rest)
}

// Adds the literals that do not stand there yet.
fn push_news(into: &mut Lits, clause: &[Lit]) -> Result<(), NoMemory>
    ensures { OnOk result (into.new ≡ into.old ++ news into.old clause.now) }
{
    for m in clause {
        if !has_literal(into.slice(), *m) {
            into.push(*m)?;
        }
    }
    Ok(())
}

/// The resolvent of two clauses on a pivot: the other literals of `a`, and then the other
/// literals of `b` that do not stand there yet.
pub fn resolve(alloc: Global, a: &Lits, b: &Lits, pivot: Lit) -> Result<Lits, NoMemory>
    requires left { Contains a.now pivot }
    requires right { Contains b.now (negation pivot) }
    ensures value { IfOk result (λ r. r ≡ resolvent a.now b.now pivot) }
    // what meets both clauses meets the resolvent
    ensures meaning { IfOk result (λ r. (v : ℕ → Bool) → Satisfies v a.now → Satisfies v b.now → Satisfies v r) }
{
    let right = others(alloc, b.slice(), pivot.negate())?;
    let mut result = others(alloc, a.slice(), pivot)?;
    push_news(&mut result, right.slice())?;
    Ok(result)
}
