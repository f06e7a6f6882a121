//! Clauses without repeated literals and without tautologies.
ghost use Rattle.std.specs.Prelude.{◌≡◌, ◌∷◌, [], ◌++◌, IfOk};
ghost use Rattle.bs_encode.specs.Transition.{is_tautology, tidied};
ghost use Rattle.bs_clause.specs.Resolvent.{once};

use bs_clause::{Clauses, Lit, Lits, NoMemory, has_literal};
use std::alloc::Global;

/// Whether a literal and its negation stand in the clause.
fn is_trivial(clause: &[Lit]) -> bool
    ensures { result ≡ is_tautology clause.now }
{
    for l in clause {
        if has_literal(clause, l.negate()) {
            return true;
        }
    }
    false
}

/// The clause with each literal once.
#[tactic(auto, using(crate::proofs::TidyLemmas::repeats_more_has, crate::proofs::TidyLemmas::repeats_more_new))]
fn each_once(alloc: Global, clause: &[Lit]) -> Result<Lits, NoMemory>
    ensures { IfOk result (λ c. c ≡ once clause.now) }
{
    let mut once = Lits::new(alloc);
    for l in clause {
        if !has_literal(once.slice(), *l) {
            once.push(*l)?;
        }
    }
    Ok(once)
}

/// The clauses that say something, each literal once in each.
pub(crate) fn tidy(alloc: Global, clauses: &Clauses) -> Result<Clauses, NoMemory>
    ensures { IfOk result (λ t. t ≡ tidied clauses.now) }
{
    let mut all = Clauses::new(alloc);
    for clause in clauses.slice() {
        if !is_trivial(clause.slice()) {
            all.push(each_once(alloc, clause.slice())?)?;
        }
    }
    Ok(all)
}
