//! The literals that are true, of which any is found in constant time.
ghost use Rattle.std.specs.Prelude.{◌≡◌, [], ◌∷◌, ◌||◌, ◌≤◌, IfOk, OnOk, OnErr};
ghost use Rattle.bs_clause.specs.Literal.{Literal, negation, has_literal};
ghost use Rattle.bs_rup.specs.TrueLiterals.{IsSetFalse};

use crate::marks::LiteralSet;
use bs_bits::NoMemory;
use bs_clause::{Lit, VARIABLE_LIMIT};
use std::alloc::Global;
use std::marker::Model;

/// The literals that are true. Contracts see their list, the newest first.
#[derive(Drop)]
pub struct TrueLiterals {
    literals: Vec<Lit>,
    marks: LiteralSet,
}

impl Model for TrueLiterals {
    ghost use Rattle.std.specs.Prelude.{List, reverse};
    ghost use Rattle.bs_clause.specs.Literal.{Literal};
    ghost use Rattle.bs_rup.specs.TrueLiterals.{AreMarked};

    ghost Value = { List Literal };

    ghost view = { λ trail. reverse trail.literals.items };

    ghost invariant = { λ trail. AreMarked trail.literals.items trail.marks };
}

impl TrueLiterals {
    /// No literal is true. There is room for marks of the variables below this count.
    pub fn new(alloc: Global, variables: usize) -> Result<TrueLiterals, NoMemory>
        requires { variables ≤ VARIABLE_LIMIT }
        ensures { IfOk result (λ trail. trail ≡ []) }
    {
        let marks = LiteralSet::new(alloc, 2 * variables)?;
        Ok(TrueLiterals {
            literals: Vec::new(alloc),
            marks,
        })
    }

    /// Makes a literal true.
    pub fn set(&mut self, literal: Lit) -> Result<(), NoMemory>
        ensures ok { OnOk result (self.new ≡ literal ∷ self.old) }
        ensures err { OnErr result (self.new ≡ self.old) }
    {
        self.literals.reserve(1)?;
        self.marks.add(literal.code())?;
        self.literals.push_reserved(literal);
        Ok(())
    }

    /// Takes all literals back.
    pub fn clear(&mut self)
        ensures { self.new ≡ [] }
    {
        self.marks.unmark_all(self.literals.as_slice());
        self.literals.clear();
    }

    /// Whether the literal is true.
    pub fn is_true(&self, literal: Lit) -> bool
        ensures { result ≡ has_literal self.now literal }
    {
        self.marks.has(literal.code())
    }

    /// Whether the literal's negation is true.
    pub fn is_false(&self, literal: Lit) -> bool
        ensures { result ≡ has_literal self.now (negation literal) }
    {
        self.is_true(literal.negate())
    }

    /// Whether the literal or its negation is true.
    fn is_assigned(&self, literal: Lit) -> bool
        ensures { result ≡ (has_literal self.now literal || has_literal self.now (negation literal)) }
    {
        self.is_true(literal) || self.is_false(literal)
    }
}

/// Makes each literal of a clause false and no other, and answers whether no variable stands in the clause twice.
pub fn set_false(trail: &mut TrueLiterals, clause: &[Lit]) -> Result<bool, NoMemory>
    ensures { IfOk result (IsSetFalse clause.now trail.new) }
{
    trail.clear();
    let mut distinct = true;
    'literals: for i in (0..clause.len()).rev() {
        let literal = clause[i];
        distinct = !trail.is_assigned(literal) & distinct;
        trail.set(literal.negate())?;
    }
    Ok(distinct)
}

/// Makes these literals true and no other.
pub fn set_true(trail: &mut TrueLiterals, literals: &[Lit]) -> Result<(), NoMemory>
    ensures { OnOk result (trail.new ≡ literals.now) }
{
    trail.clear();
    'literals: for i in (0..literals.len()).rev() {
        trail.set(literals[i])?;
    }
    Ok(())
}
