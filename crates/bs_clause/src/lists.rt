//! Clauses, and lists of clauses.
ghost use Rattle.std.specs.Prelude.{◌≡◌, ◌<◌, [], ◌∷◌, ◌++◌, length, slice_get, IfOk, OnOk, OnErr};

use crate::literal::Lit;
use bs_bits::NoMemory;
use smallvec::SmallVec;
use std::alloc::Global;
use std::marker::Model;

/// How many literals a clause holds without a block of the heap: as many as fit in the room that a block's place takes.
const SMALL: usize = 4;

/// A clause: literals, one of which is to be true. Contracts see the list of its literals.
#[derive(Drop)]
pub struct Lits {
    literals: SmallVec<Lit, SMALL>,
}

impl Model for Lits {
    ghost use Rattle.std.specs.Prelude.{List};
    ghost use Rattle.bs_clause.specs.Literal.{Literal};

    ghost Value = { List Literal };

    ghost view = { λ clause. clause.literals.items };
}

impl Lits {
    /// The empty clause, which no assignment meets.
    pub fn new(alloc: Global) -> Lits
        ensures { result ≡ [] }
    {
        Lits {
            literals: SmallVec::new(alloc),
        }
    }

    /// A clause of these literals.
    pub fn copy(alloc: Global, literals: &[Lit]) -> Result<Lits, NoMemory>
        ensures { IfOk result (λ clause. clause ≡ literals.now) }
    {
        let literals = SmallVec::from_slice(alloc, literals)?;
        Ok(Lits { literals })
    }

    /// Puts a literal at the end.
    pub fn push(&mut self, l: Lit) -> Result<(), NoMemory>
        ensures ok { OnOk result (self.new ≡ self.old ++ l ∷ []) }
        ensures err { OnErr result (self.new ≡ self.old) }
    {
        self.literals.push(l)?;
        Ok(())
    }

    /// The number of literals.
    pub fn len(&self) -> usize
        ensures { result ≡ length self.now }
    {
        self.literals.len()
    }

    /// The literal at a place, counted from 0.
    pub fn get(&self, i: usize) -> &Lit
        requires { i < length self.now }
        ensures { slice_get self.now i ≡ Some result.now }
    {
        &self.literals[i]
    }

    /// The literals.
    pub fn slice(&self) -> &[Lit]
        ensures { result.now ≡ self.now }
    {
        self.literals.as_slice()
    }
}

/// A list of clauses. Contracts see the list of the clauses' literals.
#[derive(Drop)]
pub struct Clauses {
    items: Vec<Lits>,
}

impl Model for Clauses {
    ghost use Rattle.std.specs.Prelude.{List};
    ghost use Rattle.bs_clause.specs.Literal.{Literal};

    ghost Value = { List (List Literal) };

    ghost view = { λ clauses. clauses.items.items };
}

impl Clauses {
    /// No clauses.
    pub fn new(alloc: Global) -> Clauses
        ensures { result ≡ [] }
    {
        Clauses {
            items: Vec::new(alloc),
        }
    }

    /// Puts a clause at the end.
    pub fn push(&mut self, c: Lits) -> Result<(), NoMemory>
        ensures ok { OnOk result (self.new ≡ self.old ++ c ∷ []) }
        ensures err { OnErr result (self.new ≡ self.old) }
    {
        self.items.push(c)?;
        Ok(())
    }

    /// The number of clauses.
    pub fn len(&self) -> usize
        ensures { result ≡ length self.now }
    {
        self.items.len()
    }

    /// The clause at a place, counted from 0.
    pub fn get(&self, i: usize) -> &Lits
        requires { i < length self.now }
        ensures { slice_get self.now i ≡ Some result.now }
    {
        &self.items[i]
    }

    /// The clauses.
    pub fn slice(&self) -> &[Lits]
        ensures { result.now ≡ self.now }
    {
        self.items.as_slice()
    }

    /// The clauses as a vector of their own.
    pub fn into_vec(self) -> Vec<Lits>
        ensures { result.items ≡ self }
    {
        self.items
    }
}
