//! The references by which an arena's clauses are named.
ghost use Rattle.std.specs.Prelude.{◌≡◌, ◌<◌};

use std::marker::Model;

/// How many words an arena has at most, so that a reference takes four bytes.
pub const WORD_LIMIT: usize = 1 << 32;

/// Names a clause of the arena that made it, until that clause is killed or the arena compacted.
/// Contracts see the place of the clause's first word, counted from 0.
#[derive(Clone, Copy)]
pub struct Ref {
    at: u32,
}

impl Model for Ref {
    ghost use Rattle.std.specs.Prelude.{ℕ};

    ghost Value = { ℕ };

    ghost view = { λ r. r.at };

    ghost inverse = { λ n. record { at = n } };
}

impl Ref {
    pub(crate) fn new(at: usize) -> Ref
        requires { at < WORD_LIMIT }
        ensures { result ≡ at }
    {
        Ref { at: at as u32 }
    }

    pub(crate) fn at(self) -> usize
        ensures { result ≡ self }
    {
        self.at as usize
    }
}
