//! Where the clauses of a log come from.

/// Where a clause of a log comes from.
#[derive(Clone, Copy, PartialEq, Eq)]
pub enum Origin {
    /// It stood before the first line.
    Axiom,
    /// A lemma line added it.
    Learnt,
    /// A block line added it.
    Blocked,
    /// A retire line added it.
    Retired,
}
