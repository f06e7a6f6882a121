//! How a solve ends.
use crate::solution::Solution;

/// How a solve ends.
#[derive(Drop)]
pub enum Answer {
    /// Values of all variables in use, under which every standing clause and every assumption is true.
    Found(Solution),
    /// The lemma of this id denies only assumptions.
    Refuted(u64),
    /// As many lemmas were logged as the limit allows, and none of them ends the solve.
    Spent,
}
