//! What a search for a state within a bound gives.
use bs_bits::{Bits, List};
use bs_log::Log;

/// Whether a state is reached. A length is a number of cycles.
#[derive(Clone, Copy)]
pub enum Outcome {
    /// It is reached in so many cycles, and in no fewer.
    Reached(u64),
    /// It is reached in no number of cycles up to the bound.
    Unreached,
    /// It is reached in no fewer cycles, and this length is neither shown nor refuted.
    Unknown(u64),
}

/// The answer for a state: how many cycles were asked for and how many lemmas a solve might log, the outcome, the states and
/// inputs of an execution where the state is reached, and the log, which has a step for each length that was tried.
#[derive(Drop)]
pub struct Reach {
    pub asked: u64,
    pub conflicts: u64,
    pub outcome: Outcome,
    pub states: List<Bits>,
    pub inputs: List<Bits>,
    pub log: Log,
}
