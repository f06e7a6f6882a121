//! What a backtrace found: its steps, the cause of its stop, the trace, and the log of its search.

use bs_bits::{Bits, List};
use bs_log::Log;
use bs_scan::{HasState, Seen};

/// Why a backtrace stopped (docs/DEFINITIONS.md, "Stop").
#[derive(Clone, Copy, PartialEq, Eq)]
pub enum Stop {
    /// The last present state has no stored signature.
    Reset,
    /// As many steps are made as were asked for.
    Length,
    /// No moment of a run is in the last list, which is finished and not empty.
    Nohit,
    /// The last list is finished and empty.
    Empty,
    /// No moment of a run is in the last list, which met its budget of candidates.
    Candidates,
    /// No moment of a run is in the last list, which met its budget of lemmas.
    Conflicts,
}

/// A state that may stand before a candidate, and an input that leads from it to the candidate.
#[derive(Drop)]
pub struct Before {
    pub state: Bits,
    pub input: Bits,
}

/// A state that may stand before the present one, and an input that leads from it to the present one. Where the register keeps
/// an older signature too, a state that has it may stand before the candidate.
#[derive(Drop)]
pub struct Cand {
    pub state: Bits,
    pub input: Bits,
    pub before: Option<Before>,
}

impl HasState for Cand {
    ghost shown = { λ cand. cand.state };

    fn state(&self) -> &Bits {
        &self.state
    }
}

/// How a list of candidates ended.
#[derive(Clone, Copy)]
pub enum ListEnd {
    /// There is no further candidate; the number is that of the lemma that refutes one.
    Finished(u64),
    /// As many candidates are listed as were asked for.
    Candidates,
    /// The last solve logged as many lemmas as were asked for.
    Conflicts,
}

/// The moment at which a run came into a listed state. Runs count from 1, cycles from 0.
#[derive(Drop)]
pub struct HitLine {
    pub run: u32,
    pub cycle: u32,
    pub state: Bits,
}

/// One step back: what is known of the present state, with its stored signature and the older one, if the register keeps one, the candidates in
/// ascending order, how their list ended, and the first moment of a run in a listed state.
#[derive(Drop)]
pub struct Step {
    pub present: Seen,
    pub stored: Bits,
    pub older: Option<Bits>,
    pub cands: List<Cand>,
    pub end: ListEnd,
    pub hit: Option<HitLine>,
}

/// The budgets of a backtrace: so many steps, so many candidates in a step, so many lemmas in a solve.
#[derive(Clone, Copy)]
pub struct Budgets {
    pub steps: u64,
    pub candidates: u64,
    pub conflicts: u64,
}

/// The whole backtrace. `depth` is how many signatures the register keeps, 1 or 2. `states` and `inputs` are the trace: the states hit,
/// from the last step back to the first, then the one to which the first hit leads, or the dumped state where there is no hit; and
/// between two states the input that leads from one to the next. `free` are the places of the last state that are not known.
#[derive(Drop)]
pub struct Report {
    pub depth: u8,
    pub budgets: Budgets,
    pub steps: List<Step>,
    pub stop: Stop,
    pub states: List<Bits>,
    pub inputs: List<Bits>,
    pub free: Bits,
    pub log: Log,
}
