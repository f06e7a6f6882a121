//! Why lists of a report have no evidence.
use bs_log::Why;

/// Why a list of a report, or all of them, have no evidence.
#[derive(Clone, Copy)]
pub enum Flaw {
    /// The report keeps another number of signatures than the signature's register.
    Format,
    /// The report has more steps than it was asked for.
    Stop,
    /// The present state of this step, counted from 1, has another number of bits than the netlist.
    Present(u64),
    /// The signatures of this step are not those that the register keeps.
    Stored(u64),
    /// The report has no such step.
    NoStep,
    /// This line of the log, counted from 1, is the first that is refused.
    Log(u64, Why),
    /// The log does not finish the step, or, where all are asked for, none.
    Unfinished,
    /// There are 2^32 clauses, assumptions or lines, or more.
    Long,
}

/// The text, or why there is none.
#[derive(Drop)]
pub enum Evidence {
    Text(Vec<u8>),
    Flawed(Flaw),
}
