//! The part of a report that is not right.

use bs_log::Why;

/// The first part of a report that fails. Steps, candidates and log lines count from 1.
#[derive(Clone, Copy)]
pub enum Part {
    /// The report is not of the depth of the signature.
    Format,
    /// The present state of this step is not the one to go back from.
    Present(u64),
    /// The stored signature of this step, or the older one, is not the one on the chip.
    Stored(u64),
    /// In this step, this candidate: it does not ascend, has another width or signature, does not lead to the present state, is one
    /// too many, or the state before it is not right.
    Candidate(u64, u64),
    /// The list of this step ends by its count with fewer candidates than were asked for, or otherwise with as many.
    Listed(u64),
    /// The hit of this step is not the first moment of a listed state, or there is one where none is named.
    Hit(u64),
    /// The cause of the stop.
    Stop,
    /// The trace.
    Trace,
    /// This line of the log is refused, for this reason.
    Log(u64, Why),
    /// The blocks of this step are not those of its candidates.
    Blocks(u64),
    /// The log does not end this step as its list says.
    Ended(u64),
}
