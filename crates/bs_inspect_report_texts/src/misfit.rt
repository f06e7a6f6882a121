//! Why a report does not fit a netlist.

/// Why a report does not fit a netlist.
#[derive(Clone, Copy)]
pub enum FitFault {
    /// The state of the trace with this number, from 0, has not one bit for each flip-flop.
    State(usize),
    /// The input of the trace with this number, from 0, has not one bit for each data input.
    Input(usize),
    /// The state of the trace with this number, from 0, does not lead to the one behind it.
    Astray(usize),
    /// The candidate of the first step with this number, from 1, does not lead to its present state.
    Candidate(usize),
}
