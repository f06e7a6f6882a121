//! Laws of good and of valid reports.
ghost use Rattle.bs_report.specs.GoodLaw.{FinishedReachReset, LaterHitsAreEarlier, TracesEndExecutions, UnhitIsFirst};
ghost use Rattle.bs_report.specs.GoodLaw.{WholeDumpsEndTraces, WholeStatesAreLedTo};
ghost use Rattle.bs_report.specs.ValidLaw.{GoodIsValid, ValidIsGood};

/// In a good report each later finished step has a hit, at a smaller cycle than the step before it.
pub fn later_hits_are_earlier()
    ensures { LaterHitsAreEarlier }
{}

/// In a good report a trace of at least one step ends an execution from reset, under a supplied run's inputs up to the
/// moment of the last hit and then the trace's, which ends in a state that shows what the dump does.
pub fn a_trace_ends_an_execution()
    ensures { TracesEndExecutions }
{}

/// A valid report is good, where the clauses and the steps' assumptions are those of the netlist.
pub fn a_valid_report_is_good()
    ensures { ValidIsGood }
{}

/// A good report is valid, where it is of the depth of the signature and names the right state before each candidate, and its log
/// is accepted and has to each step the blocks and the finish lines that are due.
pub fn a_good_report_is_valid()
    ensures { GoodIsValid }
{}

/// In a good report a finished list without a hit is the first one, and where all lists are finished and the budget of
/// steps allows it, the backtrace stops at reset after at most one step more than the first hit's cycle.
pub fn finished_lists_reach_reset()
    ensures first { UnhitIsFirst }
    ensures reset { FinishedReachReset }
{}

/// Where all of the dumped state is known, a trace ends in it, and a candidate leads to it.
pub fn whole_dumps_end_traces()
    ensures ends { WholeDumpsEndTraces }
    ensures leads { WholeStatesAreLedTo }
{}
