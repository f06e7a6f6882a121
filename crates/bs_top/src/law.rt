//! The laws of the commands.
ghost use Rattle.bs_top_files.specs.Law.{NetlistsMeanDesigns};
ghost use Rattle.bs_top.specs.Law.{AuditAcceptsWhatRunWrites, AuditFollowsRun, WaveformsReadBack};

/// On the files of a run, `audit` accepts each report that `run` may write, if the report's text is within its limit.
pub fn audit_accepts_what_run_writes()
    ensures { AuditAcceptsWhatRunWrites }
{}

/// The same of the two commands: where `run` over told files comes to its work, `audit` over these files and a report's file with
/// a text that `run` may write ends in `accepted`, or in `refused report TooLong` where the text is longer than a report may be.
pub fn audit_follows_run()
    ensures { AuditFollowsRun }
{}

/// A waveform that `wave` writes of a valid report is read as the wave of the report's trace.
pub fn waveforms_read_back()
    ensures { WaveformsReadBack }
{}

/// A netlist of several modules that is read is the flat netlist of their design, and means it: exactly one valuation of the nets
/// on all paths fits the design for each state and input, and the design's next state is that of the netlist.
pub fn netlists_mean_designs()
    ensures { NetlistsMeanDesigns }
{}
