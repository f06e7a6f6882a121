//! The statuses of a call, and the exit codes of the program (docs/FORMATS.md, "Statuses").
ghost use Rattle.std.specs.Prelude.{◌≡◌};
ghost use Rattle.bs_outside.specs.Statuses.{code_of};

/// The exit code for out of memory, which has no status.
pub const NO_MEMORY_CODE: u8 = 14;

/// How a call ended. A status of the name of a file says that this file is refused.
#[derive(Clone, Copy, Debug, PartialEq, Eq)]
pub enum Status {
    /// A run stopped by length or reset; a report is accepted; a dump, a summary or a wave is written; a state is reached.
    Done,
    /// The words are no job.
    Words,
    /// A run stopped since no recorded run hits a listed state.
    Nohit,
    /// A run stopped since no candidate exists.
    Empty,
    /// A run, or a search for a state, stopped since a budget is spent.
    Spent,
    Netlist,
    Signature,
    Stimulus,
    /// The dump is refused, or there is no such moment to dump.
    Dump,
    Report,
    /// A state among the words is refused. The exit code is that of a dump.
    Target,
    /// The report is not valid.
    Rejected,
    /// A fetch failed.
    ReadFault,
    /// A put failed.
    WriteFault,
    /// A state is reached in no number of cycles up to the bound.
    Unreached,
    Vcd,
    Map,
    /// A name among the words is refused.
    Name,
}

impl Status {
    /// The exit code of the program.
    pub fn code(&self) -> u8
        ensures { result ≡ code_of self.now }
    {
        match self {
            Status::Done => 0,
            Status::Words => 2,
            Status::Nohit => 3,
            Status::Empty => 4,
            Status::Spent => 5,
            Status::Netlist => 6,
            Status::Signature => 7,
            Status::Stimulus => 8,
            Status::Dump | Status::Target => 9,
            Status::Report => 10,
            Status::Rejected => 11,
            Status::ReadFault => 12,
            Status::WriteFault => 13,
            Status::Unreached => 15,
            Status::Vcd => 16,
            Status::Map => 17,
            Status::Name => 18,
        }
    }
}
