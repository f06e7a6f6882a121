//! The requests: a command, its files and its options.
use crate::causes::WhyRequest;
use crate::paged::PageRequest;
use crate::proposed::{NovelRequest, SignatureRequest};
use bs_inspect_usages::TraceWindow;
use bs_vcd::When;

/// `keys`: the name of its file, and one name or more.
#[derive(Drop)]
pub struct KeysRequest<'a> {
    pub netlist: &'a str,
    pub names: Vec<&'a str>,
}

/// `seen`: the name of its file, and one name with a value or more.
#[derive(Drop)]
pub struct SeenRequest<'a> {
    pub netlist: &'a str,
    pub values: Vec<&'a str>,
}

/// `trace`: the names of its files, whether it tells every flip-flop and data input in each cycle, which states, and the names that it
/// tells alone, where there are any.
#[derive(Drop)]
pub struct TraceRequest<'a> {
    pub netlist: &'a str,
    pub report: &'a str,
    pub all: bool,
    pub window: TraceWindow,
    pub only: Vec<&'a str>,
}

/// `candidates`: the names of its files, and the names that it tells alone, where there are any.
#[derive(Drop)]
pub struct ListsRequest<'a> {
    pub netlist: &'a str,
    pub report: &'a str,
    pub only: Vec<&'a str>,
}

/// `wave`: the names of its files, whether it draws nets whose names nobody gave, the cycle at which it begins, and the names that it
/// draws alone, where there are any.
#[derive(Drop)]
pub struct WaveRequest<'a> {
    pub netlist: &'a str,
    pub report: &'a str,
    pub all: bool,
    pub from: u64,
    pub only: Vec<&'a str>,
}

/// `gtkw`: the names of its files, that of the waveform, and what the waveform draws: nets whose names nobody gave, the cycle at which
/// it begins, and the names that it draws alone, where there are any.
#[derive(Drop)]
pub struct GtkwRequest<'a> {
    pub netlist: &'a str,
    pub report: &'a str,
    pub wave: &'a str,
    pub all: bool,
    pub from: u64,
    pub only: Vec<&'a str>,
}

/// `stimulus`: the names of its files, of which those of values are one or more, the name of the clock, the path of a scope and the
/// file of the names that the inputs have in a simulation, where there are any.
#[derive(Drop)]
pub struct StimulusRequest<'a> {
    pub netlist: &'a str,
    pub vcds: Vec<&'a str>,
    pub clock: &'a str,
    pub scope: Option<&'a str>,
    pub names: Option<&'a str>,
}

/// `dump`: the names of its files, and when it is taken; the name of the clock, the path of a scope, the file of the names that the
/// flip-flops have in a simulation, and that of a signature, where they are given; and whether bits may be unknown there.
#[derive(Clone, Copy)]
pub struct DumpRequest<'a> {
    pub netlist: &'a str,
    pub vcd: &'a str,
    pub at: When,
    pub clock: Option<&'a str>,
    pub scope: Option<&'a str>,
    pub names: Option<&'a str>,
    pub signature: Option<&'a str>,
    pub partial: bool,
}

/// `check`: the names of its files, of which those of values are one or more; the name of the clock, the path of a scope and the file of
/// the names that the flip-flops have in a simulation, where they are given.
#[derive(Drop)]
pub struct CheckRequest<'a> {
    pub netlist: &'a str,
    pub runs: &'a str,
    pub vcds: Vec<&'a str>,
    pub clock: Option<&'a str>,
    pub scope: Option<&'a str>,
    pub names: Option<&'a str>,
}

/// `unscan`: the names of its files, and the bits of a pattern.
#[derive(Clone, Copy)]
pub struct UnscanRequest<'a> {
    pub netlist: &'a str,
    pub order: &'a str,
    pub pattern: &'a str,
}

/// `near`: the names of its files.
#[derive(Clone, Copy)]
pub struct NearRequest<'a> {
    pub netlist: &'a str,
    pub runs: &'a str,
    pub dump: &'a str,
}

/// `bench`: the names of its files, and that of the module that it drives.
#[derive(Clone, Copy)]
pub struct BenchRequest<'a> {
    pub netlist: &'a str,
    pub runs: &'a str,
    pub report: &'a str,
    pub top: &'a str,
}

/// `cnf` and `lrat`: the names of its files, and the number of a step; where there is none, all lists are meant.
#[derive(Clone, Copy)]
pub struct EvidenceRequest<'a> {
    pub netlist: &'a str,
    pub signature: &'a str,
    pub report: &'a str,
    pub step: Option<u64>,
}

/// `reach-cnf` and `reach-lrat`: the names of its files, the bits of a state, and a length; where there is none, all lengths that the
/// answer refutes are meant.
#[derive(Clone, Copy)]
pub struct LengthsRequest<'a> {
    pub netlist: &'a str,
    pub state: &'a str,
    pub answer: &'a str,
    pub length: Option<u64>,
}

/// What a command line asks to be told.
#[derive(Drop)]
pub enum Request<'a> {
    /// How the words stand.
    Help,
    /// The version.
    Version,
    /// The flip-flops of a netlist, in the order of a state's bits.
    Flops(&'a str),
    /// The data inputs of a netlist, in order.
    Inputs(&'a str),
    /// The sizes of a netlist.
    Stats(&'a str),
    /// The keys of the flip-flops that names stand for.
    Keys(KeysRequest<'a>),
    /// The state of which the values of some flip-flops are known.
    Seen(SeenRequest<'a>),
    /// The trace of a report with the names of a netlist.
    Trace(TraceRequest<'a>),
    /// The same as a table.
    TraceTable(TraceRequest<'a>),
    /// The steps of a report.
    Steps(&'a str),
    /// The same as a table.
    StepsTable(&'a str),
    /// The lists of a report with the names of a netlist.
    Lists(ListsRequest<'a>),
    /// The waveform of a report's trace, as viewers take it.
    Wave(WaveRequest<'a>),
    /// What a viewer is to show of that waveform.
    Gtkw(GtkwRequest<'a>),
    /// A stimulus out of the values of a simulator, a run for each file.
    Stimulus(StimulusRequest<'a>),
    /// A dump out of the values of a simulator.
    Dump(DumpRequest<'a>),
    /// Recorded runs beside the values of a simulator, a file for each run.
    Check(CheckRequest<'a>),
    /// A signature that recorded runs propose.
    Signature(SignatureRequest<'a>),
    /// The state that a pattern of a scan chain is.
    Unscan(UnscanRequest<'a>),
    /// The trace of a report as a test bench.
    Bench(BenchRequest<'a>),
    /// The clauses on which a step's list stands, or all lists.
    Cnf(EvidenceRequest<'a>),
    /// The proof that a step's list is complete, or all lists.
    Lrat(EvidenceRequest<'a>),
    /// The clauses on which it stands that a state is not reached in a length, or in any that an answer refutes.
    ReachCnf(LengthsRequest<'a>),
    /// The proof that a state is not reached in a length, or in any that an answer refutes.
    ReachLrat(LengthsRequest<'a>),
    /// A report as a page.
    Page(PageRequest<'a>),
    /// The values that one recorded run alone has.
    Novel(NovelRequest<'a>),
    /// The recorded moment that a dump's state is nearest to.
    Near(NearRequest<'a>),
    /// What forces the bits of a name in a trace.
    Why(WhyRequest<'a>),
}
