//! What the files of a request made ready.
ghost use Rattle.std.specs.Prelude.{◌≡◌, ◌≤◌, ◌+◌, None, length, All};
ghost use Rattle.bs_report.specs.declared.limits.TheConstants.{MAX_STEPS};
ghost use Rattle.bs_net.specs.Netlist.{circuit};
ghost use Rattle.bs_scan.specs.Moments.{IsMoment};
ghost use Rattle.bs_stim.specs.Runs.{inputs_of};
ghost use Rattle.bs_inspect_report_texts.specs.Fits.{fit_fault};

use bs_bits::Bits;
use bs_net::Netlist;
use bs_report::Report;
use bs_scan::{Choice, Moment};
use bs_stim::Runs;

/// A netlist, and a report that fits it.
#[derive(Drop)]
pub struct TraceFiles {
    pub net: Netlist,
    pub report: Report,
    ghost more: { length report.states ≡ length report.inputs + 1 },
    ghost states: { All (λ s. length s ≡ length (circuit net).flops) report.states },
    ghost inputs: { All (λ x. length x ≡ length (circuit net).inputs) report.inputs },
    ghost fits: { None ≡ fit_fault net.raw report },
}

/// The files of a page: a netlist and a report, and what the signature is taken of, where one is given.
#[derive(Drop)]
pub struct PageFiles {
    pub trace_files: TraceFiles,
    pub choice: Option<Choice>,
}

/// A netlist, and recorded runs.
#[derive(Drop)]
pub struct RunFiles {
    pub net: Netlist,
    pub runs: Runs,
    ghost inputs: { runs.width ≡ length (circuit net).inputs },
}

/// A netlist, recorded runs, and a report whose trace has as many bits as the netlist.
#[derive(Drop)]
pub struct BenchFiles {
    pub run_files: RunFiles,
    pub report: Report,
    ghost more: { length report.states ≡ length report.inputs + 1 },
    ghost inputs: { All (λ x. length x ≡ length (circuit run_files.net).inputs) report.inputs },
}

/// A netlist, what its signature is taken of, and a report.
#[derive(Drop)]
pub struct ReportFiles {
    pub net: Netlist,
    pub choice: Choice,
    pub report: Report,
    ghost width: { choice.width ≡ length (circuit net).flops },
    ghost few: { report.budgets.steps ≤ MAX_STEPS },
}

/// A netlist, and recorded runs of which one has a moment.
#[derive(Drop)]
pub struct OneRun {
    pub run_files: RunFiles,
    pub moment: Moment,
    ghost recorded: { IsMoment (inputs_of run_files.runs) moment },
}

/// A netlist, the flip-flops of a scan chain in its order, by their numbers from 0, of which some may be left out, and a pattern in that
/// order.
#[derive(Drop)]
pub struct Scanned {
    pub net: Netlist,
    pub order: Vec<usize>,
    pub pattern: Bits,
}
