//! What the files of a job made ready.
ghost use Rattle.std.specs.Prelude.{◌≡◌, ◌≤◌, length};
ghost use Rattle.bs_net.specs.Netlist.{circuit};
ghost use Rattle.bs_report.specs.declared.limits.TheConstants.{MAX_STEPS};
ghost use Rattle.bs_stim.specs.Runs.{inputs_of};
ghost use Rattle.bs_scan.specs.Crash.{DumpFits};
ghost use Rattle.bs_scan.specs.Moments.{IsMoment};
ghost use Rattle.std.proofs.Props.{props};
ghost use Rattle.bs_top_files.specs.Props.{depth_prop, seen_prop};

use bs_net::Netlist;
use bs_report::Report;
use bs_scan::{Choice, Dump, Moment};
use bs_stim::Runs;

/// The names of the first three files of a job.
#[derive(Clone, Copy)]
pub struct FileNames<'a> {
    pub netlist: &'a str,
    pub signature: &'a str,
    pub stimulus: &'a str,
}

/// A netlist, what its signature is taken of, and the recorded runs.
#[derive(Drop)]
pub struct Setup {
    pub net: Netlist,
    pub choice: Choice,
    pub runs: Runs,
    ghost states: { choice.width ≡ length (circuit net).flops },
    ghost inputs: { runs.width ≡ length (circuit net).inputs },
}

/// A setup and a moment of its runs.
#[derive(Drop)]
pub struct MomentFiles {
    pub setup: Setup,
    pub moment: Moment,
    ghost recorded: { IsMoment (inputs_of setup.runs) moment },
}

/// A setup and the dump of the crashed chip.
#[derive(Drop)]
pub struct CrashFiles {
    pub setup: Setup,
    pub dump: Dump,
    ghost fits: { DumpFits (circuit setup.net) setup.choice dump } by { Prim.hlevel (props, depth_prop, seen_prop) },
}

/// A crash and a report of its backtrace.
#[derive(Drop)]
pub struct AuditFiles {
    pub crash_files: CrashFiles,
    pub report: Report,
    ghost steps: { report.budgets.steps ≤ MAX_STEPS },
}
