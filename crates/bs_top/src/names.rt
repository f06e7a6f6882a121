//! The names of the files of a job, for the notes on them.
ghost use Rattle.std.specs.Prelude.{◌≡◌};
ghost use Rattle.bs_call.specs.Paths.{paths_in};
ghost use Rattle.bs_top_words.specs.Job.{Audit as AuditWords, Demo as DemoWords, Dump as DumpWords, Reach as ReachWords, Run as RunWords};
ghost use Rattle.bs_top.specs.Said.{paths_of};
ghost use Rattle.bs_top.specs.Words.{audit_job, dump_job, reach_job, run_job};

use bs_call::Paths;
use bs_top_words::{AuditJob, DumpJob, ReachJob, RunJob};

/// Those of a run.
pub fn run_paths<'a>(job: &RunJob<'a>) -> Paths<'a>
    ensures { paths_in result ≡ paths_of (RunWords (run_job job.now)) }
{
    Paths {
        netlist: job.netlist,
        signature: job.signature,
        stimulus: job.stimulus,
        dump: job.dump,
        report: "",
    }
}

/// Those of an audit, or of a waveform.
pub fn audit_paths<'a>(job: &AuditJob<'a>) -> Paths<'a>
    ensures { paths_in result ≡ paths_of (AuditWords (audit_job job.now)) }
{
    Paths {
        netlist: job.netlist,
        signature: job.signature,
        stimulus: job.stimulus,
        dump: job.dump,
        report: job.report,
    }
}

/// Those of a dump.
pub fn dump_paths<'a>(job: &DumpJob<'a>) -> Paths<'a>
    ensures { paths_in result ≡ paths_of (DumpWords (dump_job job.now)) }
{
    Paths {
        netlist: job.netlist,
        signature: job.signature,
        stimulus: job.stimulus,
        dump: "",
        report: "",
    }
}

/// Those of a search.
pub fn reach_paths<'a>(job: &ReachJob<'a>) -> Paths<'a>
    ensures { paths_in result ≡ paths_of (ReachWords (reach_job job.now)) }
{
    Paths {
        netlist: job.netlist,
        signature: "",
        stimulus: "",
        dump: "",
        report: "",
    }
}

/// A generated job has none.
pub fn demo_paths(number: u64) -> Paths<'static>
    ensures { paths_in result ≡ paths_of (DemoWords number) }
{
    let _any = number;
    Paths {
        netlist: "",
        signature: "",
        stimulus: "",
        dump: "",
        report: "",
    }
}
