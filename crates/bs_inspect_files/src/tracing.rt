//! The walks over the files of a report and of recorded runs: each file is fetched and read once, up to the first that stops the walk.
ghost use Rattle.std.specs.Prelude.{◌≡◌, ◌+◌, length, map};
ghost use Rattle.bs_net.specs.Netlist.{circuit};
ghost use Rattle.bs_outside.specs.Telling.{WalksDiagnosed};
ghost use Rattle.bs_top_files.specs.Causes.{CheckSays, NoteSays};
ghost use Rattle.bs_inspect_files.specs.Taken.{bench_files_in, bench_files_of, chart_step, charted_of, choice_step, drawn_step, drive_step, driven_step, fit_step, one_run_in, one_run_of, picked_of, report_files_in, report_files_of, report_files_step, report_step, run_files_in, run_files_of, runs_step, trace_files_in, trace_files_of};

use crate::called::called_or_diagnostic;
use crate::fits::{fit_or_diagnostic, known_or_diagnostic};
use crate::ready::{BenchFiles, OneRun, ReportFiles, RunFiles, TraceFiles};
use bs_net::Netlist;
use bs_outside::{File, Shelf, WalkStop, settle_diagnostic};
use bs_reach_answer::load_trace;
use bs_report::Report;
use bs_scan::Choice;
use bs_top_files::{
    load_netlist, load_report, load_signature, load_stimulus, moment_or_diagnostic,
    size_or_diagnostic,
};
use std::alloc::Global;

/// Drops a value, which a walk that stops lets go.
fn let_go<T: Drop>(_value: T) {}

/// A netlist and a report, where its trace fits, which may be known in part or not.
fn load_fitting<S: Shelf>(
    alloc: Global,
    _shelf: &mut S,
    partial: bool,
    net: Netlist,
    report: Report,
    path: &str,
) -> Result<TraceFiles, WalkStop>
    requires { length report.states ≡ length report.inputs + 1 }
    ensures { WalksDiagnosed CheckSays NoteSays S.held S.faults S.leads _shelf.old _shelf.new
        (fit_step partial path.now net.raw report) trace_files_in result }
{
    let fits = fit_or_diagnostic(alloc, partial, path, &net, &report);
    match settle_diagnostic(File::Report, fits) {
        Ok(()) => Ok(TraceFiles { net, report }),
        Err(stop) => {
            let_go(net);
            let_go(report);
            Err(stop)
        }
    }
}

/// A netlist, and the report of a file whose trace, which may be known in part or not, fits it, or the answer of a file whose execution
/// does.
pub(crate) fn load_reported<S: Shelf>(
    alloc: Global,
    shelf: &mut S,
    partial: bool,
    net: Netlist,
    path: &str,
) -> Result<TraceFiles, WalkStop>
    ensures { WalksDiagnosed CheckSays NoteSays S.held S.faults S.leads shelf.old shelf.new
        (report_step partial net.raw path.now) trace_files_in result }
{
    match load_trace(alloc, shelf, path) {
        Ok(report) => load_fitting(alloc, shelf, partial, net, report, path),
        Err(stop) => {
            let_go(net);
            Err(stop)
        }
    }
}

/// A netlist, and a report whose trace, which may be known in part or not, fits it.
fn load_trace_files<S: Shelf>(
    alloc: Global,
    shelf: &mut S,
    partial: bool,
    netlist: &str,
    report: &str,
) -> Result<TraceFiles, WalkStop>
    ensures { WalksDiagnosed CheckSays NoteSays S.held S.faults S.leads shelf.old shelf.new
        (trace_files_of partial netlist.now report.now) trace_files_in result }
{
    match load_netlist(alloc, shelf, netlist) {
        Ok(net) => load_reported(alloc, shelf, partial, net, report),
        Err(stop) => Err(stop),
    }
}

/// The same of a trace that may be known in part, where the netlist has these names.
pub fn load_picked<S: Shelf>(
    alloc: Global,
    shelf: &mut S,
    netlist: &str,
    report: &str,
    only: &[&str],
) -> Result<TraceFiles, WalkStop>
    ensures { WalksDiagnosed CheckSays NoteSays S.held S.faults S.leads shelf.old shelf.new
        (picked_of netlist.now report.now (map (λ s. s.now) only.now)) trace_files_in result }
{
    let trace_files = load_trace_files(alloc, shelf, true, netlist, report)?;
    let known = known_or_diagnostic(alloc, &trace_files.net, only);
    match settle_diagnostic(File::Name, known) {
        Ok(()) => Ok(trace_files),
        Err(stop) => {
            let_go(trace_files);
            Err(stop)
        }
    }
}

/// A netlist and a report, where nets have these names.
fn load_drawn<S: Shelf>(
    alloc: Global,
    _shelf: &mut S,
    trace_files: TraceFiles,
    only: &[&str],
) -> Result<TraceFiles, WalkStop>
    ensures { WalksDiagnosed CheckSays NoteSays S.held S.faults S.leads _shelf.old _shelf.new
        (drawn_step (map (λ s. s.now) only.now) (trace_files_in trace_files)) trace_files_in result }
{
    match settle_diagnostic(
        File::Name,
        called_or_diagnostic(alloc, &trace_files.net, only),
    ) {
        Ok(()) => Ok(trace_files),
        Err(stop) => {
            let_go(trace_files);
            Err(stop)
        }
    }
}

/// The same, where a waveform of the report's trace is not too large.
fn load_small<S: Shelf>(
    alloc: Global,
    shelf: &mut S,
    trace_files: TraceFiles,
    path: &str,
    only: &[&str],
) -> Result<TraceFiles, WalkStop>
    ensures { WalksDiagnosed CheckSays NoteSays S.held S.faults S.leads shelf.old shelf.new
        (chart_step path.now (map (λ s. s.now) only.now) (trace_files_in trace_files)) trace_files_in result }
{
    let size = size_or_diagnostic(alloc, path, &trace_files.net, &trace_files.report);
    match settle_diagnostic(File::Report, size) {
        Ok(()) => load_drawn(alloc, shelf, trace_files, only),
        Err(stop) => {
            let_go(trace_files);
            Err(stop)
        }
    }
}

/// A netlist, and a report whose trace is known and fits it, where a waveform of the trace is not too large, and nets have these names.
pub fn load_charted<S: Shelf>(
    alloc: Global,
    shelf: &mut S,
    netlist: &str,
    report: &str,
    only: &[&str],
) -> Result<TraceFiles, WalkStop>
    ensures { WalksDiagnosed CheckSays NoteSays S.held S.faults S.leads shelf.old shelf.new
        (charted_of netlist.now report.now (map (λ s. s.now) only.now)) trace_files_in result }
{
    match load_trace_files(alloc, shelf, false, netlist, report) {
        Ok(trace_files) => load_small(alloc, shelf, trace_files, report, only),
        Err(stop) => Err(stop),
    }
}

/// A netlist, and the recorded runs of a file.
fn load_runs<S: Shelf>(
    alloc: Global,
    shelf: &mut S,
    net: Netlist,
    runs: &str,
) -> Result<RunFiles, WalkStop>
    ensures { WalksDiagnosed CheckSays NoteSays S.held S.faults S.leads shelf.old shelf.new
        (runs_step net.raw runs.now) run_files_in result }
{
    match load_stimulus(alloc, shelf, runs, &net) {
        Ok(runs) => Ok(RunFiles { net, runs }),
        Err(stop) => {
            let_go(net);
            Err(stop)
        }
    }
}

/// A netlist, and recorded runs.
pub fn load_run_files<S: Shelf>(
    alloc: Global,
    shelf: &mut S,
    netlist: &str,
    runs: &str,
) -> Result<RunFiles, WalkStop>
    ensures { WalksDiagnosed CheckSays NoteSays S.held S.faults S.leads shelf.old shelf.new
        (run_files_of netlist.now runs.now) run_files_in result }
{
    match load_netlist(alloc, shelf, netlist) {
        Ok(net) => load_runs(alloc, shelf, net, runs),
        Err(stop) => Err(stop),
    }
}

/// A netlist and a signature, and the report of a file.
fn load_list<S: Shelf>(
    alloc: Global,
    shelf: &mut S,
    net: Netlist,
    choice: Choice,
    report: &str,
) -> Result<ReportFiles, WalkStop>
    requires { choice.width ≡ length (circuit net).flops }
    ensures { WalksDiagnosed CheckSays NoteSays S.held S.faults S.leads shelf.old shelf.new
        (report_files_step net.raw choice report.now) report_files_in result }
{
    match load_report(alloc, shelf, report) {
        Ok(report) => Ok(ReportFiles {
            net,
            choice,
            report,
        }),
        Err(stop) => {
            let_go(net);
            let_go(choice);
            Err(stop)
        }
    }
}

/// A netlist, and the signature and the report of files.
fn load_choice<S: Shelf>(
    alloc: Global,
    shelf: &mut S,
    net: Netlist,
    signature: &str,
    report: &str,
) -> Result<ReportFiles, WalkStop>
    ensures { WalksDiagnosed CheckSays NoteSays S.held S.faults S.leads shelf.old shelf.new
        (choice_step net.raw signature.now report.now) report_files_in result }
{
    match load_signature(alloc, shelf, signature, &net) {
        Ok(choice) => load_list(alloc, shelf, net, choice, report),
        Err(stop) => {
            let_go(net);
            Err(stop)
        }
    }
}

/// A netlist, a signature and a report.
pub fn load_report_files<S: Shelf>(
    alloc: Global,
    shelf: &mut S,
    netlist: &str,
    signature: &str,
    report: &str,
) -> Result<ReportFiles, WalkStop>
    ensures { WalksDiagnosed CheckSays NoteSays S.held S.faults S.leads shelf.old shelf.new
        (report_files_of netlist.now signature.now report.now) report_files_in result }
{
    match load_netlist(alloc, shelf, netlist) {
        Ok(net) => load_choice(alloc, shelf, net, signature, report),
        Err(stop) => Err(stop),
    }
}

/// A netlist, and recorded runs that have a run of this number.
pub fn load_one_run<S: Shelf>(
    alloc: Global,
    shelf: &mut S,
    netlist: &str,
    runs: &str,
    run: u64,
) -> Result<OneRun, WalkStop>
    ensures { WalksDiagnosed CheckSays NoteSays S.held S.faults S.leads shelf.old shelf.new
        (one_run_of netlist.now runs.now run) one_run_in result }
{
    let run_files = load_run_files(alloc, shelf, netlist, runs)?;
    match settle_diagnostic(
        File::Dump,
        moment_or_diagnostic(alloc, &run_files.runs, run, 0),
    ) {
        Ok(moment) => Ok(OneRun { run_files, moment }),
        Err(stop) => {
            let_go(run_files);
            Err(stop)
        }
    }
}

/// A netlist, recorded runs and a report, where its trace fits.
fn load_driven<S: Shelf>(
    alloc: Global,
    _shelf: &mut S,
    run_files: RunFiles,
    report: Report,
    path: &str,
) -> Result<BenchFiles, WalkStop>
    requires { length report.states ≡ length report.inputs + 1 }
    ensures { WalksDiagnosed CheckSays NoteSays S.held S.faults S.leads _shelf.old _shelf.new
        (driven_step path.now (run_files_in run_files) report) bench_files_in result }
{
    let fits = fit_or_diagnostic(alloc, false, path, &run_files.net, &report);
    match settle_diagnostic(File::Report, fits) {
        Ok(()) => Ok(BenchFiles { run_files, report }),
        Err(stop) => {
            let_go(run_files);
            let_go(report);
            Err(stop)
        }
    }
}

/// A netlist and recorded runs, and the report of a file whose trace fits, or the answer of a file whose execution does.
fn load_driving<S: Shelf>(
    alloc: Global,
    shelf: &mut S,
    run_files: RunFiles,
    path: &str,
) -> Result<BenchFiles, WalkStop>
    ensures { WalksDiagnosed CheckSays NoteSays S.held S.faults S.leads shelf.old shelf.new
        (drive_step (run_files_in run_files) path.now) bench_files_in result }
{
    match load_trace(alloc, shelf, path) {
        Ok(report) => load_driven(alloc, shelf, run_files, report, path),
        Err(stop) => {
            let_go(run_files);
            Err(stop)
        }
    }
}

/// A netlist, recorded runs, and a report whose trace fits.
pub fn load_bench_files<S: Shelf>(
    alloc: Global,
    shelf: &mut S,
    netlist: &str,
    runs: &str,
    report: &str,
) -> Result<BenchFiles, WalkStop>
    ensures { WalksDiagnosed CheckSays NoteSays S.held S.faults S.leads shelf.old shelf.new
        (bench_files_of netlist.now runs.now report.now) bench_files_in result }
{
    match load_run_files(alloc, shelf, netlist, runs) {
        Ok(run_files) => load_driving(alloc, shelf, run_files, report),
        Err(stop) => Err(stop),
    }
}
