//! The files of a job are fetched and read one after the other, each once, up to the first that stops the walk: its refusal has its line
//! and its note.
ghost use Rattle.std.specs.Prelude.{◌≡◌, ◌≤◌, ◌+◌, length, IfOk};
ghost use Rattle.bs_net.specs.Netlist.{circuit};
ghost use Rattle.bs_report.specs.declared.limits.TheConstants.{MAX_STEPS};
ghost use Rattle.bs_scan.specs.Crash.{DumpFits};
ghost use Rattle.bs_outside.specs.Telling.{WalksDiagnosed};
ghost use Rattle.bs_top_files.specs.Causes.{CheckSays, NoteSays};
ghost use Rattle.bs_top_files.specs.Entry.{audit_files_of, crash_files_of, drawn_of, dump_of, netlist_of, moment_files_of, report_of, setup_of, signature_of, stimulus_of};
ghost use Rattle.bs_top_files.specs.Ready.{audit_files_in, crash_files_in, names_in, moment_files_in, setup_in};
ghost use Rattle.bs_top_files.specs.Steps.{choice_step, claim_step, crash_step, runs_step};

use crate::extent::{moment_or_diagnostic, size_or_diagnostic};
use crate::netlist::netlist_or_diagnostic;
use crate::ready::{AuditFiles, CrashFiles, FileNames, MomentFiles, Setup};
use crate::texts::{
    dump_or_diagnostic, report_or_diagnostic, signature_or_diagnostic, stimulus_or_diagnostic,
};
use bs_net::Netlist;
use bs_outside::{File, Shelf, WalkStop, fetch_file, settle_diagnostic};
use bs_report::Report;
use bs_scan::{Choice, Dump};
use bs_stim::Runs;
use std::alloc::Global;

// ---- a file

/// The netlist.
pub fn load_netlist<S: Shelf>(alloc: Global, shelf: &mut S, name: &str) -> Result<Netlist, WalkStop>
    ensures { WalksDiagnosed CheckSays NoteSays S.held S.faults S.leads shelf.old shelf.new
        (netlist_of name.now) (λ net. net.raw) result }
{
    let bytes = fetch_file(alloc, shelf, File::Netlist, name)?;
    settle_diagnostic(File::Netlist, netlist_or_diagnostic(alloc, name, &bytes))
}

/// What the netlist's signature is taken of.
pub fn load_signature<S: Shelf>(
    alloc: Global,
    shelf: &mut S,
    name: &str,
    net: &Netlist,
) -> Result<Choice, WalkStop>
    ensures walks { WalksDiagnosed CheckSays NoteSays S.held S.faults S.leads shelf.old shelf.new
        (signature_of net.now.raw name.now) (λ choice. choice) result }
    ensures width { IfOk result (λ choice. choice.width ≡ length (circuit net.now).flops) }
{
    let bytes = fetch_file(alloc, shelf, File::Signature, name)?;
    settle_diagnostic(
        File::Signature,
        signature_or_diagnostic(alloc, name, &bytes, net),
    )
}

/// The recorded runs.
pub fn load_stimulus<S: Shelf>(
    alloc: Global,
    shelf: &mut S,
    name: &str,
    net: &Netlist,
) -> Result<Runs, WalkStop>
    ensures walks { WalksDiagnosed CheckSays NoteSays S.held S.faults S.leads shelf.old shelf.new
        (stimulus_of net.now.raw name.now) (λ runs. runs) result }
    ensures width { IfOk result (λ runs. runs.width ≡ length (circuit net.now).inputs) }
{
    let bytes = fetch_file(alloc, shelf, File::Stimulus, name)?;
    settle_diagnostic(
        File::Stimulus,
        stimulus_or_diagnostic(alloc, name, &bytes, net),
    )
}

/// The dump of the crashed chip.
pub fn load_dump<S: Shelf>(
    alloc: Global,
    shelf: &mut S,
    name: &str,
    setup: &Setup,
) -> Result<Dump, WalkStop>
    ensures walks { WalksDiagnosed CheckSays NoteSays S.held S.faults S.leads shelf.old shelf.new
        (dump_of (setup_in setup.now) name.now) (λ dump. dump) result }
    ensures fits { IfOk result (λ dump. DumpFits (circuit setup.now.net) setup.now.choice dump) }
{
    let bytes = fetch_file(alloc, shelf, File::Dump, name)?;
    settle_diagnostic(
        File::Dump,
        dump_or_diagnostic(alloc, name, &bytes, &setup.net, &setup.choice),
    )
}

/// The report of a backtrace.
pub fn load_report<S: Shelf>(alloc: Global, shelf: &mut S, name: &str) -> Result<Report, WalkStop>
    ensures walks { WalksDiagnosed CheckSays NoteSays S.held S.faults S.leads shelf.old shelf.new
        (report_of name.now) (λ report. report) result }
    ensures steps { IfOk result (λ report. report.budgets.steps ≤ MAX_STEPS) }
    ensures more { IfOk result (λ report. length report.states ≡ length report.inputs + 1) }
{
    let bytes = fetch_file(alloc, shelf, File::Report, name)?;
    settle_diagnostic(File::Report, report_or_diagnostic(alloc, name, &bytes))
}

// ---- several files

/// Drops a value, which a walk that stops lets go.
fn let_go<T: Drop>(_value: T) {}

/// The setup of a netlist and what its signature is taken of, with the runs of a file.
fn load_runs<S: Shelf>(
    alloc: Global,
    shelf: &mut S,
    names: &FileNames<'_>,
    net: Netlist,
    choice: Choice,
) -> Result<Setup, WalkStop>
    requires { choice.width ≡ length (circuit net).flops }
    ensures { WalksDiagnosed CheckSays NoteSays S.held S.faults S.leads shelf.old shelf.new
        (runs_step (names_in names.now) net.raw choice) setup_in result }
{
    match load_stimulus(alloc, shelf, names.stimulus, &net) {
        Ok(runs) => Ok(Setup { net, choice, runs }),
        Err(stop) => {
            let_go(net);
            let_go(choice);
            Err(stop)
        }
    }
}

/// The setup of a netlist, with the signature and the runs of files.
fn load_choice<S: Shelf>(
    alloc: Global,
    shelf: &mut S,
    names: &FileNames<'_>,
    net: Netlist,
) -> Result<Setup, WalkStop>
    ensures { WalksDiagnosed CheckSays NoteSays S.held S.faults S.leads shelf.old shelf.new
        (choice_step (names_in names.now) net.raw) setup_in result }
{
    match load_signature(alloc, shelf, names.signature, &net) {
        Ok(choice) => load_runs(alloc, shelf, names, net, choice),
        Err(stop) => {
            let_go(net);
            Err(stop)
        }
    }
}

/// The netlist, the signature and the stimulus of a job, by the names of their files.
pub fn load_setup<S: Shelf>(
    alloc: Global,
    shelf: &mut S,
    names: &FileNames<'_>,
) -> Result<Setup, WalkStop>
    ensures { WalksDiagnosed CheckSays NoteSays S.held S.faults S.leads shelf.old shelf.new
        (setup_of (names_in names.now)) setup_in result }
{
    match load_netlist(alloc, shelf, names.netlist) {
        Ok(net) => load_choice(alloc, shelf, names, net),
        Err(stop) => Err(stop),
    }
}

/// The same, and a moment of the runs.
pub fn load_moment_files<S: Shelf>(
    alloc: Global,
    shelf: &mut S,
    names: &FileNames<'_>,
    run: u64,
    cycle: u64,
) -> Result<MomentFiles, WalkStop>
    ensures { WalksDiagnosed CheckSays NoteSays S.held S.faults S.leads shelf.old shelf.new
        (moment_files_of (names_in names.now) run cycle) moment_files_in result }
{
    let setup = load_setup(alloc, shelf, names)?;
    match settle_diagnostic(
        File::Dump,
        moment_or_diagnostic(alloc, &setup.runs, run, cycle),
    ) {
        Ok(moment) => Ok(MomentFiles { setup, moment }),
        Err(stop) => {
            let_go(setup);
            Err(stop)
        }
    }
}

/// A setup, with the dump of a file.
fn load_crash<S: Shelf>(
    alloc: Global,
    shelf: &mut S,
    setup: Setup,
    name: &str,
) -> Result<CrashFiles, WalkStop>
    ensures { WalksDiagnosed CheckSays NoteSays S.held S.faults S.leads shelf.old shelf.new
        (crash_step (setup_in setup) name.now) crash_files_in result }
{
    match load_dump(alloc, shelf, name, &setup) {
        Ok(dump) => Ok(CrashFiles { setup, dump }),
        Err(stop) => {
            let_go(setup);
            Err(stop)
        }
    }
}

/// The three files, and the dump.
pub fn load_crash_files<S: Shelf>(
    alloc: Global,
    shelf: &mut S,
    names: &FileNames<'_>,
    dump: &str,
) -> Result<CrashFiles, WalkStop>
    ensures { WalksDiagnosed CheckSays NoteSays S.held S.faults S.leads shelf.old shelf.new
        (crash_files_of (names_in names.now) dump.now) crash_files_in result }
{
    match load_setup(alloc, shelf, names) {
        Ok(setup) => load_crash(alloc, shelf, setup, dump),
        Err(stop) => Err(stop),
    }
}

/// A crash, with the report of a file.
fn load_claim<S: Shelf>(
    alloc: Global,
    shelf: &mut S,
    crash_files: CrashFiles,
    name: &str,
) -> Result<AuditFiles, WalkStop>
    ensures { WalksDiagnosed CheckSays NoteSays S.held S.faults S.leads shelf.old shelf.new
        (claim_step (crash_files_in crash_files) name.now) audit_files_in result }
{
    match load_report(alloc, shelf, name) {
        Ok(report) => Ok(AuditFiles {
            crash_files,
            report,
        }),
        Err(stop) => {
            let_go(crash_files);
            Err(stop)
        }
    }
}

/// The same, and a report.
pub fn load_audit_files<S: Shelf>(
    alloc: Global,
    shelf: &mut S,
    names: &FileNames<'_>,
    dump: &str,
    report: &str,
) -> Result<AuditFiles, WalkStop>
    ensures { WalksDiagnosed CheckSays NoteSays S.held S.faults S.leads shelf.old shelf.new
        (audit_files_of (names_in names.now) dump.now report.now) audit_files_in result }
{
    match load_crash_files(alloc, shelf, names, dump) {
        Ok(crash_files) => load_claim(alloc, shelf, crash_files, report),
        Err(stop) => Err(stop),
    }
}

/// The same, where a waveform of the report's trace is not too large.
pub fn load_drawn<S: Shelf>(
    alloc: Global,
    shelf: &mut S,
    names: &FileNames<'_>,
    dump: &str,
    report: &str,
) -> Result<AuditFiles, WalkStop>
    ensures { WalksDiagnosed CheckSays NoteSays S.held S.faults S.leads shelf.old shelf.new
        (drawn_of (names_in names.now) dump.now report.now) audit_files_in result }
{
    let audit_files = load_audit_files(alloc, shelf, names, dump, report)?;
    let size = size_or_diagnostic(
        alloc,
        report,
        &audit_files.crash_files.setup.net,
        &audit_files.report,
    );
    match settle_diagnostic(File::Report, size) {
        Ok(()) => Ok(audit_files),
        Err(stop) => {
            let_go(audit_files);
            Err(stop)
        }
    }
}
