//! The command `run`: the backtrace of a dump, and its report.
ghost use Rattle.std.specs.Prelude.{◌≡◌, ◌≢◌, ◌+◌, false, length, IfOk, Some};
ghost use Rattle.bs_call.specs.declared.note.Note.TheVariants.{Wanting};
ghost use Rattle.bs_call.specs.Endings.{is_searched, run_text};
ghost use Rattle.bs_call.specs.Note.{DueText};
ghost use Rattle.bs_call.specs.Prepared.{PreparedNoted};
ghost use Rattle.bs_note_calls.specs.Stops.{cut_lists};
ghost use Rattle.bs_loop.specs.Budget.{IsBudget};
ghost use Rattle.bs_loop.specs.Searched.{TellsCut};
ghost use Rattle.bs_top_files.specs.Ready.{crash_files_in, setup_in};
ghost use Rattle.bs_top_files.specs.Causes.{CheckSays};
ghost use Rattle.bs_top_words.specs.Job.{Run as RunWords};
ghost use Rattle.bs_top.specs.Work.{budgets_of, plan_of, to_run};
ghost use Rattle.bs_top.specs.Words.{run_job};
ghost use Rattle.bs_net.specs.Netlist.{circuit};
ghost use Rattle.bs_report.specs.Text.{report_text};
ghost use Rattle.bs_scan.specs.Crash.{crash_of, DumpFits, recording_of};
ghost use Rattle.bs_top_files.specs.Entry.{recording_in};
ghost use Rattle.bs_top.specs.Finishes.{finishes, IsBacktrace, replies, stop_status};
ghost use Rattle.bs_top.specs.Said.{JobSaid, WorkSaid};

use crate::design::means_design;
use crate::names::run_paths;
use bs_call::{Response, run_said, stop_answer};
use bs_chip::Chip;
use bs_loop::backtrace;
use bs_note_calls::cut_lists;
use bs_outside::{NoMemory, Reply, Shelf, Status};
use bs_preimage::Preimage;
use bs_report::{Budgets, Report, Stop};
use bs_scan::Dump;
use bs_top_files::{CrashFiles, FileNames, Setup, load_crash_files};
use bs_top_words::RunJob;
use std::alloc::Global;

/// The status of a backtrace by its stop.
fn stop_status(stop: Stop) -> Status
    ensures { result ≡ stop_status stop }
{
    match stop {
        Stop::Reset | Stop::Length => Status::Done,
        Stop::Nohit => Status::Nohit,
        Stop::Empty => Status::Empty,
        Stop::Candidates | Stop::Conflicts => Status::Spent,
    }
}

/// The report of the backtrace of a dump on a chip of a setup, and whether the search for its last step was cut.
fn trace(
    alloc: Global,
    chip: &mut Chip<'_>,
    setup: &Setup,
    dump: &Dump,
    budgets: &Budgets,
    cut: &mut bool,
) -> Result<Report, NoMemory>
    requires chip { chip.old.recording ≡ recording_of setup.now.net.raw setup.now.choice setup.now.runs }
    requires dump { DumpFits (circuit setup.now.net) setup.now.choice dump.now }
    requires budgets { IsBudget budgets.now }
    ensures backtrace { IfOk result (IsBacktrace (crash_of (recording_in (setup_in setup.now)) dump.now) budgets.now) }
    ensures trace { IfOk result (λ report. length report.states ≡ length report.inputs + 1) }
    ensures cut { IfOk result (λ report. TellsCut chip.old.recording budgets.now.conflicts report.steps cut.new) }
    ensures chip { chip.new.recording ≡ chip.old.recording }
{
    let _order = setup.net.order();
    let _count = setup.runs.count();
    let _depth = setup.choice.depth();
    match Preimage::new(alloc, &setup.net, &setup.choice) {
        Ok(preimage) => backtrace(alloc, chip, preimage, dump, budgets, cut),
        Err(want) => Err(want),
    }
}

/// The same, on a chip that nobody needs behind it.
fn trace_with(
    alloc: Global,
    chip: Chip<'_>,
    setup: &Setup,
    dump: &Dump,
    budgets: &Budgets,
) -> Result<Report, NoMemory>
    requires chip { chip.recording ≡ recording_of setup.now.net.raw setup.now.choice setup.now.runs }
    requires dump { DumpFits (circuit setup.now.net) setup.now.choice dump.now }
    requires budgets { IsBudget budgets.now }
    ensures backtrace { IfOk result (IsBacktrace (crash_of (recording_in (setup_in setup.now)) dump.now) budgets.now) }
    ensures trace { IfOk result (λ report. length report.states ≡ length report.inputs + 1) }
{
    let mut chip = chip;
    let mut cut = false;
    let report = trace(alloc, &mut chip, setup, dump, budgets, &mut cut);
    report
}

/// The report of the backtrace of a dump within budgets.
pub fn report_of(
    alloc: Global,
    setup: &Setup,
    dump: &Dump,
    budgets: &Budgets,
) -> Result<Report, NoMemory>
    requires dump { DumpFits (circuit setup.now.net) setup.now.choice dump.now }
    requires budgets { IsBudget budgets.now }
    ensures backtrace { IfOk result (IsBacktrace (crash_of (recording_in (setup_in setup.now)) dump.now) budgets.now) }
    ensures trace { IfOk result (λ report. length report.states ≡ length report.inputs + 1) }
{
    match Chip::new(alloc, &setup.net, &setup.choice, &setup.runs) {
        Ok(chip) => trace_with(alloc, chip, setup, dump, budgets),
        Err(want) => Err(want),
    }
}

/// What is written for a report that stays.
fn written(alloc: Global, report: &Report) -> Result<Reply, NoMemory>
    requires { length report.now.states ≡ length report.now.inputs + 1 }
    ensures status { IfOk result (λ answer. answer.status ≡ stop_status report.now.stop) }
    ensures text { IfOk result (λ answer. answer.text.items ≡ report_text report.now) }
{
    let mut text = Vec::new(alloc);
    report.text(&mut text)?;
    Ok(Reply {
        status: stop_status(report.stop),
        text,
    })
}

/// What is written for a report that stays, and the note on its stop. `cut` is whether the search for its last step was cut.
fn report_answer(
    alloc: Global,
    chip: &mut Chip<'_>,
    report: &Report,
    cut: bool,
    crash_files: &CrashFiles,
) -> Result<Response, NoMemory>
    requires trace { length report.now.states ≡ length report.now.inputs + 1 }
    requires dump { length crash_files.now.dump.state.bits ≡ length chip.old.recording.circuit.flops }
    ensures status { IfOk result (λ answer. answer.reply.status ≡ stop_status report.now.stop) }
    ensures text { IfOk result (λ answer. answer.reply.text.items ≡ report_text report.now) }
    ensures note { IfOk result (λ answer. DueText (run_text chip.old.recording crash_files.now.dump crash_files.now.setup.runs (length report.now.steps) report.now.stop cut (cut_lists report.now.steps)) answer.note) }
    ensures sure { IfOk result (λ answer. is_searched (length report.now.steps) report.now.stop ≡ false → answer.note ≢ Wanting) }
{
    let reply = written(alloc, report)?;
    let steps = report.steps.len() as u64;
    let lists = cut_lists(&report.steps) as u64;
    let note = run_said(
        alloc,
        chip,
        &crash_files.dump,
        &crash_files.setup.runs,
        steps,
        report.stop,
        cut,
        lists,
    );
    Ok(Response { reply, note })
}

/// The same for a report that nobody needs behind it.
fn answer_of(
    alloc: Global,
    chip: &mut Chip<'_>,
    report: Report,
    cut: bool,
    crash_files: &CrashFiles,
) -> Result<Response, NoMemory>
    requires trace { length report.states ≡ length report.inputs + 1 }
    requires dump { length crash_files.now.dump.state.bits ≡ length chip.old.recording.circuit.flops }
    ensures status { IfOk result (λ answer. answer.reply.status ≡ stop_status report.stop) }
    ensures text { IfOk result (λ answer. answer.reply.text.items ≡ report_text report) }
    ensures note { IfOk result (λ answer. DueText (run_text chip.old.recording crash_files.now.dump crash_files.now.setup.runs (length report.steps) report.stop cut (cut_lists report.steps)) answer.note) }
    ensures sure { IfOk result (λ answer. is_searched (length report.steps) report.stop ≡ false → answer.note ≢ Wanting) }
{
    let answer = report_answer(alloc, chip, &report, cut, crash_files);
    answer
}

/// The answer for a dump that stays, on a chip of its setup.
#[tactic(auto, using(crate::proofs::ReplyLemmas::fits_chip))]
fn chip_answer(
    alloc: Global,
    chip: &mut Chip<'_>,
    crash_files: &CrashFiles,
    budgets: &Budgets,
) -> Result<Response, NoMemory>
    requires chip { chip.old.recording ≡ recording_in (setup_in crash_files.now.setup) }
    requires budgets { IsBudget budgets.now }
    ensures done { IfOk result (λ answer. replies (to_run budgets.now (crash_files_in crash_files.now)) answer.reply.status answer.reply.text.items) }
    ensures said { IfOk result (λ answer. WorkSaid (to_run budgets.now (crash_files_in crash_files.now)) answer.reply.text.items answer.note) }
{
    let mut cut = false;
    match trace(
        alloc,
        chip,
        &crash_files.setup,
        &crash_files.dump,
        budgets,
        &mut cut,
    ) {
        Ok(report) => answer_of(alloc, chip, report, cut, crash_files),
        Err(want) => Err(want),
    }
}

/// The same on a chip that nobody needs behind it.
fn answer_on(
    alloc: Global,
    chip: Chip<'_>,
    crash_files: &CrashFiles,
    budgets: &Budgets,
) -> Result<Response, NoMemory>
    requires chip { chip.recording ≡ recording_in (setup_in crash_files.now.setup) }
    requires budgets { IsBudget budgets.now }
    ensures done { IfOk result (λ answer. replies (to_run budgets.now (crash_files_in crash_files.now)) answer.reply.status answer.reply.text.items) }
    ensures said { IfOk result (λ answer. WorkSaid (to_run budgets.now (crash_files_in crash_files.now)) answer.reply.text.items answer.note) }
{
    let mut chip = chip;
    let answer = chip_answer(alloc, &mut chip, crash_files, budgets);
    answer
}

/// The answer for a dump that stays.
fn run_answer(
    alloc: Global,
    crash_files: &CrashFiles,
    budgets: &Budgets,
) -> Result<Response, NoMemory>
    requires { IsBudget budgets.now }
    ensures done { IfOk result (λ answer. finishes (to_run budgets.now (crash_files_in crash_files.now)) answer.reply.status answer.reply.text.items) }
    ensures said { IfOk result (λ answer. WorkSaid (to_run budgets.now (crash_files_in crash_files.now)) answer.reply.text.items answer.note) }
{
    means_design(&crash_files.setup.net);
    match Chip::new(
        alloc,
        &crash_files.setup.net,
        &crash_files.setup.choice,
        &crash_files.setup.runs,
    ) {
        Ok(chip) => answer_on(alloc, chip, crash_files, budgets),
        Err(want) => Err(want),
    }
}

/// The answer for a dump.
fn reported(alloc: Global, crash_files: CrashFiles, budgets: &Budgets) -> Result<Response, NoMemory>
    requires { IsBudget budgets.now }
    ensures done { IfOk result (λ answer. finishes (to_run budgets.now (crash_files_in crash_files)) answer.reply.status answer.reply.text.items) }
    ensures said { IfOk result (λ answer. WorkSaid (to_run budgets.now (crash_files_in crash_files)) answer.reply.text.items answer.note) }
{
    let answer = run_answer(alloc, &crash_files, budgets);
    answer
}

/// The answer of the command.
pub fn run<S: Shelf>(alloc: Global, shelf: &mut S, job: &RunJob<'_>) -> Result<Response, NoMemory>
    requires { IsBudget (budgets_of (run_job job.now)) }
    ensures { PreparedNoted CheckSays finishes (JobSaid (RunWords (run_job job.now))) S.held S.faults S.leads shelf.old shelf.new
        (Some (plan_of (RunWords (run_job job.now)))) result }
{
    let names = FileNames {
        netlist: job.netlist,
        signature: job.signature,
        stimulus: job.stimulus,
    };
    let budgets = Budgets {
        steps: job.steps,
        candidates: job.candidates,
        conflicts: job.conflicts,
    };
    match load_crash_files(alloc, shelf, &names, job.dump) {
        Ok(crash_files) => reported(alloc, crash_files, &budgets),
        Err(stop) => stop_answer(alloc, &run_paths(job), shelf.reason(), stop),
    }
}
