//! The command `demo`: the backtrace of a generated job, told in one line.
ghost use Rattle.std.specs.Prelude.{◌≡◌, ◌≤◌, length, All, IfOk};
ghost use Rattle.bs_net.specs.Netlist.{circuit};
ghost use Rattle.bs_report.specs.declared.limits.TheConstants.{MAX_CANDIDATES, MAX_STEPS};
ghost use Rattle.bs_scan.specs.Crash.{crash_of, DumpFits};
ghost use Rattle.bs_top_files.specs.Entry.{recording_in};
ghost use Rattle.bs_call.specs.Prepared.{PreparesNoted};
ghost use Rattle.bs_top_files.specs.Ready.{moment_files_in, setup_in};
ghost use Rattle.bs_top_files.specs.Causes.{CheckSays};
ghost use Rattle.bs_top_words.specs.Job.{Demo as DemoWords};
ghost use Rattle.bs_top.specs.Work.{plan_of, to_demo};
ghost use Rattle.bs_top.specs.Finishes.{finishes, replies, Summarises};
ghost use Rattle.bs_top.specs.Said.{JobSaid, WorkSaid};
ghost use Rattle.bs_top.specs.Summary.{summary_text};

use crate::budgets::{DEMO_CANDIDATES, DEMO_CONFLICTS, DEMO_STEPS};
use crate::design::means_design;
use crate::dump_command::dump_of;
use crate::generated::load_demo;
use crate::names::demo_paths;
use crate::run_command::report_of;
use crate::summary::summary_line;
use bs_call::{Note, Response, stop_answer};
use bs_outside::{NoMemory, Reply, Status};
use bs_report::{Budgets, Report};
use bs_scan::Dump;
use bs_top_files::{MomentFiles, Setup};
use std::alloc::Global;

/// The line of a backtrace.
fn line_of(alloc: Global, number: u64, report: Report) -> Result<Vec<u8>, NoMemory>
    requires count { length report.steps ≤ MAX_STEPS }
    requires each { All (λ step. length step.cands ≤ MAX_CANDIDATES) report.steps }
    ensures { IfOk result (λ text. text.items ≡ summary_text number report) }
{
    let line = summary_line(alloc, number, &report);
    line
}

/// The line of the backtrace of a dump.
fn traced_line(alloc: Global, number: u64, setup: &Setup, dump: &Dump) -> Result<Vec<u8>, NoMemory>
    requires { DumpFits (circuit setup.now.net) setup.now.choice dump.now }
    ensures { IfOk result (λ text. Summarises number (crash_of (recording_in (setup_in setup.now)) dump.now) Status.Done text.items) }
{
    let budgets = Budgets {
        steps: DEMO_STEPS,
        candidates: DEMO_CANDIDATES,
        conflicts: DEMO_CONFLICTS,
    };
    match report_of(alloc, setup, dump, &budgets) {
        Ok(report) => line_of(alloc, number, report),
        Err(want) => Err(want),
    }
}

/// The line of the backtrace of a moment's dump.
fn summary_of(alloc: Global, number: u64, moment_files: &MomentFiles) -> Result<Vec<u8>, NoMemory>
    ensures { IfOk result (λ text. replies (to_demo number (moment_files_in moment_files.now)) Status.Done text.items) }
{
    match dump_of(alloc, moment_files) {
        Ok(dump) => traced_line(alloc, number, &moment_files.setup, &dump),
        Err(want) => Err(want),
    }
}

/// What is written for a generated job that stays.
fn demo_reply(alloc: Global, number: u64, moment_files: &MomentFiles) -> Result<Reply, NoMemory>
    ensures { IfOk result (λ answer. replies (to_demo number (moment_files_in moment_files.now)) answer.status answer.text.items) }
{
    let text = summary_of(alloc, number, moment_files)?;
    Ok(Reply {
        status: Status::Done,
        text,
    })
}

/// The answer for a generated job, on which there is no note.
fn demo_answer(alloc: Global, number: u64, moment_files: &MomentFiles) -> Result<Response, NoMemory>
    ensures done { IfOk result (λ answer. finishes (to_demo number (moment_files_in moment_files.now)) answer.reply.status answer.reply.text.items) }
    ensures said { IfOk result (λ answer. WorkSaid (to_demo number (moment_files_in moment_files.now)) answer.reply.text.items answer.note) }
{
    means_design(&moment_files.setup.net);
    let reply = demo_reply(alloc, number, moment_files)?;
    Ok(Response {
        reply,
        note: Note::Silent,
    })
}

/// The same of one that nobody needs behind it.
fn summed(alloc: Global, number: u64, moment_files: MomentFiles) -> Result<Response, NoMemory>
    ensures done { IfOk result (λ answer. finishes (to_demo number (moment_files_in moment_files)) answer.reply.status answer.reply.text.items) }
    ensures said { IfOk result (λ answer. WorkSaid (to_demo number (moment_files_in moment_files)) answer.reply.text.items answer.note) }
{
    let answer = demo_answer(alloc, number, &moment_files);
    answer
}

/// The answer of the command. It asks no shelf.
pub fn demo(alloc: Global, number: u64) -> Result<Response, NoMemory>
    ensures { IfOk result (PreparesNoted CheckSays finishes (JobSaid (DemoWords number)) (plan_of (DemoWords number))) }
{
    match load_demo(alloc, number) {
        Ok(moment_files) => summed(alloc, number, moment_files),
        Err(stop) => stop_answer(alloc, &demo_paths(number), None, stop),
    }
}
