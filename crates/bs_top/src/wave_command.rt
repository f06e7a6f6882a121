//! The command `wave`: the waveform of a valid report's trace, or the first part of the report that fails.
ghost use Rattle.std.specs.Prelude.{◌≡◌, IfOk, None, Some};
ghost use Rattle.bs_net.specs.Netlist.{circuit};
ghost use Rattle.bs_call.specs.Endings.{rejected_text_if};
ghost use Rattle.bs_call.specs.Note.{SureText};
ghost use Rattle.bs_call.specs.Prepared.{PreparedNoted};
ghost use Rattle.bs_audit.specs.Finding.{part_of};
ghost use Rattle.bs_top_files.specs.Ready.{audit_files_in};
ghost use Rattle.bs_top_files.specs.Causes.{CheckSays};
ghost use Rattle.bs_top_words.specs.Job.{Wave as WaveWords};
ghost use Rattle.bs_wave.specs.Wave.{IsWayOf};
ghost use Rattle.bs_top.specs.Drawn.{IsDrawn, IsTraceWave};
ghost use Rattle.bs_top.specs.Work.{plan_of, to_wave};
ghost use Rattle.bs_top.specs.Words.{audit_job};
ghost use Rattle.bs_wave.specs.WaveText.{wave_text};
ghost use Rattle.bs_top.specs.Rejected.{finding_status};
ghost use Rattle.bs_top.specs.Finishes.{finishes};
ghost use Rattle.bs_top.specs.Said.{is_rejected, JobSaid, WorkSaid};

use crate::audit_command::{find, finding_said, finding_status, rejected};
use crate::design::means_design;
use crate::names::audit_paths;
use bs_audit::Finding;
use bs_call::{Response, stop_answer};
use bs_outside::{NoMemory, Reply, Shelf};
use bs_top_files::{AuditFiles, FileNames, load_drawn};
use bs_top_words::AuditJob;
use bs_wave::Wave;
use std::alloc::Global;

/// The text of a wave.
fn wave_text(alloc: Global, wave: Wave) -> Result<Vec<u8>, NoMemory>
    ensures { IfOk result (λ text. text.items ≡ wave_text wave) }
{
    let text = text_of(alloc, &wave);
    text
}

/// The text of a wave that stays.
fn text_of(alloc: Global, wave: &Wave) -> Result<Vec<u8>, NoMemory>
    ensures { IfOk result (λ text. text.items ≡ wave_text wave.now) }
{
    let mut text = Vec::new(alloc);
    wave.text(&mut text)?;
    Ok(text)
}

/// The waveform of a report's trace.
fn trace_wave(alloc: Global, audit_files: &AuditFiles) -> Result<Vec<u8>, NoMemory>
    requires { IsWayOf (circuit audit_files.now.crash_files.setup.net) audit_files.now.report.states audit_files.now.report.inputs }
    ensures { IfOk result (λ text. IsTraceWave audit_files.now.crash_files.setup.net.raw audit_files.now.report text.items) }
{
    let report = &audit_files.report;
    match Wave::of(
        alloc,
        &audit_files.crash_files.setup.net,
        &report.states,
        &report.inputs,
    ) {
        Ok(wave) => wave_text(alloc, wave),
        Err(want) => Err(want),
    }
}

/// What is written for what an audit finds.
fn drawing(alloc: Global, audit_files: &AuditFiles, finding: Finding) -> Result<Vec<u8>, NoMemory>
    requires { part_of finding ≡ None → IsWayOf (circuit audit_files.now.crash_files.setup.net) audit_files.now.report.states audit_files.now.report.inputs }
    ensures { IfOk result (λ text. IsDrawn audit_files.now.crash_files.setup.net.raw audit_files.now.report (part_of finding) text.items) }
{
    match finding {
        Finding::Accepted => trace_wave(alloc, audit_files),
        Finding::Rejected(part) => rejected(alloc, part),
    }
}

/// The answer for what an audit finds.
fn drawing_answer(
    alloc: Global,
    audit_files: &AuditFiles,
    finding: Finding,
) -> Result<Response, NoMemory>
    requires { part_of finding ≡ None → IsWayOf (circuit audit_files.now.crash_files.setup.net) audit_files.now.report.states audit_files.now.report.inputs }
    ensures status { IfOk result (λ answer. answer.reply.status ≡ finding_status (part_of finding)) }
    ensures text { IfOk result (λ answer. IsDrawn audit_files.now.crash_files.setup.net.raw audit_files.now.report (part_of finding) answer.reply.text.items) }
    ensures note { IfOk result (λ answer. SureText (rejected_text_if (is_rejected (part_of finding))) answer.note) }
{
    let text = drawing(alloc, audit_files, finding)?;
    let note = finding_said(finding);
    let status = finding_status(finding);
    Ok(Response {
        reply: Reply { status, text },
        note,
    })
}

/// The answer for a report that stays.
fn wave_answer(alloc: Global, audit_files: &AuditFiles) -> Result<Response, NoMemory>
    ensures done { IfOk result (λ answer. finishes (to_wave (audit_files_in audit_files.now)) answer.reply.status answer.reply.text.items) }
    ensures said { IfOk result (λ answer. WorkSaid (to_wave (audit_files_in audit_files.now)) answer.reply.text.items answer.note) }
{
    means_design(&audit_files.crash_files.setup.net);
    match find(alloc, audit_files) {
        Ok(finding) => drawing_answer(alloc, audit_files, finding),
        Err(want) => Err(want),
    }
}

/// The answer for a report.
fn drawn(alloc: Global, audit_files: AuditFiles) -> Result<Response, NoMemory>
    ensures done { IfOk result (λ answer. finishes (to_wave (audit_files_in audit_files)) answer.reply.status answer.reply.text.items) }
    ensures said { IfOk result (λ answer. WorkSaid (to_wave (audit_files_in audit_files)) answer.reply.text.items answer.note) }
{
    let answer = wave_answer(alloc, &audit_files);
    answer
}

/// The answer of the command.
pub fn wave<S: Shelf>(
    alloc: Global,
    shelf: &mut S,
    job: &AuditJob<'_>,
) -> Result<Response, NoMemory>
    ensures { PreparedNoted CheckSays finishes (JobSaid (WaveWords (audit_job job.now))) S.held S.faults S.leads shelf.old shelf.new
        (Some (plan_of (WaveWords (audit_job job.now)))) result }
{
    let names = FileNames {
        netlist: job.netlist,
        signature: job.signature,
        stimulus: job.stimulus,
    };
    match load_drawn(alloc, shelf, &names, job.dump, job.report) {
        Ok(audit_files) => drawn(alloc, audit_files),
        Err(stop) => stop_answer(alloc, &audit_paths(job), shelf.reason(), stop),
    }
}
