//! The command `audit`: whether a report is valid, or the first part of it that fails.
ghost use Rattle.std.specs.Prelude.{◌≡◌, ◌++◌, codes, decimal, IfOk, OnOk, Some};
ghost use Rattle.bs_call.specs.Endings.{rejected_text_if};
ghost use Rattle.bs_call.specs.Note.{SureText};
ghost use Rattle.bs_call.specs.Prepared.{PreparedNoted};
ghost use Rattle.bs_audit.specs.Finding.{part_of};
ghost use Rattle.bs_top_files.specs.Ready.{audit_files_in};
ghost use Rattle.bs_top_files.specs.Causes.{CheckSays};
ghost use Rattle.bs_top_words.specs.Job.{Audit as AuditWords};
ghost use Rattle.bs_top.specs.Work.{plan_of, to_audit};
ghost use Rattle.bs_top.specs.Words.{audit_job};
ghost use Rattle.bs_top.specs.Rejected.{finding_status, finding_text, part_words, rejected_text, step_words, why_word};
ghost use Rattle.bs_scan.specs.Crash.{crash_of};
ghost use Rattle.bs_top_files.specs.Entry.{recording_in};
ghost use Rattle.bs_top.specs.Finishes.{finishes, Finds};
ghost use Rattle.bs_top.specs.Said.{is_rejected, JobSaid, WorkSaid};

use crate::design::means_design;
use crate::names::audit_paths;
use bs_audit::Finding;
use bs_bits::{end_line, push_number, push_piece};
use bs_call::{Note, Response, rejected_said, stop_answer};
use bs_log::Why;
use bs_outside::{NoMemory, Reply, Shelf, Status};
use bs_report::Part;
use bs_top_files::{AuditFiles, FileNames, load_audit_files};
use bs_top_words::AuditJob;
use std::alloc::Global;

/// The word for a reason for which a log line is refused.
fn why_word(why: Why) -> &'static str
    ensures { result.now ≡ why_word why }
{
    match why {
        Why::Order => "Order",
        Why::NoClause => "NoClause",
        Why::Duplicate => "Duplicate",
        Why::NotUnit => "NotUnit",
        Why::NotFalse => "NotFalse",
        Why::BadBlock => "BadBlock",
        Why::BadEnd => "BadEnd",
    }
}

/// Appends the words for a part of a step.
fn push_step(text: &mut Vec<u8>, step: u64, word: &[u8]) -> Result<(), NoMemory>
    ensures { OnOk result (text.new.items ≡ text.old.items ++ step_words step word.now) }
{
    push_piece(text, b"step ")?;
    push_number(text, step)?;
    push_piece(text, word)
}

/// Appends the words for a candidate.
fn push_candidate(text: &mut Vec<u8>, step: u64, candidate: u64) -> Result<(), NoMemory>
    ensures { OnOk result (text.new.items ≡ text.old.items ++ (step_words step (codes " candidate ") ++ decimal candidate)) }
{
    push_step(text, step, b" candidate ")?;
    push_number(text, candidate)
}

/// Appends the words for a line of the log.
fn push_log(text: &mut Vec<u8>, line: u64, why: Why) -> Result<(), NoMemory>
    ensures { OnOk result (text.new.items ≡ text.old.items ++ (codes "log " ++ (decimal line ++ (codes " " ++ why_word why)))) }
{
    push_piece(text, b"log ")?;
    push_number(text, line)?;
    push_piece(text, b" ")?;
    push_piece(text, why_word(why).as_bytes())
}

/// Appends the words for a part that fails.
fn push_part(text: &mut Vec<u8>, part: Part) -> Result<(), NoMemory>
    ensures { OnOk result (text.new.items ≡ text.old.items ++ part_words part) }
{
    match part {
        Part::Format => push_piece(text, b"format"),
        Part::Present(step) => push_step(text, step, b" present"),
        Part::Stored(step) => push_step(text, step, b" stored"),
        Part::Candidate(step, candidate) => push_candidate(text, step, candidate),
        Part::Listed(step) => push_step(text, step, b" list"),
        Part::Hit(step) => push_step(text, step, b" hit"),
        Part::Stop => push_piece(text, b"stop"),
        Part::Trace => push_piece(text, b"trace"),
        Part::Log(line, why) => push_log(text, line, why),
        Part::Blocks(step) => push_step(text, step, b" blocks"),
        Part::Ended(step) => push_step(text, step, b" end"),
    }
}

/// The line for a part that fails.
pub fn rejected(alloc: Global, part: Part) -> Result<Vec<u8>, NoMemory>
    ensures { IfOk result (λ text. text.items ≡ rejected_text part) }
{
    let mut text = Vec::new(alloc);
    push_piece(&mut text, b"rejected ")?;
    push_part(&mut text, part)?;
    end_line(&mut text)?;
    Ok(text)
}

/// The line for what an audit finds.
fn finding_text(alloc: Global, finding: Finding) -> Result<Vec<u8>, NoMemory>
    ensures { IfOk result (λ text. text.items ≡ finding_text (part_of finding)) }
{
    match finding {
        Finding::Accepted => Ok(b"accepted\n".to_vec(alloc)?),
        Finding::Rejected(part) => rejected(alloc, part),
    }
}

/// The status for what an audit finds.
pub fn finding_status(finding: Finding) -> Status
    ensures { result ≡ finding_status (part_of finding) }
{
    match finding {
        Finding::Accepted => Status::Done,
        Finding::Rejected(_) => Status::Rejected,
    }
}

/// What an audit finds of a report.
pub fn find(alloc: Global, audit_files: &AuditFiles) -> Result<Finding, NoMemory>
    ensures { IfOk result (λ finding. Finds (crash_of (recording_in (audit_files_in audit_files.now).crash_files.setup) audit_files.now.crash_files.dump) audit_files.now.report (part_of finding)) }
{
    let crash_files = &audit_files.crash_files;
    let setup = &crash_files.setup;
    let _order = setup.net.order();
    let _count = setup.runs.count();
    let _depth = setup.choice.depth();
    bs_audit::audit(
        alloc,
        &setup.net,
        &setup.choice,
        &setup.runs,
        &crash_files.dump,
        &audit_files.report,
    )
}

/// The note on what an audit finds.
pub fn finding_said(finding: Finding) -> Note
    ensures { SureText (rejected_text_if (is_rejected (part_of finding))) result }
{
    rejected_said(is_rejected(finding))
}

/// Whether a part fails.
fn is_rejected(finding: Finding) -> bool
    ensures { result ≡ is_rejected (part_of finding) }
{
    match finding {
        Finding::Accepted => false,
        Finding::Rejected(_) => true,
    }
}

/// The answer for what an audit finds.
fn finding_answer(alloc: Global, finding: Finding) -> Result<Response, NoMemory>
    ensures status { IfOk result (λ answer. answer.reply.status ≡ finding_status (part_of finding)) }
    ensures text { IfOk result (λ answer. answer.reply.text.items ≡ finding_text (part_of finding)) }
    ensures note { IfOk result (λ answer. SureText (rejected_text_if (is_rejected (part_of finding))) answer.note) }
{
    let text = finding_text(alloc, finding)?;
    let note = finding_said(finding);
    let status = finding_status(finding);
    Ok(Response {
        reply: Reply { status, text },
        note,
    })
}

/// The answer for a report that stays.
fn audit_answer(alloc: Global, audit_files: &AuditFiles) -> Result<Response, NoMemory>
    ensures done { IfOk result (λ answer. finishes (to_audit (audit_files_in audit_files.now)) answer.reply.status answer.reply.text.items) }
    ensures said { IfOk result (λ answer. WorkSaid (to_audit (audit_files_in audit_files.now)) answer.reply.text.items answer.note) }
{
    means_design(&audit_files.crash_files.setup.net);
    match find(alloc, audit_files) {
        Ok(finding) => finding_answer(alloc, finding),
        Err(want) => Err(want),
    }
}

/// The answer for a report.
fn found(alloc: Global, audit_files: AuditFiles) -> Result<Response, NoMemory>
    ensures done { IfOk result (λ answer. finishes (to_audit (audit_files_in audit_files)) answer.reply.status answer.reply.text.items) }
    ensures said { IfOk result (λ answer. WorkSaid (to_audit (audit_files_in audit_files)) answer.reply.text.items answer.note) }
{
    let answer = audit_answer(alloc, &audit_files);
    answer
}

/// The answer of the command.
pub fn audit<S: Shelf>(
    alloc: Global,
    shelf: &mut S,
    job: &AuditJob<'_>,
) -> Result<Response, NoMemory>
    ensures { PreparedNoted CheckSays finishes (JobSaid (AuditWords (audit_job job.now))) S.held S.faults S.leads shelf.old shelf.new
        (Some (plan_of (AuditWords (audit_job job.now)))) result }
{
    let names = FileNames {
        netlist: job.netlist,
        signature: job.signature,
        stimulus: job.stimulus,
    };
    match load_audit_files(alloc, shelf, &names, job.dump, job.report) {
        Ok(audit_files) => found(alloc, audit_files),
        Err(stop) => stop_answer(alloc, &audit_paths(job), shelf.reason(), stop),
    }
}
