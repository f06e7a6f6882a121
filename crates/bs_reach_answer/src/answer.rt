//! An answer of `reach`, or the diagnostic of its text.
ghost use Rattle.std.specs.Prelude.{◌≡◌, ◌≤◌, length, IfOk};
ghost use Rattle.bs_note_files.specs.Notes.{said};
ghost use Rattle.bs_report.specs.declared.fault.ReportFault.TheVariants.{NoMemory as ReportWant};
ghost use Rattle.bs_reach_answer.specs.ReadingLaw.{HasAnswerText};
ghost use Rattle.bs_outside.specs.declared.limits.TheConstants.{MAX_REPORT_BYTES};
ghost use Rattle.bs_outside.specs.declared.file_fetch.Refusal.TheVariants.{NoMemory as Want};
ghost use Rattle.bs_outside.specs.Plan.{Says};
ghost use Rattle.bs_outside.specs.Diagnostic.{note_refusal, noted, word_refusal, worded};
ghost use Rattle.bs_outside.specs.Walks.{Reads};
ghost use Rattle.bs_top_files.specs.Causes.{CheckSays, HasNote, IsNoteAtLine, NoteSays};
ghost use Rattle.bs_top_files.specs.Refusals.{HasWords, report_words};
ghost use Rattle.bs_reach_answer.specs.Readings.{answer_read};
ghost use Rattle.bs_reach_answer.specs.Words.{answer_reason, answer_saying, extra_text, short_text};

use crate::lines::line_note;
use crate::reading::read_answer;
use crate::refusals::answer_refusal;
use bs_bits::NoMemory;
use bs_note_files::{Message, file_note};
use bs_outside::{Unread, both};
use bs_reach::Reach;
use bs_report::ReportFault;
use std::alloc::Global;

/// What is said of a line that may not stand in its place.
fn answer_saying() -> Message<'static>
    ensures { said result ≡ answer_saying }
{
    Message {
        sentence: b"this line is not of a form that its place in an answer allows",
        label: b"an answer is what `reach` writes, unchanged (docs/FORMATS.md, The answer of reach)",
    }
}

/// A note on a line that may not stand in its place.
fn form_note(alloc: Global, path: &str, text: &[u8], number: u64) -> Result<Vec<u8>, NoMemory>
    ensures { IfOk result (λ note. IsNoteAtLine path.now text.now number answer_saying note.items) }
{
    let message = answer_saying();
    let note = line_note(alloc, path, text, number, message)?;
    Ok(note)
}

/// A note on a text that ends early.
fn short_note(alloc: Global, path: &str) -> Result<Vec<u8>, NoMemory>
    ensures { IfOk result (λ note. note.items ≡ short_text path.now) }
{
    file_note(
        alloc,
        path,
        b"the text ends before the line `end` of an answer is whole",
    )
}

/// A note on bytes behind the last line.
fn extra_note(alloc: Global, path: &str) -> Result<Vec<u8>, NoMemory>
    ensures { IfOk result (λ note. note.items ≡ extra_text path.now) }
{
    file_note(
        alloc,
        path,
        b"bytes follow the line `end` of the answer: a file holds one answer and nothing else",
    )
}

/// The note on a text that is no answer.
fn answer_note(
    alloc: Global,
    path: &str,
    text: &[u8],
    fault: ReportFault,
) -> Result<Vec<u8>, NoMemory>
    ensures { IfOk result (λ note. Says NoteSays (answer_reason path.now text.now fault) note.items) }
{
    match fault {
        ReportFault::Line(number) => form_note(alloc, path, text, number),
        ReportFault::Short => short_note(alloc, path),
        ReportFault::Extra => extra_note(alloc, path),
        ReportFault::NoMemory => Err(NoMemory),
    }
}

/// The diagnostic of a text that is no answer.
#[tactic(auto, using(bs_top_files::proofs::NotingLemmas::both_words, bs_top_files::proofs::NotingLemmas::both_note, bs_top_files::proofs::NotingLemmas::both_want))]
fn answer_diagnostic(alloc: Global, path: &str, text: &[u8], fault: ReportFault) -> Unread
    ensures words { HasWords (report_words fault) (word_refusal result) }
    ensures want { fault ≡ ReportWant → word_refusal result ≡ Want }
    ensures note { HasNote (answer_reason path.now text.now fault) (note_refusal result) }
    ensures none { fault ≡ ReportWant → note_refusal result ≡ Want }
{
    let words = answer_refusal(alloc, fault);
    let note = answer_note(alloc, path, text, fault);
    both(words, note)
}

/// An answer, or the diagnostic of its text.
pub fn answer_or_diagnostic(alloc: Global, path: &str, text: &[u8]) -> Result<Reach, Unread>
    requires { length text.now ≤ MAX_REPORT_BYTES }
    ensures words { Reads CheckSays (λ answer. answer) (answer_read path.now text.now) (worded result) }
    ensures note { Reads NoteSays (λ answer. answer) (answer_read path.now text.now) (noted result) }
    ensures text { IfOk result HasAnswerText }
{
    match read_answer(alloc, text) {
        Ok(answer) => Ok(answer),
        Err(fault) => Err(answer_diagnostic(alloc, path, text, fault)),
    }
}
