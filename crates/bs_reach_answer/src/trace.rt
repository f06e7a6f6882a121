//! The report of a trace, or an answer in its place, or the diagnostic of the text.
ghost use Rattle.std.specs.Prelude.{◌≡◌, ◌≤◌, length, IfOk};
ghost use Rattle.bs_reach_answer.specs.ReadingLaw.{HasAnswerText};
ghost use Rattle.bs_reach_answer.specs.Shown.{HasTrace};
ghost use Rattle.bs_outside.specs.declared.limits.TheConstants.{MAX_REPORT_BYTES};
ghost use Rattle.bs_outside.specs.Plan.{exactly};
ghost use Rattle.bs_outside.specs.Diagnostic.{note_refusal, noted, word_refusal, worded};
ghost use Rattle.bs_outside.specs.Walks.{Reads};
ghost use Rattle.bs_top_files.specs.Causes.{CheckSays, HasNote, NoteSays};
ghost use Rattle.bs_top_files.specs.Refusals.{HasWords};
ghost use Rattle.bs_reach_answer.specs.Readings.{executed_read, execution_read, is_answer, trace_read};
ghost use Rattle.bs_reach_answer.specs.Words.{no_trace_text, no_trace_words};

use crate::answer::answer_or_diagnostic;
use crate::shown::execution_report;
use bs_bits::NoMemory;
use bs_note_files::file_note;
use bs_outside::{Unread, both};
use bs_reach::Reach;
use bs_report::Report;
use bs_top_files::{report_or_diagnostic, worded};
use std::alloc::Global;

/// Whether the first line of a text begins as that of an answer.
fn is_answer(text: &[u8]) -> bool
    ensures { result ≡ is_answer text.now }
{
    text.starts_with(b"reach ".as_slice())
}

/// A note on an answer that has no execution.
fn no_trace_note(alloc: Global, path: &str) -> Result<Vec<u8>, NoMemory>
    ensures { IfOk result (λ note. note.items ≡ no_trace_text path.now) }
{
    file_note(
        alloc,
        path,
        b"the answer has no execution: the state was not reached, or the search ended undecided",
    )
}

/// The diagnostic of an answer that has no execution.
#[tactic(auto, using(bs_top_files::proofs::NotingLemmas::both_words, bs_top_files::proofs::NotingLemmas::both_these))]
fn no_trace_diagnostic(alloc: Global, path: &str) -> Unread
    ensures words { HasWords no_trace_words (word_refusal result) }
    ensures note { HasNote (exactly (no_trace_text path.now)) (note_refusal result) }
{
    let words = worded(alloc, b"NoTrace");
    let note = no_trace_note(alloc, path);
    both(words, note)
}

/// The execution of an answer, or the diagnostic of an answer that has none.
#[tactic(auto, using(crate::proofs::TraceLemmas::some_reads, crate::proofs::TraceLemmas::none_words, crate::proofs::TraceLemmas::none_note))]
fn execution_or_diagnostic(alloc: Global, path: &str, answer: Reach) -> Result<Report, Unread>
    requires { HasAnswerText answer }
    ensures words { Reads CheckSays (λ report. report) (execution_read path.now answer) (worded result) }
    ensures note { Reads NoteSays (λ report. report) (execution_read path.now answer) (noted result) }
    ensures more { IfOk result HasTrace }
{
    match execution_report(alloc, answer) {
        Some(report) => Ok(report),
        None => Err(no_trace_diagnostic(alloc, path)),
    }
}

/// The execution of the answer that a text is, or the diagnostic of the text.
#[tactic(auto, using(crate::proofs::TraceLemmas::reads_on, crate::proofs::TraceLemmas::reads_off))]
fn answered_or_diagnostic(alloc: Global, path: &str, text: &[u8]) -> Result<Report, Unread>
    requires { length text.now ≤ MAX_REPORT_BYTES }
    ensures words { Reads CheckSays (λ report. report) (executed_read path.now text.now) (worded result) }
    ensures note { Reads NoteSays (λ report. report) (executed_read path.now text.now) (noted result) }
    ensures more { IfOk result HasTrace }
{
    match answer_or_diagnostic(alloc, path, text) {
        Ok(answer) => execution_or_diagnostic(alloc, path, answer),
        Err(unread) => Err(unread),
    }
}

/// The report that a text is, or the execution of the answer that it is, or the diagnostic of the text.
#[tactic(auto, using(crate::proofs::TraceLemmas::reads_then, crate::proofs::TraceLemmas::reads_else))]
pub fn trace_or_diagnostic(alloc: Global, path: &str, text: &[u8]) -> Result<Report, Unread>
    requires { length text.now ≤ MAX_REPORT_BYTES }
    ensures words { Reads CheckSays (λ report. report) (trace_read path.now text.now) (worded result) }
    ensures note { Reads NoteSays (λ report. report) (trace_read path.now text.now) (noted result) }
    ensures more { IfOk result HasTrace }
{
    if is_answer(text) {
        answered_or_diagnostic(alloc, path, text)
    } else {
        report_or_diagnostic(alloc, path, text)
    }
}
