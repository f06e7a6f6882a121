//! What is said of a trace of which no state is told.
ghost use Rattle.std.specs.Prelude.{◌≡◌, ◌++◌, length, IfOk};
ghost use Rattle.std.specs.List.{list_any, range_with_len};
ghost use Rattle.bs_call.specs.Note.{Due, DueText};
ghost use Rattle.bs_call.specs.Prepared.{replied};
ghost use Rattle.bs_inspect_report.specs.Window.{is_late, is_shown, is_up_to};
ghost use Rattle.bs_inspect_plans.specs.Asked.{window_of};
ghost use Rattle.bs_inspect_plans.specs.Windows.{empty_sentence, empty_text, shows_any, window_text};

use bs_bits::push_number;
use bs_call::{Note, Response, note_made};
use bs_inspect_usages::TraceWindow;
use bs_note_files::pair_note;
use bs_outside::{NoMemory, Reply};
use bs_report::Report;
use std::alloc::Global;

/// Whether a state is not behind the last one that is told.
fn is_up_to(to: Option<u64>, i: u64) -> bool
    ensures { result ≡ is_up_to to i }
{
    match to {
        Some(to) => i <= to,
        None => true,
    }
}

/// Whether a state is one of the last ones that are told, of so many.
fn is_late(last: Option<u64>, count: u64, i: u64) -> bool
    ensures { result ≡ is_late last count i }
{
    match last {
        Some(last) => count.saturating_sub(i) <= last,
        None => true,
    }
}

/// Whether a state is in a window of so many states.
fn is_shown(window: TraceWindow, count: usize, i: usize) -> bool
    ensures { result ≡ is_shown (window_of window) count i }
{
    let up_to = is_up_to(window.to, i as u64);
    let late = is_late(window.last, count as u64, i as u64);
    window.from <= i as u64 && (up_to && late)
}

/// Whether some of so many states is in a window.
fn shows_any(window: TraceWindow, count: usize) -> bool
    ensures { result ≡ shows_any (window_of window) count }
{
    (0..count).any(|i| is_shown(window, count, i))
}

/// What is said of a trace of so many states, none of which is in the window.
#[tactic(auto, unfolding(crate::specs::Windows::empty_sentence))]
fn empty_sentence(alloc: Global, count: usize) -> Result<Vec<u8>, NoMemory>
    ensures { IfOk result (λ said. said.items ≡ empty_sentence count) }
{
    let mut said =
        b"none of the states that are asked for is one of the trace, which has so many: ".to_vec(
            alloc,
        )?;
    push_number(&mut said, count as u64)?;
    Ok(said)
}

/// A note on such a trace.
fn empty_note(alloc: Global, count: usize) -> Result<Vec<u8>, NoMemory>
    ensures { IfOk result (λ note. note.items ≡ empty_text count) }
{
    let said = empty_sentence(alloc, count)?;
    pair_note(
        alloc,
        &said,
        b"--from and --to count the states from 0, and --last keeps only as many as it says, from the end",
    )
}

/// The same, which is due.
fn empty_said(alloc: Global, count: usize) -> Note
    ensures { Due (λ text. text ≡ empty_text count) result }
{
    note_made(empty_note(alloc, count))
}

/// The note on a trace of so many states, where the window has none of them.
#[tactic(auto, using(crate::proofs::WindowLemmas::some_shown, crate::proofs::WindowLemmas::none_shown))]
fn count_said(alloc: Global, window: TraceWindow, count: usize) -> Note
    ensures { DueText (window_text (window_of window) count) result }
{
    if shows_any(window, count) {
        Note::Silent
    } else {
        empty_said(alloc, count)
    }
}

/// The note on a report's trace, where the window has none of its states.
fn window_said(alloc: Global, window: TraceWindow, report: &Report) -> Note
    ensures { DueText (window_text (window_of window) (length report.now.states)) result }
{
    let count = report.states.len();
    count_said(alloc, window, count)
}

/// The answer that tells these states of a report's trace: where there are none, how many the trace has is said.
pub fn window_noted(
    alloc: Global,
    window: TraceWindow,
    report: &Report,
    told: Result<Reply, NoMemory>,
) -> Result<Response, NoMemory>
    ensures reply { replied result ≡ told }
    ensures note { IfOk result (λ answer. DueText (window_text (window_of window) (length report.now.states)) answer.note) }
{
    match told {
        Ok(reply) => {
            let note = window_said(alloc, window, report);
            Ok(Response { reply, note })
        }
        Err(want) => Err(want),
    }
}
