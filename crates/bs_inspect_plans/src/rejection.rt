//! What an answer that begins with the word `rejected` means, and what to do.
ghost use Rattle.std.specs.Prelude.{◌≡◌, option_map, IfOk};
ghost use Rattle.bs_note_files.specs.Notes.{said};
ghost use Rattle.bs_call.specs.Note.{Due, DueText};
ghost use Rattle.bs_call.specs.Prepared.{replied};
ghost use Rattle.bs_inspect_plans.specs.Rejections.{bench_meaning, evidence_meaning, meaning_of, meaning_text, rejected_text, why_meaning};

use bs_call::{Note, Response, note_made};
use bs_note_files::{Message, pair_note};
use bs_outside::{NoMemory, Reply};
use std::alloc::Global;

/// The requests whose answers may be rejected: `why`, `bench`, and those of evidence.
#[derive(Clone, Copy, Debug, PartialEq, Eq)]
pub enum Rejecting {
    Why,
    Bench,
    Evidence,
}

/// What an answer to `why` means.
fn why_meaning(text: &[u8]) -> Option<Message<'static>>
    ensures { option_map said result ≡ why_meaning text.now }
{
    if text.starts_with(b"rejected moment".as_slice()) {
        return Some(Message {
            sentence: b"the trace has no state with the number behind --at",
            label: b"its states count from 0: `trace` tells them",
        });
    }
    if text.starts_with(b"rejected input".as_slice()) {
        return Some(Message {
            sentence: b"the name is that of data inputs, of the clock, or of nets without a driver: nothing forces them",
            label: b"ask for a flip-flop, or for the net of a gate",
        });
    }
    if text.starts_with(b"rejected open".as_slice()) {
        return Some(Message {
            sentence: b"the last state of the trace has no input, and the net of a gate is open there",
            label: b"ask for an earlier state by --at, or for a flip-flop",
        });
    }
    None
}

/// What an answer to `bench` means.
fn bench_meaning(text: &[u8]) -> Option<Message<'static>>
    ensures { option_map said result ≡ bench_meaning text.now }
{
    if text.starts_with(b"rejected moment".as_slice()) {
        return Some(Message {
            sentence: b"the stimulus does not have the moment of the report's last hit",
            label: b"is it the stimulus of this very report?",
        });
    }
    if text.starts_with(b"rejected state".as_slice()) {
        return Some(Message {
            sentence: b"under these inputs the netlist does not come from reset to the first state of the trace",
            label: b"is it the stimulus of this very report? a report without a hit has to begin at reset",
        });
    }
    None
}

/// What an answer to `cnf`, `lrat`, `reach-cnf` or `reach-lrat` means.
fn evidence_meaning(text: &[u8]) -> Option<Message<'static>>
    ensures { option_map said result ≡ evidence_meaning text.now }
{
    if text.starts_with(b"rejected format".as_slice()) {
        return Some(Message {
            sentence: b"the report has another depth than the signature",
            label: b"is it the signature file of this very report?",
        });
    }
    if text.starts_with(b"rejected stop".as_slice()) {
        return Some(Message {
            sentence: b"there are more steps, or lengths, than were asked for",
            label: b"is the file unchanged?",
        });
    }
    if text.starts_with(b"rejected step".as_slice()) {
        return Some(Message {
            sentence: b"the present state, or a signature, of the step with this number has another width",
            label: b"is it the report of this netlist and this signature?",
        });
    }
    if text.starts_with(b"rejected nostep".as_slice()) {
        return Some(Message {
            sentence: b"the report has no step of the number behind --step, or the length behind --length was not tried",
            label: b"`steps` tells the steps of a report",
        });
    }
    if text.starts_with(b"rejected log".as_slice()) {
        return Some(Message {
            sentence: b"the line of the log with this number, from 1, is the first that does not follow from those before it",
            label: b"is it of this netlist and this signature or state, and unchanged?",
        });
    }
    if text.starts_with(b"rejected unfinished".as_slice()) {
        return Some(Message {
            sentence: b"the log does not finish this list or length, so that it does not show that there is no more",
            label: b"a list that was cut is not finished: `steps` tells how each ended",
        });
    }
    if text.starts_with(b"rejected long".as_slice()) {
        return Some(Message {
            sentence: b"there are 2^32 clauses, assumptions or lines, or more",
            label: b"ask for one step by --step, or for one length by --length",
        });
    }
    None
}

/// What the answer to such a request means.
fn meaning_of(what: Rejecting, text: &[u8]) -> Option<Message<'static>>
    ensures { option_map said result ≡ meaning_of what text.now }
{
    match what {
        Rejecting::Why => why_meaning(text),
        Rejecting::Bench => bench_meaning(text),
        Rejecting::Evidence => evidence_meaning(text),
    }
}

/// A note of a sentence and a hint, which is due.
fn message_said(alloc: Global, message: Message<'_>) -> Note
    ensures { Due (λ text. text ≡ meaning_text (said message.entry)) result }
{
    note_made(pair_note(alloc, message.sentence, message.label))
}

/// The same, where there is one.
fn meaning_said(alloc: Global, meaning: Option<Message<'_>>) -> Note
    ensures { DueText (option_map meaning_text (option_map said meaning.entry)) result }
{
    match meaning {
        Some(message) => message_said(alloc, message),
        None => Note::Silent,
    }
}

/// The note on the answer to such a request, where it is rejected.
fn text_said(alloc: Global, what: Rejecting, text: &[u8]) -> Note
    ensures { DueText (rejected_text what text.now) result }
{
    let meaning = meaning_of(what, text);
    meaning_said(alloc, meaning)
}

/// The same of a reply.
fn rejected_said(alloc: Global, what: Rejecting, reply: &Reply) -> Note
    ensures { DueText (rejected_text what reply.now.text.items) result }
{
    let text = reply.text.as_slice();
    text_said(alloc, what, text)
}

/// The answer to such a request: what it means is said where it is rejected.
pub fn rejected_noted(
    alloc: Global,
    what: Rejecting,
    told: Result<Reply, NoMemory>,
) -> Result<Response, NoMemory>
    ensures reply { replied result ≡ told }
    ensures note { IfOk result (λ answer. DueText (rejected_text what answer.reply.text.items) answer.note) }
{
    match told {
        Ok(reply) => {
            let note = rejected_said(alloc, what, &reply);
            Ok(Response { reply, note })
        }
        Err(want) => Err(want),
    }
}
