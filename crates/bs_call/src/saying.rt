//! The reply goes out, and then at most one note.
ghost use Rattle.std.specs.Prelude.{◌≡◌, ◌≢◌};
ghost use Rattle.bs_note_calls.specs.Faults.{memory_text};
ghost use Rattle.bs_outside.specs.Texts.{output, PutsText};
ghost use Rattle.bs_outside.specs.Delivery.{Delivers, PutsLines};
ghost use Rattle.bs_call.specs.Said.{FailNoted, PutsNote, SaysSent};

use crate::note::{Note, Response};
use bs_note_calls::output_note;
use bs_outside::{Delivered, Sink, Status, deliver_counted, put_text};
use std::alloc::Global;
use std::io::ErrorKind;

/// Puts a note, whole, in one call, or says that memory ran out.
pub(crate) fn put_note<N: Sink>(notes: &mut N, note: &Note)
    ensures { PutsNote (output N.written N.faults N.leads) notes.old notes.new note.now }
{
    match note {
        Note::Silent => (),
        Note::Brief(text) => put_text(notes, text.bytes()),
        Note::Text(text) => put_text(notes, text),
        Note::Wanting => put_text(
            notes,
            b"note: memory ran out while this answer was looked at once more\n",
        ),
    }
}

/// The note on an output that did not take the answer.
#[tactic(auto, using(crate::proofs::NoteLemmas::fail_made))]
fn fail_note(lines: usize, kind: Option<ErrorKind>) -> Note
    ensures { FailNoted lines result }
{
    Note::Brief(output_note(lines as u64, kind))
}

/// What is said once an answer went out so: its note, or the one on the output.
fn note_after(note: Note, sent: Delivered, kind: Option<ErrorKind>) -> Note
    ensures whole { sent.status ≢ Status.WriteFault → result ≡ note }
    ensures cut { sent.status ≡ Status.WriteFault → FailNoted sent.lines result }
{
    if let Status::WriteFault = sent.status {
        fail_note(sent.lines, kind)
    } else {
        note
    }
}

/// Writes an answer, and then puts the note on it, or the one on an output that failed.
pub(crate) fn deliver_noted<K: Sink, N: Sink>(
    _alloc: Global,
    answer: Response,
    out: &mut K,
    notes: &mut N,
) -> Status
    requires { answer.reply.status ≢ Status.WriteFault }
    ensures sent { Delivers answer.reply.status answer.reply.text.items (K.written out.old) (K.written out.new) (K.faults out.old) (K.faults out.new) result }
    ensures lines { PutsLines K.leads out.old out.new answer.reply.text.items result }
    ensures said { SaysSent K.leads out.old out.new answer.reply.text.items (output N.written N.faults N.leads) notes.old notes.new answer.note result }
{
    let sent = deliver_counted(&answer.reply, out);
    let note = note_after(answer.note, sent, out.reason());
    put_note(notes, &note);
    sent.status
}

/// Says that memory ran out, and nothing was written.
pub fn say_memory<N: Sink>(notes: &mut N)
    ensures { PutsText (output N.written N.faults N.leads) notes.old notes.new memory_text }
{
    put_text(
        notes,
        b"note: memory ran out, and nothing was written: give the program more, or lower --candidates and --conflicts\n",
    );
}
