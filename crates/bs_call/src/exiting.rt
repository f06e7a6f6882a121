//! All that stands behind the words of a command line, up to the exit code.
ghost use Rattle.std.specs.Prelude.{◌≡◌, map, string_bytes, IfOk, IfErr};
ghost use Rattle.bs_outside.specs.Statuses.{exit_code};
ghost use Rattle.bs_outside.specs.Texts.{output};
ghost use Rattle.bs_call.specs.Exiting.{EndsBy, EndsUnread, SaysUnread, UnreadSaid};
ghost use Rattle.bs_call.specs.Meaning.{source};

use crate::answering::{answer_words, say_memory};
use crate::program::Program;
use crate::saying::put_note;
use bs_outside::{NO_MEMORY_CODE, NoMemory, Shelf, Sink, Status};
use std::alloc::Global;
use std::io::ErrorKind;

/// The exit code of an answer.
fn exit_code(answer: Result<Status, NoMemory>) -> u8
    ensures { result ≡ exit_code answer }
{
    match answer {
        Ok(status) => status.code(),
        Err(NoMemory) => NO_MEMORY_CODE,
    }
}

/// Says that the words of the command line are no text.
fn say_unread<P: Program, N: Sink>(program: &P, alloc: Global, notes: &mut N)
    ensures { SaysUnread P.means.unread (output N.written N.faults N.leads) notes.old notes.new }
{
    let note = program.unread_note(alloc);
    put_note(notes, &note);
}

/// The exit code where the words can't be told, and the note on that.
fn unread_code<P: Program, N: Sink>(
    program: &P,
    alloc: Global,
    kind: ErrorKind,
    notes: &mut N,
) -> u8
    ensures code { EndsUnread kind result }
    ensures said { UnreadSaid P.means.memory P.means.unread kind (output N.written N.faults N.leads) notes.old notes.new }
{
    if let ErrorKind::OutOfMemory = kind {
        say_memory(program, notes);
        NO_MEMORY_CODE
    } else {
        say_unread(program, alloc, notes);
        Status::Words.code()
    }
}

/// The exit code for words.
fn answered_code<P: Program, S: Shelf, K: Sink, N: Sink>(
    program: &P,
    alloc: Global,
    words: &[String],
    shelf: &mut S,
    out: &mut K,
    notes: &mut N,
) -> u8
    ensures { EndsBy P.means (source S.held S.faults S.leads) shelf.old shelf.new (output K.written K.faults K.leads) out.old out.new
        (output N.written N.faults N.leads) notes.old notes.new (map string_bytes words.now) result }
{
    exit_code(answer_words(program, alloc, words, shelf, out, notes))
}

/// Does what the words of the command line ask of a program, without its name, or tells by the exit code why there are none, by the
/// kind of their fault. The exit code is that of the answer, and the note on that very answer goes to a sink of its own.
pub fn run_program<P: Program, S: Shelf, K: Sink, N: Sink>(
    program: &P,
    alloc: Global,
    words: Result<Vec<String>, ErrorKind>,
    shelf: &mut S,
    out: &mut K,
    notes: &mut N,
) -> u8
    ensures words { IfOk words (λ words. EndsBy P.means (source S.held S.faults S.leads) shelf.old shelf.new
        (output K.written K.faults K.leads) out.old out.new (output N.written N.faults N.leads) notes.old notes.new
        (map string_bytes words.items) result) }
    ensures unread { IfErr words (λ kind. EndsUnread kind result × (shelf.new ≡ shelf.old) × (out.new ≡ out.old)) }
    ensures unread_said { IfErr words (λ kind. UnreadSaid P.means.memory P.means.unread kind (output N.written N.faults N.leads) notes.old notes.new) }
{
    match words {
        Ok(words) => answered_code(program, alloc, &words, shelf, out, notes),
        Err(kind) => unread_code(program, alloc, kind, notes),
    }
}
