//! The answer to words. All is fetched, read and computed, and the whole text and the note on it are made, before the first put.
ghost use Rattle.std.specs.Prelude.{map, string_bytes};
ghost use Rattle.bs_outside.specs.Texts.{output, PutsText};
ghost use Rattle.bs_call.specs.Answering.{AnswersWords};
ghost use Rattle.bs_call.specs.Meaning.{source};

use crate::program::Program;
use crate::saying::deliver_noted;
use bs_outside::{NoMemory, Shelf, Sink, Status, put_text};
use std::alloc::Global;

/// Says that memory ran out, and nothing was written.
pub(crate) fn say_memory<P: Program, N: Sink>(program: &P, notes: &mut N)
    ensures { PutsText (output N.written N.faults N.leads) notes.old notes.new P.means.memory }
{
    put_text(notes, program.memory_note().as_bytes());
}

/// Does what the words of a command line ask of a program, without its name, writes what they call for (docs/FORMATS.md, "Statuses"),
/// and then says at most one note on it to a second sink.
pub fn answer_words<P: Program, S: Shelf, K: Sink, N: Sink>(
    program: &P,
    alloc: Global,
    words: &[String],
    shelf: &mut S,
    out: &mut K,
    notes: &mut N,
) -> Result<Status, NoMemory>
    ensures { AnswersWords P.means (source S.held S.faults S.leads) shelf.old shelf.new (output K.written K.faults K.leads) out.old out.new
        (output N.written N.faults N.leads) notes.old notes.new (map string_bytes words.now) result }
{
    match program.prepare(alloc, words, shelf) {
        Ok(answer) => Ok(deliver_noted(alloc, answer, out, notes)),
        Err(want) => {
            say_memory(program, notes);
            Err(want)
        }
    }
}
