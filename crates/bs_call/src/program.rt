//! What is a program's own.
ghost use Rattle.std.specs.Prelude.{◌≡◌, map, string_bytes};
ghost use Rattle.bs_outside.specs.Prepared.{IsWork};
ghost use Rattle.bs_call.specs.Meaning.{Meaning, PreparedFor, source};

use crate::note::{Note, Response};
use bs_outside::{NoMemory, Shelf};
use std::alloc::Global;

/// A program: what its words ask for, and the answer to them.
pub trait Program {
    /// What words may ask for, and the cases of its refusals of which several texts are right, and its work.
    ghost Job: { Type 0 };

    ghost Case: { Type 0 };

    ghost Work: { Type 0 };

    /// What it means.
    ghost means: { Meaning Self.Job Self.Case Self.Work };

    /// What is to be answered and written for words, and what is to be said.
    fn prepare<S: Shelf>(
        &self,
        alloc: Global,
        words: &[String],
        shelf: &mut S,
    ) -> Result<Response, NoMemory>
        ensures prepared { PreparedFor Self.means (source S.held S.faults S.leads) shelf.old shelf.new (map string_bytes words.now) result }
        ensures work { IsWork Self.means.finishes }
        ensures design { Self.means.design };

    /// The note where memory ran out, and nothing was written.
    fn memory_note(&self) -> &'static str
        ensures { result.now ≡ Self.means.memory };

    /// The note on words that are no text.
    fn unread_note(&self, alloc: Global) -> Note
        ensures { Self.means.unread result };
}
