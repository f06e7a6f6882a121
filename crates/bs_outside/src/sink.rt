//! The output, as the program sees it.
ghost use Rattle.std.specs.Prelude.{ℕ, List};
ghost use Rattle.std.specs.declared.option.Option.{Option};
ghost use Rattle.bs_outside.specs.Calls.{put_call, PutCall};
ghost use Rattle.bs_outside.specs.Putting.{Puts};
ghost use Rattle.bs_outside.specs.Texts.{output, PutsText};

use std::io::ErrorKind;

/// How a put ended.
#[derive(Clone, Copy, Debug, PartialEq, Eq)]
pub enum Put {
    /// All bytes went out.
    Done,
    /// So many bytes went out before the fault.
    Failed(usize),
}

/// An output. Its count of faults never falls, and rises only in a call that answers `Failed`.
pub trait Sink {
    /// The bytes that went out, where the sink tells them.
    ghost written: { Self → Option (List ℕ) };

    /// How often a put has failed.
    ghost faults: { Self → ℕ };

    /// A call leads from the sink as it was to the sink as it is. So a clause can name the calls that were made, in their
    /// order (`InTurn`).
    ghost leads: { Self → PutCall → Self → Type 0 };

    /// Writes the bytes, and takes no memory. It fails only where the count rises or stands at the greatest `u64`.
    fn put(&mut self, bytes: &[u8]) -> Put
        ensures puts { Puts (written self.old) (written self.new) (faults self.old) (faults self.new) bytes.now result }
        ensures call { leads self.old (put_call bytes.now result) self.new };

    /// The kind of the last fault, where it is known: for a person, and no clause speaks of it.
    fn reason(&self) -> Option<ErrorKind> {
        None
    }
}

/// Puts a text, whole, in one call.
pub fn put_text<K: Sink>(out: &mut K, text: &[u8])
    ensures { PutsText (output K.written K.faults K.leads) out.old out.new text.now }
{
    let _answer = out.put(text);
}
