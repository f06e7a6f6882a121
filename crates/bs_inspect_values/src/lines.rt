//! A note on a line of a file.
ghost use Rattle.std.specs.Prelude.{◌≡◌, ◌≤◌, length, max, IfOk};
ghost use Rattle.bs_note_files.specs.Notes.{said};
ghost use Rattle.bs_net_names.specs.Spots.{IsLineStart};
ghost use Rattle.bs_top_files.specs.Causes.{IsNoteAtLine};

use bs_bits::NoMemory;
use bs_net_names::line_start;
use bs_note_files::{FilePlace, Message, placed_note};
use std::alloc::Global;

/// The place at which the line with a number begins, from 1; the text's length where there is no such line.
fn start_of(text: &[u8], number: u64) -> usize
    ensures within { result ≤ length text.now }
    ensures begins { IsLineStart text.now (max number 1) result }
{
    line_start(text, number.max(1))
}

/// A note on the front of the line with a number, from 1.
pub fn line_note(
    alloc: Global,
    path: &str,
    text: &[u8],
    number: u64,
    message: Message<'_>,
) -> Result<Vec<u8>, NoMemory>
    ensures { IfOk result (λ note. IsNoteAtLine path.now text.now number (said message.entry) note.items) }
{
    let start = start_of(text, number);
    let place = FilePlace {
        path,
        text,
        at: start,
    };
    let note = placed_note(alloc, &place, &message)?;
    Ok(note)
}
