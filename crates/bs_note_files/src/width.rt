//! Sentences on lines with another number of bits than there should be.
ghost use Rattle.std.specs.Prelude.{◌≡◌, IfOk};
ghost use Rattle.bs_note_files.specs.Sayings.{bits_in, width_text};

use bs_bits::{NoMemory, push_number, push_piece};
use std::alloc::Global;

/// How many bits a line has, and how many are due, of what.
pub fn width_sentence(
    alloc: Global,
    bits: usize,
    due: usize,
    of: &[u8],
) -> Result<Vec<u8>, NoMemory>
    ensures { IfOk result (λ said. said.items ≡ width_text bits due of.now) }
{
    let mut said = Vec::new(alloc);
    push_number(&mut said, bits as u64)?;
    push_piece(&mut said, b" bits stand here, and ")?;
    push_number(&mut said, due as u64)?;
    push_piece(&mut said, b" are due: one for each ")?;
    push_piece(&mut said, of)?;
    Ok(said)
}

/// How many bits a text of bits has: `.` stands for none.
pub fn bits_in(text: &[u8]) -> usize
    ensures { result ≡ bits_in text.now }
{
    if text == b".".as_slice() {
        0
    } else {
        text.len()
    }
}
