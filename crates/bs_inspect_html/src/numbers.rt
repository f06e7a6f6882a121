//! Numbers between pieces.
ghost use Rattle.std.specs.Prelude.{◌≡◌, ◌++◌, decimal, OnOk};

use bs_bits::{NoMemory, push_number, push_piece};

/// Appends a number, and a piece behind it.
pub fn push_before(text: &mut Vec<u8>, number: u64, back: &[u8]) -> Result<(), NoMemory>
    ensures { OnOk result (text.new.items ≡ text.old.items ++ (decimal number ++ back.now)) }
{
    push_number(text, number)?;
    push_piece(text, back)
}

/// Appends a number between two pieces.
pub fn push_between(
    text: &mut Vec<u8>,
    front: &[u8],
    number: u64,
    back: &[u8],
) -> Result<(), NoMemory>
    ensures { OnOk result (text.new.items ≡ text.old.items ++ (front.now ++ (decimal number ++ back.now))) }
{
    push_piece(text, front)?;
    push_before(text, number, back)
}
