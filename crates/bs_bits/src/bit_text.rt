//! The text of a list of bits (docs/FORMATS.md, "Bits").
ghost use Rattle.std.specs.Prelude.{◌≡◌, ◌≢◌, ◌++◌, Bool, IfOk, OnOk, OnErr, MatchOption};
ghost use Rattle.std.specs.Prelude.{List as Seq};
ghost use Rattle.bs_bits.specs.Text.{bits_text, digit_of};

use crate::memory::NoMemory;
use std::alloc::Global;

/// The character of a bit.
fn digit(bit: bool) -> u8
    ensures { result ≡ digit_of bit }
{
    if bit { b'1' } else { b'0' }
}

/// The bit that a character stands for, if it is `0` or `1`.
fn bit_of(character: u8) -> Option<bool>
    ensures { MatchOption result ((b : Bool) → digit_of b ≢ character) (λ b. digit_of b ≡ character) }
{
    match character {
        b'0' => Some(false),
        b'1' => Some(true),
        _ => None,
    }
}

/// Appends the text of bits.
pub fn push_bits(into: &mut Vec<u8>, bits: &[bool]) -> Result<(), NoMemory>
    ensures ok { OnOk result (into.new.items ≡ into.old.items ++ bits_text bits.now) }
    ensures err { OnErr result (into.new.items ≡ into.old.items) }
{
    if bits.is_empty() {
        into.push(b'.')?;
        return Ok(());
    }
    into.reserve(bits.len())?;
    for bit in bits {
        into.push_reserved(digit(*bit));
    }
    Ok(())
}

/// The bits whose text this is, if there are such.
pub fn parse_bits(alloc: Global, text: &[u8]) -> Result<Option<Vec<bool>>, NoMemory>
    ensures { IfOk result (λ o. MatchOption o ((b : Seq Bool) → bits_text b ≢ text.now) (λ b. bits_text b.items ≡ text.now)) }
{
    let mut bits = Vec::new(alloc);
    if text == b".".as_slice() {
        return Ok(Some(bits));
    }
    if text.is_empty() {
        return Ok(None);
    }
    bits.reserve(text.len())?;
    for character in text {
        match bit_of(*character) {
            Some(bit) => bits.push_reserved(bit),
            None => return Ok(None),
        }
    }
    Ok(Some(bits))
}
