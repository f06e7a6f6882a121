//! The text of bits of which some are not known (docs/FORMATS.md, "Bits").
ghost use Rattle.std.specs.Prelude.{◌≡◌, ◌++◌, false, map, IfOk, IsTrue, OnOk, OnErr};
ghost use Rattle.std.specs.List.{list_any};
ghost use Rattle.bs_bits.specs.Text.{digit_of};
ghost use Rattle.bs_scan.specs.SeenText.{dash_or, filled, filled_in, is_dash, marked, seen_of, seen_text};

use crate::seen::{Seen, is_free_in};
use bs_bits::{Bits, NoMemory, push_piece};
use std::alloc::Global;

/// Whether a character says that a bit is not known.
fn is_dash(character: u8) -> bool
    ensures { result ≡ is_dash character }
{
    character == b'-'
}

/// Whether a text has a bit that is not known.
fn has_dash(text: &[u8]) -> bool
    ensures { result ≡ list_any is_dash text.now }
{
    text.iter().any(|character| is_dash(*character))
}

/// The character of a bit, or that it is not known.
fn character_of(free: bool, bit: bool) -> u8
    ensures { result ≡ dash_or free (digit_of bit) }
{
    if free {
        b'-'
    } else if bit {
        b'1'
    } else {
        b'0'
    }
}

/// The character with `0` where it says that a bit is not known.
fn fill(character: u8) -> u8
    ensures { result ≡ filled_in character }
{
    if is_dash(character) { b'0' } else { character }
}

/// The characters with `0` for each bit that is not known.
fn filled(alloc: Global, text: &[u8]) -> Result<Vec<u8>, NoMemory>
    ensures { IfOk result (λ digits. digits.items ≡ filled text.now) }
{
    let mut digits = Vec::new(alloc);
    'characters: for character in text {
        digits.push(fill(*character))?;
    }
    Ok(digits)
}

/// The places of the bits that are not known.
fn dashes(alloc: Global, text: &[u8]) -> Result<Bits, NoMemory>
    ensures { IfOk result (λ free. free ≡ map is_dash text.now) }
{
    let mut free = Bits::new(alloc);
    'characters: for character in text {
        free.push(is_dash(*character))?;
    }
    Ok(free)
}

/// The bits of a text of which some are not known.
fn read_partial(alloc: Global, text: &[u8]) -> Result<Option<Seen>, NoMemory>
    requires { IsTrue (list_any is_dash text.now) }
    ensures { IfOk result (λ seen. seen ≡ seen_of text.now) }
{
    let digits = filled(alloc, text)?;
    match Bits::read_text(alloc, digits.as_slice())? {
        None => Ok(None),
        Some(bits) => {
            let free = dashes(alloc, text)?;
            Ok(Some(Seen { bits, free }))
        }
    }
}

/// The bits of a text of which all are known.
fn read_whole(alloc: Global, text: &[u8]) -> Result<Option<Seen>, NoMemory>
    requires { list_any is_dash text.now ≡ false }
    ensures { IfOk result (λ seen. seen ≡ seen_of text.now) }
{
    match Bits::read_text(alloc, text)? {
        None => Ok(None),
        Some(bits) => Ok(Some(Seen::whole(alloc, bits))),
    }
}

/// Appends a character for each bit.
fn push_marked(into: &mut Vec<u8>, bits: &Bits, free: &Bits) -> Result<(), NoMemory>
    ensures { OnOk result (into.new.items ≡ into.old.items ++ marked free.now (map digit_of bits.now)) }
{
    'places: for i in 0..bits.len() {
        into.push(character_of(is_free_in(free, i), bits.get(i)))?;
    }
    Ok(())
}

/// Appends the text of bits of which some are not known. The text is as before where memory runs out.
fn push_partial(into: &mut Vec<u8>, bits: &Bits, free: &Bits) -> Result<(), NoMemory>
    ensures ok { OnOk result (into.new.items ≡ into.old.items ++ marked free.now (map digit_of bits.now)) }
    ensures err { OnErr result (into.new.items ≡ into.old.items) }
{
    let mut text = Vec::new(*into.allocator());
    push_marked(&mut text, bits, free)?;
    push_piece(into, text.as_slice())
}

/// Appends the text of bits and of the places that are free: `-` at each of these, and else as for bits. The text is as before where
/// memory runs out.
pub fn push_seen_text(into: &mut Vec<u8>, bits: &Bits, free: &Bits) -> Result<(), NoMemory>
    ensures ok { OnOk result (into.new.items ≡ into.old.items ++ seen_text (record { bits = bits.now; free = free.now })) }
    ensures err { OnErr result (into.new.items ≡ into.old.items) }
{
    if free.len() == 0 {
        return bits.text(into);
    }
    push_partial(into, bits, free)
}

impl Seen {
    /// Appends the text of the bits: `-` for each one that is not known, and else as for bits. The text is as before where memory
    /// runs out.
    pub fn text(&self, into: &mut Vec<u8>) -> Result<(), NoMemory>
        ensures ok { OnOk result (into.new.items ≡ into.old.items ++ seen_text self.now) }
        ensures err { OnErr result (into.new.items ≡ into.old.items) }
    {
        push_seen_text(into, &self.bits, &self.free)
    }

    /// The bits that a text stands for. `None` comes exactly where it is no such text.
    pub fn read_text(alloc: Global, text: &[u8]) -> Result<Option<Seen>, NoMemory>
        ensures { IfOk result (λ seen. seen ≡ seen_of text.now) }
    {
        if has_dash(text) {
            read_partial(alloc, text)
        } else {
            read_whole(alloc, text)
        }
    }
}
