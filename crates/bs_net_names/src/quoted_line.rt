//! A line as it is shown to a person, and the caret under a place of it.
ghost use Rattle.std.specs.Prelude.{◌≡◌, ◌≤◌, ◌<◌, ◌-◌, ◌∷◌, [], ◌++◌, flat_map, length, min, replicate, take, OnOk};
ghost use Rattle.bs_net_names.specs.Quotes.{caret, digit, is_printable, shown_line, shown_byte, shown_width};

use bs_bits::{NoMemory, push_piece};

/// How many bytes of a line are shown.
/// About two lines of a terminal.
pub const SHOWN: usize = 160;

/// A digit of a number to the base 16.
fn digit(value: u8) -> u8
    requires { value < 16 }
    ensures { result ≡ digit value }
{
    if value < 10 {
        b'0' + value
    } else {
        b'a' + (value - 10)
    }
}

/// Whether a byte is one of ` ` to `~`.
fn is_printable(byte: u8) -> bool
    ensures { result ≡ is_printable byte }
{
    b' ' <= byte && byte <= b'~'
}

/// Appends a byte: as it is where it is one of ` ` to `~`, and else as `\xHH`.
fn push_shown(into: &mut Vec<u8>, byte: u8) -> Result<(), NoMemory>
    ensures { OnOk result (into.new.items ≡ into.old.items ++ shown_byte byte) }
{
    if is_printable(byte) {
        return push_piece(into, &[byte]);
    }
    push_piece(into, &[b'\\', b'x', digit(byte / 16), digit(byte % 16)])
}

/// The bytes of a line that are shown.
#[tactic(auto, using(std::proofs::lemmas::List::take_min))]
fn shown(line: &[u8]) -> &[u8]
    ensures { result.now ≡ take SHOWN line.now }
{
    &line[..SHOWN.min(line.len())]
}

/// Appends the first `SHOWN` bytes of a line, each byte outside ` ` to `~` as `\xHH`.
pub fn push_quoted(into: &mut Vec<u8>, line: &[u8]) -> Result<(), NoMemory>
    ensures { OnOk result (into.new.items ≡ into.old.items ++ shown_line line.now) }
{
    let shown = shown(line);
    'bytes: for &byte in shown {
        push_shown(into, byte)?;
    }
    Ok(())
}

/// How many columns a byte takes where it is shown.
fn shown_width(byte: u8) -> usize
    ensures is { result ≡ shown_width byte }
    ensures few { result ≤ 4 }
{
    if is_printable(byte) { 1 } else { 4 }
}

/// The shown bytes before a column.
#[tactic(auto, using(std::proofs::lemmas::List::take_min))]
fn shown_before(line: &[u8], column: usize) -> &[u8]
    requires { 0 < column }
    ensures { result.now ≡ take (min (column - 1) SHOWN) line.now }
{
    &line[..(column - 1).min(SHOWN).min(line.len())]
}

/// Appends as many spaces as bytes take columns where they are shown.
fn push_under(into: &mut Vec<u8>, bytes: &[u8]) -> Result<(), NoMemory>
    ensures { OnOk result (into.new.items ≡ into.old.items ++ flat_map (λ b. replicate (shown_width b) 32) bytes.now) }
{
    'bytes: for &byte in bytes {
        push_blanks(into, shown_width(byte))?;
    }
    Ok(())
}

/// Appends a caret that stands under the byte of a column of the shown line, or behind the line where that column is not shown.
pub fn push_caret(into: &mut Vec<u8>, line: &[u8], column: usize) -> Result<(), NoMemory>
    requires { 0 < column }
    ensures { OnOk result (into.new.items ≡ into.old.items ++ caret line.now column) }
{
    push_under(into, shown_before(line, column))?;
    push_piece(into, b"^")
}

/// Appends so many spaces, 1 or 4.
fn push_blanks(into: &mut Vec<u8>, count: usize) -> Result<(), NoMemory>
    requires { count ≤ 4 }
    ensures { OnOk result (into.new.items ≡ into.old.items ++ replicate count 32) }
{
    push_piece(into, &b"    "[..count])
}
