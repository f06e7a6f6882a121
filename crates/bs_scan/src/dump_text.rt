//! The lines of a dump, read and written one by one.
ghost use Rattle.std.specs.Prelude.{◌≡◌, ◌==◌, ◌≤◌, length, true, drop, codes, Bool, slice_get, option_map, option_and_then, ◌++◌, IfOk, OnOk, OnErr};
ghost use Rattle.bs_scan.specs.DumpText.{behind, behind_older, of_width as bits_of_width, bits_line as bits_line_of, held_line as held_line_of};
ghost use Rattle.bs_scan.specs.DumpText.{old_line as old_line_of, older_line as older_line_of, end_line as end_line_of, is_text as is_text_of};
ghost use Rattle.bs_scan.specs.DumpText.{signature_line, older_text, dump_text, seen_of_width as of_seen_width, seen_line as seen_line_of};
ghost use Rattle.bs_scan.specs.SeenText.{seen_of, seen_text};
ghost use Rattle.bs_bits.specs.Lines.{lines_of, line as written_line};
ghost use Rattle.bs_bits.specs.Reading.{Answers};
ghost use Rattle.bs_bits.specs.Text.{bits_of, bits_text};
ghost use Rattle.bs_stim.specs.Appending.{Begins};

use crate::dump::Dump;
use crate::fault::DumpFault;
use crate::seen::Seen;
use crate::words::is_same;
use bs_bits::{Bits, NoMemory, end_line as written_end, next_line, push_line, push_piece};
use std::alloc::Global;

/// The first line, if there is one, and the bytes behind it.
pub fn first_line(text: &[u8]) -> (Option<&[u8]>, &[u8])
    ensures first { option_map (λ line. line.now) result.0 ≡ slice_get (lines_of text.now) 0 }
    ensures rest { lines_of result.1.now ≡ drop 1 (lines_of text.now) }
{
    match next_line(text) {
        Some((line, rest)) => (Some(line), rest),
        None => (None, text),
    }
}

/// Whether there is a line, and it is this.
pub fn is_line(line: Option<&[u8]>, word: &[u8]) -> bool
    ensures { result ≡ is_text_of word.now (option_map (λ line. line.now) line.entry) }
{
    match line {
        Some(text) => is_same(text, word),
        None => false,
    }
}

/// What stands behind a word.
pub fn rest_behind<'a>(word: &[u8], text: &'a [u8]) -> Option<&'a [u8]>
    ensures { option_map (λ rest. rest.now) result ≡ behind word.now text.now }
{
    if text.len() < word.len() {
        return None;
    }
    let (front, rest) = text.split_at(word.len());
    if is_same(front, word) {
        Some(rest)
    } else {
        None
    }
}

/// The bits behind a word, if the line is so.
fn bits_behind(alloc: Global, word: &[u8], line: Option<&[u8]>) -> Result<Option<Bits>, NoMemory>
    ensures { IfOk result (λ bits. bits ≡ option_and_then bits_of (option_and_then (behind word.now) (option_map (λ line. line.now) line.entry))) }
{
    let text = match line {
        Some(text) => text,
        None => return Ok(None),
    };
    match rest_behind(word, text) {
        Some(rest) => Bits::read_text(alloc, rest),
        None => Ok(None),
    }
}

/// Bits of a width.
fn of_width(number: u32, width: usize, bits: Option<Bits>) -> Result<Bits, DumpFault>
    ensures { result ≡ bits_of_width number width bits }
{
    match bits {
        Some(bits) => {
            if bits.len() == width {
                Ok(bits)
            } else {
                Err(DumpFault::Width(number))
            }
        }
        None => Err(DumpFault::Line(number)),
    }
}

/// The bits behind a word, in the line with this number.
fn bits_line(
    alloc: Global,
    word: &[u8],
    number: u32,
    width: usize,
    line: Option<&[u8]>,
) -> Result<Bits, DumpFault>
    ensures { Answers DumpFault.NoMemory (λ bits. bits) result (bits_line_of word.now number width (option_map (λ line. line.now) line.entry)) }
{
    of_width(number, width, bits_behind(alloc, word, line)?)
}

/// What is seen behind a word, if the line is so.
fn seen_behind(alloc: Global, word: &[u8], line: Option<&[u8]>) -> Result<Option<Seen>, NoMemory>
    ensures { IfOk result (λ seen. seen ≡ option_and_then seen_of (option_and_then (behind word.now) (option_map (λ line. line.now) line.entry))) }
{
    let text = match line {
        Some(text) => text,
        None => return Ok(None),
    };
    match rest_behind(word, text) {
        Some(rest) => Seen::read_text(alloc, rest),
        None => Ok(None),
    }
}

/// What is seen, of a width.
fn seen_of_width(number: u32, width: usize, seen: Option<Seen>) -> Result<Seen, DumpFault>
    ensures { result ≡ of_seen_width number width seen }
{
    match seen {
        Some(seen) => {
            if seen.bits.len() == width {
                Ok(seen)
            } else {
                Err(DumpFault::Width(number))
            }
        }
        None => Err(DumpFault::Line(number)),
    }
}

/// What is seen behind a word, in the line with this number.
pub fn seen_line(
    alloc: Global,
    word: &[u8],
    number: u32,
    width: usize,
    line: Option<&[u8]>,
) -> Result<Seen, DumpFault>
    ensures { Answers DumpFault.NoMemory (λ seen. seen) result (seen_line_of word.now number width (option_map (λ line. line.now) line.entry)) }
{
    seen_of_width(number, width, seen_behind(alloc, word, line)?)
}

/// Whether there is a line, and `none` is what stands behind a word in it.
fn is_none_behind(word: &[u8], line: Option<&[u8]>) -> bool
    ensures { result ≡ is_text_of (codes "none") (option_and_then (behind word.now) (option_map (λ line. line.now) line.entry)) }
{
    let text = match line {
        Some(text) => text,
        None => return false,
    };
    match rest_behind(word, text) {
        Some(rest) => is_same(rest, b"none"),
        None => false,
    }
}

/// The signature behind a word, or none, in the line with this number.
pub fn held_line(
    alloc: Global,
    word: &[u8],
    number: u32,
    items: usize,
    line: Option<&[u8]>,
) -> Result<Option<Bits>, DumpFault>
    ensures { Answers DumpFault.NoMemory (λ held. held) result (held_line_of word.now number items (option_map (λ line. line.now) line.entry)) }
{
    if is_none_behind(word, line) {
        return Ok(None);
    }
    Ok(Some(bits_line(alloc, word, number, items, line)?))
}

/// The older signature behind what was read of the last one.
fn old_line(
    alloc: Global,
    items: usize,
    stored: &Option<Bits>,
    line: Option<&[u8]>,
) -> Result<Option<Bits>, DumpFault>
    ensures { Answers DumpFault.NoMemory (λ older. older) result (old_line_of items stored.now (option_map (λ line. line.now) line.entry)) }
{
    match stored {
        Some(_) => held_line(alloc, b"old ", 3, items, line),
        None => {
            if is_line(line, b"old none") {
                Ok(None)
            } else {
                Err(DumpFault::Line(3))
            }
        }
    }
}

/// The older signature of the third line, where two are kept.
pub fn older_line(
    alloc: Global,
    depth: u8,
    items: usize,
    stored: &Option<Bits>,
    line: Option<&[u8]>,
) -> Result<Option<Bits>, DumpFault>
    ensures { Answers DumpFault.NoMemory (λ older. older) result (older_line_of depth items stored.now (option_map (λ line. line.now) line.entry)) }
{
    if depth == 2 {
        old_line(alloc, items, stored, line)
    } else {
        Ok(None)
    }
}

/// What stands behind the line of the older signature, where there is one: of the lines from there on, and those behind
/// the first of them.
pub fn rest_behind_older<'a>(depth: u8, rest: &'a [u8], behind: &'a [u8]) -> &'a [u8]
    requires { lines_of behind.now ≡ drop 1 (lines_of rest.now) }
    ensures { lines_of result.now ≡ behind_older depth (lines_of rest.now) }
{
    if depth == 2 { behind } else { rest }
}

/// Whether there is no line.
fn is_finished(text: &[u8]) -> bool
    ensures { result ≡ (length (lines_of text.now) == 0) }
{
    match next_line(text) {
        Some(_) => false,
        None => true,
    }
}

/// The last line, which has this number, with none behind it.
pub fn end_line(number: u32, text: &[u8]) -> Result<(), DumpFault>
    requires { number ≤ 4 }
    ensures { Answers DumpFault.NoMemory (λ _. true) result (end_line_of number (lines_of text.now)) }
{
    let (line, rest) = first_line(text);
    if !is_line(line, b"end") {
        return Err(DumpFault::Line(number));
    }
    if !is_finished(rest) {
        return Err(DumpFault::Line(number + 1));
    }
    Ok(())
}

/// Appends a line of a word and bits.
fn push_bits_line(word: &[u8], bits: &Bits, into: &mut Vec<u8>) -> Result<(), NoMemory>
    ensures ok { OnOk result (into.new.items ≡ into.old.items ++ written_line (word.now ++ bits_text bits.now)) }
    ensures err { OnErr result (Begins into.old.items into.new.items) }
{
    push_piece(into, word)?;
    bits.text(into)?;
    written_end(into)
}

/// Appends the line of a signature, or of none, behind a word.
fn push_signature(word: &[u8], signature: &Option<Bits>, into: &mut Vec<u8>) -> Result<(), NoMemory>
    ensures ok { OnOk result (into.new.items ≡ into.old.items ++ signature_line word.now signature.now) }
    ensures err { OnErr result (Begins into.old.items into.new.items) }
{
    match signature {
        Some(bits) => push_bits_line(word, bits, into),
        None => {
            push_piece(into, word)?;
            push_line(into, b"none")
        }
    }
}

/// Appends the line of the older signature, where two are kept.
fn push_older(depth: u8, older: &Option<Bits>, into: &mut Vec<u8>) -> Result<(), NoMemory>
    ensures ok { OnOk result (into.new.items ≡ into.old.items ++ older_text depth older.now) }
    ensures err { OnErr result (Begins into.old.items into.new.items) }
{
    if depth == 2 {
        push_signature(b"old ", older, into)
    } else {
        Ok(())
    }
}

/// Appends the line of what is known of a state.
fn push_state(seen: &Seen, into: &mut Vec<u8>) -> Result<(), NoMemory>
    ensures ok { OnOk result (into.new.items ≡ into.old.items ++ written_line (codes "state " ++ seen_text seen.now)) }
    ensures err { OnErr result (Begins into.old.items into.new.items) }
{
    push_piece(into, b"state ")?;
    seen.text(into)?;
    written_end(into)
}

/// Appends the lines of a dump.
pub fn push_lines(dump: &Dump, into: &mut Vec<u8>) -> Result<(), NoMemory>
    ensures ok { OnOk result (into.new.items ≡ into.old.items ++ dump_text dump.now) }
    ensures err { OnErr result (Begins into.old.items into.new.items) }
{
    push_state(&dump.state, into)?;
    push_signature(b"sig ", &dump.stored, into)?;
    push_older(dump.depth, &dump.older, into)?;
    push_line(into, b"end")
}
