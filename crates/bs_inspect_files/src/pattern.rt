//! The pattern of a scan chain, or the diagnostic of its bits.
ghost use Rattle.std.specs.Prelude.{◌≡◌, ◌++◌, ◌∷◌, [], not, IfOk, OnOk, if◌then◌else◌};
ghost use Rattle.std.specs.Option.{option_copied};
ghost use Rattle.bs_outside.specs.declared.file_fetch.Refusal.TheVariants.{NoMemory as Want};
ghost use Rattle.bs_outside.specs.Plan.{exactly};
ghost use Rattle.bs_outside.specs.Diagnostic.{note_refusal, noted, word_refusal, worded};
ghost use Rattle.bs_outside.specs.Walks.{Reads};
ghost use Rattle.bs_top_files.specs.Causes.{CheckSays, HasNote, NoteSays};
ghost use Rattle.bs_top_files.specs.Refusals.{HasWords};
ghost use Rattle.bs_inspect_netlist.specs.declared.fault.PatternFault.TheVariants.{NoMemory as PatternWant};
ghost use Rattle.bs_inspect_files.specs.Readings.{bits_text, file_in, is_white, joined, pattern_read, pattern_text, width_text};
ghost use Rattle.bs_inspect_files.specs.FlopWords.{pattern_words};

use crate::flop_refusals::pattern_refusal;
use bs_bits::{Bits, NoMemory, push_number, push_piece};
use bs_inspect_netlist::{PatternFault, read_pattern};
use bs_note_files::plain_note;
use bs_outside::{Unread, both};
use std::alloc::Global;

/// A note on bits that have another character than 0 and 1.
fn bits_note(alloc: Global) -> Result<Vec<u8>, NoMemory>
    ensures { IfOk result (λ note. note.items ≡ bits_text) }
{
    plain_note(
        alloc,
        b"the bits of a pattern are characters 0 and 1 alone, the first one for the first line of the order",
    )
}

/// A note on another number of bits than that of the order's lines.
fn width_note(alloc: Global, lines: usize, count: u64) -> Result<Vec<u8>, NoMemory>
    ensures { IfOk result (λ note. note.items ≡ width_text lines count) }
{
    let mut said = b"there are ".to_vec(alloc)?;
    push_number(&mut said, count)?;
    push_piece(&mut said, b" bits, and the lines of the order are ")?;
    push_number(&mut said, lines as u64)?;
    let note = plain_note(alloc, &said)?;
    Ok(note)
}

/// The note on bits that are no pattern of so many.
fn pattern_note(alloc: Global, lines: usize, fault: PatternFault) -> Result<Vec<u8>, NoMemory>
    ensures { IfOk result (λ note. note.items ≡ pattern_text lines fault) }
{
    match fault {
        PatternFault::Bits => bits_note(alloc),
        PatternFault::Width(count) => width_note(alloc, lines, count),
        PatternFault::NoMemory => Err(NoMemory),
    }
}

/// The diagnostic of bits that are no pattern of so many.
#[tactic(auto, using(bs_top_files::proofs::NotingLemmas::both_words, bs_top_files::proofs::NotingLemmas::both_these, bs_top_files::proofs::NotingLemmas::both_want))]
fn pattern_diagnostic(alloc: Global, lines: usize, fault: PatternFault) -> Unread
    ensures words { HasWords (pattern_words fault) (word_refusal result) }
    ensures want { fault ≡ PatternWant → word_refusal result ≡ Want }
    ensures note { HasNote (exactly (pattern_text lines fault)) (note_refusal result) }
    ensures none { fault ≡ PatternWant → note_refusal result ≡ Want }
{
    let words = pattern_refusal(alloc, fault);
    let note = pattern_note(alloc, lines, fault);
    both(words, note)
}

/// A pattern of a scan chain in an order of so many lines, or the diagnostic of its bits.
pub fn pattern_or_diagnostic(alloc: Global, text: &[u8], lines: usize) -> Result<Bits, Unread>
    ensures words { Reads CheckSays (λ bits. bits) (pattern_read lines text.now) (worded result) }
    ensures note { Reads NoteSays (λ bits. bits) (pattern_read lines text.now) (noted result) }
{
    match read_pattern(alloc, text, lines) {
        Ok(bits) => Ok(bits),
        Err(fault) => Err(pattern_diagnostic(alloc, lines, fault)),
    }
}

/// The file that a word names behind `@`.
pub fn file_in(word: &str) -> Option<&str>
    ensures { option_copied result ≡ file_in word.now }
{
    word.strip_prefix("@")
}

/// Whether a byte is white space.
fn is_white(byte: u8) -> bool
    ensures { result ≡ is_white byte }
{
    byte == 32 || (9 <= byte && byte <= 13)
}

/// Puts a byte at the end, unless it is white space.
fn put_joined(bits: &mut Vec<u8>, byte: u8) -> Result<(), NoMemory>
    ensures { OnOk result (bits.new.items ≡ bits.old.items ++ (if not (is_white byte) then byte ∷ [] else [])) }
{
    if !is_white(byte) {
        bits.push(byte)?;
    }
    Ok(())
}

/// The bytes of a text without its white space.
#[tactic(auto, using(crate::proofs::PatternLemmas::joined_more))]
pub fn joined(alloc: Global, text: &[u8]) -> Result<Vec<u8>, NoMemory>
    ensures { IfOk result (λ bits. bits.items ≡ joined text.now) }
{
    let mut bits = Vec::new(alloc);
    'bytes: for i in 0..text.len() {
        put_joined(&mut bits, text[i])?;
    }
    Ok(bits)
}
