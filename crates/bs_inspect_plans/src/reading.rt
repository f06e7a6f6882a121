//! What is seen of the state of a dump, by its first line alone, or the diagnostic of its text.
ghost use Rattle.std.specs.Prelude.{◌≡◌, codes, length, option_and_then, option_map, slice_get, IfOk};
ghost use Rattle.std.specs.Str.{bytes_eq};
ghost use Rattle.bs_bits.specs.Lines.{lines_of};
ghost use Rattle.bs_bits.specs.Reading.{Answers};
ghost use Rattle.bs_net.specs.Netlist.{circuit};
ghost use Rattle.bs_scan.specs.SeenText.{seen_of};
ghost use Rattle.bs_scan.specs.DumpText.{behind, seen_of_width as seen_of_width_of};
ghost use Rattle.bs_scan.specs.declared.fault.DumpFault.TheVariants.{NoMemory as DumpWant};
ghost use Rattle.bs_outside.specs.declared.file_fetch.Refusal.TheVariants.{NoMemory as Want};
ghost use Rattle.bs_outside.specs.Plan.{Says};
ghost use Rattle.bs_outside.specs.Diagnostic.{note_refusal, noted, word_refusal, worded};
ghost use Rattle.bs_outside.specs.Walks.{Reads};
ghost use Rattle.bs_top_files.specs.Causes.{CheckSays, dump_reason, HasNote, NoteSays};
ghost use Rattle.bs_top_files.specs.Refusals.{dump_words, HasWords};
ghost use Rattle.bs_inspect_plans.specs.Readings.{state_line, state_read, widths_for};
ghost use Rattle.bs_inspect_plans.specs.Taken.{width_of};

use bs_bits::{NoMemory, next_line};
use bs_inspect_values::numbered;
use bs_net::Netlist;
use bs_note_files::{Widths, dump_note, mistaken, mistaken_note};
use bs_outside::{File, Refusal, Unread, both};
use bs_scan::{DumpFault, Seen};
use bs_top_files::worded;
use std::alloc::Global;

// ---- the first line

/// Whether two texts are the same.
fn is_same(text: &[u8], word: &[u8]) -> bool
    ensures { result ≡ bytes_eq text.now word.now }
{
    text == word
}

/// The first line, if there is one.
fn first_line(text: &[u8]) -> Option<&[u8]>
    ensures { option_map (λ line. line.now) result ≡ slice_get (lines_of text.now) 0 }
{
    match next_line(text) {
        Some((line, _)) => Some(line),
        None => None,
    }
}

/// What stands behind a word.
fn rest_behind<'a>(word: &[u8], text: &'a [u8]) -> Option<&'a [u8]>
    ensures { option_map (λ rest. rest.now) result ≡ behind word.now text.now }
{
    if text.len() < word.len() {
        return None;
    }
    let (front, rest) = text.split_at(word.len());
    if is_same(front, word) {
        Some(rest)
    } else {
        None
    }
}

/// What is seen behind the word `state`, if a line is so.
fn seen_behind(alloc: Global, line: Option<&[u8]>) -> Result<Option<Seen>, NoMemory>
    ensures { IfOk result (λ seen. seen ≡ option_and_then seen_of (option_and_then (behind (codes "state ")) (option_map (λ line. line.now) line.entry))) }
{
    let text = match line {
        Some(text) => text,
        None => return Ok(None),
    };
    match rest_behind(b"state ", text) {
        Some(rest) => Seen::read_text(alloc, rest),
        None => Ok(None),
    }
}

/// What is seen, of a width, out of the first line.
fn of_width(width: usize, seen: Option<Seen>) -> Result<Seen, DumpFault>
    ensures is { result ≡ seen_of_width_of 1 width seen }
    ensures size { IfOk result (λ seen. length seen.bits ≡ width) }
{
    match seen {
        Some(seen) => {
            if seen.bits.len() == width {
                Ok(seen)
            } else {
                Err(DumpFault::Width(1))
            }
        }
        None => Err(DumpFault::Line(1)),
    }
}

/// What is seen in the first line of a text.
fn read_state(alloc: Global, text: &[u8], width: usize) -> Result<Seen, DumpFault>
    ensures is { Answers DumpFault.NoMemory (λ seen. seen) result (state_line width text.now) }
    ensures size { IfOk result (λ seen. length seen.bits ≡ width) }
{
    let seen = seen_behind(alloc, first_line(text))?;
    of_width(width, seen)
}

// ---- the diagnostic

/// Why a text has no state.
fn state_refusal(alloc: Global, fault: DumpFault) -> Refusal
    ensures why { HasWords (dump_words fault) result }
    ensures want { fault ≡ DumpWant → result ≡ Want }
{
    match fault {
        DumpFault::Line(line) => numbered(alloc, b"Line ", u64::from(line)),
        DumpFault::Width(line) => numbered(alloc, b"Width ", u64::from(line)),
        DumpFault::NotReset => worded(alloc, b"NotReset"),
        DumpFault::NoMemory => Refusal::NoMemory,
    }
}

/// What a dump is due to have, where nothing but its state is read.
fn widths_for(width: usize) -> Widths
    ensures { result ≡ widths_for width }
{
    Widths {
        flops: width,
        depth: 1,
        items: 0,
    }
}

/// The note on a text that has no state: that it seems to be another file of a job, where it does, or else on its fault.
#[tactic(auto, using(bs_top_files::proofs::NotingLemmas::says_mistaken, bs_top_files::proofs::NotingLemmas::says_case))]
fn state_note(
    alloc: Global,
    path: &str,
    text: &[u8],
    widths: Widths,
    fault: DumpFault,
) -> Result<Vec<u8>, NoMemory>
    ensures { IfOk result (λ note. Says NoteSays (dump_reason widths path.now text.now fault) note.items) }
{
    match mistaken(File::Dump, text) {
        Some(kind) => mistaken_note(alloc, File::Dump, kind, path),
        None => dump_note(alloc, path, text, widths, fault),
    }
}

/// The diagnostic of a text that has no state.
#[tactic(auto, using(bs_top_files::proofs::NotingLemmas::both_words, bs_top_files::proofs::NotingLemmas::both_note, bs_top_files::proofs::NotingLemmas::both_want))]
fn state_diagnostic(
    alloc: Global,
    path: &str,
    text: &[u8],
    widths: Widths,
    fault: DumpFault,
) -> Unread
    ensures words { HasWords (dump_words fault) (word_refusal result) }
    ensures want { fault ≡ DumpWant → word_refusal result ≡ Want }
    ensures note { HasNote (dump_reason widths path.now text.now fault) (note_refusal result) }
    ensures none { fault ≡ DumpWant → note_refusal result ≡ Want }
{
    let words = state_refusal(alloc, fault);
    let note = state_note(alloc, path, text, widths, fault);
    both(words, note)
}

/// What is seen of a state of so many bits in the first line of a text, or its diagnostic.
fn seen_or_diagnostic(alloc: Global, path: &str, text: &[u8], width: usize) -> Result<Seen, Unread>
    ensures words { Reads CheckSays (λ seen. seen) (state_read width path.now text.now) (worded result) }
    ensures note { Reads NoteSays (λ seen. seen) (state_read width path.now text.now) (noted result) }
    ensures size { IfOk result (λ seen. length seen.bits ≡ width) }
{
    let widths = widths_for(width);
    match read_state(alloc, text, width) {
        Ok(seen) => Ok(seen),
        Err(fault) => Err(state_diagnostic(alloc, path, text, widths, fault)),
    }
}

/// What is seen of a netlist's state in the first line of a dump, or the diagnostic of its text.
pub fn state_or_diagnostic(
    alloc: Global,
    path: &str,
    text: &[u8],
    net: &Netlist,
) -> Result<Seen, Unread>
    ensures words { Reads CheckSays (λ seen. seen) (state_read (width_of net.now.raw) path.now text.now) (worded result) }
    ensures note { Reads NoteSays (λ seen. seen) (state_read (width_of net.now.raw) path.now text.now) (noted result) }
    ensures size { IfOk result (λ seen. length seen.bits ≡ length (circuit net.now).flops) }
{
    seen_or_diagnostic(alloc, path, text, net.width())
}
