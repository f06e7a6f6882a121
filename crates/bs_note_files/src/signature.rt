//! Notes on a text that is no signature.
ghost use Rattle.std.specs.Prelude.{◌≡◌, ◌≤◌, ◌<◌, ◌-◌, ◌++◌, ◌==◌, ◌⊎◌, ◌||◌, nat_eq, ℕ, All, codes, length, take, drop, slice_index, true, false, IfNone, IfOk, IfSome, OnOk};
ghost use Rattle.std.specs.List.{flat_map, starts_with};
ghost use Rattle.bs_net.specs.Netlist.{parts_of};
ghost use Rattle.bs_net_names.specs.Rtl.{rtl_name};
ghost use Rattle.bs_net_names.specs.Nearest.{AreNearest, IsNearest};
ghost use Rattle.bs_net_names.specs.Quotes.{shown_line};
ghost use Rattle.bs_note_files.specs.Flaws.{IsLineNote};
ghost use Rattle.bs_note_files.specs.Notes.{said};
ghost use Rattle.bs_note_files.specs.Signatures.{AreKnown, form_saying, is_unknown, IsSignatureNote, IsUnknownNote, IsUnknownOn, IsUnknownWord, key_piece, SaysUnknown, unknown_label, unknown_sentence};

use crate::flaw::{flaw_note, start_note};
use crate::form::{Message, file_note, name_sentence, note_on, say};
use crate::part::numbered_line;
use bs_bits::{NoMemory, is_name, push_piece};
use bs_net::{Netlist, Raw};
use bs_net_names::{flop_key, nearest_flops, push_quoted};
use bs_scan::{ChoiceFault, FlopNames};
use std::alloc::Global;

/// Whether a word is a name that no flip-flop has.
fn is_unknown(flops: &FlopNames<'_>, word: &[u8]) -> bool
    ensures { result ≡ is_unknown flops.now word.now }
{
    if is_name(word) {
        flops.number(word).is_none()
    } else {
        false
    }
}

/// The end of the word that begins at a place: the next space, or the line's end.
fn word_end(line: &[u8], from: usize) -> usize
    requires { from ≤ length line.now }
    ensures after { from ≤ result }
    ensures within { result ≤ length line.now }
    ensures ends { (result ≡ length line.now) ⊎ ((slice_index line.now result == 32) ≡ true) }
    ensures inside { (k : ℕ) → from ≤ k → k < result → (slice_index line.now k == 32) ≡ false }
{
    let mut end = from;
    'bytes: while end < line.len() && line[end] != b' ' {
        end += 1;
    }
    end
}

/// The first word behind the first of a line that is a name, and no flip-flop's, from its place up to its end.
#[tactic(auto, using(crate::proofs::SignatureLemmas::known_start, crate::proofs::SignatureLemmas::all_known))]
fn unknown_name(flops: &FlopNames<'_>, line: &[u8]) -> Option<(usize, usize)>
    ensures some { IfSome result (IsUnknownWord flops.now line.now) }
    ensures none { IfNone result (AreKnown flops.now line.now) }
{
    let mut end = word_end(line, 0);
    'words: while end < line.len() {
        let at = end + 1;
        end = word_end(line, at);
        if is_unknown(flops, &line[at..end]) {
            return Some((at, end));
        }
    }
    None
}

/// The same word of a line, by the names of a netlist's flip-flops.
fn unknown_in(alloc: Global, net: &Netlist, line: &[u8]) -> Result<Option<(usize, usize)>, NoMemory>
    ensures some { IfOk result (λ word. IfSome word (IsUnknownWord net.now.raw line.now)) }
    ensures none { IfOk result (λ word. IfNone word (AreKnown net.now.raw line.now)) }
{
    let flops = FlopNames::new(alloc, net)?;
    let word = unknown_name(&flops, line);
    Ok(word)
}

/// Appends a space and the key of a flip-flop.
fn push_key(label: &mut Vec<u8>, raw: &Raw, flop: usize) -> Result<(), NoMemory>
    requires { flop < length raw.now.flops }
    ensures { OnOk result (label.new.items ≡ label.old.items ++ key_piece (parts_of raw.now) flop) }
{
    push_piece(label, b" ")?;
    push_quoted(label, flop_key(raw, flop))
}

/// The keys of flip-flops that are nearest to a name, as a label.
fn label_of(alloc: Global, raw: &Raw, name: &[u8], flops: &[usize]) -> Result<Vec<u8>, NoMemory>
    requires { AreNearest (parts_of raw.now) (rtl_name name.now) flops.now }
    ensures { IfOk result (λ label. label.items ≡ unknown_label (parts_of raw.now) flops.now) }
{
    let _name = name;
    let mut label = b"the nearest keys of flip-flops:".to_vec(alloc)?;
    'flops: for &flop in flops {
        push_key(&mut label, raw, flop)?;
    }
    Ok(label)
}

/// A note on a name that no flip-flop has, on its place, by the parts of a netlist.
fn key_note(
    alloc: Global,
    path: &str,
    text: &[u8],
    raw: &Raw,
    at: usize,
    name: &[u8],
) -> Result<Vec<u8>, NoMemory>
    ensures { IfOk result (λ note. SaysUnknown (parts_of raw.now) path.now text.now at name.now note.items) }
{
    let flops = nearest_flops(alloc, raw, name)?;
    let sentence = name_sentence(
        alloc,
        b"no flip-flop has the key `",
        name,
        b"`, the name of its output net",
    )?;
    let label = label_of(alloc, raw, name, &flops)?;
    let message = Message {
        sentence: &sentence,
        label: &label,
    };
    let note = note_on(alloc, path, text, at, message)?;
    Ok(note)
}

/// A note on a name that no flip-flop has, on its place.
fn name_note(
    alloc: Global,
    path: &str,
    text: &[u8],
    net: &Netlist,
    at: usize,
    name: &[u8],
) -> Result<Vec<u8>, NoMemory>
    ensures { IfOk result (λ note. SaysUnknown net.now.raw path.now text.now at name.now note.items) }
{
    key_note(alloc, path, text, net.raw(), at, name)
}

/// A note on the word of a line, from its place up to its end, that is a name, and no flip-flop's.
fn word_note(
    alloc: Global,
    path: &str,
    text: &[u8],
    net: &Netlist,
    start: usize,
    line: &[u8],
    word: (usize, usize),
) -> Result<Vec<u8>, NoMemory>
    requires start { start ≤ length text.now }
    requires is { IsUnknownWord net.now.raw line.now word }
    ensures { IfOk result (λ note. IsUnknownOn net.now.raw path.now text.now start line.now note.items) }
{
    let name = &line[word.0..word.1];
    let note = name_note(alloc, path, text, net, start + word.0, name)?;
    Ok(note)
}

/// A note on the first name of the line with a number that no flip-flop has.
fn unknown_note(
    alloc: Global,
    path: &str,
    text: &[u8],
    net: &Netlist,
    number: u64,
) -> Result<Vec<u8>, NoMemory>
    ensures { IfOk result (λ note. IsUnknownNote net.now.raw path.now text.now number note.items) }
{
    let (start, line) = numbered_line(text, number);
    let word = unknown_in(alloc, net, line)?;
    match word {
        Some(word) => {
            let note = word_note(alloc, path, text, net, start, line, word)?;
            Ok(note)
        }
        None => file_note(alloc, path, b"a name is no flip-flop's key"),
    }
}

/// The form of a line.
fn form_of(line: &[u8]) -> Message<'static>
    ensures { said result ≡ form_saying line.now }
{
    if line.starts_with(b"bit ".as_slice()) {
        return say(
            "`bit` takes one name",
            "write `xor NAME NAME ..` for the parity of several; an index is a part of the key, as of `[0]\\a.b`: `backspace_inspect keys` tells it",
        );
    }
    if line.starts_with(b"choice ".as_slice()) {
        return say(
            "this is a proposal of `backspace_inspect signature`, and more than a signature",
            "keep its lines `xor` alone, as by `grep ^xor`",
        );
    }
    let hash = line.starts_with(b"#".as_slice());
    let slashes = line.starts_with(b"//".as_slice());
    if hash || slashes {
        return say("a signature has no comments", "take the line out");
    }
    say(
        "a line of a signature is `bit NAME` or `xor NAME NAME ..`",
        "a name is the key of a flip-flop's output net, without empty lines between",
    )
}

/// A note on the line with a number that is none of a signature.
fn form_note(alloc: Global, path: &str, text: &[u8], number: u64) -> Result<Vec<u8>, NoMemory>
    ensures { IfOk result (λ note. IsLineNote path.now text.now number form_saying note.items) }
{
    let (start, line) = numbered_line(text, number);
    let note = flaw_note(alloc, path, text, start, line, form_of(line))?;
    Ok(note)
}

/// A note on a text that is no signature.
pub fn signature_note(
    alloc: Global,
    path: &str,
    text: &[u8],
    net: &Netlist,
    fault: ChoiceFault,
) -> Result<Vec<u8>, NoMemory>
    ensures { IfOk result (λ note. IsSignatureNote net.now.raw path.now text.now fault note.items) }
{
    match fault {
        ChoiceFault::Line(number) => form_note(alloc, path, text, u64::from(number)),
        ChoiceFault::TooMany(number) => start_note(
            alloc,
            path,
            text,
            u64::from(number),
            say("a signature has at most 256 items", "this is the 257th"),
        ),
        ChoiceFault::UnknownFlop(number) => {
            unknown_note(alloc, path, text, net, u64::from(number))
        }
        ChoiceFault::NoMemory => file_note(alloc, path, b"memory ran out"),
    }
}
