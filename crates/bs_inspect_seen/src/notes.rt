//! What is said of words that give no values.
ghost use Rattle.std.specs.Prelude.{◌≡◌, ◌++◌, map, IfOk};
ghost use Rattle.bs_note_files.specs.Notes.{plain_text};
ghost use Rattle.bs_inspect_notes.specs.Listings.{quoted};
ghost use Rattle.bs_inspect_seen.specs.Given.{flop_keys};
ghost use Rattle.bs_inspect_seen.specs.Readings.{fault_text, form_text, name_in, unknown_text, word_at};

use crate::fault::GivenFault;
use crate::numbers::flop_keys;
use bs_bits::{NoMemory, push_piece};
use bs_inspect_notes::{Subject, key_sentence, push_name};
use bs_net::Netlist;
use bs_net_names::last_split;
use bs_note_files::plain_note;
use std::alloc::Global;

/// The word with a number, from 1.
#[tactic(auto, using(crate::proofs::NoteLemmas::word_there, crate::proofs::NoteLemmas::word_past))]
fn word_at<'a>(words: &[&'a str], number: u64) -> &'a str
    ensures { result.now ≡ word_at (map (λ s. s.now) words.now) number }
{
    let place = number.saturating_sub(1) as usize;
    if place < words.len() {
        words[place]
    } else {
        ""
    }
}

/// The name in a word.
fn name_in(word: &[u8]) -> &[u8]
    ensures { result.now ≡ name_in word.now }
{
    match last_split(b'=', word) {
        Some((name, _)) => name,
        None => word,
    }
}

/// The bytes of the word with a number.
fn bytes_at<'a>(words: &[&'a str], number: u64) -> &'a [u8]
    ensures { result.now ≡ word_at (map (λ s. s.now) words.now) number }
{
    word_at(words, number).as_bytes()
}

/// The name in the word with a number.
fn name_at<'a>(words: &[&'a str], number: u64) -> &'a [u8]
    ensures { result.now ≡ name_in (word_at (map (λ s. s.now) words.now) number) }
{
    name_in(bytes_at(words, number))
}

/// A note on a word that is no name with a value.
fn form_note(alloc: Global, word: &[u8]) -> Result<Vec<u8>, NoMemory>
    ensures { IfOk result (λ note. note.items ≡ form_text word.now) }
{
    let mut said = Vec::new(alloc);
    push_name(&mut said, word)?;
    push_piece(
        &mut said,
        b" is not NAME=VALUE: a value is a decimal number, or has hexadecimal digits behind `0x` or binary ones behind `0b`",
    )?;
    let note = plain_note(alloc, said.as_slice())?;
    Ok(note)
}

/// A note on a name that is that of no flip-flop, by the keys of these.
fn unknown_by(alloc: Global, name: &[u8], keys: &[&[u8]]) -> Result<Vec<u8>, NoMemory>
    ensures { IfOk result (λ note. note.items ≡ unknown_text (map (λ k. k.now) keys.now) name.now) }
{
    let said = key_sentence(alloc, Subject::Flops, name, keys)?;
    let mut note = plain_note(alloc, said.as_slice())?;
    push_piece(
        &mut note,
        b"note: `flops` tells the keys; the name of a vector names its bits\n",
    )?;
    Ok(note)
}

/// The same by a netlist.
fn unknown_note(alloc: Global, net: &Netlist, name: &[u8]) -> Result<Vec<u8>, NoMemory>
    ensures { IfOk result (λ note. note.items ≡ unknown_text (flop_keys net.now.raw) name.now) }
{
    let keys = flop_keys(alloc, net)?;
    let note = unknown_by(alloc, name, keys.as_slice())?;
    Ok(note)
}

/// A sentence that ends with a name.
fn named_note(alloc: Global, words: &[u8], name: &[u8]) -> Result<Vec<u8>, NoMemory>
    ensures { IfOk result (λ note. note.items ≡ plain_text (words.now ++ quoted name.now)) }
{
    let mut said = words.to_vec(alloc)?;
    push_name(&mut said, name)?;
    let note = plain_note(alloc, said.as_slice())?;
    Ok(note)
}

/// The note on a fault of words.
pub(crate) fn fault_note(
    alloc: Global,
    net: &Netlist,
    words: &[&str],
    fault: GivenFault,
) -> Result<Vec<u8>, NoMemory>
    ensures { IfOk result (λ note. note.items ≡ fault_text (flop_keys net.now.raw) (map (λ s. s.now) words.now) fault) }
{
    match fault {
        GivenFault::Form(number) => form_note(alloc, bytes_at(words, number)),
        GivenFault::Unknown(number) => unknown_note(alloc, net, name_at(words, number)),
        GivenFault::Wide(number) => named_note(
            alloc,
            b"the value has a 1 above the bits of ",
            name_at(words, number),
        ),
        GivenFault::Twice(number) => named_note(
            alloc,
            b"an earlier word has a value for a flip-flop of ",
            name_at(words, number),
        ),
        GivenFault::NoMemory => Err(NoMemory),
    }
}
