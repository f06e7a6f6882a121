//! Notes on names that are asked for, on the names in a simulation, and on a report of another netlist.
ghost use Rattle.std.specs.Prelude.{◌≡◌, ◌-◌, map, IfOk};
ghost use Rattle.bs_note_files.specs.Notes.{said};
ghost use Rattle.bs_inspect_notes.specs.Names.{first_word, form_saying, key_sentence, keys_label, name_text, net_text, numbered, state_text, subject_word, trace_text, twice_saying, unlisted_text};

use crate::listing::{push_listing, push_name, push_some_near};
use bs_bits::{NoMemory, next_line, next_word, push_number, push_piece};
use bs_note_files::{Message, file_note, plain_note};
use std::alloc::Global;

/// How many flip-flops that an order does not list are named.
/// A note is to be read at a glance, and the rest is counted.
pub const UNLISTED: usize = 8;

/// What has a key, and a name in a simulation.
#[derive(Clone, Copy, Debug, PartialEq, Eq)]
pub enum Subject {
    Inputs,
    Flops,
}

/// What has a key, in words.
pub fn subject_word(subject: Subject) -> &'static [u8]
    ensures { result.now ≡ subject_word subject }
{
    match subject {
        Subject::Inputs => b"data input",
        Subject::Flops => b"flip-flop",
    }
}

/// A note on a name that is none of a netlist with these keys.
pub fn name_note(alloc: Global, name: &[u8], keys: &[&[u8]]) -> Result<Vec<u8>, NoMemory>
    ensures { IfOk result (λ note. note.items ≡ name_text name.now (map (λ k. k.now) keys.now)) }
{
    let mut said = b"no flip-flop, data input or vector of these has the name ".to_vec(alloc)?;
    push_name(&mut said, name)?;
    push_some_near(alloc, &mut said, name, keys)?;
    let mut note = plain_note(alloc, &said)?;
    push_piece(
        &mut note,
        b"note: `flops` and `inputs` tell the keys, and `keys` the flip-flops that a wire shows; the name of a vector or memory names its bits\n",
    )?;
    Ok(note)
}

/// A note on a name that no net with these keys has.
pub fn net_note(alloc: Global, name: &[u8], keys: &[&[u8]]) -> Result<Vec<u8>, NoMemory>
    ensures { IfOk result (λ note. note.items ≡ net_text name.now (map (λ k. k.now) keys.now)) }
{
    let mut said = b"no net or vector of nets has the name ".to_vec(alloc)?;
    push_name(&mut said, name)?;
    push_some_near(alloc, &mut said, name, keys)?;
    let mut note = plain_note(alloc, &said)?;
    push_piece(
        &mut note,
        b"note: `flops` and `inputs` tell keys; the name of a vector without an index names its bits\n",
    )?;
    Ok(note)
}

/// The line with a number, from 1.
#[tactic(auto, using(crate::proofs::LineLemmas::line_here, crate::proofs::LineLemmas::line_later, crate::proofs::LineLemmas::line_none))]
pub fn numbered(text: &[u8], number: u64) -> &[u8]
    ensures { result.now ≡ numbered text.now number }
{
    let mut left = number.saturating_sub(1);
    let mut rest = text;
    'lines: while let Some((line, behind)) = next_line(rest) {
        if left == 0 {
            return line;
        }
        left -= 1;
        rest = behind;
    }
    b""
}

/// The first word of a line.
#[tactic(auto, using(crate::proofs::LineLemmas::word_alone, crate::proofs::LineLemmas::word_before))]
pub fn first_word(line: &[u8]) -> &[u8]
    ensures { result.now ≡ first_word line.now }
{
    let (word, behind) = next_word(line);
    match behind {
        Some(_) => word,
        None => word,
    }
}

/// What is said of a line that is no key and name.
pub fn form_saying() -> Message<'static>
    ensures { said result ≡ form_saying }
{
    Message {
        sentence: b"a line is `KEY NAME`, two words with one space between",
        label: b"a key of the netlist, and its name in the simulation",
    }
}

/// What is said of a line whose key has a line already.
pub fn twice_saying() -> Message<'static>
    ensures { said result ≡ twice_saying }
{
    Message {
        sentence: b"the key of this line has a line already",
        label: b"take one of them out",
    }
}

/// What tells the keys.
pub fn keys_label(subject: Subject) -> &'static [u8]
    ensures { result.now ≡ keys_label subject }
{
    match subject {
        Subject::Inputs => b"`inputs` tells the keys",
        Subject::Flops => b"`flops` tells the keys",
    }
}

/// What is said of a key that is none of these.
#[tactic(auto, unfolding(crate::specs::Names::key_sentence))]
pub fn key_sentence(
    alloc: Global,
    subject: Subject,
    key: &[u8],
    keys: &[&[u8]],
) -> Result<Vec<u8>, NoMemory>
    ensures { IfOk result (λ said. said.items ≡ key_sentence subject key.now (map (λ k. k.now) keys.now)) }
{
    let mut said = b"no ".to_vec(alloc)?;
    push_piece(&mut said, subject_word(subject))?;
    push_piece(&mut said, b" has the key ")?;
    push_name(&mut said, key)?;
    push_some_near(alloc, &mut said, key, keys)?;
    Ok(said)
}

/// A note on a state of a report's trace that has another number of bits than a netlist has flip-flops.
pub fn state_note(alloc: Global, file: &str, place: u64) -> Result<Vec<u8>, NoMemory>
    ensures { IfOk result (λ note. note.items ≡ state_text file.now place) }
{
    let mut said = b"state ".to_vec(alloc)?;
    push_number(&mut said, place)?;
    push_piece(
        &mut said,
        b" of the trace has not one bit for each flip-flop of the netlist",
    )?;
    let mut note = file_note(alloc, file, &said)?;
    push_piece(&mut note, b"note: is it the report of this very netlist?\n")?;
    Ok(note)
}

/// A note on an input of a report's trace that has another number of bits than a netlist has data inputs.
pub fn trace_note(alloc: Global, file: &str, place: u64) -> Result<Vec<u8>, NoMemory>
    ensures { IfOk result (λ note. note.items ≡ trace_text file.now place) }
{
    let mut said = b"input ".to_vec(alloc)?;
    push_number(&mut said, place)?;
    push_piece(
        &mut said,
        b" of the trace has not one bit for each data input of the netlist",
    )?;
    let mut note = file_note(alloc, file, &said)?;
    push_piece(&mut note, b"note: is it the report of this very netlist?\n")?;
    Ok(note)
}

/// A note on flip-flops of which nothing is known, where so many of so many are not in an order: how many there are, and the keys of the
/// first `UNLISTED`.
pub fn unlisted_note(
    alloc: Global,
    count: usize,
    width: usize,
    keys: &[&[u8]],
) -> Result<Vec<u8>, NoMemory>
    ensures { IfOk result (λ note. note.items ≡ unlisted_text count width (map (λ k. k.now) keys.now)) }
{
    let mut said = b"the order has no line for ".to_vec(alloc)?;
    push_number(&mut said, count as u64)?;
    push_piece(&mut said, b" of ")?;
    push_number(&mut said, width as u64)?;
    push_piece(&mut said, b" flip-flops: `-` stands for each of them")?;
    let mut note = plain_note(alloc, &said)?;
    push_listing(&mut note, "their keys:", keys, UNLISTED)?;
    Ok(note)
}
