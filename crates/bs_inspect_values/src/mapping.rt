//! The names that inputs or flip-flops have in a simulation, or the diagnostic of their text.
ghost use Rattle.std.specs.Prelude.{◌≡◌, ◌==◌, map, IfOk};
ghost use Rattle.std.specs.List.{list_any};
ghost use Rattle.bs_note_files.specs.Notes.{said};
ghost use Rattle.bs_outside.specs.declared.file_fetch.Refusal.TheVariants.{NoMemory as Want};
ghost use Rattle.bs_outside.specs.Plan.{Says};
ghost use Rattle.bs_outside.specs.Diagnostic.{note_refusal, noted, word_refusal, worded};
ghost use Rattle.bs_outside.specs.Walks.{Reads};
ghost use Rattle.bs_top_files.specs.Causes.{CheckSays, HasNote, IsNoteAtLine, NoteSays};
ghost use Rattle.bs_top_files.specs.Refusals.{HasWords};
ghost use Rattle.bs_inspect_notes.specs.Names.{key_saying, numbered, twice_saying};
ghost use Rattle.bs_inspect_names.specs.declared.fault.MapFault.TheVariants.{NoMemory as MapWant};
ghost use Rattle.bs_inspect_values.specs.Saying.{line_saying, map_reason, range_saying};
ghost use Rattle.bs_inspect_values.specs.Simulated.{names_read};
ghost use Rattle.bs_inspect_values.specs.Words.{map_words};

use crate::lines::line_note;
use crate::refusals::map_refusal;
use bs_bits::{List, NoMemory};
use bs_inspect_names::{MapFault, read_names};
use bs_inspect_notes::{
    Subject, first_word, form_saying, key_sentence, keys_label, numbered, twice_saying,
};
use bs_note_files::Message;
use bs_outside::{Unread, both};
use std::alloc::Global;

/// Whether a line has a carriage return.
fn has_return(line: &[u8]) -> bool
    ensures { result ≡ list_any (λ b. b == 13) line.now }
{
    line.iter().any(|byte| *byte == b'\r')
}

/// What is said of a line that is no key and name.
fn line_saying(line: &[u8]) -> Message<'static>
    ensures { said result ≡ line_saying line.now }
{
    if has_return(line) {
        Message {
            sentence: b"a carriage return: lines end with a line feed alone",
            label: b"take the carriage returns out, as by `tr -d '\\r'`",
        }
    } else {
        form_saying()
    }
}

/// A note on a line that is no key and name.
fn form_note(alloc: Global, path: &str, text: &[u8], number: u64) -> Result<Vec<u8>, NoMemory>
    ensures { IfOk result (λ note. IsNoteAtLine path.now text.now number (line_saying (numbered text.now number)) note.items) }
{
    let line = numbered(text, number);
    let message = line_saying(line);
    let note = line_note(alloc, path, text, number, message)?;
    Ok(note)
}

/// A note on a line whose key is none of these.
pub fn key_note(
    alloc: Global,
    subject: Subject,
    path: &str,
    text: &[u8],
    number: u64,
    keys: &[&[u8]],
) -> Result<Vec<u8>, NoMemory>
    ensures { IfOk result (λ note. IsNoteAtLine path.now text.now number (key_saying subject (map (λ k. k.now) keys.now) (numbered text.now number)) note.items) }
{
    let line = numbered(text, number);
    let key = first_word(line);
    let sentence = key_sentence(alloc, subject, key, keys)?;
    let said = sentence.as_slice();
    let message = Message {
        sentence: said,
        label: keys_label(subject),
    };
    let note = line_note(alloc, path, text, number, message)?;
    Ok(note)
}

/// A note on a line whose key has a line already.
fn twice_note(alloc: Global, path: &str, text: &[u8], number: u64) -> Result<Vec<u8>, NoMemory>
    ensures { IfOk result (λ note. IsNoteAtLine path.now text.now number twice_saying note.items) }
{
    let message = twice_saying();
    let note = line_note(alloc, path, text, number, message)?;
    Ok(note)
}

/// What is said of a line with a bit of a vector that has no number in the simulation's.
fn range_saying() -> Message<'static>
    ensures { said result ≡ range_saying }
{
    Message {
        sentence: b"the range behind the name in the simulation lacks a bit of this vector",
        label: b"a bit has the same number in both: write ranges that agree, or none",
    }
}

/// A note on such a line.
fn range_note(alloc: Global, path: &str, text: &[u8], number: u64) -> Result<Vec<u8>, NoMemory>
    ensures { IfOk result (λ note. IsNoteAtLine path.now text.now number range_saying note.items) }
{
    let message = range_saying();
    let note = line_note(alloc, path, text, number, message)?;
    Ok(note)
}

/// The note on a text that gives no names.
fn map_note(
    alloc: Global,
    subject: Subject,
    path: &str,
    text: &[u8],
    keys: &[&[u8]],
    fault: MapFault,
) -> Result<Vec<u8>, NoMemory>
    ensures { IfOk result (λ note. Says NoteSays (map_reason subject path.now text.now (map (λ k. k.now) keys.now) fault) note.items) }
{
    match fault {
        MapFault::Line(number) => form_note(alloc, path, text, number),
        MapFault::Unknown(number) => key_note(alloc, subject, path, text, number, keys),
        MapFault::Twice(number) => twice_note(alloc, path, text, number),
        MapFault::Range(number) => range_note(alloc, path, text, number),
        MapFault::NoMemory => Err(NoMemory),
    }
}

/// The diagnostic of a text that gives no names.
#[tactic(auto, using(bs_top_files::proofs::NotingLemmas::both_words, bs_top_files::proofs::NotingLemmas::both_note, bs_top_files::proofs::NotingLemmas::both_want))]
fn map_diagnostic(
    alloc: Global,
    subject: Subject,
    path: &str,
    text: &[u8],
    keys: &[&[u8]],
    fault: MapFault,
) -> Unread
    ensures words { HasWords (map_words fault) (word_refusal result) }
    ensures want { fault ≡ MapWant → word_refusal result ≡ Want }
    ensures note { HasNote (map_reason subject path.now text.now (map (λ k. k.now) keys.now) fault) (note_refusal result) }
    ensures none { fault ≡ MapWant → note_refusal result ≡ Want }
{
    let words = map_refusal(alloc, fault);
    let note = map_note(alloc, subject, path, text, keys, fault);
    both(words, note)
}

/// The names that inputs or flip-flops with these keys have in a simulation, or the diagnostic of their text.
pub fn names_or_diagnostic(
    alloc: Global,
    subject: Subject,
    path: &str,
    text: &[u8],
    keys: &[&[u8]],
) -> Result<List<List<u8>>, Unread>
    ensures words { Reads CheckSays (λ names. names) (names_read subject path.now (map (λ k. k.now) keys.now) text.now) (worded result) }
    ensures note { Reads NoteSays (λ names. names) (names_read subject path.now (map (λ k. k.now) keys.now) text.now) (noted result) }
{
    match read_names(alloc, text, keys) {
        Ok(names) => Ok(names),
        Err(fault) => Err(map_diagnostic(alloc, subject, path, text, keys, fault)),
    }
}
