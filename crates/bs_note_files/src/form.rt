//! The forms of a note.
ghost use Rattle.std.specs.Prelude.{◌≡◌, ◌<◌, ◌≤◌, ◌++◌, length, OnOk, IfOk};
ghost use Rattle.bs_net_names.specs.Quotes.{shown_line};
ghost use Rattle.bs_net_names.specs.Spots.{IsSpot};
ghost use Rattle.bs_note_files.specs.Notes.{file_text, head_text, IsNoteOn, IsPlacedNote, line_at, pair_text, placed_text, plain_text, said, saying, shown_text};

use bs_bits::{NoMemory, push_number, push_piece};
use bs_net_names::{Spot, push_caret, push_quoted, spot_of};
use std::alloc::Global;

/// What is said of a place: a sentence, and a few words behind the caret.
#[derive(Clone, Copy)]
pub struct Message<'a> {
    pub sentence: &'a [u8],
    pub label: &'a [u8],
}

/// A place of a file, by the file's name, its text, and a byte offset that is at most the text's length.
#[derive(Clone, Copy)]
pub struct FilePlace<'a> {
    pub path: &'a str,
    pub text: &'a [u8],
    pub at: usize,
}

/// A note of one sentence.
pub fn plain_note(alloc: Global, sentence: &[u8]) -> Result<Vec<u8>, NoMemory>
    ensures { IfOk result (λ note. note.items ≡ plain_text sentence.now) }
{
    let mut note = Vec::new(alloc);
    push_piece(&mut note, b"note: ")?;
    push_piece(&mut note, sentence)?;
    push_piece(&mut note, b"\n")?;
    Ok(note)
}

/// A sentence with a name in its middle, as it is shown.
pub fn name_sentence(
    alloc: Global,
    before: &[u8],
    name: &[u8],
    behind: &[u8],
) -> Result<Vec<u8>, NoMemory>
    ensures { IfOk result (λ said. said.items ≡ before.now ++ (shown_line name.now ++ behind.now)) }
{
    let mut said = before.to_vec(alloc)?;
    push_quoted(&mut said, name)?;
    push_piece(&mut said, behind)?;
    Ok(said)
}

/// Appends `PATH:LINE:COLUMN: `.
fn push_head(note: &mut Vec<u8>, path: &str, spot: Spot) -> Result<(), NoMemory>
    ensures { OnOk result (note.new.items ≡ note.old.items ++ head_text path.now spot) }
{
    push_quoted(note, path.as_bytes())?;
    push_piece(note, b":")?;
    push_number(note, spot.line as u64)?;
    push_piece(note, b":")?;
    push_number(note, spot.column as u64)?;
    push_piece(note, b": ")
}

/// The line of a place.
pub fn line_at(text: &[u8], at: usize, spot: Spot) -> &[u8]
    requires { IsSpot text.now at spot }
    ensures { result.now ≡ line_at text.now spot }
{
    let _at = at;
    &text[spot.start..spot.end]
}

/// Appends a line as it is shown, and a caret under one of its columns with a label.
fn push_shown(note: &mut Vec<u8>, line: &[u8], column: usize, label: &[u8]) -> Result<(), NoMemory>
    requires { 0 < column }
    ensures { OnOk result (note.new.items ≡ note.old.items ++ shown_text line.now column label.now) }
{
    push_quoted(note, line)?;
    push_piece(note, b"\n")?;
    push_caret(note, line, column)?;
    push_piece(note, b" ")?;
    push_piece(note, label)?;
    push_piece(note, b"\n")
}

/// A note on a place of a text.
fn note_at(
    alloc: Global,
    path: &str,
    text: &[u8],
    at: usize,
    spot: Spot,
    message: &Message<'_>,
) -> Result<Vec<u8>, NoMemory>
    requires { IsSpot text.now at spot }
    ensures { IfOk result (λ note. note.items ≡ placed_text path.now text.now spot message.now.sentence.now message.now.label.now) }
{
    let line = line_at(text, at, spot);
    let mut note = b"note: ".to_vec(alloc)?;
    push_head(&mut note, path, spot)?;
    push_piece(&mut note, message.sentence)?;
    push_piece(&mut note, b"\n")?;
    push_shown(&mut note, line, spot.column, message.label)?;
    Ok(note)
}

/// A note on a place: `note: PATH:LINE:COLUMN: ` and the sentence, the line itself, and a caret under the place with the label.
pub fn placed_note(
    alloc: Global,
    place: &FilePlace<'_>,
    message: &Message<'_>,
) -> Result<Vec<u8>, NoMemory>
    requires { place.now.at ≤ length place.now.text.now }
    ensures { IfOk result (λ note. IsPlacedNote place.now.path.now place.now.text.now place.now.at (said message.now) note.items) }
{
    let spot = spot_of(place.text, place.at);
    let note = note_at(alloc, place.path, place.text, place.at, spot, message)?;
    Ok(note)
}

/// What is said of a place, in texts.
pub fn say<'a>(sentence: &'a str, label: &'a str) -> Message<'a>
    ensures { said result ≡ saying sentence.now label.now }
{
    Message {
        sentence: sentence.as_bytes(),
        label: label.as_bytes(),
    }
}

/// A note on a place, whatever the offset: one beyond the text is its end.
pub fn note_on(
    alloc: Global,
    path: &str,
    text: &[u8],
    at: usize,
    message: Message<'_>,
) -> Result<Vec<u8>, NoMemory>
    ensures { IfOk result (λ note. IsNoteOn path.now text.now at (said message.entry) note.items) }
{
    let at = at.min(text.len());
    let note = placed_note(alloc, &FilePlace { path, text, at }, &message)?;
    Ok(note)
}

/// Two sentences, a line each.
pub fn pair_note(alloc: Global, first: &[u8], second: &[u8]) -> Result<Vec<u8>, NoMemory>
    ensures { IfOk result (λ note. note.items ≡ pair_text first.now second.now) }
{
    let mut note = plain_note(alloc, first)?;
    push_piece(&mut note, b"note: ")?;
    push_piece(&mut note, second)?;
    push_piece(&mut note, b"\n")?;
    Ok(note)
}

/// A note on a file: its name as it is shown, and a sentence.
pub fn file_note(alloc: Global, path: &str, sentence: &[u8]) -> Result<Vec<u8>, NoMemory>
    ensures { IfOk result (λ note. note.items ≡ file_text path.now sentence.now) }
{
    let mut said = Vec::new(alloc);
    push_quoted(&mut said, path.as_bytes())?;
    push_piece(&mut said, b": ")?;
    push_piece(&mut said, sentence)?;
    plain_note(alloc, &said)
}
