//! Notes on a line of a text: on what is wrong at sight, a byte that is no character of it or a space too many, or else on its form.
ghost use Rattle.std.specs.Prelude.{◌≡◌, ◌≤◌, ◌<◌, ℕ, length, false, IfNone, IfOk, IfSome};
ghost use Rattle.bs_note_files.specs.Flaws.{FlawIs, is_stray, IsFlawNote, IsStartNote, loose_at, stray_at};
ghost use Rattle.bs_note_files.specs.Notes.{said};
ghost use Rattle.bs_verilog_scope.specs.Standing.{IsFirstPlace, NoneOf};
ghost use Rattle.bs_note_files.specs.Sayings.{packed_saying, stray_saying};

use crate::form::{Message, note_on, say};
use crate::part::numbered_line;
use bs_bits::NoMemory;
use std::alloc::Global;

/// Whether a byte is none of ` ` to `~`.
fn is_stray(byte: u8) -> bool
    ensures { result ≡ is_stray byte }
{
    byte < b' ' || b'~' < byte
}

/// The place of the first byte that is none of ` ` to `~`, if there is one.
fn first_stray(line: &[u8]) -> Option<usize>
    ensures some { IfSome result (IsFirstPlace (stray_at line.now) (length line.now)) }
    ensures none { IfNone result (NoneOf (stray_at line.now) (length line.now)) }
{
    'bytes: for (k, byte) in line.iter().enumerate() {
        if is_stray(*byte) {
            return Some(k);
        }
    }
    None
}

/// Whether the space at a place stands at an end of the line or before another.
fn is_loose(line: &[u8], k: usize) -> bool
    requires { k < length line.now }
    ensures { result ≡ loose_at line.now k }
{
    line[k] == b' ' && (k == 0 || k == line.len() - 1 || line[k + 1] == b' ')
}

/// The place of the first space that stands at an end of the line or before another, if there is one.
fn first_loose(line: &[u8]) -> Option<usize>
    ensures some { IfSome result (IsFirstPlace (loose_at line.now) (length line.now)) }
    ensures none { IfNone result (NoneOf (loose_at line.now) (length line.now)) }
{
    'bytes: for k in 0..line.len() {
        if is_loose(line, k) {
            return Some(k);
        }
    }
    None
}

/// What is said of a byte of a file that gzip has packed.
pub fn packed_message() -> Message<'static>
    ensures { said result ≡ packed_saying }
{
    say(
        "a byte of a file that gzip has packed",
        "unpack it first, as by `gzip -dc FILE > TEXT`",
    )
}

/// What a stray byte is.
fn stray_message(byte: u8) -> Message<'static>
    ensures { said result ≡ stray_saying byte }
{
    if byte == b'\r' {
        return say(
            "a carriage return: lines end with a line feed alone",
            "take the carriage returns out, as by `tr -d '\\r'`",
        );
    }
    if byte == b'\t' {
        return say("a tab: words are parted by one space", "write one space");
    }
    if byte == 0xEF {
        return say(
            "a byte that is no ASCII character, as a mark at the front of a file",
            "save the file as plain ASCII without a byte order mark",
        );
    }
    if byte == 31 {
        return packed_message();
    }
    say(
        "a byte that no line of this text may have",
        "save the file as plain ASCII",
    )
}

/// What is wrong with a line at sight, and where in it.
fn flaw_of(line: &[u8]) -> Option<(usize, Message<'static>)>
    ensures is { FlawIs line.now result }
    ensures there { IfSome result (λ found. found.0 < length line.now) }
{
    match first_stray(line) {
        Some(k) => Some((k, stray_message(line[k]))),
        None => match first_loose(line) {
            Some(k) => Some((
                k,
                say(
                    "a space too many: words are parted by one space, and none stands at an end of a line",
                    "take it out",
                ),
            )),
            None => None,
        },
    }
}

/// A note on a line that begins at a place and is not of its form: on what is wrong at sight, or else on the form.
pub fn flaw_note(
    alloc: Global,
    path: &str,
    text: &[u8],
    start: usize,
    line: &[u8],
    form: Message<'_>,
) -> Result<Vec<u8>, NoMemory>
    requires { start ≤ length text.now }
    ensures { IfOk result (λ note. IsFlawNote path.now text.now start line.now (said form.entry) note.items) }
{
    match flaw_of(line) {
        Some((k, message)) => note_on(alloc, path, text, start + k, message),
        None => note_on(alloc, path, text, start, form),
    }
}

/// A note on the front of the line with a number, from 1.
pub fn start_note(
    alloc: Global,
    path: &str,
    text: &[u8],
    number: u64,
    message: Message<'_>,
) -> Result<Vec<u8>, NoMemory>
    ensures { IfOk result (λ note. IsStartNote path.now text.now number (λ _. said message.entry) note.items) }
{
    let (start, _) = numbered_line(text, number);
    let note = note_on(alloc, path, text, start, message)?;
    Ok(note)
}
