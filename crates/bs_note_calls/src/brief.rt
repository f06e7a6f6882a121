//! A note that takes no memory: its bytes lie in the value itself.
ghost use Rattle.std.specs.Prelude.{◌≡◌, ◌<◌, ◌≤◌, ◌+◌, ◌++◌, codes, decimal, length, take};
ghost use Rattle.bs_net_names.specs.Quotes.{digit, is_printable, shown_byte, shown_line};
ghost use Rattle.bs_net_names.specs.declared.quoted_line.TheConstants.{SHOWN};
ghost use Rattle.bs_note_files.specs.Notes.{file_text, pair_text, plain_text};
ghost use Rattle.bs_note_calls.specs.declared.brief.TheConstants.{ROOM};

use arrayvec::ArrayVec;
use bs_net_names::SHOWN;
use itoa::Buffer;
use std::marker::Model;

/// The most bytes of such a note.
/// A shown name takes up to four bytes for each of its 160, so 640. As many are left for the sentence.
pub const ROOM: usize = 1_280;

/// A note, or a sentence of one, of at most `ROOM` bytes. Contracts see its bytes.
#[derive(Drop)]
pub struct Brief {
    text: ArrayVec<u8, ROOM>,
}

impl Model for Brief {
    ghost use Rattle.std.specs.Prelude.{ℕ, List};

    ghost Value = { List ℕ };

    ghost view = { λ brief. brief.text.items };
}

/// A digit of a number to the base 16.
fn digit(value: u8) -> u8
    requires { value < 16 }
    ensures { result ≡ digit value }
{
    if value < 10 {
        b'0' + value
    } else {
        b'a' + (value - 10)
    }
}

/// Whether a byte is one of ` ` to `~`.
fn is_printable(byte: u8) -> bool
    ensures { result ≡ is_printable byte }
{
    b' ' <= byte && byte <= b'~'
}

/// The bytes of a line that are shown.
#[tactic(auto, using(std::proofs::lemmas::List::take_min))]
fn shown(line: &[u8]) -> &[u8]
    ensures bytes { result.now ≡ take SHOWN line.now }
    ensures few { length result.now ≤ 160 }
{
    &line[..SHOWN.min(line.len())]
}

impl Brief {
    /// A text that fits.
    pub fn of(text: &[u8]) -> Brief
        requires { length text.now ≤ ROOM }
        ensures { result ≡ text.now }
    {
        let mut brief = Brief {
            text: ArrayVec::new(),
        };
        brief.push(text);
        brief
    }

    /// Its bytes.
    pub fn bytes(&self) -> &[u8]
        ensures { result.now ≡ self.now }
    {
        self.text.as_slice()
    }

    /// Appends a piece that fits.
    pub fn push(&mut self, piece: &[u8])
        requires { length self.old + length piece.now ≤ ROOM }
        ensures text { self.new ≡ self.old ++ piece.now }
        ensures longer { length self.new ≡ length self.old + length piece.now }
    {
        if self.text.try_extend_from_slice(piece).is_err() {
            unreachable!()
        }
    }

    /// Appends a number in decimal.
    pub fn push_number(&mut self, number: u64)
        requires { length self.old + 20 ≤ ROOM }
        ensures text { self.new ≡ self.old ++ decimal number }
        ensures longer { length self.new ≤ length self.old + 20 }
    {
        let mut buffer = Buffer::new();
        self.push(buffer.format(number).as_bytes());
    }

    /// Appends a byte: as it is where it is one of ` ` to `~`, and else as `\xHH`.
    fn push_byte(&mut self, byte: u8)
        requires { length self.old + 4 ≤ ROOM }
        ensures text { self.new ≡ self.old ++ shown_byte byte }
        ensures longer { length self.new ≤ length self.old + 4 }
    {
        if is_printable(byte) {
            return self.push(&[byte]);
        }
        self.push(&[b'\\', b'x', digit(byte / 16), digit(byte % 16)]);
    }

    /// Appends the first `SHOWN` bytes of a line, each byte outside ` ` to `~` as `\xHH`.
    pub(crate) fn push_shown(&mut self, line: &[u8])
        requires { length self.old + 640 ≤ ROOM }
        ensures text { self.new ≡ self.old ++ shown_line line.now }
        ensures longer { length self.new ≤ length self.old + 640 }
    {
        let shown = shown(line);
        'bytes: for &byte in shown {
            self.push_byte(byte);
        }
    }
}

/// A note of one sentence.
pub fn brief_plain(sentence: &[u8]) -> Brief
    requires { length sentence.now + 7 ≤ ROOM }
    ensures text { result ≡ plain_text sentence.now }
    ensures longer { length result ≡ length sentence.now + 7 }
{
    let mut note = Brief::of(b"note: ");
    note.push(sentence);
    note.push(b"\n");
    note
}

/// A note of two sentences.
pub fn brief_pair(first: &[u8], second: &[u8]) -> Brief
    requires { length first.now + length second.now + 14 ≤ ROOM }
    ensures text { result ≡ pair_text first.now second.now }
    ensures longer { length result ≡ length first.now + length second.now + 14 }
{
    let mut note = brief_plain(first);
    let more = brief_plain(second);
    note.push(more.bytes());
    note
}

/// What is said of a file: its name as it is shown, and a sentence.
fn named(path: &str, sentence: &[u8]) -> Brief
    requires { length sentence.now ≤ 320 }
    ensures text { result ≡ shown_line path.now ++ (codes ": " ++ sentence.now) }
    ensures short { length result ≤ 962 }
{
    let mut said = Brief::of(b"");
    said.push_shown(path.as_bytes());
    said.push(b": ");
    said.push(sentence);
    said
}

/// A note of one sentence on a file.
pub fn brief_on_file(path: &str, sentence: &[u8]) -> Brief
    requires { length sentence.now ≤ 320 }
    ensures { result ≡ file_text path.now sentence.now }
{
    let said = named(path, sentence);
    brief_plain(said.bytes())
}
