//! Pieces, numbers and lines of a text that is written. The text is as before where memory runs out.
ghost use Rattle.std.specs.Prelude.{◌≡◌, ◌∷◌, [], ◌++◌, decimal, take, OnOk, OnErr};
ghost use Rattle.bs_bits.specs.Lines.{line};

use crate::memory::NoMemory;
use itoa::Buffer;

/// Appends a piece.
pub fn push_piece(text: &mut Vec<u8>, piece: &[u8]) -> Result<(), NoMemory>
    ensures ok { OnOk result (text.new.items ≡ text.old.items ++ piece.now) }
    ensures err { OnErr result (text.new.items ≡ text.old.items) }
{
    text.extend_from_slice(piece)?;
    Ok(())
}

/// Appends a number in decimal.
pub fn push_number(text: &mut Vec<u8>, number: u64) -> Result<(), NoMemory>
    ensures ok { OnOk result (text.new.items ≡ text.old.items ++ decimal number) }
    ensures err { OnErr result (text.new.items ≡ text.old.items) }
{
    let mut buffer = Buffer::new();
    push_piece(text, buffer.format(number).as_bytes())
}

/// Appends a line feed.
pub fn end_line(text: &mut Vec<u8>) -> Result<(), NoMemory>
    ensures ok { OnOk result (text.new.items ≡ text.old.items ++ 10 ∷ []) }
    ensures err { OnErr result (text.new.items ≡ text.old.items) }
{
    text.push(b'\n')?;
    Ok(())
}

/// Appends a line.
pub fn push_line(text: &mut Vec<u8>, piece: &[u8]) -> Result<(), NoMemory>
    ensures ok { OnOk result (text.new.items ≡ text.old.items ++ line piece.now) }
    ensures err { OnErr result (text.new.items ≡ text.old.items) }
{
    let start = text.len();
    push_piece(text, piece)?;
    let ended = end_line(text);
    cut_unless(ended, text, start)
}

/// Appends a line of a word and a number.
pub fn push_number_line(text: &mut Vec<u8>, word: &[u8], number: u64) -> Result<(), NoMemory>
    ensures ok { OnOk result (text.new.items ≡ text.old.items ++ line (word.now ++ decimal number)) }
    ensures err { OnErr result (text.new.items ≡ text.old.items) }
{
    let start = text.len();
    let mut buffer = Buffer::new();
    push_piece(text, word)?;
    let ended = push_line(text, buffer.format(number).as_bytes());
    cut_unless(ended, text, start)
}

/// Cuts a text back to a length unless all went in that was to follow.
fn cut_unless(whole: Result<(), NoMemory>, text: &mut Vec<u8>, start: usize) -> Result<(), NoMemory>
    ensures same { result ≡ whole }
    ensures ok { OnOk result (text.new.items ≡ text.old.items) }
    ensures err { OnErr result (text.new.items ≡ take start text.old.items) }
{
    if whole.is_err() {
        text.truncate(start);
    }
    whole
}
