//! The forms of numbers.
ghost use Rattle.std.specs.Prelude.{◌≡◌, ◌≤◌, length, if◌then◌else◌};
ghost use Rattle.bs_lex.specs.Bytes.{◌∈◌};
ghost use Rattle.bs_lex.specs.Tokens as spec;

use crate::classes::{byte_at, decimal_len, digit_len, is_base, value_len};
use crate::token::{Piece, TokenKind};

/// How many bytes of a number are its base and the digits after it.
fn based_size(text: &[u8]) -> usize
    ensures size { result ≡ spec.based_size text.now }
    ensures within { result ≤ length text.now }
{
    if byte_at(text, 0) != b'\'' {
        return 0;
    }
    let sign = sign_size(byte_at(text, 1));
    if !is_base(byte_at(text, 1 + sign)) {
        return 0;
    }
    let values = value_len(&text[2 + sign..]);
    if values > 0 { 2 + sign + values } else { 0 }
}

/// How many bytes the sign mark of a base has: 1 for an `s`, otherwise 0.
fn sign_size(byte: u8) -> usize
    ensures { result ≡ (if byte ∈ "sS" then 1 else 0) }
{
    if byte == b's' || byte == b'S' { 1 } else { 0 }
}

/// How many bytes a number has, or 0.
fn number_size(text: &[u8]) -> usize
    ensures size { result ≡ spec.number_size text.now }
    ensures within { result ≤ length text.now }
{
    let digits = digit_len(text);
    let based = based_size(&text[digits..]);
    if based > 0 {
        digits + based
    } else {
        decimal_len(text)
    }
}

/// What begins with a digit or a `'`.
pub fn number(text: &[u8]) -> Piece
    requires { 1 ≤ length text.now }
    ensures piece { result ≡ spec.number text.now }
    ensures within { spec.IsWithin (length text.now) result }
{
    let size = number_size(text);
    if size > 0 {
        Piece::Made(TokenKind::Number, size)
    } else {
        Piece::Made(TokenKind::Sym, 1)
    }
}
