//! The longest form that begins at a place of a text.
ghost use Rattle.std.specs.Prelude.{◌≡◌, ◌≤◌, ◌+◌, ◌-◌, ◌<◌, ◌&&◌, ◌||◌, length, drop};
ghost use Rattle.bs_lex.specs.Bytes.{◌∈◌, is_digit};
ghost use Rattle.bs_lex.specs.Tokens as spec;

use crate::classes::{begins_name, byte_at, is_space, is_symbol, name_len};
use crate::comments::slash;
use crate::forms::{directive, escaped, quoted, system};
use crate::numbers::number;
use crate::token::{Piece, TokenKind};

/// Whether an attribute opens.
fn opens_attribute(byte: u8, next: u8) -> bool
    ensures { result ≡ (byte ∈ "(" && next ∈ "*") }
{
    byte == b'(' && next == b'*'
}

/// Whether an attribute closes.
fn closes_attribute(byte: u8, next: u8) -> bool
    ensures { result ≡ (byte ∈ "*" && next ∈ ")") }
{
    byte == b'*' && next == b')'
}

/// What begins with a byte that begins no name and no number.
fn mark(first: u8, rest: &[u8]) -> Piece
    ensures piece { result ≡ spec.mark first rest.now }
    ensures within { spec.IsWithin (1 + length rest.now) result }
{
    if first == b'/' {
        slash(rest)
    } else if first == b'\\' {
        escaped(rest)
    } else if first == b'$' {
        system(rest)
    } else if first == b'"' {
        quoted(rest)
    } else if first == b'`' {
        directive(rest)
    } else if opens_attribute(first, byte_at(rest, 0)) {
        Piece::Made(TokenKind::AttrOpen, 2)
    } else if closes_attribute(first, byte_at(rest, 0)) {
        Piece::Made(TokenKind::AttrClose, 2)
    } else if is_symbol(first) {
        Piece::Made(TokenKind::Sym, 1)
    } else {
        Piece::Bad(0)
    }
}

/// Whether a number or a lone `'` begins with this byte.
fn begins_number(byte: u8) -> bool
    ensures { result ≡ (is_digit byte || byte ∈ "'") }
{
    byte.is_ascii_digit() || byte == b'\''
}

/// The longest piece that begins a text.
#[tactic(auto, unfolding(crate::specs::Tokens::piece_at))]
fn piece_of(text: &[u8]) -> Piece
    requires { 1 ≤ length text.now }
    ensures piece { result ≡ spec.piece_at text.now }
    ensures within { spec.IsWithin (length text.now) result }
{
    let first = text[0];
    if is_space(first) {
        Piece::Passed(1)
    } else if begins_name(first) {
        Piece::Made(TokenKind::Name, name_len(text))
    } else if begins_number(first) {
        number(text)
    } else {
        mark(first, &text[1..])
    }
}

/// The longest piece that begins at a place.
pub fn piece_from(bytes: &[u8], at: usize) -> Piece
    requires { at < length bytes.now }
    ensures piece { result ≡ spec.piece_at (drop at bytes.now) }
    ensures within { spec.IsWithin (length bytes.now - at) result }
{
    piece_of(&bytes[at..])
}
