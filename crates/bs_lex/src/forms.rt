//! The forms that begin with a mark: texts in quotes, escaped names, system names, directives.
ghost use Rattle.std.specs.Prelude.{◌≡◌, ◌≤◌, ◌+◌, ◌&&◌, not, false, length, IfSome};
ghost use Rattle.bs_lex.specs.Bytes.{◌∈◌};
ghost use Rattle.bs_lex.specs.Tokens as spec;

use crate::classes::{begins_name, byte_at, graphic_len, is_of_name, is_space, line_len, name_len};
use crate::token::{Piece, TokenKind};

/// Whether this byte closes a text; the flag says that a `\` takes it.
fn closes_quote(taken: bool, byte: u8) -> bool
    ensures { result ≡ (not taken && byte ∈ "\"") }
{
    !taken && byte == b'"'
}

/// Whether this byte takes the next one with it.
fn takes_next(taken: bool, byte: u8) -> bool
    ensures { result ≡ (not taken && byte ∈ "\\") }
{
    !taken && byte == b'\\'
}

/// How many bytes stand up to and with the next `"` of the line.
fn quoted_size(text: &[u8]) -> Option<usize>
    ensures size { result ≡ spec.quoted_size false text.now }
    ensures within { IfSome result (λ size. size ≤ length text.now) }
{
    let mut taken = false;
    'bytes: for at in 0..text.len() {
        let byte = text[at];
        if byte == b'\n' {
            return None;
        }
        if closes_quote(taken, byte) {
            return Some(at + 1);
        }
        taken = takes_next(taken, byte);
    }
    None
}

/// What begins with a `"`, which the rest follows.
pub fn quoted(rest: &[u8]) -> Piece
    ensures piece { result ≡ spec.quoted rest.now }
    ensures within { spec.IsWithin (1 + length rest.now) result }
{
    match quoted_size(rest) {
        Some(size) => Piece::Made(TokenKind::Text, 1 + size),
        None => Piece::Bad(0),
    }
}

/// What begins with a `\`, which the rest follows.
pub fn escaped(rest: &[u8]) -> Piece
    ensures piece { result ≡ spec.escaped rest.now }
    ensures within { spec.IsWithin (1 + length rest.now) result }
{
    let size = graphic_len(rest);
    if rest.len() == size || is_space(byte_at(rest, size)) {
        if size == 0 {
            Piece::Bad(0)
        } else {
            Piece::Made(TokenKind::Escaped, 1 + size)
        }
    } else {
        Piece::Bad(1 + size)
    }
}

/// What begins with a `$`, which the rest follows.
pub fn system(rest: &[u8]) -> Piece
    ensures piece { result ≡ spec.system rest.now }
    ensures within { spec.IsWithin (1 + length rest.now) result }
{
    if is_of_name(byte_at(rest, 0)) {
        Piece::Made(TokenKind::System, 1 + name_len(rest))
    } else {
        Piece::Bad(0)
    }
}

/// Whether a directive of this name is passed over with its line.
fn is_passed_over(name: &[u8]) -> bool
    ensures { result ≡ spec.is_passed_over name.now }
{
    name == b"timescale".as_slice()
        || name == b"celldefine".as_slice()
        || name == b"endcelldefine".as_slice()
        || name == b"default_nettype".as_slice()
}

/// What begins with a backquote, which the rest follows.
pub fn directive(rest: &[u8]) -> Piece
    ensures piece { result ≡ spec.directive rest.now }
    ensures within { spec.IsWithin (1 + length rest.now) result }
{
    let size = name_len(rest);
    if begins_name(byte_at(rest, 0)) {
        if is_passed_over(&rest[..size]) {
            Piece::Passed(1 + line_len(rest))
        } else {
            Piece::Made(TokenKind::Directive, 1 + size)
        }
    } else {
        Piece::Bad(0)
    }
}
