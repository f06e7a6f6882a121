//! Comments, up to the end of the line or to the next `*/`.
ghost use Rattle.std.specs.Prelude.{◌≡◌, ◌≤◌, ◌+◌, ◌&&◌, length, IfSome};
ghost use Rattle.bs_lex.specs.Bytes.{◌∈◌};
ghost use Rattle.bs_lex.specs.Tokens as spec;

use crate::classes::{byte_at, line_len};
use crate::token::{Piece, TokenKind};

/// Whether a comment closes with these two bytes.
fn closes_comment(byte: u8, next: u8) -> bool
    ensures { result ≡ (byte ∈ "*" && next ∈ "/") }
{
    byte == b'*' && next == b'/'
}

/// How many bytes stand up to and with the next `*/`.
fn comment_size(text: &[u8]) -> Option<usize>
    ensures size { result ≡ spec.comment_size text.now }
    ensures within { IfSome result (λ size. size ≤ length text.now) }
{
    'bytes: for at in 0..text.len() {
        if closes_comment(text[at], byte_at(text, at + 1)) {
            return Some(at + 2);
        }
    }
    None
}

/// What begins with a `/`, which the rest follows.
pub fn slash(rest: &[u8]) -> Piece
    ensures piece { result ≡ spec.slash rest.now }
    ensures within { spec.IsWithin (1 + length rest.now) result }
{
    if byte_at(rest, 0) == b'/' {
        return Piece::Passed(1 + line_len(rest));
    }
    if byte_at(rest, 0) == b'*' {
        return match comment_size(&rest[1..]) {
            Some(size) => Piece::Passed(2 + size),
            None => Piece::Bad(0),
        };
    }
    Piece::Made(TokenKind::Sym, 1)
}
