//! The scan of a text.
ghost use Rattle.std.specs.Prelude.{◌≤◌, length};
ghost use Rattle.bs_lex.specs.declared.limits.TheConstants.{MAX_BYTES};
ghost use Rattle.bs_lex.specs.Placing.{IsNext};

use crate::pieces::piece_from;
use crate::token::{Next, Piece, Token};

/// What stands next in a text of at most 16 MiB from a place on: a token, the end, or the first place at which no white
/// space, comment or token begins (docs/FORMATS.md, "Tokens").
pub fn next_token(bytes: &[u8], from: usize) -> Next
    requires few { length bytes.now ≤ MAX_BYTES }
    requires within { from ≤ length bytes.now }
    ensures { IsNext bytes.now from result }
{
    let mut at = from;
    while at < bytes.len() {
        match piece_from(bytes, at) {
            Piece::Passed(size) => at += size,
            Piece::Made(kind, size) => {
                return Next::Found(Token {
                    kind,
                    start: at as u32,
                    stop: (at + size) as u32,
                });
            }
            Piece::Bad(ahead) => return Next::Refused((at + ahead) as u32),
        }
    }
    Next::End
}
