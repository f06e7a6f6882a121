//! The words of a text, one after another, with their lines.
ghost use Rattle.std.specs.Prelude.{◌≡◌, ◌≤◌, ◌<◌, ◌+◌, ◌^◌, ◌∷◌, [], ℕ, true, false, length, drop, slice_index, IfSome, MatchOption};
ghost use Rattle.bs_vcd_header.specs.Tokens.{goes_on, is_white, line_behind, token_in, tokens_from};

/// A word, and the line that it stands in. Lines count from 1.
#[derive(Clone, Copy)]
pub struct VcdToken<'a> {
    pub line: u64,
    pub text: &'a [u8],
}

/// Whether a byte is white space.
fn is_white(byte: u8) -> bool
    ensures { result ≡ is_white byte }
{
    byte == b' ' || (9 <= byte && byte <= 13)
}

/// The line behind a byte.
fn line_behind(line: u64, byte: u8) -> u64
    requires { line + 1 < 2 ^ 64 }
    ensures { result ≡ line_behind line byte }
{
    if byte == b'\n' { line + 1 } else { line }
}

/// A place in a text, and the line of it.
#[derive(Clone, Copy)]
struct TextPosition<'a> {
    line: u64,
    rest: &'a [u8],
}

/// The first place that is not white space.
fn skip_white(line: u64, text: &[u8]) -> TextPosition<'_>
    requires { line + length text.now < 2 ^ 64 }
    ensures same { tokens_from line text.now ≡ tokens_from result.line result.rest.now }
    ensures begun { 0 < length result.rest.now → goes_on result.rest.now ≡ true }
    ensures within { result.line + length result.rest.now ≤ line + length text.now }
    ensures shorter { length result.rest.now ≤ length text.now }
{
    let mut spot = TextPosition { line, rest: text };
    'white: while let [first, behind @ ..] = spot.rest {
        if !is_white(*first) {
            return spot;
        }
        spot = TextPosition {
            line: line_behind(spot.line, *first),
            rest: behind,
        };
    }
    spot
}

/// The place of the first white space, or the text's length where there is none.
fn word_end(text: &[u8]) -> usize
    ensures within { result ≤ length text.now }
    ensures before { (k : ℕ) → k < result → is_white (slice_index text.now k) ≡ false }
    ensures ended { result < length text.now → is_white (slice_index text.now result) ≡ true }
{
    for (i, other) in text.iter().enumerate() {
        if is_white(*other) {
            return i;
        }
    }
    text.len()
}

/// The first word of a text whose first line has this number, and the bytes behind it.
pub fn next_token(line: u64, text: &[u8]) -> Option<(VcdToken<'_>, &[u8])>
    requires { line + length text.now < 2 ^ 64 }
    ensures tokens { MatchOption result (tokens_from line text.now ≡ []) (λ found. tokens_from line text.now ≡ token_in found.0 ∷ tokens_from found.0.line found.1.now) }
    ensures within { IfSome result (λ found. found.0.line + length found.1.now ≤ line + length text.now) }
    ensures shorter { IfSome result (λ found. length found.1.now < length text.now) }
{
    let spot = skip_white(line, text);
    if spot.rest.is_empty() {
        return None;
    }
    let (word, behind) = spot.rest.split_at(word_end(spot.rest));
    let token = VcdToken {
        line: spot.line,
        text: word,
    };
    Some((token, behind))
}
