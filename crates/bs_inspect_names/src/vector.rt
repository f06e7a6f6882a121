//! A word that names a vector, or some of its bits.
ghost use Rattle.std.specs.Prelude.{◌≡◌, ◌==◌};
ghost use Rattle.std.specs.List.{list_any};
ghost use Rattle.bs_net_names.specs.Keys.{parts_in};
ghost use Rattle.bs_inspect_names.specs.Vectors.{covers, has_number, is_within, span_behind, vector_in, vector_of, with_span};

use bs_net_names::{KeyParts, Range, last_split, place_in, plain, range_behind};

/// The name of a vector, and the range of its bits that are meant, where one stands behind it.
#[derive(Clone, Copy)]
pub struct Vector<'a> {
    pub base: &'a [u8],
    pub bits: Option<Range>,
}

/// Whether a text has a colon.
fn has_colon(text: &[u8]) -> bool
    ensures { result ≡ list_any (λ b. b == 58) text.now }
{
    text.iter().any(|byte| *byte == b':')
}

/// The range that stands behind the bracket which opens it: two numbers with a colon between.
fn span_behind(text: &[u8]) -> Option<Range>
    ensures { result ≡ span_behind text.now }
{
    if has_colon(text) {
        range_behind(text)
    } else {
        None
    }
}

/// A vector with a range where there is one; a whole word is the name of each other.
fn with_span<'a>(word: &'a [u8], base: &'a [u8], span: Option<Range>) -> Vector<'a>
    ensures { vector_in result ≡ with_span word.now base.now span }
{
    match span {
        Some(range) => Vector {
            base,
            bits: Some(range),
        },
        None => Vector {
            base: word,
            bits: None,
        },
    }
}

/// The vector that a word names.
pub fn vector_of(word: &[u8]) -> Vector<'_>
    ensures { vector_in result ≡ vector_of word.now }
{
    match last_split(b'[', word) {
        Some((base, rest)) => with_span(word, base, span_behind(rest)),
        None => with_span(word, word, None),
    }
}

/// Whether a number is one of a range's, or no range is said.
fn is_within(bits: Option<Range>, number: u64) -> bool
    ensures { result ≡ is_within bits number }
{
    match bits {
        Some(range) => place_in(range, Some(number)).is_some(),
        None => true,
    }
}

/// Whether a bit's number is one of those that are meant.
pub fn has_number(vector: Vector<'_>, bit: Option<u64>) -> bool
    ensures { result ≡ has_number (vector_in vector.entry) bit }
{
    match bit {
        Some(number) => is_within(vector.bits, number),
        None => false,
    }
}

/// Whether a key is that of a bit that is meant.
pub fn covers(vector: Vector<'_>, parts: KeyParts<'_>) -> bool
    ensures { result ≡ covers (vector_in vector.entry) (parts_in parts.entry) }
{
    plain(vector.base) == plain(parts.base) && has_number(vector, parts.bit)
}
