//! What a word of the value changes says.
ghost use Rattle.std.specs.Prelude.{◌≡◌, ◌==◌, ◌∷◌, false};
ghost use Rattle.std.specs.List.{list_all};
ghost use Rattle.std.specs.Str.{bytes_eq};
ghost use Rattle.bs_bits.specs.Lines.{number_in};
ghost use Rattle.bs_vcd_header.specs.Words.{are_levels, id_in, if_small, is_level, is_passed, is_section, is_vector, keyword, maybe_said, packed, said_by, said_of, scalar, timed, vector};

use bs_bits::{is_name, read_number};

/// What a word says where a change may begin.
#[derive(Clone, Copy)]
pub enum Said<'a> {
    /// A later time.
    Time(u64),
    /// The bit of a variable, and its code.
    Scalar(&'a [u8], u64),
    /// The bits of the variable that the next word names.
    Vector(&'a [u8]),
    /// A value without bits, of the variable that the next word names.
    Passed,
    /// The beginning of a comment.
    Comment,
    /// The beginning or the end of a list of changes.
    Nothing,
    /// The dump is switched off.
    Off,
}

/// Whether two texts are the same.
pub fn is_text(text: &[u8], word: &[u8]) -> bool
    ensures { result ≡ bytes_eq text.now word.now }
{
    text == word
}

/// The number that bytes are in base 256, unless it is 2^64 or more.
fn packed(text: &[u8]) -> Option<u64>
    ensures { result ≡ if_small (packed text.now) }
{
    let mut number = 0u64;
    for byte in text {
        number = number.checked_mul(256)?.checked_add(u64::from(*byte))?;
    }
    Some(number)
}

/// The number of an identifier code.
pub fn id_in(text: &[u8]) -> Option<u64>
    ensures { result ≡ id_in text.now }
{
    if is_name(text) { packed(text) } else { None }
}

/// Whether a byte is the character of a bit.
fn is_level(byte: u8) -> bool
    ensures { result ≡ is_level byte }
{
    byte == b'0' || byte == b'1' || byte == b'x' || byte == b'X' || byte == b'z' || byte == b'Z'
}

/// Whether each byte is the character of a bit.
fn is_level_text(text: &[u8]) -> bool
    ensures { result ≡ list_all is_level text.now }
{
    text.iter().all(|&byte| is_level(byte))
}

/// Whether a text is the bits of a vector.
fn are_levels(text: &[u8]) -> bool
    ensures { result ≡ are_levels text.now }
{
    let each = is_level_text(text);
    !text.is_empty() && each
}

/// Whether a word begins or ends a list of changes.
fn is_section(word: &[u8]) -> bool
    ensures { result ≡ is_section word.now }
{
    is_text(word, b"$dumpvars")
        || is_text(word, b"$end")
        || is_text(word, b"$dumpall")
        || is_text(word, b"$dumpon")
}

/// What a keyword says.
fn keyword<'a>(word: &'a [u8]) -> Option<Said<'a>>
    ensures { maybe_said result ≡ keyword word.now }
{
    if is_text(word, b"$comment") {
        return Some(Said::Comment);
    }
    if is_text(word, b"$dumpoff") {
        return Some(Said::Off);
    }
    if is_section(word) {
        Some(Said::Nothing)
    } else {
        None
    }
}

/// A later time.
fn timed<'a>(time: Option<u64>) -> Option<Said<'a>>
    ensures { maybe_said result ≡ timed time }
{
    match time {
        Some(time) => Some(Said::Time(time)),
        None => None,
    }
}

/// The bits of a vector.
fn vector(bits: &[u8]) -> Option<Said<'_>>
    ensures { maybe_said result ≡ vector bits.now }
{
    if are_levels(bits) {
        Some(Said::Vector(bits))
    } else {
        None
    }
}

/// What a word says whose first byte is no bit and no time.
fn other<'a>(first: u8, rest: &'a [u8], word: &'a [u8]) -> Option<Said<'a>>
    requires cut { word.now ≡ first ∷ rest.now }
    requires no_time { (first == 35) ≡ false }
    requires no_level { is_level first ≡ false }
    ensures { maybe_said result ≡ said_by first rest.now }
{
    if first == b'b' || first == b'B' {
        return vector(rest);
    }
    if first == b'r' || first == b'R' || first == b's' || first == b'S' {
        return Some(Said::Passed);
    }
    keyword(word)
}

/// The bit of a variable.
fn scalar<'a>(first: u8, rest: &[u8], word: &'a [u8]) -> Option<Said<'a>>
    requires cut { word.now ≡ first ∷ rest.now }
    ensures { maybe_said result ≡ scalar first (id_in rest.now) }
{
    match id_in(rest) {
        Some(id) => Some(Said::Scalar(&word[..1], id)),
        None => None,
    }
}

/// What a word says, if it may stand where a change may begin.
pub fn said_of(word: &[u8]) -> Option<Said<'_>>
    ensures { maybe_said result ≡ said_of word.now }
{
    match word {
        [] => None,
        [first, rest @ ..] => {
            if *first == b'#' {
                return timed(read_number(rest));
            }
            if is_level(*first) {
                return scalar(*first, rest, word);
            }
            other(*first, rest, word)
        }
    }
}
