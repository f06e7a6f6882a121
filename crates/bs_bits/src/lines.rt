//! The lines of a text and the words of a line, one after another.
ghost use Rattle.std.specs.Prelude.{◌≡◌, ◌<◌, ◌≤◌, ◌==◌, ℕ, [], ◌∷◌, length, slice_index, true, false, IfSome, MatchOption};
ghost use Rattle.bs_bits.specs.Lines.{is_name, is_visible, lines_of, pieces_of, words_of};

/// The place of the first byte that is this one, or the text's length where there is none.
fn place_of(byte: u8, text: &[u8]) -> usize
    ensures within { result ≤ length text.now }
    ensures before { (k : ℕ) → k < result → (slice_index text.now k == byte) ≡ false }
    ensures ended { result < length text.now → (slice_index text.now result == byte) ≡ true }
{
    for (i, other) in text.iter().enumerate() {
        if *other == byte {
            return i;
        }
    }
    text.len()
}

/// The first line of a text, without its line feed, and the bytes behind that. The last line feed may be missing, and
/// no bytes have no line.
pub fn next_line(text: &[u8]) -> Option<(&[u8], &[u8])>
    ensures { MatchOption result (lines_of text.now ≡ []) (λ found. lines_of text.now ≡ found.0.now ∷ lines_of found.1.now) }
{
    if text.is_empty() {
        return None;
    }
    let (first, rest) = text.split_at(place_of(b'\n', text));
    if rest.is_empty() {
        Some((first, rest))
    } else {
        Some((first, &rest[1..]))
    }
}

/// The first line of a text, where a line feed ends it, and the bytes behind that.
pub fn whole_line(text: &[u8]) -> Option<(&[u8], &[u8])>
    ensures pieces { MatchOption result (pieces_of text.now ≡ text.now ∷ []) (λ found. pieces_of text.now ≡ found.0.now ∷ pieces_of found.1.now) }
    ensures shorter { IfSome result (λ found. length found.1.now < length text.now) }
{
    let (line, rest) = text.split_at(place_of(b'\n', text));
    if rest.is_empty() {
        None
    } else {
        Some((line, &rest[1..]))
    }
}

/// The first word of a line, and the bytes behind the space that ends it, if one does. So a line has one word more than
/// it has spaces, and a word may be empty.
pub fn next_word(line: &[u8]) -> (&[u8], Option<&[u8]>)
    ensures { MatchOption result.1 (words_of line.now ≡ result.0.now ∷ []) (λ rest. words_of line.now ≡ result.0.now ∷ words_of rest.now) }
{
    let (first, rest) = line.split_at(place_of(b' ', line));
    if rest.is_empty() {
        (first, None)
    } else {
        (first, Some(&rest[1..]))
    }
}

/// Whether all bytes are `!` to `~`.
fn is_visible(text: &[u8]) -> bool
    ensures { result ≡ is_visible text.now }
{
    text.iter().all(|&byte| b'!' <= byte && byte <= b'~')
}

/// Whether a word is a name: one or more bytes `!` to `~`.
pub fn is_name(word: &[u8]) -> bool
    ensures { result ≡ is_name word.now }
{
    let visible = is_visible(word);
    !word.is_empty() && visible
}
