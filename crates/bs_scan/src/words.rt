//! The words of a line.
ghost use Rattle.std.specs.Prelude.{◌≡◌, ◌==◌, ◌≤◌, ◌∷◌, IsTrue, IfSome, length, option_map};
ghost use Rattle.std.specs.List.{list_all};
ghost use Rattle.std.specs.Str.{bytes_eq};
ghost use Rattle.bs_bits.specs.Lines.{words_of, is_name as is_name_text};
ghost use Rattle.bs_scan.specs.ChoiceText.{is_item as is_item_text, names_of};
ghost use Rattle.bs_scan.specs.Reading.{words_left};

use bs_bits::{is_name, next_word};

/// Whether two texts are the same.
pub fn is_same(text: &[u8], word: &[u8]) -> bool
    ensures { result ≡ bytes_eq text.now word.now }
{
    text == word
}

/// The first word of a line, and what stands behind the space after it.
pub fn split_word(line: &[u8]) -> (&[u8], Option<&[u8]>)
    ensures { words_of line.now ≡ result.0.now ∷ words_left (option_map (λ rest. rest.now) result.1) }
{
    next_word(line)
}

/// Whether a line is one word.
fn is_single(line: &[u8]) -> bool
    ensures { result ≡ (length (words_of line.now) == 1) }
{
    let (_, behind) = split_word(line);
    match behind {
        Some(_) => false,
        None => true,
    }
}

/// Whether each word of a line is a name.
fn are_names(line: &[u8]) -> bool
    ensures { result ≡ list_all is_name_text (words_of line.now) }
{
    let mut behind = Some(line);
    'words: while let Some(rest) = behind {
        let (word, more) = split_word(rest);
        if !is_name(word) {
            return false;
        }
        behind = more;
    }
    true
}

/// Whether a first word and the words behind it are an item.
fn is_item(word: &[u8], names: &[u8]) -> bool
    ensures { result ≡ is_item_text word.now (words_of names.now) }
{
    let named = are_names(names);
    let single = is_single(names);
    let any = is_same(word, b"xor");
    let one = is_same(word, b"bit");
    named && (any || (one && single))
}

/// The names that a line lists, one space between two of them, if it is an item.
pub fn item_names(line: &[u8]) -> Option<&[u8]>
    ensures listed { option_map (λ names. words_of names.now) result ≡ names_of (words_of line.now) }
    ensures named { IfSome result (λ names. IsTrue (list_all is_name_text (words_of names.now))) }
    ensures short { IfSome result (λ names. length (words_of names.now) ≤ length line.now) }
{
    let (word, behind) = split_word(line);
    match behind {
        Some(names) => {
            if is_item(word, names) {
                Some(names)
            } else {
                None
            }
        }
        None => None,
    }
}
