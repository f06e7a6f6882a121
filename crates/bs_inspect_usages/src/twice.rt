//! A word that gives an option a second time.
ghost use Rattle.std.specs.Prelude.{◌≡◌, ◌<◌, ◌≤◌, ◌++◌, ◌-◌, [], drop, length, map, slice_index_or, string_bytes, take, IfOk, IfSome};
ghost use Rattle.bs_inspect_usages.specs.Usages.{again_text, again_words, first_again, gives_moment, is_again, is_moment, option_name, repeats};
ghost use Rattle.bs_inspect_notes.specs.Listings.{word_piece};

use crate::reason::{gives, word_or};
use crate::usage::{is_dashed, option_name};
use bs_bits::{NoMemory, push_piece};
use bs_inspect_notes::push_word;
use bs_vcd_header::is_text;
use std::alloc::Global;

/// Whether this is the name of an option that says the moment of a dump.
fn is_moment(name: &[u8]) -> bool
    ensures { result ≡ is_moment name.now }
{
    is_text(name, b"--cycle") || is_text(name, b"--time")
}

/// Whether words say the moment of a dump.
fn gives_moment(words: &[String]) -> bool
    ensures { result ≡ gives_moment (map string_bytes words.now) }
{
    let cycle = gives(words, b"--cycle");
    let time = gives(words, b"--time");
    cycle || time
}

/// Whether an option with this name says what an option of these words says.
fn repeats(name: &[u8], before: &[String]) -> bool
    ensures { result ≡ repeats name.now (map string_bytes before.now) }
{
    let same = gives(before, name);
    let moment = is_moment(name);
    let given = gives_moment(before);
    same || (moment && given)
}

/// Whether a word gives an option that may stand once, and says what an option of the words before it says.
#[tactic(auto, unfolding(crate::specs::Usages::is_again))]
fn is_again(before: &[String], word: &[u8]) -> bool
    ensures { result ≡ is_again (map string_bytes before.now) word.now }
{
    let name = option_name(word);
    let dashed = is_dashed(word);
    let only = is_text(name, b"--only");
    let again = repeats(name, before);
    dashed && (!only && again)
}

/// The same of the word at a place.
#[tactic(auto, using(crate::proofs::TwiceLemmas::again_at))]
fn is_again_at(words: &[String], at: usize) -> bool
    requires { at < length words.now }
    ensures { result ≡ is_again (take at (map string_bytes words.now)) (slice_index_or (map string_bytes words.now) at []) }
{
    let before = &words[..at];
    let word = word_or(words, at);
    is_again(before, word)
}

/// The number, from 1, of the first word behind a command that says what an option before it says.
#[tactic(auto, using(crate::proofs::TwiceLemmas::again_stop, crate::proofs::TwiceLemmas::again_found, crate::proofs::TwiceLemmas::again_next, crate::proofs::TwiceLemmas::again_none))]
pub fn first_again(words: &[String]) -> Option<usize>
    ensures is { result ≡ first_again (map string_bytes words.now) 1 (drop 1 (map string_bytes words.now)) }
    ensures there { IfSome result (λ number. (0 < number) × (number ≤ length words.now)) }
{
    'words: for at in 1..words.len() {
        let word = word_or(words, at);
        if word == b"--".as_slice() {
            return None;
        }
        if is_again_at(words, at) {
            return Some(at + 1);
        }
    }
    None
}

/// What is said of an option with this name.
fn again_words(name: &[u8]) -> &'static str
    ensures { result.now ≡ again_words name.now }
{
    if is_moment(name) {
        ", says the moment a second time: `--cycle N` or `--time T` stands once"
    } else {
        ", is given a second time"
    }
}

/// A word with its number, and what is said of it.
fn word_with(alloc: Global, number: u64, word: &[u8], says: &str) -> Result<Vec<u8>, NoMemory>
    ensures { IfOk result (λ said. said.items ≡ word_piece number word.now ++ says.now) }
{
    let mut said = Vec::new(alloc);
    push_word(&mut said, number, word)?;
    push_piece(&mut said, says.as_bytes())?;
    Ok(said)
}

/// What is said of a word with its number, which says what an option before it says.
fn again_word(alloc: Global, number: u64, word: &[u8]) -> Result<Vec<u8>, NoMemory>
    ensures { IfOk result (λ said. said.items ≡ again_text number word.now) }
{
    let name = option_name(word);
    let says = again_words(name);
    let said = word_with(alloc, number, word, says)?;
    Ok(said)
}

/// What is said of the word with a number, from 1, which says what an option before it says.
pub fn again_sentence(alloc: Global, words: &[String], number: usize) -> Result<Vec<u8>, NoMemory>
    requires { 0 < number }
    ensures { IfOk result (λ said. said.items ≡ again_text number (slice_index_or (map string_bytes words.now) (number - 1) [])) }
{
    let word = word_or(words, number - 1);
    let said = again_word(alloc, number as u64, word)?;
    Ok(said)
}
