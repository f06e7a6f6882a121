//! The lines of a wave's text, each by itself.
ghost use Rattle.std.specs.Prelude.{◌≡◌, ◌<◌, ◌∷◌, [], length, option_map, IfSome};
ghost use Rattle.std.specs.Str.{bytes_eq};
ghost use Rattle.bs_bits.specs.Lines.{words_of};
ghost use Rattle.bs_wave.specs.WaveReading.{behind, change_in, key_in, if_other, key_of, net_with, triple, triple_of, value_for, value_in};
ghost use Rattle.bs_wave.specs.PartialWave.{behind_digit, change_of};
ghost use Rattle.bs_wave.specs.WaveText.{id_of, time_line};

use crate::text::is_same;
use crate::value::Value;
use bs_bits::{is_name, next_word};
use itoa::Buffer;

/// Whether two texts are the same.
pub fn is_text(text: &[u8], word: &[u8]) -> bool
    ensures { result ≡ bytes_eq text.now word.now }
{
    text == word
}

/// Whether a line is the one of a moment.
pub fn is_time(line: &[u8], moment: u64) -> bool
    ensures { result ≡ bytes_eq line.now (time_line moment) }
{
    match line {
        [] => false,
        [first, rest @ ..] => {
            let mut buffer = Buffer::new();
            let same = is_text(rest, buffer.format(moment).as_bytes());
            *first == b'#' && same
        }
    }
}

/// Whether a text is the last digit of an id.
fn is_last(text: &[u8], digit: u8) -> bool
    ensures { result ≡ bytes_eq text.now (digit ∷ []) }
{
    match text {
        [] => false,
        [first, rest @ ..] => {
            let ended = rest.is_empty();
            *first == digit && ended
        }
    }
}

/// What stands behind a digit, if a text begins with it.
fn behind_digit(text: &[u8], digit: u8) -> Option<&[u8]>
    ensures { option_map (λ rest. rest.now) result ≡ behind_digit digit text.now }
{
    match text {
        [] => None,
        [first, rest @ ..] => { if *first == digit { Some(rest) } else { None } }
    }
}

/// Whether a text is the id of a net.
#[tactic(auto, using(crate::proofs::IdLemmas::last_digit, crate::proofs::FormLemmas::digit_none, crate::proofs::FormLemmas::digit_same))]
fn is_id(text: &[u8], net: usize) -> bool
    ensures { result ≡ bytes_eq text.now (id_of net) }
{
    let mut left = net;
    let mut rest = text;
    'digits: while left >= 94 {
        let Some(behind) = behind_digit(rest, b'!' + (left % 94) as u8) else {
            return false;
        };
        rest = behind;
        left /= 94;
    }
    is_last(rest, b'!' + left as u8)
}

/// The net whose id a text is, if it is one of so many and not below the next.
#[tactic(auto, using(crate::proofs::FormLemmas::net_here, crate::proofs::FormLemmas::net_later, crate::proofs::FormLemmas::net_none))]
fn net_with(text: &[u8], next: usize, count: usize) -> Option<usize>
    ensures is { result ≡ net_with next count text.now }
    ensures within { IfSome result (λ net. net < count) }
{
    'nets: for net in next..count {
        if is_id(text, net) {
            return Some(net);
        }
    }
    None
}

/// The value of a character.
fn value_in(code: u8) -> Option<Value>
    ensures { result ≡ value_in code }
{
    if code == b'0' {
        return Some(Value::Zero);
    }
    if code == b'1' {
        return Some(Value::One);
    }
    if code == b'x' {
        return Some(Value::Unknown);
    }
    None
}

/// The value in a value line of a net.
pub fn value_for(line: &[u8], net: usize) -> Option<Value>
    ensures { result ≡ value_for net line.now }
{
    match line {
        [] => None,
        [code, id @ ..] => {
            if is_id(id, net) {
                value_in(*code)
            } else {
                None
            }
        }
    }
}

/// A net and its value.
#[derive(Clone, Copy)]
pub struct Change {
    pub net: usize,
    pub value: Value,
}

/// The change of a net that is given to a value, where it has another value.
fn if_other(values: &[Value], net: Option<usize>, value: Option<Value>) -> Option<Change>
    requires { IfSome net (λ n. n < length values.now) }
    ensures is { option_map change_of result ≡ if_other values.now net value }
    ensures within { IfSome result (λ change. change.net < length values.now) }
{
    let net = net?;
    let value = value?;
    if is_same(values[net], value) {
        return None;
    }
    Some(Change { net, value })
}

/// The change in a value line of a net from the next on, over the values so far.
pub fn change_in(line: &[u8], next: usize, values: &[Value]) -> Option<Change>
    ensures is { option_map change_of result ≡ change_in next values.now line.now }
    ensures within { IfSome result (λ change. change.net < length values.now) }
{
    match line {
        [] => None,
        [code, id @ ..] => if_other(values, net_with(id, next, values.len()), value_in(*code)),
    }
}

/// What stands behind a word.
fn rest_behind<'a>(word: &[u8], text: &'a [u8]) -> Option<&'a [u8]>
    ensures { option_map (λ rest. rest.now) result ≡ behind word.now text.now }
{
    if text.len() < word.len() {
        return None;
    }
    let (front, rest) = text.split_at(word.len());
    if is_text(front, word) {
        Some(rest)
    } else {
        None
    }
}

/// The three words of a text, if there are just three.
fn three_words(text: &[u8]) -> Option<(&[u8], &[u8], &[u8])>
    ensures { option_map (λ words. triple words.0.now words.1.now words.2.now) result ≡ triple_of (words_of text.now) }
{
    let (first, behind) = next_word(text);
    let behind = match behind {
        Some(behind) => behind,
        None => return None,
    };
    let (second, behind) = next_word(behind);
    let behind = match behind {
        Some(behind) => behind,
        None => return None,
    };
    let (third, behind) = next_word(behind);
    match behind {
        Some(_) => None,
        None => Some((first, second, third)),
    }
}

/// The key in the words that stand behind `$var wire 1`.
fn key_of<'a>(net: usize, text: &'a [u8]) -> Option<&'a [u8]>
    ensures { option_map (λ key. key.now) result ≡ key_of net (triple_of (words_of text.now)) }
{
    let (id, key, last) = match three_words(text) {
        Some(words) => words,
        None => return None,
    };
    let own = is_id(id, net);
    let named = is_name(key);
    let ended = is_text(last, b"$end");
    if own && named && ended {
        Some(key)
    } else {
        None
    }
}

/// The key in the line of a net.
pub fn net_key(line: &[u8], net: usize) -> Option<&[u8]>
    ensures { option_map (λ key. key.now) result ≡ key_in net line.now }
{
    match rest_behind(b"$var wire 1 ", line) {
        Some(rest) => key_of(net, rest),
        None => None,
    }
}
