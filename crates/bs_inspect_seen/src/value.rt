//! The bits of a value.
ghost use Rattle.std.specs.Prelude.{◌≡◌, ◌≤◌, ◌<◌, ◌++◌, ◌&&◌, nat_lt, codes, length, option_map, IfOk, OnOk};
ghost use Rattle.std.specs.List.{list_all};
ghost use Rattle.std.specs.Str.{bytes_eq};
ghost use Rattle.bs_bits.specs.Lines.{number_in};
ghost use Rattle.bs_inspect_seen.specs.Value.{based, behind, binary, decimal_bits, digit_bits, digits_bits, hex_number, in_binary, is_digit, is_hex, is_number, value_in};

use bs_bits::{NoMemory, read_number};
use std::alloc::Global;

/// The digits in which a value is written.
#[derive(Clone, Copy, Debug, PartialEq, Eq)]
pub enum Base {
    Hex,
    Binary,
}

/// Whether two texts are the same.
fn is_same(text: &[u8], word: &[u8]) -> bool
    ensures { result ≡ bytes_eq text.now word.now }
{
    text == word
}

/// What stands behind a word.
fn rest_behind<'a>(word: &[u8], text: &'a [u8]) -> Option<&'a [u8]>
    ensures { option_map (λ rest. rest.now) result ≡ behind word.now text.now }
{
    if text.len() < word.len() {
        return None;
    }
    let (front, rest) = text.split_at(word.len());
    if is_same(front, word) {
        Some(rest)
    } else {
        None
    }
}

/// Whether a character is a hexadecimal digit.
fn is_hex(character: u8) -> bool
    ensures { result ≡ is_hex character }
{
    (48 <= character && character <= 57)
        || ((65 <= character && character <= 70) || (97 <= character && character <= 102))
}

/// Whether a character is a digit.
fn is_digit(base: Base, character: u8) -> bool
    ensures { result ≡ is_digit base character }
{
    match base {
        Base::Hex => is_hex(character),
        Base::Binary => character == 48 || character == 49,
    }
}

/// Whether all characters are digits.
fn are_digits(base: Base, text: &[u8]) -> bool
    ensures { result ≡ list_all (is_digit base) text.now }
{
    text.iter().all(|character| is_digit(base, *character))
}

/// Whether a text is one or more digits.
fn is_number(base: Base, text: &[u8]) -> bool
    ensures { result ≡ is_number base text.now }
{
    let some = 0 < text.len();
    let all = are_digits(base, text);
    some && all
}

/// The number of a hexadecimal digit.
fn hex_number(character: u8) -> u8
    ensures { result ≡ hex_number character }
{
    if character <= 57 {
        character.saturating_sub(48)
    } else if character <= 70 {
        character.saturating_sub(55)
    } else {
        character.saturating_sub(87)
    }
}

/// Puts so many binary digits of a number at the end, the lowest first.
#[tactic(auto, using(crate::proofs::ValueLemmas::binary_none, crate::proofs::ValueLemmas::binary_more, crate::proofs::ValueLemmas::binary_end))]
fn push_binary(bits: &mut Vec<bool>, count: usize, number: u64) -> Result<(), NoMemory>
    ensures { OnOk result (bits.new.items ≡ bits.old.items ++ binary count number) }
{
    let mut left = number;
    'digits: for _ in 0..count {
        bits.push(left % 2 == 1)?;
        left /= 2;
    }
    Ok(())
}

/// Puts the bits of a digit at the end.
fn push_digit(bits: &mut Vec<bool>, base: Base, character: u8) -> Result<(), NoMemory>
    ensures { OnOk result (bits.new.items ≡ bits.old.items ++ digit_bits base character) }
{
    match base {
        Base::Hex => push_binary(bits, 4, u64::from(hex_number(character))),
        Base::Binary => {
            bits.push(character == 49)?;
            Ok(())
        }
    }
}

/// The bits of digits.
#[tactic(auto, using(crate::proofs::ValueLemmas::digits_none, crate::proofs::ValueLemmas::digits_more, crate::proofs::ValueLemmas::digits_all))]
fn digits_bits(alloc: Global, base: Base, digits: &[u8]) -> Result<Vec<bool>, NoMemory>
    ensures { IfOk result (λ bits. bits.items ≡ digits_bits base digits.now) }
{
    let mut bits = Vec::new(alloc);
    let mut left = digits.len();
    'digits: while left > 0 {
        left -= 1;
        push_digit(&mut bits, base, digits[left])?;
    }
    Ok(bits)
}

/// The bits of one or more digits.
fn based(alloc: Global, base: Base, digits: &[u8]) -> Result<Option<Vec<bool>>, NoMemory>
    ensures { IfOk result (λ bits. option_map (λ b. b.items) bits ≡ based base digits.now) }
{
    if is_number(base, digits) {
        let bits = digits_bits(alloc, base, digits)?;
        Ok(Some(bits))
    } else {
        Ok(None)
    }
}

/// The bits of a decimal number.
fn decimal_bits(alloc: Global, number: Option<u64>) -> Result<Option<Vec<bool>>, NoMemory>
    ensures { IfOk result (λ bits. option_map (λ b. b.items) bits ≡ decimal_bits number) }
{
    match number {
        None => Ok(None),
        Some(number) => {
            let mut bits = Vec::new(alloc);
            push_binary(&mut bits, 64, number)?;
            Ok(Some(bits))
        }
    }
}

/// The bits of a value that is not written in hexadecimal digits.
fn in_binary(alloc: Global, text: &[u8]) -> Result<Option<Vec<bool>>, NoMemory>
    ensures { IfOk result (λ bits. option_map (λ b. b.items) bits ≡ in_binary text.now (behind (codes "0b") text.now)) }
{
    match rest_behind(b"0b", text) {
        Some(digits) => based(alloc, Base::Binary, digits),
        None => decimal_bits(alloc, read_number(text)),
    }
}

/// The bits of a value, the lowest first: hexadecimal digits behind `0x`, binary ones behind `0b`, or a decimal number below 2^64.
pub fn read_value(alloc: Global, text: &[u8]) -> Result<Option<Vec<bool>>, NoMemory>
    ensures { IfOk result (λ bits. option_map (λ b. b.items) bits ≡ value_in text.now) }
{
    match rest_behind(b"0x", text) {
        Some(digits) => based(alloc, Base::Hex, digits),
        None => in_binary(alloc, text),
    }
}
