//! The value of a bit or of a vector as a text.
ghost use Rattle.std.specs.Prelude.{◌≡◌, ◌<◌, ◌≤◌, ◌+◌, ◌*◌, ◌/◌, ◌^◌, ◌∷◌, [], ◌++◌, map, length, OnOk};
ghost use Rattle.std.specs.List.{range_with_len};
ghost use Rattle.bs_bits.specs.Text.{digit_of};
ghost use Rattle.bs_inspect_view.specs.Values.{four_bits, hex_digit, hex_text, padded, value_text, weight, zeros_for};

use bs_bits::{NoMemory, push_piece};

/// The weight of the bit at a place of a text that so many zeros stand before.
fn weight(zeros: usize, bits: &[bool], place: usize) -> u8
    ensures is { result ≡ weight (padded zeros bits.now place) }
    ensures small { result ≤ 1 }
{
    if place < zeros || place - zeros >= bits.len() {
        return 0;
    }
    u8::from(bits[place - zeros])
}

/// The number of four bits from a place on.
fn four_bits(zeros: usize, bits: &[bool], place: usize) -> u8
    requires { place + 3 < 2 ^ 64 }
    ensures is { result ≡ four_bits zeros bits.now place }
    ensures small { result < 16 }
{
    8 * weight(zeros, bits, place)
        + (4 * weight(zeros, bits, place + 1)
            + (2 * weight(zeros, bits, place + 2) + weight(zeros, bits, place + 3)))
}

/// A digit of base 16.
fn hex_digit(number: u8) -> u8
    requires { number < 16 }
    ensures { result ≡ hex_digit number }
{
    if number < 10 {
        48 + number
    } else {
        87 + number
    }
}

/// Appends the digits of base 16 of the number that bits are, the greatest first.
#[tactic(auto, using(crate::proofs::HexLemmas::digit_more))]
fn push_hex(text: &mut Vec<u8>, bits: &[bool]) -> Result<(), NoMemory>
    requires { length bits.now < 2 ^ 32 }
    ensures { OnOk result (text.new.items ≡ text.old.items ++ hex_text bits.now) }
{
    let zeros = (4 - bits.len() % 4) % 4;
    'digits: for k in 0..(zeros + bits.len()) / 4 {
        text.push(hex_digit(four_bits(zeros, bits, 4 * k)))?;
    }
    Ok(())
}

/// Appends the value of bits, the greatest first: one bit as `0` or `1`, more as a number of base 16 such as `0xb`.
pub fn push_value(text: &mut Vec<u8>, bits: &[bool]) -> Result<(), NoMemory>
    requires { length bits.now < 2 ^ 32 }
    ensures { OnOk result (text.new.items ≡ text.old.items ++ value_text bits.now) }
{
    match bits {
        [true] => push_piece(text, b"1"),
        [false] => push_piece(text, b"0"),
        _ => {
            push_piece(text, b"0x")?;
            push_hex(text, bits)
        }
    }
}
