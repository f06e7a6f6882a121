//! What a key says: the bit of a vector, or a net by itself.
ghost use Rattle.std.specs.Prelude.{◌≡◌};
ghost use Rattle.bs_net_names.specs.Keys.{back_bit, closed, front_bit, key_parts, maybe_in, numbered, parts_in};
ghost use Rattle.bs_bits.specs.Lines.{number_in};
ghost use Rattle.bs_net_names.specs.Splits.{first_split};

use crate::splits::{first_split, last_split};
use bs_bits::read_number;

/// The name of a vector and the number of its bit; or a whole key without a number.
#[derive(Clone, Copy)]
pub struct KeyParts<'a> {
    pub base: &'a [u8],
    pub bit: Option<u64>,
}

/// A name with the number that digits are.
fn numbered<'a>(base: &'a [u8], digits: &[u8]) -> Option<KeyParts<'a>>
    ensures { maybe_in result ≡ numbered base.now (number_in digits.now) }
{
    match read_number(digits) {
        Some(bit) => Some(KeyParts {
            base,
            bit: Some(bit),
        }),
        None => None,
    }
}

/// A key of the form `[3]\u1.q`.
fn front_bit(key: &[u8]) -> Option<KeyParts<'_>>
    ensures { maybe_in result ≡ front_bit key.now }
{
    let [b'[', rest @ ..] = key else {
        return None;
    };
    match first_split(b']', rest) {
        Some((digits, base)) => numbered(base, digits),
        None => None,
    }
}

/// A name, and behind it a number up to a bracket that ends the text.
fn closed<'a>(base: &'a [u8], rest: &[u8]) -> Option<KeyParts<'a>>
    ensures { maybe_in result ≡ closed base.now (first_split 93 rest.now) }
{
    match first_split(b']', rest) {
        Some((digits, behind)) => {
            if behind.is_empty() {
                numbered(base, digits)
            } else {
                None
            }
        }
        None => None,
    }
}

/// A key of the form `a[3]`.
pub fn back_bit(key: &[u8]) -> Option<KeyParts<'_>>
    ensures { maybe_in result ≡ back_bit key.now }
{
    match last_split(b'[', key) {
        Some((base, rest)) => closed(base, rest),
        None => None,
    }
}

/// What a key says. A bit of a vector with a Name's form has the key `a[3]`, of one with another name `[3]\u1.q`.
pub fn key_parts(key: &[u8]) -> KeyParts<'_>
    ensures { parts_in result ≡ key_parts key.now }
{
    if let Some(parts) = front_bit(key) {
        return parts;
    }
    if let Some(parts) = back_bit(key) {
        return parts;
    }
    KeyParts {
        base: key,
        bit: None,
    }
}
