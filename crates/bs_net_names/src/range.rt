//! The bits of a range.
ghost use Rattle.std.specs.Prelude.{◌≡◌, ◌++◌, OnOk, Some};
ghost use Rattle.bs_bits.specs.Lines.{number_in};
ghost use Rattle.bs_net_names.specs.Ranges.{both_ends, ends_of, falling, is_among, one_end, place_in, range_before, range_behind, range_text, rising};
ghost use Rattle.bs_net_names.specs.Splits.{first_split, halves_in};

use crate::splits::first_split;
use bs_bits::{NoMemory, push_number, push_piece, read_number};

/// The numbers of the first and the last bit of a vector.
#[derive(Clone, Copy)]
pub struct Range {
    pub left: u64,
    pub right: u64,
}

/// Two ends.
fn both_ends(left: Option<u64>, right: Option<u64>) -> Option<Range>
    ensures { result ≡ both_ends left right }
{
    match (left, right) {
        (Some(left), Some(right)) => Some(Range { left, right }),
        _ => None,
    }
}

/// One bit.
fn one_end(number: Option<u64>) -> Option<Range>
    ensures { result ≡ one_end number }
{
    match number {
        Some(number) => Some(Range {
            left: number,
            right: number,
        }),
        None => None,
    }
}

/// `7:0`, or `3`.
fn ends_of(text: &[u8]) -> Option<Range>
    ensures { result ≡ ends_of text.now (first_split 58 text.now) }
{
    match first_split(b':', text) {
        Some((left, right)) => both_ends(read_number(left), read_number(right)),
        None => one_end(read_number(text)),
    }
}

/// `7:0]`, or `3]`: what stands behind the bracket that opens a range.
pub fn range_behind(text: &[u8]) -> Option<Range>
    ensures { result ≡ range_behind text.now }
{
    match first_split(b']', text) {
        Some((ends, behind)) => {
            if behind.is_empty() {
                ends_of(ends)
            } else {
                None
            }
        }
        None => None,
    }
}

/// The place of a bit of a range whose first number is the greatest.
fn falling(range: Range, number: u64) -> Option<u64>
    ensures { result ≡ falling range number }
{
    if range.right <= number && number <= range.left {
        Some(number - range.right)
    } else {
        None
    }
}

/// The place of a bit of a range whose last number is the greatest.
fn rising(range: Range, number: u64) -> Option<u64>
    ensures { result ≡ rising range number }
{
    if range.left <= number && number <= range.right {
        Some(range.right - number)
    } else {
        None
    }
}

/// The place of a bit, counted from the last one of a range.
pub fn place_in(range: Range, bit: Option<u64>) -> Option<u64>
    ensures { result ≡ place_in range bit }
{
    match bit {
        Some(number) => {
            if range.right <= range.left {
                falling(range, number)
            } else {
                rising(range, number)
            }
        }
        None => {
            if range.left == range.right {
                Some(0)
            } else {
                None
            }
        }
    }
}

/// Whether a number is one of a range's, whichever end is the greater.
pub fn is_among(range: Range, bit: Option<u64>) -> bool
    ensures { result ≡ is_among range bit }
{
    match bit {
        Some(number) => {
            (range.right <= number && number <= range.left)
                || (range.left <= number && number <= range.right)
        }
        None => false,
    }
}

/// Appends the numbers of the bits of a vector: so many, from the greatest down.
pub fn push_range(text: &mut Vec<u8>, high: u64, count: usize) -> Result<(), NoMemory>
    ensures { OnOk result (text.new.items ≡ text.old.items ++ range_text (Some high) count) }
{
    push_piece(text, b"[")?;
    push_number(text, high)?;
    if count != 1 {
        push_piece(text, b":")?;
        push_number(text, high.saturating_sub((count as u64).saturating_sub(1)))?;
    }
    push_piece(text, b"]")
}
