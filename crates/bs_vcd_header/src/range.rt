//! The name and the bits of a variable.
ghost use Rattle.std.specs.Prelude.{◌≡◌};
ghost use Rattle.bs_net_names.specs.Naming.{plain};
ghost use Rattle.bs_net_names.specs.Splits.{last_split};
ghost use Rattle.bs_vcd_header.specs.Header.{shape_in};
ghost use Rattle.bs_vcd_header.specs.Sources.{named, named_at, named_in, of_width, or_width, range_in, split_name, whole_or};

use crate::header::Variable;
use bs_net_names::{Range, last_split, plain, range_behind};

/// A name without the `\` that it may begin with, and its bits.
#[derive(Clone, Copy)]
pub struct NameWithBits<'a> {
    pub name: &'a [u8],
    pub bits: Range,
}

/// `[7:0]`, or `[3]`.
fn range_in(text: &[u8]) -> Option<Range>
    ensures { result ≡ range_in text.now }
{
    match text {
        [] => None,
        [first, rest @ ..] => {
            if *first == b'[' {
                range_behind(rest)
            } else {
                None
            }
        }
    }
}

/// So many bits, from bit 0 on.
fn of_width(width: u64) -> Range
    ensures { result ≡ of_width width }
{
    Range {
        left: width.saturating_sub(1),
        right: 0,
    }
}

/// A range, or as many bits as there are.
fn or_width(width: u64, range: Option<Range>) -> Range
    ensures { result ≡ or_width width range }
{
    match range {
        Some(range) => range,
        None => of_width(width),
    }
}

/// A name with its bits.
fn with_bits<'a>(name: &'a [u8], bits: Range) -> NameWithBits<'a>
    ensures { named_at result ≡ named name.now bits }
{
    NameWithBits {
        name: plain(name),
        bits,
    }
}

/// A name that may end with its range.
fn split_name<'a>(width: u64, name: &'a [u8]) -> NameWithBits<'a>
    ensures { named_at result ≡ split_name width name.now (last_split 91 name.now) }
{
    match last_split(b'[', name) {
        Some((base, rest)) => match range_behind(rest) {
            Some(range) => with_bits(base, range),
            None => with_bits(name, of_width(width)),
        },
        None => with_bits(name, of_width(width)),
    }
}

/// The name and the bits of a variable.
pub fn named_in<'a>(variable: Variable<'a>) -> NameWithBits<'a>
    ensures { named_at result ≡ named_in (shape_in variable.entry) }
{
    if variable.range.is_empty() {
        return split_name(variable.width, variable.name);
    }
    with_bits(
        variable.name,
        or_width(variable.width, range_in(variable.range)),
    )
}
