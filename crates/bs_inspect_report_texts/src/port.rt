//! Ports: their names, and the order of their bits.
ghost use Rattle.std.specs.Prelude.{◌≡◌, ◌<◌, ◌^◌, ◌++◌, length, OnOk};
ghost use Rattle.bs_inspect_view.specs.Signals.{signal_in};
ghost use Rattle.bs_inspect_report_texts.specs.Text.{bounds, connection, falls, is_escaped, is_rising, least, range_between, word};

use bs_bits::{NoMemory, push_number, push_piece};
use bs_inspect_view::Signal;

/// Whether a name is written with a `\`.
fn is_escaped(name: &[u8]) -> bool
    ensures { result ≡ is_escaped name.now }
{
    match name {
        [] => false,
        [first, ..] => *first == b'\\',
    }
}

/// Appends a name as Verilog reads it.
pub(crate) fn push_word(text: &mut Vec<u8>, name: &[u8]) -> Result<(), NoMemory>
    ensures { OnOk result (text.new.items ≡ text.old.items ++ word name.now) }
{
    push_piece(text, name)?;
    if is_escaped(name) {
        push_piece(text, b" ")
    } else {
        Ok(())
    }
}

/// Whether places fall.
fn falls(places: &[u32]) -> bool
    ensures { result ≡ falls places.now }
{
    match places {
        [first, second, ..] => *second < *first,
        _ => false,
    }
}

/// Whether a port has its least bit first.
pub(crate) fn is_rising(signal: &Signal<'_>) -> bool
    ensures { result ≡ is_rising (signal_in signal.now) }
{
    falls(signal.places.slice()) && !is_escaped(signal.base)
}

/// The number of the least of some bits.
fn least(high: u64, count: usize) -> u64
    ensures { result ≡ least high count }
{
    high.saturating_sub((count as u64).saturating_sub(1))
}

/// Appends the bounds of a range.
fn push_between(text: &mut Vec<u8>, left: u64, right: u64) -> Result<(), NoMemory>
    ensures { OnOk result (text.new.items ≡ text.old.items ++ range_between left right) }
{
    push_piece(text, b"[")?;
    push_number(text, left)?;
    push_piece(text, b":")?;
    push_number(text, right)?;
    push_piece(text, b"] ")
}

/// Appends the bounds of a vector's bits.
pub(crate) fn push_bounds(
    text: &mut Vec<u8>,
    high: Option<u64>,
    count: usize,
    rises: bool,
) -> Result<(), NoMemory>
    ensures { OnOk result (text.new.items ≡ text.old.items ++ bounds high count rises) }
{
    match high {
        Some(high) => {
            if rises {
                push_between(text, least(high, count), high)
            } else {
                push_between(text, high, least(high, count))
            }
        }
        None => Ok(()),
    }
}

/// Appends a port, and the variable of the same name.
pub(crate) fn push_connection(text: &mut Vec<u8>, base: &[u8]) -> Result<(), NoMemory>
    ensures { OnOk result (text.new.items ≡ text.old.items ++ connection base.now) }
{
    push_piece(text, b".")?;
    push_word(text, base)?;
    push_piece(text, b"(")?;
    push_word(text, base)?;
    push_piece(text, b")")
}
