//! The values of signals.
ghost use Rattle.std.specs.Prelude.{◌≡◌, ◌++◌, map, not, OnOk, IfOk, option_map, slice_get};
ghost use Rattle.std.specs.List.{list_any};
ghost use Rattle.bs_inspect_view.specs.Signals.{signal_in};
ghost use Rattle.bs_inspect_view.specs.View.{change_text, changes, has_changed, signal_values, value_line, values_text};
ghost use Rattle.bs_wave.specs.Wave.{value_at};
ghost use Rattle.bs_wave.specs.WaveText.{id_of, same_value, value_code};

use crate::head::push_id;
use crate::signal::Signal;
use bs_bits::{NoMemory, end_line, push_piece};
use bs_wave::{Value, is_same, value_code};
use std::alloc::Global;

/// The value of a net at a moment, which is unknown where the moment has none.
fn value_at(values: &[Value], place: usize) -> Value
    ensures { result ≡ value_at values.now place }
{
    if place < values.len() {
        values[place]
    } else {
        Value::Unknown
    }
}

/// The values of the bits of a signal, the greatest bit first.
#[tactic(auto, using(crate::proofs::ValueLemmas::values_more))]
fn signal_values(alloc: Global, values: &[Value], places: &[u32]) -> Result<Vec<Value>, NoMemory>
    ensures { IfOk result (λ own. own.items ≡ signal_values values.now places.now) }
{
    let mut own = Vec::new(alloc);
    'places: for place in places {
        own.push(value_at(values, *place as usize))?;
    }
    Ok(own)
}

/// Whether one of the bits of a signal has another value than before.
fn differs(before: &[Value], now: &[Value], places: &[u32]) -> bool
    ensures { result ≡ list_any (λ p. not (same_value (value_at before.now p) (value_at now.now p))) places.now }
{
    places.iter().any(|place| !is_same(
        value_at(before, *place as usize),
        value_at(now, *place as usize),
    ))
}

/// Whether a signal has another value than before, where there is a before.
fn has_changed(before: Option<&[Value]>, now: &[Value], places: &[u32]) -> bool
    ensures { result ≡ has_changed (option_map (λ b. b.now) before.entry) now.now places.now }
{
    match before {
        Some(before) => differs(before, now, places),
        None => true,
    }
}

/// Appends the characters of values.
#[tactic(auto, using(crate::proofs::ValueLemmas::codes_more))]
fn push_codes(text: &mut Vec<u8>, values: &[Value]) -> Result<(), NoMemory>
    ensures { OnOk result (text.new.items ≡ text.old.items ++ map value_code values.now) }
{
    'values: for value in values {
        text.push(value_code(*value))?;
    }
    Ok(())
}

/// Appends the value of a signal.
fn push_values(text: &mut Vec<u8>, values: &[Value]) -> Result<(), NoMemory>
    ensures { OnOk result (text.new.items ≡ text.old.items ++ values_text values.now) }
{
    match values {
        [value] => {
            text.push(value_code(*value))?;
            Ok(())
        }
        _ => {
            push_piece(text, b"b")?;
            push_codes(text, values)?;
            push_piece(text, b" ")
        }
    }
}

/// Appends the line of a signal's value.
fn push_value_line(text: &mut Vec<u8>, number: usize, values: &[Value]) -> Result<(), NoMemory>
    ensures { OnOk result (text.new.items ≡ text.old.items ++ value_line number values.now) }
{
    push_values(text, values)?;
    push_id(text, number)?;
    end_line(text)
}

/// Appends the line of a signal's value at a moment.
fn push_signal(
    text: &mut Vec<u8>,
    now: &[Value],
    number: usize,
    places: &[u32],
) -> Result<(), NoMemory>
    ensures { OnOk result (text.new.items ≡ text.old.items ++ value_line number (signal_values now.now places.now)) }
{
    let values = signal_values(*text.allocator(), now, places)?;
    push_value_line(text, number, values.as_slice())
}

/// Appends the line of a signal's value, where it has changed.
fn push_change(
    text: &mut Vec<u8>,
    before: Option<&[Value]>,
    now: &[Value],
    number: usize,
    signal: &Signal<'_>,
) -> Result<(), NoMemory>
    ensures { OnOk result (text.new.items ≡ text.old.items ++ change_text (option_map (λ b. b.now) before.entry) now.now number (signal_in signal.now)) }
{
    if has_changed(before, now, signal.places.slice()) {
        push_signal(text, now, number, signal.places.slice())
    } else {
        Ok(())
    }
}

/// Appends the lines of the signals that have changed.
#[tactic(auto, using(crate::proofs::PlaceLemmas::change_step, crate::proofs::PlaceLemmas::all_changes))]
pub(crate) fn push_changes(
    text: &mut Vec<u8>,
    signals: &[Signal<'_>],
    before: Option<&[Value]>,
    now: &[Value],
) -> Result<(), NoMemory>
    ensures { OnOk result (text.new.items ≡ text.old.items ++ changes (map signal_in signals.now) (option_map (λ b. b.now) before.entry) now.now) }
{
    'signals: for i in 0..signals.len() {
        push_change(text, before, now, i, &signals[i])?;
    }
    Ok(())
}
