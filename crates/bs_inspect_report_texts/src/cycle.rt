//! The cycles of a test bench.
ghost use Rattle.std.specs.Prelude.{◌≡◌, ◌<◌, ◌++◌, Some, length, map, not, reverse, slice_get, slice_index_or, OnOk, option_map};
ghost use Rattle.std.specs.Bool.{beq};
ghost use Rattle.std.specs.List.{flat_map, list_any};
ghost use Rattle.bs_net_names.specs.Keys.{parts_in};
ghost use Rattle.bs_inspect_view.specs.Signals.{signal_in};
ghost use Rattle.bs_bits.specs.Text.{digit_of};
ghost use Rattle.bs_inspect_report.specs.Signal.{bit_at, has_changed};
ghost use Rattle.bs_inspect_report_texts.specs.Text.{assignment, change, cycle_at, cycle_line, cycle_lines, cycle_of, digits, edges, input_before, port_places};

use crate::port::{is_rising, push_word};
use bs_bits::{Bits, List, NoMemory, end_line, push_number, push_piece};
use bs_inspect_report::{bit_at, member};
use bs_inspect_view::Signal;
use bs_net_names::KeyParts;

/// The character of a bit.
fn digit_of(bit: bool) -> u8
    ensures { result ≡ digit_of bit }
{
    if bit { b'1' } else { b'0' }
}

/// Appends the bits of an input at places.
#[tactic(auto, using(crate::proofs::TextLemmas::digits_more))]
fn push_digits(text: &mut Vec<u8>, input: &Bits, places: &[u32]) -> Result<(), NoMemory>
    ensures { OnOk result (text.new.items ≡ text.old.items ++ digits input.now places.now) }
{
    'places: for place in places {
        text.push(digit_of(bit_at(input, *place as usize)))?;
    }
    Ok(())
}

/// The place at a number, counted from the last one on.
#[tactic(auto, using(crate::proofs::TextLemmas::turned))]
fn from_end(places: &[u32], i: usize) -> u32
    requires { i < length places.now }
    ensures { result ≡ slice_index_or (reverse places.now) i 0 }
{
    places[places.len() - 1 - i]
}

/// Appends the bits of an input at places, the last one first.
#[tactic(auto, using(crate::proofs::TextLemmas::reversed_more, crate::proofs::TextLemmas::reversed_all))]
fn push_reversed(text: &mut Vec<u8>, input: &Bits, places: &[u32]) -> Result<(), NoMemory>
    ensures { OnOk result (text.new.items ≡ text.old.items ++ digits input.now (reverse places.now)) }
{
    'places: for i in 0..places.len() {
        text.push(digit_of(bit_at(input, from_end(places, i) as usize)))?;
    }
    Ok(())
}

/// Appends the bits of an input at a port, from left to right.
fn push_value(text: &mut Vec<u8>, input: &Bits, signal: &Signal<'_>) -> Result<(), NoMemory>
    ensures { OnOk result (text.new.items ≡ text.old.items ++ digits input.now (port_places (signal_in signal.now))) }
{
    if is_rising(signal) {
        push_reversed(text, input, signal.places.slice())
    } else {
        push_digits(text, input, signal.places.slice())
    }
}

/// Appends the assignment of a port.
fn push_assignment(text: &mut Vec<u8>, input: &Bits, signal: &Signal<'_>) -> Result<(), NoMemory>
    ensures { OnOk result (text.new.items ≡ text.old.items ++ assignment input.now (signal_in signal.now)) }
{
    push_piece(text, b" ")?;
    push_word(text, signal.base)?;
    push_piece(text, b" = ")?;
    push_number(text, signal.places.len() as u64)?;
    push_piece(text, b"'b")?;
    push_value(text, input, signal)?;
    push_piece(text, b";")
}

/// Whether one of the bits at places is another one than before.
fn differs(before: &Bits, now: &Bits, places: &[u32]) -> bool
    ensures { result ≡ list_any (λ p. not (beq (bit_at before.now p) (bit_at now.now p))) places.now }
{
    places.iter().any(|place| bit_at(before, *place as usize) != bit_at(now, *place as usize))
}

/// Whether the bits at places are others than before, where there is a before.
fn has_changed(before: Option<&Bits>, now: &Bits, places: &[u32]) -> bool
    ensures { result ≡ has_changed (option_map (λ b. b.now) before.entry) now.now places.now }
{
    match before {
        Some(before) => differs(before, now, places),
        None => true,
    }
}

/// Appends the assignment of a port, where its value is another one than before.
fn push_change(
    text: &mut Vec<u8>,
    before: Option<&Bits>,
    now: &Bits,
    signal: &Signal<'_>,
) -> Result<(), NoMemory>
    ensures { OnOk result (text.new.items ≡ text.old.items ++ change (option_map (λ b. b.now) before.entry) now.now (signal_in signal.now)) }
{
    if has_changed(before, now, signal.places.slice()) {
        push_assignment(text, now, signal)
    } else {
        Ok(())
    }
}

/// Appends the assignments of ports whose values are others than before.
#[tactic(auto, using(crate::proofs::TextLemmas::changes_more))]
fn push_changes(
    text: &mut Vec<u8>,
    before: Option<&Bits>,
    now: &Bits,
    signals: &[Signal<'_>],
) -> Result<(), NoMemory>
    ensures { OnOk result (text.new.items ≡ text.old.items ++ flat_map (change (option_map (λ b. b.now) before.entry) now.now) (map signal_in signals.now)) }
{
    'signals: for signal in signals {
        push_change(text, before, now, signal)?;
    }
    Ok(())
}

/// Appends the edges of the clock.
fn push_edges(text: &mut Vec<u8>, clock: KeyParts<'_>) -> Result<(), NoMemory>
    ensures { OnOk result (text.new.items ≡ text.old.items ++ edges (parts_in clock.entry)) }
{
    push_piece(text, b" #5 ")?;
    push_word(text, clock.base)?;
    push_piece(text, b" = 1; #5 ")?;
    push_word(text, clock.base)?;
    push_piece(text, b" = 0;")
}

/// Appends a cycle.
fn push_cycle(
    text: &mut Vec<u8>,
    clock: KeyParts<'_>,
    signals: &[Signal<'_>],
    i: usize,
    before: Option<&Bits>,
    now: &Bits,
) -> Result<(), NoMemory>
    ensures { OnOk result (text.new.items ≡ text.old.items ++ cycle_line (parts_in clock.entry) (map signal_in signals.now) i (option_map (λ b. b.now) before.entry) now.now) }
{
    push_piece(text, b"    /* ")?;
    push_number(text, i as u64)?;
    push_piece(text, b" */")?;
    push_changes(text, before, now, signals)?;
    push_edges(text, clock)?;
    end_line(text)
}

/// The input of the cycle before, which the first has none of.
fn input_before(inputs: &List<Bits>, i: usize) -> Option<&Bits>
    ensures { option_map (λ b. b.now) result ≡ input_before inputs.now i }
{
    if i == 0 {
        return None;
    }
    member(inputs, i - 1)
}

/// Appends the cycle at a place.
fn push_cycle_at(
    text: &mut Vec<u8>,
    clock: KeyParts<'_>,
    signals: &[Signal<'_>],
    inputs: &List<Bits>,
    i: usize,
) -> Result<(), NoMemory>
    ensures { OnOk result (text.new.items ≡ text.old.items ++ cycle_at (parts_in clock.entry) (map signal_in signals.now) inputs.now i) }
{
    match member(inputs, i) {
        Some(now) => push_cycle(text, clock, signals, i, input_before(inputs, i), now),
        None => Ok(()),
    }
}

/// Appends the cycles of inputs.
#[tactic(auto, using(bs_bits::proofs::RangeLemmas::places_step))]
pub(crate) fn push_cycles(
    text: &mut Vec<u8>,
    clock: KeyParts<'_>,
    signals: &[Signal<'_>],
    inputs: &List<Bits>,
) -> Result<(), NoMemory>
    ensures { OnOk result (text.new.items ≡ text.old.items ++ cycle_lines (parts_in clock.entry) (map signal_in signals.now) inputs.now) }
{
    'cycles: for i in 0..inputs.len() {
        push_cycle_at(text, clock, signals, inputs, i)?;
    }
    Ok(())
}
