//! The lines of signals at a cycle.
ghost use Rattle.std.specs.Prelude.{◌≡◌, ◌<◌, ◌^◌, ◌++◌, length, map, not, All, IfOk, OnOk, option_map};
ghost use Rattle.std.specs.Bool.{beq};
ghost use Rattle.std.specs.List.{list_any};
ghost use Rattle.bs_inspect_view.specs.Signals.{signal_in};
ghost use Rattle.bs_inspect_view.specs.Values.{value_text};
ghost use Rattle.bs_inspect_report.specs.Signal.{bit_at, has_changed, is_open, open_text, seen_value, signal_bits, signal_line, signal_piece, signals_lines};

use bs_bits::{Bits, NoMemory, end_line, push_number, push_piece};
use bs_inspect_view::{Signal, push_name, push_value};
use bs_scan::push_seen_text;
use std::alloc::Global;

/// The bit at a place of a state or an input; 0 past its end.
pub fn bit_at(bits: &Bits, place: usize) -> bool
    ensures { result ≡ bit_at bits.now place }
{
    if place < bits.len() {
        bits.get(place)
    } else {
        false
    }
}

/// The bits of a signal, the greatest first.
#[tactic(auto, using(crate::proofs::SignalLemmas::bits_more))]
fn signal_bits(alloc: Global, bits: &Bits, places: &[u32]) -> Result<Vec<bool>, NoMemory>
    ensures { IfOk result (λ own. own.items ≡ signal_bits bits.now places.now) }
{
    let mut own = Vec::new(alloc);
    'places: for place in places {
        own.push(bit_at(bits, *place as usize))?;
    }
    Ok(own)
}

/// Whether one of these bits is another one than before.
fn differs(before: &Bits, now: &Bits, places: &[u32]) -> bool
    ensures { result ≡ list_any (λ p. not (beq (bit_at before.now p) (bit_at now.now p))) places.now }
{
    places.iter().any(|place| bit_at(before, *place as usize) != bit_at(now, *place as usize))
}

/// Whether a signal has another value than before, where there is a before.
fn has_changed(before: Option<&Bits>, now: &Bits, places: &[u32]) -> bool
    ensures { result ≡ has_changed (option_map (λ b. b.now) before.entry) now.now places.now }
{
    match before {
        Some(before) => differs(before, now, places),
        None => true,
    }
}

/// Appends the value of a signal.
pub fn push_signal_value(text: &mut Vec<u8>, bits: &Bits, places: &[u32]) -> Result<(), NoMemory>
    requires { length places.now < 2 ^ 32 }
    ensures { OnOk result (text.new.items ≡ text.old.items ++ value_text (signal_bits bits.now places.now)) }
{
    let own = signal_bits(*text.allocator(), bits, places)?;
    push_value(text, own.as_slice())
}

/// The bits of a signal as a list, the greatest first.
#[tactic(auto, using(crate::proofs::SignalLemmas::row_more))]
fn signal_row(alloc: Global, bits: &Bits, places: &[u32]) -> Result<Bits, NoMemory>
    ensures { IfOk result (λ own. own ≡ signal_bits bits.now places.now) }
{
    let mut own = Bits::new(alloc);
    'places: for place in places {
        own.push(bit_at(bits, *place as usize))?;
    }
    Ok(own)
}

/// Whether one of the bits of a signal is not known, where these are not.
fn is_open(free: &Bits, places: &[u32]) -> bool
    ensures { result ≡ is_open free.now places.now }
{
    places.iter().any(|place| bit_at(free, *place as usize))
}

/// Appends the value of a signal of which some bits are not known.
fn push_open(text: &mut Vec<u8>, free: &Bits, bits: &Bits, places: &[u32]) -> Result<(), NoMemory>
    ensures { OnOk result (text.new.items ≡ text.old.items ++ open_text free.now bits.now places.now) }
{
    let own = signal_row(*text.allocator(), bits, places)?;
    let unknown = signal_row(*text.allocator(), free, places)?;
    if places.len() == 1 {
        return push_seen_text(text, &own, &unknown);
    }
    push_piece(text, b"0b")?;
    push_seen_text(text, &own, &unknown)
}

/// Appends the value of a signal, where some bits may not be known.
pub(crate) fn push_seen_value(
    text: &mut Vec<u8>,
    free: Option<&Bits>,
    bits: &Bits,
    places: &[u32],
) -> Result<(), NoMemory>
    requires { length places.now < 2 ^ 32 }
    ensures { OnOk result (text.new.items ≡ text.old.items ++ seen_value (option_map (λ b. b.now) free.entry) bits.now places.now) }
{
    match free {
        Some(free) => {
            if is_open(free, places) {
                push_open(text, free, bits, places)
            } else {
                push_signal_value(text, bits, places)
            }
        }
        None => push_signal_value(text, bits, places),
    }
}

/// Appends the line of a signal, where some bits may not be known.
pub fn push_signal(
    text: &mut Vec<u8>,
    kind: &[u8],
    cycle: u64,
    free: Option<&Bits>,
    bits: &Bits,
    signal: &Signal<'_>,
) -> Result<(), NoMemory>
    requires { length signal.now.places < 2 ^ 32 }
    ensures { OnOk result (text.new.items ≡ text.old.items ++ signal_line kind.now cycle (option_map (λ b. b.now) free.entry) bits.now (signal_in signal.now)) }
{
    push_number(text, cycle)?;
    push_piece(text, kind)?;
    push_name(text, signal)?;
    push_piece(text, b" = ")?;
    push_seen_value(text, free, bits, signal.places.slice())?;
    end_line(text)
}

/// Appends the line of a signal, where its value is another one than before.
fn push_changed(
    text: &mut Vec<u8>,
    kind: &[u8],
    cycle: u64,
    free: Option<&Bits>,
    before: Option<&Bits>,
    now: &Bits,
    signal: &Signal<'_>,
) -> Result<(), NoMemory>
    requires { length signal.now.places < 2 ^ 32 }
    ensures { OnOk result (text.new.items ≡ text.old.items ++ signal_piece kind.now cycle (option_map (λ b. b.now) free.entry) (option_map (λ b. b.now) before.entry) now.now (signal_in signal.now)) }
{
    if has_changed(before, now, signal.places.slice()) {
        push_signal(text, kind, cycle, free, now, signal)
    } else {
        Ok(())
    }
}

/// Appends the lines of the signals whose values are others than before.
#[tactic(auto, using(crate::proofs::SignalLemmas::signals_more))]
pub(crate) fn push_signals(
    text: &mut Vec<u8>,
    kind: &[u8],
    cycle: u64,
    free: Option<&Bits>,
    before: Option<&Bits>,
    now: &Bits,
    signals: &[Signal<'_>],
) -> Result<(), NoMemory>
    requires { All (λ s. length s.places < 2 ^ 32) signals.now }
    ensures { OnOk result (text.new.items ≡ text.old.items ++ signals_lines kind.now cycle (option_map (λ b. b.now) free.entry) (option_map (λ b. b.now) before.entry) now.now (map signal_in signals.now)) }
{
    'signals: for signal in signals {
        push_changed(text, kind, cycle, free, before, now, signal)?;
    }
    Ok(())
}
