//! The variables of a waveform.
ghost use Rattle.std.specs.Prelude.{◌≡◌, ◌++◌, length, map, slice_get, OnOk};
ghost use Rattle.std.specs.List.{flat_map, range_with_len};
ghost use Rattle.bs_inspect_view.specs.Signals.{signal_in};
ghost use Rattle.bs_inspect_view.specs.View.{declarations, path_before, range_words, reference, scoped, variable_at, variable_line, variables};
ghost use Rattle.bs_wave.specs.WaveText.{id_of};

use crate::recorded::push_opening_lines;
use crate::scopes::{leaf_of, path_of, push_moves, push_scopes, word_of};
use crate::signal::Signal;
use bs_bits::{NoMemory, push_line, push_number, push_piece};
use bs_net_names::push_range;

/// Appends the id of a signal: its number in base 94, the lowest digit first.
#[tactic(auto, using(crate::proofs::IdLemmas::last))]
pub(crate) fn push_id(text: &mut Vec<u8>, number: usize) -> Result<(), NoMemory>
    ensures { OnOk result (text.new.items ≡ text.old.items ++ id_of number) }
{
    let mut left = number;
    'digits: while left >= 94 {
        text.push(b'!' + (left % 94) as u8)?;
        left /= 94;
    }
    text.push(b'!' + left as u8)?;
    Ok(())
}

/// Appends the numbers of a vector's bits.
fn push_range_words(text: &mut Vec<u8>, signal: &Signal<'_>) -> Result<(), NoMemory>
    ensures { OnOk result (text.new.items ≡ text.old.items ++ range_words signal.now.high (length signal.now.places)) }
{
    match signal.high {
        Some(high) => {
            push_piece(text, b" ")?;
            push_range(text, high, signal.places.len())
        }
        None => Ok(()),
    }
}

/// Appends the name of a signal in its scope.
fn push_reference(text: &mut Vec<u8>, signal: &Signal<'_>) -> Result<(), NoMemory>
    ensures { OnOk result (text.new.items ≡ text.old.items ++ reference (signal_in signal.now)) }
{
    push_piece(text, word_of(leaf_of(signal.base)))?;
    push_range_words(text, signal)
}

/// Appends the variable of a signal.
fn push_variable(text: &mut Vec<u8>, number: usize, signal: &Signal<'_>) -> Result<(), NoMemory>
    ensures { OnOk result (text.new.items ≡ text.old.items ++ variable_line number (signal_in signal.now)) }
{
    push_piece(text, b"$var wire ")?;
    push_number(text, signal.places.len() as u64)?;
    push_piece(text, b" ")?;
    push_id(text, number)?;
    push_piece(text, b" ")?;
    push_reference(text, signal)?;
    push_line(text, b" $end")
}

/// Appends the variable of a signal in its scopes, where those of a path are open.
fn push_scoped(
    text: &mut Vec<u8>,
    path: &[u8],
    number: usize,
    signal: &Signal<'_>,
) -> Result<(), NoMemory>
    ensures { OnOk result (text.new.items ≡ text.old.items ++ scoped path.now number (signal_in signal.now)) }
{
    push_moves(text, path, path_of(signal.base))?;
    push_variable(text, number, signal)
}

/// The path of the signal before a place.
#[tactic(auto, using(crate::proofs::PlaceLemmas::path_there, crate::proofs::PlaceLemmas::path_past))]
fn path_before<'a>(signals: &[Signal<'a>], place: usize) -> &'a [u8]
    ensures { result.now ≡ path_before (map signal_in signals.now) place }
{
    if place == 0 {
        return b"";
    }
    match signals.get(place - 1) {
        Some(signal) => path_of(signal.base),
        None => b"",
    }
}

/// Appends the variables of signals, and leaves the scopes of the last one open.
fn push_open(text: &mut Vec<u8>, signals: &[Signal<'_>]) -> Result<(), NoMemory>
    ensures { OnOk result (text.new.items ≡ text.old.items ++ flat_map (λ i. variable_at (map signal_in signals.now) i (slice_get (map signal_in signals.now) i)) (range_with_len 0 (length signals.now))) }
{
    'signals: for i in 0..signals.len() {
        push_scoped(text, path_before(signals, i), i, &signals[i])?;
    }
    Ok(())
}

/// Appends the variables of signals.
#[tactic(auto, using(crate::proofs::PlaceLemmas::all_variables))]
fn push_variables(text: &mut Vec<u8>, signals: &[Signal<'_>]) -> Result<(), NoMemory>
    ensures { OnOk result (text.new.items ≡ text.old.items ++ variables (map signal_in signals.now)) }
{
    push_open(text, signals)?;
    push_scopes(text, false, path_before(signals, signals.len()))
}

/// Appends the lines before the first moment.
pub(crate) fn push_head(
    text: &mut Vec<u8>,
    remarks: &[u8],
    signals: &[Signal<'_>],
) -> Result<(), NoMemory>
    ensures { OnOk result (text.new.items ≡ text.old.items ++ declarations remarks.now (map signal_in signals.now)) }
{
    push_line(text, b"$timescale 1ns $end")?;
    push_piece(text, remarks)?;
    push_opening_lines(text)?;
    push_variables(text, signals)?;
    push_line(text, b"$upscope $end")?;
    push_line(text, b"$enddefinitions $end")?;
    Ok(())
}
