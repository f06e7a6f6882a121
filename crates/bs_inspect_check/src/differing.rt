//! The signals that differ: flip-flops or data inputs.
ghost use Rattle.std.specs.Prelude.{◌≡◌, ◌<◌, ◌^◌, ◌++◌, length, map, filter, take, All, IfOk, OnOk};
ghost use Rattle.std.specs.List.{flat_map, list_any};
ghost use Rattle.bs_inspect_view.specs.Signals.{signal_in};
ghost use Rattle.bs_inspect_check.specs.Flops.{differs_at};
ghost use Rattle.bs_inspect_check.specs.declared.lines.TheConstants.{MAX_LINES};
ghost use Rattle.bs_inspect_check.specs.Text.{difference_line, difference_text, signal_differs, told_piece};

use crate::level::is_other;
use crate::levels::{level_at, push_levels};
use crate::lines::{MAX_LINES, push_more};
use crate::tally::{CycleEnd, one_if};
use bs_bits::{NoMemory, end_line, push_piece};
use bs_inspect_report::{bit_at, push_signal_value};
use bs_inspect_view::{Signal, push_rtl_name};

/// Whether the bit of the flip-flop at a place differs.
fn differs_at(end: &CycleEnd, place: u32) -> bool
    ensures { result ≡ differs_at end.now.state end.now.levels place }
{
    is_other(
        bit_at(&end.state, place as usize),
        level_at(&end.levels, place),
    )
}

/// Whether some bit of a signal differs.
fn signal_differs(end: &CycleEnd, signal: &Signal<'_>) -> bool
    ensures { result ≡ signal_differs end.now (signal_in signal.now) }
{
    let places = signal.places.slice();
    places.iter().any(|place| differs_at(end, *place))
}

/// Appends the line of a signal that differs.
fn push_difference(text: &mut Vec<u8>, end: &CycleEnd, signal: &Signal<'_>) -> Result<(), NoMemory>
    requires { length signal.now.places < 2 ^ 32 }
    ensures { OnOk result (text.new.items ≡ text.old.items ++ difference_line end.now (signal_in signal.now)) }
{
    push_rtl_name(text, signal)?;
    push_piece(text, b" run ")?;
    push_signal_value(text, &end.state, signal.places.slice())?;
    push_piece(text, b" vcd ")?;
    push_levels(text, &end.levels, signal.places.slice())?;
    end_line(text)
}

/// Appends the line of a signal, where it differs and few are told before it.
fn push_told(
    text: &mut Vec<u8>,
    end: &CycleEnd,
    signal: &Signal<'_>,
    differs: bool,
    told: usize,
) -> Result<(), NoMemory>
    requires { length signal.now.places < 2 ^ 32 }
    ensures { OnOk result (text.new.items ≡ text.old.items ++ told_piece (difference_line end.now) differs told (signal_in signal.now)) }
{
    if differs && told < MAX_LINES {
        push_difference(text, end, signal)
    } else {
        Ok(())
    }
}

/// Appends the lines of the first signals that differ, and answers how many differ.
#[tactic(auto, using(crate::proofs::ToldLemmas::told_more, crate::proofs::ToldLemmas::count_more, crate::proofs::ToldLemmas::told_all, crate::proofs::ToldLemmas::count_all, crate::proofs::ToldLemmas::narrow_at))]
fn push_first(text: &mut Vec<u8>, end: &CycleEnd, signals: &[Signal<'_>]) -> Result<usize, NoMemory>
    requires { All (λ s. length s.places < 2 ^ 32) signals.now }
    ensures count { IfOk result (λ count. count ≡ length (filter (signal_differs end.now) (map signal_in signals.now))) }
    ensures text { OnOk result (text.new.items ≡ text.old.items ++ flat_map (difference_line end.now) (take MAX_LINES (filter (signal_differs end.now) (map signal_in signals.now)))) }
{
    let mut told = 0usize;
    'signals: for i in 0..signals.len() {
        let signal = &signals[i];
        let differs = signal_differs(end, signal);
        push_told(text, end, signal, differs, told)?;
        told += one_if(differs);
    }
    Ok(told)
}

/// Appends what differs at the end of a cycle.
pub(crate) fn push_differences(
    text: &mut Vec<u8>,
    end: &CycleEnd,
    signals: &[Signal<'_>],
) -> Result<(), NoMemory>
    requires { All (λ s. length s.places < 2 ^ 32) signals.now }
    ensures { OnOk result (text.new.items ≡ text.old.items ++ difference_text (map signal_in signals.now) end.now) }
{
    let count = push_first(text, end, signals)?;
    push_more(text, count)
}
