//! The signals that some VCD does not have.
ghost use Rattle.std.specs.Prelude.{◌≡◌, ◌++◌, length, map, filter, take, not, IfOk, OnOk};
ghost use Rattle.std.specs.List.{flat_map, list_any};
ghost use Rattle.bs_inspect_view.specs.Signals.{signal_in};
ghost use Rattle.bs_inspect_check.specs.declared.lines.TheConstants.{MAX_LINES};
ghost use Rattle.bs_inspect_check.specs.Text.{is_missing, missing_line, missing_text, signal_missing, told_piece};

use crate::comparison::Comparison;
use crate::lines::{MAX_LINES, push_more};
use crate::tally::one_if;
use bs_bits::{NoMemory, end_line, push_piece};
use bs_inspect_report::bit_at;
use bs_inspect_view::{Signal, push_rtl_name};

/// Whether some VCD does not have the flip-flop at a place.
fn is_missing(comparisons: &[Comparison], place: u32) -> bool
    ensures { result ≡ is_missing comparisons.now place }
{
    comparisons.iter().any(|comparison| !bit_at(&comparison.flops.found, place as usize))
}

/// Whether some VCD does not have a bit of a signal.
fn signal_missing(comparisons: &[Comparison], signal: &Signal<'_>) -> bool
    ensures { result ≡ signal_missing comparisons.now (signal_in signal.now) }
{
    let places = signal.places.slice();
    places.iter().any(|place| is_missing(comparisons, *place))
}

/// Appends the line of a signal that is missing.
fn push_missing(text: &mut Vec<u8>, signal: &Signal<'_>) -> Result<(), NoMemory>
    ensures { OnOk result (text.new.items ≡ text.old.items ++ missing_line (signal_in signal.now)) }
{
    push_piece(text, b"missing ")?;
    push_rtl_name(text, signal)?;
    end_line(text)
}

/// Appends the line of a signal, where it is missing and few are told before it.
fn push_told(
    text: &mut Vec<u8>,
    signal: &Signal<'_>,
    missing: bool,
    told: usize,
) -> Result<(), NoMemory>
    ensures { OnOk result (text.new.items ≡ text.old.items ++ told_piece missing_line missing told (signal_in signal.now)) }
{
    if missing && told < MAX_LINES {
        push_missing(text, signal)
    } else {
        Ok(())
    }
}

/// Appends the lines of the first signals that are missing, and answers how many are.
#[tactic(auto, using(crate::proofs::ToldLemmas::told_more, crate::proofs::ToldLemmas::count_more, crate::proofs::ToldLemmas::told_all, crate::proofs::ToldLemmas::count_all))]
fn push_first(
    text: &mut Vec<u8>,
    signals: &[Signal<'_>],
    comparisons: &[Comparison],
) -> Result<usize, NoMemory>
    ensures count { IfOk result (λ count. count ≡ length (filter (signal_missing comparisons.now) (map signal_in signals.now))) }
    ensures text { OnOk result (text.new.items ≡ text.old.items ++ flat_map missing_line (take MAX_LINES (filter (signal_missing comparisons.now) (map signal_in signals.now)))) }
{
    let mut told = 0usize;
    'signals: for i in 0..signals.len() {
        let signal = &signals[i];
        let missing = signal_missing(comparisons, signal);
        push_told(text, signal, missing, told)?;
        told += one_if(missing);
    }
    Ok(told)
}

/// Appends what some VCD does not have.
pub(crate) fn push_all_missing(
    text: &mut Vec<u8>,
    signals: &[Signal<'_>],
    comparisons: &[Comparison],
) -> Result<(), NoMemory>
    ensures { OnOk result (text.new.items ≡ text.old.items ++ missing_text (map signal_in signals.now) comparisons.now) }
{
    let count = push_first(text, signals, comparisons)?;
    push_more(text, count)
}
