//! Signals in the order of their last change.
ghost use Rattle.std.specs.Prelude.{◌≡◌, length, map, IfOk, slice_index_or};
ghost use Rattle.std.specs.List.Sorted.{IsPermutation, IsSorted};
ghost use Rattle.bs_inspect_view.specs.Signals.{signal_in};
ghost use Rattle.bs_inspect_why_words.specs.Rows.{latest, row_cmp, rows_of};

use bs_bits::NoMemory;
use bs_inspect_view::Signal;
use std::alloc::Global;
use std::cmp::Reverse;

/// The place of a signal, and since when all its bits have stood.
#[derive(Clone, Copy)]
pub struct Row {
    pub place: usize,
    pub since: u32,
}

/// The cycle at a place, and 0 past the end.
#[tactic(auto, using(crate::proofs::RowLemmas::age_there, crate::proofs::RowLemmas::age_past))]
fn age_at(ages: &[u32], place: u32) -> u32
    ensures { result ≡ slice_index_or ages.now place 0 }
{
    if (place as usize) < ages.len() {
        ages[place as usize]
    } else {
        0
    }
}

/// The latest of the cycles at some places.
#[tactic(auto, using(crate::proofs::RowLemmas::latest_more))]
fn latest(ages: &[u32], places: &[u32]) -> u32
    ensures { result ≡ latest ages.now places.now }
{
    let mut cycle = 0;
    'places: for place in places {
        cycle = cycle.max(age_at(ages, *place));
    }
    cycle
}

/// The signals with their last changes.
pub(crate) fn rows_of(
    alloc: Global,
    ages: &[u32],
    signals: &[Signal<'_>],
) -> Result<Vec<Row>, NoMemory>
    ensures { IfOk result (λ rows. rows.items ≡ rows_of ages.now (map signal_in signals.now) (length signals.now)) }
{
    let mut rows = Vec::new(alloc);
    'signals: for i in 0..signals.len() {
        rows.push(Row {
            place: i,
            since: latest(ages, signals[i].places.slice()),
        })?;
    }
    Ok(rows)
}

/// Rows in order.
pub(crate) fn ordered(rows: Vec<Row>) -> Result<Vec<Row>, NoMemory>
    ensures same { IfOk result (λ ordered. IsPermutation rows.items ordered.items) }
    ensures sorted { IfOk result (λ ordered. IsSorted row_cmp ordered.items) }
{
    let mut rows = rows;
    rows.sort_by_key(|r| (Reverse(r.since), r.place))?;
    Ok(rows)
}
