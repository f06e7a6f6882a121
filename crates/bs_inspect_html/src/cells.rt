//! The cells of a signal: where one begins and ends.
ghost use Rattle.std.specs.Prelude.{◌≡◌, ◌<◌, ◌≤◌, ◌+◌, ◌^◌, length, slice_index_or, false, IfOk};
ghost use Rattle.bs_inspect_html.specs.Cells.{begins, bit_of, bits_at, end_of, is_lively, is_open, is_other, is_signed, next_begin, same_bits, same_shown};
ghost use Rattle.bs_inspect_html.specs.Figures.{figure_in};

use crate::figure::Figure;
use bs_bits::{Bits, List, NoMemory};
use std::alloc::Global;

/// The bit at a place; 0 behind the last one.
fn bit_at(bits: &Bits, place: usize) -> bool
    ensures { result ≡ slice_index_or bits.now place false }
{
    if place < bits.len() {
        bits.get(place)
    } else {
        false
    }
}

/// A bit of a moment; 0 behind the last moment.
#[tactic(auto, using(crate::proofs::BitLemmas::bit_there, crate::proofs::BitLemmas::bit_past))]
fn bit_of(moments: &List<Bits>, i: usize, place: usize) -> bool
    ensures { result ≡ bit_of moments.now i place }
{
    if i < moments.len() {
        bit_at(moments.get(i), place)
    } else {
        false
    }
}

/// The bits of a signal at a moment, the greatest first.
#[tactic(auto, using(crate::proofs::BitLemmas::bits_more))]
pub fn bits_at(
    alloc: Global,
    figure: Figure<'_>,
    places: &[u32],
    i: usize,
) -> Result<Vec<bool>, NoMemory>
    ensures { IfOk result (λ bits. bits.items ≡ bits_at (figure_in figure.entry) places.now i) }
{
    let mut bits = Vec::new(alloc);
    'places: for place in places {
        bits.push(bit_of(figure.moments, i, *place as usize))?;
    }
    Ok(bits)
}

/// Whether a bit of a signal is open at a moment.
pub fn is_open(figure: Figure<'_>, places: &[u32], i: usize) -> bool
    ensures { result ≡ is_open (figure_in figure.entry) places.now i }
{
    places
        .iter()
        .any(|place| bit_of(figure.opens, i, *place as usize))
}

/// Whether one of a signal's places is read.
pub(crate) fn is_signed(signed: &Bits, places: &[u32]) -> bool
    ensures { result ≡ is_signed signed.now places.now }
{
    places.iter().any(|place| bit_at(signed, *place as usize))
}

/// Whether a signal has the same bits at two moments.
fn same_bits(figure: Figure<'_>, places: &[u32], i: usize, j: usize) -> bool
    ensures { result ≡ same_bits (figure_in figure.entry) places.now i j }
{
    places.iter().all(|place| bit_of(figure.moments, i, *place as usize)
        == bit_of(figure.moments, j, *place as usize))
}

/// Whether the same is shown at two moments.
fn same_shown(figure: Figure<'_>, places: &[u32], i: usize, j: usize) -> bool
    ensures { result ≡ same_shown (figure_in figure.entry) places.now i j }
{
    let same = same_bits(figure, places, i, j);
    let one = is_open(figure, places, i);
    let other = is_open(figure, places, j);
    same && one == other
}

/// Whether a cell begins at a moment.
pub fn begins(figure: Figure<'_>, places: &[u32], i: usize) -> bool
    ensures { result ≡ begins (figure_in figure.entry) places.now i }
{
    if i == 0 {
        return true;
    }
    if i % 1000 == 0 {
        return true;
    }
    !same_shown(figure, places, i - 1, i)
}

/// The moment of the next cell, if there is one.
fn next_begin(figure: Figure<'_>, places: &[u32], i: usize) -> Option<usize>
    requires there { i < length figure.moments.now }
    requires small { i + 1 < 2 ^ 64 }
    ensures { result ≡ next_begin (figure_in figure.entry) places.now i }
{
    (i + 1..figure.moments.len()).find(|j| begins(figure, places, *j))
}

/// The moment behind the cell that begins at this one.
pub fn end_of(figure: Figure<'_>, places: &[u32], i: usize) -> usize
    requires there { i < length figure.moments.now }
    requires small { i + 1 < 2 ^ 64 }
    ensures { result ≡ end_of (figure_in figure.entry) places.now i }
{
    next_begin(figure, places, i).unwrap_or(figure.moments.len())
}

/// Whether a signal is open at a moment, or has another value than at first.
fn is_other(figure: Figure<'_>, places: &[u32], i: usize) -> bool
    ensures { result ≡ is_other (figure_in figure.entry) places.now i }
{
    let open = is_open(figure, places, i);
    let same = same_bits(figure, places, 0, i);
    open || !same
}

/// Whether a signal is open or has another value than at first at some moment.
#[tactic(auto, unfolding(crate::specs::Cells::is_lively))]
pub fn is_lively(figure: Figure<'_>, places: &[u32]) -> bool
    ensures { result ≡ is_lively (figure_in figure.entry) places.now }
{
    (0..figure.moments.len()).any(|i| is_other(figure, places, i))
}
