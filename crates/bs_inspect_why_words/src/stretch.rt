//! Facts that stand behind one another and are of one cycle.
ghost use Rattle.std.specs.Prelude.{◌≡◌, ◌<◌, ◌++◌, length, IfOk, OnOk, slice_index_or};
ghost use Rattle.bs_inspect_why_words.specs.Stretches.{cut, cycle_at, is_start, start_at, starts, stretch_back};

use bs_bits::NoMemory;
use bs_net_facts::Fact;
use std::alloc::Global;

/// The cycle of the fact at a place.
#[tactic(auto, using(crate::proofs::StretchLemmas::cycle_is))]
fn cycle_at(facts: &[Fact], place: usize) -> u32
    requires { place < length facts.now }
    ensures { result ≡ cycle_at facts.now place }
{
    facts[place].cycle
}

/// Whether a stretch begins at a place.
fn is_start(facts: &[Fact], place: usize) -> bool
    requires { place < length facts.now }
    ensures { result ≡ is_start facts.now place }
{
    place == 0 || cycle_at(facts, place) != cycle_at(facts, place - 1)
}

/// Puts a place at the end where a stretch begins.
fn put_start(begins: &mut Vec<usize>, facts: &[Fact], place: usize) -> Result<(), NoMemory>
    requires { place < length facts.now }
    ensures { OnOk result (begins.new.items ≡ begins.old.items ++ start_at facts.now place) }
{
    if is_start(facts, place) {
        begins.push(place)?;
    }
    Ok(())
}

/// Where stretches begin.
#[tactic(auto, using(bs_bits::proofs::RangeLemmas::places_more))]
pub(crate) fn starts(alloc: Global, facts: &[Fact]) -> Result<Vec<usize>, NoMemory>
    ensures { IfOk result (λ begins. begins.items ≡ starts facts.now) }
{
    let mut begins = Vec::new(alloc);
    'facts: for i in 0..facts.len() {
        put_start(&mut begins, facts, i)?;
    }
    Ok(begins)
}

/// The facts from a place up to another.
fn cut(from: usize, to: usize, facts: &[Fact]) -> &[Fact]
    ensures { result.now ≡ cut from to facts.now }
{
    if from <= to && to <= facts.len() {
        &facts[from..to]
    } else {
        &[]
    }
}

/// The number at a place, or another one past the end.
#[tactic(auto, using(crate::proofs::StretchLemmas::number_there, crate::proofs::StretchLemmas::number_past))]
fn number_at(numbers: &[usize], place: usize, other: usize) -> usize
    ensures { result ≡ slice_index_or numbers.now place other }
{
    if place < numbers.len() {
        numbers[place]
    } else {
        other
    }
}

/// The stretch with a number from the end.
pub(crate) fn stretch_back<'a>(facts: &'a [Fact], begins: &[usize], number: usize) -> &'a [Fact]
    requires { number < length begins.now }
    ensures { result.now ≡ stretch_back facts.now begins.now number }
{
    let place = begins.len() - (number + 1);
    cut(
        number_at(begins, place, 0),
        number_at(begins, place + 1, facts.len()),
        facts,
    )
}
