//! The first cycle at which a run has a value of a signal that no other run ever has.
ghost use Rattle.std.specs.Prelude.{◌≡◌, ◌<◌, ◌+◌, ◌++◌, not, length, map, IfOk, MatchOption, OnOk};
ghost use Rattle.std.specs.List.Sorted.{IsPermutation, IsSorted};
ghost use Rattle.bs_net.specs.Netlist.{circuit};
ghost use Rattle.bs_inspect_view.specs.Signals.{signal_in};
ghost use Rattle.bs_scan.specs.Moments.{is_listed};
ghost use Rattle.bs_stim.specs.Runs.{inputs_of};
ghost use Rattle.bs_inspect_near.specs.Novelties.{AreNovelties, IsNovelty, novelty_cmp, one_or_none};
ghost use Rattle.bs_inspect_near.specs.Values.{value_in};
ghost use Rattle.bs_inspect_near.specs.Known.{all_places, AreOwn, AreWhole, found_at, IsFirstNew, IsWhole, NoneNew};

use crate::run::ChosenRun;
use bs_bits::{Bits, List, NoMemory};
use bs_inspect_report::bit_at;
use bs_inspect_view::Signal;
use bs_scan::is_listed;
use std::alloc::Global;

/// How many values other runs may have of a signal that is told.
/// A signal with more is a counter or data, which has new values in most runs.
pub(crate) const MAX_VALUES: usize = 64;

/// The place of a signal, the first cycle with a value that no other run ever has, and how many values the others have.
#[derive(Clone, Copy)]
pub struct Novelty {
    pub place: usize,
    pub cycle: usize,
    pub count: usize,
}

/// The value of a signal in a state.
fn value_in(alloc: Global, state: &Bits, places: &[u32]) -> Result<Bits, NoMemory>
    ensures { IfOk result (λ bits. bits ≡ value_in state.now places.now) }
{
    let mut bits = Bits::new(alloc);
    'places: for place in places {
        bits.push(bit_at(state, *place as usize))?;
    }
    Ok(bits)
}

/// Whether the value of a signal in a state is none of these.
fn is_new(
    alloc: Global,
    state: &Bits,
    places: &[u32],
    values: &List<Bits>,
) -> Result<bool, NoMemory>
    ensures { IfOk result (λ new. new ≡ not (is_listed values.now (value_in state.now places.now))) }
{
    let value = value_in(alloc, state, places)?;
    Ok(!is_listed(values, &value))
}

/// The first state in which the value of a signal is none of these.
#[tactic(auto, using(crate::proofs::NoveltyLemmas::none_begin, crate::proofs::NoveltyLemmas::first_is))]
fn first_new(
    alloc: Global,
    own: &List<Bits>,
    places: &[u32],
    values: &List<Bits>,
) -> Result<Option<usize>, NoMemory>
    ensures { IfOk result (λ found. MatchOption found (NoneNew own.now places.now values.now (length own.now)) (IsFirstNew own.now places.now values.now)) }
{
    'states: for i in 0..own.len() {
        if is_new(alloc, own.get(i), places, values)? {
            return Ok(Some(i));
        }
    }
    Ok(None)
}

/// What is found where a value is new.
fn found_at(place: usize, count: usize, cycle: Option<usize>) -> Option<Novelty>
    ensures { result ≡ found_at place count cycle }
{
    match cycle {
        Some(cycle) => Some(Novelty {
            place,
            cycle,
            count,
        }),
        None => None,
    }
}

/// What is found of a signal, by the states of the run.
#[tactic(auto, using(crate::proofs::NoveltyLemmas::over_is))]
fn find(
    run: &ChosenRun<'_>,
    own: &List<Bits>,
    place: usize,
    places: &[u32],
    values: &List<Bits>,
) -> Result<Option<Novelty>, NoMemory>
    requires own { AreOwn (circuit run.now.net.now) (inputs_of run.now.runs.now) run.now.number own.now }
    requires whole { IsWhole (circuit run.now.net.now) (inputs_of run.now.runs.now) run.now.number places.now values.now }
    ensures { IfOk result (λ found. IsNovelty (circuit run.now.net.now) (inputs_of run.now.runs.now) run.now.number place places.now found) }
{
    if values.len() > MAX_VALUES {
        return Ok(None);
    }
    let cycle = first_new(run.alloc, own, places, values)?;
    Ok(found_at(place, values.len(), cycle))
}

/// Puts what is found at the end.
fn put(novelties: &mut Vec<Novelty>, found: Option<Novelty>) -> Result<(), NoMemory>
    ensures { OnOk result (novelties.new.items ≡ novelties.old.items ++ one_or_none found) }
{
    match found {
        Some(found) => {
            novelties.push(found)?;
            Ok(())
        }
        None => Ok(()),
    }
}

/// What is found of the signals, in order.
pub(crate) fn novelties_of(
    run: &ChosenRun<'_>,
    own: &List<Bits>,
    signals: &[Signal<'_>],
    sets: &[List<Bits>],
) -> Result<Vec<Novelty>, NoMemory>
    requires own { AreOwn (circuit run.now.net.now) (inputs_of run.now.runs.now) run.now.number own.now }
    requires sets { AreWhole (circuit run.now.net.now) (inputs_of run.now.runs.now) run.now.number (all_places signals.now) sets.now }
    ensures { IfOk result (λ novelties. AreNovelties (circuit run.now.net.now) (inputs_of run.now.runs.now) run.now.number (map signal_in signals.now) (length signals.now) novelties.items) }
{
    let mut novelties = Vec::new(run.alloc);
    'signals: for i in 0..signals.len() {
        let places = signals[i].places.slice();
        let found = find(run, own, i, places, &sets[i])?;
        put(&mut novelties, found)?;
    }
    Ok(novelties)
}

/// What is found by cycles, and of one cycle in the order of the signals.
pub fn ordered(novelties: Vec<Novelty>) -> Result<Vec<Novelty>, NoMemory>
    ensures same { IfOk result (λ ordered. IsPermutation novelties.items ordered.items) }
    ensures sorted { IfOk result (λ ordered. IsSorted novelty_cmp ordered.items) }
{
    let mut novelties = novelties;
    novelties.sort_by_key(|f| (f.cycle, f.place))?;
    Ok(novelties)
}
