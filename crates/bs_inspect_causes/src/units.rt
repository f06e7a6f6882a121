//! Units: facts of one vector and cycle, in a row.
ghost use Rattle.std.specs.Prelude.{◌≡◌, ◌<◌, ◌≤◌, ◌+◌, true, length, IfOk, OnOk};
ghost use Rattle.std.specs.List.{AllWithin};
ghost use Rattle.std.specs.List.Sorted.{IsPermutation};
ghost use Rattle.bs_inspect_causes.specs.Layers.{IsLike, IsUnitAt, KeepsFirst, Repeats};

use crate::basis::Basis;
use crate::drivers::is_marked;
use bs_bits::{List, NoMemory};
use bs_inspect_holds::TraceScene;
use bs_net_facts::Fact;
use std::alloc::Global;

/// What facts are ordered by: the latest cycle first, and in it by vectors.
fn order_of(scene: &TraceScene<'_>, by_flop: &[bool], fact: &Fact) -> (u32, u32, u32, u32) {
    let group = scene.group(fact.net);
    let kind = if is_marked(by_flop, fact.net) { 0 } else { 1 };
    (u32::MAX - fact.cycle, group, kind, fact.net.0)
}

/// Facts in the order of their units.
fn in_order(
    scene: &TraceScene<'_>,
    by_flop: &[bool],
    facts: Vec<Fact>,
) -> Result<Vec<Fact>, NoMemory>
    ensures { IfOk result (λ ordered. IsPermutation facts.items ordered.items) }
{
    let mut facts = facts;
    facts.sort_by_key(|fact| order_of(scene, by_flop, fact))?;
    Ok(facts)
}

/// Whether two facts are the same.
#[tactic(auto, using(crate::proofs::UnitLemmas::same_fact))]
fn is_same(one: Fact, other: Fact) -> bool
    ensures { result ≡ true → one ≡ other }
{
    let net = one.net.0 == other.net.0;
    let cycle = one.cycle == other.cycle;
    let bit = one.bit == other.bit;
    net && cycle && bit
}

/// Whether the fact at a place is the same as the one before it.
#[tactic(auto, using(crate::proofs::UnitLemmas::repeats_of))]
fn is_repeated(facts: &[Fact], place: usize) -> bool
    requires { place < length facts.now }
    ensures { result ≡ true → Repeats facts.now place }
{
    if place == 0 {
        return false;
    }
    is_same(facts[place - 1], facts[place])
}

/// Puts the fact at a place at the end, unless it is that before it.
fn push_new(facts: &[Fact], place: usize, kept: &mut List<Fact>) -> Result<(), NoMemory>
    requires there { place < length facts.now }
    requires so_far { KeepsFirst facts.now place kept.old }
    ensures { OnOk result (KeepsFirst facts.now (place + 1) kept.new) }
{
    if is_repeated(facts, place) {
        return Ok(());
    }
    kept.push(facts[place])?;
    Ok(())
}

/// Facts without those that are the same as the one before them.
#[tactic(auto, using(crate::proofs::UnitLemmas::keeps_none))]
fn distinct(alloc: Global, facts: &[Fact]) -> Result<List<Fact>, NoMemory>
    ensures { IfOk result (λ kept. KeepsFirst facts.now (length facts.now) kept) }
{
    let mut kept = List::new(alloc);
    'facts: for i in 0..facts.len() {
        push_new(facts, i, &mut kept)?;
    }
    Ok(kept)
}

/// Facts in the order of their units, each once.
pub(crate) fn ordered(basis: &Basis<'_>, facts: Vec<Fact>) -> Result<List<Fact>, NoMemory>
    ensures { IfOk result (λ kept. KeepsFirst facts.items (length facts.items) kept) }
{
    let sorted = in_order(basis.scene, basis.drivers.by_flop.slice(), facts)?;
    let kept = distinct(basis.alloc, sorted.as_slice())?;
    drop(sorted);
    Ok(kept)
}

/// Whether a fact is of the unit that another begins.
#[tactic(auto, using(crate::proofs::UnitLemmas::like_of))]
fn is_like(basis: &Basis<'_>, first: Fact, flop: bool, fact: Fact) -> bool
    ensures { result ≡ true → IsLike basis.now.drivers.now first.cycle flop fact }
{
    let cycle = fact.cycle == first.cycle;
    let group = basis.scene.group(fact.net) == basis.scene.group(first.net);
    let kind = is_marked(basis.drivers.by_flop.slice(), fact.net) == flop;
    cycle && group && kind
}

/// The place behind the unit that a fact begins.
fn unit_end(basis: &Basis<'_>, facts: &[Fact], from: usize, first: Fact, flop: bool) -> usize
    requires there { from < length facts.now }
    requires like { AllWithin (IsLike basis.now.drivers.now first.cycle flop) facts.now from (from + 1) }
    ensures more { from < result }
    ensures within { result ≤ length facts.now }
    ensures alike { AllWithin (IsLike basis.now.drivers.now first.cycle flop) facts.now from result }
{
    'facts: for i in from + 1..facts.len() {
        if !is_like(basis, first, flop, facts[i]) {
            return i;
        }
    }
    facts.len()
}

/// Where a unit ends, its cycle, and whether flip-flops drive it.
#[derive(Clone, Copy)]
pub(crate) struct Unit {
    pub(crate) stop: usize,
    pub(crate) at: u32,
    pub(crate) flop: bool,
}

/// The unit that begins at a place of ordered facts.
#[tactic(auto, using(crate::proofs::UnitLemmas::like_first, crate::proofs::UnitLemmas::unit_is))]
pub(crate) fn unit_at(basis: &Basis<'_>, facts: &[Fact], from: usize) -> Unit
    requires { from < length facts.now }
    ensures { IsUnitAt basis.now.drivers.now facts.now from result }
{
    let first = facts[from];
    let flop = is_marked(basis.drivers.by_flop.slice(), first.net);
    let stop = unit_end(basis, facts, from, first, flop);
    Unit {
        stop,
        at: first.cycle,
        flop,
    }
}
