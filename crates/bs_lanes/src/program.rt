//! A netlist's gates in stretches, many of one kind, with the places of planes for nets.
ghost use Rattle.std.specs.Prelude.{◌≡◌, ◌≢◌, ◌<◌, ◌≤◌, ◌+◌, ◌-◌, [], ◌∷◌, length, map, take, drop, min, max, All, IsTrue, IfNone, IfOk, IfSome};
ghost use Rattle.std.specs.Bool.{MatchBool};
ghost use Rattle.bs_lanes.specs.Program.{pair_gate, pair_gates, same_kind, stretch_gates, program_gates, ArePairs, AreFirst, IsFirst, IsNoPair};
ghost use Rattle.bs_lanes.specs.Layout.{place_of, placed_net, placed_gate, placed_gates, IsGateOf};

use crate::pairs::Pair;
use bs_bits::{List, NoMemory};
use bs_net::{Gate, Kind, NetId, Terms};
use std::alloc::Global;

/// Gates that stand one behind another, with the places of planes for nets: those of one kind with two inputs each, which
/// write one plane after another, or others.
#[derive(Drop)]
pub(crate) enum GateStretch {
    /// Gates of two inputs and one kind: the place of the first output, and the inputs.
    Pairs(Kind, u32, List<Pair>),
    /// Other gates.
    Others(List<Gate>),
}

/// Whether two kinds are the same.
fn same_kind(one: Kind, other: Kind) -> bool
    ensures same { MatchBool result (one ≡ other) (Unit {0}) }
    ensures test { result ≡ same_kind one other }
{
    match (one, other) {
        (Kind::And, Kind::And) => true,
        (Kind::Nand, Kind::Nand) => true,
        (Kind::Or, Kind::Or) => true,
        (Kind::Nor, Kind::Nor) => true,
        (Kind::Xor, Kind::Xor) => true,
        (Kind::Xnor, Kind::Xnor) => true,
        _ => false,
    }
}

/// The place of a net's plane.
pub(crate) fn place(places: &[u32], net: NetId) -> NetId
    requires { net.0 < length places.now }
    ensures { result ≡ placed_net places.now net }
{
    NetId(places[net.0 as usize])
}

/// A gate's inputs by their places, where there are two.
fn two_inputs(ins: &[NetId], places: &[u32]) -> Option<Pair>
    requires { All (λ n. n.0 < length places.now) ins.now }
    ensures some { IfSome result (λ p. record { 0 = p.a } ∷ record { 0 = p.b } ∷ [] ≡ map (placed_net places.now) ins.now) }
    ensures none { IfNone result (length ins.now ≢ 2) }
{
    match ins {
        [a, b] => Some(Pair {
            a: place(places, *a).0,
            b: place(places, *b).0,
        }),
        _ => None,
    }
}

/// The gate as a pair, where it has two inputs and this kind, and its output this place.
#[tactic(auto, using(crate::proofs::ProgramLemmas::no_pair_by_kind, crate::proofs::ProgramLemmas::no_pair_by_place, crate::proofs::ProgramLemmas::no_pair_by_inputs))]
fn pair_of(gate: &Gate, places: &[u32], kind: Kind, out: usize) -> Option<Pair>
    requires { IsGateOf (length places.now) gate.now }
    ensures some { IfSome result (λ p. pair_gate kind out p ≡ placed_gate places.now gate.now) }
    ensures none { IfNone result (IsNoPair kind out (placed_gate places.now gate.now)) }
{
    if !same_kind(kind, gate.kind) {
        return None;
    }
    if place(places, gate.out).0 as usize != out {
        return None;
    }
    two_inputs(gate.ins.slice(), places)
}

/// The first gates of an order that have two inputs and this kind, and outputs one behind another from a place on.
fn pairs_of(
    alloc: Global,
    gates: &[Gate],
    order: &[u32],
    places: &[u32],
    kind: Kind,
    start: u32,
) -> Result<List<Pair>, NoMemory>
    requires numbered { All (λ i. i < length gates.now) order.now }
    requires placed { All (IsGateOf (length places.now)) gates.now }
    ensures { IfOk result (ArePairs (placed_gates places.now order.now gates.now) kind start) }
{
    let mut pairs = List::new(alloc);
    'gates: for i in 0..order.len() {
        match pair_of(&gates[order[i] as usize], places, kind, start as usize + i) {
            Some(pair) => pairs.push(pair)?,
            None => return Ok(pairs),
        }
    }
    Ok(pairs)
}

/// The places of some nets.
fn terms_of(alloc: Global, ins: &[NetId], places: &[u32]) -> Result<Terms, NoMemory>
    requires { All (λ n. n.0 < length places.now) ins.now }
    ensures { IfOk result (λ terms. terms ≡ map (placed_net places.now) ins.now) }
{
    let mut terms = Terms::new(alloc);
    'ins: for i in 0..ins.len() {
        terms.push(place(places, ins[i]))?;
    }
    Ok(terms)
}

/// A gate with places for nets.
fn gate_of(alloc: Global, gate: &Gate, places: &[u32]) -> Result<Gate, NoMemory>
    requires { IsGateOf (length places.now) gate.now }
    ensures { IfOk result (λ g. g ≡ placed_gate places.now gate.now) }
{
    let ins = terms_of(alloc, gate.ins.slice(), places)?;
    Ok(Gate {
        kind: gate.kind,
        out: place(places, gate.out),
        ins,
    })
}

/// The first gate of an order, and those behind it up to the next gate of two inputs.
fn others_of(
    alloc: Global,
    gates: &[Gate],
    order: &[u32],
    places: &[u32],
) -> Result<List<Gate>, NoMemory>
    requires some { 0 < length order.now }
    requires numbered { All (λ i. i < length gates.now) order.now }
    requires placed { All (IsGateOf (length places.now)) gates.now }
    ensures { IfOk result (AreFirst (placed_gates places.now order.now gates.now)) }
{
    let mut others = List::new(alloc);
    'gates: for i in 0..order.len() {
        let gate = &gates[order[i] as usize];
        if 0 < i && gate.ins.slice().len() == 2 {
            return Ok(others);
        }
        let placed = gate_of(alloc, gate, places)?;
        others.push(placed)?;
    }
    Ok(others)
}

/// The first stretch of an order, and how many gates it has.
fn first_stretch(
    alloc: Global,
    gates: &[Gate],
    order: &[u32],
    places: &[u32],
) -> Result<(GateStretch, usize), NoMemory>
    requires some { 0 < length order.now }
    requires numbered { All (λ i. i < length gates.now) order.now }
    requires placed { All (IsGateOf (length places.now)) gates.now }
    ensures { IfOk result (λ first. IsFirst (placed_gates places.now order.now gates.now) first.0 first.1) }
{
    let gate = &gates[order[0] as usize];
    let start = place(places, gate.out).0;
    let pairs = pairs_of(alloc, gates, order, places, gate.kind, start)?;
    let count = pairs.len();
    if count != 0 {
        return Ok((GateStretch::Pairs(gate.kind, start, pairs), count));
    }
    let others = others_of(alloc, gates, order, places)?;
    let count = others.len();
    Ok((GateStretch::Others(others), count))
}

/// An order in stretches.
pub(crate) fn stretches_of(
    alloc: Global,
    gates: &[Gate],
    order: &[u32],
    places: &[u32],
) -> Result<List<GateStretch>, NoMemory>
    requires numbered { All (λ i. i < length gates.now) order.now }
    requires placed { All (IsGateOf (length places.now)) gates.now }
    ensures { IfOk result (λ stretches. program_gates stretches ≡ placed_gates places.now order.now gates.now) }
{
    let mut stretches = List::new(alloc);
    let mut at = 0;
    'stretches: while at < order.len() {
        let (stretch, count) = first_stretch(alloc, gates, &order[at..], places)?;
        stretches.push(stretch)?;
        at += count;
    }
    Ok(stretches)
}
