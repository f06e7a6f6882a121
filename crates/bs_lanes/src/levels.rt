//! An order of the gates by level, where levels go round the kinds.
ghost use Rattle.std.specs.Prelude.{◌≡◌, ◌<◌, ◌≤◌, ◌+◌, ◌*◌, ◌^◌, length, map, max, replicate, slice_index_or, slice_set, All, IfOk};
ghost use Rattle.std.specs.List.Sorted.{IsNonDecreasing, IsPermutation};
ghost use Rattle.bs_net.specs.declared.limits.TheConstants.{MAX_NETS};
ghost use Rattle.bs_net.specs.Netlist.{circuit};
ghost use Rattle.bs_net.specs.Order.{gates_in, IsOrder};
ghost use Rattle.bs_lanes.specs.Levels.{highest as highest_of, pair_turn as pair_turn_of, turn_of as turn_of_gate, level_above, level_for, raised, AreRaised, AreKeys, IsKey, number_in, level_in, level_at};

use bs_bits::NoMemory;
use bs_net::{Gate, Kind, NetId, Netlist};
use std::alloc::Global;

/// The highest level of some nets.
fn highest(levels: &[u32], ins: &[NetId]) -> u32
    requires { All (λ n. n.0 < length levels.now) ins.now }
    ensures { result ≡ highest_of levels.now ins.now }
{
    let mut top = 0;
    'ins: for i in 0..ins.len() {
        let level = levels[ins[i].0 as usize];
        if top < level {
            top = level;
        }
    }
    top
}

/// The turn of a kind of gates of two inputs.
fn pair_turn(kind: Kind) -> u32
    ensures { result ≡ pair_turn_of kind }
{
    match kind {
        Kind::And => 0,
        Kind::Nand => 1,
        Kind::Or => 2,
        Kind::Nor => 3,
        Kind::Xor => 4,
        Kind::Xnor => 5,
        Kind::Buf => 6,
        Kind::Not => 6,
    }
}

/// The turn of a gate: gates of two inputs have the turn of their kind, and the others have one.
fn turn_of(gate: &Gate) -> u32
    ensures turn { result ≡ turn_of_gate gate.now }
    ensures few { result < 8 }
{
    if gate.ins.slice().len() == 2 {
        pair_turn(gate.kind)
    } else {
        6
    }
}

/// The lowest level above another that has a turn. Levels go round eight turns, four levels each, so that many gates of one
/// kind stand one behind another, also where each reads the one before.
fn level_above(turn: u32, top: u32) -> u32
    requires turn { turn < 8 }
    requires few { top + 64 < 2 ^ 32 }
    ensures { result ≡ level_above turn top }
{
    let block = (top + 1) / 4;
    (top + 1).max((block + (turn + 8 - block % 8) % 8) * 4)
}

/// Raises a gate's output above its inputs.
#[tactic(auto, using(crate::proofs::LevelLemmas::highest_fits))]
fn raise_one(levels: &mut [u32], gate: &Gate, bound: usize)
    requires out { gate.now.out.0 < length levels.old }
    requires ins { All (λ n. n.0 < length levels.old) gate.now.ins }
    requires low { All (λ level. level ≤ bound) levels.old }
    requires few { bound + 64 < 2 ^ 32 }
    ensures { levels.new ≡ slice_set levels.old gate.now.out.0 (level_for levels.old gate.now) }
{
    let top = highest(levels, gate.ins.slice());
    levels[gate.out.0 as usize] = level_above(turn_of(gate), top);
}

/// Raises each gate's output above its inputs, in order.
fn raise(levels: &mut [u32], gates: &[Gate], order: &[u32])
    requires numbered { All (λ i. i < length gates.now) order.now }
    requires outs { All (λ g. g.out.0 < length levels.old) gates.now }
    requires ins { All (λ g. All (λ n. n.0 < length levels.old) g.ins) gates.now }
    requires few { length order.now ≤ MAX_NETS }
    requires low { All (λ level. level ≤ 0) levels.old }
    ensures levels { levels.new ≡ raised (gates_in order.now gates.now) levels.old }
    ensures low { All (λ level. level ≤ length order.now * 32) levels.new }
{
    'gates: for i in 0..order.len() {
        raise_one(levels, &gates[order[i] as usize], i * 32);
    }
}

/// A number for each kind.
fn kind_number(kind: Kind) -> u64
    ensures { result < 8 }
{
    match kind {
        Kind::And => 0,
        Kind::Nand => 1,
        Kind::Or => 2,
        Kind::Nor => 3,
        Kind::Xor => 4,
        Kind::Xnor => 5,
        Kind::Buf => 6,
        Kind::Not => 7,
    }
}

/// What a gate is sorted by beside its level: whether it has two inputs, and its kind.
fn class_of(gate: &Gate) -> u64
    ensures { result < 16 }
{
    let number = kind_number(gate.kind);
    if gate.ins.slice().len() == 2 {
        number + 8
    } else {
        number
    }
}

/// What a gate is sorted by: its level, its class and its number.
fn key_of(level: u32, gate: &Gate, number: u32) -> u64
    requires { level ≤ MAX_NETS * 32 }
    ensures number { number_in result ≡ number }
    ensures level { level_in result ≡ level }
{
    let class = class_of(gate);
    (u64::from(level) * 16 + class) * 4_294_967_296 + u64::from(number)
}

/// The keys of the gates.
fn keys_of(alloc: Global, gates: &[Gate], levels: &[u32]) -> Result<Vec<u64>, NoMemory>
    requires few { length gates.now < 2 ^ 32 }
    requires outs { All (λ g. g.out.0 < length levels.now) gates.now }
    requires low { All (λ level. level ≤ MAX_NETS * 32) levels.now }
    ensures { IfOk result (λ keys. AreKeys levels.now gates.now keys.items) }
{
    let mut keys = Vec::new(alloc);
    'gates: for i in 0..gates.len() {
        let gate = &gates[i];
        let level = levels[gate.out.0 as usize];
        keys.push(key_of(level, gate, i as u32))?;
    }
    Ok(keys)
}

/// The numbers of the gates in some keys.
fn numbers(alloc: Global, keys: &[u64]) -> Result<Vec<u32>, NoMemory>
    ensures { IfOk result (λ numbers. numbers.items ≡ map number_in keys.now) }
{
    let mut numbers = Vec::new(alloc);
    'keys: for &key in keys {
        numbers.push((key % 4_294_967_296) as u32)?;
    }
    Ok(numbers)
}

/// Sorts keys.
fn sort_keys(keys: &mut [u64])
    ensures moved { IsPermutation keys.old keys.new }
    ensures sorted { IsNonDecreasing keys.new }
{
    keys.sort_unstable();
}

/// The keys of the gates, ascending.
fn sorted_keys(alloc: Global, gates: &[Gate], levels: &[u32]) -> Result<Vec<u64>, NoMemory>
    requires few { length gates.now < 2 ^ 32 }
    requires outs { All (λ g. g.out.0 < length levels.now) gates.now }
    requires low { All (λ level. level ≤ MAX_NETS * 32) levels.now }
    ensures keys { IfOk result (λ keys. AreKeys levels.now gates.now keys.items) }
    ensures sorted { IfOk result (λ keys. IsNonDecreasing keys.items) }
{
    let mut keys = keys_of(alloc, gates, levels)?;
    sort_keys(keys.as_mut_slice());
    Ok(keys)
}

/// So many zeros.
pub(crate) fn zeros(alloc: Global, count: usize) -> Result<Vec<u32>, NoMemory>
    ensures { IfOk result (λ zeros. zeros.items ≡ replicate count 0) }
{
    let zeros = vec![in alloc; 0; count]?;
    Ok(zeros)
}

/// The levels of a netlist's nets.
fn levels_of(alloc: Global, net: &Netlist) -> Result<Vec<u32>, NoMemory>
    ensures size { IfOk result (λ levels. length levels.items ≡ (circuit net.now).nets) }
    ensures raised { IfOk result (λ levels. AreRaised levels.items (circuit net.now).gates) }
    ensures low { IfOk result (λ levels. All (λ level. level ≤ MAX_NETS * 32) levels.items) }
{
    let raw = net.raw();
    let order = net.order();
    let mut levels = zeros(alloc, raw.names.len() as usize)?;
    raise(levels.as_mut_slice(), raw.gates.slice(), order.slice());
    Ok(levels)
}

/// The numbers of a netlist's gates in an order by level.
pub(crate) fn by_level(alloc: Global, net: &Netlist) -> Result<Vec<u32>, NoMemory>
    ensures { IfOk result (λ order. IsOrder (circuit net.now).gates order.items) }
{
    let raw = net.raw();
    let levels = levels_of(alloc, net)?;
    let keys = sorted_keys(alloc, raw.gates.slice(), levels.as_slice())?;
    let order = numbers(alloc, keys.as_slice())?;
    Ok(order)
}
