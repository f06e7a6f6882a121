//! The bits that a netlist's nets show: shown sources, gate values, and gates settled in order.
ghost use Rattle.std.specs.Prelude.{◌≡◌, ◌<◌, length, map, replicate, false, All, IsTrue, IfOk};
ghost use Rattle.std.specs.List.{list_all, list_any};
ghost use Rattle.bs_net.specs.Circuit.{Fits, shown, loaded, next, next_state, bit_at, IsZeroed};
ghost use Rattle.bs_net.specs.Gate.{gate_value, is_odd};
ghost use Rattle.bs_net.specs.Order.{gates_in};
ghost use Rattle.bs_net.specs.Parts.{IsFlopPlaced};
ghost use Rattle.bs_net.specs.Gate.{takes};
ghost use Rattle.bs_net.specs.Netlist.{circuit};
ghost use Rattle.bs_net.specs.Steps.{run, puts, constant_step, gate_write};

use bs_bits::{Bits, NoMemory};
use bs_net::{Const, Flop, Gate, Kind, Mode, NetId, Netlist};
use std::alloc::Global;

/// Whether all of these nets show 1.
fn all_one(values: &[bool], nets: &[NetId]) -> bool
    requires { All (λ n. n.0 < length values.now) nets.now }
    ensures { result ≡ list_all (λ n. bit_at values.now n.0) nets.now }
{
    nets.iter().all(|n| values[n.0 as usize])
}

/// Whether one of these nets shows 1.
fn any_one(values: &[bool], nets: &[NetId]) -> bool
    requires { All (λ n. n.0 < length values.now) nets.now }
    ensures { result ≡ list_any (λ n. bit_at values.now n.0) nets.now }
{
    nets.iter().any(|n| values[n.0 as usize])
}

/// Whether the number of these nets that show 1 is odd.
fn odd_ones(values: &[bool], nets: &[NetId]) -> bool
    requires { All (λ n. n.0 < length values.now) nets.now }
    ensures { result ≡ is_odd (shown values.now nets.now) }
{
    nets.iter().filter(|n| values[n.0 as usize]).count() % 2 == 1
}

/// The value of a gate.
#[tactic(auto, using(bs_net::proofs::SettleLemmas::all_shown, bs_net::proofs::SettleLemmas::any_shown))]
pub(crate) fn gate_bit(values: &[bool], gate: &Gate) -> bool
    requires placed { All (λ n. n.0 < length values.now) gate.now.ins }
    requires taken { IsTrue (takes gate.now.kind (length gate.now.ins)) }
    ensures { result ≡ gate_value gate.now.kind (shown values.now gate.now.ins) }
{
    let ins = gate.ins.slice();
    match gate.kind {
        Kind::And => all_one(values, ins),
        Kind::Nand => !all_one(values, ins),
        Kind::Or => any_one(values, ins),
        Kind::Nor => !any_one(values, ins),
        Kind::Xor => odd_ones(values, ins),
        Kind::Xnor => !odd_ones(values, ins),
        Kind::Buf => values[ins[0].0 as usize],
        Kind::Not => !values[ins[0].0 as usize],
    }
}

/// Shows some bits on some nets.
pub(crate) fn show_nets(values: &mut [bool], nets: &[NetId], bits: &Bits)
    requires placed { All (λ n. n.0 < length values.old) nets.now }
    requires same { length bits.now ≡ length nets.now }
    ensures { values.new ≡ run (puts nets.now bits.now) values.old }
{
    for i in 0..nets.len() {
        let n = nets[i];
        values[n.0 as usize] = bits.get(i);
    }
}

/// Shows a state on the outputs of the flip-flops.
pub(crate) fn show_state(values: &mut [bool], flops: &[Flop], state: &Bits)
    requires placed { All (λ f. f.q.0 < length values.old) flops.now }
    requires same { length state.now ≡ length flops.now }
    ensures { values.new ≡ run (puts (map (λ f. f.q) flops.now) state.now) values.old }
{
    for i in 0..flops.len() {
        let f = flops[i];
        values[f.q.0 as usize] = state.get(i);
    }
}

/// Shows the constants.
pub(crate) fn show_constants(values: &mut [bool], consts: &[Const])
    requires placed { All (λ k. k.net.0 < length values.old) consts.now }
    ensures { values.new ≡ run (map constant_step consts.now) values.old }
{
    for k in consts {
        values[k.net.0 as usize] = k.value;
    }
}

/// Makes the gates' outputs show their values, in order.
pub(crate) fn settle_gates(values: &mut [bool], gates: &[Gate], order: &[u32])
    requires numbered { All (λ i. i < length gates.now) order.now }
    requires outs { All (λ g. g.out.0 < length values.old) gates.now }
    requires ins { All (λ g. All (λ n. n.0 < length values.old) g.ins) gates.now }
    requires taken { All (λ g. IsTrue (takes g.kind (length g.ins))) gates.now }
    ensures { values.new ≡ run (map gate_write (gates_in order.now gates.now)) values.old }
{
    for i in order {
        let gate = &gates[*i as usize];
        let bit = gate_bit(values, gate);
        values[gate.out.0 as usize] = bit;
    }
}

/// Makes an older valuation the valuation that fits a state and an input.
pub(crate) fn settle(values: &mut [bool], net: &Netlist, state: &Bits, input: &Bits)
    requires zeroed { IsZeroed (circuit net.now) values.old }
    requires state_fits { length state.now ≡ length (circuit net.now).flops }
    requires input_fits { length input.now ≡ length (circuit net.now).inputs }
    ensures fits { Fits (circuit net.now) state.now input.now values.new }
    ensures next { next_state (circuit net.now) values.new ≡ next (circuit net.now) state.now input.now }
{
    let raw = net.raw();
    let order = net.order();
    show_nets(values, net.data_inputs().slice(), input);
    show_state(values, raw.flops.slice(), state);
    show_constants(values, raw.consts.slice());
    settle_gates(values, raw.gates.slice(), order.slice());
}

/// The bit that a flip-flop loads from what the nets show.
fn loaded_bit(values: &[bool], flop: Flop) -> bool
    requires { IsFlopPlaced (length values.now) flop }
    ensures { result ≡ loaded values.now flop }
{
    let input = values[flop.d.0 as usize];
    match flop.mode {
        Mode::Plain => input,
        Mode::Enable(enable) => {
            if values[enable.0 as usize] {
                input
            } else {
                values[flop.q.0 as usize]
            }
        }
        Mode::Clear(clear) => {
            if values[clear.0 as usize] {
                false
            } else {
                input
            }
        }
    }
}

/// Loads the flip-flops from what the nets show: one clock edge.
pub(crate) fn load(state: &mut Bits, values: &[bool], flops: &[Flop])
    requires placed { All (IsFlopPlaced (length values.now)) flops.now }
    requires same { length state.old ≡ length flops.now }
    ensures { state.new ≡ map (loaded values.now) flops.now }
{
    for i in 0..flops.len() {
        state.set(i, loaded_bit(values, flops[i]));
    }
}

/// Makes the bits those of another list of the same length.
pub(crate) fn assign(into: &mut Bits, from: &Bits)
    requires { length into.old ≡ length from.now }
    ensures { into.new ≡ from.now }
{
    for i in 0..from.len() {
        into.set(i, from.get(i));
    }
}

/// As many zeros as asked.
pub(crate) fn zeros(alloc: Global, count: usize) -> Result<Bits, NoMemory>
    ensures { IfOk result (λ b. b ≡ replicate count false) }
{
    let mut bits = Bits::new(alloc);
    for i in 0..count {
        let _place = i;
        bits.push(false)?;
    }
    Ok(bits)
}

/// A table of zeros.
pub(crate) fn zero_table(alloc: Global, count: usize) -> Result<Vec<bool>, NoMemory>
    ensures { IfOk result (λ v. v.items ≡ replicate count false) }
{
    let table = vec![in alloc; false; count]?;
    Ok(table)
}
