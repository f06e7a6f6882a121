//! Marks of gates' outputs, in one pass over the gates, and of constants.
ghost use Rattle.std.specs.Prelude.{◌≡◌, ◌<◌, length, All, IsTrue, IfOk};
ghost use Rattle.bs_net.specs.Gate.{takes};
ghost use Rattle.bs_sim.specs.Marks.{SayNothing, StayHeld, AreSettled, AreShown};
ghost use Rattle.bs_sim.specs.Marks.{all_mark, any_mark, odd_mark, gate_mark};

use crate::mark::{Mark, differed, fixed, flipped, joined, met};
use bs_bits::NoMemory;
use bs_net::{Const, Gate, Kind, NetId};
use std::alloc::Global;

/// What is known of whether all of these nets show 1.
fn all_mark(marks: &[Mark], nets: &[NetId]) -> Mark
    requires { All (λ n. n.0 < length marks.now) nets.now }
    ensures { result ≡ all_mark marks.now nets.now }
{
    let mut all = Mark::High;
    'nets: for net in nets {
        all = met(all, marks[net.0 as usize]);
    }
    all
}

/// What is known of whether one of these nets shows 1.
fn any_mark(marks: &[Mark], nets: &[NetId]) -> Mark
    requires { All (λ n. n.0 < length marks.now) nets.now }
    ensures { result ≡ any_mark marks.now nets.now }
{
    let mut any = Mark::Low;
    'nets: for net in nets {
        any = joined(any, marks[net.0 as usize]);
    }
    any
}

/// What is known of whether an odd number of these nets show 1.
fn odd_mark(marks: &[Mark], nets: &[NetId]) -> Mark
    requires { All (λ n. n.0 < length marks.now) nets.now }
    ensures { result ≡ odd_mark marks.now nets.now }
{
    let mut odd = Mark::Low;
    'nets: for net in nets {
        odd = differed(odd, marks[net.0 as usize]);
    }
    odd
}

/// What is known of a gate's value.
pub fn gate_mark(marks: &[Mark], gate: &Gate) -> Mark
    requires placed { All (λ n. n.0 < length marks.now) gate.now.ins }
    requires taken { IsTrue (takes gate.now.kind (length gate.now.ins)) }
    ensures { result ≡ gate_mark marks.now gate.now.kind gate.now.ins }
{
    let ins = gate.ins.slice();
    match gate.kind {
        Kind::And => all_mark(marks, ins),
        Kind::Nand => flipped(all_mark(marks, ins)),
        Kind::Or => any_mark(marks, ins),
        Kind::Nor => flipped(any_mark(marks, ins)),
        Kind::Xor => odd_mark(marks, ins),
        Kind::Xnor => flipped(odd_mark(marks, ins)),
        Kind::Buf => marks[ins[0].0 as usize],
        Kind::Not => flipped(marks[ins[0].0 as usize]),
    }
}

/// Marks the gates' outputs, in order.
pub fn mark_gates(marks: &mut [Mark], gates: &[Gate], order: &[u32])
    requires numbered { All (λ i. i < length gates.now) order.now }
    requires outs { All (λ g. g.out.0 < length marks.old) gates.now }
    requires ins { All (λ g. All (λ n. n.0 < length marks.old) g.ins) gates.now }
    requires taken { All (λ g. IsTrue (takes g.kind (length g.ins))) gates.now }
    ensures { StayHeld (AreSettled gates.now) marks.old marks.new }
{
    'gates: for i in order {
        let gate = &gates[*i as usize];
        let mark = gate_mark(marks, gate);
        marks[gate.out.0 as usize] = mark;
    }
}

/// Marks the constants.
pub fn mark_constants(marks: &mut [Mark], consts: &[Const])
    requires { All (λ k. k.net.0 < length marks.old) consts.now }
    ensures { StayHeld (AreShown consts.now) marks.old marks.new }
{
    'constants: for constant in consts {
        marks[constant.net.0 as usize] = fixed(constant.value);
    }
}

/// Marks of so many nets of which nothing is known.
pub fn unmarked(alloc: Global, nets: usize) -> Result<Vec<Mark>, NoMemory>
    ensures size { IfOk result (λ marks. length marks.items ≡ nets) }
    ensures nothing { IfOk result (λ marks. SayNothing marks.items) }
{
    let marks = vec![in alloc; Mark::Moved; nets]?;
    Ok(marks)
}
