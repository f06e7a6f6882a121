//! The marks of all nets, in one pass over the gates.
ghost use Rattle.std.specs.Prelude.{◌≡◌, ◌<◌, length, All, IfOk};
ghost use Rattle.bs_net.specs.Netlist.{circuit};
ghost use Rattle.bs_sim.specs.Marks.{SayNothing, StayHeld};
ghost use Rattle.bs_preimage_recorded.specs.Marked.{ShowSame, ShowInput, AreMarked};

use bs_bits::NoMemory;
use bs_net::{Flop, NetId, Netlist};
use bs_sim::{Mark, fixed, mark_constants, mark_gates, unmarked};
use std::alloc::Global;

/// Marks the outputs of the flip-flops.
fn mark_states(marks: &mut [Mark], flops: &[Flop])
    requires { All (λ f. f.q.0 < length marks.old) flops.now }
    ensures { StayHeld (ShowSame flops.now) marks.old marks.new }
{
    'flops: for flop in flops {
        marks[flop.q.0 as usize] = Mark::Still;
    }
}

/// Marks the net of the input that has the value.
fn mark_input(marks: &mut [Mark], nets: &[NetId], input: usize, value: bool)
    requires { All (λ n. n.0 < length marks.old) nets.now }
    ensures { StayHeld (ShowInput nets.now input value) marks.old marks.new }
{
    if input < nets.len() {
        let net = nets[input];
        marks[net.0 as usize] = fixed(value);
    }
}

/// Marks all nets of a netlist.
fn mark_all(marks: &mut [Mark], net: &Netlist, input: usize, value: bool)
    requires size { length marks.old ≡ (circuit net.now).nets }
    requires nothing { SayNothing marks.old }
    ensures { AreMarked (circuit net.now) input value marks.new }
{
    let raw = net.raw();
    let order = net.order();
    mark_input(marks, net.data_inputs().slice(), input, value);
    mark_states(marks, raw.flops.slice());
    mark_constants(marks, raw.consts.slice());
    mark_gates(marks, raw.gates.slice(), order.slice());
}

/// The marks of all nets of a netlist, where a data input has a value. It takes time linear in the nets and in the gates'
/// inputs.
pub(crate) fn marks_of(
    alloc: Global,
    net: &Netlist,
    input: usize,
    value: bool,
) -> Result<Vec<Mark>, NoMemory>
    ensures { IfOk result (λ marks. AreMarked (circuit net.now) input value marks.items) }
{
    let mut marks = unmarked(alloc, net.raw().names.len() as usize)?;
    mark_all(marks.as_mut_slice(), net, input, value);
    Ok(marks)
}
