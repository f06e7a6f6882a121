//! Inputs from reset on, simulated.
ghost use Rattle.std.specs.Prelude.{◌≡◌, ◌+◌, true, length, map, All, IfOk, IfSome};
ghost use Rattle.std.specs.Bool.{OnTrue};
ghost use Rattle.std.specs.List.{range_with_len};
ghost use Rattle.bs_net.specs.Netlist.{circuit};
ghost use Rattle.bs_scan.specs.Moments.{state_at};
ghost use Rattle.bs_reach_unrolled.specs.Execution.{IsExecution};
ghost use Rattle.bs_reach_execution.specs.Trial.{EndsIn};

use crate::execution::Execution;
use bs_bits::{Bits, List, NoMemory};
use bs_net::Netlist;
use bs_scan::Seen;
use bs_sim::Sim;
use std::alloc::Global;

/// Whether each input is as wide as the netlist's.
fn are_wide(net: &Netlist, inputs: &[Bits]) -> bool
    ensures { OnTrue result (All (λ x. length x ≡ length (circuit net.now).inputs) inputs.now) }
{
    let width = net.data_inputs().len();
    'inputs: for input in inputs {
        if input.len() != width {
            return false;
        }
    }
    true
}

/// The states from reset on, under these inputs.
fn states_under(alloc: Global, net: &Netlist, inputs: &List<Bits>) -> Result<List<Bits>, NoMemory>
    requires { All (λ x. length x ≡ length (circuit net.now).inputs) inputs.now }
    ensures { IfOk result (λ s. s ≡ map (state_at (circuit net.now) inputs.now) (range_with_len 0 (length inputs.now + 1))) }
{
    let mut sim = Sim::new(alloc, net)?;
    let mut states = List::new(alloc);
    states.push(sim.state().copy()?)?;
    'cycles: for i in 0..inputs.len() {
        sim.step(inputs.get(i));
        states.push(sim.state().copy()?)?;
    }
    Ok(states)
}

/// Whether the last of the states, so many cycles behind the first, shows this one.
fn ends_in(
    alloc: Global,
    states: &List<Bits>,
    cycles: usize,
    state: &Seen,
) -> Result<bool, NoMemory>
    ensures { IfOk result (λ there. there ≡ true → EndsIn states.now cycles state.now) }
{
    if cycles >= states.len() {
        return Ok(false);
    }
    let shown = state.is_shown(alloc, states.get(cycles))?;
    Ok(shown)
}

/// The execution of so many cycles under these inputs, where they lead to a state that shows this.
pub(crate) fn tried(
    alloc: Global,
    net: &Netlist,
    inputs: List<Bits>,
    state: &Seen,
    cycles: u32,
) -> Result<Option<Execution>, NoMemory>
    ensures { IfOk result (λ o. IfSome o (λ x. IsExecution (circuit net.now) cycles state.now x.states x.inputs)) }
{
    if inputs.len() != cycles as usize || !are_wide(net, inputs.slice()) {
        return Ok(None);
    }
    let states = states_under(alloc, net, &inputs)?;
    let there = ends_in(alloc, &states, cycles as usize, state)?;
    if !there {
        return Ok(None);
    }
    Ok(Some(Execution { states, inputs }))
}
