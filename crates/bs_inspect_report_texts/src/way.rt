//! Whether a netlist goes through a trace under inputs.
ghost use Rattle.std.specs.Prelude.{◌≡◌, ◌↔◌, ◌<◌, ◌≤◌, ◌+◌, ◌^◌, [], length, slice_index_or, All, IsTrue, IfOk, MatchOption};
ghost use Rattle.bs_net.specs.Circuit.{reset_state};
ghost use Rattle.bs_net.specs.Netlist.{circuit};
ghost use Rattle.bs_scan.specs.Moments.{state_at};
ghost use Rattle.bs_inspect_report_texts.specs.Driven.{GoesOn, IsAstray};

use bs_bits::{Bits, List, NoMemory};
use bs_net::Netlist;
use bs_sim::Sim;
use std::alloc::Global;

/// One clock edge under the input of a cycle.
#[tactic(auto, using(crate::proofs::WayLemmas::input_wide, crate::proofs::WayLemmas::state_more))]
fn step_at(sim: &mut Sim<'_>, inputs: &List<Bits>, cycle: usize)
    requires widths { All (λ x. length x ≡ length (circuit sim.old.net).inputs) inputs.now }
    requires there { cycle < length inputs.now }
    requires small { cycle + 1 < 2 ^ 64 }
    requires at { sim.old.state ≡ state_at (circuit sim.old.net) inputs.now cycle }
    ensures net { sim.new.net ≡ sim.old.net }
    ensures at { sim.new.state ≡ state_at (circuit sim.old.net) inputs.now (cycle + 1) }
{
    sim.step(inputs.get(cycle));
}

/// Goes from reset to a cycle.
#[tactic(auto, using(crate::proofs::WayLemmas::state_first))]
fn go_to(sim: &mut Sim<'_>, inputs: &List<Bits>, cycles: usize)
    requires widths { All (λ x. length x ≡ length (circuit sim.old.net).inputs) inputs.now }
    requires lasts { cycles ≤ length inputs.now }
    requires reset { sim.old.state ≡ reset_state (circuit sim.old.net) }
    ensures net { sim.new.net ≡ sim.old.net }
    ensures at { sim.new.state ≡ state_at (circuit sim.old.net) inputs.now cycles }
{
    'cycles: for cycle in 0..cycles {
        step_at(sim, inputs, cycle);
    }
}

/// Whether the present state is the one at a place.
#[tactic(auto, using(crate::proofs::WayLemmas::stands_there))]
fn stands_in(sim: &Sim<'_>, states: &List<Bits>, place: usize) -> bool
    requires { place < length states.now }
    ensures { IsTrue result ↔ (sim.now.state ≡ slice_index_or states.now place []) }
{
    let state = states.get(place);
    sim.state().equals(state)
}

/// The first of some states that the netlist is not in, where it is at the cycle of the first one.
#[tactic(auto, using(crate::proofs::WayLemmas::goes_first, crate::proofs::WayLemmas::goes_more, crate::proofs::WayLemmas::goes_on, crate::proofs::WayLemmas::astray_first, crate::proofs::WayLemmas::astray_later))]
fn astray_behind(
    sim: &mut Sim<'_>,
    inputs: &List<Bits>,
    cycles: usize,
    states: &List<Bits>,
) -> Option<usize>
    requires widths { All (λ x. length x ≡ length (circuit sim.old.net).inputs) inputs.now }
    requires some { 0 < length states.now }
    requires long { length inputs.now + 1 ≡ cycles + length states.now }
    requires at { sim.old.state ≡ state_at (circuit sim.old.net) inputs.now cycles }
    ensures { MatchOption result (GoesOn (circuit sim.old.net) inputs.now cycles states.now) (IsAstray (circuit sim.old.net) inputs.now cycles states.now) }
{
    let _count = inputs.len();
    if !stands_in(sim, states, 0) {
        return Some(0);
    }
    'states: for i in 0..states.len() - 1 {
        step_at(sim, inputs, cycles + i);
        if !stands_in(sim, states, i + 1) {
            return Some(i + 1);
        }
    }
    None
}

/// The first of some states that a netlist is not in at its cycle, where these inputs drive it from reset. It takes one pass over the
/// gates for each cycle.
pub(crate) fn first_astray(
    alloc: Global,
    net: &Netlist,
    inputs: &List<Bits>,
    cycles: usize,
    states: &List<Bits>,
) -> Result<Option<usize>, NoMemory>
    requires widths { All (λ x. length x ≡ length (circuit net.now).inputs) inputs.now }
    requires some { 0 < length states.now }
    requires long { length inputs.now + 1 ≡ cycles + length states.now }
    ensures { IfOk result (λ found. MatchOption found (GoesOn (circuit net.now) inputs.now cycles states.now) (IsAstray (circuit net.now) inputs.now cycles states.now)) }
{
    let mut sim = Sim::new(alloc, net)?;
    go_to(&mut sim, inputs, cycles);
    let found = astray_behind(&mut sim, inputs, cycles, states);
    drop(sim);
    Ok(found)
}
