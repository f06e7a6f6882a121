//! Whether the states of a trace lead to one another.
ghost use Rattle.std.specs.Prelude.{◌≡◌, ◌<◌, ◌+◌, ◌^◌, length, All, IfOk};
ghost use Rattle.bs_bits.specs.Bits.{bits_eq};
ghost use Rattle.bs_net.specs.Circuit.{next};
ghost use Rattle.bs_net.specs.Netlist.{circuit};
ghost use Rattle.bs_inspect_report_texts.specs.Fits.{break_in, leads_at};

use bs_bits::{Bits, List, NoMemory};
use bs_net::Netlist;
use bs_sim::Event;
use std::alloc::Global;

/// Whether a simulator's netlist goes from one state to another under an input.
fn leads(sim: &mut Event<'_>, state: &Bits, input: &Bits, after: &Bits) -> bool
    requires state { length state.now ≡ length (circuit sim.old.net).flops }
    requires input { length input.now ≡ length (circuit sim.old.net).inputs }
    ensures net { sim.new.net ≡ sim.old.net }
    ensures leads { result ≡ bits_eq after.now (next (circuit sim.old.net) state.now input.now) }
{
    sim.load(state);
    sim.step(input);
    after.equals(sim.state())
}

/// Whether a state of a trace leads to the one behind it.
#[tactic(auto, using(crate::proofs::LeadLemmas::leads_there))]
fn leads_at(
    net: &Netlist,
    sim: &mut Event<'_>,
    states: &List<Bits>,
    inputs: &List<Bits>,
    place: usize,
) -> bool
    requires same { sim.old.net ≡ net.now }
    requires more { length states.now ≡ length inputs.now + 1 }
    requires states { All (λ s. length s ≡ length (circuit net.now).flops) states.now }
    requires inputs { All (λ x. length x ≡ length (circuit net.now).inputs) inputs.now }
    requires there { place < length inputs.now }
    requires small { place + 1 < 2 ^ 64 }
    ensures net { sim.new.net ≡ net.now }
    ensures leads { result ≡ leads_at (circuit net.now) states.now inputs.now place }
{
    let state = states.get(place);
    let input = inputs.get(place);
    let after = states.get(place + 1);
    leads(sim, state, input, after)
}

/// The first state of a trace that does not lead to the one behind it, by its number from 0. It takes one pass over the gates for each
/// moment, in which only those with a changed input are evaluated.
#[tactic(auto, using(crate::proofs::LeadLemmas::lead_none, crate::proofs::LeadLemmas::lead_more, crate::proofs::LeadLemmas::break_found, crate::proofs::LeadLemmas::break_none))]
pub(crate) fn first_break(
    alloc: Global,
    net: &Netlist,
    states: &List<Bits>,
    inputs: &List<Bits>,
) -> Result<Option<usize>, NoMemory>
    requires more { length states.now ≡ length inputs.now + 1 }
    requires states { All (λ s. length s ≡ length (circuit net.now).flops) states.now }
    requires inputs { All (λ x. length x ≡ length (circuit net.now).inputs) inputs.now }
    ensures { IfOk result (λ found. found ≡ break_in (circuit net.now) states.now inputs.now) }
{
    let mut sim = Event::new(alloc, net)?;
    'moments: for i in 0..inputs.len() {
        if !leads_at(net, &mut sim, states, inputs, i) {
            return Ok(Some(i));
        }
    }
    Ok(None)
}
