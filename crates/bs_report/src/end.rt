//! Where a trace ends.
ghost use Rattle.std.specs.Prelude.{◌≡◌, length, All, IfOk, IfSome, option_map};
ghost use Rattle.bs_net.specs.Circuit.{next};
ghost use Rattle.bs_net.specs.Netlist.{circuit};
ghost use Rattle.bs_report.specs.Trace.{end_of, end_or, input_for, led_to};
ghost use Rattle.bs_report.specs.WideCands.{HasWideCands};

use crate::report::Step;
use bs_bits::{Bits, NoMemory};
use bs_net::Netlist;
use bs_scan::Seen;
use bs_sim::Sim;
use std::alloc::Global;

/// The input that a step lists for a state.
pub fn input_for<'a>(step: &'a Step, state: &Bits) -> Option<&'a Bits>
    ensures { option_map (λ bits. bits.now) result ≡ input_for step.now state.now }
{
    let cands = step.cands.slice();
    match cands.iter().find(|cand| cand.state.equals(state)) {
        None => None,
        Some(cand) => Some(&cand.input),
    }
}

/// Where a state leads under an input.
fn led(alloc: Global, net: &Netlist, state: &Bits, input: &Bits) -> Result<Bits, NoMemory>
    requires state { length state.now ≡ length (circuit net.now).flops }
    requires input { length input.now ≡ length (circuit net.now).inputs }
    ensures { IfOk result (λ there. there ≡ next (circuit net.now) state.now input.now) }
{
    let mut sim = Sim::new(alloc, net)?;
    sim.load(state);
    sim.step(input);
    sim.state().copy()
}

/// Where a state leads under an input, if there is one.
fn led_by(
    alloc: Global,
    net: &Netlist,
    state: &Bits,
    input: Option<&Bits>,
) -> Result<Option<Bits>, NoMemory>
    requires { IfSome (option_map (λ bits. bits.now) input) (λ x. (length state.now ≡ length (circuit net.now).flops) × (length x ≡ length (circuit net.now).inputs)) }
    ensures { IfOk result (λ there. there ≡ option_map (next (circuit net.now) state.now) (option_map (λ bits. bits.now) input.entry)) }
{
    match input {
        None => Ok(None),
        Some(input) => {
            let there = led(alloc, net, state, input)?;
            Ok(Some(there))
        }
    }
}

/// Where a step's hit leads under the input that the step lists for it.
fn led_to(alloc: Global, net: &Netlist, step: &Step) -> Result<Option<Bits>, NoMemory>
    requires { HasWideCands (circuit net.now) step.now }
    ensures { IfOk result (λ there. there ≡ led_to (circuit net.now) step.now) }
{
    match &step.hit {
        None => Ok(None),
        Some(hit) => led_by(alloc, net, &hit.state, input_for(step, &hit.state)),
    }
}

/// This state, of which all is known, or else the dumped one.
fn end_or(alloc: Global, dumped: &Seen, there: Option<Bits>) -> Result<Seen, NoMemory>
    ensures { IfOk result (λ end. end ≡ end_or dumped.now there) }
{
    match there {
        None => dumped.copy(),
        Some(bits) => Ok(Seen::whole(alloc, bits)),
    }
}

/// What is known of the state in which the trace of the steps ends.
pub fn end_of(alloc: Global, net: &Netlist, dumped: &Seen, steps: &[Step]) -> Result<Seen, NoMemory>
    requires { All (HasWideCands (circuit net.now)) steps.now }
    ensures { IfOk result (λ end. end ≡ end_of (circuit net.now) dumped.now steps.now) }
{
    match steps.split_first() {
        None => dumped.copy(),
        Some((first, _)) => {
            let there = led_to(alloc, net, first)?;
            end_or(alloc, dumped, there)
        }
    }
}
