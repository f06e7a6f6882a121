//! Since when nets have had their bits.
ghost use Rattle.std.specs.Prelude.{◌<◌, ◌-◌, length, All, IfOk};
ghost use Rattle.bs_net.specs.Netlist.{circuit};
ghost use Rattle.bs_net_facts.specs.Facts.{IsReal, IsWayOf};
ghost use Rattle.bs_inspect_causes.specs.Since.{AreAges, StoodSince, Turns};

use bs_bits::NoMemory;
use bs_net::NetId;
use bs_net_facts::{Fact, Moments};
use std::alloc::Global;

/// The bit of a net in a cycle that has an input.
#[tactic(auto, using(crate::proofs::SinceLemmas::bit_known))]
pub fn known_bit(moments: &Moments<'_>, net: NetId, cycle: u32) -> bool
    requires net { net.0 < (circuit moments.now.net).nets }
    requires cycle { cycle < length moments.now.inputs }
    ensures { IsReal (circuit moments.now.net) moments.now.states moments.now.inputs (record { net = net; cycle = cycle; bit = result }) }
{
    match moments.bit(net, cycle) {
        Some(bit) => bit,
        None => unreachable!(),
    }
}

/// Whether the net of a fact has the other bit in the cycle before one.
#[tactic(auto, using(crate::proofs::SinceLemmas::turns_is))]
fn turns(moments: &Moments<'_>, fact: Fact, since: u32) -> bool
    requires net { fact.net.0 < (circuit moments.now.net).nets }
    requires some { 0 < since }
    requires cycle { since - 1 < length moments.now.inputs }
    ensures { Turns (circuit moments.now.net) moments.now.states moments.now.inputs fact since result }
{
    let bit = known_bit(moments, fact.net, since - 1);
    bit != fact.bit
}

/// Since when the net of a fact has had its bit.
fn stood_since(moments: &Moments<'_>, fact: Fact) -> u32
    requires way { IsWayOf (circuit moments.now.net) moments.now.states moments.now.inputs }
    requires real { IsReal (circuit moments.now.net) moments.now.states moments.now.inputs fact }
    ensures { StoodSince (circuit moments.now.net) moments.now.states moments.now.inputs fact result }
{
    'cycles: for k in 0..fact.cycle {
        let since = fact.cycle - k;
        let changed = turns(moments, fact, since);
        if changed {
            return since;
        }
    }
    0
}

/// Since when the nets of facts have had their bits.
#[tactic(auto, using(crate::proofs::SinceLemmas::ages_begin, crate::proofs::SinceLemmas::real_here))]
pub fn ages(alloc: Global, moments: &Moments<'_>, facts: &[Fact]) -> Result<Vec<u32>, NoMemory>
    requires way { IsWayOf (circuit moments.now.net) moments.now.states moments.now.inputs }
    requires real { All (λ f. IsReal (circuit moments.now.net) moments.now.states moments.now.inputs f) facts.now }
    ensures { IfOk result (λ ages. AreAges (circuit moments.now.net) moments.now.states moments.now.inputs facts.now (length facts.now) ages.items) }
{
    let mut ages = Vec::new(alloc);
    'facts: for i in 0..facts.len() {
        let fact = facts[i];
        let since = stood_since(moments, fact);
        ages.push(since)?;
    }
    Ok(ages)
}
