//! What it takes to decide each net at a moment: the least sum of sources, up the cone.

use crate::known::deciding_bit;
use crate::need::{Need, need_of};
use crate::tables::{at, flag, put};
use crate::view::Desk;
use bs_net::{Gate, NetId};

/// What a source costs. A gate on the way to it costs 1.
/// So one source less is worth a way of 1,024 gates: few facts come first, then near ones.
const SOURCE_COST: u64 = 1024;

/// What a net costs: nothing, once it is taken.
fn cost_of(desk: &Desk<'_>, net: NetId) -> u64 {
    if flag(desk.taken.as_slice(), net) {
        0
    } else {
        at(desk.costs.as_slice(), net.0 as usize, 0)
    }
}

/// The cheaper of two nets.
pub(crate) fn cheaper(desk: &Desk<'_>, one: NetId, other: NetId) -> NetId {
    if cost_of(desk, other) < cost_of(desk, one) {
        other
    } else {
        one
    }
}

/// The cheapest input that decides a gate by itself, if there is one.
pub(crate) fn cheapest_input(desk: &Desk<'_>, gate: &Gate) -> Option<NetId> {
    let bit = deciding_bit(gate.kind)?;
    let mut best = None;
    'inputs: for input in gate.ins.slice() {
        if desk.known_at(*input) & desk.with_bit(*input, bit) != 0 {
            best = match best {
                Some(net) => Some(cheaper(desk, net, *input)),
                None => Some(*input),
            };
        }
    }
    best
}

/// What a gate costs beside itself: that input, or all of them together.
fn inputs_cost(desk: &Desk<'_>, gate: &Gate) -> u64 {
    if let Some(net) = cheapest_input(desk, gate) {
        return cost_of(desk, net);
    }
    let mut sum = 0u64;
    'inputs: for input in gate.ins.slice() {
        sum = sum.saturating_add(cost_of(desk, *input));
    }
    sum
}

/// Notes what each net of the fan-in costs: a constant nothing, and what the block is of nothing, where that is free.
pub(crate) fn price(desk: &mut Desk<'_>) {
    let site = desk.site;
    'leaves: for net in site.fanin.leaves.as_slice() {
        let given = flag(desk.given.as_slice(), *net);
        let own = flag(desk.own.as_slice(), *net);
        let cost = if given || (desk.free && own) {
            0
        } else {
            SOURCE_COST
        };
        put(&mut desk.costs, net.0 as usize, cost);
    }
    'gates: for place in site.fanin.gates.as_slice() {
        if let Some(gate) = site.scene.gate(*place) {
            let cost = inputs_cost(desk, gate).saturating_add(1);
            put(&mut desk.costs, gate.out.0 as usize, cost);
        }
    }
}

/// The cheapest bit that what is taken does not decide, if there is one.
pub(crate) fn cheapest_need(desk: &Desk<'_>) -> Option<Need> {
    let mut best = None;
    let mut least = 0;
    'facts: for fact in desk.site.facts {
        let need = need_of(desk, fact.net);
        let one = flag(desk.taken.as_slice(), need.one);
        let other = flag(desk.taken.as_slice(), need.other);
        let cost = if need.both {
            cost_of(desk, need.one).saturating_add(cost_of(desk, need.other))
        } else {
            cost_of(desk, cheaper(desk, need.one, need.other))
        };
        if !need.is_met(one, other) && (best.is_none() || cost < least) {
            best = Some(need);
            least = cost;
        }
    }
    best
}
