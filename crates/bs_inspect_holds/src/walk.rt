//! A walk from what is needed down to the sources that decide it at least cost.

use crate::costs::{cheaper, cheapest_input, cheapest_need, price};
use crate::need::Need;
use crate::tables::{flag, put, put_nets};
use crate::view::Desk;
use bs_bits::NoMemory;
use bs_net::NetId;

/// What a walk has come to.
#[derive(Drop)]
struct ConeWalk {
    /// The nets that are taken.
    nets: Vec<NetId>,
    /// The leaves among them, without constants.
    sources: Vec<NetId>,
}

/// Takes those of some nets that are not taken.
fn take(desk: &mut Desk<'_>, walk: &mut ConeWalk, nets: &[NetId]) -> Result<(), NoMemory> {
    'nets: for net in nets {
        if !flag(desk.taken.as_slice(), *net) {
            walk.nets.push(*net)?;
            put(&mut desk.taken, net.0 as usize, true);
        }
    }
    Ok(())
}

/// Takes what decides a net: of a gate its cheapest input, if one decides it, and else all. A leaf is a source, unless it is a constant.
fn take_below(desk: &mut Desk<'_>, walk: &mut ConeWalk, net: NetId) -> Result<(), NoMemory> {
    let site = desk.site;
    let Some(place) = site.fanin.gate(site.scene, net) else {
        if !flag(desk.given.as_slice(), net) {
            walk.sources.push(net)?;
        }
        return Ok(());
    };
    let Some(gate) = site.scene.gate(place) else {
        return Ok(());
    };
    match cheapest_input(desk, gate) {
        Some(input) => take(desk, walk, &[input]),
        None => take(desk, walk, gate.ins.slice()),
    }
}

/// Takes what decides the nets of a walk, from a place on.
fn descend(desk: &mut Desk<'_>, walk: &mut ConeWalk, from: usize) -> Result<(), NoMemory> {
    'nets: for i in from..desk.site.scene.nets {
        if i >= walk.nets.len() {
            return Ok(());
        }
        let net = walk.nets[i];
        take_below(desk, walk, net)?;
    }
    Ok(())
}

/// Takes what decides a bit. It gives whether sources came in.
fn settle(desk: &mut Desk<'_>, walk: &mut ConeWalk, need: Need) -> Result<bool, NoMemory> {
    let from = walk.nets.len();
    let before = walk.sources.len();
    if need.both {
        take(desk, walk, &[need.one, need.other])?;
    } else {
        let net = cheaper(desk, need.one, need.other);
        take(desk, walk, &[net])?;
    }
    descend(desk, walk, from)?;
    Ok(before < walk.sources.len())
}

/// Takes what decides all bits, the cheapest first. What is taken costs nothing from then on.
fn settle_all(desk: &mut Desk<'_>, walk: &mut ConeWalk) -> Result<(), NoMemory> {
    price(desk);
    'facts: for _ in 0..desk.site.facts.len() {
        let Some(need) = cheapest_need(desk) else {
            return Ok(());
        };
        if settle(desk, walk, need)? {
            price(desk);
        }
    }
    Ok(())
}

/// Sources of the fan-in that decide all bits at a moment, by ascending numbers. The costs are least one bit after another, and the
/// block's own nets cost nothing where they are free.
pub(crate) fn cheapest_sources(desk: &mut Desk<'_>) -> Result<Vec<NetId>, NoMemory> {
    let mut walk = ConeWalk {
        nets: Vec::new(desk.site.alloc),
        sources: Vec::new(desk.site.alloc),
    };
    settle_all(desk, &mut walk)?;
    walk.sources.sort_by_key(|net| net.0)?;
    let ConeWalk { nets, sources } = walk;
    put_nets(&mut desk.taken, nets.as_slice(), false);
    drop(nets);
    Ok(sources)
}
