//! The nets below some nets, down to where a cone ends.

use crate::driver::Driver;
use crate::scene::TraceScene;
use crate::tables::{flag, put};
use bs_bits::NoMemory;
use bs_net::NetId;
use std::alloc::Global;

/// The nets below some nets, down to where a cone ends.
#[derive(Drop)]
pub(crate) struct Fanin {
    /// All of them, the nearest first.
    nets: Vec<NetId>,
    /// Whether a net is one of them, for each net.
    seen: Vec<bool>,
    /// Whether the cone ends at a net, for each net. It ends where no gate drives a net anyway.
    ends: Vec<bool>,
    /// Those at which the cone ends, the nearest first.
    pub(crate) leaves: Vec<NetId>,
    /// The gates of the others, by their places in the netlist's order.
    pub(crate) gates: Vec<usize>,
}

impl Fanin {
    /// The place of a net's gate in the netlist's order, unless the cone ends at the net.
    pub(crate) fn gate(&self, scene: &TraceScene<'_>, net: NetId) -> Option<usize> {
        if flag(self.ends.as_slice(), net) {
            return None;
        }
        match scene.driver(net) {
            Driver::Gate(place) => Some(place),
            _ => None,
        }
    }
}

/// Puts in those of some nets that are not there.
fn reach(fanin: &mut Fanin, nets: &[NetId]) -> Result<(), NoMemory> {
    'nets: for net in nets {
        if !flag(fanin.seen.as_slice(), *net) {
            fanin.nets.push(*net)?;
            put(&mut fanin.seen, net.0 as usize, true);
        }
    }
    Ok(())
}

/// Puts in what is below a net, unless the cone ends there.
fn visit(scene: &TraceScene<'_>, fanin: &mut Fanin, net: NetId) -> Result<(), NoMemory> {
    let Some(place) = fanin.gate(scene, net) else {
        fanin.leaves.push(net)?;
        return Ok(());
    };
    fanin.gates.push(place)?;
    match scene.gate(place) {
        Some(gate) => reach(fanin, gate.ins.slice()),
        None => Ok(()),
    }
}

/// Puts in some nets, and what is below the nets that are in.
fn fill(scene: &TraceScene<'_>, fanin: &mut Fanin, roots: &[NetId]) -> Result<(), NoMemory> {
    reach(fanin, roots)?;
    'nets: for i in 0..scene.nets {
        if i < fanin.nets.len() {
            let net = fanin.nets[i];
            visit(scene, fanin, net)?;
        }
    }
    fanin.gates.sort()?;
    Ok(())
}

/// The nets below some nets. The cone ends at these ends, and where no gate drives a net.
pub(crate) fn fanin_of(
    alloc: Global,
    scene: &TraceScene<'_>,
    roots: &[NetId],
    ends: Vec<bool>,
) -> Result<Fanin, NoMemory> {
    let seen = vec![in alloc; false; scene.nets]?;
    let mut fanin = Fanin {
        nets: Vec::new(alloc),
        seen,
        ends,
        leaves: Vec::new(alloc),
        gates: Vec::new(alloc),
    };
    match fill(scene, &mut fanin, roots) {
        Ok(()) => Ok(fanin),
        Err(refused) => {
            drop(fanin);
            Err(refused)
        }
    }
}
