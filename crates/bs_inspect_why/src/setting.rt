//! Where cones end, and which nets make a vector. Nothing is promised of either: what the choice proposes is decided by is_block.

use bs_bits::NoMemory;
use bs_inspect_holds::put;
use bs_inspect_view::{Signal, is_nameless, net_keys, net_signals};
use bs_net::{Gate, Kind, Netlist};
use bs_net_names::key_parts;
use std::alloc::Global;

/// Whether a cone ends at each of these nets: at those with a name that somebody gave them, unless it ends at flip-flops alone.
fn stops_by(alloc: Global, keys: &[&str], flops: bool) -> Result<Vec<bool>, NoMemory> {
    let mut stops = Vec::new(alloc);
    for key in keys {
        stops.push(!flops && !is_nameless(key_parts(key.as_bytes()).base))?;
    }
    Ok(stops)
}

/// Lets cones go on through gates that show their one input.
fn pass_bufs(stops: &mut Vec<bool>, gates: &[Gate]) {
    for gate in gates {
        match gate.kind {
            Kind::Buf => put(stops, gate.out.0 as usize, false),
            _ => {}
        }
    }
}

/// Whether a cone ends at each net.
pub(crate) fn stops(alloc: Global, net: &Netlist, flops: bool) -> Result<Vec<bool>, NoMemory> {
    let keys = net_keys(alloc, net)?;
    let mut stops = stops_by(alloc, keys.as_slice(), flops)?;
    pass_bufs(&mut stops, net.raw().gates.slice());
    Ok(stops)
}

/// Gives the nets of a vector its number.
fn put_group(groups: &mut Vec<u32>, places: &[u32], number: u32) {
    for place in places {
        put(groups, *place as usize, number);
    }
}

/// Gives the nets of all vectors their numbers.
fn put_groups(groups: &mut Vec<u32>, signals: &[Signal<'_>]) {
    let mut number = 0u32;
    for signal in signals {
        put_group(groups, signal.places.slice(), number);
        number = number.saturating_add(1);
    }
}

/// The number of the vector of each net.
pub(crate) fn groups(alloc: Global, net: &Netlist) -> Result<Vec<u32>, NoMemory> {
    let signals = net_signals(alloc, net, &[])?;
    let mut groups: Vec<u32> = vec![in alloc; 0; net.raw().names.len() as usize]?;
    put_groups(&mut groups, signals.as_slice());
    Ok(groups)
}
