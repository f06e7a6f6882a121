//! What drives each net.

use crate::tables::put;
use bs_bits::NoMemory;
use bs_net::{Flop, Gate, Netlist};
use std::alloc::Global;

/// What drives a net.
#[derive(Clone, Copy)]
pub enum Driver {
    /// The gate with this place in the netlist's order.
    Gate(usize),
    /// A flip-flop, with its number.
    Flop(u32, Flop),
    /// A constant.
    Constant,
    /// No part of the netlist. It is a data input, the clock, or a net that always shows 0.
    Outside,
}

/// Writes which nets gates drive, by their numbers in the netlist's order.
fn put_gates(drivers: &mut Vec<Driver>, gates: &[Gate], order: &[u32]) {
    'order: for place in 0..order.len() {
        let number = order[place] as usize;
        if number < gates.len() {
            put(drivers, gates[number].out.0 as usize, Driver::Gate(place));
        }
    }
}

/// Writes which nets flip-flops drive.
fn put_flops(drivers: &mut Vec<Driver>, flops: &[Flop]) {
    let mut number = 0u32;
    'flops: for flop in flops {
        put(drivers, flop.q.0 as usize, Driver::Flop(number, *flop));
        number = number.saturating_add(1);
    }
}

/// What drives each net of a netlist.
pub(crate) fn drivers_of(alloc: Global, net: &Netlist) -> Result<Vec<Driver>, NoMemory> {
    let raw = net.raw();
    let mut drivers = vec![in alloc; Driver::Outside; raw.names.len() as usize]?;
    put_gates(&mut drivers, raw.gates.slice(), net.order().slice());
    put_flops(&mut drivers, raw.flops.slice());
    'constants: for constant in raw.consts.slice() {
        put(&mut drivers, constant.net.0 as usize, Driver::Constant);
    }
    Ok(drivers)
}
