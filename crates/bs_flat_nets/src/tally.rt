//! The flat nets, taken one by one.
ghost use Rattle.std.specs.Prelude.{◌≡◌, ◌++◌, ◌∷◌, OnOk};
ghost use Rattle.bs_flat_nets.specs.Tally as spec;

use crate::climbing::NetOnPath;
use crate::constants::Bit;
use bs_bits::{List, NoMemory};
use std::alloc::Global;

/// The flat nets so far, and where the first net of the constants 0 and 1 stands, if it was met.
#[derive(Drop)]
pub struct NetTally {
    pub places: List<NetOnPath>,
    pub zero: Option<usize>,
    pub one: Option<usize>,
}

/// The bit of a net by a list of constants.
pub fn bit_in(bits: &[Bit], net: usize) -> Option<bool>
    ensures { result ≡ spec.bit_in bits.now net }
{
    bits.iter().find(|bit| bit.net == net).map(|bit| bit.value)
}

/// Where the first net of a constant stands, if it was met.
fn first_of(tally: &NetTally, value: bool) -> Option<usize>
    ensures { result ≡ spec.first_of tally.now value }
{
    if value { tally.one } else { tally.zero }
}

/// Adds a net that is no constant.
fn push_plain(tally: &mut NetTally, place: NetOnPath) -> Result<(), NoMemory>
    ensures { OnOk result (tally.new ≡ spec.with_plain tally.old place) }
{
    tally.places.push(place)?;
    Ok(())
}

/// Adds the first net of a constant.
fn push_first(tally: &mut NetTally, place: NetOnPath, value: bool) -> Result<(), NoMemory>
    ensures { OnOk result (tally.new ≡ spec.with_first tally.old place value) }
{
    let at = Some(tally.places.len());
    tally.places.push(place)?;
    if value {
        tally.one = at;
    } else {
        tally.zero = at;
    }
    Ok(())
}

/// Adds a net that is a constant, where that was not met.
fn push_constant(tally: &mut NetTally, place: NetOnPath, value: bool) -> Result<(), NoMemory>
    ensures { OnOk result (tally.new ≡ spec.with_constant tally.old place value) }
{
    if first_of(tally, value).is_some() {
        return Ok(());
    }
    push_first(tally, place, value)?;
    Ok(())
}

/// Adds a net with its bit, where that is known.
fn push_net(tally: &mut NetTally, place: NetOnPath, bit: Option<bool>) -> Result<(), NoMemory>
    ensures { OnOk result (tally.new ≡ spec.with_net tally.old place bit) }
{
    match bit {
        None => {
            push_plain(tally, place)?;
            Ok(())
        }
        Some(value) => {
            push_constant(tally, place, value)?;
            Ok(())
        }
    }
}

/// Adds nets of a node, by the constants of its block.
pub fn push_nets(
    tally: &mut NetTally,
    node: u32,
    bits: &[Bit],
    nets: &[usize],
) -> Result<(), NoMemory>
    ensures { OnOk result (tally.new ≡ spec.with_nets tally.old node bits.now nets.now) }
{
    'nets: for &net in nets {
        let bit = bit_in(bits, net);
        push_net(tally, NetOnPath { node, net }, bit)?;
    }
    Ok(())
}
