//! What the choice looks at.
ghost use Rattle.std.specs.Prelude.{◌≡◌, IfOk};

use crate::driver::{Driver, drivers_of};
use crate::tables::{at, bit_of, put};
use bs_bits::NoMemory;
use bs_net::{Gate, NetId};
use bs_net_facts::Moments;
use std::alloc::Global;

/// What the choice looks at: a trace, and where cones end.
#[derive(Drop)]
pub struct TraceScene<'a> {
    /// The trace.
    pub moments: &'a Moments<'a>,
    /// Whether cones end at a net, for each net. They end at flip-flops, data inputs and constants anyway.
    pub stops: &'a [bool],
    /// The number of the vector that a net is a bit of, for each net.
    pub groups: &'a [u32],
    /// The number of nets.
    pub nets: usize,
    /// The gates' numbers in the netlist's order.
    pub(crate) order: &'a [u32],
    gates: &'a [Gate],
    /// What drives each net.
    drivers: Vec<Driver>,
    /// How many nets each vector has.
    sizes: Vec<u64>,
    /// The bits of all nets, 64 moments in a word: a word for each net, of the first moments, then one for each of the next ones.
    shown: Vec<u64>,
}

/// How many nets each vector has.
fn sizes_of(alloc: Global, groups: &[u32]) -> Result<Vec<u64>, NoMemory> {
    let mut sizes = vec![in alloc; 0u64; groups.len()]?;
    'nets: for group in groups {
        let size = at(sizes.as_slice(), *group as usize, 0);
        put(&mut sizes, *group as usize, size.saturating_add(1));
    }
    Ok(sizes)
}

/// Writes which of so many nets show 1 at a moment.
fn put_moment(words: &mut Vec<u64>, moments: &Moments<'_>, nets: u32, cycle: u32) {
    let row = (cycle as usize / 64).saturating_mul(nets as usize);
    'nets: for net in 0..nets {
        if moments.bit(NetId(net), cycle) == Some(true) {
            let place = row.saturating_add(net as usize);
            let word = at(words.as_slice(), place, 0);
            put(words, place, word | bit_of(cycle));
        }
    }
}

/// The bits of so many nets at all moments.
fn shown_of(alloc: Global, moments: &Moments<'_>, nets: u32) -> Result<Vec<u64>, NoMemory> {
    let rows = moments.len() / 64 + 1;
    let mut words = vec![in alloc; 0; rows.saturating_mul(nets as usize)]?;
    let mut cycle = 0u32;
    'moments: for _ in 0..moments.len() {
        put_moment(&mut words, moments, nets, cycle);
        cycle = cycle.saturating_add(1);
    }
    Ok(words)
}

impl<'a> TraceScene<'a> {
    /// What the choice looks at, with tables over all nets and moments. They take a bit for each net and moment.
    pub fn new(
        alloc: Global,
        moments: &'a Moments<'a>,
        stops: &'a [bool],
        groups: &'a [u32],
    ) -> Result<TraceScene<'a>, NoMemory>
        ensures moments { IfOk result (λ s. s.moments.now ≡ moments.now) }
        ensures stops { IfOk result (λ s. s.stops.now ≡ stops.now) }
        ensures groups { IfOk result (λ s. s.groups.now ≡ groups.now) }
    {
        let net = moments.net();
        let drivers = drivers_of(alloc, net)?;
        let sizes = sizes_of(alloc, groups)?;
        let shown = shown_of(alloc, moments, net.raw().names.len())?;
        Ok(TraceScene {
            moments,
            stops,
            groups,
            nets: net.raw().names.len() as usize,
            order: net.order().slice(),
            gates: net.raw().gates.slice(),
            drivers,
            sizes,
            shown,
        })
    }

    /// What drives a net.
    pub fn driver(&self, net: NetId) -> Driver {
        at(self.drivers.as_slice(), net.0 as usize, Driver::Outside)
    }

    /// The gate at a place of the netlist's order.
    pub(crate) fn gate(&self, place: usize) -> Option<&Gate> {
        let number = at(self.order, place, u32::MAX) as usize;
        if number < self.gates.len() {
            Some(&self.gates[number])
        } else {
            None
        }
    }

    /// The number of the vector that a net is a bit of.
    pub fn group(&self, net: NetId) -> u32 {
        at(self.groups, net.0 as usize, u32::MAX)
    }

    /// Whether a net is a vector by itself.
    pub fn is_single(&self, net: NetId) -> bool {
        at(self.sizes.as_slice(), self.group(net) as usize, 0) == 1
    }

    /// The bits of a net at the 64 moments among which one is.
    pub(crate) fn shown(&self, net: NetId, cycle: u32) -> u64 {
        let row = (cycle as usize / 64).saturating_mul(self.nets);
        at(self.shown.as_slice(), row.saturating_add(net.0 as usize), 0)
    }
}
