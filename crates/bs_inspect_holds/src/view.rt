//! What a pass over a fan-in looks at, and what is noted of each net.

use crate::driver::Driver;
use crate::fanin::Fanin;
use crate::scene::TraceScene;
use crate::tables::{at, put};
use bs_bits::NoMemory;
use bs_net::NetId;
use bs_net_facts::Fact;
use std::alloc::Global;

/// Bits that are told together, with what is below them, or below that which their flip-flops load.
#[derive(Clone, Copy)]
pub(crate) struct Site<'a> {
    pub(crate) alloc: Global,
    pub(crate) scene: &'a TraceScene<'a>,
    pub(crate) fanin: &'a Fanin,
    pub(crate) facts: &'a [Fact],
    /// Whether flip-flops drive the bits.
    pub(crate) flop: bool,
    /// The cycle at which they are told.
    pub(crate) end: u32,
}

/// What a pass over a fan-in looks at, some of the 64 moments among which one is, and what is noted of each net while facts are chosen.
#[derive(Drop)]
pub(crate) struct Desk<'a> {
    pub(crate) site: &'a Site<'a>,
    pub(crate) cycle: u32,
    pub(crate) cycles: u64,
    /// Whether the block's own nets cost nothing.
    pub(crate) free: bool,
    /// The cycles, of 64, at which given nets decide it.
    pub(crate) known: Vec<u64>,
    /// What it takes to decide it.
    pub(crate) costs: Vec<u64>,
    /// Whether it is given. Constants always are.
    pub(crate) given: Vec<bool>,
    /// Whether it is chosen, or decided by what is.
    pub(crate) taken: Vec<bool>,
    /// Whether the block is of it.
    pub(crate) own: Vec<bool>,
    /// Whether a pass over the block needs its gate.
    pub(crate) used: Vec<bool>,
}

impl<'a> Desk<'a> {
    /// Nothing is looked at or noted.
    pub(crate) fn new(site: &'a Site<'a>) -> Result<Desk<'a>, NoMemory> {
        let alloc = site.alloc;
        let count = site.scene.nets;
        Ok(Desk {
            site,
            cycle: 0,
            cycles: 0,
            free: false,
            known: vec![in alloc; 0; count]?,
            costs: vec![in alloc; 0; count]?,
            given: vec![in alloc; false; count]?,
            taken: vec![in alloc; false; count]?,
            own: vec![in alloc; false; count]?,
            used: vec![in alloc; false; count]?,
        })
    }

    /// Looks at some of the 64 moments among which one is.
    pub(crate) fn look(&mut self, cycle: u32, cycles: u64, free: bool) {
        self.cycle = cycle;
        self.cycles = cycles;
        self.free = free;
    }

    /// The moments at which a net has this bit.
    pub(crate) fn with_bit(&self, net: NetId, bit: bool) -> u64 {
        let word = self.site.scene.shown(net, self.cycle);
        if bit {
            word & self.cycles
        } else {
            !word & self.cycles
        }
    }

    /// The cycles at which given nets decide a net.
    pub(crate) fn known_at(&self, net: NetId) -> u64 {
        at(self.known.as_slice(), net.0 as usize, 0)
    }
}

/// Gives the constants among some nets.
pub(crate) fn give_constants(desk: &mut Desk<'_>, nets: &[NetId]) {
    let scene = desk.site.scene;
    'nets: for net in nets {
        match scene.driver(*net) {
            Driver::Constant => put(&mut desk.given, net.0 as usize, true),
            _ => {}
        }
    }
}
