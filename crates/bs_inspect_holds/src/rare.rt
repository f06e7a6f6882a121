//! What shows 1 at few of the cycles in which a block's bits are kept, and does not matter.

use crate::hold::Hold;
use crate::idle::{is_beside, push_unforced, shares_vector};
use crate::scene::TraceScene;
use crate::tables::{bit_of, has, put_facts};
use crate::view::{Desk, Site};
use bs_bits::{List, NoMemory};
use bs_net::NetId;
use bs_net_facts::Fact;

/// At how many cycles of a block at most a net is rare.
/// What comes in so few cycles is an event, which a reader might take for a cause.
const MAX_CYCLES: u64 = 3;

/// How many rare nets are told of a block.
/// More would hide the causes.
const MAX_NETS: usize = 3;

/// The cycles from one on up to the block's, each with the hold that keeps the bits of flip-flops there.
#[derive(Clone, Copy)]
pub(crate) struct KeptCycles<'a> {
    pub(crate) site: &'a Site<'a>,
    pub(crate) holds: &'a [Hold],
    pub(crate) first: u32,
}

/// A net that is rare, and at how many cycles it shows 1.
#[derive(Clone, Copy)]
struct Rare {
    net: NetId,
    ones: u64,
}

/// At how many of a hold's cycles a net shows 1.
fn ones_of_hold(scene: &TraceScene<'_>, hold: &Hold, net: NetId) -> u64 {
    let mut ones = 0u64;
    let mut first = 0u32;
    'words: for cycles in hold.cycles.as_slice() {
        let word = scene.shown(net, first) & *cycles;
        ones = ones.saturating_add(u64::from(word.count_ones()));
        first = first.saturating_add(64);
    }
    ones
}

/// At how many cycles a net shows 1 beside the sources that keep the bits there.
fn ones_of(kept: &KeptCycles<'_>, desk: &Desk<'_>, net: NetId) -> u64 {
    let mut ones = 0u64;
    'holds: for hold in kept.holds {
        if is_beside(desk, hold.nets.as_slice(), net) {
            ones = ones.saturating_add(ones_of_hold(desk.site.scene, hold, net));
        }
    }
    ones
}

/// The rare leaves of the fan-in, the nearest first.
fn rare_leaves(kept: &KeptCycles<'_>, desk: &Desk<'_>) -> Result<Vec<Rare>, NoMemory> {
    let cycles = u64::from(kept.site.end.saturating_sub(kept.first));
    let mut rare = Vec::new(kept.site.alloc);
    'leaves: for net in kept.site.fanin.leaves.as_slice() {
        let ones = ones_of(kept, desk, *net);
        if 0 < ones && ones <= MAX_CYCLES && ones <= cycles / 4 {
            rare.push(Rare { net: *net, ones })?;
        }
    }
    Ok(rare)
}

/// Tells that a net shows 1 at a cycle, unless the sources that keep the bits there force it or are of its vector.
fn push_cycle(
    kept: &KeptCycles<'_>,
    desk: &mut Desk<'_>,
    net: NetId,
    cycle: u32,
    idle: &mut List<Fact>,
) -> Result<(), NoMemory> {
    desk.look(cycle, bit_of(cycle), false);
    'holds: for hold in kept.holds {
        let nets = hold.nets.as_slice();
        let keeps = has(hold.cycles.as_slice(), cycle);
        if keeps && !shares_vector(kept.site.scene, nets, net) {
            push_unforced(desk, nets, &[net], idle)?;
        }
    }
    Ok(())
}

/// Tells at which cycles a net shows 1. It gives whether there is one.
fn push_net(
    kept: &KeptCycles<'_>,
    desk: &mut Desk<'_>,
    net: NetId,
    idle: &mut List<Fact>,
) -> Result<bool, NoMemory> {
    let before = idle.len();
    'cycles: for cycle in kept.first..kept.site.end {
        if kept.site.scene.shown(net, cycle) & bit_of(cycle) != 0 {
            push_cycle(kept, desk, net, cycle, idle)?;
        }
    }
    Ok(before < idle.len())
}

/// Tells of the nets that show 1 at so many cycles, up to so many of them. It gives how many more there may be.
fn push_nets(
    kept: &KeptCycles<'_>,
    desk: &mut Desk<'_>,
    rare: &[Rare],
    ones: u64,
    room: usize,
    idle: &mut List<Fact>,
) -> Result<usize, NoMemory> {
    let mut left = room;
    'rare: for one in rare {
        if left > 0 && one.ones == ones {
            if push_net(kept, desk, one.net, idle)? {
                left -= 1;
            }
        }
    }
    Ok(left)
}

/// Tells what shows 1 at few cycles at which bits are kept, and does not matter there: the rarest nets first.
pub(crate) fn push_rare(
    kept: &KeptCycles<'_>,
    desk: &mut Desk<'_>,
    idle: &mut List<Fact>,
) -> Result<(), NoMemory> {
    let rare = rare_leaves(kept, desk)?;
    put_facts(&mut desk.given, kept.site.facts, true);
    let mut room = MAX_NETS;
    'ones: for ones in 1..MAX_CYCLES + 1 {
        room = push_nets(kept, desk, rare.as_slice(), ones, room, idle)?;
    }
    put_facts(&mut desk.given, kept.site.facts, false);
    Ok(())
}
