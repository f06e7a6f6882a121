//! What shows 1 below a block, is not forced by its facts, and does not matter.

use crate::driver::Driver;
use crate::fanin::fanin_of;
use crate::known::know_by_given;
use crate::scene::TraceScene;
use crate::tables::{flag, put_nets};
use crate::view::{Desk, give_constants};
use bs_bits::{List, NoMemory};
use bs_net::NetId;
use bs_net_facts::Fact;

/// Whether one of these nets is of the same vector as a net.
pub(crate) fn shares_vector(scene: &TraceScene<'_>, nets: &[NetId], net: NetId) -> bool {
    let group = scene.group(net);
    'nets: for other in nets {
        if scene.group(*other) == group {
            return true;
        }
    }
    false
}

/// Whether a net is worth telling beside sources: a gate's net at which a cone ends, or a vector by itself. It is not the block's own,
/// and of no vector of theirs.
pub(crate) fn is_beside(desk: &Desk<'_>, sources: &[NetId], net: NetId) -> bool {
    let scene = desk.site.scene;
    let telling = match scene.driver(net) {
        Driver::Gate(_) => true,
        Driver::Constant => false,
        _ => scene.is_single(net),
    };
    let own = flag(desk.own.as_slice(), net);
    telling && !own && !shares_vector(scene, sources, net)
}

/// Notes which of some nets given nets force at a cycle, down all cones.
fn know_forced(desk: &mut Desk<'_>, nets: &[NetId]) -> Result<(), NoMemory> {
    let site = desk.site;
    let ends = Vec::from_slice(site.alloc, desk.given.as_slice())?;
    let fanin = fanin_of(site.alloc, site.scene, nets, ends)?;
    give_constants(desk, fanin.leaves.as_slice());
    know_by_given(desk, &fanin);
    drop(fanin);
    Ok(())
}

/// Tells that those of some nets show 1 at a cycle that sources do not force there.
pub(crate) fn push_unforced(
    desk: &mut Desk<'_>,
    sources: &[NetId],
    nets: &[NetId],
    idle: &mut List<Fact>,
) -> Result<(), NoMemory> {
    put_nets(&mut desk.given, sources, true);
    know_forced(desk, nets)?;
    put_nets(&mut desk.given, sources, false);
    'nets: for net in nets {
        if desk.known_at(*net) == 0 {
            idle.push(Fact {
                net: *net,
                cycle: desk.cycle,
                bit: true,
            })?;
        }
    }
    Ok(())
}

/// Tells what shows 1 at a moment below a block and does not matter, where sources decide it: the nearest first.
pub(crate) fn push_idle(
    desk: &mut Desk<'_>,
    sources: &[NetId],
    idle: &mut List<Fact>,
) -> Result<(), NoMemory> {
    let site = desk.site;
    let mut ones = Vec::new(site.alloc);
    'leaves: for net in site.fanin.leaves.as_slice() {
        let one = desk.with_bit(*net, true) != 0;
        if one && is_beside(desk, sources, *net) {
            ones.push(*net)?;
        }
    }
    push_unforced(desk, sources, ones.as_slice(), idle)?;
    Ok(())
}
