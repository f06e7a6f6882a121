//! Which sources decide the bits of a block at a moment: cheap ones, without those that can be left out.

use crate::known::{know_by_given, know_by_trace, know_gates, note_gates};
use crate::need::are_met;
use crate::tables::{flag, put, put_nets};
use crate::view::Desk;
use crate::walk::cheapest_sources;
use bs_bits::NoMemory;
use bs_net::NetId;

/// From how many sources on none is tried to be left out.
/// Each try goes over the gates once more.
const MAX_SOURCES: usize = 200;

/// Sources that decide the bits of a block.
#[derive(Drop)]
pub(crate) struct ChosenSources {
    /// The sources, by ascending numbers, without the block's own nets where they are free.
    pub(crate) nets: Vec<NetId>,
    /// Whether there are free ones beside them.
    pub(crate) own: bool,
}

/// Those of the fan-in's gates that are known.
fn known_gates(desk: &Desk<'_>) -> Result<Vec<usize>, NoMemory> {
    let site = desk.site;
    let mut known = Vec::new(site.alloc);
    'gates: for place in site.fanin.gates.as_slice() {
        if let Some(gate) = site.scene.gate(*place) {
            if desk.known_at(gate.out) != 0 {
                known.push(*place)?;
            }
        }
    }
    Ok(known)
}

/// Whether a source is needed to decide all bits. It is known from then on only if it is.
fn is_needed(desk: &mut Desk<'_>, gates: &[usize], net: NetId) -> bool {
    put(&mut desk.known, net.0 as usize, 0);
    know_gates(desk, gates);
    if are_met(desk) {
        return false;
    }
    let cycles = desk.cycles;
    put(&mut desk.known, net.0 as usize, cycles);
    true
}

/// Leaves out each source without which all bits are decided, one after another, unless there are too many. The block's own nets are not
/// tried where they are free.
fn leave_out(
    desk: &mut Desk<'_>,
    gates: &[usize],
    sources: &[NetId],
) -> Result<ChosenSources, NoMemory> {
    let mut nets = Vec::new(desk.site.alloc);
    let mut own = false;
    'sources: for net in sources {
        if desk.free && flag(desk.own.as_slice(), *net) {
            own = true;
        } else if MAX_SOURCES <= sources.len() || is_needed(desk, gates, *net) {
            nets.push(*net)?;
        }
    }
    Ok(ChosenSources { nets, own })
}

/// Leaves out sources, and notes which gates are needed. What is known are then the sources that are left.
fn lessen(desk: &mut Desk<'_>, sources: &[NetId]) -> Result<ChosenSources, NoMemory> {
    let site = desk.site;
    put_nets(&mut desk.given, sources, true);
    know_by_given(desk, site.fanin);
    put_nets(&mut desk.given, sources, false);
    let gates = known_gates(desk)?;
    let choice = leave_out(desk, gates.as_slice(), sources);
    know_gates(desk, gates.as_slice());
    note_gates(desk, gates.as_slice());
    drop(gates);
    choice
}

/// Sources of the fan-in that decide the bits at a cycle, or what their flip-flops load there. None can be left out. Where the block's
/// own nets are free they cost nothing.
pub(crate) fn choose(desk: &mut Desk<'_>) -> Result<ChosenSources, NoMemory> {
    know_by_trace(desk);
    let sources = cheapest_sources(desk)?;
    let choice = lessen(desk, sources.as_slice());
    drop(sources);
    choice
}
