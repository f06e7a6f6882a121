//! What keeps the bits of flip-flops: sets of sources, each at all cycles at which it does.

use crate::choice::{ChosenSources, choose};
use crate::known::{know_by_given, note_gates};
use crate::need::all_kept;
use crate::tables::{at, bit_of, has, put, put_facts, put_nets};
use crate::view::Desk;
use bs_bits::NoMemory;
use bs_net::NetId;

/// So many holds get their cycles in the order of how many these are. No more are looked for in a line.
/// Each takes a look at all holds behind it.
const MAX_SHARES: usize = 64;

/// Sources that keep some bits, and the cycles at which they do, or are told.
#[derive(Drop)]
pub(crate) struct Hold {
    pub(crate) nets: Vec<NetId>,
    pub(crate) cycles: Vec<u64>,
}

/// What is found to keep some bits, which are the same from a cycle on.
#[derive(Drop)]
pub(crate) struct Keeping {
    pub(crate) first: u32,
    /// The cycles from that one on.
    pub(crate) cycles: Vec<u64>,
    pub(crate) holds: Vec<Hold>,
}

/// Those of 64 cycles at which given nets keep the bits.
fn kept_word(desk: &mut Desk<'_>, first: u32, cycles: u64) -> u64 {
    if cycles == 0 {
        return 0;
    }
    let site = desk.site;
    desk.look(first, cycles, true);
    know_by_given(desk, site.fanin);
    note_gates(desk, site.fanin.gates.as_slice());
    all_kept(desk)
}

/// Those of some cycles at which sources keep the bits, with the block's own nets.
fn kept_by(desk: &mut Desk<'_>, sources: &[NetId], cycles: &[u64]) -> Result<Vec<u64>, NoMemory> {
    let site = desk.site;
    put_nets(&mut desk.given, sources, true);
    put_facts(&mut desk.given, site.facts, true);
    let mut kept = Vec::new(site.alloc);
    let mut first = 0u32;
    'words: for word in cycles {
        kept.push(kept_word(desk, first, *word))?;
        first = first.saturating_add(64);
    }
    put_nets(&mut desk.given, sources, false);
    put_facts(&mut desk.given, site.facts, false);
    Ok(kept)
}

/// Whether one of some holds keeps the bits at a cycle.
fn is_kept(holds: &[Hold], cycle: u32) -> bool {
    'holds: for hold in holds {
        if has(hold.cycles.as_slice(), cycle) {
            return true;
        }
    }
    false
}

/// Puts in a hold, unless it does not keep the bits at a cycle. It gives whether it does.
fn push_hold(holds: &mut Vec<Hold>, cycle: u32, hold: Hold) -> Result<bool, NoMemory> {
    if !has(hold.cycles.as_slice(), cycle) {
        drop(hold);
        return Ok(false);
    }
    holds.push(hold)?;
    Ok(true)
}

/// Keeps the bits at a cycle by chosen sources, and at others by the way. It gives whether the bits are kept there: where the block's
/// own nets are not among the sources, they set the bits once more.
fn keep(desk: &mut Desk<'_>, keeping: &mut Keeping, cycle: u32) -> Result<bool, NoMemory> {
    desk.look(cycle, bit_of(cycle), true);
    let ChosenSources { nets, own } = choose(desk)?;
    if !own {
        drop(nets);
        return Ok(false);
    }
    let cycles = kept_by(desk, nets.as_slice(), keeping.cycles.as_slice())?;
    push_hold(&mut keeping.holds, cycle, Hold { nets, cycles })
}

/// Keeps the bits of flip-flops at each cycle, the latest first, down to one at which they are set. It gives the cycle behind that, or
/// the first one. The holds have all that keeps the bits from then on, and may have more.
pub(crate) fn keep_all(desk: &mut Desk<'_>, keeping: &mut Keeping) -> Result<u32, NoMemory> {
    let first = keeping.first;
    let end = desk.site.end;
    'cycles: for back in 0..end.saturating_sub(first) {
        let cycle = end - 1 - back;
        if !is_kept(keeping.holds.as_slice(), cycle) {
            if !keep(desk, keeping, cycle)? {
                return Ok(cycle + 1);
            }
        }
    }
    Ok(first)
}

/// The place of the hold, from a place on, that keeps the bits at the most cycles that are left.
fn widest(holds: &[Hold], from: usize, left: &[u64]) -> usize {
    let mut best = from;
    let mut most = 0;
    'holds: for i in from..holds.len() {
        let cycles = holds[i].cycles.as_slice();
        let mut count = 0u64;
        'words: for k in 0..left.len() {
            let word = left[k] & at(cycles, k, 0);
            count = count.saturating_add(u64::from(word.count_ones()));
        }
        if most < count {
            best = i;
            most = count;
        }
    }
    best
}

/// Leaves to a hold its cycles that are left, and takes them off.
fn take_cycles(hold: &mut Hold, left: &mut Vec<u64>) {
    'words: for i in 0..left.len() {
        let word = at(left.as_slice(), i, 0);
        let kept = word & at(hold.cycles.as_slice(), i, 0);
        put(&mut hold.cycles, i, kept);
        put(left, i, word & !kept);
    }
}

/// Gives to a hold behind those that have theirs the cycles that are left at which it keeps the bits: to that with the most.
fn share_next(holds: &mut Vec<Hold>, place: usize, left: &mut Vec<u64>) {
    let best = if place < MAX_SHARES {
        widest(holds.as_slice(), place, left.as_slice())
    } else {
        place
    };
    if place < holds.len() && best < holds.len() {
        holds.swap(place, best);
        take_cycles(&mut holds[place], left);
    }
}

/// Gives each cycle that is left to one of the holds that keep the bits there.
pub(crate) fn share(holds: &mut Vec<Hold>, left: &mut Vec<u64>) {
    'holds: for place in 0..holds.len() {
        share_next(holds, place, left);
    }
}
