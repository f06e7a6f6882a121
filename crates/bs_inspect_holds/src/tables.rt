//! Tables by number, and sets of cycles, 64 of them in a word. What is behind a table's end is not written.

use bs_bits::NoMemory;
use bs_net::NetId;
use bs_net_facts::Fact;
use std::alloc::Global;

/// What stands at a place, or another value behind the end.
pub fn at<T: Copy>(table: &[T], place: usize, other: T) -> T {
    if place < table.len() {
        table[place]
    } else {
        other
    }
}

/// Writes what stands at a place.
pub fn put<T: Copy>(table: &mut Vec<T>, place: usize, value: T) {
    if place < table.len() {
        table[place] = value;
    }
}

/// Whether the flag of a net is up.
pub(crate) fn flag(flags: &[bool], net: NetId) -> bool {
    at(flags, net.0 as usize, false)
}

/// Puts the flags of nets up or down.
pub(crate) fn put_nets(flags: &mut Vec<bool>, nets: &[NetId], up: bool) {
    'nets: for net in nets {
        put(flags, net.0 as usize, up);
    }
}

/// Puts the flags of facts' nets up or down.
pub(crate) fn put_facts(flags: &mut Vec<bool>, facts: &[Fact], up: bool) {
    'facts: for fact in facts {
        put(flags, fact.net.0 as usize, up);
    }
}

/// The bit of a cycle in its word.
pub(crate) fn bit_of(cycle: u32) -> u64 {
    1 << (cycle % 64)
}

/// Whether a cycle is in a set.
pub(crate) fn has(words: &[u64], cycle: u32) -> bool {
    at(words, cycle as usize / 64, 0) & bit_of(cycle) != 0
}

/// The cycles from one to before another.
pub(crate) fn cycles_from(alloc: Global, first: u32, end: u32) -> Result<Vec<u64>, NoMemory> {
    let mut words = vec![in alloc; 0; end as usize / 64 + 1]?;
    'cycles: for cycle in first..end {
        let place = cycle as usize / 64;
        let word = at(words.as_slice(), place, 0);
        put(&mut words, place, word | bit_of(cycle));
    }
    Ok(words)
}
