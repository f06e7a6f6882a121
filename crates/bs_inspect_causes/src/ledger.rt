//! What is told so far, and what the choice of further facts counts. Nothing is promised of it.

use bs_bits::NoMemory;
use bs_inspect_holds::{at, put};
use bs_net::NetId;
use bs_net_facts::{Block, Fact};
use std::alloc::Global;

/// What is told and counted of a net.
#[derive(Clone, Copy)]
struct LedgerEntry {
    /// The first cycle of the block that told it last, and the cycle behind its last one.
    since: u64,
    until: u64,
    /// In how many cycles it keeps the bits of the present account.
    holds: u64,
}

/// Nothing.
const NOTHING: LedgerEntry = LedgerEntry {
    since: 0,
    until: 0,
    holds: 0,
};

/// What is told so far, and counts, by nets.
#[derive(Drop)]
pub(crate) struct Ledger {
    entries: Vec<LedgerEntry>,
}

impl Ledger {
    /// Of so many nets nothing is told.
    pub(crate) fn new(alloc: Global, nets: usize) -> Result<Ledger, NoMemory> {
        let entries = vec![in alloc; NOTHING; nets]?;
        Ok(Ledger { entries })
    }

    /// What is told and counted of a net.
    fn entry(&self, net: NetId) -> LedgerEntry {
        at(self.entries.as_slice(), net.0 as usize, NOTHING)
    }

    /// Sets in how many cycles a net keeps bits.
    fn put_holds(&mut self, net: NetId, holds: u64) {
        let entry = self.entry(net);
        put(
            &mut self.entries,
            net.0 as usize,
            LedgerEntry {
                since: entry.since,
                until: entry.until,
                holds,
            },
        );
    }

    /// Notes the cycles of a block.
    pub(crate) fn note(&mut self, block: &Block) {
        let entry = LedgerEntry {
            since: u64::from(block.since),
            until: u64::from(block.at) + 1,
            holds: 0,
        };
        for fact in block.bits.slice() {
            put(&mut self.entries, fact.net.0 as usize, entry);
        }
    }

    /// Whether the block that told a fact's net last tells it in the fact's cycle.
    pub(crate) fn tells(&self, fact: Fact) -> bool {
        let cycle = u64::from(fact.cycle);
        let entry = self.entry(fact.net);
        entry.since <= cycle && cycle < entry.until
    }

    /// Whether all of some facts are told so.
    pub(crate) fn tells_all(&self, facts: &[Fact]) -> bool {
        for fact in facts {
            if !self.tells(*fact) {
                return false;
            }
        }
        true
    }

    /// Counts in how many cycles nets keep bits.
    pub(crate) fn count(&mut self, holds: &[Fact]) {
        for fact in holds {
            let count = self.entry(fact.net).holds;
            self.put_holds(fact.net, count.saturating_add(1));
        }
    }

    /// Takes the counts back.
    pub(crate) fn clear(&mut self, holds: &[Fact]) {
        for fact in holds {
            self.put_holds(fact.net, 0);
        }
    }

    /// Whether a fact is the last one of a net that has kept a block's bits all through, in more than one cycle.
    pub(crate) fn is_steady(&self, block: &Block, fact: Fact) -> bool {
        let cycles = block.at.saturating_sub(block.since);
        let last = block.at.saturating_sub(fact.cycle) == 1;
        let all = self.entry(fact.net).holds == u64::from(cycles);
        last && all && cycles > 1
    }
}
