//! Marks cycle by cycle: whether a block's facts force its bits.
ghost use Rattle.std.specs.Prelude.{◌≡◌, ◌≤◌, ◌<◌, ◌+◌, ◌^◌, length, true, IfOk};
ghost use Rattle.bs_net.specs.Netlist.{circuit};
ghost use Rattle.bs_net_facts.specs.Marked.{Blank, Forced, tell_bits};

use crate::block::{Block, Cone};
use crate::cycle::{mark_cycle, tell_bits};
use crate::known_loads::{KnownNet, carry};
use crate::mark_table::Board;
use bs_bits::NoMemory;
use bs_net::Netlist;
use bs_sim::Mark;
use std::alloc::Global;

/// Whether marks tell a block's bits, from its first cycle on.
fn is_told(marks: &[Mark], block: &Block, cycle: u32) -> bool
    ensures { result ≡ true → block.now.since ≤ cycle → tell_bits marks.now block.now.bits ≡ true }
{
    if cycle < block.since {
        return true;
    }
    tell_bits(marks, block.bits.slice())
}

/// Whether marks from this cycle on tell a block's bits.
#[tactic(auto, using(crate::proofs::PassLemmas::before_first, crate::proofs::PassLemmas::before_next, crate::proofs::PassLemmas::before_last))]
fn pass(
    board: &mut Board<'_>,
    kept: &mut Vec<KnownNet>,
    cone: &Cone,
    block: &Block,
    first: u32,
) -> Result<bool, NoMemory>
    requires blank { Blank board.old }
    requires none { length kept.old.items ≡ 0 }
    requires before { first ≤ block.now.since }
    requires last { block.now.at + 1 < 2 ^ 32 }
    ensures { IfOk result (λ forced. forced ≡ true → Forced (circuit board.old.net) block.now) }
{
    let mut from = 0;
    'cycles: for cycle in first..block.at + 1 {
        let next = mark_cycle(board, kept.as_slice(), cone, block, from, cycle)?;
        from = next;
        if !is_told(board.marks(), block, cycle) {
            return Ok(false);
        }
        carry(board.marks(), board.net(), cone.flops.slice(), kept)?;
        board.clear();
    }
    Ok(true)
}

/// The first cycle that a block speaks of: that of its first fact, and that before its bits, which constants may force.
fn first_cycle(block: &Block) -> u32
    ensures { result ≤ block.now.since }
{
    let before = block.since.saturating_sub(1);
    if block.given.len() == 0 {
        return before;
    }
    block.given.get(0).cycle.min(before)
}

/// Whether a block's facts force its bits, as far as marks tell.
pub(crate) fn is_forced(
    alloc: Global,
    net: &Netlist,
    cone: &Cone,
    block: &Block,
) -> Result<bool, NoMemory>
    requires { block.now.at + 1 < 2 ^ 32 }
    ensures { IfOk result (λ forced. forced ≡ true → Forced (circuit net.now) block.now) }
{
    let mut board = Board::new(alloc, net)?;
    let mut kept = Vec::new(alloc);
    let forced = pass(&mut board, &mut kept, cone, block, first_cycle(block))?;
    Ok(forced)
}
