//! Whether a block is the trace's, and its facts force its bits.
ghost use Rattle.std.specs.Prelude.{◌≡◌, ◌<◌, ◌≤◌, ◌==◌, ◌+◌, ◌^◌, true, length, map, All, IsTrue, IfOk};
ghost use Rattle.std.specs.List.{list_any};
ghost use Rattle.bs_net.specs.Netlist.{circuit};
ghost use Rattle.bs_net_facts.specs.Facts.{IsReal};
ghost use Rattle.bs_net_facts.specs.Blocks.{IsBlock, is_earlier, lasting, moved};

use crate::block::{Block, Cone};
use crate::fact::Fact;
use crate::moments::Moments;
use crate::pass::is_forced;
use bs_bits::NoMemory;
use bs_net::NetId;
use std::alloc::Global;

/// Whether a net has this bit at this moment of the trace.
fn is_real(moments: &Moments<'_>, net: NetId, cycle: u32, bit: bool) -> bool
    ensures { result ≡ true → IsReal (circuit moments.now.net) moments.now.states moments.now.inputs (record { net = net; cycle = cycle; bit = bit }) }
{
    match moments.bit(net, cycle) {
        Some(shown) => shown == bit,
        None => false,
    }
}

/// Whether some facts are the trace's.
#[tactic(auto, using(crate::proofs::ToldLemmas::real_none, crate::proofs::ToldLemmas::real_taken))]
fn are_real(moments: &Moments<'_>, facts: &[Fact]) -> bool
    ensures { result ≡ true → All (IsReal (circuit moments.now.net) moments.now.states moments.now.inputs) facts.now }
{
    'facts: for fact in facts {
        if !is_real(moments, fact.net, fact.cycle, fact.bit) {
            return false;
        }
    }
    true
}

/// Whether nets have their bits at a cycle of the trace.
#[tactic(auto, using(crate::proofs::ToldLemmas::real_none, crate::proofs::ToldLemmas::real_moved))]
fn are_real_at(moments: &Moments<'_>, bits: &[Fact], cycle: u32) -> bool
    ensures { result ≡ true → All (IsReal (circuit moments.now.net) moments.now.states moments.now.inputs) (map (moved cycle) bits.now) }
{
    'bits: for fact in bits {
        if !is_real(moments, fact.net, cycle, fact.bit) {
            return false;
        }
    }
    true
}

/// Whether the bits of a block are the trace's, in each cycle in which they stand.
#[tactic(auto, using(crate::proofs::ToldLemmas::real_first, crate::proofs::ToldLemmas::real_stretch, crate::proofs::ToldLemmas::real_lasting))]
fn is_shown(moments: &Moments<'_>, block: &Block) -> bool
    requires { block.now.at + 1 < 2 ^ 32 }
    ensures { result ≡ true → All (IsReal (circuit moments.now.net) moments.now.states moments.now.inputs) (lasting block.now) }
{
    'cycles: for cycle in block.since..block.at + 1 {
        if !are_real_at(moments, block.bits.slice(), cycle) {
            return false;
        }
    }
    true
}

/// Whether one of these facts is of the net.
fn has_net(bits: &[Fact], net: NetId) -> bool
    ensures { result ≡ list_any (λ p. p.net.0 == net.0) bits.now }
{
    bits.iter().any(|fact| fact.net.0 == net.0)
}

/// Whether a fact is before a block, or of another net than its own.
fn is_earlier(block: &Block, fact: Fact) -> bool
    ensures { result ≡ is_earlier block.now fact }
{
    let before = fact.cycle < block.since;
    let behind = block.at < fact.cycle;
    let own = has_net(block.bits.slice(), fact.net);
    before || (!behind && !own)
}

/// Whether some facts are before a block, or of other nets than its own.
#[tactic(auto, using(crate::proofs::ToldLemmas::earlier_none, crate::proofs::ToldLemmas::earlier_taken))]
fn are_earlier(block: &Block, given: &[Fact]) -> bool
    ensures { result ≡ true → All (λ f. IsTrue (is_earlier block.now f)) given.now }
{
    'facts: for fact in given {
        if !is_earlier(block, *fact) {
            return false;
        }
    }
    true
}

/// Whether a block is within the trace.
fn is_within(moments: &Moments<'_>, block: &Block) -> bool
    ensures some { result ≡ true → 0 < length block.now.bits }
    ensures order { result ≡ true → block.now.since ≤ block.now.at }
    ensures last { result ≡ true → block.now.at < length moments.now.states }
    ensures small { result ≡ true → block.now.at + 1 < 2 ^ 32 }
    ensures start { result ≡ true → block.now.begun ≡ true → block.now.since ≡ 0 }
{
    if block.bits.len() == 0 {
        return false;
    }
    if block.at < block.since {
        return false;
    }
    if block.at >= u32::MAX - 1 {
        return false;
    }
    if block.begun && block.since != 0 {
        return false;
    }
    (block.at as usize) < moments.len()
}

/// Whether a block's facts and bits are the trace's, and the facts force the bits as far as marks tell, which go over these gates
/// and flip-flops. A block that is refused may be right. It takes time linear in the cycles, and in each of them in the gates, the
/// flip-flops and the facts.
#[tactic(auto, using(crate::proofs::ToldLemmas::block_made))]
pub fn is_block(
    alloc: Global,
    moments: &Moments<'_>,
    cone: &Cone,
    block: &Block,
) -> Result<bool, NoMemory>
    ensures { IfOk result (λ is. is ≡ true → IsBlock (circuit moments.now.net) moments.now.states moments.now.inputs block.now) }
{
    if !is_within(moments, block) {
        return Ok(false);
    }
    if !are_earlier(block, block.given.slice()) {
        return Ok(false);
    }
    if !are_real(moments, block.given.slice()) {
        return Ok(false);
    }
    if !is_shown(moments, block) {
        return Ok(false);
    }
    let forced = is_forced(alloc, moments.net(), cone, block)?;
    Ok(forced)
}
