//! What is told of each cycle of some facts.
ghost use Rattle.std.specs.Prelude.{length, IfOk};
ghost use Rattle.bs_net.specs.Netlist.{parts_of};
ghost use Rattle.bs_inspect_why_words.specs.Reasons.{AreReasons, IsReason};
ghost use Rattle.bs_inspect_why_words.specs.Stretches.{starts as starts_of};

use crate::cause::first_cycle;
use crate::stretch::{starts, stretch_back};
use crate::words::first_words;
use bs_bits::{List, NoMemory};
use bs_net::Raw;
use bs_net_facts::Fact;
use std::alloc::Global;

/// What is told of a cycle.
#[derive(Drop)]
pub struct Reason {
    pub words: List<u8>,
    pub cycle: u32,
}

/// What is told of facts in one cycle.
#[tactic(auto, using(crate::proofs::ReasonLemmas::reason_is))]
fn reason_of(alloc: Global, raw: &Raw, facts: &[Fact], most: usize) -> Result<Reason, NoMemory>
    ensures { IfOk result (λ r. IsReason (parts_of raw.now) most facts.now r) }
{
    let words = first_words(alloc, raw, facts, most)?;
    Ok(Reason {
        words,
        cycle: first_cycle(facts),
    })
}

/// What is told of each stretch, from the last one on.
#[tactic(auto, using(crate::proofs::ReasonLemmas::reasons_begin))]
fn reasons_by(
    alloc: Global,
    raw: &Raw,
    facts: &[Fact],
    begins: &[usize],
    most: usize,
) -> Result<Vec<Reason>, NoMemory>
    ensures { IfOk result (λ reasons. AreReasons (parts_of raw.now) most facts.now begins.now (length begins.now) reasons.items) }
{
    let mut reasons = Vec::new(alloc);
    'stretches: for j in 0..begins.len() {
        let reason = reason_of(alloc, raw, stretch_back(facts, begins, j), most)?;
        reasons.push(reason)?;
    }
    Ok(reasons)
}

/// What is told of each cycle, from the last one on.
pub(crate) fn reasons(
    alloc: Global,
    raw: &Raw,
    facts: &[Fact],
    most: usize,
) -> Result<Vec<Reason>, NoMemory>
    ensures { IfOk result (λ reasons. AreReasons (parts_of raw.now) most facts.now (starts_of facts.now) (length (starts_of facts.now)) reasons.items) }
{
    let begins = starts(alloc, facts)?;
    let reasons = reasons_by(alloc, raw, facts, begins.as_slice(), most)?;
    Ok(reasons)
}
