//! Data inputs that stand still nearly all through a trace, and what they stand for.
ghost use Rattle.std.specs.Prelude.{◌≡◌, ◌<◌, ◌-◌, ◌∷◌, [], ◌++◌, length, if◌then◌else◌, IfOk, OnOk};
ghost use Rattle.std.specs.List.{list_any};
ghost use Rattle.bs_net.specs.Netlist.{circuit};
ghost use Rattle.bs_net_facts.specs.Facts.{IsWayOf};
ghost use Rattle.bs_inspect_causes.specs.Accounts.{AreFactsOf};
ghost use Rattle.bs_inspect_why.specs.Stills.{AreStills, AreStillsFor, covers, is_covered, is_given_in, is_still, shown as shown_of, still_since, stills_of, used as used_of};

use crate::table::moved;
use bs_bits::{List, NoMemory};
use bs_inspect_causes::{Account, ages, input_facts};
use bs_net_facts::{Fact, Moments};
use std::alloc::Global;

/// In how many cycles a data input stands still, at least.
/// In fewer an input may stand still by chance.
pub const STILL_CYCLES: u64 = 16;

/// A data input stands still in all cycles but one of so many, at least.
/// A reset moves in the first cycles, and stands still after them.
pub const STILL_SHARE: u64 = 20;

/// Whether a bit that stands since a cycle up to the end of so many cycles stands still.
fn is_still(cycles: u32, since: u32) -> bool
    ensures { result ≡ is_still cycles since }
{
    u64::from(since) + STILL_CYCLES <= u64::from(cycles)
        && STILL_SHARE * u64::from(since) <= u64::from(cycles)
}

/// Puts a fact at the end, at the cycle since which it stands, where it stands still.
fn put_still(stills: &mut Vec<Fact>, cycles: u32, fact: Fact, since: u32) -> Result<(), NoMemory>
    ensures { OnOk result (stills.new.items ≡ stills.old.items ++ still_since cycles fact since) }
{
    if is_still(cycles, since) {
        stills.push(moved(since, fact))?;
    }
    Ok(())
}

/// Those of facts that stand still, by the cycles since which they stand.
#[tactic(auto, using(crate::proofs::StillLemmas::stills_more))]
fn stills_by(
    alloc: Global,
    cycles: u32,
    facts: &[Fact],
    ages: &[u32],
) -> Result<Vec<Fact>, NoMemory>
    requires { length ages.now ≡ length facts.now }
    ensures { IfOk result (λ stills. stills.items ≡ stills_of cycles facts.now ages.now (length facts.now)) }
{
    let mut stills = Vec::new(alloc);
    'facts: for i in 0..facts.len() {
        put_still(&mut stills, cycles, facts[i], ages[i])?;
    }
    Ok(stills)
}

/// Those of the data inputs' facts at the last cycle that stand still.
#[tactic(auto, using(crate::proofs::StillLemmas::facts_real, crate::proofs::StillLemmas::ages_long, crate::proofs::StillLemmas::stills_are))]
fn stills_among(
    alloc: Global,
    moments: &Moments<'_>,
    cycles: u32,
    facts: &[Fact],
) -> Result<Vec<Fact>, NoMemory>
    requires way { IsWayOf (circuit moments.now.net) moments.now.states moments.now.inputs }
    requires cycles { cycles ≡ length moments.now.inputs }
    requires facts { AreFactsOf moments.now (circuit moments.now.net).inputs (cycles - 1) facts.now }
    ensures { IfOk result (λ stills. AreStills moments.now stills.items) }
{
    let ages = ages(alloc, moments, facts)?;
    let stills = stills_by(alloc, cycles, facts, ages.as_slice())?;
    Ok(stills)
}

/// The data inputs of a trace that stand still.
fn all_stills(alloc: Global, moments: &Moments<'_>, cycles: u32) -> Result<Vec<Fact>, NoMemory>
    requires way { IsWayOf (circuit moments.now.net) moments.now.states moments.now.inputs }
    requires cycles { cycles ≡ length moments.now.inputs }
    requires some { 0 < cycles }
    ensures { IfOk result (λ stills. AreStills moments.now stills.items) }
{
    let facts = input_facts(alloc, moments, cycles - 1)?;
    let stills = stills_among(alloc, moments, cycles, facts.slice())?;
    Ok(stills)
}

/// The number of cycles that have an input. More than can be numbered are answered as out of memory.
#[tactic(auto, using(crate::proofs::StillLemmas::one_there, crate::proofs::StillLemmas::cycles_are))]
fn cycles_of(moments: &Moments<'_>) -> Result<u32, NoMemory>
    requires { IsWayOf (circuit moments.now.net) moments.now.states moments.now.inputs }
    ensures { IfOk result (λ cycles. cycles ≡ length moments.now.inputs) }
{
    let count = moments.len();
    if count > u32::MAX as usize {
        return Err(NoMemory);
    }
    Ok(count as u32 - 1)
}

/// The data inputs of a trace that stand still, where they are told once.
#[tactic(auto, using(crate::proofs::StillLemmas::stills_none, crate::proofs::StillLemmas::stills_some, crate::proofs::StillLemmas::some_cycles))]
pub(crate) fn stills_for(
    alloc: Global,
    moments: &Moments<'_>,
    all: bool,
) -> Result<Vec<Fact>, NoMemory>
    requires { IsWayOf (circuit moments.now.net) moments.now.states moments.now.inputs }
    ensures { IfOk result (λ stills. AreStillsFor all moments.now stills.items) }
{
    let cycles = cycles_of(moments)?;
    let told = !all && 0 < cycles;
    if !told {
        return Ok(Vec::new(alloc));
    }
    let stills = all_stills(alloc, moments, cycles)?;
    Ok(stills)
}

/// Whether a fact that stands still stands for another one.
fn covers(fact: Fact, still: Fact) -> bool
    ensures { result ≡ covers fact still }
{
    still.net.0 == fact.net.0 && still.cycle <= fact.cycle
}

/// Whether one of some facts that stand still stands for a fact.
fn is_covered(stills: &[Fact], fact: Fact) -> bool
    ensures { result ≡ is_covered stills.now fact }
{
    'stills: for still in stills {
        if covers(fact, *still) {
            return true;
        }
    }
    false
}

/// Puts a fact at the end where it is wanted.
fn push_wanted(facts: &mut List<Fact>, fact: Fact, wanted: bool) -> Result<(), NoMemory>
    ensures { OnOk result (facts.new ≡ facts.old ++ (if wanted then fact ∷ [] else [])) }
{
    if wanted {
        facts.push(fact)?;
    }
    Ok(())
}

/// The facts that are told at a block.
pub(crate) fn shown(alloc: Global, stills: &[Fact], facts: &[Fact]) -> Result<List<Fact>, NoMemory>
    ensures { IfOk result (λ told. told ≡ shown_of stills.now facts.now) }
{
    let mut told = List::new(alloc);
    'facts: for fact in facts {
        let covered = is_covered(stills, *fact);
        push_wanted(&mut told, *fact, !covered)?;
    }
    Ok(told)
}

/// Whether a fact that stands still stands for one that is given in an account.
fn is_given_in(still: Fact, account: &Account) -> bool
    ensures { result ≡ is_given_in still account.now }
{
    let given = account.block.given.slice();
    'given: for fact in given {
        if covers(*fact, still) {
            return true;
        }
    }
    false
}

/// Whether a fact that stands still stands for a given fact of some account.
fn is_used(accounts: &[Account], still: Fact) -> bool
    ensures { result ≡ list_any (is_given_in still) accounts.now }
{
    'accounts: for account in accounts {
        if is_given_in(still, account) {
            return true;
        }
    }
    false
}

/// Those of facts that stand still which stand for a given fact of some account.
pub(crate) fn used(
    alloc: Global,
    accounts: &[Account],
    stills: &[Fact],
) -> Result<List<Fact>, NoMemory>
    ensures { IfOk result (λ kept. kept ≡ used_of accounts.now stills.now) }
{
    let mut kept = List::new(alloc);
    'stills: for still in stills {
        let wanted = is_used(accounts, *still);
        push_wanted(&mut kept, *still, wanted)?;
    }
    Ok(kept)
}
