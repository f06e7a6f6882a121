//! The account of a block: its facts by kind.
ghost use Rattle.std.specs.Prelude.{◌≡◌, [], ◌∷◌, ◌++◌, not, filter, if◌then◌else◌, All, IfOk, OnOk};
ghost use Rattle.bs_net.specs.Netlist.{circuit};
ghost use Rattle.bs_net_facts.specs.Blocks.{IsBlock};
ghost use Rattle.bs_inspect_causes.specs.Accounts.{is_cause, IsRealIn};
ghost use Rattle.bs_inspect_causes.specs.Layers.{IsAccountBy};

use crate::account::Account;
use crate::facts::real_facts;
use bs_bits::{List, NoMemory};
use bs_net_facts::{Block, Fact, Moments};
use std::alloc::Global;

/// Whether a given fact sets a block's bits, and does not keep them.
pub(crate) fn is_cause(block: &Block, fact: Fact) -> bool
    ensures { result ≡ is_cause block.now fact }
{
    let before = fact.cycle < block.since;
    let once = block.since == block.at;
    before || once
}

/// Puts a fact at the end where it is wanted.
fn push_wanted(facts: &mut List<Fact>, fact: Fact, wanted: bool) -> Result<(), NoMemory>
    ensures { OnOk result (facts.new ≡ facts.old ++ (if wanted then fact ∷ [] else [])) }
{
    if wanted {
        facts.push(fact)?;
    }
    Ok(())
}

/// Those of a block's given facts that set its bits.
fn causes_of(alloc: Global, block: &Block, given: &[Fact]) -> Result<List<Fact>, NoMemory>
    ensures { IfOk result (λ facts. facts ≡ filter (is_cause block.now) given.now) }
{
    let mut facts = List::new(alloc);
    'given: for fact in given {
        let cause = is_cause(block, *fact);
        push_wanted(&mut facts, *fact, cause)?;
    }
    Ok(facts)
}

/// Those of a block's given facts that keep them.
fn holds_of(alloc: Global, block: &Block, given: &[Fact]) -> Result<List<Fact>, NoMemory>
    ensures { IfOk result (λ facts. facts ≡ filter (λ f. not (is_cause block.now f)) given.now) }
{
    let mut facts = List::new(alloc);
    'given: for fact in given {
        let cause = is_cause(block, *fact);
        push_wanted(&mut facts, *fact, !cause)?;
    }
    Ok(facts)
}

/// The facts of a block by kind.
#[derive(Drop)]
struct Kinds {
    causes: List<Fact>,
    holds: List<Fact>,
    idle: List<Fact>,
}

/// The facts of a block by kind, with those of some others that are the trace's.
fn kinds_of(
    alloc: Global,
    moments: &Moments<'_>,
    block: &Block,
    idle: &[Fact],
) -> Result<Kinds, NoMemory>
    ensures causes { IfOk result (λ k. k.causes ≡ filter (is_cause block.now) block.now.given) }
    ensures holds { IfOk result (λ k. k.holds ≡ filter (λ f. not (is_cause block.now f)) block.now.given) }
    ensures idle { IfOk result (λ k. All (IsRealIn moments.now) k.idle) }
{
    let causes = causes_of(alloc, block, block.given.slice())?;
    let holds = holds_of(alloc, block, block.given.slice())?;
    let idle = real_facts(alloc, moments, idle)?;
    Ok(Kinds {
        causes,
        holds,
        idle,
    })
}

/// The account of a block, with those of some other facts that are the trace's.
#[tactic(auto, using(crate::proofs::AccountLemmas::account_is))]
pub(crate) fn account_by(
    alloc: Global,
    moments: &Moments<'_>,
    block: Block,
    idle: List<Fact>,
    layer: u32,
) -> Result<Account, NoMemory>
    requires { IsBlock (circuit moments.now.net) moments.now.states moments.now.inputs block }
    ensures { IfOk result (λ a. IsAccountBy moments.now block layer a) }
{
    match kinds_of(alloc, moments, &block, idle.slice()) {
        Ok(kinds) => {
            drop(idle);
            Ok(Account {
                block,
                causes: kinds.causes,
                holds: kinds.holds,
                idle: kinds.idle,
                layer,
            })
        }
        Err(refused) => {
            drop(idle);
            drop(block);
            Err(refused)
        }
    }
}
