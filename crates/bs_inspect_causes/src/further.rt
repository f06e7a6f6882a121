//! Which given facts of accounts are asked further.
ghost use Rattle.std.specs.Prelude.{◌≡◌, ◌<◌, true, false, length, All, Contains, IfOk, OnOk};
ghost use Rattle.bs_net.specs.Netlist.{circuit};
ghost use Rattle.bs_inspect_causes.specs.Accounts.{IsAccount};
ghost use Rattle.bs_inspect_causes.specs.Layers.{AsksMore, IsNext, marks_net};

use crate::account::Account;
use crate::basis::Basis;
use crate::block_account::is_cause;
use crate::drivers::is_marked;
use crate::facts::is_real;
use crate::ledger::Ledger;
use bs_bits::NoMemory;
use bs_inspect_holds::{Driver, TraceScene};
use bs_net_facts::Fact;

/// Behind an account with more causes, old single bits are asked only where all are.
/// As many have a line each (docs/FORMATS.md, "Causes").
const MANY_CAUSES: usize = 8;

/// So many cycles before a cause has an old one the same bit.
/// A bit that stands for longer is likely a setting, and not what happened.
const OLD_CYCLES: u32 = 4;

/// Whether a cause of an account is left out where not all are asked: one of many, of a single net that has the bit in the cycles before
/// it too.
fn is_left_out(scene: &TraceScene<'_>, account: &Account, fact: Fact) -> bool {
    let many = account.causes.len() > MANY_CAUSES;
    if !many || !scene.is_single(fact.net) || fact.cycle < OLD_CYCLES {
        return false;
    }
    for back in 1..OLD_CYCLES + 1 {
        let before = Fact {
            net: fact.net,
            cycle: fact.cycle.saturating_sub(back),
            bit: fact.bit,
        };
        if !is_real(scene.moments, before) {
            return false;
        }
    }
    true
}

/// Whether a fact of a flip-flop or a gate is asked further: a cause, or what has kept the bits all through.
fn is_chosen(basis: &Basis<'_>, ledger: &Ledger, account: &Account, fact: Fact) -> bool {
    if ledger.tells(fact) {
        return false;
    }
    if !is_cause(&account.block, fact) {
        return ledger.is_steady(&account.block, fact);
    }
    basis.all || !is_left_out(basis.scene, account, fact)
}

/// Whether a given fact of an account is asked further: not of data inputs, constants and nets without a driver.
fn is_asked(basis: &Basis<'_>, ledger: &Ledger, account: &Account, fact: Fact) -> bool
    ensures { result ≡ true → marks_net basis.now.drivers.now.by_input fact.net ≡ false }
{
    if is_marked(basis.drivers.by_input.slice(), fact.net) {
        return false;
    }
    match basis.scene.driver(fact.net) {
        Driver::Gate(_) => is_chosen(basis, ledger, account, fact),
        Driver::Flop(..) => is_chosen(basis, ledger, account, fact),
        _ => false,
    }
}

/// Puts a given fact of an account at the end, if it is asked further.
#[tactic(auto, using(crate::proofs::FurtherLemmas::asks_none, crate::proofs::FurtherLemmas::asks_one))]
fn push_fact(
    facts: &mut Vec<Fact>,
    basis: &Basis<'_>,
    ledger: &Ledger,
    account: &Account,
    fact: Fact,
) -> Result<(), NoMemory>
    requires { Contains account.now.block.given fact }
    ensures { OnOk result (AsksMore basis.now.drivers.now account.now facts.old.items facts.new.items) }
{
    if is_asked(basis, ledger, account, fact) {
        facts.push(fact)?;
    }
    Ok(())
}

/// Puts the facts that an account asks further at the end.
#[tactic(auto, using(crate::proofs::FurtherLemmas::asks_none))]
fn push_given(
    facts: &mut Vec<Fact>,
    basis: &Basis<'_>,
    ledger: &Ledger,
    account: &Account,
) -> Result<(), NoMemory>
    ensures { OnOk result (AsksMore basis.now.drivers.now account.now facts.old.items facts.new.items) }
{
    'given: for fact in account.block.given.slice() {
        push_fact(facts, basis, ledger, account, *fact)?;
    }
    Ok(())
}

/// The same of an account of a layer, with what has kept its bits counted, and of another one nothing.
fn push_layer(
    facts: &mut Vec<Fact>,
    basis: &Basis<'_>,
    ledger: &mut Ledger,
    accounts: &[Account],
    place: usize,
    layer: u32,
) -> Result<(), NoMemory>
    requires there { place < length accounts.now }
    requires each { All (IsAccount (circuit basis.now.scene.now.moments.now.net) basis.now.scene.now.moments.now.states basis.now.scene.now.moments.now.inputs) accounts.now }
    requires before { All (IsNext basis.now.scene.now.moments.now basis.now.drivers.now accounts.now layer) facts.old.items }
    ensures { OnOk result (All (IsNext basis.now.scene.now.moments.now basis.now.drivers.now accounts.now layer) facts.new.items) }
{
    let account = &accounts[place];
    if account.layer != layer {
        return Ok(());
    }
    ledger.count(account.holds.slice());
    push_given(facts, basis, ledger, account)?;
    ledger.clear(account.holds.slice());
    Ok(())
}

/// The facts that accounts of a layer ask further, which stand from a place on.
#[tactic(auto, using(crate::proofs::FurtherLemmas::next_none))]
pub(crate) fn further_facts(
    basis: &Basis<'_>,
    ledger: &mut Ledger,
    accounts: &[Account],
    from: usize,
    layer: u32,
) -> Result<Vec<Fact>, NoMemory>
    requires { All (IsAccount (circuit basis.now.scene.now.moments.now.net) basis.now.scene.now.moments.now.states basis.now.scene.now.moments.now.inputs) accounts.now }
    ensures { IfOk result (λ facts. All (IsNext basis.now.scene.now.moments.now basis.now.drivers.now accounts.now layer) facts.items) }
{
    let mut facts = Vec::new(basis.alloc);
    'accounts: for i in from..accounts.len() {
        push_layer(&mut facts, basis, ledger, accounts, i, layer)?;
    }
    Ok(facts)
}
