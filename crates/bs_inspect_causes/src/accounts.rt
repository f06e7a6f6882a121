//! Accounts of facts, layer by layer.
ghost use Rattle.std.specs.Prelude.{◌≡◌, ◌≤◌, ◌+◌, false, All, IfOk, OnOk};
ghost use Rattle.bs_net.specs.Netlist.{circuit};
ghost use Rattle.bs_net_facts.specs.Facts.{IsWayOf, IsReal};
ghost use Rattle.bs_inspect_causes.specs.Accounts.{Explain, LeadsOn, has_net};
ghost use Rattle.bs_inspect_causes.specs.Layers.{AreDue, ExplainSoFar, IsReady};

use crate::account::Account;
use crate::basis::Basis;
use crate::drivers::Drivers;
use crate::further::further_facts;
use crate::layer::tell_facts;
use crate::ledger::Ledger;
use bs_bits::{List, NoMemory};
use bs_inspect_holds::TraceScene;
use bs_net_facts::Fact;
use std::alloc::Global;

/// Tells due facts in a layer, and gives those that are due in the next one.
fn tell_layer(
    basis: &Basis<'_>,
    ledger: &mut Ledger,
    asked: &[Fact],
    accounts: &mut List<Account>,
    facts: Vec<Fact>,
    layer: u32,
) -> Result<Vec<Fact>, NoMemory>
    requires ready { IsReady basis.now.scene.now.moments.now basis.now.drivers.now }
    requires so_far { ExplainSoFar basis.now.scene.now.moments.now asked.now layer accounts.old }
    requires due { AreDue basis.now.scene.now.moments.now basis.now.drivers.now asked.now layer accounts.old facts.items }
    ensures so_far { OnOk result (ExplainSoFar basis.now.scene.now.moments.now asked.now (layer + 1) accounts.new) }
    ensures due { IfOk result (λ next. AreDue basis.now.scene.now.moments.now basis.now.drivers.now asked.now (layer + 1) accounts.new next.items) }
{
    let from = accounts.len();
    let _ = asked;
    tell_facts(basis, ledger, accounts, facts, layer)?;
    let next = further_facts(basis, ledger, accounts.slice(), from, layer)?;
    Ok(next)
}

/// Tells due facts in so many layers.
#[tactic(auto, using(crate::proofs::ExplainLemmas::explain_from))]
fn tell_layers(
    basis: &Basis<'_>,
    ledger: &mut Ledger,
    asked: &[Fact],
    accounts: &mut List<Account>,
    first: Vec<Fact>,
    depth: u32,
) -> Result<(), NoMemory>
    requires ready { IsReady basis.now.scene.now.moments.now basis.now.drivers.now }
    requires so_far { ExplainSoFar basis.now.scene.now.moments.now asked.now 0 accounts.old }
    requires due { AreDue basis.now.scene.now.moments.now basis.now.drivers.now asked.now 0 accounts.old first.items }
    requires some_layer { 1 ≤ depth }
    ensures { OnOk result (Explain (circuit basis.now.scene.now.moments.now.net) basis.now.scene.now.moments.now.states basis.now.scene.now.moments.now.inputs asked.now depth accounts.new) }
{
    let mut facts = first;
    'layers: for layer in 0..depth {
        facts = tell_layer(basis, ledger, asked, accounts, facts, layer)?;
        if facts.len() == 0 {
            return Ok(());
        }
    }
    Ok(())
}

/// The accounts of asked facts, with the drivers of the nets.
#[tactic(auto, using(crate::proofs::ExplainLemmas::none_so_far))]
fn accounts_with(
    basis: &Basis<'_>,
    ledger: &mut Ledger,
    asked: &[Fact],
    depth: u32,
) -> Result<List<Account>, NoMemory>
    requires ready { IsReady basis.now.scene.now.moments.now basis.now.drivers.now }
    requires real { All (IsReal (circuit basis.now.scene.now.moments.now.net) basis.now.scene.now.moments.now.states basis.now.scene.now.moments.now.inputs) asked.now }
    requires driven { All (λ f. has_net (circuit basis.now.scene.now.moments.now.net).inputs f.net ≡ false) asked.now }
    requires some_layer { 1 ≤ depth }
    ensures { IfOk result (λ accounts. Explain (circuit basis.now.scene.now.moments.now.net) basis.now.scene.now.moments.now.states basis.now.scene.now.moments.now.inputs asked.now depth accounts) }
{
    let first = Vec::from_slice(basis.alloc, asked)?;
    let mut accounts = List::new(basis.alloc);
    match tell_layers(basis, ledger, asked, &mut accounts, first, depth) {
        Ok(()) => Ok(accounts),
        Err(refused) => {
            drop(accounts);
            Err(refused)
        }
    }
}

/// The same, with nothing told so far.
fn accounts_by(basis: &Basis<'_>, asked: &[Fact], depth: u32) -> Result<List<Account>, NoMemory>
    requires ready { IsReady basis.now.scene.now.moments.now basis.now.drivers.now }
    requires real { All (IsReal (circuit basis.now.scene.now.moments.now.net) basis.now.scene.now.moments.now.states basis.now.scene.now.moments.now.inputs) asked.now }
    requires driven { All (λ f. has_net (circuit basis.now.scene.now.moments.now.net).inputs f.net ≡ false) asked.now }
    requires some_layer { 1 ≤ depth }
    ensures { IfOk result (λ accounts. Explain (circuit basis.now.scene.now.moments.now.net) basis.now.scene.now.moments.now.states basis.now.scene.now.moments.now.inputs asked.now depth accounts) }
{
    let mut ledger = Ledger::new(basis.alloc, basis.scene.nets)?;
    let accounts = accounts_with(basis, &mut ledger, asked, depth);
    drop(ledger);
    accounts
}

/// Accounts of some facts of a trace, in at most `depth` layers: of the asked facts, then of facts that are given in those accounts, and
/// so on: causes, and what has kept the bits all through. Facts of one vector and cycle are told by one account; what is told already,
/// data inputs, constants and nets without a driver are asked no further. With `all` a layer asks for each cause; else, where an
/// account has more than eight, not for single bits that have stood for long. Layers stand in order, and in each the latest cycle first.
#[tactic(auto, using(crate::proofs::ExplainLemmas::ready))]
pub fn accounts_of(
    alloc: Global,
    scene: &TraceScene<'_>,
    asked: &[Fact],
    depth: u32,
    all: bool,
) -> Result<List<Account>, NoMemory>
    requires way { IsWayOf (circuit scene.now.moments.now.net) scene.now.moments.now.states scene.now.moments.now.inputs }
    requires leads { LeadsOn (circuit scene.now.moments.now.net) scene.now.moments.now.states scene.now.moments.now.inputs }
    requires real { All (IsReal (circuit scene.now.moments.now.net) scene.now.moments.now.states scene.now.moments.now.inputs) asked.now }
    requires driven { All (λ f. has_net (circuit scene.now.moments.now.net).inputs f.net ≡ false) asked.now }
    requires some_layer { 1 ≤ depth }
    ensures { IfOk result (λ accounts. Explain (circuit scene.now.moments.now.net) scene.now.moments.now.states scene.now.moments.now.inputs asked.now depth accounts) }
{
    let drivers = Drivers::of(alloc, scene.moments.net())?;
    let basis = Basis {
        alloc,
        scene,
        drivers: &drivers,
        all,
    };
    let accounts = accounts_by(&basis, asked, depth);
    drop(drivers);
    accounts
}
