//! The accounts of one layer.
ghost use Rattle.std.specs.Prelude.{◌≡◌, false, All, OnOk, slice_range};
ghost use Rattle.bs_inspect_causes.specs.Layers.{IsReady, IsUnit, IsUnitAt, Tells, marks_net};
ghost use Rattle.bs_inspect_causes.specs.Accounts.{IsRealIn};

use crate::account::Account;
use crate::basis::Basis;
use crate::ledger::Ledger;
use crate::telling::account_of;
use crate::units::{Unit, ordered, unit_at};
use bs_bits::{List, NoMemory};
use bs_net_facts::Fact;

/// Tells a unit, unless it is one of a later layer than the first and told already.
#[tactic(auto, using(crate::proofs::LayerLemmas::tells_none))]
fn tell_unit(
    basis: &Basis<'_>,
    ledger: &mut Ledger,
    accounts: &mut List<Account>,
    facts: &[Fact],
    unit: Unit,
    layer: u32,
) -> Result<(), NoMemory>
    requires ready { IsReady basis.now.scene.now.moments.now basis.now.drivers.now }
    requires unit { IsUnit basis.now.scene.now.moments.now basis.now.drivers.now unit.at unit.flop facts.now }
    ensures { OnOk result (Tells basis.now.scene.now.moments.now layer facts.now accounts.old accounts.new) }
{
    if layer != 0 && ledger.tells_all(facts) {
        return Ok(());
    }
    let account = account_of(basis, facts, unit, layer)?;
    ledger.note(&account.block);
    accounts.push(account)?;
    Ok(())
}

/// Tells the unit at a place of ordered facts.
#[tactic(auto, using(crate::proofs::LayerLemmas::unit_here))]
fn tell_unit_at(
    basis: &Basis<'_>,
    ledger: &mut Ledger,
    accounts: &mut List<Account>,
    facts: &[Fact],
    from: usize,
    unit: Unit,
    layer: u32,
) -> Result<(), NoMemory>
    requires ready { IsReady basis.now.scene.now.moments.now basis.now.drivers.now }
    requires real { All (IsRealIn basis.now.scene.now.moments.now) facts.now }
    requires driven { All (λ f. marks_net basis.now.drivers.now.by_input f.net ≡ false) facts.now }
    requires unit { IsUnitAt basis.now.drivers.now facts.now from unit }
    ensures { OnOk result (Tells basis.now.scene.now.moments.now layer (slice_range facts.now from unit.stop) accounts.old accounts.new) }
{
    let part = &facts[from..unit.stop];
    tell_unit(basis, ledger, accounts, part, unit, layer)?;
    Ok(())
}

/// Tells ordered facts, unit by unit.
#[tactic(auto, using(crate::proofs::LayerLemmas::tells_begin, crate::proofs::LayerLemmas::tells_whole))]
fn tell_units(
    basis: &Basis<'_>,
    ledger: &mut Ledger,
    accounts: &mut List<Account>,
    facts: &[Fact],
    layer: u32,
) -> Result<(), NoMemory>
    requires ready { IsReady basis.now.scene.now.moments.now basis.now.drivers.now }
    requires real { All (IsRealIn basis.now.scene.now.moments.now) facts.now }
    requires driven { All (λ f. marks_net basis.now.drivers.now.by_input f.net ≡ false) facts.now }
    ensures { OnOk result (Tells basis.now.scene.now.moments.now layer facts.now accounts.old accounts.new) }
{
    let mut from = 0;
    'units: while from < facts.len() {
        let unit = unit_at(basis, facts, from);
        tell_unit_at(basis, ledger, accounts, facts, from, unit, layer)?;
        from = unit.stop;
    }
    Ok(())
}

/// Tells facts in a layer, the latest cycle first and in it by vectors.
pub(crate) fn tell_facts(
    basis: &Basis<'_>,
    ledger: &mut Ledger,
    accounts: &mut List<Account>,
    facts: Vec<Fact>,
    layer: u32,
) -> Result<(), NoMemory>
    requires ready { IsReady basis.now.scene.now.moments.now basis.now.drivers.now }
    requires real { All (IsRealIn basis.now.scene.now.moments.now) facts.items }
    requires driven { All (λ f. marks_net basis.now.drivers.now.by_input f.net ≡ false) facts.items }
    ensures { OnOk result (Tells basis.now.scene.now.moments.now layer facts.items accounts.old accounts.new) }
{
    let kept = ordered(basis, facts)?;
    tell_units(basis, ledger, accounts, kept.slice(), layer)?;
    drop(kept);
    Ok(())
}
