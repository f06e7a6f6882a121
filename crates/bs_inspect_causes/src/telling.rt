//! The account of a unit: facts of one vector and cycle, all of flip-flops or none.
ghost use Rattle.std.specs.Prelude.{◌≡◌, true, IfOk};
ghost use Rattle.bs_net.specs.Netlist.{circuit};
ghost use Rattle.bs_net_facts.specs.Blocks.{IsBlock};
ghost use Rattle.bs_inspect_causes.specs.Layers.{IsReady, IsUnit, IsUnitAccount};

use crate::account::Account;
use crate::basis::Basis;
use crate::block_account::account_by;
use crate::facts::copied;
use crate::sourced::sourced_block;
use crate::units::Unit;
use bs_bits::{List, NoMemory};
use bs_inspect_holds::{Proposal, propose};
use bs_net_facts::{Fact, is_block};

/// The account of a unit by all flip-flops and data inputs.
fn sourced_account(
    basis: &Basis<'_>,
    facts: &[Fact],
    unit: Unit,
    layer: u32,
) -> Result<Account, NoMemory>
    requires ready { IsReady basis.now.scene.now.moments.now basis.now.drivers.now }
    requires unit { IsUnit basis.now.scene.now.moments.now basis.now.drivers.now unit.at unit.flop facts.now }
    ensures { IfOk result (λ a. IsUnitAccount basis.now.scene.now.moments.now facts.now layer a) }
{
    let block = sourced_block(basis, facts, unit)?;
    account_by(
        basis.alloc,
        basis.scene.moments,
        block,
        List::new(basis.alloc),
        layer,
    )
}

/// The account of a unit by what is proposed, if that is a block.
fn judged(
    basis: &Basis<'_>,
    facts: &[Fact],
    unit: Unit,
    layer: u32,
    proposal: Proposal,
    is: bool,
) -> Result<Account, NoMemory>
    requires ready { IsReady basis.now.scene.now.moments.now basis.now.drivers.now }
    requires unit { IsUnit basis.now.scene.now.moments.now basis.now.drivers.now unit.at unit.flop facts.now }
    requires block { is ≡ true → IsBlock (circuit basis.now.scene.now.moments.now.net) basis.now.scene.now.moments.now.states basis.now.scene.now.moments.now.inputs proposal.block }
    requires bits { proposal.block.bits ≡ facts.now }
    requires at { proposal.block.at ≡ unit.at }
    ensures { IfOk result (λ a. IsUnitAccount basis.now.scene.now.moments.now facts.now layer a) }
{
    let Proposal { block, cone, idle } = proposal;
    drop(cone);
    if is {
        return account_by(basis.alloc, basis.scene.moments, block, idle, layer);
    }
    drop(block);
    drop(idle);
    sourced_account(basis, facts, unit, layer)
}

/// The account of a unit: by what is proposed, where that is a block as far as marks tell, and else by all flip-flops and data inputs.
pub(crate) fn account_of(
    basis: &Basis<'_>,
    facts: &[Fact],
    unit: Unit,
    layer: u32,
) -> Result<Account, NoMemory>
    requires ready { IsReady basis.now.scene.now.moments.now basis.now.drivers.now }
    requires unit { IsUnit basis.now.scene.now.moments.now basis.now.drivers.now unit.at unit.flop facts.now }
    ensures { IfOk result (λ a. IsUnitAccount basis.now.scene.now.moments.now facts.now layer a) }
{
    let bits = copied(basis.alloc, facts)?;
    let proposal = propose(basis.alloc, basis.scene, bits, unit.at, unit.flop)?;
    match is_block(
        basis.alloc,
        basis.scene.moments,
        &proposal.cone,
        &proposal.block,
    ) {
        Ok(is) => judged(basis, facts, unit, layer, proposal, is),
        Err(refused) => {
            drop(proposal);
            Err(refused)
        }
    }
}
