//! A block by all flip-flops and data inputs of a cycle, which always force it.
ghost use Rattle.std.specs.Prelude.{◌≡◌, ◌<◌, ◌+◌, length, IfOk, MatchOption};
ghost use Rattle.bs_inspect_causes.specs.Layers.{ForcesAt, IsReady, IsUnit, IsUnitBlock};

use crate::basis::Basis;
use crate::facts::{copied, sources_at};
use crate::units::Unit;
use bs_bits::{List, NoMemory};
use bs_net_facts::{Block, Fact, Moments};

/// The cycle before.
fn cycle_before(at: u32) -> Option<u32>
    ensures { MatchOption result (at ≡ 0) (λ t. t + 1 ≡ at) }
{
    if at == 0 {
        return None;
    }
    Some(at - 1)
}

/// The cycle of the flip-flops and data inputs that force bits at a cycle, of flip-flops or not; `None` where they stand since the first
/// moment.
#[tactic(auto, using(crate::proofs::BlockLemmas::forces_flop, crate::proofs::BlockLemmas::forces_last, crate::proofs::BlockLemmas::forces_now))]
fn source_cycle(moments: &Moments<'_>, flop: bool, at: u32) -> Option<u32>
    requires one_more { length moments.now.states ≡ length moments.now.inputs + 1 }
    requires there { at < length moments.now.states }
    ensures { MatchOption result (at ≡ 0) (ForcesAt moments.now at flop) }
{
    if flop {
        return cycle_before(at);
    }
    if (at as usize) + 1 < moments.len() {
        return Some(at);
    }
    cycle_before(at)
}

/// The block of a unit by the flip-flops and data inputs of a cycle.
fn block_from(basis: &Basis<'_>, facts: &[Fact], unit: Unit, cycle: u32) -> Result<Block, NoMemory>
    requires ready { IsReady basis.now.scene.now.moments.now basis.now.drivers.now }
    requires unit { IsUnit basis.now.scene.now.moments.now basis.now.drivers.now unit.at unit.flop facts.now }
    requires forces { ForcesAt basis.now.scene.now.moments.now unit.at unit.flop cycle }
    ensures { IfOk result (λ b. IsUnitBlock basis.now.scene.now.moments.now facts.now unit.at b) }
{
    let given = sources_at(basis, cycle)?;
    let bits = copied(basis.alloc, facts)?;
    Ok(Block {
        bits,
        since: unit.at,
        at: unit.at,
        given,
        begun: false,
    })
}

/// The block of a unit of the first moment.
fn first_block(basis: &Basis<'_>, facts: &[Fact], unit: Unit) -> Result<Block, NoMemory>
    requires unit { IsUnit basis.now.scene.now.moments.now basis.now.drivers.now unit.at unit.flop facts.now }
    requires first { unit.at ≡ 0 }
    ensures { IfOk result (λ b. IsUnitBlock basis.now.scene.now.moments.now facts.now unit.at b) }
{
    let bits = copied(basis.alloc, facts)?;
    Ok(Block {
        bits,
        since: unit.at,
        at: unit.at,
        given: List::new(basis.alloc),
        begun: true,
    })
}

/// The block of a unit by all flip-flops and data inputs: of the cycle before for flip-flops, else of the cycle itself.
#[tactic(auto, using(crate::proofs::BlockLemmas::one_more))]
pub(crate) fn sourced_block(
    basis: &Basis<'_>,
    facts: &[Fact],
    unit: Unit,
) -> Result<Block, NoMemory>
    requires ready { IsReady basis.now.scene.now.moments.now basis.now.drivers.now }
    requires unit { IsUnit basis.now.scene.now.moments.now basis.now.drivers.now unit.at unit.flop facts.now }
    ensures { IfOk result (λ b. IsUnitBlock basis.now.scene.now.moments.now facts.now unit.at b) }
{
    match source_cycle(basis.scene.moments, unit.flop, unit.at) {
        Some(cycle) => block_from(basis, facts, unit, cycle),
        None => first_block(basis, facts, unit),
    }
}
