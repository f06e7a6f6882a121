//! The limits of a design that its modules tell before any path is made.
ghost use Rattle.std.specs.Prelude.{◌≡◌, ◌<◌, ◌⊎◌, length, map, true, false, nat_lt, Err, MatchResult};
ghost use Rattle.bs_net.specs.declared.limits.TheConstants.{MAX_NETS as most_nets};
ghost use Rattle.bs_flat_meaning.specs.Flat.{IsDesign, flat_parts};
ghost use Rattle.bs_flat_meaning.specs.Reading as reading;
ghost use Rattle.bs_flat_meaning.specs.declared.fault.FlatFault.TheVariants as faults;
ghost use Rattle.bs_flat_meaning.specs.declared.limits.TheConstants.{MAX_PARTS as most_parts};
ghost use Rattle.bs_flat_nets.specs.Blocks.{design_of, module_of};
ghost use Rattle.bs_flat_nets.specs.Order.{IsChildrenFirst};
ghost use Rattle.bs_flat_elaborate.specs.Whole as spec;

use crate::depth::check_depth;
use bs_flat_meaning::FlatFault;
use bs_flat_nets::{FlatModule, has_many_nets, has_many_parts};
use std::alloc::Global;

/// There are at most `MAX_PARTS` gates, flip-flops and instances.
fn check_parts(
    alloc: Global,
    blocks: &[FlatModule],
    order: &[u32],
    top: u32,
) -> Result<(), FlatFault>
    requires order { IsChildrenFirst (map module_of blocks.now) order.now }
    requires top { top < length blocks.now }
    requires shallow { reading.is_deep (design_of blocks.now top) ≡ false }
    ensures { MatchResult result (λ _. nat_lt most_parts (reading.part_count (design_of blocks.now top)) ≡ false)
        (λ fault. (fault ≡ faults.NoMemory)
        ⊎ ((fault ≡ faults.FlatParts) × (nat_lt most_parts (reading.part_count (design_of blocks.now top)) ≡ true))) }
{
    match has_many_parts(alloc, blocks, order, top) {
        Err(_) => Err(FlatFault::NoMemory),
        Ok(true) => Err(FlatFault::FlatParts),
        Ok(false) => Ok(()),
    }
}

/// There are at most `MAX_NETS` flat nets.
fn check_nets(
    alloc: Global,
    blocks: &[FlatModule],
    order: &[u32],
    top: u32,
) -> Result<(), FlatFault>
    requires order { IsChildrenFirst (map module_of blocks.now) order.now }
    requires top { top < length blocks.now }
    requires shallow { reading.is_deep (design_of blocks.now top) ≡ false }
    requires design { IsDesign (design_of blocks.now top) }
    ensures { MatchResult result (λ _. nat_lt most_nets (length (flat_parts (design_of blocks.now top)).names) ≡ false)
        (λ fault. (fault ≡ faults.NoMemory)
        ⊎ ((fault ≡ faults.FlatNets) × (nat_lt most_nets (length (flat_parts (design_of blocks.now top)).names) ≡ true))) }
{
    match has_many_nets(alloc, blocks, order, top) {
        Err(_) => Err(FlatFault::NoMemory),
        Ok(true) => Err(FlatFault::FlatNets),
        Ok(false) => Ok(()),
    }
}

/// The first of these limits that a design passes.
pub fn check_sizes(
    alloc: Global,
    blocks: &[FlatModule],
    order: &[u32],
    top: u32,
) -> Result<(), FlatFault>
    requires order { IsChildrenFirst (map module_of blocks.now) order.now }
    requires top { top < length blocks.now }
    requires design { IsDesign (design_of blocks.now top) }
    ensures { MatchResult result (λ _. spec.IsSmall (design_of blocks.now top))
        (λ fault. (fault ≡ faults.NoMemory) ⊎ (reading.elaborated (design_of blocks.now top) ≡ Err fault)) }
{
    check_depth(alloc, blocks, order, top)?;
    check_parts(alloc, blocks, order, top)?;
    check_nets(alloc, blocks, order, top)?;
    Ok(())
}
