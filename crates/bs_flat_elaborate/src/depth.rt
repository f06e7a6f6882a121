//! The limit of depth of a design: how many instances may stand in one another.
ghost use Rattle.std.specs.Prelude.{◌≡◌, ◌<◌, ◌⊎◌, length, map, true, false, MatchResult};
ghost use Rattle.bs_flat_meaning.specs.Reading as reading;
ghost use Rattle.bs_flat_meaning.specs.declared.fault.FlatFault.TheVariants as faults;
ghost use Rattle.bs_flat_nets.specs.Blocks.{design_of, module_of};
ghost use Rattle.bs_flat_nets.specs.Order.{IsChildrenFirst};

use bs_flat_meaning::FlatFault;
use bs_flat_nets::{FlatModule, is_deep};
use std::alloc::Global;

/// No path has more than `MAX_DEPTH` instance names.
pub fn check_depth(
    alloc: Global,
    blocks: &[FlatModule],
    order: &[u32],
    top: u32,
) -> Result<(), FlatFault>
    requires order { IsChildrenFirst (map module_of blocks.now) order.now }
    requires top { top < length blocks.now }
    ensures { MatchResult result (λ _. reading.is_deep (design_of blocks.now top) ≡ false)
        (λ fault. (fault ≡ faults.NoMemory) ⊎ ((fault ≡ faults.FlatDepth) × (reading.is_deep (design_of blocks.now top) ≡ true))) }
{
    match is_deep(alloc, blocks, order, top) {
        Err(_) => Err(FlatFault::NoMemory),
        Ok(true) => Err(FlatFault::FlatDepth),
        Ok(false) => Ok(()),
    }
}
