//! The depth and the parts of a design, counted module by module before any path is made.
ghost use Rattle.std.specs.Prelude.{◌≡◌, ◌<◌, ◌+◌, ◌≤◌, false, length, map, min, nat_lt, replicate, slice_index_or, All, IfOk};
ghost use Rattle.bs_flat_meaning.specs.Counts.{sum_of, tallest};
ghost use Rattle.bs_flat_meaning.specs.Reading as reading;
ghost use Rattle.bs_flat_meaning.specs.declared.limits.TheConstants.{MAX_DEPTH, MAX_PARTS as most};
ghost use Rattle.bs_flat_nets.specs.Blocks.{design_of, module_of};
ghost use Rattle.bs_flat_nets.specs.Order.{IsChildrenFirst};
ghost use Rattle.bs_flat_nets.specs.Tables.{Follows, depth_by, count_by_parts, depth_at, count_at, own_count};

use crate::blocks::{Child, FlatModule};
use bs_bits::NoMemory;
use bs_flat_meaning::MAX_DEPTH;
use std::alloc::Global;

/// The depth at which a design is too deep.
/// One more than `MAX_DEPTH`.
const TOO_DEEP: u32 = 257;

/// The greatest count that a design may have, the path of its top counted.
/// `MAX_PARTS`, and one for the top.
const MOST: u32 = 400_001;

/// The count at which a design has too many parts, the path of its top counted.
/// One more than `MOST`.
const TOO_MANY: u32 = 400_002;

/// A table of zeros.
fn zeros(alloc: Global, count: usize) -> Result<Vec<u32>, NoMemory>
    ensures { IfOk result (λ t. t.items ≡ replicate count 0) }
{
    let table = vec![in alloc; 0; count]?;
    Ok(table)
}

/// One more than the greatest depth of some instances, or 0; at most `TOO_DEEP`.
fn depth_of(depths: &[u32], children: &[Child]) -> u32
    requires { All (λ c. c.of < length depths.now) children.now }
    ensures { result ≡ min TOO_DEEP (tallest (λ c. depth_at depths.now c.of) children.now) }
{
    let mut depth = 0;
    'children: for child in children {
        let below = depths[child.of as usize].saturating_add(1);
        depth = below.min(TOO_DEEP).max(depth);
    }
    depth
}

/// The parts of a block with those of its instances and all below them, its path counted; at most `TOO_MANY`.
fn count_of(counts: &[u32], own: u32, children: &[Child]) -> u32
    requires there { All (λ c. c.of < length counts.now) children.now }
    requires few { own ≤ TOO_MANY }
    ensures { result ≡ min TOO_MANY (own + sum_of (λ c. count_at counts.now c.of) children.now) }
{
    let mut count = own;
    'children: for child in children {
        count = count
            .saturating_add(counts[child.of as usize])
            .min(TOO_MANY);
    }
    count
}

/// The own parts of a block and its path; at most `TOO_MANY`.
fn own_parts(block: &FlatModule) -> u32
    ensures { result ≡ min TOO_MANY (own_count block.now) }
{
    let parts = block.gates.len().saturating_add(block.flops.len());
    let few = parts.saturating_add(1).min(TOO_MANY as usize);
    few as u32
}

/// The depths of all modules.
fn depths(alloc: Global, blocks: &[FlatModule], order: &[u32]) -> Result<Vec<u32>, NoMemory>
    requires { IsChildrenFirst (map module_of blocks.now) order.now }
    ensures wide { IfOk result (λ t. length t.items ≡ length blocks.now) }
    ensures follows { IfOk result (λ t. Follows (depth_by TOO_DEEP) 0 (map module_of blocks.now) t.items) }
{
    let mut table = zeros(alloc, blocks.len())?;
    'order: for &k in order {
        let depth = depth_of(table.as_slice(), blocks[k as usize].children.slice());
        table[k as usize] = depth;
    }
    Ok(table)
}

/// The counts of all modules.
fn counts(alloc: Global, blocks: &[FlatModule], order: &[u32]) -> Result<Vec<u32>, NoMemory>
    requires { IsChildrenFirst (map module_of blocks.now) order.now }
    ensures wide { IfOk result (λ t. length t.items ≡ length blocks.now) }
    ensures follows { IfOk result (λ t. Follows (count_by_parts TOO_MANY) 1 (map module_of blocks.now) t.items) }
{
    let mut table = zeros(alloc, blocks.len())?;
    'order: for &k in order {
        let block = &blocks[k as usize];
        let count = count_of(table.as_slice(), own_parts(block), block.children.slice());
        table[k as usize] = count;
    }
    Ok(table)
}

/// The number of a module.
fn at(table: &[u32], k: u32) -> u32
    requires { k < length table.now }
    ensures { result ≡ slice_index_or table.now k 0 }
{
    table[k as usize]
}

/// Whether a path of the design has more than `MAX_DEPTH` instance names.
pub fn is_deep(
    alloc: Global,
    blocks: &[FlatModule],
    order: &[u32],
    top: u32,
) -> Result<bool, NoMemory>
    requires order { IsChildrenFirst (map module_of blocks.now) order.now }
    requires top { top < length blocks.now }
    ensures { IfOk result (λ deep. deep ≡ reading.is_deep (design_of blocks.now top)) }
{
    let table = depths(alloc, blocks, order)?;
    Ok(at(table.as_slice(), top) > MAX_DEPTH)
}

/// Whether a design that is not too deep has more than `MAX_PARTS` gates, flip-flops and instances.
pub fn has_many_parts(
    alloc: Global,
    blocks: &[FlatModule],
    order: &[u32],
    top: u32,
) -> Result<bool, NoMemory>
    requires order { IsChildrenFirst (map module_of blocks.now) order.now }
    requires top { top < length blocks.now }
    requires shallow { reading.is_deep (design_of blocks.now top) ≡ false }
    ensures { IfOk result (λ many. many ≡ nat_lt most (reading.part_count (design_of blocks.now top))) }
{
    let table = counts(alloc, blocks, order)?;
    Ok(at(table.as_slice(), top) > MOST)
}
