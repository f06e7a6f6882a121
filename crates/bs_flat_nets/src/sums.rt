//! The flat nets of a design, counted module by module before any path is made.
ghost use Rattle.std.specs.Prelude.{◌≡◌, ◌<◌, ◌+◌, [], false, length, map, min, nat_lt, replicate, slice_index_or, All, IfOk};
ghost use Rattle.bs_flat_meaning.specs.Counts.{sum_of};
ghost use Rattle.bs_flat_meaning.specs.Flat.{IsDesign, flat_parts};
ghost use Rattle.bs_flat_meaning.specs.Reading as reading;
ghost use Rattle.bs_net.specs.declared.limits.TheConstants.{MAX_NETS as most};
ghost use Rattle.bs_flat_nets.specs.Blocks.{design_of, instance_of, module_of};
ghost use Rattle.bs_flat_nets.specs.Nets.{sum_below};
ghost use Rattle.bs_flat_nets.specs.Order.{IsChildrenFirst};
ghost use Rattle.bs_flat_nets.specs.Sums.{IsFit, all_bits_of, top_sum, weight_in};
ghost use Rattle.bs_flat_nets.specs.Tables.{Follows};

use crate::blocks::{Child, FlatModule, JoinedNets};
use crate::constants::{Bit, all_bits};
use crate::joined::{Counted, weight};
use bs_bits::{List, NoMemory};
use bs_net::MAX_NETS;
use std::alloc::Global;

/// The count at which there are too many nets.
/// One more than `MAX_NETS`.
const TOO_MANY: usize = 100_001;

/// A table of zeros.
fn zeros(alloc: Global, count: usize) -> Result<Vec<usize>, NoMemory>
    ensures { IfOk result (λ t. t.items ≡ replicate count 0) }
{
    let table = vec![in alloc; 0; count]?;
    Ok(table)
}

/// The nets of a sort of some instances and of all below them; at most `TOO_MANY`.
fn sum_children(
    sort: Counted,
    blocks: &[FlatModule],
    bits: &[List<Bit>],
    sums: &[usize],
    children: &[Child],
) -> usize
    requires there { All (λ c. c.of < length blocks.now) children.now }
    requires wide { length sums.now ≡ length blocks.now }
    requires bits { bits.now ≡ all_bits_of blocks.now }
    requires fit { All (IsFit blocks.now) children.now }
    ensures { result ≡ min TOO_MANY (sum_of (λ c. weight_in sort (map module_of blocks.now) (instance_of c) + slice_index_or sums.now c.of 0) children.now) }
{
    let mut sum: usize = 0;
    'each: for child in children {
        let block = &blocks[child.of as usize];
        let known = bits[child.of as usize].slice();
        let own = weight(sort, block, known, child.joins.slice());
        sum = sum
            .saturating_add(own)
            .saturating_add(sums[child.of as usize])
            .min(TOO_MANY);
    }
    sum
}

/// The nets of a sort below each module.
fn sums(
    alloc: Global,
    sort: Counted,
    blocks: &[FlatModule],
    bits: &[List<Bit>],
    order: &[u32],
) -> Result<Vec<usize>, NoMemory>
    requires order { IsChildrenFirst (map module_of blocks.now) order.now }
    requires bits { bits.now ≡ all_bits_of blocks.now }
    requires fit { All (λ b. All (IsFit blocks.now) b.children) blocks.now }
    ensures wide { IfOk result (λ t. length t.items ≡ length blocks.now) }
    ensures follows { IfOk result (λ t. Follows (sum_below TOO_MANY (weight_in sort (map module_of blocks.now))) 0 (map module_of blocks.now) t.items) }
{
    let mut table = zeros(alloc, blocks.len())?;
    'each: for &k in order {
        let children = blocks[k as usize].children.slice();
        let sum = sum_children(sort, blocks, bits, table.as_slice(), children);
        table[k as usize] = sum;
    }
    Ok(table)
}

/// The sum of a module.
fn at(table: &[usize], k: u32) -> usize
    requires { k < length table.now }
    ensures { result ≡ slice_index_or table.now k 0 }
{
    table[k as usize]
}

/// No joined nets.
fn no_runs(alloc: Global) -> List<JoinedNets>
    ensures { result ≡ [] }
{
    List::new(alloc)
}

/// The nets of a sort of the top and of all below it; at most `TOO_MANY`.
fn total(
    alloc: Global,
    sort: Counted,
    blocks: &[FlatModule],
    bits: &[List<Bit>],
    order: &[u32],
    top: u32,
) -> Result<usize, NoMemory>
    requires order { IsChildrenFirst (map module_of blocks.now) order.now }
    requires top { top < length blocks.now }
    requires shallow { reading.is_deep (design_of blocks.now top) ≡ false }
    requires bits { bits.now ≡ all_bits_of blocks.now }
    requires fit { All (λ b. All (IsFit blocks.now) b.children) blocks.now }
    ensures { IfOk result (λ n. n ≡ min TOO_MANY (top_sum sort (design_of blocks.now top))) }
{
    let table = sums(alloc, sort, blocks, bits, order)?;
    let below = at(table.as_slice(), top);
    let none = no_runs(alloc);
    let block = &blocks[top as usize];
    let known = bits[top as usize].slice();
    let own = weight(sort, block, known, none.slice());
    Ok(own.saturating_add(below).min(TOO_MANY))
}

/// Whether the flat nets of a design that is not too deep are more than `MAX_NETS`.
pub fn has_many_nets(
    alloc: Global,
    blocks: &[FlatModule],
    order: &[u32],
    top: u32,
) -> Result<bool, NoMemory>
    requires order { IsChildrenFirst (map module_of blocks.now) order.now }
    requires top { top < length blocks.now }
    requires shallow { reading.is_deep (design_of blocks.now top) ≡ false }
    requires design { IsDesign (design_of blocks.now top) }
    ensures { IfOk result (λ many. many ≡ nat_lt most (length (flat_parts (design_of blocks.now top)).names)) }
{
    let bits = all_bits(alloc, blocks)?;
    let plain = total(alloc, Counted::Plain, blocks, bits.slice(), order, top)?;
    let zeros = total(
        alloc,
        Counted::Constant(false),
        blocks,
        bits.slice(),
        order,
        top,
    )?;
    let ones = total(
        alloc,
        Counted::Constant(true),
        blocks,
        bits.slice(),
        order,
        top,
    )?;
    Ok(plain + (zeros.min(1) + ones.min(1)) > MAX_NETS as usize)
}
