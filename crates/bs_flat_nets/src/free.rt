//! The nets that joins leave to each instance.
ghost use Rattle.std.specs.Prelude.{◌≡◌, ◌<◌, ◌≤◌, ◌-◌, ◌++◌, not, length, map, filter, IfOk, OnOk, IsPermutation};
ghost use Rattle.std.specs.List.{flat_map, list_any, range_with_len};
ghost use Rattle.bs_flat_nets.specs.Blocks.{joins_of_run};
ghost use Rattle.bs_flat_nets.specs.Constants.{covers};
ghost use Rattle.bs_flat_nets.specs.Climbing.{AreClimbable};
ghost use Rattle.bs_flat_nets.specs.Free as spec;

use crate::blocks::{Child, FlatModule, JoinedNets};
use bs_bits::{List, NoMemory};
use bs_flat_meaning::Node;
use std::alloc::Global;

/// Runs in the order of their nets.
pub fn sorted(alloc: Global, runs: &[JoinedNets]) -> Result<Vec<JoinedNets>, NoMemory>
    ensures { IfOk result (λ v. IsPermutation runs.now v.items) }
{
    let mut all = Vec::from_slice(alloc, runs)?;
    all.sort_by_key(|run| run.inner)?;
    Ok(all)
}

/// Adds the numbers of a range.
fn push_range(into: &mut List<usize>, from: usize, to: usize) -> Result<(), NoMemory>
    requires { from ≤ to }
    ensures { OnOk result (into.new ≡ into.old ++ range_with_len from (to - from)) }
{
    'nets: for net in from..to {
        into.push(net)?;
    }
    Ok(())
}

/// The nets that runs in the order of their nets leave, of so many.
fn free_between(alloc: Global, runs: &[JoinedNets], count: usize) -> Result<List<usize>, NoMemory>
    ensures { IfOk result (λ nets. nets ≡ filter (λ n. not (list_any (λ r. covers r n) runs.now)) (range_with_len 0 count)) }
{
    let mut nets = List::new(alloc);
    let mut next: usize = 0;
    'runs: for run in runs {
        let first = run.inner as usize;
        if first < next {
            // A net stands in two runs, or the order is wrong, which no text has.
            return Err(NoMemory);
        }
        push_range(&mut nets, next, first)?;
        next = first + run.width as usize;
    }
    if count < next {
        // A run reaches past the last net, which no text has.
        return Err(NoMemory);
    }
    push_range(&mut nets, next, count)?;
    Ok(nets)
}

/// The nets that runs leave, of so many. It takes time by the runs and by the nets that are left.
pub fn free_nets(alloc: Global, runs: &[JoinedNets], count: usize) -> Result<List<usize>, NoMemory>
    ensures { IfOk result (λ nets. nets ≡ spec.free_nets (flat_map joins_of_run runs.now) count) }
{
    let runs = sorted(alloc, runs)?;
    let nets = free_between(alloc, runs.as_slice(), count)?;
    Ok(nets)
}

/// The nets that joins leave to a child.
fn free_of_child(
    alloc: Global,
    blocks: &[FlatModule],
    child: &Child,
) -> Result<List<usize>, NoMemory>
    ensures { IfOk result (λ nets. nets ≡ spec.free_of_child blocks.now child.now) }
{
    if child.of as usize >= blocks.len() {
        // An instance is of no block, which no text has.
        return Err(NoMemory);
    }
    let count = blocks[child.of as usize].names.len();
    let nets = free_nets(alloc, child.joins.slice(), count)?;
    Ok(nets)
}

/// The nets that joins leave to each child of a block.
fn free_of_block(
    alloc: Global,
    blocks: &[FlatModule],
    block: &FlatModule,
) -> Result<List<List<usize>>, NoMemory>
    ensures { IfOk result (λ all. all ≡ spec.free_of_block blocks.now block.now) }
{
    let mut all = List::new(alloc);
    'each: for child in block.children.slice() {
        let nets = free_of_child(alloc, blocks, child)?;
        all.push(nets)?;
    }
    Ok(all)
}

/// The nets that joins leave to each child of each block.
pub fn free_of_all(
    alloc: Global,
    blocks: &[FlatModule],
) -> Result<List<List<List<usize>>>, NoMemory>
    ensures { IfOk result (λ all. all ≡ spec.free_of_all blocks.now) }
{
    let mut all = List::new(alloc);
    'each: for block in blocks {
        let nets = free_of_block(alloc, blocks, block)?;
        all.push(nets)?;
    }
    Ok(all)
}

/// The nets that joins leave to a node's path.
pub fn free_of_node<'a>(
    free: &'a [List<List<usize>>],
    blocks: &[FlatModule],
    nodes: &[Node],
    at: u32,
) -> &'a [usize]
    requires free { free.now ≡ spec.free_of_all blocks.now }
    requires climb { AreClimbable blocks.now nodes.now }
    requires there { at < length nodes.now }
    requires below { 0 < at }
    ensures { result.now ≡ spec.free_of_node blocks.now nodes.now at }
{
    let _ = blocks;
    let node = nodes[at as usize];
    let parent = nodes[node.parent as usize];
    free[parent.of as usize].get(node.instance as usize).slice()
}
