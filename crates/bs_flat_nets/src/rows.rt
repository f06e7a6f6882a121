//! The runs of each instance in the order of their nets.
ghost use Rattle.std.specs.Prelude.{◌≡◌, ◌<◌, length, IfOk};
ghost use Rattle.std.specs.List.{flat_map};
ghost use Rattle.bs_flat_nets.specs.Blocks.{joins_of_run};
ghost use Rattle.bs_flat_nets.specs.Climbing.{AreClimbable, joins_of_node};
ghost use Rattle.bs_flat_nets.specs.Rows as spec;

use crate::blocks::{FlatModule, JoinedNets};
use crate::free::sorted;
use bs_bits::{List, NoMemory};
use bs_flat_meaning::Node;
use std::alloc::Global;

/// Whether runs stand in the order of their nets, and none begins before the end of another.
fn are_apart(runs: &[JoinedNets]) -> bool
    ensures { result ≡ spec.are_apart 0 runs.now }
{
    let mut next: usize = 0;
    'runs: for run in runs {
        let first = run.inner as usize;
        if first < next {
            return false;
        }
        next = first + run.width as usize;
    }
    true
}

/// The runs of an instance in order.
fn row_of(alloc: Global, runs: &[JoinedNets]) -> Result<List<JoinedNets>, NoMemory>
    ensures { IfOk result (λ row. spec.IsRow (flat_map joins_of_run runs.now) row) }
{
    let row = sorted(alloc, runs)?;
    if !are_apart(row.as_slice()) {
        // A net stands in two runs, which no text has.
        return Err(NoMemory);
    }
    Ok(List::of(row))
}

/// The runs of each child of a block in order.
fn rows_of_block(alloc: Global, block: &FlatModule) -> Result<List<List<JoinedNets>>, NoMemory>
    ensures { IfOk result (λ rows. spec.AreBlockRows block.now rows) }
{
    let mut rows = List::new(alloc);
    'each: for child in block.children.slice() {
        let row = row_of(alloc, child.joins.slice())?;
        rows.push(row)?;
    }
    Ok(rows)
}

/// The runs of each child of each block in order.
pub fn rows_of_all(
    alloc: Global,
    blocks: &[FlatModule],
) -> Result<List<List<List<JoinedNets>>>, NoMemory>
    ensures { IfOk result (λ rows. spec.AreRows blocks.now rows) }
{
    let mut rows = List::new(alloc);
    'each: for block in blocks {
        let row = rows_of_block(alloc, block)?;
        rows.push(row)?;
    }
    Ok(rows)
}

/// The runs of the instance at the end of a node's path in order.
pub fn row_of_node<'a>(
    rows: &'a [List<List<JoinedNets>>],
    blocks: &[FlatModule],
    nodes: &[Node],
    at: u32,
) -> &'a [JoinedNets]
    requires rows { spec.AreRows blocks.now rows.now }
    requires climb { AreClimbable blocks.now nodes.now }
    requires there { at < length nodes.now }
    requires below { 0 < at }
    ensures { spec.IsRow (joins_of_node blocks.now nodes.now at) result.now }
{
    let _ = blocks;
    let node = nodes[at as usize];
    let parent = nodes[node.parent as usize];
    rows[parent.of as usize].get(node.instance as usize).slice()
}
