//! The flat nets that stand for the nets of parts.
ghost use Rattle.std.specs.Prelude.{◌≡◌, ◌<◌, ◌≤◌, ◌+◌, length, map, slice_index_or, IfOk};
ghost use Rattle.bs_flat_meaning.specs.Flat as flat;
ghost use Rattle.bs_flat_nets.specs.Blocks.{design_of};
ghost use Rattle.bs_flat_nets.specs.Climbing.{node_at, path_in};
ghost use Rattle.bs_flat_elaborate.specs.Laid.{IsLaid};

use bs_bits::{List, NoMemory};
use bs_flat_meaning::{MAX_PARTS, Node};
use bs_flat_nets::{FlatModule, Numbering, flat_net};
use bs_net::{NetId, Terms};
use std::alloc::Global;

/// The number of the flat net that stands for a net on a node's path. That none does is answered as out of memory, and is never met.
pub fn net_of(
    blocks: &[FlatModule],
    nodes: &[Node],
    top: u32,
    numbering: &Numbering,
    node: u32,
    net: NetId,
) -> Result<NetId, NoMemory>
    requires laid { IsLaid blocks.now nodes.now top numbering.now }
    requires there { node < length nodes.now }
    ensures is { IfOk result (λ n. n ≡ flat.flat_net (design_of blocks.now top) (path_in (design_of blocks.now top) node) net) }
    ensures within { IfOk result (λ n. n.0 < length numbering.now.places) }
{
    match flat_net(blocks, nodes, top, numbering, node, net.0 as usize) {
        Some(n) => Ok(n),
        None => Err(NoMemory),
    }
}

/// The same of some nets, in order.
pub fn nets_of(
    alloc: Global,
    blocks: &[FlatModule],
    nodes: &[Node],
    top: u32,
    numbering: &Numbering,
    node: u32,
    nets: &[NetId],
) -> Result<List<NetId>, NoMemory>
    requires laid { IsLaid blocks.now nodes.now top numbering.now }
    requires there { node < length nodes.now }
    ensures { IfOk result (λ all. all ≡ map (flat.flat_net (design_of blocks.now top) (path_in (design_of blocks.now top) node)) nets.now) }
{
    let mut all = List::new(alloc);
    'nets: for net in nets {
        let number = net_of(blocks, nodes, top, numbering, node, *net)?;
        all.push(number)?;
    }
    Ok(all)
}

/// The same of a gate's inputs.
pub fn terms_of(
    alloc: Global,
    blocks: &[FlatModule],
    nodes: &[Node],
    top: u32,
    numbering: &Numbering,
    node: u32,
    nets: &[NetId],
) -> Result<Terms, NoMemory>
    requires laid { IsLaid blocks.now nodes.now top numbering.now }
    requires there { node < length nodes.now }
    ensures { IfOk result (λ all. all ≡ map (flat.flat_net (design_of blocks.now top) (path_in (design_of blocks.now top) node)) nets.now) }
{
    let mut all = Terms::new(alloc);
    'nets: for net in nets {
        let number = net_of(blocks, nodes, top, numbering, node, *net)?;
        all.push(number)?;
    }
    Ok(all)
}

/// How many nodes there are.
pub fn node_count(nodes: &[Node]) -> u32
    requires { length nodes.now ≤ MAX_PARTS + 1 }
    ensures { result ≡ length nodes.now }
{
    nodes.len() as u32
}

/// The block of a node.
pub fn block_of<'a>(blocks: &'a [FlatModule], nodes: &[Node], node: u32) -> &'a FlatModule
    requires there { node < length nodes.now }
    requires block { (node_at nodes.now node).of < length blocks.now }
    ensures { result.now ≡ slice_index_or blocks.now (node_at nodes.now node).of result.now }
{
    &blocks[nodes[node as usize].of as usize]
}
