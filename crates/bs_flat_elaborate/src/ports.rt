//! The flat nets of the top's ports.
ghost use Rattle.std.specs.Prelude.{◌≡◌, [], map, IfOk};
ghost use Rattle.bs_flat_meaning.specs.Design as design;
ghost use Rattle.bs_flat_meaning.specs.Flat as flat;
ghost use Rattle.bs_flat_nets.specs.Blocks.{design_of};
ghost use Rattle.bs_flat_elaborate.specs.Laid.{IsLaid};

use crate::nets::nets_of;
use bs_bits::{List, NoMemory};
use bs_flat_meaning::Node;
use bs_flat_nets::{FlatModule, Numbering};
use bs_net::NetId;
use std::alloc::Global;

/// The flat nets of the top's inputs.
pub fn flat_inputs(
    alloc: Global,
    blocks: &[FlatModule],
    nodes: &[Node],
    top: u32,
    numbering: &Numbering,
) -> Result<List<NetId>, NoMemory>
    requires { IsLaid blocks.now nodes.now top numbering.now }
    ensures { IfOk result (λ all. all ≡ map (flat.flat_net (design_of blocks.now top) []) (design.own (design_of blocks.now top) []).inputs) }
{
    let block = &blocks[top as usize];
    let nets = nets_of(
        alloc,
        blocks,
        nodes,
        top,
        numbering,
        0,
        block.inputs.slice(),
    )?;
    Ok(nets)
}

/// The flat nets of the top's outputs.
pub fn flat_outputs(
    alloc: Global,
    blocks: &[FlatModule],
    nodes: &[Node],
    top: u32,
    numbering: &Numbering,
) -> Result<List<NetId>, NoMemory>
    requires { IsLaid blocks.now nodes.now top numbering.now }
    ensures { IfOk result (λ all. all ≡ map (flat.flat_net (design_of blocks.now top) []) (design.own (design_of blocks.now top) []).outputs) }
{
    let block = &blocks[top as usize];
    let nets = nets_of(
        alloc,
        blocks,
        nodes,
        top,
        numbering,
        0,
        block.outputs.slice(),
    )?;
    Ok(nets)
}
