//! The flat flip-flops.
ghost use Rattle.std.specs.Prelude.{◌≡◌, ◌+◌, ◌≤◌, ◌<◌, ◌++◌, length, map, IfOk, OnOk};
ghost use Rattle.bs_flat_meaning.specs.Design as design;
ghost use Rattle.bs_flat_meaning.specs.Flat as flat;
ghost use Rattle.bs_flat_nets.specs.Blocks.{design_of};
ghost use Rattle.bs_flat_nets.specs.Climbing.{path_in};
ghost use Rattle.bs_flat_elaborate.specs.Laid.{IsLaid};
ghost use Rattle.bs_flat_elaborate.specs.Parts as spec;

use crate::nets::{block_of, net_of, node_count};
use bs_bits::{List, NoMemory};
use bs_flat_meaning::{MAX_PARTS, Node};
use bs_flat_nets::{FlatModule, Numbering};
use bs_net::{Flop, Mode};
use std::alloc::Global;

/// What the flat flip-flop of one on a node's path loads.
fn flat_mode(
    blocks: &[FlatModule],
    nodes: &[Node],
    top: u32,
    numbering: &Numbering,
    node: u32,
    mode: Mode,
) -> Result<Mode, NoMemory>
    requires laid { IsLaid blocks.now nodes.now top numbering.now }
    requires there { node < length nodes.now }
    ensures { IfOk result (λ m. m ≡ flat.flat_mode (design_of blocks.now top) (path_in (design_of blocks.now top) node) mode) }
{
    match mode {
        Mode::Plain => Ok(Mode::Plain),
        Mode::Enable(net) => {
            let e = net_of(blocks, nodes, top, numbering, node, net)?;
            Ok(Mode::Enable(e))
        }
        Mode::Clear(net) => {
            let r = net_of(blocks, nodes, top, numbering, node, net)?;
            Ok(Mode::Clear(r))
        }
    }
}

/// The flat flip-flop of one on a node's path.
fn flat_flop(
    blocks: &[FlatModule],
    nodes: &[Node],
    top: u32,
    numbering: &Numbering,
    node: u32,
    flop: Flop,
) -> Result<Flop, NoMemory>
    requires laid { IsLaid blocks.now nodes.now top numbering.now }
    requires there { node < length nodes.now }
    ensures { IfOk result (λ f. f ≡ spec.flop_on (design_of blocks.now top) (path_in (design_of blocks.now top) node) flop) }
{
    let q = net_of(blocks, nodes, top, numbering, node, flop.q)?;
    let d = net_of(blocks, nodes, top, numbering, node, flop.d)?;
    let ck = net_of(blocks, nodes, top, numbering, node, flop.ck)?;
    let mode = flat_mode(blocks, nodes, top, numbering, node, flop.mode)?;
    Ok(Flop {
        q,
        d,
        ck,
        reset: flop.reset,
        mode,
    })
}

/// Adds the flat flip-flops of those on a node's path.
fn add_flops(
    blocks: &[FlatModule],
    nodes: &[Node],
    top: u32,
    numbering: &Numbering,
    node: u32,
    all: &mut List<Flop>,
) -> Result<(), NoMemory>
    requires laid { IsLaid blocks.now nodes.now top numbering.now }
    requires there { node < length nodes.now }
    ensures { OnOk result (all.new ≡ all.old ++ spec.flops_on (design_of blocks.now top) (path_in (design_of blocks.now top) node)) }
{
    let flops = block_of(blocks, nodes, node).flops.slice();
    'flops: for flop in flops {
        let flat = flat_flop(blocks, nodes, top, numbering, node, *flop)?;
        all.push(flat)?;
    }
    Ok(())
}

/// The flat flip-flops of a design.
pub fn flat_flops(
    alloc: Global,
    blocks: &[FlatModule],
    nodes: &[Node],
    top: u32,
    numbering: &Numbering,
) -> Result<List<Flop>, NoMemory>
    requires laid { IsLaid blocks.now nodes.now top numbering.now }
    requires few { length nodes.now ≤ MAX_PARTS + 1 }
    ensures { IfOk result (λ all. all ≡ map (flat.flat_flop (design_of blocks.now top)) (design.flops (design_of blocks.now top))) }
{
    let mut all = List::new(alloc);
    let count = node_count(nodes);
    'nodes: for node in 0..count {
        add_flops(blocks, nodes, top, numbering, node, &mut all)?;
    }
    Ok(all)
}
