//! The flat gates.
ghost use Rattle.std.specs.Prelude.{◌≡◌, ◌+◌, ◌≤◌, ◌<◌, ◌++◌, length, map, IfOk, OnOk};
ghost use Rattle.bs_flat_meaning.specs.Design as design;
ghost use Rattle.bs_flat_meaning.specs.Flat as flat;
ghost use Rattle.bs_flat_nets.specs.Blocks.{design_of};
ghost use Rattle.bs_flat_nets.specs.Climbing.{path_in};
ghost use Rattle.bs_flat_elaborate.specs.Laid.{IsLaid};
ghost use Rattle.bs_flat_elaborate.specs.Parts as spec;

use crate::nets::{block_of, net_of, node_count, terms_of};
use bs_bits::{List, NoMemory};
use bs_flat_meaning::{MAX_PARTS, Node};
use bs_flat_nets::{FlatModule, Numbering};
use bs_net::Gate;
use std::alloc::Global;

/// The flat gate of a gate on a node's path.
fn flat_gate(
    alloc: Global,
    blocks: &[FlatModule],
    nodes: &[Node],
    top: u32,
    numbering: &Numbering,
    node: u32,
    gate: &Gate,
) -> Result<Gate, NoMemory>
    requires laid { IsLaid blocks.now nodes.now top numbering.now }
    requires there { node < length nodes.now }
    ensures { IfOk result (λ g. g ≡ spec.gate_on (design_of blocks.now top) (path_in (design_of blocks.now top) node) gate.now) }
{
    let out = net_of(blocks, nodes, top, numbering, node, gate.out)?;
    let ins = terms_of(alloc, blocks, nodes, top, numbering, node, gate.ins.slice())?;
    Ok(Gate {
        kind: gate.kind,
        out,
        ins,
    })
}

/// Adds the flat gates of the gates on a node's path.
fn add_gates(
    alloc: Global,
    blocks: &[FlatModule],
    nodes: &[Node],
    top: u32,
    numbering: &Numbering,
    node: u32,
    all: &mut List<Gate>,
) -> Result<(), NoMemory>
    requires laid { IsLaid blocks.now nodes.now top numbering.now }
    requires there { node < length nodes.now }
    ensures { OnOk result (all.new ≡ all.old ++ spec.gates_on (design_of blocks.now top) (path_in (design_of blocks.now top) node)) }
{
    let gates = block_of(blocks, nodes, node).gates.slice();
    'gates: for gate in gates {
        let flat = flat_gate(alloc, blocks, nodes, top, numbering, node, gate)?;
        all.push(flat)?;
    }
    Ok(())
}

/// The flat gates of a design.
pub fn flat_gates(
    alloc: Global,
    blocks: &[FlatModule],
    nodes: &[Node],
    top: u32,
    numbering: &Numbering,
) -> Result<List<Gate>, NoMemory>
    requires laid { IsLaid blocks.now nodes.now top numbering.now }
    requires few { length nodes.now ≤ MAX_PARTS + 1 }
    ensures { IfOk result (λ all. all ≡ map (flat.flat_gate (design_of blocks.now top)) (design.gates (design_of blocks.now top))) }
{
    let mut all = List::new(alloc);
    let count = node_count(nodes);
    'nodes: for node in 0..count {
        add_gates(alloc, blocks, nodes, top, numbering, node, &mut all)?;
    }
    Ok(all)
}
