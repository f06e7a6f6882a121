//! The flat parts together.
ghost use Rattle.std.specs.Prelude.{◌≡◌, ◌≤◌, ◌+◌, [], false, nat_lt, length, map, All, IfOk, IsTrue};
ghost use Rattle.bs_net.specs.Netlist.{parts_of};
ghost use Rattle.bs_net.specs.Gate.{takes};
ghost use Rattle.bs_flat_meaning.specs.Design as design;
ghost use Rattle.bs_flat_meaning.specs.Flat.{flat_flop, flat_gate, flat_net, flat_parts};
ghost use Rattle.bs_flat_meaning.specs.Reading.{terminal_count};
ghost use Rattle.bs_flat_meaning.specs.declared.limits.TheConstants.{MAX_TERMINALS as most_terminals};
ghost use Rattle.bs_flat_nets.specs.Blocks.{design_of};
ghost use Rattle.bs_flat_elaborate.specs.Laid.{IsLaid};
ghost use Rattle.bs_flat_elaborate.specs.Naming.{keys_of};
ghost use Rattle.bs_flat_elaborate.specs.Whole as spec;

use crate::consts::flat_consts;
use crate::flops::flat_flops;
use crate::gates::flat_gates;
use crate::ports::{flat_inputs, flat_outputs};
use bs_bits::{List, NoMemory};
use bs_flat_meaning::{MAX_PARTS, Node};
use bs_flat_nets::{FlatModule, Numbering};
use bs_net::{Const, Flop, Gate, MAX_NETS, Names, NetId, Raw};
use std::alloc::Global;

/// The flat lists of a design.
#[derive(Drop)]
struct FlatLists {
    inputs: List<NetId>,
    outputs: List<NetId>,
    consts: List<Const>,
    gates: List<Gate>,
    flops: List<Flop>,
}

/// The flat lists of a design, the gates last, since they take the most.
fn lists_of(
    alloc: Global,
    blocks: &[FlatModule],
    nodes: &[Node],
    top: u32,
    numbering: &Numbering,
) -> Result<FlatLists, NoMemory>
    requires laid { IsLaid blocks.now nodes.now top numbering.now }
    requires paths { length nodes.now ≤ MAX_PARTS + 1 }
    ensures inputs { IfOk result (λ l. l.inputs ≡ map (flat_net (design_of blocks.now top) []) (design.own (design_of blocks.now top) []).inputs) }
    ensures outputs { IfOk result (λ l. l.outputs ≡ map (flat_net (design_of blocks.now top) []) (design.own (design_of blocks.now top) []).outputs) }
    ensures consts { IfOk result (λ l. l.consts ≡ (flat_parts (design_of blocks.now top)).consts) }
    ensures gates { IfOk result (λ l. l.gates ≡ map (flat_gate (design_of blocks.now top)) (design.gates (design_of blocks.now top))) }
    ensures flops { IfOk result (λ l. l.flops ≡ map (flat_flop (design_of blocks.now top)) (design.flops (design_of blocks.now top))) }
{
    let inputs = flat_inputs(alloc, blocks, nodes, top, numbering)?;
    let outputs = flat_outputs(alloc, blocks, nodes, top, numbering)?;
    let consts = flat_consts(alloc, blocks, nodes, top, numbering)?;
    let flops = flat_flops(alloc, blocks, nodes, top, numbering)?;
    let gates = flat_gates(alloc, blocks, nodes, top, numbering)?;
    Ok(FlatLists {
        inputs,
        outputs,
        consts,
        gates,
        flops,
    })
}

/// The parts of a netlist, each of whose nets has a name.
fn raw_of(names: Names, lists: FlatLists) -> Raw
    requires named { spec.AreNamed (record { names = names; inputs = lists.inputs; outputs = lists.outputs; consts = lists.consts; gates = lists.gates; flops = lists.flops }) }
    requires short { spec.AreShort (record { names = names; inputs = lists.inputs; outputs = lists.outputs; consts = lists.consts; gates = lists.gates; flops = lists.flops }) }
    ensures { parts_of result ≡ record { names = names; inputs = lists.inputs; outputs = lists.outputs; consts = lists.consts; gates = lists.gates; flops = lists.flops } }
{
    Raw {
        names,
        inputs: lists.inputs,
        outputs: lists.outputs,
        consts: lists.consts,
        gates: lists.gates,
        flops: lists.flops,
    }
}

/// The flat parts of a design whose flat nets have these names.
pub fn flat(
    alloc: Global,
    blocks: &[FlatModule],
    nodes: &[Node],
    top: u32,
    numbering: &Numbering,
    names: Names,
) -> Result<Raw, NoMemory>
    requires laid { IsLaid blocks.now nodes.now top numbering.now }
    requires takes { All (λ b. All (λ g. IsTrue (takes g.kind (length g.ins))) b.gates) blocks.now }
    requires named { names ≡ keys_of (design_of blocks.now top) }
    requires few { length names ≤ MAX_NETS }
    requires small { spec.IsSmall (design_of blocks.now top) }
    requires narrow { nat_lt most_terminals (terminal_count (design_of blocks.now top)) ≡ false }
    requires paths { length nodes.now ≤ MAX_PARTS + 1 }
    ensures { IfOk result (λ r. parts_of r ≡ flat_parts (design_of blocks.now top)) }
{
    match lists_of(alloc, blocks, nodes, top, numbering) {
        Ok(lists) => Ok(raw_of(names, lists)),
        Err(want) => {
            drop(names);
            Err(want)
        }
    }
}
