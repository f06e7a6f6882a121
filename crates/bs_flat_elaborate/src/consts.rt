//! The flat constants: `1'b0` and `1'b1` stand once, where they stand first.
ghost use Rattle.std.specs.Prelude.{◌≡◌, ◌+◌, ◌≤◌, ◌<◌, ◌++◌, ◌&&◌, [], ◌∷◌, not, nat_eq, if◌then◌else◌, length, map, filter, slice_index_or, string_bytes, IfOk, OnOk};
ghost use Rattle.std.specs.List.{flat_map};
ghost use Rattle.std.specs.Str.{bytes_eq};
ghost use Rattle.bs_verilog_scope.specs.Keys as keys;
ghost use Rattle.bs_flat_meaning.specs.Design as design;
ghost use Rattle.bs_flat_meaning.specs.Flat as flat;
ghost use Rattle.bs_flat_nets.specs.Blocks.{design_of, joins_of_run};
ghost use Rattle.bs_flat_nets.specs.Climbing.{AreClimbable, joins_of_node, path_in};
ghost use Rattle.bs_flat_elaborate.specs.Laid.{IsLaid};
ghost use Rattle.bs_flat_elaborate.specs.Parts as spec;

use crate::nets::{block_of, net_of, node_count};
use bs_bits::{List, NoMemory};
use bs_flat_meaning::{MAX_PARTS, Node};
use bs_flat_nets::{FlatModule, JoinedNets, Numbering, outer_of};
use bs_net::{Const, NetId};
use bs_verilog_scope::constant_key;
use std::alloc::Global;

/// Whether a constant's net has the key of that constant.
fn is_named_so(names: &[String], constant: Const) -> bool
    requires { constant.net.0 < length names.now }
    ensures { result ≡ bytes_eq (slice_index_or (map string_bytes names.now) constant.net.0 []) (keys.constant_key constant.value) }
{
    names[constant.net.0 as usize].as_str() == constant_key(constant.value)
}

/// The runs of the instance at the end of a node's path.
fn runs_of<'a>(blocks: &'a [FlatModule], nodes: &[Node], at: u32) -> &'a [JoinedNets]
    requires nodes { AreClimbable blocks.now nodes.now }
    requires there { at < length nodes.now }
    requires below { 0 < at }
    ensures { flat_map joins_of_run result.now ≡ joins_of_node blocks.now nodes.now at }
{
    let node = nodes[at as usize];
    let parent = nodes[node.parent as usize];
    blocks[parent.of as usize]
        .children
        .get(node.instance as usize)
        .joins
        .slice()
}

/// Whether a net on a node's path is joined with none of the parent.
fn is_root(blocks: &[FlatModule], nodes: &[Node], node: u32, net: NetId) -> bool
    requires nodes { AreClimbable blocks.now nodes.now }
    requires there { node < length nodes.now }
    ensures { result ≡ spec.is_root_at blocks.now nodes.now node net.0 }
{
    if node == 0 {
        return true;
    }
    outer_of(runs_of(blocks, nodes, node), net.0 as usize).is_none()
}

/// Whether a flat net is a net on a node's path itself.
fn is_itself(numbering: &Numbering, number: NetId, node: u32, net: NetId) -> bool
    requires { number.0 < length numbering.now.places }
    ensures { result ≡ spec.is_itself numbering.now number.0 node net.0 }
{
    let place = numbering.places.get(number.0 as usize);
    place.node == node && place.net == net.0 as usize
}

/// Whether a constant on a node's path stands elsewhere before.
fn is_repeat(
    blocks: &[FlatModule],
    nodes: &[Node],
    numbering: &Numbering,
    node: u32,
    names: &[String],
    constant: Const,
    number: NetId,
) -> bool
    requires nodes { AreClimbable blocks.now nodes.now }
    requires there { node < length nodes.now }
    requires named { constant.net.0 < length names.now }
    requires number { number.0 < length numbering.now.places }
    ensures { result ≡ (spec.is_root_at blocks.now nodes.now node constant.net.0
        && bytes_eq (slice_index_or (map string_bytes names.now) constant.net.0 []) (keys.constant_key constant.value)
        && not (spec.is_itself numbering.now number.0 node constant.net.0)) }
{
    if !is_named_so(names, constant) {
        return false;
    }
    let root = is_root(blocks, nodes, node, constant.net);
    let itself = is_itself(numbering, number, node, constant.net);
    root && !itself
}

/// Adds a constant that is no repeat.
fn push_first(all: &mut List<Const>, constant: Const, repeat: bool) -> Result<(), NoMemory>
    ensures { OnOk result (all.new ≡ all.old ++ (if repeat then [] else constant ∷ [])) }
{
    if repeat {
        return Ok(());
    }
    all.push(constant)?;
    Ok(())
}

/// Adds the flat constant of one on a node's path, if that is no repeat. A net that the block has not is answered as out of memory, and
/// no design has one.
fn add_const(
    blocks: &[FlatModule],
    nodes: &[Node],
    top: u32,
    numbering: &Numbering,
    node: u32,
    all: &mut List<Const>,
    constant: Const,
) -> Result<(), NoMemory>
    requires laid { IsLaid blocks.now nodes.now top numbering.now }
    requires there { node < length nodes.now }
    ensures { OnOk result (all.new ≡ all.old ++ spec.const_on (design_of blocks.now top) (path_in (design_of blocks.now top) node) constant) }
{
    let names = block_of(blocks, nodes, node).names.slice();
    if constant.net.0 as usize >= names.len() {
        return Err(NoMemory);
    }
    let number = net_of(blocks, nodes, top, numbering, node, constant.net)?;
    let repeat = is_repeat(blocks, nodes, numbering, node, names, constant, number);
    let flat = Const {
        net: number,
        value: constant.value,
    };
    push_first(all, flat, repeat)?;
    Ok(())
}

/// Adds the flat constants of those on a node's path.
fn add_consts(
    blocks: &[FlatModule],
    nodes: &[Node],
    top: u32,
    numbering: &Numbering,
    node: u32,
    all: &mut List<Const>,
) -> Result<(), NoMemory>
    requires laid { IsLaid blocks.now nodes.now top numbering.now }
    requires there { node < length nodes.now }
    ensures { OnOk result (all.new ≡ all.old ++ spec.consts_on (design_of blocks.now top) (path_in (design_of blocks.now top) node)) }
{
    let consts = block_of(blocks, nodes, node).consts.slice();
    'consts: for constant in consts {
        add_const(blocks, nodes, top, numbering, node, all, *constant)?;
    }
    Ok(())
}

/// The flat constants of a design.
pub fn flat_consts(
    alloc: Global,
    blocks: &[FlatModule],
    nodes: &[Node],
    top: u32,
    numbering: &Numbering,
) -> Result<List<Const>, NoMemory>
    requires laid { IsLaid blocks.now nodes.now top numbering.now }
    requires few { length nodes.now ≤ MAX_PARTS + 1 }
    ensures { IfOk result (λ all. all ≡ (flat.flat_parts (design_of blocks.now top)).consts) }
{
    let mut all = List::new(alloc);
    let count = node_count(nodes);
    'nodes: for node in 0..count {
        add_consts(blocks, nodes, top, numbering, node, &mut all)?;
    }
    Ok(all)
}
