//! The flat nets of a design in order, by the nodes of their paths.
ghost use Rattle.std.specs.Prelude.{◌≡◌, ◌<◌, ◌≤◌, length, All, IfOk, OnOk, []};
ghost use Rattle.bs_flat_meaning.specs.Design.{paths};
ghost use Rattle.bs_flat_meaning.specs.Flat.{IsDesign};
ghost use Rattle.bs_flat_meaning.specs.Paths.{ArePaths};
ghost use Rattle.bs_flat_nets.specs.Blocks.{design_of};
ghost use Rattle.bs_flat_nets.specs.Climbing.{AreClimbable, node_at};
ghost use Rattle.bs_flat_nets.specs.Sums.{all_bits_of};
ghost use Rattle.bs_flat_nets.specs.Free as spec;
ghost use Rattle.bs_flat_nets.specs.Numbering.{IsNumbering};
ghost use Rattle.bs_flat_nets.specs.Tally.{no_tally, with_nets, IsWholeTally};

use crate::blocks::{FlatModule, JoinedNets};
use crate::climbing::NetOnPath;
use crate::constants::{Bit, all_bits};
use crate::free::{free_nets, free_of_all, free_of_node};
use crate::rows::rows_of_all;
use crate::tally::{NetTally, push_nets};
use bs_bits::{List, NoMemory};
use bs_flat_meaning::Node;
use std::alloc::Global;

/// The flat nets in order, each by the number of its path's node and its place in the block there; where those of each node
/// begin; the constants of each block; the flat nets that are the constants 0 and 1, where there are such; and the runs of
/// each child of each block in order.
#[derive(Drop)]
pub struct Numbering {
    pub places: List<NetOnPath>,
    pub starts: List<usize>,
    pub bits: List<List<Bit>>,
    pub zero: Option<usize>,
    pub one: Option<usize>,
    pub rows: List<List<List<JoinedNets>>>,
}

/// The constants of the block with a number.
pub fn bits_of<'a>(bits: &'a [List<Bit>], blocks: &[FlatModule], of: u32) -> &'a [Bit]
    requires bits { bits.now ≡ all_bits_of blocks.now }
    requires there { of < length blocks.now }
    ensures { result.now ≡ spec.known_in blocks.now of }
{
    bits[of as usize].slice()
}

/// How many nets the block with a number has.
pub fn count_of(blocks: &[FlatModule], of: u32) -> usize
    requires { of < length blocks.now }
    ensures { result ≡ spec.count_in blocks.now of }
{
    blocks[of as usize].names.len()
}

/// No joined nets.
fn no_runs(alloc: Global) -> List<JoinedNets>
    ensures { result ≡ [] }
{
    List::new(alloc)
}

/// No nets.
fn no_nets(alloc: Global) -> NetTally
    ensures { result ≡ no_tally }
{
    NetTally {
        places: List::new(alloc),
        zero: None,
        one: None,
    }
}

/// All nets of the top.
fn top_nets(alloc: Global, blocks: &[FlatModule], top: u32) -> Result<List<usize>, NoMemory>
    requires { top < length blocks.now }
    ensures { IfOk result (λ nets. nets ≡ spec.free_nets [] (spec.count_in blocks.now top)) }
{
    let none = no_runs(alloc);
    let nets = free_nets(alloc, none.slice(), count_of(blocks, top))?;
    Ok(nets)
}

/// The flat nets of the top.
fn top_tally(
    alloc: Global,
    blocks: &[FlatModule],
    bits: &[List<Bit>],
    top: u32,
) -> Result<NetTally, NoMemory>
    requires top { top < length blocks.now }
    requires bits { bits.now ≡ all_bits_of blocks.now }
    ensures { IfOk result (λ t. t ≡ with_nets no_tally 0 (spec.known_in blocks.now top) (spec.free_nets [] (spec.count_in blocks.now top))) }
{
    let mut tally = no_nets(alloc);
    let nets = top_nets(alloc, blocks, top)?;
    push_nets(&mut tally, 0, bits_of(bits, blocks, top), nets.slice())?;
    Ok(tally)
}

/// Adds the flat nets of a node, which is not the top's.
fn push_node(
    tally: &mut NetTally,
    free: &[List<List<usize>>],
    bits: &[List<Bit>],
    blocks: &[FlatModule],
    nodes: &[Node],
    at: u32,
) -> Result<(), NoMemory>
    requires free { free.now ≡ spec.free_of_all blocks.now }
    requires bits { bits.now ≡ all_bits_of blocks.now }
    requires climb { AreClimbable blocks.now nodes.now }
    requires there { at < length nodes.now }
    requires below { 0 < at }
    ensures { OnOk result (tally.new ≡ with_nets tally.old at (spec.known_in blocks.now (node_at nodes.now at).of) (spec.free_of_node blocks.now nodes.now at)) }
{
    let known = bits_of(bits, blocks, nodes[at as usize].of);
    push_nets(tally, at, known, free_of_node(free, blocks, nodes, at))?;
    Ok(())
}

/// Adds the flat nets of the nodes below the top's, and notes where those of each node begin.
fn push_nodes(
    tally: &mut NetTally,
    starts: &mut List<usize>,
    free: &[List<List<usize>>],
    bits: &[List<Bit>],
    blocks: &[FlatModule],
    nodes: &[Node],
    _top: u32,
) -> Result<(), NoMemory>
    requires few { length nodes.now ≤ 4294967295 }
    requires paths { ArePaths (design_of blocks.now _top) nodes.now (paths (design_of blocks.now _top)) }
    requires climb { AreClimbable blocks.now nodes.now }
    requires within { All (λ p. p.of < length blocks.now) nodes.now }
    requires design { IsDesign (design_of blocks.now _top) }
    requires free { free.now ≡ spec.free_of_all blocks.now }
    requires bits { bits.now ≡ all_bits_of blocks.now }
    requires first { tally.old ≡ with_nets no_tally 0 (spec.known_in blocks.now _top) (spec.free_nets [] (spec.count_in blocks.now _top)) }
    requires none { starts.old ≡ [] }
    ensures { OnOk result (IsWholeTally blocks.now nodes.now _top tally.new starts.new) }
{
    starts.push(0)?;
    'nodes: for at in 1..nodes.len() {
        starts.push(tally.places.len())?;
        push_node(tally, free, bits, blocks, nodes, at as u32)?;
    }
    starts.push(tally.places.len())?;
    Ok(())
}

/// The same, where the nets that joins leave to each instance are not known yet.
fn push_below(
    alloc: Global,
    tally: &mut NetTally,
    starts: &mut List<usize>,
    bits: &[List<Bit>],
    blocks: &[FlatModule],
    nodes: &[Node],
    top: u32,
) -> Result<(), NoMemory>
    requires few { length nodes.now ≤ 4294967295 }
    requires paths { ArePaths (design_of blocks.now top) nodes.now (paths (design_of blocks.now top)) }
    requires climb { AreClimbable blocks.now nodes.now }
    requires within { All (λ p. p.of < length blocks.now) nodes.now }
    requires design { IsDesign (design_of blocks.now top) }
    requires bits { bits.now ≡ all_bits_of blocks.now }
    requires first { tally.old ≡ with_nets no_tally 0 (spec.known_in blocks.now top) (spec.free_nets [] (spec.count_in blocks.now top)) }
    requires none { starts.old ≡ [] }
    ensures { OnOk result (IsWholeTally blocks.now nodes.now top tally.new starts.new) }
{
    let free = free_of_all(alloc, blocks)?;
    let pushed = push_nodes(tally, starts, free.slice(), bits, blocks, nodes, top);
    drop(free);
    pushed
}

/// The flat nets of all nodes, and where those of each node begin.
#[derive(Drop)]
struct NetsByNode {
    tally: NetTally,
    starts: List<usize>,
}

/// The flat nets of all nodes of a design.
fn nets_by_node(
    alloc: Global,
    bits: &[List<Bit>],
    blocks: &[FlatModule],
    nodes: &[Node],
    top: u32,
) -> Result<NetsByNode, NoMemory>
    requires top { top < length blocks.now }
    requires few { length nodes.now ≤ 4294967295 }
    requires paths { ArePaths (design_of blocks.now top) nodes.now (paths (design_of blocks.now top)) }
    requires climb { AreClimbable blocks.now nodes.now }
    requires within { All (λ p. p.of < length blocks.now) nodes.now }
    requires design { IsDesign (design_of blocks.now top) }
    requires bits { bits.now ≡ all_bits_of blocks.now }
    ensures { IfOk result (λ n. IsWholeTally blocks.now nodes.now top n.tally n.starts) }
{
    let mut tally = top_tally(alloc, blocks, bits, top)?;
    let mut starts = List::new(alloc);
    match push_below(alloc, &mut tally, &mut starts, bits, blocks, nodes, top) {
        Ok(()) => Ok(NetsByNode { tally, starts }),
        Err(want) => {
            drop(tally);
            drop(starts);
            Err(want)
        }
    }
}

/// The numbering of a design's flat nets, with the runs of all instances.
fn numbering_of(
    alloc: Global,
    blocks: &[FlatModule],
    _nodes: &[Node],
    _top: u32,
    bits: List<List<Bit>>,
    nets: NetsByNode,
) -> Result<Numbering, NoMemory>
    requires design { IsDesign (design_of blocks.now _top) }
    requires bits { bits ≡ all_bits_of blocks.now }
    requires nets { IsWholeTally blocks.now _nodes.now _top nets.tally nets.starts }
    ensures { IfOk result (λ n. IsNumbering blocks.now _nodes.now _top n) }
{
    let NetsByNode { tally, starts } = nets;
    match rows_of_all(alloc, blocks) {
        Ok(rows) => Ok(Numbering {
            places: tally.places,
            starts,
            bits,
            zero: tally.zero,
            one: tally.one,
            rows,
        }),
        Err(want) => {
            drop(bits);
            drop(tally);
            drop(starts);
            Err(want)
        }
    }
}

/// The flat nets of a design. It takes time by the instances in the text with their runs, by the nodes, and by the nets that
/// joins leave to each.
pub fn number_nets(
    alloc: Global,
    blocks: &[FlatModule],
    nodes: &[Node],
    top: u32,
) -> Result<Numbering, NoMemory>
    requires top { top < length blocks.now }
    requires paths { ArePaths (design_of blocks.now top) nodes.now (paths (design_of blocks.now top)) }
    requires climb { AreClimbable blocks.now nodes.now }
    requires within { All (λ p. p.of < length blocks.now) nodes.now }
    requires design { IsDesign (design_of blocks.now top) }
    ensures { IfOk result (λ n. IsNumbering blocks.now nodes.now top n) }
{
    if nodes.len() > u32::MAX as usize {
        // No design has so many paths.
        return Err(NoMemory);
    }
    let bits = all_bits(alloc, blocks)?;
    match nets_by_node(alloc, bits.slice(), blocks, nodes, top) {
        Ok(nets) => numbering_of(alloc, blocks, nodes, top, bits, nets),
        Err(want) => {
            drop(bits);
            Err(want)
        }
    }
}
