//! The flat netlist of a design of blocks.
ghost use Rattle.std.specs.Prelude.{◌≡◌, ◌<◌, length, map, All, IfOk, IsTrue};
ghost use Rattle.bs_bits.specs.Reading.{Answers};
ghost use Rattle.bs_net.specs.Netlist.{parts_of};
ghost use Rattle.bs_net.specs.Gate.{takes};
ghost use Rattle.bs_flat_meaning.specs.Flat.{IsDesign};
ghost use Rattle.bs_flat_meaning.specs.Reading.{elaborated};
ghost use Rattle.bs_flat_meaning.specs.declared.fault.FlatFault.TheVariants.{NoMemory as want};
ghost use Rattle.bs_flat_nets.specs.Blocks.{AreThere, design_of, module_of};
ghost use Rattle.bs_flat_nets.specs.Order.{IsChildrenFirst};
ghost use Rattle.bs_flat_elaborate.specs.Laid.{IsLaid};
ghost use Rattle.bs_flat_elaborate.specs.Naming.{IsNamed, keys_of};
ghost use Rattle.bs_flat_elaborate.specs.Whole as spec;

use crate::flat::flat;
use crate::naming::{NamingEnd, name_nets};
use crate::sizes::check_sizes;
use crate::terminals::has_many_terminals;
use bs_bits::{List, NoMemory};
use bs_flat_meaning::{FlatFault, Node};
use bs_flat_nets::{FlatModule, Numbering, number_nets, path_nodes};
use bs_net::{Names, Raw};
use std::alloc::Global;

/// The nodes of a design's paths, the numbering of its flat nets, and their names.
#[derive(Drop)]
pub struct NamedDesign {
    pub nodes: List<Node>,
    pub numbering: Numbering,
    pub named: NamingEnd,
}

/// Lays a design out by the nodes of its paths and the numbering of its flat nets.
fn lay_names(
    alloc: Global,
    blocks: &[FlatModule],
    top: u32,
    nodes: List<Node>,
    numbering: Numbering,
) -> Result<NamedDesign, NoMemory>
    requires laid { IsLaid blocks.now nodes top numbering }
    requires small { spec.IsSmall (design_of blocks.now top) }
    ensures { IfOk result (λ laid. spec.IsMadeOf blocks.now top laid) }
{
    match name_nets(alloc, blocks, nodes.slice(), top, &numbering) {
        Ok(named) => Ok(NamedDesign {
            nodes,
            numbering,
            named,
        }),
        Err(want) => {
            drop(nodes);
            drop(numbering);
            Err(want)
        }
    }
}

/// Lays a design out.
fn lay(alloc: Global, blocks: &[FlatModule], top: u32) -> Result<NamedDesign, NoMemory>
    requires top { top < length blocks.now }
    requires there { AreThere blocks.now }
    requires design { IsDesign (design_of blocks.now top) }
    requires small { spec.IsSmall (design_of blocks.now top) }
    ensures { IfOk result (λ laid. spec.IsMadeOf blocks.now top laid) }
{
    let nodes = path_nodes(alloc, blocks, top)?;
    match number_nets(alloc, blocks, nodes.slice(), top) {
        Ok(numbering) => lay_names(alloc, blocks, top, nodes, numbering),
        Err(want) => {
            drop(nodes);
            Err(want)
        }
    }
}

/// The flat parts of a small design whose keys are the names of its flat nets; or it has too many
/// inputs of gates, constants and ports.
fn whole(
    alloc: Global,
    blocks: &[FlatModule],
    nodes: &[Node],
    top: u32,
    numbering: &Numbering,
    names: Names,
) -> Result<Raw, FlatFault>
    requires laid { IsLaid blocks.now nodes.now top numbering.now }
    requires takes { All (λ b. All (λ g. IsTrue (takes g.kind (length g.ins))) b.gates) blocks.now }
    requires named { IsNamed (keys_of (design_of blocks.now top)) (NamingEnd.Apart names) }
    requires small { spec.IsSmall (design_of blocks.now top) }
    ensures { Answers want parts_of result (elaborated (design_of blocks.now top)) }
{
    if has_many_terminals(blocks, nodes, top) {
        drop(names);
        return Err(FlatFault::FlatTerminals);
    }
    match flat(alloc, blocks, nodes, top, numbering, names) {
        Ok(raw) => Ok(raw),
        Err(_) => Err(FlatFault::NoMemory),
    }
}

/// The flat netlist of a small design, by its names.
fn named_parts(
    alloc: Global,
    blocks: &[FlatModule],
    nodes: &[Node],
    top: u32,
    numbering: &Numbering,
    named: NamingEnd,
) -> Result<Raw, FlatFault>
    requires laid { IsLaid blocks.now nodes.now top numbering.now }
    requires takes { All (λ b. All (λ g. IsTrue (takes g.kind (length g.ins))) b.gates) blocks.now }
    requires named { IsNamed (keys_of (design_of blocks.now top)) named }
    requires small { spec.IsSmall (design_of blocks.now top) }
    ensures { Answers want parts_of result (elaborated (design_of blocks.now top)) }
{
    match named {
        NamingEnd::Apart(names) => whole(alloc, blocks, nodes, top, numbering, names),
        NamingEnd::Long => Err(FlatFault::FlatKeys),
        NamingEnd::Clash(key) => Err(FlatFault::NameClash(key)),
    }
}

/// The same, by what is laid out.
fn parts(
    alloc: Global,
    blocks: &[FlatModule],
    top: u32,
    laid: NamedDesign,
) -> Result<Raw, FlatFault>
    requires laid { spec.IsMadeOf blocks.now top laid }
    requires takes { All (λ b. All (λ g. IsTrue (takes g.kind (length g.ins))) b.gates) blocks.now }
    requires small { spec.IsSmall (design_of blocks.now top) }
    ensures { Answers want parts_of result (elaborated (design_of blocks.now top)) }
{
    let NamedDesign {
        nodes,
        numbering,
        named,
    } = laid;
    let raw = named_parts(alloc, blocks, nodes.slice(), top, &numbering, named)?;
    Ok(raw)
}

/// The flat parts of a design of blocks, whose top has this number, with an order of its blocks in which each stands after those
/// that it instances: or the first limit that it passes, or the first key that stands again later.
pub fn elaborate(
    alloc: Global,
    blocks: &[FlatModule],
    order: &[u32],
    top: u32,
) -> Result<Raw, FlatFault>
    requires order { IsChildrenFirst (map module_of blocks.now) order.now }
    requires top { top < length blocks.now }
    requires there { AreThere blocks.now }
    requires takes { All (λ b. All (λ g. IsTrue (takes g.kind (length g.ins))) b.gates) blocks.now }
    requires design { IsDesign (design_of blocks.now top) }
    ensures { Answers want parts_of result (elaborated (design_of blocks.now top)) }
{
    check_sizes(alloc, blocks, order, top)?;
    match lay(alloc, blocks, top) {
        Ok(laid) => parts(alloc, blocks, top, laid),
        Err(_) => Err(FlatFault::NoMemory),
    }
}
