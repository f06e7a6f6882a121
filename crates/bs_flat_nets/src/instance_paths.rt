//! The paths of a design of blocks.
ghost use Rattle.std.specs.Prelude.{◌≡◌, ◌<◌, length, map, All, IfOk};
ghost use Rattle.bs_flat_meaning.specs.Design.{paths};
ghost use Rattle.bs_flat_meaning.specs.Paths.{ArePaths};
ghost use Rattle.bs_flat_nets.specs.Climbing.{AreClimbable};
ghost use Rattle.bs_flat_nets.specs.Blocks.{design_of, AreThere, numbers_of, shape_of};

use crate::blocks::{Child, FlatModule};
use bs_bits::{List, NoMemory};
use bs_flat_meaning::{Instanced, Node, all_paths};
use std::alloc::Global;

/// The modules of some instances.
fn numbers(alloc: Global, children: &[Child]) -> Result<List<u32>, NoMemory>
    ensures { IfOk result (λ l. l ≡ numbers_of children.now) }
{
    let mut all = List::new(alloc);
    'each: for child in children {
        all.push(child.of)?;
    }
    Ok(all)
}

/// The instances of all modules, by the numbers of their modules.
fn shapes(alloc: Global, blocks: &[FlatModule]) -> Result<List<Instanced>, NoMemory>
    ensures { IfOk result (λ l. l ≡ map shape_of blocks.now) }
{
    let mut all = List::new(alloc);
    'each: for block in blocks {
        let instances = numbers(alloc, block.children.slice())?;
        all.push(Instanced { instances })?;
    }
    Ok(all)
}

/// The paths of the design as nodes, in the order of the design. More than `MAX_PATHS` are answered as out of memory.
pub fn path_nodes(alloc: Global, blocks: &[FlatModule], top: u32) -> Result<List<Node>, NoMemory>
    requires top { top < length blocks.now }
    requires there { AreThere blocks.now }
    ensures all { IfOk result (λ nodes. ArePaths (design_of blocks.now top) nodes (paths (design_of blocks.now top))) }
    ensures within { IfOk result (λ nodes. All (λ p. p.of < length blocks.now) nodes) }
    ensures climb { IfOk result (λ nodes. AreClimbable blocks.now nodes) }
{
    let shapes = shapes(alloc, blocks)?;
    let nodes = all_paths(alloc, shapes.slice(), top)?;
    Ok(nodes)
}
