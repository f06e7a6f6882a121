//! The paths of a design as a list of nodes, each with the number of its parent.
ghost use Rattle.std.specs.Prelude.{◌<◌, ◌≤◌, length, OnOk, IfOk};
ghost use Rattle.bs_flat_meaning.specs.Paths.{Adds, AreModules, ArePathsOf, AreWithin};

use crate::limits::{MAX_DEPTH, MAX_PATHS};
use bs_bits::{List, NoMemory};
use std::alloc::Global;

/// The instances of a module in file order, by the numbers of their modules.
#[derive(Drop)]
pub struct Instanced {
    pub instances: List<u32>,
}

/// A path: the number of its parent, the place of its last instance in the module there, and the number of that instance's
/// module. The top's path is node 0, whose parent and place say nothing.
#[derive(Clone, Copy)]
pub struct Node {
    pub parent: u32,
    pub instance: u32,
    pub of: u32,
}

/// Adds the paths below the node with a number, of at most so many levels more: each instance in file order, and after it all
/// below it. More paths than `MAX_PATHS` are answered as out of memory.
pub fn add_below(
    modules: &[Instanced],
    nodes: &mut List<Node>,
    at: u32,
    levels: u32,
) -> Result<(), NoMemory>
    requires there { at < length nodes.old }
    requires instanced { AreModules modules.now }
    requires within { AreWithin modules.now nodes.old }
    ensures ok { OnOk result (Adds modules.now nodes.old nodes.new at levels) }
    ensures within { OnOk result (AreWithin modules.now nodes.new) }
    ensures longer { OnOk result (length nodes.old ≤ length nodes.new) }
{
    if levels == 0 {
        return Ok(());
    }
    let instances = modules[nodes.get(at as usize).of as usize]
        .instances
        .slice();
    'instances: for (i, module) in instances.iter().enumerate() {
        if nodes.len() > MAX_PATHS || i > MAX_PATHS {
            return Err(NoMemory);
        }
        let here = nodes.len() as u32;
        nodes.push(Node {
            parent: at,
            instance: i as u32,
            of: *module,
        })?;
        add_below(modules, nodes, here, levels - 1)?;
    }
    Ok(())
}

/// The paths of a design whose top has this number: the top's, and all below it of at most `MAX_DEPTH` instance names, each
/// parent before its children, which stand in file order, each whole.
pub fn all_paths(alloc: Global, modules: &[Instanced], top: u32) -> Result<List<Node>, NoMemory>
    requires there { top < length modules.now }
    requires instanced { AreModules modules.now }
    ensures all { IfOk result (λ nodes. ArePathsOf modules.now top nodes) }
    ensures within { IfOk result (λ nodes. AreWithin modules.now nodes) }
{
    let mut nodes = List::new(alloc);
    nodes.push(Node {
        parent: 0,
        instance: 0,
        of: top,
    })?;
    add_below(modules, &mut nodes, 0, MAX_DEPTH)?;
    Ok(nodes)
}
