//! The text of the path on which the next flat net stands, which is kept from one net to the next.
ghost use Rattle.std.specs.Prelude.{◌≡◌, ◌<◌, [], length, string_bytes, IfOk, OnOk};
ghost use Rattle.bs_flat_nets.specs.Blocks.{design_of};
ghost use Rattle.bs_flat_nets.specs.Climbing.{AreClimbable};
ghost use Rattle.bs_flat_elaborate.specs.Keys as keys;
ghost use Rattle.bs_flat_elaborate.specs.Laid.{IsLaid};
ghost use Rattle.bs_flat_elaborate.specs.Naming.{IsLabel};

use crate::path_keys::{key_on, path_text};
use bs_bits::NoMemory;
use bs_flat_meaning::Node;
use bs_flat_nets::{FlatModule, NetOnPath, Numbering};
use std::alloc::Global;

/// A node, and the text of its path.
#[derive(Drop)]
pub struct Label {
    pub node: u32,
    pub text: String,
}

/// The top's label.
pub fn first_label(alloc: Global, blocks: &[FlatModule], nodes: &[Node]) -> Label
    ensures { IsLabel blocks.now nodes.now result }
{
    Label {
        node: 0,
        text: String::new(alloc),
    }
}

/// Makes a label that of a node.
fn renew(
    alloc: Global,
    blocks: &[FlatModule],
    nodes: &[Node],
    label: &mut Label,
    node: u32,
) -> Result<(), NoMemory>
    requires nodes { AreClimbable blocks.now nodes.now }
    requires there { node < length nodes.now }
    requires label { IsLabel blocks.now nodes.now label.old }
    ensures node { OnOk result (label.new.node ≡ node) }
    ensures text { OnOk result (keys.IsPathText blocks.now nodes.now node (string_bytes label.new.text)) }
{
    if label.node == node {
        return Ok(());
    }
    let text = path_text(alloc, blocks, nodes, node)?;
    label.node = node;
    label.text = text;
    Ok(())
}

/// The key of a flat net. A net that is not there is answered as out of memory, and no numbering has one.
pub fn next_key(
    alloc: Global,
    blocks: &[FlatModule],
    nodes: &[Node],
    top: u32,
    numbering: &Numbering,
    label: &mut Label,
    place: NetOnPath,
) -> Result<String, NoMemory>
    requires laid { IsLaid blocks.now nodes.now top numbering.now }
    requires there { place.node < length nodes.now }
    requires label { IsLabel blocks.now nodes.now label.old }
    ensures is { IfOk result (λ key. string_bytes key ≡ keys.key_of_place (design_of blocks.now top) place) }
    ensures label { OnOk result (IsLabel blocks.now nodes.now label.new) }
{
    renew(alloc, blocks, nodes, label, place.node)?;
    let of = nodes[place.node as usize].of;
    let block = &blocks[of as usize];
    if place.net >= block.names.len() {
        return Err(NoMemory);
    }
    let known = numbering.bits.get(of as usize).slice();
    let key = key_on(
        alloc,
        label.text.as_str(),
        block,
        known,
        place.node == 0,
        place.net,
    )?;
    Ok(key)
}
