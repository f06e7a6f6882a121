//! The keys of flat nets.
ghost use Rattle.std.specs.Prelude.{◌≡◌, ◌<◌, ◌++◌, not, ◌==◌, length, string_bytes, codes, IfOk, OnOk};
ghost use Rattle.std.specs.List.{prefix_len};
ghost use Rattle.bs_flat_meaning.specs.Flat as flat;
ghost use Rattle.bs_flat_nets.specs.Blocks.{own_of};
ghost use Rattle.bs_flat_nets.specs.Climbing.{AreClimbable};
ghost use Rattle.bs_flat_elaborate.specs.Keys as spec;

use bs_bits::NoMemory;
use bs_flat_meaning::Node;
use bs_flat_nets::{Bit, FlatModule};
use std::alloc::Global;

/// A key without a `\` with a path's text before its name.
fn plain_below(alloc: Global, path: &str, key: &str) -> Result<String, NoMemory>
    requires { prefix_len (λ c. not (c == 92)) key.now ≡ length key.now }
    ensures { IfOk result (λ text. string_bytes text ≡ flat.key_below path.now key.now) }
{
    match key.split_once('[') {
        Some((name, index)) => Ok(format!(in alloc; "[{index}\\{path}{name}")?),
        None => Ok(format!(in alloc; "\\{path}{key}")?),
    }
}

/// A key with a path's text before its name: the index of a vector's bit moves to the front.
fn key_below(alloc: Global, path: &str, key: &str) -> Result<String, NoMemory>
    ensures { IfOk result (λ text. string_bytes text ≡ flat.key_below path.now key.now) }
{
    match key.split_once('\\') {
        Some((index, name)) => Ok(format!(in alloc; "{index}\\{path}{name}")?),
        None => plain_below(alloc, path, key),
    }
}

/// The name of the instance at the end of a node's path.
fn name_of<'a>(blocks: &'a [FlatModule], nodes: &[Node], at: u32) -> &'a str
    requires nodes { AreClimbable blocks.now nodes.now }
    requires there { at < length nodes.now }
    requires below { 0 < at }
    ensures { result.now ≡ spec.name_of_node blocks.now nodes.now at }
{
    let node = nodes[at as usize];
    let parent = nodes[node.parent as usize];
    blocks[parent.of as usize]
        .children
        .get(node.instance as usize)
        .name
        .as_str()
}

/// A path's text with one name more.
fn longer(text: String, name: &str) -> Result<String, NoMemory>
    ensures { IfOk result (λ t. string_bytes t ≡ string_bytes text ++ (name.now ++ codes ".")) }
{
    let mut text = text;
    text.push_str(name)?;
    text.push_str(".")?;
    Ok(text)
}

/// The names of the instances on a node's path from the top on, each with a `.` behind it.
pub fn path_text(
    alloc: Global,
    blocks: &[FlatModule],
    nodes: &[Node],
    at: u32,
) -> Result<String, NoMemory>
    requires nodes { AreClimbable blocks.now nodes.now }
    requires there { at < length nodes.now }
    ensures { IfOk result (λ text. spec.IsPathText blocks.now nodes.now at (string_bytes text)) }
{
    if at == 0 {
        return Ok(String::new(alloc));
    }
    let text = path_text(alloc, blocks, nodes, nodes[at as usize].parent)?;
    let text = longer(text, name_of(blocks, nodes, at))?;
    Ok(text)
}

/// Whether a net is among some constants.
fn has_net(known: &[Bit], net: usize) -> bool
    ensures { result ≡ spec.has_net known.now net }
{
    known.iter().any(|bit| bit.net == net)
}

/// A text once more.
fn copy(alloc: Global, key: &str) -> Result<String, NoMemory>
    ensures { IfOk result (λ text. string_bytes text ≡ key.now) }
{
    Ok(String::from_str(alloc, key)?)
}

/// The key of a net of a block on a path with this text: the top's nets and constants keep theirs.
pub fn key_on(
    alloc: Global,
    text: &str,
    block: &FlatModule,
    known: &[Bit],
    at_top: bool,
    net: usize,
) -> Result<String, NoMemory>
    requires { net < length block.now.names }
    ensures { IfOk result (λ key. string_bytes key ≡ spec.key_on text.now (own_of block.now) known.now at_top net) }
{
    let key = block.names.get(net).as_str();
    if at_top || has_net(known, net) {
        copy(alloc, key)
    } else {
        key_below(alloc, text, key)
    }
}
