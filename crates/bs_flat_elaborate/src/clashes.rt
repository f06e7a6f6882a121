//! The first key that stands again later.
ghost use Rattle.std.specs.Prelude.{◌≡◌, ◌<◌, ◌+◌, ◌≤◌, [], if◌then◌else◌, length, slice_index_or, string_bytes, Some, IfOk, OnOk};
ghost use Rattle.std.specs.List.{list_any};
ghost use Rattle.std.specs.Str.{bytes_eq};
ghost use Rattle.bs_net.specs.Names.{with_key};
ghost use Rattle.bs_flat_meaning.specs.Reading.{clash_in};
ghost use Rattle.bs_flat_nets.specs.Blocks.{design_of};
ghost use Rattle.bs_flat_elaborate.specs.Laid.{IsLaid};
ghost use Rattle.bs_flat_elaborate.specs.Keys as keys;
ghost use Rattle.bs_flat_elaborate.specs.Naming as spec;

use crate::labels::{first_label, next_key};
use crate::naming::has_key;
use bs_bits::{List, NoMemory};
use bs_flat_meaning::Node;
use bs_flat_nets::{FlatModule, Numbering};
use bs_net::{MAX_NETS, Names};
use std::alloc::Global;

/// The bytes of a text.
fn bytes(alloc: Global, text: &str) -> Result<List<u8>, NoMemory>
    ensures { IfOk result (λ bytes. bytes ≡ text.now) }
{
    let mut all = Vec::new(alloc);
    all.extend_from_slice(text.as_bytes())?;
    Ok(List::of(all))
}

/// The place where the key stands that is the first to stand again later, if the key at a place is among the later ones.
fn noted(first: Option<usize>, at: usize, again: bool) -> Option<usize>
    ensures { result ≡ (if again then Some at else first) }
{
    if again { Some(at) } else { first }
}

/// The key of the flat net with this number.
fn key_of(
    alloc: Global,
    blocks: &[FlatModule],
    nodes: &[Node],
    top: u32,
    numbering: &Numbering,
    at: usize,
) -> Result<List<u8>, NoMemory>
    requires laid { IsLaid blocks.now nodes.now top numbering.now }
    requires there { at < length numbering.now.places }
    ensures { IfOk result (λ key. key ≡ slice_index_or (spec.keys_of (design_of blocks.now top)) at []) }
{
    let mut label = first_label(alloc, blocks, nodes);
    let place = *numbering.places.get(at);
    let key = next_key(alloc, blocks, nodes, top, numbering, &mut label, place)?;
    let key = bytes(alloc, &key)?;
    Ok(key)
}

/// The first key of a flat net that stands again later: the keys are read from the last one on. None is answered as out of memory, and is
/// not met where a key was met again.
pub fn first_clash(
    alloc: Global,
    blocks: &[FlatModule],
    nodes: &[Node],
    top: u32,
    numbering: &Numbering,
) -> Result<List<u8>, NoMemory>
    requires laid { IsLaid blocks.now nodes.now top numbering.now }
    requires few { length numbering.now.places ≤ MAX_NETS }
    ensures { IfOk result (λ key. clash_in (spec.keys_of (design_of blocks.now top)) ≡ Some key) }
{
    let mut label = first_label(alloc, blocks, nodes);
    let mut later = Names::new(alloc);
    let mut first = None;
    let mut at = numbering.places.len();
    'nets: while at > 0 {
        at -= 1;
        let place = *numbering.places.get(at);
        let key = next_key(alloc, blocks, nodes, top, numbering, &mut label, place)?;
        first = noted(first, at, has_key(&later, &key));
        later.add(alloc, &key)?;
    }
    match first {
        None => Err(NoMemory),
        Some(at) => key_of(alloc, blocks, nodes, top, numbering, at),
    }
}
