//! The names of the flat nets.
ghost use Rattle.std.specs.Prelude.{◌≡◌, ◌<◌, ◌≤◌, ◌+◌, ◌||◌, [], nat_lt, length, string_bytes, Some, IfOk, OnOk};
ghost use Rattle.std.specs.List.{list_any};
ghost use Rattle.std.specs.Str.{bytes_eq};
ghost use Rattle.bs_flat_meaning.specs.declared.limits.TheConstants.{MAX_KEY_BYTES as most};
ghost use Rattle.bs_flat_nets.specs.Blocks.{design_of};
ghost use Rattle.bs_flat_elaborate.specs.Laid.{IsLaid};
ghost use Rattle.bs_flat_elaborate.specs.Naming as spec;

use crate::clashes::first_clash;
use crate::labels::{first_label, next_key};
use bs_bits::{List, NoMemory};
use bs_flat_meaning::{MAX_KEY_BYTES, Node};
use bs_flat_nets::{FlatModule, Numbering};
use bs_net::{MAX_NETS, Names};
use std::alloc::Global;

/// What the keys so far have made: the names, the sum of their lengths, and whether one was met again.
#[derive(Drop)]
pub struct KeyList {
    pub names: Names,
    pub bytes: usize,
    pub again: bool,
}

/// The names of the flat nets, or why there are none.
#[derive(Drop)]
pub enum NamingEnd {
    /// Each key stands once.
    Apart(Names),
    /// The keys have more than `MAX_KEY_BYTES` bytes.
    Long,
    /// The first key that stands again later.
    Clash(List<u8>),
}

/// Whether a name is there.
pub fn has_key(names: &Names, key: &str) -> bool
    ensures { result ≡ list_any (bytes_eq key.now) names.now }
{
    names.number(key).is_some()
}

/// Whether a key more has too many bytes.
fn is_long(bytes: usize, key: &str) -> bool
    requires { bytes ≤ most }
    ensures { result ≡ nat_lt most (bytes + length key.now) }
{
    key.len() > MAX_KEY_BYTES - bytes
}

/// Adds a key.
fn add(alloc: Global, made: &mut KeyList, key: &str) -> Result<(), NoMemory>
    requires room { length made.old.names < MAX_NETS }
    requires short { made.old.bytes + length key.now ≤ most }
    ensures { OnOk result (made.new ≡ spec.added made.old key.now) }
{
    let again = has_key(&made.names, key);
    made.names.add(alloc, key)?;
    made.again = made.again || again;
    made.bytes += key.len();
    Ok(())
}

/// Nothing made yet.
fn nothing(alloc: Global) -> KeyList
    ensures { spec.IsMade [] result }
{
    KeyList {
        names: Names::new(alloc),
        bytes: 0,
        again: false,
    }
}

/// The names of the flat nets of a design, each made of its net's key.
pub fn name_nets(
    alloc: Global,
    blocks: &[FlatModule],
    nodes: &[Node],
    top: u32,
    numbering: &Numbering,
) -> Result<NamingEnd, NoMemory>
    requires laid { IsLaid blocks.now nodes.now top numbering.now }
    requires few { length numbering.now.places ≤ MAX_NETS }
    ensures { IfOk result (λ named. spec.IsNamed (spec.keys_of (design_of blocks.now top)) named) }
{
    let places = numbering.places.slice();
    let mut label = first_label(alloc, blocks, nodes);
    let mut made = nothing(alloc);
    'nets: for place in places {
        let key = next_key(alloc, blocks, nodes, top, numbering, &mut label, *place)?;
        if is_long(made.bytes, &key) {
            return Ok(NamingEnd::Long);
        }
        add(alloc, &mut made, &key)?;
    }
    if made.again {
        let key = first_clash(alloc, blocks, nodes, top, numbering)?;
        return Ok(NamingEnd::Clash(key));
    }
    Ok(NamingEnd::Apart(made.names))
}
