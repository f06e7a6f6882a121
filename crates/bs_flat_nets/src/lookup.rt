//! The number of the flat net that stands for a net on a path.
ghost use Rattle.std.specs.Prelude.{◌≡◌, ◌⊎◌, ◌<◌, ◌≤◌, ◌^◌, ◌==◌, ◌&&◌, length, IfNone, IfSome, slice_index_or};
ghost use Rattle.bs_flat_meaning.specs.Design.{on, paths};
ghost use Rattle.bs_flat_meaning.specs.Flat.{IsDesign, flat_number};
ghost use Rattle.bs_flat_meaning.specs.Paths.{ArePaths};
ghost use Rattle.bs_flat_nets.specs.Blocks.{design_of};
ghost use Rattle.bs_flat_nets.specs.Climbing.{AreClimbable, path_in, node_at};
ghost use Rattle.bs_flat_nets.specs.Sums.{all_bits_of};
ghost use Rattle.bs_flat_nets.specs.Free.{count_in, known_in};
ghost use Rattle.bs_flat_nets.specs.Numbering.{AreByNode, IsFirstFrom, IsNoNumberIn, IsNowhere, IsNumberIn, IsNumbering, no_place};
ghost use Rattle.bs_flat_nets.specs.Numbering as spec;
ghost use Rattle.bs_flat_nets.specs.Tally as tally;

use crate::blocks::FlatModule;
use crate::climbing::{NetOnPath, root_of};
use crate::numbers::{Numbering, bits_of, count_of};
use crate::tally::bit_in;
use bs_flat_meaning::Node;
use bs_net::NetId;

/// Whether two places are the same.
fn is_same(a: NetOnPath, b: NetOnPath) -> bool
    ensures { result ≡ (a.node == b.node && a.net == b.net) }
{
    a.node == b.node && a.net == b.net
}

/// Whether a place stands before another: by its node, and then by its net.
fn is_before(a: NetOnPath, b: NetOnPath) -> bool
    ensures { result ≡ spec.is_before a b }
{
    a.node < b.node || a.node == b.node && a.net < b.net
}

/// Where the first place stands that is not before one, of those from one place to another, if they rise.
fn first_from(places: &[NetOnPath], from: usize, stop: usize, place: NetOnPath) -> usize
    requires { stop ≤ length places.now }
    ensures { IsFirstFrom places.now from stop place result }
{
    let mut low = from.min(stop);
    let mut high = stop;
    'search: while low < high {
        let middle = low + (high - low) / 2;
        if is_before(places[middle], place) {
            low = middle + 1;
        } else {
            high = middle;
        }
    }
    low
}

/// Where a place stands among those of its node, if it does.
fn number_of_place(places: &[NetOnPath], starts: &[usize], place: NetOnPath) -> Option<usize>
    requires by_node { AreByNode places.now starts.now }
    ensures within { IfSome result (λ i. i < length places.now) }
    ensures is { IfSome result (λ i. slice_index_or places.now i no_place ≡ place) }
    ensures none { IfNone result (IsNowhere places.now place) }
{
    let node = place.node as usize;
    if node + 1 >= starts.len() {
        return None;
    }
    let stop = starts[node + 1].min(places.len());
    let at = first_from(places, starts[node], stop, place);
    if at >= places.len() {
        return None;
    }
    if is_same(places[at], place) {
        Some(at)
    } else {
        None
    }
}

/// The number of the flat net that an uppermost net is, or whose constant it is.
fn number_of(numbering: &Numbering, place: NetOnPath, bit: Option<bool>) -> Option<usize>
    requires by_node { AreByNode numbering.now.places numbering.now.starts }
    ensures is { IfSome result (λ i. IsNumberIn numbering.now bit place i) }
    ensures none { IfNone result (IsNoNumberIn numbering.now bit place) }
{
    match bit {
        None => number_of_place(numbering.places.slice(), numbering.starts.slice(), place),
        Some(true) => numbering.one,
        Some(false) => numbering.zero,
    }
}

/// The number of the flat net that stands for an uppermost net.
fn home_number(
    blocks: &[FlatModule],
    nodes: &[Node],
    numbering: &Numbering,
    place: NetOnPath,
) -> Option<usize>
    requires climb { AreClimbable blocks.now nodes.now }
    requires known { numbering.now.bits ≡ all_bits_of blocks.now }
    requires by_node { AreByNode numbering.now.places numbering.now.starts }
    requires there { place.node < length nodes.now }
    ensures net { IfSome result (λ _. place.net < count_in blocks.now (node_at nodes.now place.node).of) }
    ensures is { IfSome result (λ i. IsNumberIn numbering.now (tally.bit_in (known_in blocks.now (node_at nodes.now place.node).of) place.net) place i) }
    ensures none { IfNone result ((count_in blocks.now (node_at nodes.now place.node).of ≤ place.net)
        ⊎ IsNoNumberIn numbering.now (tally.bit_in (known_in blocks.now (node_at nodes.now place.node).of) place.net) place) }
{
    let of = nodes[place.node as usize].of;
    if place.net >= count_of(blocks, of) {
        return None;
    }
    let known = bits_of(numbering.bits.slice(), blocks, of);
    let bit = bit_in(known, place.net);
    number_of(numbering, place, bit)
}

/// The flat net that stands for a net on a node's path. There is one for each net of the block there, where the flat nets have
/// numbers. It takes time by the path's length, and by the logarithms of the runs on it and of the flat nets.
pub fn flat_net(
    blocks: &[FlatModule],
    nodes: &[Node],
    top: u32,
    numbering: &Numbering,
    node: u32,
    net: usize,
) -> Option<NetId>
    requires paths { ArePaths (design_of blocks.now top) nodes.now (paths (design_of blocks.now top)) }
    requires climb { AreClimbable blocks.now nodes.now }
    requires design { IsDesign (design_of blocks.now top) }
    requires numbering { IsNumbering blocks.now nodes.now top numbering.now }
    requires there { node < length nodes.now }
    ensures is { IfSome result (λ n. n.0 ≡ flat_number (design_of blocks.now top) (on (path_in (design_of blocks.now top) node) net)) }
    ensures within { IfSome result (λ n. n.0 < length numbering.now.places) }
    ensures none { IfNone result ((count_in blocks.now (node_at nodes.now node).of ≤ net) ⊎ (2 ^ 32 < length numbering.now.places)) }
{
    let root = root_of(blocks, nodes, numbering.rows.slice(), node, net);
    let number = home_number(blocks, nodes, numbering, root)?;
    if number > u32::MAX as usize {
        return None;
    }
    Some(NetId(number as u32))
}
