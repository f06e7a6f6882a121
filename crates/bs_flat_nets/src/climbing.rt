//! Climbing from a net on a path to the uppermost net to which joins lead, by runs in the order of their nets.
ghost use Rattle.std.specs.Prelude.{◌<◌, length};
ghost use Rattle.bs_flat_nets.specs.Climbing as spec;
ghost use Rattle.bs_flat_nets.specs.Rows as rows_spec;

use crate::blocks::{FlatModule, JoinedNets};
use crate::joined::{covers, outer_net};
use crate::rows::row_of_node;
use bs_bits::List;
use bs_flat_meaning::Node;

/// A net on a path, by the number of the path's node.
#[derive(Clone, Copy)]
pub struct NetOnPath {
    pub node: u32,
    pub net: usize,
}

/// How many runs begin no later than a net, of runs in the order of their nets.
fn count_to(row: &[JoinedNets], net: usize) -> usize
    ensures { spec.CountsTo row.now net result }
{
    let mut low = 0;
    let mut high = row.len();
    'search: while low < high {
        let middle = low + (high - low) / 2;
        if row[middle].inner as usize <= net {
            low = middle + 1;
        } else {
            high = middle;
        }
    }
    low
}

/// The net of the parent with which a net is joined, by runs in order, if one joins it. Only the last run that begins no
/// later can.
fn outer_by_row(row: &[JoinedNets], net: usize) -> Option<usize>
    ensures { spec.IsOuter row.now net result }
{
    let count = count_to(row, net);
    if count == 0 {
        return None;
    }
    let run = row[count - 1];
    if covers(run, net) {
        Some(outer_net(run, net))
    } else {
        None
    }
}

/// The uppermost net to which joins lead from a net on a node's path. It takes time by the path's length, and by the
/// logarithm of the runs on it.
pub fn root_of(
    blocks: &[FlatModule],
    nodes: &[Node],
    rows: &[List<List<JoinedNets>>],
    at: u32,
    net: usize,
) -> NetOnPath
    requires nodes { spec.AreClimbable blocks.now nodes.now }
    requires rows { rows_spec.AreRows blocks.now rows.now }
    requires there { at < length nodes.now }
    ensures is { spec.IsRootOf blocks.now nodes.now at net result }
    ensures there { result.node < length nodes.now }
{
    let mut node = at;
    let mut outer = net;
    'climb: while node > 0 {
        match outer_by_row(row_of_node(rows, blocks, nodes, node), outer) {
            None => return NetOnPath { node, net: outer },
            Some(next) => {
                outer = next;
                node = nodes[node as usize].parent;
            }
        }
    }
    NetOnPath { node, net: outer }
}
