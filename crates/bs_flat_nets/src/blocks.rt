//! A design in code: modules whose joined nets are runs of bits.

use bs_bits::List;
use bs_net::{Const, Flop, Gate, NetId};

/// Joined nets side by side: for each number below `width`, the net of the instance so far behind `inner` is joined with the
/// net of the module around it so far behind `outer`.
#[derive(Clone, Copy)]
pub struct JoinedNets {
    pub inner: u32,
    pub outer: u32,
    pub width: u32,
}

/// An instance: its name, the number of its module, and its joined nets.
#[derive(Drop)]
pub struct Child {
    pub name: String,
    pub of: u32,
    pub joins: List<JoinedNets>,
}

/// A module: its own parts, each net by the place of its key among `names`, and its instances in file order.
#[derive(Drop)]
pub struct FlatModule {
    pub names: List<String>,
    pub inputs: List<NetId>,
    pub outputs: List<NetId>,
    pub consts: List<Const>,
    pub gates: List<Gate>,
    pub flops: List<Flop>,
    pub children: List<Child>,
}
