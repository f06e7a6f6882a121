//! What the files of a request made ready.
ghost use Rattle.std.specs.Prelude.{◌≡◌, ◌<◌, length, All};

use crate::run::SimulatedRun;
use bs_net::Netlist;
use bs_scan::Choice;
use bs_vcd::MarkedStates;

/// Whether the clock is a data input as well, and the runs by it.
#[derive(Drop)]
pub struct Sampled {
    pub data_clock: bool,
    pub runs: Vec<SimulatedRun>,
}

/// A netlist, and simulated runs.
#[derive(Drop)]
pub struct Simulated {
    pub net: Netlist,
    pub sampled: Sampled,
}

/// A state of which no signature is asked for, behind others, with marks on the bits that are not known.
#[derive(Drop)]
pub struct Unsigned {
    pub taken: MarkedStates,
    ghost some: { 0 < length taken.states },
}

/// A state, behind as many as the signature tells of or as there are, with marks on the bits that are not known.
#[derive(Drop)]
pub struct Signed {
    pub choice: Choice,
    pub taken: MarkedStates,
    ghost some: { 0 < length taken.states },
    ghost wide: { All (λ s. length s ≡ choice.width) taken.states },
}

/// A dump out of a simulation, without a signature or with one.
#[derive(Drop)]
pub enum Dumped {
    Plain(Unsigned),
    Whole(Signed),
}
