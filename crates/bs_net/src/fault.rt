//! What the check of a netlist refuses.
ghost use Rattle.std.specs.Prelude.{◌≡◌};

use crate::net::NetId;
use crate::raw::Raw;
use bs_bits::{List, NoMemory};

/// What there is too much of.
#[derive(Clone, Copy)]
pub enum Count {
    /// Flip-flops: at most `MAX_FLOPS`.
    Flops,
    /// Input port bits, the clock counted: at most `MAX_INPUTS`.
    Inputs,
    /// Inputs of one gate: at most `MAX_TERMINALS`.
    Terminals,
}

/// Why a netlist is refused (docs/DEFINITIONS.md, "Refusals of the check").
#[derive(Drop)]
pub enum NetFault {
    /// There are too many of something, and this many.
    TooMany(Count, u32),
    /// The lowest net with two or more drivers.
    SecondDriver(NetId),
    /// The lowest net that is read and has no driver.
    Undriven(NetId),
    /// Distinct gates, each one's output read by the next and the last one's by the first, from the lowest number on.
    Loop(List<u32>),
    /// There is no flip-flop.
    NoFlop,
    /// The net that is no single clock: it is no input port bit, or differs from the first clock, or is read as data.
    ClockMixed(NetId),
    /// Out of memory.
    NoMemory,
}

impl From<NoMemory> for NetFault {
    ghost use Rattle.bs_net.specs.declared.fault.NetFault.TheVariants.{NoMemory as Want};

    ghost from_gives = { λ _ fault. fault ≡ Want };

    fn from(_want: NoMemory) -> NetFault {
        NetFault::NoMemory
    }
}

/// A refused netlist: its parts, handed back as they were, and the fault.
#[derive(Drop)]
pub struct Refused {
    pub raw: Raw,
    pub fault: NetFault,
}
