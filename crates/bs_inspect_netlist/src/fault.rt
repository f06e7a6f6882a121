//! Why a text is no order of a scan chain, and why one is no pattern.

use bs_bits::NoMemory;
use std::error::Error;
use std::fmt::Display;
use thiserror::Error;

/// Why a text is no order of a scan chain (docs/FORMATS.md, "Orders of a scan chain"). A line counts from 1.
#[derive(Clone, Copy, Debug, PartialEq, Eq, Error)]
pub enum OrderFault {
    #[error("line {0} is no name")]
    Line(u64),
    #[error("the name of line {0} is that of no flip-flop")]
    Unknown(u64),
    #[error("the flip-flop of line {0} has a line already")]
    Twice(u64),
    #[error("out of memory")]
    NoMemory,
}

impl From<NoMemory> for OrderFault {
    ghost use Rattle.std.specs.Prelude.{◌≡◌};
    ghost use Rattle.bs_inspect_netlist.specs.declared.fault.OrderFault.TheVariants.{NoMemory as Want};

    ghost from_gives = { λ _ fault. fault ≡ Want };

    fn from(_refused: NoMemory) -> OrderFault {
        OrderFault::NoMemory
    }
}

/// Why a text is no pattern of a scan chain.
#[derive(Clone, Copy, Debug, PartialEq, Eq, Error)]
pub enum PatternFault {
    #[error("a character is neither 0 nor 1")]
    Bits,
    #[error("there are {0} bits")]
    Width(u64),
    #[error("out of memory")]
    NoMemory,
}

impl From<NoMemory> for PatternFault {
    ghost use Rattle.std.specs.Prelude.{◌≡◌};
    ghost use Rattle.bs_inspect_netlist.specs.declared.fault.PatternFault.TheVariants.{NoMemory as Want};

    ghost from_gives = { λ _ fault. fault ≡ Want };

    fn from(_refused: NoMemory) -> PatternFault {
        PatternFault::NoMemory
    }
}
