//! Why a VCD gives no lines.

use bs_bits::NoMemory;
use std::error::Error;
use std::fmt::Display;
use thiserror::Error;

/// Why a VCD gives no lines (docs/FORMATS.md, "Value changes (VCD)"). A line counts from 1, an input and a cycle from 0.
#[derive(Clone, Copy, Debug, PartialEq, Eq, Error)]
pub enum VcdFault {
    #[error("line {0} has a word that cannot stand there")]
    Line(u64),
    #[error("the text ends too early")]
    Ended,
    #[error("the dump is switched off in line {0}")]
    DumpOff(u64),
    #[error("no variable is the clock")]
    NoClock,
    #[error("no variable of the scope is input {0}")]
    NoInput(u64),
    #[error("input {0} is not known before the edge at {1}")]
    Unknown(u64, u64),
    #[error("there is no such cycle: the clock rises {0} times")]
    NoCycle(u64),
    #[error("there is no such time: the last one is {0}")]
    NoTime(u64),
    #[error("earlier states are wanted than the values have, which begin at {0}")]
    Late(u64),
    #[error("out of memory")]
    NoMemory,
}

impl From<NoMemory> for VcdFault {
    ghost use Rattle.std.specs.Prelude.{◌≡◌};
    ghost use Rattle.bs_vcd_header.specs.declared.fault.VcdFault.TheVariants.{NoMemory as Want};

    ghost from_gives = { λ _ fault. fault ≡ Want };

    fn from(_refused: NoMemory) -> VcdFault {
        VcdFault::NoMemory
    }
}
