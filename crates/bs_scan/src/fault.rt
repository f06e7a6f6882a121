//! Why a text is refused.

use bs_bits::NoMemory;
use std::error::Error;
use std::fmt::Display;
use thiserror::Error;

/// Why a dump's text is refused (docs/FORMATS.md, "Dump"). A line counts from 1.
#[derive(Clone, Copy, Debug, Error)]
pub enum DumpFault {
    #[error("line {0} is not of its form")]
    Line(u32),
    #[error("line {0} has another number of bits than flip-flops or items")]
    Width(u32),
    #[error("there is no signature, and the state is not the reset state")]
    NotReset,
    #[error("out of memory")]
    NoMemory,
}

impl From<NoMemory> for DumpFault {
    ghost use Rattle.std.specs.Prelude.{◌≡◌};
    ghost use Rattle.bs_scan.specs.declared.fault.DumpFault.TheVariants.{NoMemory as Want};

    ghost from_gives = { λ _ fault. fault ≡ Want };

    fn from(_refused: NoMemory) -> DumpFault {
        DumpFault::NoMemory
    }
}

/// Why a signature file is refused (docs/FORMATS.md, "Signature"). A line counts from 1.
#[derive(Clone, Copy, Debug, Error)]
pub enum ChoiceFault {
    #[error("line {0} is not of its form")]
    Line(u32),
    #[error("line {0} is one item too many")]
    TooMany(u32),
    #[error("line {0} names no flip-flop")]
    UnknownFlop(u32),
    #[error("out of memory")]
    NoMemory,
}

impl From<NoMemory> for ChoiceFault {
    ghost use Rattle.std.specs.Prelude.{◌≡◌};
    ghost use Rattle.bs_scan.specs.declared.fault.ChoiceFault.TheVariants.{NoMemory as Want};

    ghost from_gives = { λ _ fault. fault ≡ Want };

    fn from(_refused: NoMemory) -> ChoiceFault {
        ChoiceFault::NoMemory
    }
}
