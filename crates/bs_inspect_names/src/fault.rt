//! Why a text gives no names.

use bs_bits::NoMemory;
use std::error::Error;
use std::fmt::Display;
use thiserror::Error;

/// Why a text gives no names (docs/FORMATS.md, "Names in a simulation"). A line counts from 1.
#[derive(Clone, Copy, Debug, PartialEq, Eq, Error)]
pub enum MapFault {
    #[error("line {0} is not a key and a name")]
    Line(u64),
    #[error("the key of line {0} is that of no input")]
    Unknown(u64),
    #[error("the key of line {0} has a line already")]
    Twice(u64),
    #[error("a bit of line {0} is none of the range behind the name in the simulation")]
    Range(u64),
    #[error("out of memory")]
    NoMemory,
}

impl From<NoMemory> for MapFault {
    ghost use Rattle.std.specs.Prelude.{◌≡◌};
    ghost use Rattle.bs_inspect_names.specs.declared.fault.MapFault.TheVariants.{NoMemory as Want};

    ghost from_gives = { λ _ fault. fault ≡ Want };

    fn from(_refused: NoMemory) -> MapFault {
        MapFault::NoMemory
    }
}
