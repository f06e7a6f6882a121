//! Why words give no values to flip-flops.

use bs_bits::NoMemory;
use std::error::Error;
use std::fmt::Display;
use thiserror::Error;

/// Why words give no values to flip-flops (docs/FORMATS.md, "Values of flip-flops"). A word counts from 1.
#[derive(Clone, Copy, Debug, PartialEq, Eq, Error)]
pub enum GivenFault {
    #[error("word {0} is no name with a value")]
    Form(u64),
    #[error("the name of word {0} is that of no flip-flop")]
    Unknown(u64),
    #[error("the value of word {0} has more bits than its name")]
    Wide(u64),
    #[error("a flip-flop of word {0} has a value already")]
    Twice(u64),
    #[error("out of memory")]
    NoMemory,
}

impl From<NoMemory> for GivenFault {
    ghost use Rattle.std.specs.Prelude.{◌≡◌};
    ghost use Rattle.bs_inspect_seen.specs.declared.fault.GivenFault.TheVariants.{NoMemory as Want};

    ghost from_gives = { λ _ fault. fault ≡ Want };

    fn from(_refused: NoMemory) -> GivenFault {
        GivenFault::NoMemory
    }
}
