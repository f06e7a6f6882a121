//! Why a stimulus is refused.

use bs_bits::NoMemory;
use std::error::Error;
use std::fmt::Display;
use thiserror::Error;

/// Why a stimulus text is refused (docs/FORMATS.md, "Stimulus"). A line counts from 1.
#[derive(Clone, Copy, Debug, Error)]
pub enum StimFault {
    #[error("line {0} is not of its form")]
    Line(u32),
    #[error("line {0} has another number of bits than there are data inputs")]
    Width(u32),
    #[error("line {0} is `end` where an input is due, or an input where `end` is due, or missing")]
    Count(u32),
    #[error("line {0} begins one run too many")]
    TooManyRuns(u32),
    #[error("line {0} has too many cycles")]
    TooManyCycles(u32),
    #[error("there is no run")]
    NoRun,
    #[error("out of memory")]
    NoMemory,
}

impl From<NoMemory> for StimFault {
    ghost use Rattle.std.specs.Prelude.{◌≡◌};
    ghost use Rattle.bs_stim.specs.declared.fault.StimFault.TheVariants.{NoMemory as Want};

    ghost from_gives = { λ _ fault. fault ≡ Want };

    fn from(_refused: NoMemory) -> StimFault {
        StimFault::NoMemory
    }
}
