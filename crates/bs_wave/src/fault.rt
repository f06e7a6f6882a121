//! Why a text is no wave.

use bs_bits::NoMemory;
use std::error::Error;
use std::fmt::Display;
use thiserror::Error;

/// Why a wave's text is refused (docs/FORMATS.md, "Waveform"). A line counts from 1.
#[derive(Clone, Copy, Debug, Error)]
pub enum WaveFault {
    #[error("line {0} cannot stand in its place, or is missing")]
    Line(u64),
    #[error("out of memory")]
    NoMemory,
}

impl From<NoMemory> for WaveFault {
    ghost use Rattle.std.specs.Prelude.{◌≡◌};
    ghost use Rattle.bs_wave.specs.declared.fault.WaveFault.TheVariants.{NoMemory as Want};

    ghost from_gives = { λ _ fault. fault ≡ Want };

    fn from(_refused: NoMemory) -> WaveFault {
        WaveFault::NoMemory
    }
}
