//! Why a text has no lexemes.
ghost use Rattle.std.specs.Prelude.{◌≡◌};
ghost use Rattle.bs_lex.specs.declared.fault.LexFault.TheVariants.{NoMemory as OutOfMemory};

use bs_bits::NoMemory;
use std::error::Error;
use std::fmt::Display;
use thiserror::Error;

/// Why a text has no lexemes. A place is a byte offset from 0.
#[derive(Clone, Copy, Debug, Error)]
pub enum LexFault {
    /// The first place at which no white space, comment or token begins.
    #[error("nothing begins at byte {0}")]
    BadByte(u32),
    #[error("out of memory")]
    NoMemory,
}

impl From<NoMemory> for LexFault {
    ghost from_gives = { λ _ fault. fault ≡ OutOfMemory };

    fn from(_refused: NoMemory) -> LexFault {
        LexFault::NoMemory
    }
}
