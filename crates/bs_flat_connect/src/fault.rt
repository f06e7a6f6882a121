//! Why the connections of a module do not go with their ports.
ghost use Rattle.std.specs.Prelude.{◌≡◌};
ghost use Rattle.bs_flat_connect.specs.declared.fault.Fault.TheVariants.{NoMemory as OutOfMemory};

use bs_bits::NoMemory;
use std::alloc::{AllocError, AllocFailed};

/// Why the connections of a module do not go with their ports. A place is a byte offset from 0.
#[derive(Clone, Copy, Debug)]
pub enum Fault {
    /// The first term or pin that does not go with its port.
    At(u32),
    /// Out of memory.
    NoMemory,
}

impl From<AllocError> for Fault {
    ghost from_gives = { λ _ e. e ≡ OutOfMemory };

    fn from(_refused: AllocError) -> Fault {
        Fault::NoMemory
    }
}

impl From<NoMemory> for Fault {
    ghost from_gives = { λ _ e. e ≡ OutOfMemory };

    fn from(_refused: NoMemory) -> Fault {
        Fault::NoMemory
    }
}

impl<T: Drop> From<AllocFailed<T>> for Fault {
    ghost from_gives = { λ _ e. e ≡ OutOfMemory };

    fn from(_refused: AllocFailed<T>) -> Fault {
        Fault::NoMemory
    }
}
