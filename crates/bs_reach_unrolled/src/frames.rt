//! The clauses of all time frames.
ghost use Rattle.std.specs.Prelude.{◌≡◌, ◌++◌, OnOk};
ghost use Rattle.std.specs.List.{flat_map, range_with_len};
ghost use Rattle.bs_reach_unrolled.specs.Unrolled.{frame_of};
ghost use Rattle.bs_reach_unrolled.specs.Room.{IsUnrollable};

use bs_clause::{Clauses, NoMemory};
use bs_encode::{Encoding, add_frame};
use std::alloc::Global;

/// Puts the clauses of so many time frames at the end.
pub(crate) fn add_frames(
    alloc: Global,
    into: &mut Clauses,
    encoding: &Encoding,
    k: u32,
) -> Result<(), NoMemory>
    requires { IsUnrollable encoding.now k }
    ensures { OnOk result (into.new ≡ into.old ++ flat_map (frame_of encoding.now) (range_with_len 0 k)) }
{
    'frames: for c in 0..k {
        add_frame(alloc, into, encoding.clauses().slice(), c * encoding.vars())?;
    }
    Ok(())
}
