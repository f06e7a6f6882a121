//! What is known of the bit that a flip-flop loads.
ghost use Rattle.std.specs.Prelude.{◌≡◌, length};
ghost use Rattle.bs_net.specs.Parts.{IsFlopPlaced};
ghost use Rattle.bs_sim.specs.Marks.{flop_mark, is_known};

use crate::mark::{Mark, flipped, joined, met};
use bs_net::{Flop, Mode};

/// Whether a bit is known to be the same in all valuations.
pub fn is_known(mark: Mark) -> bool
    ensures { result ≡ is_known mark }
{
    match mark {
        Mark::Low => true,
        Mark::High => true,
        Mark::Still => true,
        Mark::Moved => false,
    }
}

/// What is known of the bit that a flip-flop loads.
pub fn flop_mark(marks: &[Mark], flop: Flop) -> Mark
    requires { IsFlopPlaced (length marks.now) flop }
    ensures { result ≡ flop_mark marks.now flop }
{
    let input = marks[flop.d.0 as usize];
    match flop.mode {
        Mode::Plain => input,
        Mode::Enable(enable) => {
            let enabled = marks[enable.0 as usize];
            let held = met(flipped(enabled), marks[flop.q.0 as usize]);
            joined(met(enabled, input), held)
        }
        Mode::Clear(clear) => met(flipped(marks[clear.0 as usize]), input),
    }
}
