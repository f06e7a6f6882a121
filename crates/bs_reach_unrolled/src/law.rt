//! The laws of the unrolled clauses.
ghost use Rattle.std.specs.Prelude.{◌*◌, ◌≤◌, []};
ghost use Rattle.bs_net.specs.Netlist.{circuit};
ghost use Rattle.bs_encode.specs.Encoded.{encoding_of};
ghost use Rattle.bs_encode.specs.Transition.{variables};
ghost use Rattle.bs_reach_unrolled.specs.declared.limits.TheConstants.{MAX_FRAMES, MAX_FRAME_VARIABLES};
ghost use Rattle.bs_reach_unrolled.specs.Room.{IsUnrollable};
ghost use Rattle.bs_reach_unrolled.specs.Laws.{SolutionsAreExecutions, ReachedIsShown, FinishedIsNotReached};

use bs_encode::encodings_are_cycles;
use bs_net::Netlist;

/// The unrolled clauses say what the netlist does from reset on, cycle after cycle: an assignment that meets them shows
/// executions, each execution is shown by one, and an accepted log that finishes the step of a length refutes it.
pub fn unrolled_clauses_are_executions(net: &Netlist)
    ensures solutions { SolutionsAreExecutions (circuit net.now) (encoding_of (circuit net.now) []) }
    ensures reached { ReachedIsShown (circuit net.now) (encoding_of (circuit net.now) []) }
    ensures refuted { FinishedIsNotReached (circuit net.now) (encoding_of (circuit net.now) []) }
{
    encodings_are_cycles(net);
}

/// A netlist unrolls to so many cycles, where the variables of the time frames are few enough.
pub fn netlists_unroll(net: &Netlist, k: u32)
    requires cycles { k ≤ MAX_FRAMES }
    requires room { k * variables (circuit net.now) [] ≤ MAX_FRAME_VARIABLES }
    ensures { IsUnrollable (encoding_of (circuit net.now) []) k }
{
    encodings_are_cycles(net);
}
