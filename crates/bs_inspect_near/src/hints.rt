//! What hints there are where no run is in a state of which something is seen, by the moments that are nearest to what is asked of the runs.
ghost use Rattle.std.specs.Prelude.{◌∷◌, []};
ghost use Rattle.bs_net.specs.Circuit.{reset_state};
ghost use Rattle.bs_net.specs.Netlist.{circuit};
ghost use Rattle.bs_stim.specs.Runs.{inputs_of};
ghost use Rattle.bs_inspect_near.specs.Hints.{AreHints, asked, Finds, inverse, shifts, TellsHeld};
ghost use Rattle.bs_inspect_near.specs.Nearest.{AreNearest};

use crate::search::Near;
use bs_net::Netlist;
use bs_scan::Seen;
use bs_stim::Runs;

/// Whether all runs are at each moment in the reset state; and where a run is in a state that has the known bits inverted, and shifted by
/// one known place.
#[derive(Clone, Copy)]
pub struct Hints {
    pub held: bool,
    pub inverted: Option<Near>,
    pub shifted: Option<Near>,
}

/// Whether all runs are at each moment in the reset state: none ever differs in fewer than all bits from its inverse, asked last.
#[tactic(auto, using(crate::proofs::HintLemmas::asked_there, crate::proofs::HintLemmas::held_told))]
fn are_held(net: &Netlist, _runs: &Runs, _seen: &Seen, nears: &[Near]) -> bool
    requires { AreNearest (circuit net.now) (inputs_of _runs.now) (asked (reset_state (circuit net.now)) _seen.now) nears.now }
    ensures { TellsHeld (circuit net.now) (inputs_of _runs.now) result }
{
    let near = nears[6];
    near.count as usize == net.width()
}

/// Where a run is in a state that has the known bits inverted, asked behind the state itself.
#[tactic(auto, using(crate::proofs::HintLemmas::asked_there, crate::proofs::HintLemmas::inverted_here, crate::proofs::HintLemmas::inverted_none))]
fn recorded_inverted(_net: &Netlist, _runs: &Runs, _seen: &Seen, nears: &[Near]) -> Option<Near>
    requires { AreNearest (circuit _net.now) (inputs_of _runs.now) (asked (reset_state (circuit _net.now)) _seen.now) nears.now }
    ensures { Finds (circuit _net.now) (inputs_of _runs.now) (inverse _seen.now ∷ []) result }
{
    let near = nears[1];
    if near.count == 0 { Some(near) } else { None }
}

/// Where a run is in a state that has the known bits shifted by one place, the first of the four that a run is in. They are asked behind
/// the inverse.
#[tactic(auto, using(crate::proofs::HintLemmas::asked_there, crate::proofs::HintLemmas::found_begin, crate::proofs::HintLemmas::shifted_more, crate::proofs::HintLemmas::shifted_here, crate::proofs::HintLemmas::shifted_none))]
fn recorded_shifted(_net: &Netlist, _runs: &Runs, _seen: &Seen, nears: &[Near]) -> Option<Near>
    requires { AreNearest (circuit _net.now) (inputs_of _runs.now) (asked (reset_state (circuit _net.now)) _seen.now) nears.now }
    ensures { Finds (circuit _net.now) (inputs_of _runs.now) (shifts _seen.now) result }
{
    'shifts: for i in 0..4usize {
        let near = nears[2 + i];
        if near.count == 0 {
            return Some(near);
        }
    }
    None
}

/// What hints there are.
pub(crate) fn hints_of(net: &Netlist, runs: &Runs, seen: &Seen, nears: &[Near]) -> Hints
    requires { AreNearest (circuit net.now) (inputs_of runs.now) (asked (reset_state (circuit net.now)) seen.now) nears.now }
    ensures { AreHints (circuit net.now) (inputs_of runs.now) seen.now result }
{
    let held = are_held(net, runs, seen, nears);
    let inverted = recorded_inverted(net, runs, seen, nears);
    let shifted = recorded_shifted(net, runs, seen, nears);
    Hints {
        held,
        inverted,
        shifted,
    }
}
