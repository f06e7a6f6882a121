//! The nearest of 64 lanes, and of those before.
ghost use Rattle.std.specs.Prelude.{◌≡◌, ◌<◌, ◌+◌};
ghost use Rattle.bs_net.specs.Netlist.{circuit};
ghost use Rattle.bs_stim.specs.Runs.{inputs_of};
ghost use Rattle.bs_inspect_near.specs.Visited.{is_nearer, is_viewed, IsBest, nearer, ShowsCounts};

use crate::counters::lane_count;
use crate::search::Near;
use bs_net::Netlist;
use bs_scan::Seen;
use bs_stim::Runs;

/// Whether a lane has a run that lasts to a cycle.
#[tactic(auto, using(crate::proofs::LaneLemmas::viewed_none, crate::proofs::LaneLemmas::viewed_one))]
fn is_viewed(runs: &Runs, first: u32, cycle: u32, lane: u32) -> bool
    requires lane { lane < 64 }
    requires first { first < 1024 }
    ensures { result ≡ is_viewed (inputs_of runs.now) first cycle lane }
{
    if first + lane >= runs.count() {
        return false;
    }
    cycle <= runs.cycles(first + lane + 1)
}

/// Whether one moment is nearer than another, or as near and of a lower run.
fn is_nearer(new: Near, old: Near) -> bool
    ensures { result ≡ is_nearer new old }
{
    new.count < old.count || (new.count == old.count && new.run < old.run)
}

/// The nearer one, and the older one where none is.
fn nearer(best: Option<Near>, new: Near) -> Near
    ensures { result ≡ nearer best new }
{
    match best {
        Some(old) => { if is_nearer(new, old) { new } else { old } }
        None => new,
    }
}

/// The nearest, with the lane behind those that were looked at.
#[tactic(auto, using(crate::proofs::LaneLemmas::best_passed, crate::proofs::LaneLemmas::best_more, crate::proofs::LaneLemmas::count_few))]
fn with_lane(
    net: &Netlist,
    runs: &Runs,
    seen: &Seen,
    first: u32,
    cycle: u32,
    digits: &[u64],
    lane: u32,
    best: Option<Near>,
) -> Option<Near>
    requires lane { lane < 64 }
    requires first { first < 1024 }
    requires counts { ShowsCounts (circuit net.now) (inputs_of runs.now) first cycle seen.now digits.now }
    requires best { IsBest (circuit net.now) (inputs_of runs.now) seen.now cycle (first + lane) best }
    ensures { IsBest (circuit net.now) (inputs_of runs.now) seen.now cycle (first + lane + 1) result }
{
    let _net = net;
    let _seen = seen;
    if is_viewed(runs, first, cycle, lane) {
        let count = lane_count(digits, lane);
        let run = first + lane + 1;
        Some(nearer(best, Near { run, cycle, count }))
    } else {
        best
    }
}

/// The nearest, with 64 lanes behind those that were looked at.
#[tactic(auto, using(crate::proofs::LaneLemmas::lanes_begin, crate::proofs::LaneLemmas::lanes_next, crate::proofs::LaneLemmas::lanes_all))]
pub(crate) fn with_lanes(
    net: &Netlist,
    runs: &Runs,
    seen: &Seen,
    first: u32,
    cycle: u32,
    digits: &[u64],
    old: Option<Near>,
) -> Option<Near>
    requires first { first < 1024 }
    requires counts { ShowsCounts (circuit net.now) (inputs_of runs.now) first cycle seen.now digits.now }
    requires best { IsBest (circuit net.now) (inputs_of runs.now) seen.now cycle first old }
    ensures { IsBest (circuit net.now) (inputs_of runs.now) seen.now cycle (first + 64) result }
{
    let mut best = old;
    'lanes: for lane in 0..64u32 {
        best = with_lane(net, runs, seen, first, cycle, digits, lane, best);
    }
    best
}
