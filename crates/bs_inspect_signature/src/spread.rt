//! Moments of recorded runs behind their fronts, spread evenly.
ghost use Rattle.std.specs.Prelude.{◌≡◌, ◌<◌, ◌≤◌, ◌+◌, ◌^◌, length, slice_index_or};
ghost use Rattle.bs_stim.specs.Runs.{inputs_of, run_at};
ghost use Rattle.bs_scan.specs.Moments.{IsMoment, moment};
ghost use Rattle.bs_inspect_signature.specs.Spread.{count_behind, count_taken, front, later_moments, moment_taken, part_of};
ghost use Rattle.bs_inspect_signature.specs.declared.spread.TheConstants.{FRONT_PART, MAX_TRY_MOMENTS};

use bs_scan::Moment;
use bs_stim::Runs;

/// The greatest number of moments that are taken. Each takes a list of predecessors.
pub const MAX_MOMENTS: usize = 64;

/// The same where numbers of items are tried: what comes at one moment of a hundred shows there.
pub const MAX_TRY_MOMENTS: usize = 256;

/// The front of a run is an eighth of it. A run begins with its reset, and where that is held a state has lost nearly all bits.
pub const FRONT_PART: u32 = 8;

/// How many cycles the front of a run has.
fn front(runs: &Runs, run: u32) -> u32
    requires from_one { 1 ≤ run }
    requires there { run ≤ length runs.now.runs }
    ensures count { result ≡ front (run_at runs.now run).inputs }
    ensures few { result ≤ 65536 }
{
    runs.cycles(run) / FRONT_PART
}

/// How many cycles a run has behind its front.
fn count_behind(runs: &Runs, run: u32) -> u32
    requires from_one { 1 ≤ run }
    requires there { run ≤ length runs.now.runs }
    ensures count { result ≡ count_behind (run_at runs.now run).inputs }
    ensures few { result ≤ 65536 }
{
    runs.cycles(run) - front(runs, run)
}

/// The moment of a run with this number from 0 behind its front.
fn moment_behind(runs: &Runs, run: u32, left: usize) -> Moment
    requires from_one { 1 ≤ run }
    requires there { run ≤ length runs.now.runs }
    requires within { left < count_behind (run_at runs.now run).inputs }
    ensures is { result ≡ moment run (front (run_at runs.now run).inputs + left + 1) }
    ensures later { 1 ≤ result.cycle }
{
    let behind = count_behind(runs, run);
    let _behind = behind;
    Moment {
        run,
        cycle: front(runs, run) + left as u32 + 1,
    }
}

/// The number of moments behind the fronts of all runs.
#[tactic(auto, using(crate::proofs::SpreadLemmas::none_later, crate::proofs::SpreadLemmas::more_later, crate::proofs::SpreadLemmas::all_later))]
pub(crate) fn count_later(runs: &Runs) -> usize
    ensures count { result ≡ length (later_moments (inputs_of runs.now)) }
    ensures few { result < 2 ^ 32 }
{
    let mut count = 0usize;
    'runs: for k in 0..runs.count() {
        count += count_behind(runs, k + 1) as usize;
    }
    count
}

/// The moment at a place among those behind the fronts.
#[tactic(auto, using(crate::proofs::SpreadLemmas::place_begin, crate::proofs::SpreadLemmas::place_more, crate::proofs::SpreadLemmas::place_here, crate::proofs::SpreadLemmas::place_moment, crate::proofs::SpreadLemmas::place_never))]
fn moment_at(runs: &Runs, place: usize) -> Moment
    requires { place < length (later_moments (inputs_of runs.now)) }
    ensures is { result ≡ slice_index_or (later_moments (inputs_of runs.now)) place (moment 0 0) }
    ensures moment { IsMoment (inputs_of runs.now) result }
    ensures later { 1 ≤ result.cycle }
{
    let mut left = place;
    'runs: for k in 0..runs.count() {
        let behind = count_behind(runs, k + 1) as usize;
        if left < behind {
            return moment_behind(runs, k + 1, left);
        }
        left -= behind;
    }
    Moment { run: 1, cycle: 1 }
}

/// The part of the whole from which the moment with this number is taken, where so many may be.
fn part_of(most: usize, taken: usize, k: usize) -> usize
    requires few { taken ≤ MAX_TRY_MOMENTS }
    requires there { k < taken }
    ensures part { result ≡ part_of most taken k }
    ensures within { result < taken }
{
    if taken == most { k * 13 % most } else { k }
}

/// The moment with this number, of so many behind the fronts, of which so many are taken, where so many may be.
#[tactic(auto, using(crate::proofs::SpreadLemmas::place_within, crate::proofs::SpreadLemmas::taken_is))]
pub(crate) fn moment_taken(runs: &Runs, most: usize, all: usize, taken: usize, k: usize) -> Moment
    requires all { all ≡ length (later_moments (inputs_of runs.now)) }
    requires few { all < 2 ^ 32 }
    requires taken { taken ≡ count_taken most all }
    requires small { taken ≤ MAX_TRY_MOMENTS }
    requires enough { taken ≤ all }
    requires there { k < taken }
    ensures is { result ≡ moment_taken most (later_moments (inputs_of runs.now)) k }
    ensures moment { IsMoment (inputs_of runs.now) result }
    ensures later { 1 ≤ result.cycle }
{
    let part = part_of(most, taken, k);
    moment_at(runs, part * (taken + 1) * all / (taken * taken))
}
