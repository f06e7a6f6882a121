//! Fewer time frames first: where they reach the state, their answer is told of all that are asked for.
ghost use Rattle.std.specs.Prelude.{◌≡◌, ◌≢◌, ◌*◌, ◌≤◌, true, [], length, map, All, IfOk};
ghost use Rattle.bs_scan.specs.Seen.{Shows};
ghost use Rattle.bs_net.specs.Circuit.{reset_state};
ghost use Rattle.bs_net.specs.Netlist.{circuit};
ghost use Rattle.bs_encode.specs.Transition.{variables};
ghost use Rattle.bs_encode.specs.Encoded.{encoding_of};
ghost use Rattle.bs_reach.specs.Renamed.{new_line, HasRoom};
ghost use Rattle.bs_reach_unrolled.specs.declared.limits.TheConstants.{MAX_FRAMES, MAX_FRAME_VARIABLES};
ghost use Rattle.bs_reach_unrolled.specs.Room.{IsUnrollable};
ghost use Rattle.bs_reach.specs.declared.wider.TheConstants.{ID_ROOM};
ghost use Rattle.bs_reach.specs.Reach.{IsReach};
ghost use Rattle.bs_reach.specs.Wider.{shift_between, has_small_ids, is_reached, LookFits};

use crate::answer::look_over;
use crate::offsets::Shift;
use crate::reach::{Outcome, Reach};
use crate::renaming::renamed;
use crate::renaming_law::renamed_logs_stay_right;
use bs_clause::NoMemory;
use bs_encode::Encoding;
use bs_log::Log;
use bs_net::Netlist;
use bs_reach_unrolled::{Implied, netlists_unroll};
use bs_scan::Seen;
use std::alloc::Global;

/// The clauses and flip-flops of a time frame and the lines of a log are at most so many where the log is renamed.
/// So no new id wraps. No search comes near.
pub(crate) const ID_ROOM: u64 = 1 << 40;

/// What fewer time frames tell.
#[derive(Drop)]
pub(crate) enum FewFrames {
    /// The answer.
    Verdict(Reach),
    /// The state is not reached within them.
    More,
    /// Only all time frames can tell.
    Whole,
}

/// So many times a number.
fn times(n: u32, size: u64) -> u64
    requires few { n ≤ MAX_FRAMES }
    requires small { size ≤ 2 * ID_ROOM }
    ensures product { result ≡ n * size }
    ensures small { result ≤ MAX_FRAMES * (2 * ID_ROOM) }
{
    u64::from(n) * size
}

/// Where the ids and variables of a log over `j` time frames go in the list of `k`.
fn shift_between(encoding: &Encoding, j: u32, k: u32) -> Shift
    requires unrollable { IsUnrollable encoding.now k }
    requires some { 1 ≤ j }
    requires fewer { j ≤ k }
    requires clauses { length encoding.now.clauses ≤ ID_ROOM }
    requires states { length encoding.now.states ≤ ID_ROOM }
    ensures { result ≡ shift_between encoding.now j k }
{
    let clauses = encoding.clauses().len() as u64;
    let states = encoding.states().len() as u64;
    let front = times(j, clauses);
    let front_by = times(k - j, clauses);
    let links = times(j - 1, 2 * states);
    let links_by = times(k - j, 2 * states);
    Shift {
        vars: j * encoding.vars(),
        vars_by: (k - j) * encoding.vars(),
        front,
        front_by,
        listed: front + (states + links),
        listed_by: front_by + links_by,
    }
}

/// Whether the ids of a time frame's clauses and of the lines are small.
fn has_small_ids(encoding: &Encoding, log: &Log) -> bool
    ensures { result ≡ has_small_ids encoding.now log.now }
{
    let clauses = encoding.clauses().len() as u64;
    let states = encoding.states().len() as u64;
    let lines = log.len() as u64;
    clauses <= ID_ROOM && states <= ID_ROOM && lines <= ID_ROOM
}

/// Whether the state is reached.
fn is_reached(outcome: Outcome) -> bool
    ensures { result ≡ is_reached outcome }
{
    match outcome {
        Outcome::Reached(_) => true,
        Outcome::Unreached => false,
        Outcome::Unknown(_) => false,
    }
}

/// The same answer for `k` cycles, with another log.
fn with_log(k: u32, reach: Reach, log: Log) -> Reach
    ensures { result ≡ record reach { asked = k; log = log } }
{
    Reach {
        asked: u64::from(k),
        conflicts: reach.conflicts,
        outcome: reach.outcome,
        states: reach.states,
        inputs: reach.inputs,
        log,
    }
}

/// The same answer for `k` cycles, its log renamed.
fn retold(alloc: Global, shift: Shift, reach: Reach, k: u32) -> Result<Reach, NoMemory>
    requires order { shift.front_by ≤ shift.listed_by }
    requires room { All (HasRoom shift) reach.log }
    ensures { IfOk result (λ r. r ≡ record reach { asked = k; log = map (new_line shift) reach.log }) }
{
    let log = renamed(alloc, shift, &reach.log)?;
    Ok(with_log(k, reach, log))
}

/// The answer that `j` time frames gave and in which they reach the state, for `k` cycles.
fn widened(
    alloc: Global,
    net: &Netlist,
    encoding: &Encoding,
    state: &Seen,
    reach: Reach,
    j: u32,
    k: u32,
) -> Result<Reach, NoMemory>
    requires encoded { encoding.now ≡ encoding_of (circuit net.now) [] }
    requires some { 1 ≤ j }
    requires fewer { j ≤ k }
    requires cycles { k ≤ MAX_FRAMES }
    requires room { k * variables (circuit net.now) [] ≤ MAX_FRAME_VARIABLES }
    requires right { IsReach (circuit net.now) state.now j reach.conflicts reach }
    requires reached { is_reached reach.outcome ≡ true }
    requires small { has_small_ids encoding.now reach.log ≡ true }
    ensures { IfOk result (IsReach (circuit net.now) state.now k reach.conflicts) }
{
    netlists_unroll(net, k);
    renamed_logs_stay_right();
    let shift = shift_between(encoding, j, k);
    let told = retold(alloc, shift, reach, k)?;
    Ok(told)
}

/// What the answer that `j` time frames gave tells of `k` cycles.
fn told_of(
    alloc: Global,
    net: &Netlist,
    encoding: &Encoding,
    state: &Seen,
    reach: Reach,
    j: u32,
    k: u32,
) -> Result<FewFrames, NoMemory>
    requires encoded { encoding.now ≡ encoding_of (circuit net.now) [] }
    requires some { 1 ≤ j }
    requires fewer { j ≤ k }
    requires cycles { k ≤ MAX_FRAMES }
    requires room { k * variables (circuit net.now) [] ≤ MAX_FRAME_VARIABLES }
    requires right { IsReach (circuit net.now) state.now j reach.conflicts reach }
    ensures { IfOk result (LookFits (circuit net.now) state.now k reach.conflicts) }
{
    if is_reached(reach.outcome) && has_small_ids(encoding, &reach.log) {
        let told = widened(alloc, net, encoding, state, reach, j, k)?;
        return Ok(FewFrames::Verdict(told));
    }
    Ok(match reach.outcome {
        Outcome::Unreached => FewFrames::More,
        _ => FewFrames::Whole,
    })
}

/// What `j` time frames tell of `k` cycles.
fn look_within(
    alloc: Global,
    net: &Netlist,
    encoding: &Encoding,
    implied: &Implied,
    state: &Seen,
    j: u32,
    k: u32,
    b: u64,
) -> Result<FewFrames, NoMemory>
    requires encoded { encoding.now ≡ encoding_of (circuit net.now) [] }
    requires width { length state.now.bits ≡ length (circuit net.now).flops }
    requires some { 1 ≤ j }
    requires fewer { j ≤ k }
    requires cycles { k ≤ MAX_FRAMES }
    requires room { k * variables (circuit net.now) [] ≤ MAX_FRAME_VARIABLES }
    requires limit { 1 ≤ b }
    requires other { Shows state.now (reset_state (circuit net.now)) → ⊥ }
    ensures { IfOk result (LookFits (circuit net.now) state.now k b) }
{
    let reach = look_over(alloc, net, encoding, implied, state, j, b)?;
    let look = told_of(alloc, net, encoding, state, reach, j, k)?;
    Ok(look)
}

/// How many time frames are looked over first. An execution of the first length that what follows from reset does not deny was sought
/// alone before, so they are four times as many as that has, or all.
fn first_frames(implied: &Implied, k: u32) -> u32
    requires some { 1 ≤ k }
    requires cycles { k ≤ MAX_FRAMES }
    ensures some { 1 ≤ result }
    ensures few { result ≤ k }
{
    let denied = implied.len();
    if denied < k as usize && 4 * (denied as u32 + 1) < k {
        4 * (denied as u32 + 1)
    } else {
        k
    }
}

/// The answer by few time frames where they tell it, and else by all that are asked for: four times as many each time.
pub(crate) fn look_wider(
    alloc: Global,
    net: &Netlist,
    encoding: &Encoding,
    implied: &Implied,
    state: &Seen,
    k: u32,
    b: u64,
) -> Result<Reach, NoMemory>
    requires encoded { encoding.now ≡ encoding_of (circuit net.now) [] }
    requires width { length state.now.bits ≡ length (circuit net.now).flops }
    requires some { 1 ≤ k }
    requires cycles { k ≤ MAX_FRAMES }
    requires room { k * variables (circuit net.now) [] ≤ MAX_FRAME_VARIABLES }
    requires limit { 1 ≤ b }
    requires other { Shows state.now (reset_state (circuit net.now)) → ⊥ }
    ensures { IfOk result (IsReach (circuit net.now) state.now k b) }
{
    let mut j = first_frames(implied, k);
    'sizes: while j < k {
        match look_within(alloc, net, encoding, implied, state, j, k, b)? {
            FewFrames::Verdict(reach) => return Ok(reach),
            FewFrames::More => j = 4 * j,
            FewFrames::Whole => break,
        }
    }
    look_over(alloc, net, encoding, implied, state, k, b)
}
