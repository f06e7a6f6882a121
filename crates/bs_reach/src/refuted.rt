//! The log of lengths that what follows from reset denies: no clause is unrolled, and no solver is made.
ghost use Rattle.std.specs.Prelude.{◌≡◌, ◌+◌, ◌*◌, ◌^◌, ◌<◌, ◌≤◌, ◌++◌, [], length, reverse, IfOk, OnOk, IfSome};
ghost use Rattle.std.specs.Bool.{OnTrue};
ghost use Rattle.bs_reach_unrolled.specs.declared.limits.TheConstants.{MAX_FRAMES};
ghost use Rattle.bs_reach_unrolled.specs.Room.{IsUnrollable};
ghost use Rattle.bs_reach_unrolled.specs.Unrolled.{length_assumes, unrolled};
ghost use Rattle.bs_solve.specs.Failure.{FailsBy};
ghost use Rattle.bs_reach.specs.declared.refuted.TheConstants.{COUNT_ROOM};
ghost use Rattle.bs_reach.specs.Refuted.{step_lines, AreRefuted, IsLogOfLengths};

use crate::failed_assumptions::failed_assumption_at;
use bs_bits::Bits;
use bs_clause::NoMemory;
use bs_encode::Encoding;
use bs_log::{Line, Log};
use bs_reach_unrolled::{Implied, Places};
use bs_scan::Seen;
use bs_solve::FailedAssumption;
use std::alloc::Global;

/// A time frame's clauses and flip-flops are at most so many where those of all time frames are counted.
/// So no product of them with the time frames wraps. No encoding comes near.
const COUNT_ROOM: u64 = 1 << 40;

/// So many times a number.
fn times(n: u32, size: u64) -> u64
    requires few { n ≤ MAX_FRAMES }
    requires small { size ≤ 2 * COUNT_ROOM }
    ensures product { result ≡ n * size }
    ensures small { result ≤ MAX_FRAMES * (2 * COUNT_ROOM) }
{
    u64::from(n) * size
}

/// Whether the unrolled clauses can be counted.
fn is_counted(encoding: &Encoding) -> bool
    ensures clauses { OnTrue result (length encoding.now.clauses ≤ COUNT_ROOM) }
    ensures states { OnTrue result (length encoding.now.states ≤ COUNT_ROOM) }
{
    let clauses = encoding.clauses().len() as u64;
    let states = encoding.states().len() as u64;
    clauses <= COUNT_ROOM && states <= COUNT_ROOM
}

/// How many unrolled clauses there are.
fn count(encoding: &Encoding, _reset: &Bits, k: u32) -> u64
    requires some { 1 ≤ k }
    requires unrollable { IsUnrollable encoding.now k }
    requires starts { length encoding.now.states ≡ length _reset.now }
    requires clauses { length encoding.now.clauses ≤ COUNT_ROOM }
    requires states { length encoding.now.states ≤ COUNT_ROOM }
    ensures { result ≡ length (unrolled encoding.now _reset.now k) }
{
    let states = encoding.states().len() as u64;
    let frames = times(k, encoding.clauses().len() as u64);
    let links = times(k - 1, 2 * states);
    frames + (states + links)
}

/// The id behind another, where there is one.
pub(crate) fn next_id(last: u64) -> Result<u64, NoMemory>
    ensures { IfOk result (λ id. id ≡ last + 1) }
{
    match last.checked_add(1) {
        Some(id) => Ok(id),
        None => Err(NoMemory),
    }
}

/// Logs a length that a lemma refutes, and answers the last id that is given then.
fn log_length(
    log: &mut Log,
    last: u64,
    failed_assumption: FailedAssumption,
) -> Result<u64, NoMemory>
    ensures id { IfOk result (λ id. id ≡ last + 2) }
    ensures lines { IfOk result (λ _. log.new ≡ log.old ++ step_lines (last + 1) failed_assumption) }
{
    let lemma = next_id(last)?;
    let end = next_id(lemma)?;
    log.push_two(
        Line::Solve,
        Line::Lemma {
            id: lemma,
            lits: failed_assumption.lits,
            hints: failed_assumption.hints,
        },
    )?;
    log.push_two(Line::Finish { id: lemma }, Line::Retire { id: end })?;
    Ok(end)
}

/// Logs the length `c + 1`, which the lemma refutes, and answers the last id that is given then.
fn log_denied(
    log: &mut Log,
    last: u64,
    failed_assumption: FailedAssumption,
    _encoding: &Encoding,
    _reset: &Bits,
    _state: &Seen,
    _c: u32,
    _k: u32,
    _b: u64,
) -> Result<u64, NoMemory>
    requires unrollable { IsUnrollable _encoding.now _k }
    requires limit { 1 ≤ _b }
    requires so_far { AreRefuted _encoding.now _reset.now _state.now _k _b _c last (reverse log.old) }
    requires failed_assumption { FailsBy (unrolled _encoding.now _reset.now _k) (length_assumes _encoding.now _k _state.now (_c + 1)) failed_assumption }
    ensures { IfOk result (λ id. AreRefuted _encoding.now _reset.now _state.now _k _b (_c + 1) id (reverse log.new)) }
{
    let end = log_length(log, last, failed_assumption)?;
    Ok(end)
}

/// Logs the length `c + 1`, where what follows from reset denies it, and answers the last id that is given then.
fn add_length(
    alloc: Global,
    log: &mut Log,
    last: u64,
    encoding: &Encoding,
    reset: &Bits,
    implied: &Implied,
    places: &mut Places,
    state: &Seen,
    c: u32,
    k: u32,
    b: u64,
) -> Result<Option<u64>, NoMemory>
    requires unrollable { IsUnrollable encoding.now k }
    requires within { c < k }
    requires starts { length encoding.now.states ≡ length reset.now }
    requires width { length encoding.now.next ≡ length state.now.bits }
    requires limit { 1 ≤ b }
    requires so_far { AreRefuted encoding.now reset.now state.now k b c last (reverse log.old) }
    ensures { IfOk result (λ o. IfSome o (λ id. AreRefuted encoding.now reset.now state.now k b (c + 1) id (reverse log.new))) }
{
    let found = failed_assumption_at(alloc, encoding, reset, implied, places, state, c, k)?;
    match found {
        None => Ok(None),
        Some(failed_assumption) => {
            let id = log_denied(
                log,
                last,
                failed_assumption,
                encoding,
                reset,
                state,
                c,
                k,
                b,
            )?;
            Ok(Some(id))
        }
    }
}

/// Logs so many first lengths, where what follows from reset denies each, and answers the last id that is given then.
fn add_lengths(
    alloc: Global,
    log: &mut Log,
    first: u64,
    encoding: &Encoding,
    reset: &Bits,
    implied: &Implied,
    places: &mut Places,
    state: &Seen,
    denied: u32,
    k: u32,
    b: u64,
) -> Result<Option<u64>, NoMemory>
    requires unrollable { IsUnrollable encoding.now k }
    requires within { denied ≤ k }
    requires starts { length encoding.now.states ≡ length reset.now }
    requires width { length encoding.now.next ≡ length state.now.bits }
    requires limit { 1 ≤ b }
    requires start { AreRefuted encoding.now reset.now state.now k b 0 first (reverse log.old) }
    ensures { IfOk result (λ o. IfSome o (λ id. AreRefuted encoding.now reset.now state.now k b denied id (reverse log.new))) }
{
    let mut last = first;
    'lengths: for c in 0..denied {
        let next = add_length(
            alloc, log, last, encoding, reset, implied, places, state, c, k, b,
        )?;
        match next {
            None => return Ok(None),
            Some(id) => last = id,
        }
    }
    Ok(Some(last))
}

/// The same into an empty log, over `k` cycles, one or more.
pub(crate) fn fill(
    alloc: Global,
    log: &mut Log,
    encoding: &Encoding,
    reset: &Bits,
    implied: &Implied,
    state: &Seen,
    denied: u32,
    k: u32,
    b: u64,
) -> Result<Option<u64>, NoMemory>
    requires some { 1 ≤ k }
    requires unrollable { IsUnrollable encoding.now k }
    requires within { denied ≤ k }
    requires starts { length encoding.now.states ≡ length reset.now }
    requires width { length encoding.now.next ≡ length state.now.bits }
    requires limit { 1 ≤ b }
    requires empty { log.old ≡ [] }
    ensures { IfOk result (λ o. IfSome o (λ id. AreRefuted encoding.now reset.now state.now k b denied id (reverse log.new))) }
{
    if !is_counted(encoding) {
        return Ok(None);
    }
    let mut places = Places::new(alloc, implied)?;
    let first = count(encoding, reset, k);
    let last = add_lengths(
        alloc,
        log,
        first,
        encoding,
        reset,
        implied,
        &mut places,
        state,
        denied,
        k,
        b,
    )?;
    Ok(last)
}

/// The log of `k` lengths, one or more, where what follows from reset denies each.
pub(crate) fn log_of(
    alloc: Global,
    encoding: &Encoding,
    reset: &Bits,
    implied: &Implied,
    state: &Seen,
    k: u32,
    b: u64,
) -> Result<Option<Log>, NoMemory>
    requires some { 1 ≤ k }
    requires unrollable { IsUnrollable encoding.now k }
    requires starts { length encoding.now.states ≡ length reset.now }
    requires width { length encoding.now.next ≡ length state.now.bits }
    requires limit { 1 ≤ b }
    ensures { IfOk result (λ o. IfSome o (IsLogOfLengths encoding.now reset.now state.now k b k k)) }
{
    let mut log = Log::new(alloc);
    let last = fill(alloc, &mut log, encoding, reset, implied, state, k, k, b)?;
    match last {
        None => Ok(None),
        Some(_id) => Ok(Some(log)),
    }
}
