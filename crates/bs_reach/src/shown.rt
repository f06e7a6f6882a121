//! The first length that what follows from reset does not deny, where an execution of it is found: no clause is unrolled.
ghost use Rattle.std.specs.Prelude.{◌≡◌, ◌≢◌, ◌+◌, ◌*◌, ◌<◌, ◌≤◌, ◌++◌, [], length, reverse, IfOk, IfSome};
ghost use Rattle.bs_scan.specs.Seen.{Shows};
ghost use Rattle.bs_net.specs.Circuit.{reset_state};
ghost use Rattle.bs_net.specs.Netlist.{circuit};
ghost use Rattle.bs_encode.specs.Transition.{variables};
ghost use Rattle.bs_encode.specs.Encoded.{encoding_of};
ghost use Rattle.bs_reach_unrolled.specs.declared.limits.TheConstants.{MAX_FRAMES, MAX_FRAME_VARIABLES};
ghost use Rattle.bs_reach_unrolled.specs.Execution.{IsExecution};
ghost use Rattle.bs_reach_unrolled.specs.Room.{IsUnrollable};
ghost use Rattle.bs_reach.specs.declared.reach.Outcome.TheVariants.{Reached};
ghost use Rattle.bs_reach.specs.Reach.{IsReach};
ghost use Rattle.bs_reach.specs.Refuted.{trial_lines, AreTried, AreRefuted, IsLogOfLengths};

use crate::reach::{Outcome, Reach};
use crate::refuted::{fill, next_id};
use bs_bits::Bits;
use bs_clause::NoMemory;
use bs_encode::Encoding;
use bs_log::{Line, Log};
use bs_net::Netlist;
use bs_reach_execution::{Execution, execution_of};
use bs_reach_unrolled::{Implied, netlists_unroll, unrolled_clauses_are_executions};
use bs_scan::Seen;
use std::alloc::Global;

/// A search for an execution that is not logged has at most so many lemmas.
/// Where they do not suffice, the search that keeps a log looks for the state.
const MAX_LEMMAS: u64 = 2_000;

/// Logs a length without a lemma, and answers the last id that is given then.
fn log_trial(log: &mut Log, last: u64) -> Result<u64, NoMemory>
    ensures id { IfOk result (λ id. id ≡ last + 1) }
    ensures lines { IfOk result (λ _. log.new ≡ log.old ++ trial_lines (last + 1)) }
{
    let end = next_id(last)?;
    log.push_two(Line::Solve, Line::Retire { id: end })?;
    Ok(end)
}

/// Logs the length `c + 1`, which is tried and not refuted, and answers the last id that is given then.
fn log_tried(
    log: &mut Log,
    last: u64,
    _encoding: &Encoding,
    _reset: &Bits,
    _state: &Seen,
    _c: u32,
    _k: u32,
    _b: u64,
) -> Result<u64, NoMemory>
    requires unrollable { IsUnrollable _encoding.now _k }
    requires limit { 1 ≤ _b }
    requires so_far { AreRefuted _encoding.now _reset.now _state.now _k _b _c last (reverse log.old) }
    ensures { IfOk result (λ id. AreTried _encoding.now _reset.now _state.now _k _b (_c + 1) _c id (reverse log.new)) }
{
    let end = log_trial(log, last)?;
    Ok(end)
}

/// Logs the first `c + 1` lengths into an empty log, where what follows from reset denies each but the last, and answers the last id.
fn fill_shown(
    alloc: Global,
    log: &mut Log,
    encoding: &Encoding,
    reset: &Bits,
    implied: &Implied,
    state: &Seen,
    c: u32,
    k: u32,
    b: u64,
) -> Result<Option<u64>, NoMemory>
    requires within { c < k }
    requires unrollable { IsUnrollable encoding.now k }
    requires starts { length encoding.now.states ≡ length reset.now }
    requires width { length encoding.now.next ≡ length state.now.bits }
    requires limit { 1 ≤ b }
    requires empty { log.old ≡ [] }
    ensures { IfOk result (λ o. IfSome o (λ id. AreTried encoding.now reset.now state.now k b (c + 1) c id (reverse log.new))) }
{
    let found = fill(alloc, log, encoding, reset, implied, state, c, k, b)?;
    match found {
        None => Ok(None),
        Some(last) => {
            let id = log_tried(log, last, encoding, reset, state, c, k, b)?;
            Ok(Some(id))
        }
    }
}

/// The log of the first `c + 1` lengths, where what follows from reset denies each but the last.
fn log_shown(
    alloc: Global,
    encoding: &Encoding,
    reset: &Bits,
    implied: &Implied,
    state: &Seen,
    c: u32,
    k: u32,
    b: u64,
) -> Result<Option<Log>, NoMemory>
    requires within { c < k }
    requires unrollable { IsUnrollable encoding.now k }
    requires starts { length encoding.now.states ≡ length reset.now }
    requires width { length encoding.now.next ≡ length state.now.bits }
    requires limit { 1 ≤ b }
    ensures { IfOk result (λ o. IfSome o (IsLogOfLengths encoding.now reset.now state.now k b (c + 1) c)) }
{
    let mut log = Log::new(alloc);
    let last = fill_shown(alloc, &mut log, encoding, reset, implied, state, c, k, b)?;
    match last {
        None => Ok(None),
        Some(_id) => Ok(Some(log)),
    }
}

/// The answer that an execution of `c + 1` cycles and a log make.
fn with_execution(c: u32, k: u32, b: u64, execution: Execution, log: Log) -> Reach
    ensures { result ≡ record { asked = k; conflicts = b; outcome = Reached (c + 1); states = execution.states; inputs = execution.inputs; log = log } }
{
    Reach {
        asked: u64::from(k),
        conflicts: b,
        outcome: Outcome::Reached(u64::from(c) + 1),
        states: execution.states,
        inputs: execution.inputs,
        log,
    }
}

/// The same where the log refutes each shorter length.
fn as_shown(
    net: &Netlist,
    _encoding: &Encoding,
    _state: &Seen,
    execution: Execution,
    c: u32,
    k: u32,
    b: u64,
    log: Log,
) -> Reach
    requires encoded { _encoding.now ≡ encoding_of (circuit net.now) [] }
    requires within { c < k }
    requires other { Shows _state.now (reset_state (circuit net.now)) → ⊥ }
    requires run { IsExecution (circuit net.now) (c + 1) _state.now execution.states execution.inputs }
    requires log { IsLogOfLengths _encoding.now (reset_state (circuit net.now)) _state.now k b (c + 1) c log }
    ensures { IsReach (circuit net.now) _state.now k b result }
{
    unrolled_clauses_are_executions(net);
    with_execution(c, k, b, execution, log)
}

/// The same where what follows from reset denies each shorter length.
fn tell_shown(
    alloc: Global,
    net: &Netlist,
    encoding: &Encoding,
    implied: &Implied,
    state: &Seen,
    execution: Execution,
    c: u32,
    k: u32,
    b: u64,
) -> Result<Option<Reach>, NoMemory>
    requires encoded { encoding.now ≡ encoding_of (circuit net.now) [] }
    requires width { length state.now.bits ≡ length (circuit net.now).flops }
    requires within { c < k }
    requires cycles { k ≤ MAX_FRAMES }
    requires room { k * variables (circuit net.now) [] ≤ MAX_FRAME_VARIABLES }
    requires limit { 1 ≤ b }
    requires other { Shows state.now (reset_state (circuit net.now)) → ⊥ }
    requires run { IsExecution (circuit net.now) (c + 1) state.now execution.states execution.inputs }
    ensures { IfOk result (λ o. IfSome o (IsReach (circuit net.now) state.now k b)) }
{
    netlists_unroll(net, k);
    let found = log_shown(alloc, encoding, net.reset(), implied, state, c, k, b)?;
    match found {
        None => Ok(None),
        Some(log) => Ok(Some(as_shown(net, encoding, state, execution, c, k, b, log))),
    }
}

/// The answer where an execution of `c + 1` cycles is found and what follows from reset denies each shorter length.
pub(crate) fn look_shown(
    alloc: Global,
    net: &Netlist,
    encoding: &Encoding,
    implied: &Implied,
    state: &Seen,
    c: u32,
    k: u32,
    b: u64,
) -> Result<Option<Reach>, NoMemory>
    requires encoded { encoding.now ≡ encoding_of (circuit net.now) [] }
    requires width { length state.now.bits ≡ length (circuit net.now).flops }
    requires within { c < k }
    requires cycles { k ≤ MAX_FRAMES }
    requires room { k * variables (circuit net.now) [] ≤ MAX_FRAME_VARIABLES }
    requires limit { 1 ≤ b }
    requires other { Shows state.now (reset_state (circuit net.now)) → ⊥ }
    ensures { IfOk result (λ o. IfSome o (IsReach (circuit net.now) state.now k b)) }
{
    let limit = if b < MAX_LEMMAS { b } else { MAX_LEMMAS };
    let found = execution_of(alloc, net, encoding, state, c + 1, limit)?;
    match found {
        None => Ok(None),
        Some(execution) => tell_shown(alloc, net, encoding, implied, state, execution, c, k, b),
    }
}
