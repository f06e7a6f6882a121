//! Answers: of a search over so many time frames, and those that want no search.
ghost use Rattle.std.specs.Prelude.{◌≡◌, ◌≢◌, ◌*◌, ◌≤◌, [], length, IfOk, IfSome};
ghost use Rattle.bs_scan.specs.Seen.{Shows};
ghost use Rattle.bs_net.specs.Circuit.{reset_state};
ghost use Rattle.bs_net.specs.Netlist.{circuit};
ghost use Rattle.bs_encode.specs.Transition.{variables};
ghost use Rattle.bs_encode.specs.Encoded.{encoding_of};
ghost use Rattle.bs_reach_unrolled.specs.declared.limits.TheConstants.{MAX_FRAMES, MAX_FRAME_VARIABLES};
ghost use Rattle.bs_reach_unrolled.specs.Room.{IsUnrollable};
ghost use Rattle.bs_reach_unrolled.specs.Unrolled.{unrolled};
ghost use Rattle.bs_reach.specs.Search.{fresh_over, IsBetween};
ghost use Rattle.bs_reach.specs.FailedAssumptions.{AreFailedAssumptions};
ghost use Rattle.bs_reach.specs.Refuted.{IsLogOfLengths};
ghost use Rattle.bs_reach.specs.Reach.{IsReach};
ghost use Rattle.bs_reach.specs.Sought.{HasSought, TellsEnd};

use crate::failed_assumptions::first_failed_assumptions;
use crate::reach::{Outcome, Reach};
use crate::refuted::log_of;
use crate::search::search;
use crate::telling::{Verdict, tell, without_states};
use bs_bits::{Bits, List};
use bs_clause::NoMemory;
use bs_encode::Encoding;
use bs_log::Log;
use bs_net::Netlist;
use bs_reach_unrolled::{Implied, netlists_unroll, unroll, unrolled_clauses_are_executions};
use bs_scan::Seen;
use bs_solve::{FailedAssumption, Solver};
use std::alloc::Global;
use std::collections::VecDeque;

/// A search that begins: a solver, and the lemmas of the first lengths.
#[derive(Drop)]
struct SearchStart {
    solver: Solver,
    failed_assumptions: VecDeque<FailedAssumption>,
}

/// A solver over the unrolled clauses.
fn solver_over(alloc: Global, encoding: &Encoding, reset: &Bits, k: u32) -> Result<Solver, NoMemory>
    requires some { 1 ≤ k }
    requires unrollable { IsUnrollable encoding.now k }
    requires starts { length encoding.now.states ≡ length reset.now }
    ensures { IfOk result (λ s. s ≡ fresh_over (unrolled encoding.now reset.now k) encoding.now k) }
{
    let clauses = unroll(alloc, encoding, reset, k)?;
    let solver = Solver::new(alloc, k * encoding.vars(), clauses)?;
    Ok(solver)
}

/// The same, with what follows from reset of the first lengths.
fn start_of(
    alloc: Global,
    encoding: &Encoding,
    reset: &Bits,
    implied: &Implied,
    state: &Seen,
    k: u32,
) -> Result<SearchStart, NoMemory>
    requires some { 1 ≤ k }
    requires unrollable { IsUnrollable encoding.now k }
    requires starts { length encoding.now.states ≡ length reset.now }
    requires width { length encoding.now.next ≡ length state.now.bits }
    ensures solver { IfOk result (λ s. s.solver ≡ fresh_over (unrolled encoding.now reset.now k) encoding.now k) }
    ensures failed_assumptions { IfOk result (λ s. AreFailedAssumptions s.solver.proof.problem.clauses encoding.now k state.now 0 s.failed_assumptions.items) }
{
    let failed_assumptions = first_failed_assumptions(alloc, encoding, reset, implied, state, k)?;
    let solver = solver_over(alloc, encoding, reset, k)?;
    Ok(SearchStart {
        solver,
        failed_assumptions,
    })
}

/// The answer where the state at reset shows this one.
pub(crate) fn at_reset(
    alloc: Global,
    net: &Netlist,
    state: &Seen,
    k: u64,
    b: u64,
) -> Result<Reach, NoMemory>
    requires { Shows state.now (reset_state (circuit net.now)) }
    ensures { IfOk result (IsReach (circuit net.now) state.now k b) }
{
    let mut states = List::new(alloc);
    states.push(net.reset().copy()?)?;
    Ok(Reach {
        asked: k,
        conflicts: b,
        outcome: Outcome::Reached(0),
        states,
        inputs: List::new(alloc),
        log: Log::new(alloc),
    })
}

/// The answer where no cycle is asked for and the state at reset does not show this one.
pub(crate) fn never(alloc: Global, net: &Netlist, state: &Seen, b: u64) -> Reach
    requires { Shows state.now (reset_state (circuit net.now)) → ⊥ }
    ensures { IsReach (circuit net.now) state.now 0 b result }
{
    Reach {
        asked: 0,
        conflicts: b,
        outcome: Outcome::Unreached,
        states: List::new(alloc),
        inputs: List::new(alloc),
        log: Log::new(alloc),
    }
}

/// The answer with what the end of a search tells, and its log.
fn answered(k: u32, b: u64, told: Verdict, log: Log) -> Reach
    ensures { result ≡ record { asked = k; conflicts = b; outcome = told.outcome; states = told.states; inputs = told.inputs; log = log } }
{
    Reach {
        asked: u64::from(k),
        conflicts: b,
        outcome: told.outcome,
        states: told.states,
        inputs: told.inputs,
        log,
    }
}

/// What the search by a solver that was just made tells.
fn sought(
    alloc: Global,
    encoding: &Encoding,
    solver: &mut Solver,
    failed_assumptions: &mut VecDeque<FailedAssumption>,
    state: &Seen,
    k: u32,
    b: u64,
) -> Result<Verdict, NoMemory>
    requires unrollable { IsUnrollable encoding.now k }
    requires width { length encoding.now.next ≡ length state.now.bits }
    requires limit { 1 ≤ b }
    requires start { IsBetween solver.old.proof.problem.clauses encoding.now k state.now b 0 solver.old }
    requires failed_assumptions { AreFailedAssumptions solver.old.proof.problem.clauses encoding.now k state.now 0 failed_assumptions.old.items }
    ensures { IfOk result (TellsEnd solver.old.proof.problem.clauses encoding.now k state.now b solver.new) }
{
    let end = search(alloc, encoding, solver, failed_assumptions, state, k, b)?;
    let told = tell(alloc, encoding, &end, k)?;
    Ok(told)
}

/// The answer of a search over the clauses of an encoding.
fn seek(
    alloc: Global,
    encoding: &Encoding,
    reset: &Bits,
    implied: &Implied,
    state: &Seen,
    k: u32,
    b: u64,
) -> Result<Reach, NoMemory>
    requires some { 1 ≤ k }
    requires unrollable { IsUnrollable encoding.now k }
    requires starts { length encoding.now.states ≡ length reset.now }
    requires width { length encoding.now.next ≡ length state.now.bits }
    requires limit { 1 ≤ b }
    ensures { IfOk result (HasSought encoding.now reset.now state.now k b) }
{
    let mut start = start_of(alloc, encoding, reset, implied, state, k)?;
    let told = sought(
        alloc,
        encoding,
        &mut start.solver,
        &mut start.failed_assumptions,
        state,
        k,
        b,
    )?;
    Ok(answered(k, b, told, start.solver.into_log()))
}

/// The answer with the log of lengths that are all refuted.
fn as_refuted(
    alloc: Global,
    _encoding: &Encoding,
    _reset: &Bits,
    _state: &Seen,
    k: u32,
    b: u64,
    log: Log,
) -> Reach
    requires { IsLogOfLengths _encoding.now _reset.now _state.now k b k k log }
    ensures { HasSought _encoding.now _reset.now _state.now k b result }
{
    answered(k, b, without_states(alloc, Outcome::Unreached), log)
}

/// The answer where what follows from reset denies each length.
fn seek_refuted(
    alloc: Global,
    encoding: &Encoding,
    reset: &Bits,
    implied: &Implied,
    state: &Seen,
    k: u32,
    b: u64,
) -> Result<Option<Reach>, NoMemory>
    requires some { 1 ≤ k }
    requires unrollable { IsUnrollable encoding.now k }
    requires starts { length encoding.now.states ≡ length reset.now }
    requires width { length encoding.now.next ≡ length state.now.bits }
    requires limit { 1 ≤ b }
    ensures { IfOk result (λ o. IfSome o (HasSought encoding.now reset.now state.now k b)) }
{
    let found = log_of(alloc, encoding, reset, implied, state, k, b)?;
    match found {
        None => Ok(None),
        Some(log) => Ok(Some(as_refuted(alloc, encoding, reset, state, k, b, log))),
    }
}

/// The same by the clauses of one cycle, for a bound of one cycle or more, where the state is another one than at reset.
pub(crate) fn look_refuted(
    alloc: Global,
    net: &Netlist,
    encoding: &Encoding,
    implied: &Implied,
    state: &Seen,
    k: u32,
    b: u64,
) -> Result<Option<Reach>, NoMemory>
    requires encoded { encoding.now ≡ encoding_of (circuit net.now) [] }
    requires width { length state.now.bits ≡ length (circuit net.now).flops }
    requires some { 1 ≤ k }
    requires cycles { k ≤ MAX_FRAMES }
    requires room { k * variables (circuit net.now) [] ≤ MAX_FRAME_VARIABLES }
    requires limit { 1 ≤ b }
    requires other { Shows state.now (reset_state (circuit net.now)) → ⊥ }
    ensures { IfOk result (λ o. IfSome o (IsReach (circuit net.now) state.now k b)) }
{
    unrolled_clauses_are_executions(net);
    netlists_unroll(net, k);
    let found = seek_refuted(alloc, encoding, net.reset(), implied, state, k, b)?;
    Ok(found)
}

/// The answer by the clauses of one cycle, for a bound of one cycle or more, where the state is another one than at reset.
pub(crate) fn look_over(
    alloc: Global,
    net: &Netlist,
    encoding: &Encoding,
    implied: &Implied,
    state: &Seen,
    k: u32,
    b: u64,
) -> Result<Reach, NoMemory>
    requires encoded { encoding.now ≡ encoding_of (circuit net.now) [] }
    requires width { length state.now.bits ≡ length (circuit net.now).flops }
    requires some { 1 ≤ k }
    requires cycles { k ≤ MAX_FRAMES }
    requires room { k * variables (circuit net.now) [] ≤ MAX_FRAME_VARIABLES }
    requires limit { 1 ≤ b }
    requires other { Shows state.now (reset_state (circuit net.now)) → ⊥ }
    ensures { IfOk result (IsReach (circuit net.now) state.now k b) }
{
    unrolled_clauses_are_executions(net);
    netlists_unroll(net, k);
    let reach = seek(alloc, encoding, net.reset(), implied, state, k, b)?;
    Ok(reach)
}
