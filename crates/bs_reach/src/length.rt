//! One length: a step of the log, in which it is shown or refuted that the state is reached in so many cycles.
ghost use Rattle.std.specs.Prelude.{◌≡◌, ◌+◌, ◌<◌, ◌≤◌, length, IfOk, OnOk};
ghost use Rattle.bs_reach_unrolled.specs.Room.{IsUnrollable};
ghost use Rattle.bs_reach_unrolled.specs.Unrolled.{length_assumes};
ghost use Rattle.bs_solve.specs.Failure.{FailsBy};
ghost use Rattle.bs_reach.specs.Search.{IsBetween, TriesTo};
ghost use Rattle.bs_reach.specs.FailedAssumptions.{AreFailedAssumptions};

use bs_clause::NoMemory;
use bs_encode::Encoding;
use bs_reach_unrolled::assume_length;
use bs_scan::Seen;
use bs_solve::{FailedAssumption, Solver};
use bs_solve_lemmas::{Answer, Solution};
use std::alloc::Global;
use std::collections::VecDeque;

/// What the trial of a length comes to.
#[derive(Drop)]
pub(crate) enum Trial {
    /// These values show an execution of this length.
    Shown(Solution),
    /// There is none.
    Refuted,
    /// The limit of lemmas was reached.
    Spent,
}

/// Tries the length `c + 1`, in which time frame number `c` leads to the state.
fn try_length(
    alloc: Global,
    encoding: &Encoding,
    solver: &mut Solver,
    state: &Seen,
    c: u32,
    k: u32,
    b: u64,
) -> Result<Trial, NoMemory>
    requires unrollable { IsUnrollable encoding.now k }
    requires within { c < k }
    requires width { length encoding.now.next ≡ length state.now.bits }
    requires limit { 1 ≤ b }
    requires between { IsBetween solver.old.proof.problem.clauses encoding.now k state.now b c solver.old }
    ensures { IfOk result (TriesTo solver.old.proof.problem.clauses encoding.now k state.now b c solver.new) }
{
    solver.log();
    let activation = solver.begin_step()?;
    let assumptions = assume_length(alloc, encoding, activation, state, c, k)?;
    match solver.solve(alloc, &assumptions, b)? {
        Answer::Found(values) => {
            solver.end_step(alloc, None)?;
            Ok(Trial::Shown(values))
        }
        Answer::Refuted(id) => {
            solver.end_step(alloc, Some(id))?;
            Ok(Trial::Refuted)
        }
        Answer::Spent => {
            solver.end_step(alloc, None)?;
            Ok(Trial::Spent)
        }
    }
}

/// Refutes the length `c + 1` by a lemma that what follows from reset alone gives, without a search.
fn deny_length(
    alloc: Global,
    encoding: &Encoding,
    solver: &mut Solver,
    failed_assumption: FailedAssumption,
    state: &Seen,
    c: u32,
    k: u32,
    _b: u64,
) -> Result<(), NoMemory>
    requires unrollable { IsUnrollable encoding.now k }
    requires within { c < k }
    requires width { length encoding.now.next ≡ length state.now.bits }
    requires limit { 1 ≤ _b }
    requires between { IsBetween solver.old.proof.problem.clauses encoding.now k state.now _b c solver.old }
    requires failed_assumption { FailsBy solver.old.proof.problem.clauses (length_assumes encoding.now k state.now (c + 1)) failed_assumption }
    ensures { OnOk result (IsBetween solver.old.proof.problem.clauses encoding.now k state.now _b (c + 1) solver.new) }
{
    let activation = solver.begin_step()?;
    let assumed = assume_length(alloc, encoding, activation, state, c, k)?;
    let end = solver.solve_denied(alloc, &assumed, failed_assumption)?;
    solver.end_step(alloc, Some(end))?;
    Ok(())
}

/// Tries the length `c + 1`: by the first lemma of those that are left, or by a search where none is.
pub(crate) fn next_length(
    alloc: Global,
    encoding: &Encoding,
    solver: &mut Solver,
    failed_assumptions: &mut VecDeque<FailedAssumption>,
    state: &Seen,
    c: u32,
    k: u32,
    b: u64,
) -> Result<Trial, NoMemory>
    requires unrollable { IsUnrollable encoding.now k }
    requires within { c < k }
    requires width { length encoding.now.next ≡ length state.now.bits }
    requires limit { 1 ≤ b }
    requires between { IsBetween solver.old.proof.problem.clauses encoding.now k state.now b c solver.old }
    requires failed_assumptions { AreFailedAssumptions solver.old.proof.problem.clauses encoding.now k state.now c failed_assumptions.old.items }
    ensures tries { IfOk result (TriesTo solver.old.proof.problem.clauses encoding.now k state.now b c solver.new) }
    ensures left { IfOk result (λ _. AreFailedAssumptions solver.new.proof.problem.clauses encoding.now k state.now (c + 1) failed_assumptions.new.items) }
{
    match failed_assumptions.pop_front() {
        Some(failed_assumption) => {
            deny_length(alloc, encoding, solver, failed_assumption, state, c, k, b)?;
            Ok(Trial::Refuted)
        }
        None => {
            let trial = try_length(alloc, encoding, solver, state, c, k, b)?;
            Ok(trial)
        }
    }
}
