//! The search over the lengths, one after another.
ghost use Rattle.std.specs.Prelude.{◌≡◌, ◌+◌, ◌<◌, ◌≤◌, length, IfOk};
ghost use Rattle.bs_reach_unrolled.specs.Room.{IsUnrollable};
ghost use Rattle.bs_reach.specs.Search.{IsBetween};
ghost use Rattle.bs_reach.specs.Ends.{EndsAs};
ghost use Rattle.bs_reach.specs.FailedAssumptions.{AreFailedAssumptions};

use crate::length::{Trial, next_length};
use bs_clause::NoMemory;
use bs_encode::Encoding;
use bs_scan::Seen;
use bs_solve::{FailedAssumption, Solver};
use bs_solve_lemmas::Solution;
use std::alloc::Global;
use std::collections::VecDeque;

/// How the search ends, with the time frame that was to lead to the state.
#[derive(Drop)]
pub(crate) enum End {
    /// These values show an execution.
    Reached(u32, Solution),
    /// Each length is refuted.
    Unreached,
    /// The limit of lemmas was reached.
    Unknown(u32),
}

/// Tries the lengths from 1 to `k` until one is not refuted, the first ones by these lemmas.
pub(crate) fn search(
    alloc: Global,
    encoding: &Encoding,
    solver: &mut Solver,
    failed_assumptions: &mut VecDeque<FailedAssumption>,
    state: &Seen,
    k: u32,
    b: u64,
) -> Result<End, NoMemory>
    requires unrollable { IsUnrollable encoding.now k }
    requires width { length encoding.now.next ≡ length state.now.bits }
    requires limit { 1 ≤ b }
    requires start { IsBetween solver.old.proof.problem.clauses encoding.now k state.now b 0 solver.old }
    requires failed_assumptions { AreFailedAssumptions solver.old.proof.problem.clauses encoding.now k state.now 0 failed_assumptions.old.items }
    ensures { IfOk result (EndsAs solver.old.proof.problem.clauses encoding.now k state.now b solver.new) }
{
    'lengths: for c in 0..k {
        match next_length(alloc, encoding, solver, failed_assumptions, state, c, k, b)? {
            Trial::Shown(values) => return Ok(End::Reached(c, values)),
            Trial::Refuted => {}
            Trial::Spent => return Ok(End::Unknown(c)),
        }
    }
    Ok(End::Unreached)
}
