//! The verdict on a log, found line by line.
ghost use Rattle.std.specs.Prelude.{◌≡◌, ◌+◌, ◌<◌, [], length, IfOk};
ghost use Rattle.bs_log.specs.History.{state_of};
ghost use Rattle.bs_rup.specs.Problem.{meaning};
ghost use Rattle.bs_rup.specs.Retired.{retired_units};
ghost use Rattle.bs_rup.specs.Verdict.{IsVerdict, RefusesTheFirst, problem_of};

use crate::checker::Checker;
use crate::problem::Problem;
use crate::trail::TrueLiterals;
use bs_bits::{List, NoMemory};
use bs_clause::{Clauses, Lit, Lits, VARIABLE_LIMIT, Var};
use bs_log::{Line, Log, Why};
use std::alloc::Global;

/// What the checker says of a log.
#[derive(Clone, Copy, PartialEq, Eq)]
pub enum Verdict {
    /// No line is refused.
    Accepted,
    /// The first refused line, counted from 1, and the first reason in the order of `Why`. A log that ends inside a step
    /// is refused at the line behind its last one.
    Rejected { line: u64, why: Why },
}

/// Whether a log is right, or else its first refused line with the first reason (docs/FORMATS.md, "The log"). The clauses
/// are over the variables 1 to `vars` and have the ids 1, 2, 3 and so on; member i of `steps`, from 1, is the assumptions of
/// step i, of which the activation literal is variable `vars` + i.
pub fn check(
    alloc: Global,
    vars: u32,
    clauses: &Clauses,
    steps: &List<Lits>,
    log: &Log,
) -> Result<Verdict, NoMemory>
    requires { vars + length steps.now < VARIABLE_LIMIT }
    ensures verdict { IfOk result (IsVerdict (problem_of vars clauses.now steps.now) log.now) }
    ensures first { IfOk result (RefusesTheFirst (problem_of vars clauses.now steps.now) log.now) }
{
    verdict_of(alloc, vars, clauses, steps, log)
}

/// The verdict, found by going through the lines.
fn verdict_of(
    alloc: Global,
    vars: u32,
    clauses: &Clauses,
    steps: &List<Lits>,
    log: &Log,
) -> Result<Verdict, NoMemory>
    requires { vars + length steps.now < VARIABLE_LIMIT }
    ensures { IfOk result (IsVerdict (problem_of vars clauses.now steps.now) log.now) }
{
    let problem = Problem {
        vars,
        clauses,
        steps,
    };
    let retired = retired(alloc, vars, steps.len())?;
    verdict_with(alloc, &problem, retired.slice(), log.slice())
}

/// The same, with the units of the steps' retire lines.
fn verdict_with<'a>(
    alloc: Global,
    problem: &Problem<'a>,
    retired: &'a [Lit],
    lines: &'a [Line],
) -> Result<Verdict, NoMemory>
    requires room { problem.now.vars + length problem.now.steps.now < VARIABLE_LIMIT }
    requires retired { retired.now ≡ retired_units problem.now.vars (length problem.now.steps.now) }
    ensures { IfOk result (IsVerdict (meaning problem.now) lines.now) }
{
    let mut trail = TrueLiterals::new(alloc, problem.vars as usize + problem.steps.len() + 1)?;
    let mut state = Checker::new(alloc, problem)?;
    verdict_from(&mut state, &mut trail, problem, retired, lines)
}

/// The same, from the state before any line.
fn verdict_from<'a>(
    state: &mut Checker<'a>,
    trail: &mut TrueLiterals,
    problem: &Problem<'a>,
    retired: &'a [Lit],
    lines: &'a [Line],
) -> Result<Verdict, NoMemory>
    requires room { problem.now.vars + length problem.now.steps.now < VARIABLE_LIMIT }
    requires retired { retired.now ≡ retired_units problem.now.vars (length problem.now.steps.now) }
    requires state { state.old ≡ state_of (meaning problem.now) [] }
    ensures { IfOk result (IsVerdict (meaning problem.now) lines.now) }
{
    for i in 0..lines.len() {
        let line = &lines[i];
        match state.refusal(trail, problem, line)? {
            Some(why) => {
                return Ok(Verdict::Rejected {
                    line: i as u64 + 1,
                    why,
                });
            }
            None => state.add(problem.vars, retired, line)?,
        }
    }
    if state.is_complete(problem) {
        Ok(Verdict::Accepted)
    } else {
        Ok(Verdict::Rejected {
            line: lines.len() as u64 + 1,
            why: Why::Order,
        })
    }
}

/// The negations of the activation literals of this many steps, in order.
fn retired(alloc: Global, vars: u32, count: usize) -> Result<Lits, NoMemory>
    requires { vars + count < VARIABLE_LIMIT }
    ensures { IfOk result (λ units. units ≡ retired_units vars count) }
{
    let mut units = Lits::new(alloc);
    for i in 0..count {
        let activation = vars + i as u32 + 1;
        units.push(Lit::new(Var(activation), false))?;
    }
    Ok(units)
}
