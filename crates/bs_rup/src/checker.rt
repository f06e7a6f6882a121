//! The state of the checker between two lines, and the rules that a line is tried by.
ghost use Rattle.std.specs.Prelude.{◌≡◌, ◌+◌, ◌≤◌, ◌-◌, [], ◌∷◌, length, unwrap_or, slice_get, IfOk, OnOk, IsSome, Some, option_map, false};
ghost use Rattle.bs_log.specs.History.{State, state_of};
ghost use Rattle.bs_log.specs.Refusal.{is_block_of, assumptions_of, in_order, is_complete, refusal, is_between_steps};
ghost use Rattle.bs_rup.specs.LiveClauses.{live_from};
ghost use Rattle.bs_rup.specs.Problem.{meaning};
ghost use Rattle.bs_rup.specs.Retired.{retired_unit};
ghost use Rattle.bs_rup.specs.Rules.{all_may_go, all_stand, block_refusal, delete_refusal, finish_refusal, lemma_refusal};
ghost use Rattle.bs_rup.specs.Follows.{IsAfter, IsRetire, NamesGivenIds};

use crate::hints::{hints_fault, is_false};
use crate::line_forms::{is_ascending, is_block_of};
use crate::live_clauses::{Stored, add, axioms, entry_at, remove};
use crate::problem::Problem;
use crate::trail::{TrueLiterals, set_false, set_true};
use bs_bits::NoMemory;
use bs_clause::{Lit, Lits, VARIABLE_LIMIT};
use bs_log::{Line, Origin, Phase, Why};
use std::alloc::Global;
use std::marker::Model;

/// What the lines so far leave.
#[derive(Drop)]
pub struct Checker<'a> {
    phase: Phase,
    step: u64,
    stored: Vec<Stored<'a>>,
}

impl<'a> Model for Checker<'a> {
    ghost use Rattle.std.specs.Prelude.{length};
    ghost use Rattle.bs_log.specs.History.{State};
    ghost use Rattle.bs_rup.specs.LiveClauses.{live_from};

    ghost Value = { State };

    ghost view = { λ c. record { phase = c.phase; step = c.step; last_id = length c.stored.items; live = live_from 1 c.stored.items } };
}

impl<'a> Checker<'a> {
    /// The state before any line.
    pub fn new(alloc: Global, problem: &Problem<'a>) -> Result<Checker<'a>, NoMemory>
        ensures { IfOk result (λ c. c ≡ state_of (meaning problem.now) []) }
    {
        let stored = axioms(alloc, problem.clauses.slice())?;
        Ok(Checker {
            phase: Phase::BetweenSteps,
            step: 1,
            stored,
        })
    }

    /// Why the line is refused, if it is. The trail may hold anything before and after.
    pub fn refusal(
        &self,
        trail: &mut TrueLiterals,
        problem: &Problem<'a>,
        line: &Line,
    ) -> Result<Option<Why>, NoMemory>
        requires { problem.now.vars + self.now.step ≤ VARIABLE_LIMIT }
        ensures { IfOk result (λ why. why ≡ refusal (meaning problem.now) self.now line.now) }
    {
        if !self.in_order(problem, line) {
            return Ok(Some(Why::Order));
        }
        match line {
            Line::Solve => Ok(None),
            Line::Lemma { lits, hints, .. } => self.lemma_fault(trail, lits.slice(), hints.slice()),
            Line::Block { lits, .. } => self.block_fault(trail, problem, lits.slice()),
            Line::Finish { id } => self.finish_fault(trail, problem, *id),
            Line::Retire { .. } => Ok(None),
            Line::Delete { ids } => Ok(self.delete_fault(ids.slice())),
        }
    }

    /// Whether the line stands where it may, gives the next id, and lists ids that ascend.
    fn in_order(&self, problem: &Problem<'a>, line: &Line) -> bool
        requires { self.now.step ≤ VARIABLE_LIMIT }
        ensures { result ≡ in_order (meaning problem.now) self.now line.now }
    {
        let next = self.stored.len() as u64 + 1;
        match line {
            Line::Solve => {
                self.phase == Phase::AfterBlock
                    || (is_between_steps(self.phase) && self.step <= problem.steps.len() as u64)
            }
            Line::Lemma { id, .. } => self.phase == Phase::InSolve && *id == next,
            Line::Block { id, .. } => self.phase == Phase::InSolve && *id == next,
            Line::Finish { .. } => self.phase == Phase::InSolve,
            Line::Retire { id } => !is_between_steps(self.phase) && *id == next,
            Line::Delete { ids } => self.phase == Phase::AfterRetire && is_ascending(ids.slice()),
        }
    }

    /// The first rule behind the order that a lemma breaks.
    fn lemma_fault(
        &self,
        trail: &mut TrueLiterals,
        lits: &[Lit],
        hints: &[u64],
    ) -> Result<Option<Why>, NoMemory>
        ensures { IfOk result (λ why. why ≡ lemma_refusal self.now.live lits.now hints.now) }
    {
        if !all_stand(self.stored.as_slice(), hints) {
            return Ok(Some(Why::NoClause));
        }
        if !set_false(trail, lits)? {
            return Ok(Some(Why::Duplicate));
        }
        hints_fault(trail, self.stored.as_slice(), hints)
    }

    /// The first rule behind the order that a block breaks.
    fn block_fault(
        &self,
        trail: &mut TrueLiterals,
        problem: &Problem<'a>,
        lits: &[Lit],
    ) -> Result<Option<Why>, NoMemory>
        requires { problem.now.vars + self.now.step ≤ VARIABLE_LIMIT }
        ensures { IfOk result (λ why. why ≡ block_refusal (meaning problem.now) self.now.step lits.now) }
    {
        if !set_false(trail, lits)? {
            return Ok(Some(Why::Duplicate));
        }
        if is_block_of(problem.vars, self.step, lits) {
            Ok(None)
        } else {
            Ok(Some(Why::BadBlock))
        }
    }

    /// The first rule behind the order that a finish line breaks.
    fn finish_fault(
        &self,
        trail: &mut TrueLiterals,
        problem: &Problem<'a>,
        id: u64,
    ) -> Result<Option<Why>, NoMemory>
        ensures { IfOk result (λ why. why ≡ finish_refusal self.now.live (assumptions_of (meaning problem.now) self.now.step) id) }
    {
        set_true(trail, assumptions_of(problem, self.step))?;
        Ok(self.end_fault(trail, id))
    }

    /// The same, where the assumptions are set true.
    fn end_fault(&self, trail: &TrueLiterals, id: u64) -> Option<Why>
        ensures { result ≡ finish_refusal self.now.live trail.now id }
    {
        match entry_at(self.stored.as_slice(), id) {
            None => Some(Why::NoClause),
            Some(entry) => {
                if entry.origin != Origin::Learnt {
                    return Some(Why::NoClause);
                }
                if is_false(trail, entry.lits) {
                    None
                } else {
                    Some(Why::BadEnd)
                }
            }
        }
    }

    /// The rule behind the order that a delete line breaks.
    fn delete_fault(&self, ids: &[u64]) -> Option<Why>
        ensures { result ≡ delete_refusal self.now.live ids.now }
    {
        if all_may_go(self.stored.as_slice(), ids) {
            None
        } else {
            Some(Why::NoClause)
        }
    }

    /// Goes on past a line that is not refused. A retire line adds the unit.
    pub fn add(&mut self, vars: u32, retired: &'a [Lit], line: &'a Line) -> Result<(), NoMemory>
        requires activation { (1 ≤ self.old.step) × (vars + self.old.step ≤ VARIABLE_LIMIT) }
        requires retire { IsRetire line.now → slice_get retired.now (self.old.step - 1) ≡ Some (retired_unit vars self.old.step) }
        requires ids { NamesGivenIds self.old.last_id line.now }
        ensures { OnOk result (IsAfter vars self.old line.now self.new) }
    {
        match line {
            Line::Solve => self.phase = Phase::InSolve,
            Line::Lemma { lits, .. } => {
                add(&mut self.stored, Origin::Learnt, lits.slice())?;
                self.phase = Phase::InSolve;
            }
            Line::Block { lits, .. } => {
                add(&mut self.stored, Origin::Blocked, lits.slice())?;
                self.phase = Phase::AfterBlock;
            }
            Line::Finish { .. } => self.phase = Phase::AfterFinish,
            Line::Retire { .. } => {
                let unit = unit_at(retired, self.step);
                add(&mut self.stored, Origin::Retired, unit)?;
                self.step += 1;
                self.phase = Phase::AfterRetire;
            }
            Line::Delete { ids } => {
                remove(&mut self.stored, ids.slice());
                self.phase = Phase::BetweenSteps;
            }
        }
        Ok(())
    }

    /// Whether the log may end here.
    pub fn is_complete(&self, problem: &Problem<'a>) -> bool
        ensures { result ≡ is_complete (meaning problem.now) self.now }
    {
        is_between_steps(self.phase)
            && self.step >= 1
            && self.step - 1 == problem.steps.len() as u64
    }
}

/// Whether no step is under way.
fn is_between_steps(phase: Phase) -> bool
    ensures { result ≡ is_between_steps phase }
{
    phase == Phase::BetweenSteps || phase == Phase::AfterRetire
}

/// Whether each id names a live clause.
fn all_stand<'a>(stored: &[Stored<'a>], ids: &[u64]) -> bool
    ensures { result ≡ all_stand (live_from 1 stored.now) ids.now }
{
    for id in ids {
        if entry_at(stored, *id).is_none() {
            return false;
        }
    }
    true
}

/// Whether each id names a live lemma or block.
fn all_may_go<'a>(stored: &[Stored<'a>], ids: &[u64]) -> bool
    ensures { result ≡ all_may_go (live_from 1 stored.now) ids.now }
{
    for id in ids {
        match entry_at(stored, *id) {
            None => return false,
            Some(entry) => {
                if entry.origin != Origin::Learnt && entry.origin != Origin::Blocked {
                    return false;
                }
            }
        }
    }
    true
}

/// The assumptions of a step.
fn assumptions_of<'a>(problem: &Problem<'a>, step: u64) -> &'a [Lit]
    ensures { result.now ≡ assumptions_of (meaning problem.now) step }
{
    let steps = problem.steps.slice();
    if step == 0 {
        return first_of(steps);
    }
    let place = (step - 1) as usize;
    if place < steps.len() {
        steps[place].slice()
    } else {
        &[]
    }
}

fn first_of(steps: &[Lits]) -> &[Lit]
    ensures { result.now ≡ unwrap_or (slice_get steps.now 0) [] }
{
    match steps {
        [] => &[],
        [first, ..] => first.slice(),
    }
}

/// The unit of a step's retire line, as a clause, among those of all steps.
fn unit_at(retired: &[Lit], step: u64) -> &[Lit]
    requires first { 1 ≤ step }
    requires there { IsSome (slice_get retired.now (step - 1)) }
    ensures { option_map (λ l. l ∷ []) (slice_get retired.now (step - 1)) ≡ Some result.now }
{
    let place = (step - 1) as usize;
    &retired[place..place + 1]
}
