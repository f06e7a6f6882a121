//! A solver over the folded clauses, whose log is let go.
ghost use Rattle.std.specs.Prelude.{◌≡◌, ◌≤◌, ◌==◌, ◌∷◌, [], true, length, All, IfOk, IfSome};
ghost use Rattle.std.specs.Bool.{OnTrue};
ghost use Rattle.std.specs.List.{list_any};
ghost use Rattle.bs_log.specs.Refusal.{has_distinct_variables};
ghost use Rattle.bs_clause.specs.Range.{HasVariables};
ghost use Rattle.bs_reach_execution.specs.Search.{IsFresh};

use crate::folding::{Folded, MAX_WIDE, backward, clauses_of};
use crate::numbers::{NONE, TRUE, number_or};
use bs_bits::{Bits, List};
use bs_clause::{Clauses, Lit, Lits, NoMemory, Var};
use bs_solve::Solver;
use bs_solve_lemmas::{Answer, Solution};
use std::alloc::Global;

/// There are at most so many variables where clauses are searched.
/// Half of those that a literal may have, so that the solver has room for its own.
const MAX_VARIABLES: u32 = 1 << 29;

/// Whether the clause is over the variables 1 to a number.
fn is_over(vars: u32, clause: &[Lit]) -> bool
    ensures { OnTrue result (HasVariables vars clause.now) }
{
    for l in clause {
        if vars < l.var().0 {
            return false;
        }
    }
    true
}

/// Whether a literal of the variable stands in the clause.
fn has_variable(clause: &[Lit], variable: u32) -> bool
    ensures { result ≡ list_any (λ m. m.variable == variable) clause.now }
{
    for m in clause {
        if m.var().0 == variable {
            return true;
        }
    }
    false
}

/// Whether no variable stands in the clause twice.
fn is_distinct(clause: &[Lit]) -> bool
    ensures { OnTrue result (has_distinct_variables clause.now ≡ true) }
{
    for i in 0..clause.len() {
        if has_variable(&clause[i + 1..], clause[i].var().0) {
            return false;
        }
    }
    true
}

/// Whether a clause of few literals of distinct variables is over the variables 1 to a number.
fn is_fit(vars: u32, clause: &[Lit]) -> bool
    ensures range { OnTrue result (HasVariables vars clause.now) }
    ensures distinct { OnTrue result (has_distinct_variables clause.now ≡ true) }
{
    clause.len() <= MAX_WIDE && is_over(vars, clause) && is_distinct(clause)
}

/// Whether a solver may begin with these clauses.
fn are_fit(vars: u32, clauses: &[Lits]) -> bool
    ensures range { OnTrue result (All (HasVariables vars) clauses.now) }
    ensures distinct { OnTrue result (All (λ c. has_distinct_variables c ≡ true) clauses.now) }
{
    for c in clauses {
        if !is_fit(vars, c.slice()) {
            return false;
        }
    }
    true
}

/// A solver over these clauses, where they are fit.
fn solver_over(alloc: Global, clauses: Clauses, vars: u32) -> Result<Option<Solver>, NoMemory>
    ensures { IfOk result (λ o. IfSome o (λ s. IsFresh s vars)) }
{
    if vars >= MAX_VARIABLES || !are_fit(vars, clauses.slice()) {
        return Ok(None);
    }
    let solver = Solver::new(alloc, vars, clauses)?;
    Ok(Some(solver))
}

/// A clause of one literal.
fn one(alloc: Global, l: Lit) -> Result<Lits, NoMemory>
    ensures { IfOk result (λ c. c ≡ l ∷ []) }
{
    let mut clause = Lits::new(alloc);
    clause.push(l)?;
    Ok(clause)
}

/// Values that meet the clauses of a solver that was just made, if they are found with fewer lemmas than this.
fn values_by(
    alloc: Global,
    solver: &mut Solver,
    conflicts: u64,
) -> Result<Option<Solution>, NoMemory>
    requires fresh { IsFresh solver.old solver.old.vars }
    requires limit { 1 ≤ conflicts }
    ensures { IfOk result (λ o. IfSome o (λ values. solver.old.vars ≤ length values)) }
{
    let activation = solver.begin_step()?;
    let assumptions = one(alloc, activation)?;
    match solver.solve(alloc, &assumptions, conflicts)? {
        Answer::Found(values) => Ok(Some(values)),
        Answer::Refuted(_) => Ok(None),
        Answer::Spent => Ok(None),
    }
}

/// The bit that a constant or the code of a literal shows; false where it is neither.
fn bit_of(values: &Solution, vars: u32, term: u32) -> bool
    requires { vars ≤ length values.now }
{
    let variable = term / 2;
    if term == NONE || variable == 0 || variable > vars {
        return term == TRUE;
    }
    match values.get(Var(variable)) {
        Some(value) => value == (term % 2 == 0),
        None => false,
    }
}

/// The bits that so many terms from a place on show.
fn input_of(
    alloc: Global,
    values: &Solution,
    vars: u32,
    terms: &[u32],
    from: usize,
    width: usize,
) -> Result<Bits, NoMemory>
    requires { vars ≤ length values.now }
{
    let mut input = Bits::new(alloc);
    for i in 0..width {
        let term = number_or(terms, from.wrapping_add(i), NONE);
        input.push(bit_of(values, vars, backward(vars, term)))?;
    }
    Ok(input)
}

/// The inputs of so many cycles.
fn inputs_of(
    alloc: Global,
    values: &Solution,
    vars: u32,
    terms: &[u32],
    width: usize,
    cycles: u32,
) -> Result<List<Bits>, NoMemory>
    requires { vars ≤ length values.now }
{
    let mut inputs = List::new(alloc);
    for c in 0..cycles {
        let from = (c as usize).wrapping_mul(width);
        inputs.push(input_of(alloc, values, vars, terms, from, width)?)?;
    }
    Ok(inputs)
}

/// Values under which the clauses are met, if they are found.
fn found(
    alloc: Global,
    clauses: Clauses,
    vars: u32,
    conflicts: u64,
) -> Result<Option<Solution>, NoMemory>
    requires limit { 1 ≤ conflicts }
    ensures { IfOk result (λ o. IfSome o (λ values. vars ≤ length values)) }
{
    match solver_over(alloc, clauses, vars)? {
        None => Ok(None),
        Some(mut solver) => {
            let values = values_by(alloc, &mut solver, conflicts)?;
            Ok(values)
        }
    }
}

/// The inputs of so many cycles, each of this width, by which the folded clauses are met, if they are found.
pub(crate) fn inputs_by(
    alloc: Global,
    folded: Folded,
    width: usize,
    cycles: u32,
    conflicts: u64,
) -> Result<Option<List<Bits>>, NoMemory> {
    if conflicts == 0 {
        return Ok(None);
    }
    let vars = folded.vars;
    let clauses = clauses_of(alloc, &folded)?;
    let terms = folded.inputs;
    match found(alloc, clauses, vars, conflicts)? {
        None => Ok(None),
        Some(values) => {
            let inputs = inputs_of(alloc, &values, vars, terms.as_slice(), width, cycles)?;
            Ok(Some(inputs))
        }
    }
}
