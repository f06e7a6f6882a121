//! Solves, blocks and ends of steps: rows from outside, and each call that takes memory with ample memory, at small and at
//! great sizes.
ghost use Rattle.std.specs.Prelude.{◌≡◌, ◌==◌, true, All, IfOk, IfSome};
ghost use Rattle.std.specs.Bool.{OnTrue};
ghost use Rattle.std.specs.List.{list_any};
ghost use Rattle.bs_log.specs.Refusal.{has_distinct_variables};
ghost use Rattle.bs_clause.specs.Range.{HasVariables};
ghost use Rattle.bs_solve_lemmas.specs.declared.stage.Stage.TheVariants.{Begun, Solved};
ghost use Rattle.bs_solve_lemmas.specs.Search.{assumed};

use crate::literals::{clause, clauses, first_literals, one_clause};
use bs_clause::{Clauses, Lit, Lits, NoMemory};
use bs_log::Log;
use bs_solve::Solver;
use bs_solve_lemmas::Answer;
use std::alloc::Global;
use std::test::Fail;

/// Whether the clause is over the variables 1 to a number.
fn is_over(vars: u32, clause: &[Lit]) -> bool
    ensures { OnTrue result (HasVariables vars clause.now) }
{
    for l in clause {
        if vars < l.var().0 {
            return false;
        }
    }
    true
}

/// Whether a literal of the variable stands in the clause.
fn has_variable(clause: &[Lit], variable: u32) -> bool
    ensures { result ≡ list_any (λ m. m.variable == variable) clause.now }
{
    for m in clause {
        if m.var().0 == variable {
            return true;
        }
    }
    false
}

/// Whether no variable stands in the clause twice.
fn is_distinct(clause: &[Lit]) -> bool
    ensures { OnTrue result (has_distinct_variables clause.now ≡ true) }
{
    for i in 0..clause.len() {
        if has_variable(&clause[i + 1..], clause[i].var().0) {
            return false;
        }
    }
    true
}

/// Whether a clause of distinct variables is over the variables 1 to a number.
fn is_fit(vars: u32, clause: &[Lit]) -> bool
    ensures range { OnTrue result (HasVariables vars clause.now) }
    ensures distinct { OnTrue result (has_distinct_variables clause.now ≡ true) }
{
    is_over(vars, clause) && is_distinct(clause)
}

/// Whether a solver may begin with these clauses.
fn are_fit(vars: u32, clauses: &[Lits]) -> bool
    ensures range { OnTrue result (All (HasVariables vars) clauses.now) }
    ensures distinct { OnTrue result (All (λ c. has_distinct_variables c ≡ true) clauses.now) }
{
    for c in clauses {
        if !is_fit(vars, c.slice()) {
            return false;
        }
    }
    true
}

/// A solver over these clauses in its first step, where they are fit.
fn begun(alloc: Global, all: Clauses, vars: u32) -> Result<Option<Solver>, NoMemory>
    ensures { IfOk result (λ begun. IfSome begun (λ s. (s.stage ≡ Begun) × (s.proof.problem.vars ≡ vars))) }
{
    if 10000 < vars || !are_fit(vars, all.slice()) {
        return Ok(None);
    }
    let mut solver = Solver::new(alloc, vars, all)?;
    let _ = solver.begin_step()?;
    Ok(Some(solver))
}

/// The answer as a word.
fn word(answer: &Answer) -> &'static str {
    match answer {
        Answer::Found(_) => "found",
        Answer::Refuted(_) => "refuted",
        Answer::Spent => "spent",
    }
}

/// Appends the text of a log.
fn push_log(text: &mut Vec<u8>, log: &Log) -> Result<(), NoMemory> {
    for line in log.slice() {
        line.text(text)?;
        text.push(b'\n')?;
    }
    Ok(())
}

/// How the first solve in a step ends, and the length of the log.
#[tactic(auto, using(crate::proofs::SolverLemmas::may_begin))]
fn solved(
    alloc: Global,
    solver: &mut Solver,
    given: &Lits,
    limit: u64,
) -> Result<(&'static str, usize), NoMemory>
    requires { solver.old.stage ≡ Begun }
{
    if limit < 1 || !is_fit(solver.vars(), given.slice()) {
        return Ok(("unfit", 0));
    }
    let answer = solver.solve(alloc, given, limit)?;
    Ok((word(&answer), solver.log().len()))
}

/// The same of a solver over these clauses.
fn ending(
    alloc: Global,
    all: Clauses,
    vars: u32,
    given: &Lits,
    limit: u64,
) -> Result<(&'static str, usize), NoMemory> {
    match begun(alloc, all, vars)? {
        Some(mut solver) => solved(alloc, &mut solver, given, limit),
        None => Ok(("unfit", 0)),
    }
}

/// The same of clauses and assumptions as numbers.
fn ending_of(
    alloc: Global,
    rows: &[&[i32]],
    vars: u32,
    assumptions: &[i32],
    limit: u64,
) -> Result<(&'static str, usize), NoMemory> {
    let given = clause(alloc, assumptions)?;
    match clauses(alloc, rows) {
        Ok(all) => ending(alloc, all, vars, &given, limit),
        Err(fault) => Err(fault),
    }
}

/// The same of one clause of so many negative literals, where all of their variables are assumed.
fn long_ending(alloc: Global, vars: u16) -> Result<(&'static str, usize), NoMemory> {
    let given = first_literals(alloc, vars, true)?;
    let long = first_literals(alloc, vars, false)?;
    match one_clause(alloc, long) {
        Ok(all) => ending(alloc, all, u32::from(vars), &given, 1),
        Err(fault) => Err(fault),
    }
}

/// Whether the solve found values.
#[tactic(auto, using(crate::proofs::SolverLemmas::may_begin))]
fn finds(alloc: Global, solver: &mut Solver, given: &Lits) -> Result<bool, NoMemory>
    requires stage { solver.old.stage ≡ Begun }
    requires range { HasVariables solver.old.vars given.now }
    requires distinct { has_distinct_variables given.now ≡ true }
    ensures stage { IfOk result (λ is. OnTrue is (solver.new.stage ≡ Solved)) }
    ensures step { IfOk result (λ _. assumed solver.new.proof ≡ given.now) }
    ensures used { IfOk result (λ _. solver.new.vars ≡ solver.old.vars) }
    ensures vars { solver.new.proof.problem.vars ≡ solver.old.proof.problem.vars }
{
    match solver.solve(alloc, given, 1)? {
        Answer::Found(_) => Ok(true),
        _ => Ok(false),
    }
}

/// A solve, a block of what it found, another solve and the step's end: the block's id, how the second solve ends, the length
/// of the log, and how many lemmas stand then.
#[tactic(auto, using(crate::proofs::SolverLemmas::may_go_on))]
fn blocked(
    alloc: Global,
    solver: &mut Solver,
    vars: u32,
    given: &Lits,
    block: &Lits,
) -> Result<(u64, &'static str, usize, usize), NoMemory>
    requires stage { solver.old.stage ≡ Begun }
    requires vars { solver.old.proof.problem.vars ≡ vars }
{
    if !is_fit(solver.vars(), given.slice()) || !is_fit(vars, block.slice()) {
        return Ok((0, "unfit", 0, 0));
    }
    if !finds(alloc, solver, given)? {
        return Ok((0, "unfit", 0, 0));
    }
    let id = solver.block(alloc, block)?;
    let second = solver.solve(alloc, given, 1)?;
    solver.end_step(alloc, None)?;
    let ending = word(&second);
    Ok((id, ending, solver.log().len(), solver.lemma_ids().len()))
}

/// The same of a solver over these clauses.
fn again_over(
    alloc: Global,
    all: Clauses,
    vars: u32,
    given: &Lits,
    block: &Lits,
) -> Result<(u64, &'static str, usize, usize), NoMemory> {
    match begun(alloc, all, vars)? {
        Some(mut solver) => blocked(alloc, &mut solver, vars, given, block),
        None => Ok((0, "unfit", 0, 0)),
    }
}

/// The same of clauses as numbers.
fn again_with(
    alloc: Global,
    rows: &[&[i32]],
    vars: u32,
    given: &Lits,
    block: &Lits,
) -> Result<(u64, &'static str, usize, usize), NoMemory> {
    let all = clauses(alloc, rows)?;
    again_over(alloc, all, vars, given, block)
}

/// The same of assumptions and a block as numbers.
fn again(
    alloc: Global,
    rows: &[&[i32]],
    vars: u32,
    assumptions: &[i32],
    block: &[i32],
) -> Result<(u64, &'static str, usize, usize), NoMemory> {
    let given = clause(alloc, assumptions)?;
    match clause(alloc, block) {
        Ok(block) => again_with(alloc, rows, vars, &given, &block),
        Err(fault) => Err(fault),
    }
}

/// A solve that is refuted, and the step's end by its lemma.
#[tactic(auto, using(crate::proofs::SolverLemmas::may_begin))]
fn finish(alloc: Global, solver: &mut Solver, given: &Lits) -> Result<bool, NoMemory>
    requires { solver.old.stage ≡ Begun }
{
    if !is_fit(solver.vars(), given.slice()) {
        return Ok(false);
    }
    match solver.solve(alloc, given, 1)? {
        Answer::Refuted(id) => {
            solver.end_step(alloc, Some(id))?;
            Ok(true)
        }
        _ => Ok(false),
    }
}

/// Whether a solver has this log, and how many lemmas stand, and how many clauses and words the arena has.
fn has_log(
    alloc: Global,
    solver: &Solver,
    want: &str,
) -> Result<(bool, usize, usize, usize), NoMemory> {
    let mut text = Vec::new(alloc);
    push_log(&mut text, solver.log())?;
    let is_same = text.as_slice() == want.as_bytes();
    let arena = solver.arena();
    Ok((
        is_same,
        solver.lemma_ids().len(),
        arena.count(),
        arena.words(),
    ))
}

/// The same of a solver in its first step, behind such a solve and end.
fn finished(
    alloc: Global,
    solver: &mut Solver,
    given: &Lits,
    want: &str,
) -> Result<(bool, usize, usize, usize), NoMemory>
    requires { solver.old.stage ≡ Begun }
{
    if !finish(alloc, solver, given)? {
        return Ok((false, 0, 0, 0));
    }
    has_log(alloc, solver, want)
}

/// The same of a solver over these clauses.
fn finish_over(
    alloc: Global,
    rows: &[&[i32]],
    vars: u32,
    given: &Lits,
    want: &str,
) -> Result<(bool, usize, usize, usize), NoMemory> {
    let all = clauses(alloc, rows)?;
    match begun(alloc, all, vars)? {
        Some(mut solver) => finished(alloc, &mut solver, given, want),
        None => Ok((false, 0, 0, 0)),
    }
}

/// The same of assumptions as numbers.
fn finish_of(
    alloc: Global,
    rows: &[&[i32]],
    vars: u32,
    assumptions: &[i32],
    want: &str,
) -> Result<(bool, usize, usize, usize), NoMemory> {
    let given = clause(alloc, assumptions)?;
    finish_over(alloc, rows, vars, &given, want)
}

/// Clauses of three variables that no values meet where the first one is true.
const FOUR: [&[i32]; 4] = [&[-1, 2, 3], &[-1, 2, -3], &[-1, -2, 3], &[-1, -2, -3]];

/// The clause that variable 1 implies variable 2.
const ONE: [&[i32]; 1] = [&[-1, 2]];

/// Clauses, their variables, assumptions, a limit, and how the solve ends with how long a log.
type Ending<'a> = (&'a [&'a [i32]], u32, &'a [i32], u64, (&'a str, usize));

/// Solves, and how they end.
static ENDINGS: [Ending<'static>; 4] = [
    (&ONE, 2, &[3, 1, -2], 1, ("refuted", 2)),
    (&FOUR, 3, &[4, 1], 1, ("spent", 2)),
    (&FOUR, 3, &[4, 1], 4, ("refuted", 3)),
    (&FOUR, 3, &[4, -1], 1, ("found", 1)),
];

/// Clauses, their variables, assumptions, a block, and what comes of the two solves.
type Again<'a> = (
    &'a [&'a [i32]],
    u32,
    &'a [i32],
    &'a [i32],
    (u64, &'a str, usize, usize),
);

/// Solves, and others behind a block.
static AGAIN: [Again<'static>; 2] = [
    (&FOUR, 3, &[4, -1], &[2, 3], (5, "found", 5, 0)),
    (&ONE, 2, &[3, 1], &[-1, -2], (2, "refuted", 6, 0)),
];

/// The number of the first of these solves that ends otherwise.
fn first_other(alloc: Global, rows: &[Ending<'_>]) -> Result<Option<usize>, NoMemory> {
    for (i, (clauses, vars, assumptions, limit, want)) in rows.iter().enumerate() {
        if ending_of(alloc, clauses, *vars, assumptions, *limit)? != *want {
            return Ok(Some(i));
        }
    }
    Ok(None)
}

/// The same of solves behind a block.
fn first_other_again(alloc: Global, rows: &[Again<'_>]) -> Result<Option<usize>, NoMemory> {
    for (i, (clauses, vars, assumptions, block, want)) in rows.iter().enumerate() {
        if again(alloc, clauses, *vars, assumptions, block)? != *want {
            return Ok(Some(i));
        }
    }
    Ok(None)
}

#[test]
fn solves_end_as_the_rows_say(rt: HostRuntime) -> Result<(), Fail> {
    let alloc = rt.alloc();
    assert_eq!(rt; first_other(alloc, &ENDINGS)?, None);
    assert_eq!(rt; first_other_again(alloc, &AGAIN)?, None);
    assert!(rt; long_ending(alloc, 1)? == ("refuted", 2));
    assert!(rt; long_ending(alloc, 3000)? == ("refuted", 2));
    Ok(())
}

#[test]
fn a_step_ends_by_its_lemma(rt: HostRuntime) -> Result<(), Fail> {
    // The clause, the lemma, which has no literal of the activation literal 3, and the unit of the activation literal's negation stand: no block.
    let log = "s\n2 -1 2 0 1 0\ne 2\nr 3\n";
    let seen = finish_of(rt.alloc(), &ONE, 2, &[3, 1, -2], log)?;
    assert!(rt; seen == (true, 1, 3, 17));
    Ok(())
}
