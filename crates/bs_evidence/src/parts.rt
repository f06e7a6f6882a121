//! What is said of each step.
ghost use Rattle.std.specs.Prelude.{◌≡◌, ◌≤◌, ◌<◌, ◌+◌, ◌^◌, ◌∷◌, [], ◌++◌, drop, length, map, OnOk};
ghost use Rattle.std.specs.List.{flat_map};
ghost use Rattle.bs_clause.specs.Literal.{IsVariable};
ghost use Rattle.bs_log.specs.Clauses.{clause_text};
ghost use Rattle.bs_evidence.specs.WholeCnf.{rest_of, said_of};
ghost use Rattle.bs_evidence.specs.WholeWalk.{given_at, problem_in, EndFits};

use crate::whole::WholeLog;
use crate::whole_walk::Under;
use bs_bits::{List, NoMemory};
use bs_clause::{Lit, Lits};
use bs_log::{Line, off, push_clause, push_unit};

/// All literals but the first.
fn tail(literals: &[Lit]) -> &[Lit]
    ensures { result.now ≡ drop 1 literals.now }
{
    if literals.is_empty() {
        literals
    } else {
        &literals[1..]
    }
}

/// What a step assumes behind its activation literal.
pub fn rest_at<'a>(asked: &WholeLog<'a>, step: u64) -> &'a [Lit]
    requires { 1 ≤ step }
    ensures { result.now ≡ rest_of (problem_in asked.now) step }
{
    let i = (step - 1) as usize;
    if i < asked.steps.len() {
        tail(asked.steps.get(i).slice())
    } else {
        &[]
    }
}

/// How many clauses say what is said of a step.
fn count_said(asked: &WholeLog<'_>, under: &Under) -> u64
    requires { 1 ≤ under.now.step }
    ensures { result ≡ length (said_of (problem_in asked.now) under.now.step under.now.finish) }
{
    match under.finish {
        None => 1,
        Some(_) => rest_at(asked, under.step).len() as u64,
    }
}

/// How many clauses a line gives.
pub fn count_given(asked: &WholeLog<'_>, under: &Under, line: &Line) -> u64
    requires { 1 ≤ under.now.step }
    ensures { result ≡ length (given_at (problem_in asked.now) under.now line.now) }
{
    match line {
        Line::Block { .. } => 1,
        Line::Retire { .. } => count_said(asked, under),
        _ => 0,
    }
}

/// Appends a literal together with each of some others.
fn push_guarded(text: &mut Vec<u8>, off: Lit, literals: &[Lit]) -> Result<(), NoMemory>
    ensures { OnOk result (text.new.items ≡ text.old.items ++ flat_map clause_text (map (λ a. off ∷ a ∷ []) literals.now)) }
{
    'literals: for literal in literals {
        push_clause(text, &[off, *literal])?;
    }
    Ok(())
}

/// Appends what is said of a step.
fn push_said(text: &mut Vec<u8>, asked: &WholeLog<'_>, under: &Under) -> Result<(), NoMemory>
    requires step { 1 ≤ under.now.step }
    requires activation { IsVariable (asked.now.vars + under.now.step) }
    ensures { OnOk result (text.new.items ≡ text.old.items ++ flat_map clause_text (said_of (problem_in asked.now) under.now.step under.now.finish)) }
{
    let off = off(asked.vars, under.step);
    match under.finish {
        None => push_unit(text, off),
        Some(_) => push_guarded(text, off, rest_at(asked, under.step)),
    }
}

/// Appends the clauses that a line gives.
pub fn push_given(
    text: &mut Vec<u8>,
    asked: &WholeLog<'_>,
    under: &Under,
    line: &Line,
) -> Result<(), NoMemory>
    requires step { 1 ≤ under.now.step }
    requires end { EndFits asked.now.vars under.now.step line.now }
    ensures { OnOk result (text.new.items ≡ text.old.items ++ flat_map clause_text (given_at (problem_in asked.now) under.now line.now)) }
{
    match line {
        Line::Block { lits, .. } => push_clause(text, lits.slice()),
        Line::Retire { .. } => push_said(text, asked, under),
        _ => Ok(()),
    }
}
