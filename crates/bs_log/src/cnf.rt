//! The clauses that a step's list stands on, as text.
ghost use Rattle.std.specs.Prelude.{◌≡◌, ◌≤◌, ◌<◌, ◌+◌, ◌^◌, ◌++◌, length, reverse, OnOk};
ghost use Rattle.std.specs.List.{flat_map};
ghost use Rattle.bs_clause.specs.declared.literal.TheConstants.{VARIABLE_LIMIT};
ghost use Rattle.bs_log.specs.History.{step_of};
ghost use Rattle.bs_log.specs.Refusal.{assumptions_of, history_of};
ghost use Rattle.bs_log.specs.Refutation.{blocks_of};
ghost use Rattle.bs_log.specs.Clauses.{block_at, clause_text};
ghost use Rattle.bs_log.specs.Cnf.{behind, cnf_text, header_text, units};
ghost use Rattle.bs_log.specs.Walk.{problem_in, IsAsked, IsOneOf};

use crate::asked::Refuted;
use crate::clauses::{push_block, push_closed};
use crate::finish::step_behind;
use crate::line::Line;
use crate::words::{push_clause, push_unit};
use bs_bits::{NoMemory, end_line, push_number, push_piece};
use bs_clause::{Lit, Lits};

/// What a step assumes.
pub fn assumptions_at<'a>(asked: &Refuted<'a>) -> &'a [Lit]
    requires { IsOneOf (length asked.now.steps.now) asked.now.step }
    ensures { result.now ≡ assumptions_of (problem_in asked.now) asked.now.step }
{
    asked.steps.get((asked.step - 1) as usize).slice()
}

/// How many blocks a line adds to a step, where this step is under way.
pub fn blocks_at(line: &Line, now: u64, step: u64) -> u64
    ensures count { result ≡ length (block_at line.now now step) }
    ensures few { result ≤ 1 }
{
    match line {
        Line::Block { .. } => { if now == step { 1 } else { 0 } }
        _ => 0,
    }
}

/// How many blocks lines add to a step.
pub fn count_blocks(lines: &[Line], step: u64) -> u64
    ensures count { result ≡ length (blocks_of (history_of lines.now) step) }
    ensures few { result ≤ length lines.now }
{
    let mut ended = 0;
    let mut count = 0;
    'lines: for i in 0..lines.len() {
        let line = &lines[i];
        count += blocks_at(line, ended + 1, step);
        ended = step_behind(line, ended);
    }
    count
}

/// Appends the blocks that lines add to a step.
fn push_blocks(text: &mut Vec<u8>, lines: &[Line], step: u64) -> Result<(), NoMemory>
    ensures { OnOk result (text.new.items ≡ text.old.items ++ flat_map clause_text (reverse (blocks_of (history_of lines.now) step))) }
{
    let mut ended = 0;
    'lines: for i in 0..lines.len() {
        let line = &lines[i];
        push_block(text, line, ended + 1, step)?;
        ended = step_behind(line, ended);
    }
    Ok(())
}

/// How many clauses stand behind the netlist's.
pub fn count_behind(asked: &Refuted<'_>) -> u64
    requires step { IsOneOf (length asked.now.steps.now) asked.now.step }
    requires room { length (assumptions_of (problem_in asked.now) asked.now.step) + (length asked.now.lines.now + length asked.now.steps.now) < 2 ^ 64 }
    ensures { result ≡ length (behind (problem_in asked.now) (history_of asked.now.lines.now) asked.now.step) }
{
    let assumed = assumptions_at(asked).len() as u64;
    let blocks = count_blocks(asked.lines, asked.step);
    assumed + (blocks + (asked.steps.len() as u64 - 1))
}

/// Appends clauses.
pub fn push_clauses(text: &mut Vec<u8>, clauses: &[Lits]) -> Result<(), NoMemory>
    ensures { OnOk result (text.new.items ≡ text.old.items ++ flat_map clause_text clauses.now) }
{
    'clauses: for clause in clauses {
        push_clause(text, clause.slice())?;
    }
    Ok(())
}

/// Appends each literal as a clause of its own.
pub fn push_units(text: &mut Vec<u8>, literals: &[Lit]) -> Result<(), NoMemory>
    ensures { OnOk result (text.new.items ≡ text.old.items ++ flat_map clause_text (units literals.now)) }
{
    'literals: for literal in literals {
        push_unit(text, *literal)?;
    }
    Ok(())
}

/// Appends the header.
pub fn push_header(text: &mut Vec<u8>, vars: u64, count: u64) -> Result<(), NoMemory>
    ensures { OnOk result (text.new.items ≡ text.old.items ++ header_text vars count) }
{
    push_piece(text, b"p cnf ")?;
    push_number(text, vars)?;
    push_piece(text, b" ")?;
    push_number(text, count)?;
    end_line(text)
}

/// Appends what stands behind the netlist's clauses.
fn push_behind(text: &mut Vec<u8>, asked: &Refuted<'_>) -> Result<(), NoMemory>
    requires step { IsOneOf (length asked.now.steps.now) asked.now.step }
    requires room { asked.now.vars + length asked.now.steps.now < VARIABLE_LIMIT }
    ensures { OnOk result (text.new.items ≡ text.old.items ++ flat_map clause_text (behind (problem_in asked.now) (history_of asked.now.lines.now) asked.now.step)) }
{
    let step = asked.step;
    push_units(text, assumptions_at(asked))?;
    push_blocks(text, asked.lines, step)?;
    push_closed(text, asked.vars, 1, step - 1)?;
    push_closed(text, asked.vars, step + 1, asked.steps.len() as u64 - step)
}

/// Appends the clauses that a step's list stands on, where their number is small enough.
fn push_counted(text: &mut Vec<u8>, asked: &Refuted<'_>) -> Result<(), NoMemory>
    requires step { IsOneOf (length asked.now.steps.now) asked.now.step }
    requires room { asked.now.vars + length asked.now.steps.now < VARIABLE_LIMIT }
    requires assumed { length (assumptions_of (problem_in asked.now) asked.now.step) + (length asked.now.lines.now + length asked.now.steps.now) < 2 ^ 64 }
    requires count { length asked.now.clauses.now + length (behind (problem_in asked.now) (history_of asked.now.lines.now) asked.now.step) < 2 ^ 64 }
    ensures { OnOk result (text.new.items ≡ text.old.items ++ cnf_text (problem_in asked.now) (history_of asked.now.lines.now) asked.now.step) }
{
    let vars = u64::from(asked.vars) + asked.steps.len() as u64;
    let more = count_behind(asked);
    push_header(text, vars, asked.clauses.len() as u64 + more)?;
    push_clauses(text, asked.clauses.slice())?;
    push_behind(text, asked)
}

/// Appends the clauses that a step's list stands on, as DIMACS text.
pub fn push_cnf(text: &mut Vec<u8>, asked: &Refuted<'_>) -> Result<(), NoMemory>
    requires { IsAsked asked.now }
    ensures { OnOk result (text.new.items ≡ text.old.items ++ cnf_text (problem_in asked.now) (history_of asked.now.lines.now) asked.now.step) }
{
    push_counted(text, asked)
}
