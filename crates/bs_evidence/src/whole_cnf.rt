//! The clauses that all finished lists stand on, as text.
ghost use Rattle.std.specs.Prelude.{◌≡◌, ◌≤◌, ◌<◌, ◌+◌, ◌^◌, ◌++◌, ◌∷◌, [], length, map, true, OnOk};
ghost use Rattle.std.specs.List.{flat_map};
ghost use Rattle.bs_clause.specs.declared.literal.TheConstants.{VARIABLE_LIMIT};
ghost use Rattle.bs_clause.specs.Literal.{IsVariable};
ghost use Rattle.bs_log.specs.History.{activation_of};
ghost use Rattle.bs_log.specs.LineText.{literal_text};
ghost use Rattle.bs_log.specs.Clauses.{clause_text};
ghost use Rattle.bs_evidence.specs.WholeCnf.{finished, one_of, whole_behind, whole_cnf_text};
ghost use Rattle.bs_evidence.specs.WholeProof.{ended, ended_at, so_far};
ghost use Rattle.bs_evidence.specs.WholeWalk.{history_in, problem_in, EndFits, IsWritable};

use crate::parts::{count_given, push_given};
use crate::whole::WholeLog;
use crate::whole_walk::{Under, start, under_behind};
use bs_bits::{NoMemory, push_line};
use bs_clause::{Lit, Var};
use bs_log::{Line, push_clauses, push_header, push_literal};

/// How many clauses the lines give.
fn count_so_far(asked: &WholeLog<'_>) -> u64
    requires { IsWritable asked.now }
    ensures { result ≡ length (so_far (problem_in asked.now) (history_in asked.now)) }
{
    let mut under = start();
    let mut count = 0;
    'lines: for i in 0..asked.lines.len() {
        let line = &asked.lines[i];
        count += count_given(asked, &under, line);
        under = under_behind(under, line);
    }
    count
}

/// How many clauses stand behind the netlist's.
pub fn count_behind(asked: &WholeLog<'_>) -> u64
    requires { IsWritable asked.now }
    ensures { result ≡ length (whole_behind (problem_in asked.now) (history_in asked.now)) }
{
    let count = count_so_far(asked);
    count + 1
}

/// Appends the clauses that the lines give.
fn push_so_far(text: &mut Vec<u8>, asked: &WholeLog<'_>) -> Result<(), NoMemory>
    requires { IsWritable asked.now }
    ensures { OnOk result (text.new.items ≡ text.old.items ++ flat_map clause_text (so_far (problem_in asked.now) (history_in asked.now))) }
{
    let mut under = start();
    'lines: for i in 0..asked.lines.len() {
        let line = &asked.lines[i];
        push_given(text, asked, &under, line)?;
        under = under_behind(under, line);
    }
    Ok(())
}

/// The literal that a step is under way.
fn on(vars: u32, step: u64) -> Lit
    requires { IsVariable (vars + step) }
    ensures { result ≡ record { variable = vars + step; positive = true } }
{
    Lit::new(Var(vars + step as u32), true)
}

/// Appends the activation literal of a finished step that a line ends.
fn push_activation(
    text: &mut Vec<u8>,
    asked: &WholeLog<'_>,
    under: &Under,
    line: &Line,
) -> Result<(), NoMemory>
    requires { EndFits asked.now.vars under.now.step line.now }
    ensures { OnOk result (text.new.items ≡ text.old.items ++ flat_map literal_text (map (λ e. activation_of (problem_in asked.now) e.1) (ended_at under.now line.now))) }
{
    match line {
        Line::Retire { .. } => {
            if under.finish.is_some() {
                push_literal(text, on(asked.vars, under.step))?;
            }
            Ok(())
        }
        _ => Ok(()),
    }
}

/// Appends the activation literals of the finished steps.
fn push_activations(text: &mut Vec<u8>, asked: &WholeLog<'_>) -> Result<(), NoMemory>
    requires { IsWritable asked.now }
    ensures { OnOk result (text.new.items ≡ text.old.items ++ flat_map literal_text (map (λ e. activation_of (problem_in asked.now) e.1) (ended (history_in asked.now)))) }
{
    let mut under = start();
    'lines: for i in 0..asked.lines.len() {
        let line = &asked.lines[i];
        push_activation(text, asked, &under, line)?;
        under = under_behind(under, line);
    }
    Ok(())
}

/// Appends that one of the finished steps is under way.
fn push_one_of(text: &mut Vec<u8>, asked: &WholeLog<'_>) -> Result<(), NoMemory>
    requires { IsWritable asked.now }
    ensures { OnOk result (text.new.items ≡ text.old.items ++ clause_text (one_of (problem_in asked.now) (finished (problem_in asked.now) (history_in asked.now)))) }
{
    push_activations(text, asked)?;
    push_line(text, b"0")
}

/// Appends what stands behind the netlist's clauses.
fn push_behind(text: &mut Vec<u8>, asked: &WholeLog<'_>) -> Result<(), NoMemory>
    requires { IsWritable asked.now }
    ensures { OnOk result (text.new.items ≡ text.old.items ++ flat_map clause_text (whole_behind (problem_in asked.now) (history_in asked.now))) }
{
    push_so_far(text, asked)?;
    push_one_of(text, asked)
}

/// Appends the clauses that all finished lists of a log stand on, where their number is small enough.
fn push_counted(text: &mut Vec<u8>, asked: &WholeLog<'_>) -> Result<(), NoMemory>
    requires writable { IsWritable asked.now }
    requires room { asked.now.vars + length asked.now.steps.now < VARIABLE_LIMIT }
    requires count { length asked.now.clauses.now + length (whole_behind (problem_in asked.now) (history_in asked.now)) < 2 ^ 64 }
    ensures { OnOk result (text.new.items ≡ text.old.items ++ whole_cnf_text (problem_in asked.now) (history_in asked.now)) }
{
    let vars = u64::from(asked.vars) + asked.steps.len() as u64;
    let more = count_behind(asked);
    push_header(text, vars, asked.clauses.len() as u64 + more)?;
    push_clauses(text, asked.clauses.slice())?;
    push_behind(text, asked)
}

/// Appends the clauses that all finished lists of a log stand on, as DIMACS text.
pub(crate) fn push_whole_cnf(text: &mut Vec<u8>, asked: &WholeLog<'_>) -> Result<(), NoMemory>
    requires { IsWritable asked.now }
    ensures { OnOk result (text.new.items ≡ text.old.items ++ whole_cnf_text (problem_in asked.now) (history_in asked.now)) }
{
    push_counted(text, asked)
}
