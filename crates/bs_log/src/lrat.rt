//! The proof of a step's list, as text.
ghost use Rattle.std.specs.Prelude.{◌≡◌, ◌≤◌, ◌<◌, ◌+◌, ◌-◌, ◌^◌, ◌++◌, ◌∷◌, [], length, map, All, IfOk, OnOk, IfSome, option_map};
ghost use Rattle.std.specs.List.{flat_map, position};
ghost use Rattle.bs_clause.specs.declared.literal.TheConstants.{VARIABLE_LIMIT};
ghost use Rattle.bs_clause.specs.Literal.{negation, same_literal};
ghost use Rattle.bs_log.specs.LineText.{id_text};
ghost use Rattle.bs_log.specs.Refusal.{assumptions_of, history_of};
ghost use Rattle.bs_log.specs.Lines.{proof_line, IdFits};
ghost use Rattle.bs_log.specs.Proof.{ending, frame_of, lemma_in, lrat_text, proof_text, shown, unit_id};
ghost use Rattle.bs_log.specs.History.{last_id};
ghost use Rattle.bs_log.specs.Walk.{clauses_in, problem_in, IsOneOf, IsProvable};

use crate::asked::Refuted;
use crate::cnf::{assumptions_at, count_behind, count_blocks};
use crate::finish::lemma_of;
use crate::id_offsets::Frame;
use crate::line::Line;
use crate::log_lines::{at_behind, push_shown};
use crate::proof_lines::raised;
use crate::walk::At;
use crate::words::push_id;
use bs_bits::{NoMemory, push_line, push_piece};
use bs_clause::{Lit, is_same};

/// The place of the literal that denies another, counted from 0.
fn failed_assumption_place(assumptions: &[Lit], l: Lit) -> Option<usize>
    ensures { result ≡ position (λ m. same_literal (negation l) m) assumptions.now }
{
    let failed_assumption = l.negate();
    assumptions
        .iter()
        .position(|m| is_same(failed_assumption, *m))
}

/// The id of the clause of an assumption that denies a literal.
pub fn unit_id(front: u64, assumptions: &[Lit], l: Lit) -> u64
    requires { front + length assumptions.now + 1 < 2 ^ 64 }
    ensures { result ≡ unit_id front assumptions.now l }
{
    match failed_assumption_place(assumptions, l) {
        Some(place) => front + place as u64 + 1,
        None => front + 1,
    }
}

/// Appends the ids of the clauses of assumptions that deny literals, each with a space.
fn push_unit_ids(
    text: &mut Vec<u8>,
    front: u64,
    assumptions: &[Lit],
    literals: &[Lit],
) -> Result<(), NoMemory>
    requires { front + length assumptions.now + 1 < 2 ^ 64 }
    ensures { OnOk result (text.new.items ≡ text.old.items ++ flat_map id_text (map (unit_id front assumptions.now) literals.now)) }
{
    'literals: for l in literals {
        push_id(text, unit_id(front, assumptions, *l))?;
    }
    Ok(())
}

/// Appends the empty clause.
fn push_ending(
    text: &mut Vec<u8>,
    f: &Frame,
    assumptions: &[Lit],
    lemma: &[Lit],
    last: u64,
    id: u64,
) -> Result<(), NoMemory>
    requires front { f.now.front + length assumptions.now + 1 < 2 ^ 64 }
    requires id { IdFits f.now id }
    requires last { last + 1 < 2 ^ 64 }
    ensures { OnOk result (text.new.items ≡ text.old.items ++ proof_line last (ending f.now assumptions.now lemma.now last id)) }
{
    push_id(text, last + 1)?;
    push_piece(text, b"0 ")?;
    push_unit_ids(text, f.front, assumptions, lemma)?;
    push_id(text, raised(f, id))?;
    push_line(text, b"0")
}

/// Where the parts of a step's clauses stand.
fn frame(asked: &Refuted<'_>) -> Frame
    requires step { IsOneOf (length asked.now.steps.now) asked.now.step }
    requires assumed { length (assumptions_of (problem_in asked.now) asked.now.step) + (length asked.now.lines.now + length asked.now.steps.now) < 2 ^ 64 }
    requires count { length asked.now.clauses.now + (length (assumptions_of (problem_in asked.now) asked.now.step) + length asked.now.lines.now) < 2 ^ 64 }
    ensures { result ≡ frame_of (problem_in asked.now) (history_of asked.now.lines.now) asked.now.step }
{
    let front = asked.clauses.len() as u64;
    let own = front + assumptions_at(asked).len() as u64;
    let closed = own + count_blocks(asked.lines, asked.step);
    let by = count_behind(asked);
    Frame {
        front,
        by,
        own,
        closed,
        step: asked.step,
    }
}

/// Before the first line.
fn begin(f: &Frame) -> At
    requires { f.now.front + f.now.by < 2 ^ 64 }
    ensures { result ≡ record { step = 1; blocks = 0; last = f.now.front + f.now.by } }
{
    At {
        step: 1,
        blocks: 0,
        last: f.front + f.by,
    }
}

/// Appends the lines of the proof up to the last lemma; the last id.
fn push_lines(text: &mut Vec<u8>, f: &Frame, asked: &Refuted<'_>) -> Result<u64, NoMemory>
    requires provable { IsProvable asked.now }
    requires frame { f.now ≡ frame_of (problem_in asked.now) (history_of asked.now.lines.now) asked.now.step }
    ensures text { OnOk result (text.new.items ≡ text.old.items ++ proof_text (clauses_in asked.now) (shown f.now (problem_in asked.now) (history_of asked.now.lines.now))) }
    ensures last { IfOk result (λ last. last ≡ last_id (clauses_in asked.now) (shown f.now (problem_in asked.now) (history_of asked.now.lines.now))) }
{
    let mut at = begin(f);
    'lines: for i in 0..asked.lines.len() {
        let line = &asked.lines[i];
        push_shown(text, f, asked.vars, &at, line)?;
        at = at_behind(f, at, line);
    }
    Ok(at.last)
}

/// Appends the proof of a step's list, as LRAT text.
pub fn push_lrat(text: &mut Vec<u8>, asked: &Refuted<'_>) -> Result<(), NoMemory>
    requires { IsProvable asked.now }
    ensures { OnOk result (text.new.items ≡ text.old.items ++ lrat_text (problem_in asked.now) (history_of asked.now.lines.now) asked.now.step asked.now.id) }
{
    let f = frame(asked);
    let last = push_lines(text, &f, asked)?;
    let lemma = lemma_of(asked.lines, asked.id);
    push_ending(text, &f, assumptions_at(asked), lemma, last, asked.id)
}
