//! The lines of the proof, one for each line of the log that adds a clause or takes some away.
ghost use Rattle.std.specs.Prelude.{◌≡◌, ◌≤◌, ◌<◌, ◌+◌, ◌^◌, ◌++◌, ◌∷◌, [], length, map, OnOk};
ghost use Rattle.std.specs.List.{flat_map};
ghost use Rattle.bs_clause.specs.Literal.{IsVariable};
ghost use Rattle.bs_log.specs.declared.line.Line.TheVariants.{Lemma, Retire};
ghost use Rattle.bs_log.specs.LineText.{id_text};
ghost use Rattle.bs_log.specs.Refusal.{history_of};
ghost use Rattle.bs_log.specs.Lines.{proof_line, IdFits};
ghost use Rattle.bs_log.specs.Proof.{lemma_in, unit_id};
ghost use Rattle.bs_log.specs.Walk.{lines_text, LineFits};
ghost use Rattle.bs_evidence.specs.WholeProof.{besides, line_at};
ghost use Rattle.bs_evidence.specs.WholeWalk.{problem_in, EndFits, HasRoom};

use crate::parts::rest_at;
use crate::whole::WholeLog;
use crate::whole_walk::At;
use bs_bits::{NoMemory, push_line, push_piece};
use bs_clause::Lit;
use bs_log::{
    Frame, Line, lemma_of, off, push_copy, push_deletion, push_id, push_lemma, push_literals,
    raised, unit_id,
};

/// Appends the id of what is assumed against a literal, where it is not over this variable.
fn push_besides_id(
    text: &mut Vec<u8>,
    place: u64,
    rest: &[Lit],
    variable: u32,
    l: Lit,
) -> Result<(), NoMemory>
    requires { place + length rest.now + 1 < 2 ^ 64 }
    ensures { OnOk result (text.new.items ≡ text.old.items ++ flat_map id_text (map (unit_id place rest.now) (besides variable (l ∷ [])))) }
{
    if l.var().0 != variable {
        push_id(text, unit_id(place, rest, l))?;
    }
    Ok(())
}

/// Appends the ids of what is assumed against each literal that is not over this variable.
fn push_besides_ids(
    text: &mut Vec<u8>,
    place: u64,
    rest: &[Lit],
    variable: u32,
    lemma: &[Lit],
) -> Result<(), NoMemory>
    requires { place + length rest.now + 1 < 2 ^ 64 }
    ensures { OnOk result (text.new.items ≡ text.old.items ++ flat_map id_text (map (unit_id place rest.now) (besides variable lemma.now))) }
{
    'literals: for i in 0..lemma.len() {
        push_besides_id(text, place, rest, variable, lemma[i])?;
    }
    Ok(())
}

/// Appends that a finished step is not under way, from what it assumes against each literal of its last lemma, and that lemma.
fn push_refuted(
    text: &mut Vec<u8>,
    place: u64,
    rest: &[Lit],
    off: Lit,
    lemma: &[Lit],
    id: u64,
    end: u64,
) -> Result<(), NoMemory>
    requires { place + length rest.now + 1 < 2 ^ 64 }
    ensures { OnOk result (text.new.items ≡ text.old.items ++ proof_line 0 (Lemma id (off ∷ []) (map (unit_id place rest.now) (besides off.variable lemma.now) ++ end ∷ []))) }
{
    push_id(text, id)?;
    push_literals(text, &[off])?;
    push_piece(text, b"0 ")?;
    push_besides_ids(text, place, rest, off.var().0, lemma)?;
    push_id(text, end)?;
    push_line(text, b"0")
}

/// Appends that the step which a line of this id ends is not under way.
fn push_retired(
    text: &mut Vec<u8>,
    f: &Frame,
    asked: &WholeLog<'_>,
    at: &At,
    before: &[Line],
    id: u64,
) -> Result<(), NoMemory>
    requires id { IdFits f.now id }
    requires room { HasRoom f.now (problem_in asked.now) at.now }
    requires first { 1 ≤ at.now.under.step }
    requires activation { IsVariable (asked.now.vars + at.now.under.step) }
    ensures { OnOk result (text.new.items ≡ text.old.items ++ lines_text at.now.last (line_at f.now (problem_in asked.now) (lemma_in (history_of before.now)) at.now.under at.now.place (Retire id))) }
{
    let step = at.under.step;
    let off = off(asked.vars, step);
    let id = raised(f, id);
    match at.under.finish {
        None => push_copy(text, id, &[off], at.place + 1),
        Some(end) => {
            let rest = rest_at(asked, step);
            push_refuted(
                text,
                at.place,
                rest,
                off,
                lemma_of(before, end),
                id,
                raised(f, end),
            )
        }
    }
}

/// Appends what a line of the log is in the proof, behind the lines before it.
pub fn push_shown(
    text: &mut Vec<u8>,
    f: &Frame,
    asked: &WholeLog<'_>,
    at: &At,
    before: &[Line],
    line: &Line,
) -> Result<(), NoMemory>
    requires fits { LineFits f.now line.now }
    requires room { HasRoom f.now (problem_in asked.now) at.now }
    requires first { 1 ≤ at.now.under.step }
    requires end { EndFits asked.now.vars at.now.under.step line.now }
    ensures { OnOk result (text.new.items ≡ text.old.items ++ lines_text at.now.last (line_at f.now (problem_in asked.now) (lemma_in (history_of before.now)) at.now.under at.now.place line.now)) }
{
    match line {
        Line::Solve | Line::Finish { .. } => Ok(()),
        Line::Lemma { id, lits, hints } => push_lemma(text, f, *id, lits.slice(), hints.slice()),
        Line::Block { id, lits } => push_copy(text, raised(f, *id), lits.slice(), at.place + 1),
        Line::Retire { id } => push_retired(text, f, asked, at, before, *id),
        Line::Delete { ids } => push_deletion(text, f, at.last, ids.slice()),
    }
}
