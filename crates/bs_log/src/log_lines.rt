//! The lines of a proof, one for each line of the log that adds a clause or takes some away.
ghost use Rattle.std.specs.Prelude.{◌≡◌, ◌<◌, ◌+◌, ◌^◌, ◌++◌, false, map, All, OnOk};
ghost use Rattle.std.specs.List.{flat_map};
ghost use Rattle.bs_clause.specs.Literal.{IsVariable};
ghost use Rattle.bs_log.specs.LineText.{id_text};
ghost use Rattle.bs_log.specs.declared.line.Line.TheVariants.{Lemma, Delete};
ghost use Rattle.bs_log.specs.Lines.{proof_line, raised, IdFits};
ghost use Rattle.bs_log.specs.Walk.{at_behind, block_hint_at, last_behind, lines_text, shown_at, LineFits, HasRoom};

use crate::cnf::blocks_at;
use crate::finish::step_behind;
use crate::id_offsets::Frame;
use crate::line::Line;
use crate::proof_lines::{push_copy, raised};
use crate::walk::At;
use crate::words::{push_id, push_literals};
use bs_bits::{NoMemory, push_line, push_piece};
use bs_clause::{Lit, Var};

/// Appends where ids go, each with a space.
pub fn push_raised(text: &mut Vec<u8>, f: &Frame, ids: &[u64]) -> Result<(), NoMemory>
    requires { All (IdFits f.now) ids.now }
    ensures { OnOk result (text.new.items ≡ text.old.items ++ flat_map id_text (map (raised f.now) ids.now)) }
{
    'ids: for id in ids {
        push_id(text, raised(f, *id))?;
    }
    Ok(())
}

/// Appends a lemma of the log.
pub fn push_lemma(
    text: &mut Vec<u8>,
    f: &Frame,
    id: u64,
    lits: &[Lit],
    hints: &[u64],
) -> Result<(), NoMemory>
    requires id { IdFits f.now id }
    requires hints { All (IdFits f.now) hints.now }
    ensures { OnOk result (text.new.items ≡ text.old.items ++ proof_line 0 (Lemma (raised f.now id) lits.now (map (raised f.now) hints.now))) }
{
    push_id(text, raised(f, id))?;
    push_literals(text, lits)?;
    push_piece(text, b"0 ")?;
    push_raised(text, f, hints)?;
    push_line(text, b"0")
}

/// Appends the deletion of lemmas behind an id.
pub fn push_deletion(text: &mut Vec<u8>, f: &Frame, last: u64, ids: &[u64]) -> Result<(), NoMemory>
    requires { All (IdFits f.now) ids.now }
    ensures { OnOk result (text.new.items ≡ text.old.items ++ proof_line last (Delete (map (raised f.now) ids.now))) }
{
    push_id(text, last)?;
    push_piece(text, b"d ")?;
    push_raised(text, f, ids)?;
    push_line(text, b"0")
}

/// The id of the clause from which a block follows.
fn block_hint(f: &Frame, at: &At) -> u64
    requires { HasRoom f.now at.now }
    ensures { result ≡ block_hint_at f.now at.now }
{
    if at.step == f.step {
        f.own + at.blocks + 1
    } else {
        f.closed + at.step
    }
}

/// The literal that turns a step off.
pub fn off(vars: u32, step: u64) -> Lit
    requires { IsVariable (vars + step) }
    ensures { result ≡ record { variable = vars + step; positive = false } }
{
    Lit::new(Var(vars + step as u32), false)
}

/// Appends what a line of the log is in the proof.
pub fn push_shown(
    text: &mut Vec<u8>,
    f: &Frame,
    vars: u32,
    at: &At,
    line: &Line,
) -> Result<(), NoMemory>
    requires fits { LineFits f.now line.now }
    requires room { HasRoom f.now at.now }
    requires activation { IsVariable (vars + at.now.step) }
    ensures { OnOk result (text.new.items ≡ text.old.items ++ lines_text at.now.last (shown_at f.now vars at.now line.now)) }
{
    match line {
        Line::Solve | Line::Finish { .. } => Ok(()),
        Line::Lemma { id, lits, hints } => push_lemma(text, f, *id, lits.slice(), hints.slice()),
        Line::Block { id, lits } => push_copy(
            text,
            raised(f, *id),
            lits.slice(),
            block_hint(f, at),
        ),
        Line::Retire { id } => push_copy(
            text,
            raised(f, *id),
            &[off(vars, at.step)],
            f.closed + at.step,
        ),
        Line::Delete { ids } => push_deletion(text, f, at.last, ids.slice()),
    }
}

/// The last id of the proof behind a line.
pub fn last_behind(f: &Frame, last: u64, line: &Line) -> u64
    requires { LineFits f.now line.now }
    ensures { result ≡ last_behind f.now last line.now }
{
    match line {
        Line::Lemma { id, .. } => raised(f, *id),
        Line::Block { id, .. } => raised(f, *id),
        Line::Retire { id } => raised(f, *id),
        _ => last,
    }
}

/// Behind a line.
pub fn at_behind(f: &Frame, at: At, line: &Line) -> At
    requires fits { LineFits f.now line.now }
    requires step { at.step + 1 < 2 ^ 64 }
    requires blocks { at.blocks + 1 < 2 ^ 64 }
    ensures { result ≡ at_behind f.now at line.now }
{
    At {
        step: step_behind(line, at.step),
        blocks: at.blocks + blocks_at(line, at.step, f.step),
        last: last_behind(f, at.last, line),
    }
}
