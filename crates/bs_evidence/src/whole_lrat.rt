//! The proof that all finished lists are complete, as text.
ghost use Rattle.std.specs.Prelude.{◌≡◌, ◌≤◌, ◌<◌, ◌+◌, ◌^◌, ◌++◌, [], length, map, take, IfOk, OnOk};
ghost use Rattle.std.specs.List.{flat_map};
ghost use Rattle.bs_log.specs.History.{last_id};
ghost use Rattle.bs_log.specs.LineText.{id_text};
ghost use Rattle.bs_log.specs.Lines.{proof_line, raised};
ghost use Rattle.bs_log.specs.Proof.{proof_text};
ghost use Rattle.bs_log.specs.Walk.{last_behind, LineFits};
ghost use Rattle.bs_evidence.specs.WholeProof.{ended, ended_at, under_of, whole_ending, whole_frame, whole_lrat_text, whole_shown};
ghost use Rattle.bs_evidence.specs.WholeWalk.{clauses_in, given_at, history_in, problem_in, under_behind, IsWritable};

use crate::parts::count_given;
use crate::whole::WholeLog;
use crate::whole_cnf::count_behind;
use crate::whole_lines::push_shown;
use crate::whole_walk::{At, Under, start, under_behind};
use bs_bits::{NoMemory, push_line, push_piece};
use bs_log::{Frame, Line, last_behind, push_id, raised};

/// How far ids go up.
fn frame(asked: &WholeLog<'_>) -> Frame
    requires { IsWritable asked.now }
    ensures { result ≡ whole_frame (problem_in asked.now) (history_in asked.now) }
{
    let by = count_behind(asked);
    Frame {
        front: asked.clauses.len() as u64,
        by,
        own: 0,
        closed: 0,
        step: 0,
    }
}

/// Before the first line.
fn begin(f: &Frame) -> At
    requires { f.now.front + f.now.by < 2 ^ 64 }
    ensures { result ≡ record { under = under_of []; place = f.now.front; last = f.now.front + f.now.by } }
{
    At {
        under: start(),
        place: f.front,
        last: f.front + f.by,
    }
}

/// Behind a line.
fn at_behind(f: &Frame, asked: &WholeLog<'_>, at: At, line: &Line) -> At
    requires fits { LineFits f.now line.now }
    requires first { 1 ≤ at.under.step }
    requires step { at.under.step + 1 < 2 ^ 64 }
    requires place { at.place + length (given_at (problem_in asked.now) at.under line.now) < 2 ^ 64 }
    ensures under { result.under ≡ under_behind line.now at.under }
    ensures place { result.place ≡ at.place + length (given_at (problem_in asked.now) at.under line.now) }
    ensures last { result.last ≡ last_behind f.now at.last line.now }
{
    let place = at.place + count_given(asked, &at.under, line);
    At {
        under: under_behind(at.under, line),
        place,
        last: last_behind(f, at.last, line),
    }
}

/// The lines before a place.
fn front(lines: &[Line], i: usize) -> &[Line]
    requires { i ≤ length lines.now }
    ensures { result.now ≡ take i lines.now }
{
    &lines[..i]
}

/// Appends the lines of the proof but the last; the id of the newest.
fn push_lines(text: &mut Vec<u8>, f: &Frame, asked: &WholeLog<'_>) -> Result<u64, NoMemory>
    requires writable { IsWritable asked.now }
    requires frame { f.now ≡ whole_frame (problem_in asked.now) (history_in asked.now) }
    ensures text { OnOk result (text.new.items ≡ text.old.items ++ proof_text (clauses_in asked.now) (whole_shown f.now (problem_in asked.now) (history_in asked.now))) }
    ensures last { IfOk result (λ last. last ≡ last_id (clauses_in asked.now) (whole_shown f.now (problem_in asked.now) (history_in asked.now))) }
{
    let mut at = begin(f);
    'lines: for i in 0..asked.lines.len() {
        let line = &asked.lines[i];
        push_shown(text, f, asked, &at, front(asked.lines, i), line)?;
        at = at_behind(f, asked, at, line);
    }
    Ok(at.last)
}

/// Appends the id of a line that ends a finished step.
fn push_ended(text: &mut Vec<u8>, f: &Frame, under: &Under, line: &Line) -> Result<(), NoMemory>
    requires { LineFits f.now line.now }
    ensures { OnOk result (text.new.items ≡ text.old.items ++ flat_map id_text (map (λ e. raised f.now e.0) (ended_at under.now line.now))) }
{
    match line {
        Line::Retire { id } => {
            if under.finish.is_some() {
                push_id(text, raised(f, *id))?;
            }
            Ok(())
        }
        _ => Ok(()),
    }
}

/// Appends the ids of the lines that end finished steps.
fn push_all_ended(text: &mut Vec<u8>, f: &Frame, asked: &WholeLog<'_>) -> Result<(), NoMemory>
    requires writable { IsWritable asked.now }
    requires frame { f.now ≡ whole_frame (problem_in asked.now) (history_in asked.now) }
    ensures { OnOk result (text.new.items ≡ text.old.items ++ flat_map id_text (map (λ e. raised f.now e.0) (ended (history_in asked.now)))) }
{
    let mut under = start();
    'lines: for i in 0..asked.lines.len() {
        let line = &asked.lines[i];
        push_ended(text, f, &under, line)?;
        under = under_behind(under, line);
    }
    Ok(())
}

/// Appends the empty clause.
fn push_ending(
    text: &mut Vec<u8>,
    f: &Frame,
    asked: &WholeLog<'_>,
    last: u64,
) -> Result<(), NoMemory>
    requires writable { IsWritable asked.now }
    requires frame { f.now ≡ whole_frame (problem_in asked.now) (history_in asked.now) }
    requires sum { f.now.front + f.now.by < 2 ^ 64 }
    requires last { last + 1 < 2 ^ 64 }
    ensures { OnOk result (text.new.items ≡ text.old.items ++ proof_line last (whole_ending f.now (history_in asked.now) last)) }
{
    push_id(text, last + 1)?;
    push_piece(text, b"0 ")?;
    push_all_ended(text, f, asked)?;
    push_id(text, f.front + f.by)?;
    push_line(text, b"0")
}

/// Appends the proof that all finished lists of a log are complete, as LRAT text.
pub(crate) fn push_whole_lrat(text: &mut Vec<u8>, asked: &WholeLog<'_>) -> Result<(), NoMemory>
    requires { IsWritable asked.now }
    ensures { OnOk result (text.new.items ≡ text.old.items ++ whole_lrat_text (problem_in asked.now) (history_in asked.now)) }
{
    let f = frame(asked);
    let last = push_lines(text, &f, asked)?;
    push_ending(text, &f, asked, last)
}
