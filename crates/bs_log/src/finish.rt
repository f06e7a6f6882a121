//! Where a log finishes a step, and the lemma that it names.
ghost use Rattle.std.specs.Prelude.{◌≡◌, ◌<◌, ◌+◌, ◌^◌, length, option_map, MatchOption};
ghost use Rattle.bs_log.specs.History.{step_of};
ghost use Rattle.bs_log.specs.Refusal.{history_of};
ghost use Rattle.bs_log.specs.ShownLaw.{HasNoFinish, IsFinishAt};
ghost use Rattle.bs_log.specs.Proof.{lemma_in};
ghost use Rattle.bs_log.specs.Walk.{finish_in, lemma_named, named_finish, step_behind};

use crate::line::Line;
use bs_clause::Lit;

/// The step behind a line.
pub(crate) fn step_behind(line: &Line, step: u64) -> u64
    requires { step + 1 < 2 ^ 64 }
    ensures { result ≡ step_behind line.now step }
{
    match line {
        Line::Retire { .. } => step + 1,
        _ => step,
    }
}

/// The lemma that a line names as the end of a step.
fn named_finish(line: &Line) -> Option<u64>
    ensures { result ≡ named_finish line.now }
{
    match line {
        Line::Finish { id } => Some(*id),
        _ => None,
    }
}

/// The lemma that a line names as the end of a step, where this step is under way.
fn finish_in(line: &Line, now: u64, step: u64) -> Option<u64>
    ensures { result ≡ finish_in line.now now step }
{
    if now == step {
        named_finish(line)
    } else {
        None
    }
}

/// The place of the line that finishes a step, counted from 0, and the id of the lemma that it names.
pub fn finish_place(lines: &[Line], step: u64) -> Option<(usize, u64)>
    ensures { MatchOption result (HasNoFinish lines.now step) (λ found. IsFinishAt lines.now step found.0 found.1) }
{
    let mut ended = 0;
    'lines: for i in 0..lines.len() {
        let line = &lines[i];
        match finish_in(line, ended + 1, step) {
            Some(id) => return Some((i, id)),
            None => ended = step_behind(line, ended),
        }
    }
    None
}

/// The lemma that a line gives, if it has this id.
fn lemma_named(line: &Line, id: u64) -> Option<&[Lit]>
    ensures { option_map (λ lits. lits.now) result ≡ lemma_named line.now id }
{
    match line {
        Line::Lemma { id: own, lits, .. } => { if *own == id { Some(lits.slice()) } else { None } }
        _ => None,
    }
}

/// The lemma of an id, empty where no line gives it.
pub fn lemma_of(lines: &[Line], id: u64) -> &[Lit]
    ensures { result.now ≡ lemma_in (history_of lines.now) id }
{
    let mut i = lines.len();
    'lines: while i > 0 {
        i -= 1;
        match lemma_named(&lines[i], id) {
            Some(lits) => return lits,
            None => {}
        }
    }
    &[]
}
