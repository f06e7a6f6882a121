//! The end of a step's list, against the lines of its step.
ghost use Rattle.std.specs.Prelude.{◌≡◌, ◌∷◌, [], ◌++◌, ◌==◌, ◌&&◌, ◌||◌, length, not, count_by, nat_eq, Some, IfOk, OnOk};
ghost use Rattle.std.specs.Cmp.Lexicographic.{pointwise};
ghost use Rattle.std.specs.List.{list_all, list_any};
ghost use Rattle.bs_log.specs.Steps.{is_lemma_line, last_solve, is_spent};
ghost use Rattle.bs_report.specs.Valid.{finishes_in, is_right_finish};
ghost use Rattle.bs_audit.specs.Logged.{ends_step};
ghost use Rattle.bs_audit.specs.StepLines.{is_delete, undeleted};

use crate::assumed::Assumed;
use crate::step_lines::{is_delete, last_solve};
use bs_bits::{List, NoMemory};
use bs_clause::Lit;
use bs_log::Line;
use bs_report::ListEnd;
use std::alloc::Global;

/// Puts the lemma that a finish line names at the end.
fn push_finish(ids: &mut List<u64>, line: &Line) -> Result<(), NoMemory>
    ensures { OnOk result (ids.new ≡ ids.old ++ finishes_in (line.now ∷ [])) }
{
    match line {
        Line::Finish { id } => ids.push(*id),
        _ => Ok(()),
    }
}

/// The lemmas that finish lines name.
fn finishes_of(alloc: Global, lines: &[Line]) -> Result<List<u64>, NoMemory>
    ensures { IfOk result (λ ids. ids ≡ finishes_in lines.now) }
{
    let mut ids = List::new(alloc);
    'lines: for line in lines {
        push_finish(&mut ids, line)?;
    }
    Ok(ids)
}

/// Whether the ids are this one alone.
fn are_only(ids: &[u64], id: u64) -> bool
    ensures { result ≡ pointwise nat_eq ids.now (id ∷ []) }
{
    match ids {
        [only] => *only == id,
        _ => false,
    }
}

/// Whether a line adds a lemma that ends the step.
fn ends_step(assumed: &Assumed<'_>, line: &Line) -> bool
    ensures { result ≡ ends_step assumed.now line.now }
{
    match line {
        Line::Lemma { lits, .. } => assumed.denies(lits.slice()),
        _ => false,
    }
}

/// Whether a line adds a lemma.
fn is_lemma(line: &Line) -> bool
    ensures { result ≡ is_lemma_line line.now }
{
    matches!(line, Line::Lemma { .. })
}

/// How many lines there are beside the delete lines.
fn count_of(lines: &[Line]) -> usize
    ensures { result ≡ count_by (λ line. not (is_delete line)) lines.now }
{
    lines.iter().filter(|line| !is_delete(line)).count()
}

/// Whether all lines are lemmas beside the delete lines.
fn are_lemmas(lines: &[Line]) -> bool
    ensures { result ≡ list_all (λ line. is_delete line || is_lemma_line line) lines.now }
{
    lines.iter().all(|line| is_delete(line) || is_lemma(line))
}

/// Whether a line adds a lemma that ends the step.
fn some_ends(assumed: &Assumed<'_>, lines: &[Line]) -> bool
    ensures { result ≡ list_any (ends_step assumed.now) lines.now }
{
    lines.iter().any(|line| ends_step(assumed, line))
}

/// Whether the lines, without the delete lines, are exactly so many lemmas, of which none ends the step.
fn are_spent(
    alloc: Global,
    budget: u64,
    assumptions: &[Lit],
    lines: &[Line],
) -> Result<bool, NoMemory>
    ensures { IfOk result (λ spent. spent ≡ is_spent budget assumptions.now (Some (undeleted lines.now))) }
{
    if count_of(lines) as u64 != budget {
        return Ok(false);
    }
    if !are_lemmas(lines) {
        return Ok(false);
    }
    let assumed = Assumed::new(alloc, assumptions)?;
    Ok(!some_ends(&assumed, lines))
}

/// Whether the last solve of a step spent the budget of lemmas.
fn is_spent(
    alloc: Global,
    budget: u64,
    assumptions: &[Lit],
    lines: &[Line],
) -> Result<bool, NoMemory>
    ensures { IfOk result (λ spent. spent ≡ is_spent budget assumptions.now (last_solve (undeleted lines.now))) }
{
    match last_solve(lines) {
        None => Ok(false),
        Some(lines) => are_spent(alloc, budget, assumptions, lines),
    }
}

/// Whether the finish lines name this lemma alone.
fn is_finished_by(alloc: Global, lines: &[Line], id: u64) -> Result<bool, NoMemory>
    ensures { IfOk result (λ right. right ≡ pointwise nat_eq (finishes_in lines.now) (id ∷ [])) }
{
    let named = finishes_of(alloc, lines)?;
    Ok(are_only(named.slice(), id))
}

/// Whether there is no finish line.
fn is_unfinished(alloc: Global, lines: &[Line]) -> Result<bool, NoMemory>
    ensures { IfOk result (λ right. right ≡ (length (finishes_in lines.now) == 0)) }
{
    let named = finishes_of(alloc, lines)?;
    Ok(named.len() == 0)
}

/// Whether there is no finish line, and the last solve spent the budget of lemmas.
fn ends_spent(
    alloc: Global,
    budget: u64,
    assumptions: &[Lit],
    lines: &[Line],
) -> Result<bool, NoMemory>
    ensures { IfOk result (λ right. right ≡ ((length (finishes_in lines.now) == 0) && is_spent budget assumptions.now (last_solve (undeleted lines.now)))) }
{
    if !is_unfinished(alloc, lines)? {
        return Ok(false);
    }
    is_spent(alloc, budget, assumptions, lines)
}

/// Whether a list's end agrees with the lines of its step.
pub fn is_right_end(
    alloc: Global,
    budget: u64,
    assumptions: &[Lit],
    lines: &[Line],
    end: ListEnd,
) -> Result<bool, NoMemory>
    ensures { IfOk result (λ right. right ≡ is_right_finish budget assumptions.now (undeleted lines.now) end (finishes_in lines.now)) }
{
    match end {
        ListEnd::Finished(id) => is_finished_by(alloc, lines, id),
        ListEnd::Candidates => is_unfinished(alloc, lines),
        ListEnd::Conflicts => ends_spent(alloc, budget, assumptions, lines),
    }
}
