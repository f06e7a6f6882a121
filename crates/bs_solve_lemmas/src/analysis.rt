//! The walk from a false clause back along the trail, over the marks that are to come.
ghost use Rattle.std.specs.Prelude.{◌≡◌, ◌⊎◌, ◌+◌, ◌-◌, ◌<◌, ◌≤◌, length, take, All, IfOk, true, false};
ghost use Rattle.bs_clause.specs.Literal.{negation};
ghost use Rattle.bs_clause.specs.Range.{HasVariables};
ghost use Rattle.bs_log.specs.Refusal.{has_distinct_variables};
ghost use Rattle.bs_watch.specs.Trail.{IsQuiet};
ghost use Rattle.bs_watch.specs.Places.{IsLiteralAt, literals_of};
ghost use Rattle.bs_solve_lemmas.specs.Reasons.{IsReasoned, IsConflictAt, AreSpared, IsBelowLevels, live_clauses, last_start};
ghost use Rattle.bs_solve_lemmas.specs.AnalysisWalk.{IsLearnt};
ghost use Rattle.bs_solve_lemmas.specs.Marks.{IsClear};
ghost use Rattle.bs_solve_lemmas.specs.ImplicationPoint.{IsLastDecision, IsFirstPoint, IsReasonless, IsReasonIn};

use crate::marking::{lemma_of, mark_clause, marked_lits, trade};
use crate::marks::Marks;
use bs_arena::{Arena, Ref};
use bs_clause::{Lit, Lits, NoMemory};
use bs_watch::Watch;
use std::alloc::Global;

/// A clause that is learnt from a conflict.
#[derive(Drop)]
pub struct Learnt {
    pub lits: Lits,
    /// The clauses that were resolved, the false one first.
    pub hints: Vec<Ref>,
}

// The literal in a place of the trail, which counts from 0.
fn literal_at(watch: &Watch, at: usize) -> Lit
    requires { at < length watch.now.trail.places }
    ensures literal { IsLiteralAt watch.now.trail.places at result }
    ensures range { result.variable ≤ watch.now.trail.vars }
{
    watch.holds_levels();
    watch.trail()[at]
}

// The clause that implied the literal in a place of the trail.
fn reason_at(watch: &Watch, at: usize, l: Lit) -> Option<Ref>
    requires literal { IsLiteralAt watch.now.trail.places at l }
    requires range { l.variable ≤ watch.now.trail.vars }
    ensures { IsReasonIn watch.now.trail.places at result }
{
    watch.holds_levels();
    watch.reason(l)
}

/// Resolves the false clause down to the first unique implication point: the newest place of the
/// last level whose literal is the only one of that level that the clause denies. The lemma begins
/// with that literal's negation.
pub fn first_point(
    alloc: Global,
    watch: &Watch,
    arena: &Arena,
    marks: &mut Marks,
    conflict: Ref,
) -> Result<Learnt, NoMemory>
    requires reasoned { IsReasoned arena.now.clauses watch.now.trail.places }
    requires range { All (HasVariables watch.now.trail.vars) (live_clauses arena.now.clauses) }
    requires distinct { All (λ c. has_distinct_variables c ≡ true)
        (live_clauses arena.now.clauses) }
    requires conflict { IsConflictAt arena.now.clauses (literals_of watch.now.trail.places)
        conflict }
    requires start { IsLastDecision watch.now.trail.places (last_start watch.now.levels) }
    requires quiet { IsQuiet
        (literals_of (take (last_start watch.now.levels) watch.now.trail.places))
        (live_clauses arena.now.clauses) }
    requires clear { IsClear (watch.now.trail.vars + 1) marks.old }
    ensures learnt { IfOk result (λ r. IsLearnt arena.now.clauses r.lits r.hints.items) }
    ensures first { IfOk result (λ r. IsFirstPoint arena.now.clauses watch.now.trail.places
        conflict (last_start watch.now.levels) r.lits) }
    ensures clear { IfOk result (λ _. IsClear (watch.now.trail.vars + 1) marks.new) }
{
    watch.holds_levels();
    let mut hints = Vec::new(alloc);
    hints.push(conflict)?;
    let mut ahead = mark_clause(marks, watch, arena, conflict)?;
    let mut down = watch.trail().len();
    'walk: loop {
        down -= 1;
        let pivot = literal_at(watch, down);
        if marks.has(pivot) {
            let only = ahead == 1;
            if only {
                let lits = lemma_of(alloc, marks, pivot)?;
                return Ok(Learnt { lits, hints });
            }
            match reason_at(watch, down, pivot) {
                Some(reason) => {
                    let more = trade(marks, watch, arena, &mut hints, reason, pivot)?;
                    ahead = ahead - 1 + more;
                }
                None => {}
            }
        }
    }
}

// Whether a place of the trail is of a level. One that is not stands for good, and so do those below it.
fn is_levelled(watch: &Watch, at: usize) -> bool
    requires { at < length watch.now.trail.places }
    ensures { result ≡ false → IsBelowLevels watch.now.levels at }
{
    watch.holds_levels();
    watch.level_of(watch.trail()[at]) > 0
}

// Whether there is a place of a level among the first so many.
fn goes_on(watch: &Watch, down: usize) -> bool
    requires { down ≤ length watch.now.trail.places }
    ensures some { result ≡ true → 0 < down }
    ensures none { result ≡ false → (down ≤ 0) ⊎ IsBelowLevels watch.now.levels (down - 1) }
{
    if down == 0 {
        return false;
    }
    is_levelled(watch, down - 1)
}

/// Resolves the false clause until it denies only literals that no clause implied. It looks at no place that stands for good.
pub fn to_reasonless(
    alloc: Global,
    watch: &Watch,
    arena: &Arena,
    marks: &mut Marks,
    conflict: Ref,
) -> Result<Learnt, NoMemory>
    requires reasoned { IsReasoned arena.now.clauses watch.now.trail.places }
    requires range { All (HasVariables watch.now.trail.vars) (live_clauses arena.now.clauses) }
    requires distinct { All (λ c. has_distinct_variables c ≡ true)
        (live_clauses arena.now.clauses) }
    requires conflict { IsConflictAt arena.now.clauses (literals_of watch.now.trail.places)
        conflict }
    requires spared { AreSpared arena.now.clauses watch.now.levels watch.now.trail.places }
    requires clear { IsClear (watch.now.trail.vars + 1) marks.old }
    ensures learnt { IfOk result (λ r. IsLearnt arena.now.clauses r.lits r.hints.items) }
    ensures reasonless { IfOk result (λ r.
        All (λ l. IsReasonless watch.now.trail.places (negation l)) r.lits) }
    ensures clear { IfOk result (λ _. IsClear (watch.now.trail.vars + 1) marks.new) }
{
    watch.holds_levels();
    let mut hints = Vec::new(alloc);
    hints.push(conflict)?;
    mark_clause(marks, watch, arena, conflict)?;
    let mut down = watch.trail().len();
    'walk: while goes_on(watch, down) {
        down -= 1;
        let pivot = literal_at(watch, down);
        if marks.has(pivot) {
            match reason_at(watch, down, pivot) {
                Some(reason) => {
                    trade(marks, watch, arena, &mut hints, reason, pivot)?;
                }
                None => {}
            }
        }
    }
    let lits = marked_lits(alloc, marks)?;
    Ok(Learnt { lits, hints })
}
