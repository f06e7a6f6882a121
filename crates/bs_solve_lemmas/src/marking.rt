//! The marks of a clause's variables, and the clause of the marked literals.
ghost use Rattle.std.specs.Prelude.{◌≡◌, ◌⊎◌, ◌+◌, ◌<◌, ◌≤◌, ◌∷◌, ◌++◌, [], length, map, drop, take, not, ◌&&◌, All, IfOk, is_some, true};
ghost use Rattle.bs_clause.specs.Literal.{negation, has_literal};
ghost use Rattle.bs_arena.specs.Arena.{AreCodes, literal_of, literals_at, held_at};
ghost use Rattle.bs_watch.specs.Trail.{IsFalseOn};
ghost use Rattle.bs_watch.specs.Places.{literals_of};
ghost use Rattle.bs_solve_lemmas.specs.Reasons.{last_start};
ghost use Rattle.bs_solve_lemmas.specs.Marks.{is_marked, marks_in, marked_with, unmarked, HasMarked, HasTraded, HasCounted, HasMoved, AreTouched, AreWithin};

use crate::marks::Marks;
use bs_arena::{Arena, Ref};
use bs_clause::{Lit, Lits, NoMemory};
use bs_watch::Watch;
use std::alloc::Global;

// Marks the literal's variable. Whether it had no mark, and got its value on the last level.
fn mark_one(marks: &mut Marks, watch: &Watch, m: Lit) -> Result<bool, NoMemory>
    requires range { m.variable < length marks.old.flags }
    requires known { (is_marked marks.old m ≡ true)
        ⊎ IsFalseOn (literals_of watch.now.trail.places) m }
    ensures state { IfOk result (λ _. marks.new ≡ marked_with marks.old m) }
    ensures is_ahead { IfOk result (λ is_ahead. is_ahead ≡ (not (is_marked marks.old m) &&
        not (has_literal (literals_of (take (last_start watch.now.levels)
        watch.now.trail.places)) (negation m)))) }
{
    if !marks.add(m)? {
        return Ok(false);
    }
    watch.holds_levels();
    Ok(watch.level_of(m) == watch.level())
}

// Marks the variables of a clause, which its codes give. How many places of the last level got a
// mark.
fn mark_codes(marks: &mut Marks, watch: &Watch, codes: &[u32]) -> Result<usize, NoMemory>
    requires codes { AreCodes codes.now }
    requires range { AreWithin marks.old (map literal_of codes.now) }
    requires known { All (λ m. (is_marked marks.old m ≡ true)
        ⊎ IsFalseOn (literals_of watch.now.trail.places) m) (map literal_of codes.now) }
    ensures marked { IfOk result (λ _. HasMarked marks.old marks.new (map literal_of codes.now)) }
    ensures count { IfOk result (λ more.
        marks_in marks.new (drop (last_start watch.now.levels) watch.now.trail.places)
        ≡ more + marks_in marks.old (drop (last_start watch.now.levels) watch.now.trail.places)) }
{
    watch.holds_levels();
    let mut ahead = 0;
    for place in 0..codes.len() {
        if mark_one(marks, watch, Lit::from_code(codes[place]))? {
            ahead += 1;
        }
    }
    Ok(ahead)
}

/// Marks the variables of a live clause. How many places of the last level got a mark.
pub fn mark_clause(
    marks: &mut Marks,
    watch: &Watch,
    arena: &Arena,
    r: Ref,
) -> Result<usize, NoMemory>
    requires live { is_some (held_at arena.now.clauses r) ≡ true }
    requires range { AreWithin marks.old (literals_at arena.now.clauses r) }
    requires known { All (λ m. (is_marked marks.old m ≡ true)
        ⊎ IsFalseOn (literals_of watch.now.trail.places) m) (literals_at arena.now.clauses r) }
    ensures marked { IfOk result (λ _.
        HasMarked marks.old marks.new (literals_at arena.now.clauses r)) }
    ensures count { IfOk result (λ more.
        marks_in marks.new (drop (last_start watch.now.levels) watch.now.trail.places)
        ≡ more + marks_in marks.old (drop (last_start watch.now.levels) watch.now.trail.places)) }
{
    let more = mark_codes(marks, watch, arena.lits(r))?;
    Ok(more)
}

/// The reason of a marked literal becomes a hint, and its other variables get marks in place of the
/// literal's. How many places of the last level got a mark.
pub fn trade(
    marks: &mut Marks,
    watch: &Watch,
    arena: &Arena,
    hints: &mut Vec<Ref>,
    reason: Ref,
    pivot: Lit,
) -> Result<usize, NoMemory>
    requires live { is_some (held_at arena.now.clauses reason) ≡ true }
    requires range { AreWithin marks.old (literals_at arena.now.clauses reason) }
    requires pivot { pivot.variable < length marks.old.flags }
    requires known { All (λ m. (is_marked marks.old m ≡ true)
        ⊎ IsFalseOn (literals_of watch.now.trail.places) m)
        (literals_at arena.now.clauses reason) }
    requires marked { is_marked marks.old pivot ≡ true }
    ensures hints { IfOk result (λ _. hints.new.items ≡ hints.old.items ++ reason ∷ []) }
    ensures marks { IfOk result (λ _.
        HasTraded marks.old marks.new (literals_at arena.now.clauses reason) pivot) }
    ensures count { IfOk result (HasCounted watch.now.trail.places (last_start watch.now.levels)
        marks.old marks.new pivot) }
{
    watch.holds_levels();
    hints.push(reason)?;
    let more = mark_clause(marks, watch, arena, reason)?;
    marks.remove(pivot);
    Ok(more)
}

/// The clause of a literal's negation and the marked literals of other variables. It clears the
/// marks.
pub fn lemma_of(alloc: Global, marks: &mut Marks, point: Lit) -> Result<Lits, NoMemory>
    requires range { point.variable < length marks.old.flags }
    requires touched { AreTouched marks.old }
    ensures { IfOk result
        (HasMoved (unmarked marks.old point) marks.new (negation point ∷ [])) }
{
    let mut lits = Lits::new(alloc);
    lits.push(point.negate())?;
    marks.remove(point);
    marks.move_to(&mut lits)?;
    Ok(lits)
}

/// The clause of the marked literals. It clears the marks.
pub fn marked_lits(alloc: Global, marks: &mut Marks) -> Result<Lits, NoMemory>
    requires { AreTouched marks.old }
    ensures { IfOk result (HasMoved marks.old marks.new []) }
{
    let mut lits = Lits::new(alloc);
    marks.move_to(&mut lits)?;
    Ok(lits)
}
