//! Which two literals of a clause are watched: those that are not false, or became so last.
ghost use Rattle.std.specs.Prelude.{◌≡◌, ◌<◌, ◌≤◌, length, map, option_map, IsTrue, IsSome};
ghost use Rattle.bs_clause.specs.Range.{HasVariables};
ghost use Rattle.bs_arena.specs.Arena.{AreCodes, KeepsOthers, held_at, literal_of, literals_at};
ghost use Rattle.bs_watch.specs.Places.{AreApart};
ghost use Rattle.bs_watch.specs.Scene.{KeepsRoom};
ghost use Rattle.bs_watch.specs.Choice.{IsNoLower, IsHigherOf, IsHighestOf, IsLifted};

use crate::trail::Trail;
use bs_arena::{Arena, Ref};
use bs_clause::Lit;

// Whether the first literal is higher: it is not false and the second one is, or both are and it
// became so on a higher level.
fn is_higher(trail: &Trail, l: Lit, m: Lit) -> bool
    requires first { l.variable ≤ trail.now.vars }
    requires second { m.variable ≤ trail.now.vars }
    ensures higher { IsTrue result → IsNoLower trail.now.places l m }
    ensures not_higher { (¬ IsTrue result) → IsNoLower trail.now.places m l }
{
    if !trail.is_true(m.negate()) {
        return false;
    }
    if !trail.is_true(l.negate()) {
        return true;
    }
    trail.level_of(l) > trail.level_of(m)
}

// The place of the higher one of two literals.
fn higher(trail: &Trail, codes: &[u32], a: usize, b: usize) -> usize
    requires apart { AreApart trail.now.places }
    requires codes { AreCodes codes.now }
    requires range { HasVariables trail.now.vars (map literal_of codes.now) }
    requires first { a < length codes.now }
    requires second { b < length codes.now }
    ensures { IsHigherOf trail.now.places (map literal_of codes.now) a b result }
{
    if is_higher(trail, Lit::from_code(codes[b]), Lit::from_code(codes[a])) {
        b
    } else {
        a
    }
}

// The place of the highest literal from a place on.
fn highest(trail: &Trail, codes: &[u32], start: usize) -> usize
    requires apart { AreApart trail.now.places }
    requires codes { AreCodes codes.now }
    requires range { HasVariables trail.now.vars (map literal_of codes.now) }
    requires some { start < length codes.now }
    ensures { IsHighestOf trail.now.places (map literal_of codes.now) start (length codes.now)
        result }
{
    let mut best = start;
    let mut at = start + 1;
    'literals: while at < codes.len() {
        best = higher(trail, codes, best, at);
        at += 1;
    }
    best
}

/// Moves the highest of a clause's literals from a place on to that place.
pub fn lift(trail: &Trail, arena: &mut Arena, r: Ref, to: usize)
    requires apart { AreApart trail.now.places }
    requires live { IsSome (held_at arena.old.clauses r) }
    requires range { HasVariables trail.now.vars (literals_at arena.old.clauses r) }
    requires some { to < length (literals_at arena.old.clauses r) }
    ensures live { IsSome (held_at arena.new.clauses r) }
    ensures lifted { IsLifted trail.now.places (literals_at arena.old.clauses r)
        (literals_at arena.new.clauses r) to }
    ensures others { KeepsOthers arena.old.clauses arena.new.clauses r }
    ensures id { option_map (λ h. h.id) (held_at arena.new.clauses r)
        ≡ option_map (λ h. h.id) (held_at arena.old.clauses r) }
    ensures room { KeepsRoom arena.old arena.new }
{
    let best = highest(trail, arena.lits(r), to);
    arena.swap(r, to, best);
}
