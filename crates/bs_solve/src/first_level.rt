//! The first level of a search: the assumptions, the literals of short clauses, and what follows.
ghost use Rattle.std.specs.Prelude.{◌≡◌, ◌<◌, ◌≤◌, [], ◌∷◌, drop, length, IsSome};
ghost use Rattle.bs_clause.specs.Range.{IsWithin, HasVariables};
ghost use Rattle.bs_arena.specs.Arena.{held_at, literals_at};
ghost use Rattle.bs_watch.specs.Places.{AreApart};
ghost use Rattle.bs_watch.specs.Watch.{KeepsService, decided};
ghost use Rattle.bs_solve.specs.FirstLevel.{HasAssumed, IsAssumed, AreAssumed, HasGrown, AreShort, IsShortAssigned, AssignsShorts, HasBegunLevel};

use crate::reading::{clause_len, literal_in};
use bs_arena::{Arena, Ref};
use bs_clause::Lit;
use bs_watch::{Outcome, Watch};

/// How a first level begins.
pub enum LevelStart {
    /// This assumption is false.
    Failed(Lit),
    /// This short clause is false.
    Clash(Ref),
    /// The assumptions and the literals of the short clauses are true.
    Assigned,
}

// Assigns the assumption, if it is open. Whether it is false.
fn assume_one(watch: &mut Watch, assumption: Lit) -> bool
    requires { IsWithin watch.old.trail.vars assumption }
    ensures took { HasAssumed watch.old watch.new (assumption ∷ []) }
    ensures stands { IsAssumed watch.new assumption result }
{
    match watch.value(assumption) {
        None => {
            watch.assign(assumption, None);
            false
        }
        Some(is_true) => !is_true,
    }
}

/// The assumptions take places, until one of them is false, which it answers.
pub fn assume(watch: &mut Watch, assumptions: &[Lit]) -> Option<Lit>
    requires { HasVariables watch.old.trail.vars assumptions.now }
    ensures took { HasAssumed watch.old watch.new assumptions.now }
    ensures ends { AreAssumed watch.new assumptions.now result }
{
    'assumptions: for literal in assumptions {
        if assume_one(watch, *literal) {
            return Some(*literal);
        }
    }
    None
}

// Assigns the literal of a short clause, if it is open. Whether the clause is false.
fn assign_short(watch: &mut Watch, arena: &Arena, r: Ref) -> bool
    requires live { IsSome (held_at arena.now.clauses r) }
    requires few { length (literals_at arena.now.clauses r) < 2 }
    requires range { HasVariables watch.old.trail.vars (literals_at arena.now.clauses r) }
    ensures grown { HasGrown arena.now.clauses watch.old watch.new }
    ensures satisfied { IsShortAssigned arena.now.clauses watch.new r result }
{
    if clause_len(arena, r) == 0 {
        return true;
    }
    let literal = literal_in(arena, r, 0);
    match watch.value(literal) {
        None => {
            watch.assign(literal, Some(r));
            false
        }
        Some(is_true) => !is_true,
    }
}

/// Assigns the literals of the short clauses, until one of them is false.
pub fn assign_shorts(watch: &mut Watch, arena: &Arena, shorts: &[Ref]) -> Outcome
    requires { AreShort watch.old.trail.vars arena.now.clauses shorts.now }
    ensures grown { HasGrown arena.now.clauses watch.old watch.new }
    ensures satisfied { AssignsShorts arena.now.clauses watch.new shorts.now result }
{
    'shorts: for r in shorts {
        if assign_short(watch, arena, *r) {
            return Outcome::Conflict(*r);
        }
    }
    Outcome::Quiet
}

// Assigns the assumptions, and then the literals of the short clauses from a place on.
fn assign_level(watch: &mut Watch, arena: &Arena, shorts: &[Ref], assumptions: &[Lit]) -> LevelStart
    requires short { AreShort watch.old.trail.vars arena.now.clauses shorts.now }
    requires range { HasVariables watch.old.trail.vars assumptions.now }
    ensures { HasBegunLevel watch.old watch.new arena.now.clauses shorts.now assumptions.now result }
{
    let denied = assume(watch, assumptions);
    watch.holds_levels();
    match denied {
        Some(literal) => LevelStart::Failed(literal),
        None => match assign_shorts(watch, arena, shorts) {
            Outcome::Conflict(r) => LevelStart::Clash(r),
            Outcome::Quiet => LevelStart::Assigned,
        },
    }
}

/// Begins the first level behind what stands on the trail: the assumptions, and the literals of the short clauses that do not
/// stand there.
pub fn begin_level(
    watch: &mut Watch,
    arena: &Arena,
    shorts: &[Ref],
    assumptions: &[Lit],
) -> LevelStart
    requires levels { watch.old.levels ≡ [] }
    requires low { length watch.old.trail.places ≤ length shorts.now }
    requires short { AreShort watch.old.trail.vars arena.now.clauses shorts.now }
    requires range { HasVariables watch.old.trail.vars assumptions.now }
    ensures begun { HasBegunLevel (decided watch.old) watch.new arena.now.clauses (drop (length watch.old.trail.places) shorts.now) assumptions.now result }
    ensures serves { KeepsService watch.old watch.new }
    ensures apart { AreApart watch.new.trail.places }
    ensures room { length watch.new.trail.places ≤ watch.new.trail.vars }
{
    let stand = watch.trail().len();
    watch.decide();
    let start = assign_level(watch, arena, &shorts[stand..], assumptions);
    watch.holds_levels();
    start
}
