//! A learnt clause in the arena and on the trail.
ghost use Rattle.std.specs.Prelude.{◌≡◌, ◌<◌, ◌≤◌, length, option_map, IsSome, IsPermutation, OnOk};
ghost use Rattle.bs_arena.specs.Arena.{KeepsOthers, held_at, literals_at};
ghost use Rattle.bs_watch.specs.Trail.{IsConflict};
ghost use Rattle.bs_watch.specs.Places.{literals_of};
ghost use Rattle.bs_watch.specs.Scene.{IsWatchable};
ghost use Rattle.bs_watch.specs.Watch.{Serves};
ghost use Rattle.bs_solve.specs.Backjump.{IsBackLevel, IsSomeLearntClause, JumpsBack};

use crate::database::{Database, join, note};
use crate::reading::{clause_len, literal_in};
use bs_arena::{Arena, Ref};
use bs_clause::{Lit, NoMemory};
use bs_log::Origin;
use bs_watch::Watch;

/// Moves the two literals to the front of a false clause that became false last. It answers the level of the second one.
pub fn back_level(watch: &Watch, arena: &mut Arena, r: Ref) -> u32
    requires live { IsSome (held_at arena.old.clauses r) }
    requires watchable { 2 ≤ length (literals_at arena.old.clauses r) → IsWatchable watch.now.trail.vars (literals_at arena.old.clauses r) }
    requires lost { IsConflict (literals_of watch.now.trail.places) (literals_at arena.old.clauses r) }
    ensures live { IsSome (held_at arena.new.clauses r) }
    ensures watchable { 2 ≤ length (literals_at arena.new.clauses r) → IsWatchable watch.now.trail.vars (literals_at arena.new.clauses r) }
    ensures same { IsPermutation (literals_at arena.old.clauses r) (literals_at arena.new.clauses r) }
    ensures others { KeepsOthers arena.old.clauses arena.new.clauses r }
    ensures id { option_map (λ h. h.id) (held_at arena.new.clauses r) ≡ option_map (λ h. h.id) (held_at arena.old.clauses r) }
    ensures level { IsBackLevel watch.now.trail.places (literals_at arena.new.clauses r) result }
{
    if clause_len(arena, r) < 2 {
        return 1;
    }
    watch.choose_watches(arena, r);
    let second = literal_in(arena, r, 1);
    watch.level_of(second)
}

/// Adds a learnt clause, goes back to the first level at whose end it implies its first literal, and assigns that literal.
pub fn jump_back(
    watch: &mut Watch,
    arena: &mut Arena,
    database: &mut Database,
    id: u64,
    lits: &[Lit],
) -> Result<(), NoMemory>
    requires serves { Serves watch.old arena.old.clauses }
    requires backjump { IsSomeLearntClause watch.old lits.now }
    ensures { OnOk result (JumpsBack watch.old watch.new arena.old.clauses arena.new.clauses database.old database.new id lits.now) }
{
    watch.holds_levels();
    let r = arena.add(id, lits)?;
    let level = back_level(watch, arena, r);
    watch.cancel_to(level);
    watch.assign(literal_in(arena, r, 0), Some(r));
    watch.holds_levels();
    join(watch, arena, &mut database.shorts, r)?;
    note(&mut database.rows, id, r, Origin::Learnt)?;
    Ok(())
}
