//! A clause that comes between two solves of a step, while literals are assigned.
ghost use Rattle.std.specs.Prelude.{◌≡◌, ◌<◌, ◌≤◌, length, true, option_map, IsSome, IsPermutation, OnOk};
ghost use Rattle.bs_clause.specs.Range.{HasVariables};
ghost use Rattle.bs_log.specs.Refusal.{has_distinct_variables};
ghost use Rattle.bs_arena.specs.Arena.{KeepsOthers, held_at, literals_at};
ghost use Rattle.bs_watch.specs.Scene.{IsWatchable};
ghost use Rattle.bs_watch.specs.Lists.{IsAttached};
ghost use Rattle.bs_watch.specs.Watch.{Serves};
ghost use Rattle.bs_solve.specs.Pausing.{IsGrounded};
ghost use Rattle.bs_solve.specs.Blocking.{IsBetween, IsRetreat, HasImplied, HasOpened, HasEmptied, HasGoneFor, HasHeld, IsSomeKept};
ghost use Rattle.bs_solve.specs.declared.blocking.Retreat.TheVariants.{Implied as ImpliedRetreat, Open as OpenRetreat};

use crate::database::{Database, join, note};
use crate::reading::{clause_len, literal_in};
use crate::value::is_true;
use bs_arena::{Arena, Ref};
use bs_clause::{Lit, NoMemory};
use bs_log::Origin;
use bs_watch::Watch;

/// Where the trail goes back for a clause: to what stands for good, to the end of a level at which the clause has one open literal and
/// else false ones, or of one at which it has two open literals.
pub enum Retreat {
    Bottom,
    Implied(u32),
    Open(u32),
}

// The retreat for the levels of the two literals that became false last.
fn retreat_between(high: u32, low: u32) -> Retreat
    ensures { IsBetween high low result }
{
    if low == 0 {
        return Retreat::Bottom;
    }
    if low < high {
        return Retreat::Implied(low);
    }
    if high < 2 {
        return Retreat::Bottom;
    }
    Retreat::Open(high - 1)
}

// Moves the two literals to the front of a clause that became false last, and finds where the trail goes back for it. A
// clause that is not false, or has fewer than two literals, asks for the trail that stands for good.
fn retreat_of(watch: &Watch, arena: &mut Arena, r: Ref) -> Retreat
    requires live { IsSome (held_at arena.old.clauses r) }
    requires watchable { 2 ≤ length (literals_at arena.old.clauses r) → IsWatchable watch.now.trail.vars (literals_at arena.old.clauses r) }
    ensures live { IsSome (held_at arena.new.clauses r) }
    ensures watchable { 2 ≤ length (literals_at arena.new.clauses r) → IsWatchable watch.now.trail.vars (literals_at arena.new.clauses r) }
    ensures same { IsPermutation (literals_at arena.old.clauses r) (literals_at arena.new.clauses r) }
    ensures others { KeepsOthers arena.old.clauses arena.new.clauses r }
    ensures id { option_map (λ h. h.id) (held_at arena.new.clauses r) ≡ option_map (λ h. h.id) (held_at arena.old.clauses r) }
    ensures retreat { IsRetreat watch.now.trail.places (literals_at arena.new.clauses r) result }
{
    if clause_len(arena, r) < 2 {
        return Retreat::Bottom;
    }
    watch.choose_watches(arena, r);
    let first = literal_in(arena, r, 0);
    if !is_true(watch, first.negate()) {
        return Retreat::Bottom;
    }
    let second = literal_in(arena, r, 1);
    retreat_between(watch.level_of(first), watch.level_of(second))
}

// Goes back to the end of the level, assigns the clause's first literal, and attaches the clause.
fn imply_at(
    watch: &mut Watch,
    arena: &Arena,
    shorts: &mut Vec<Ref>,
    r: Ref,
    level: u32,
) -> Result<(), NoMemory>
    requires serves { Serves watch.old arena.now.clauses }
    requires live { IsSome (held_at arena.now.clauses r) }
    requires watchable { 2 ≤ length (literals_at arena.now.clauses r) → IsWatchable watch.old.trail.vars (literals_at arena.now.clauses r) }
    requires fresh { ¬ IsAttached watch.old.lists r }
    requires retreat { IsRetreat watch.old.trail.places (literals_at arena.now.clauses r) (ImpliedRetreat level) }
    ensures { OnOk result (HasImplied watch.old watch.new arena.now.clauses shorts.old.items shorts.new.items r) }
{
    watch.holds_levels();
    watch.cancel_to(level);
    watch.assign(literal_in(arena, r, 0), Some(r));
    watch.holds_levels();
    join(watch, arena, shorts, r)?;
    Ok(())
}

// Goes back to the end of the level, and attaches the clause.
fn open_at(
    watch: &mut Watch,
    arena: &Arena,
    shorts: &mut Vec<Ref>,
    r: Ref,
    level: u32,
) -> Result<(), NoMemory>
    requires serves { Serves watch.old arena.now.clauses }
    requires live { IsSome (held_at arena.now.clauses r) }
    requires watchable { 2 ≤ length (literals_at arena.now.clauses r) → IsWatchable watch.old.trail.vars (literals_at arena.now.clauses r) }
    requires fresh { ¬ IsAttached watch.old.lists r }
    requires retreat { IsRetreat watch.old.trail.places (literals_at arena.now.clauses r) (OpenRetreat level) }
    ensures { OnOk result (HasOpened watch.old watch.new arena.now.clauses shorts.old.items shorts.new.items r) }
{
    watch.holds_levels();
    watch.cancel_to(level);
    join(watch, arena, shorts, r)?;
    Ok(())
}

// Goes back to what stands for good, and the clause joins.
fn join_at_bottom(
    watch: &mut Watch,
    arena: &Arena,
    shorts: &mut Vec<Ref>,
    r: Ref,
) -> Result<(), NoMemory>
    requires serves { Serves watch.old arena.now.clauses }
    requires live { IsSome (held_at arena.now.clauses r) }
    requires watchable { 2 ≤ length (literals_at arena.now.clauses r) → IsWatchable watch.old.trail.vars (literals_at arena.now.clauses r) }
    requires fresh { ¬ IsAttached watch.old.lists r }
    requires ground { IsGrounded watch.old (literals_at arena.now.clauses r) }
    ensures { OnOk result (HasEmptied watch.old watch.new arena.now.clauses shorts.old.items shorts.new.items r) }
{
    watch.cancel_to(0);
    join(watch, arena, shorts, r)?;
    Ok(())
}

// Goes back to the retreat, and the clause joins.
fn join_back(
    watch: &mut Watch,
    arena: &Arena,
    shorts: &mut Vec<Ref>,
    r: Ref,
    retreat: Retreat,
) -> Result<(), NoMemory>
    requires serves { Serves watch.old arena.now.clauses }
    requires live { IsSome (held_at arena.now.clauses r) }
    requires watchable { 2 ≤ length (literals_at arena.now.clauses r) → IsWatchable watch.old.trail.vars (literals_at arena.now.clauses r) }
    requires fresh { ¬ IsAttached watch.old.lists r }
    requires ground { IsGrounded watch.old (literals_at arena.now.clauses r) }
    requires retreat { IsRetreat watch.old.trail.places (literals_at arena.now.clauses r) retreat }
    ensures { OnOk result (HasGoneFor retreat watch.old watch.new arena.now.clauses shorts.old.items shorts.new.items r) }
{
    match retreat {
        Retreat::Bottom => {
            join_at_bottom(watch, arena, shorts, r)?;
            Ok(())
        }
        Retreat::Implied(level) => {
            imply_at(watch, arena, shorts, r, level)?;
            Ok(())
        }
        Retreat::Open(level) => {
            open_at(watch, arena, shorts, r, level)?;
            Ok(())
        }
    }
}

/// Adds a block between two solves of a step. The trail goes back no further than to where the clause has one open literal,
/// which is then assigned, or two.
pub fn add_between(
    watch: &mut Watch,
    arena: &mut Arena,
    database: &mut Database,
    id: u64,
    lits: &[Lit],
) -> Result<(), NoMemory>
    requires kept { IsSomeKept watch.old arena.old.clauses database.old }
    requires ground { IsGrounded watch.old lits.now }
    requires range { HasVariables watch.old.trail.vars lits.now }
    requires distinct { has_distinct_variables lits.now ≡ true }
    ensures { OnOk result (HasHeld watch.old watch.new arena.old.clauses arena.new.clauses database.old database.new id lits.now) }
{
    let r = arena.add(id, lits)?;
    let retreat = retreat_of(watch, arena, r);
    join_back(watch, arena, &mut database.shorts, r, retreat)?;
    note(&mut database.rows, id, r, Origin::Blocked)?;
    Ok(())
}
