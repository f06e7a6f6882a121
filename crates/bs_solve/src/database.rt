//! The clauses that stand, in an arena and in watch lists.
ghost use Rattle.std.specs.Prelude.{◌≡◌, ◌+◌, ◌<◌, ◌≤◌, ◌++◌, ◌∷◌, [], length, true, OnOk, IsSome};
ghost use Rattle.bs_clause.specs.Range.{HasVariables};
ghost use Rattle.bs_log.specs.Refusal.{has_distinct_variables};
ghost use Rattle.bs_arena.specs.Arena.{held_at, literals_at, live_words};
ghost use Rattle.bs_watch.specs.Scene.{IsWatchable};
ghost use Rattle.bs_watch.specs.Lists.{IsAttached};
ghost use Rattle.bs_watch.specs.Watch.{Serves, MayAttach};
ghost use Rattle.bs_solve.specs.Database.{HasJoined, rows_for};
ghost use Rattle.bs_solve.specs.Ground.{HasAdded, IsOff};

use crate::reading::clause_len;
use bs_arena::{Arena, Ref};
use bs_clause::{Lit, NoMemory};
use bs_log::Origin;
use bs_solve_lemmas::LoggedClause;
use bs_watch::Watch;

/// What is noted of the clauses beside the watch lists.
#[derive(Drop)]
pub struct Database {
    /// Those of fewer than two literals.
    pub shorts: Vec<Ref>,
    /// The lemmas and the blocks, in the order of their ids.
    pub rows: Vec<LoggedClause>,
}

/// A clause of the arena joins the watch lists, or the short clauses where it has fewer than two literals.
pub fn join(watch: &mut Watch, arena: &Arena, shorts: &mut Vec<Ref>, r: Ref) -> Result<(), NoMemory>
    requires serves { Serves watch.old arena.now.clauses }
    requires live { IsSome (held_at arena.now.clauses r) }
    requires watchable { 2 ≤ length (literals_at arena.now.clauses r) → IsWatchable watch.old.trail.vars (literals_at arena.now.clauses r) }
    requires fresh { ¬ IsAttached watch.old.lists r }
    requires guarded { 2 ≤ length (literals_at arena.now.clauses r) → MayAttach watch.old (literals_at arena.now.clauses r) }
    ensures { OnOk result (HasJoined watch.old watch.new shorts.old.items shorts.new.items arena.now.clauses r) }
{
    if clause_len(arena, r) < 2 {
        shorts.push(r)?;
        return Ok(());
    }
    watch.attach(arena, r)?;
    Ok(())
}

// One more row.
fn push_row(
    rows: &mut Vec<LoggedClause>,
    id: u64,
    clause: Ref,
    is_lemma: bool,
) -> Result<(), NoMemory>
    ensures { OnOk result (rows.new.items ≡ rows.old.items ++ record { id = id; clause = clause; is_lemma = is_lemma } ∷ []) }
{
    rows.push(LoggedClause {
        id,
        clause,
        is_lemma,
    })?;
    Ok(())
}

/// A lemma and a block get a row.
pub fn note(rows: &mut Vec<LoggedClause>, id: u64, r: Ref, origin: Origin) -> Result<(), NoMemory>
    ensures { OnOk result (rows.new.items ≡ rows.old.items ++ rows_for id r origin) }
{
    match origin {
        Origin::Axiom => Ok(()),
        Origin::Learnt => push_row(rows, id, r, true),
        Origin::Blocked => push_row(rows, id, r, false),
        Origin::Retired => Ok(()),
    }
}

/// Adds a clause of fewer than two literals, or of variables that have no value.
pub fn add_clause(
    watch: &mut Watch,
    arena: &mut Arena,
    database: &mut Database,
    id: u64,
    lits: &[Lit],
    origin: Origin,
) -> Result<(), NoMemory>
    requires serves { Serves watch.old arena.old.clauses }
    requires off { 2 ≤ length lits.now → IsOff watch.old.trail.places lits.now }
    requires range { HasVariables watch.old.trail.vars lits.now }
    requires distinct { has_distinct_variables lits.now ≡ true }
    ensures serves { OnOk result (Serves watch.new arena.new.clauses) }
    ensures trail { OnOk result (watch.new.trail ≡ watch.old.trail) }
    ensures levels { OnOk result (watch.new.levels ≡ watch.old.levels) }
    ensures holds_entries { OnOk result (HasAdded watch.old.lists watch.new.lists arena.old.clauses arena.new.clauses database.old database.new
        (record { id = id; origin = origin; literals = lits.now })) }
    ensures words { OnOk result (arena.new.words + live_words arena.old.clauses ≡ arena.old.words + live_words arena.new.clauses) }
{
    let r = arena.add(id, lits)?;
    join(watch, arena, &mut database.shorts, r)?;
    note(&mut database.rows, id, r, origin)?;
    Ok(())
}
