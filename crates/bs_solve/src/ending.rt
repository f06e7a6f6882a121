//! The end of a step: the unit of its activation literal comes, and what is not kept goes.
ghost use Rattle.std.specs.Prelude.{◌≡◌, ◌≤◌, ◌*◌, length, IfOk};
ghost use Rattle.bs_clause.specs.Literal.{negation};
ghost use Rattle.bs_watch.specs.Places.{IsUnassigned};
ghost use Rattle.bs_arena.specs.Arena.{live_words};
ghost use Rattle.bs_watch.specs.Watch.{Serves};
ghost use Rattle.bs_solve_lemmas.specs.Keeping.{Ascends};
ghost use Rattle.bs_solve_lemmas.specs.Notes.{GoBy};
ghost use Rattle.bs_solve.specs.Database.{entries};
ghost use Rattle.bs_solve.specs.Learning.{IsAtRest};
ghost use Rattle.bs_solve.specs.Dropping.{marked, AreKnownIn, AreStaying};
ghost use Rattle.bs_solve.specs.Ending.{HasPrepared, IsSomeSettling, HasSettled};

use crate::database::Database;
use crate::dropping::{CountedRows, compact_where_due, drop_leaving, known_after};
use crate::retiring::retire;
use bs_arena::{Arena, Renaming};
use bs_clause::{Lit, NoMemory};
use bs_solve_lemmas::{Activations, Leaving, Recording, find_leaving};
use bs_watch::Watch;
use std::alloc::Global;

/// Adds the unit of the step's negated activation literal, whose literal stands on the trail from then on, and finds what is not kept then. There is room then for a compaction.
pub fn prepare(
    alloc: Global,
    proof: &Recording,
    watch: &mut Watch,
    arena: &mut Arena,
    renaming: &mut Renaming,
    database: &mut Database,
    activations: Activations,
    known: CountedRows,
    activation: Lit,
) -> Result<Leaving, NoMemory>
    requires rest { IsAtRest proof.now watch.old arena.old.clauses database.old }
    requires own { activations.own ≡ proof.now.problem.vars }
    requires free { IsUnassigned watch.old.trail (negation activation) }
    requires known { AreKnownIn activations.own activations.steps (marked (entries proof.now)) known.rows known.long }
    ensures { IfOk result (HasPrepared proof.now activations.steps watch.old watch.new arena.new.clauses database.new renaming.new.spare activation) }
{
    proof.holds_ids();
    let next = proof.next_id()?;
    retire(watch, arena, database, next, activation.negate())?;
    let leaving = find_leaving(
        alloc,
        arena,
        database.rows.as_slice(),
        activations,
        known.rows,
        known.long,
    )?;
    renaming.reserve(arena.count())?;
    Ok(leaving)
}

/// What is leaving goes, and the arena keeps at most twice the words of its live clauses, which move only where it would have
/// more. It takes no memory, and answers what is known of the lemmas that stay.
pub fn settle(
    watch: &mut Watch,
    arena: &mut Arena,
    renaming: &mut Renaming,
    database: &mut Database,
    leaving: &Leaving,
    activations: Activations,
    known: CountedRows,
) -> CountedRows
    requires serves { Serves watch.old arena.old.clauses }
    requires room { length arena.old.clauses ≤ renaming.old.spare }
    requires ascends { Ascends database.old.rows.items }
    requires gone { GoBy arena.old.clauses database.old.rows.items leaving.now.start leaving.now.ids leaving.now.clauses.items leaving.now.watched.items }
    requires staying { AreStaying arena.old.clauses database.old.shorts.items watch.old.trail.places leaving.now.ids }
    requires some { IsSomeSettling activations.own activations.steps known watch.old arena.old.clauses database.old }
    ensures settled { HasSettled activations.own activations.steps watch.old watch.new arena.old.clauses arena.new.clauses database.old database.new leaving.now.ids result }
    ensures words { arena.new.words ≤ 2 * live_words arena.new.clauses }
    ensures spared { arena.old.words ≤ 2 * live_words arena.new.clauses → arena.new.words ≡ arena.old.words }
{
    arena.holds_clauses();
    drop_leaving(watch, arena, database, leaving);
    arena.holds_clauses();
    compact_where_due(watch, arena, renaming, database);
    known_after(
        arena,
        database.rows.as_slice(),
        activations,
        known,
        leaving.start,
    )
}
