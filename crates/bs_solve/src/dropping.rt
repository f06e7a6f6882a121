//! What a step's end takes out, and what is known of the lemmas that stay.
ghost use Rattle.std.specs.Prelude.{◌≡◌, ◌≤◌, ◌*◌, length, take, is_some, count_by, true, All};
ghost use Rattle.bs_clause.specs.Range.{HasVariables};
ghost use Rattle.bs_arena.specs.Arena.{held_at, literals_at, live_words};
ghost use Rattle.bs_watch.specs.Watch.{Serves};
ghost use Rattle.bs_solve_lemmas.specs.Keeping.{AreHeld, Ascends, is_long_row};
ghost use Rattle.bs_solve_lemmas.specs.Notes.{GoBy};
ghost use Rattle.bs_solve.specs.Dropping.{AreStaying, HasDropped, HasCompacted};

use crate::database::Database;
use bs_arena::{Arena, Renaming};
use bs_solve_lemmas::{Activations, Leaving, LoggedClause, compact_all, count_long, take_out};
use bs_watch::Watch;

/// How many of the first rows are of lemmas that name no activation literal, and how many of these are long. The rest is not known.
#[derive(Clone, Copy)]
pub struct CountedRows {
    pub rows: usize,
    pub long: usize,
}

/// Takes what is leaving out of the arena, the watch lists and the clause database, of which what stands on the trail for good is not
/// looked at. It takes no memory.
pub fn drop_leaving(
    watch: &mut Watch,
    arena: &mut Arena,
    database: &mut Database,
    leaving: &Leaving,
)
    requires staying { AreStaying arena.old.clauses database.old.shorts.items watch.old.trail.places leaving.now.ids }
    requires serves { Serves watch.old arena.old.clauses }
    requires held { AreHeld arena.old.clauses database.old.rows.items }
    requires ascends { Ascends database.old.rows.items }
    requires range { All (λ row. HasVariables watch.old.trail.vars (literals_at arena.old.clauses row.clause)) database.old.rows.items }
    requires short { All (λ r. is_some (held_at arena.old.clauses r) ≡ true) database.old.shorts.items }
    requires gone { GoBy arena.old.clauses database.old.rows.items leaving.now.start leaving.now.ids leaving.now.clauses.items leaving.now.watched.items }
    ensures dropped { HasDropped watch.old watch.new arena.old.clauses arena.new.clauses database.old database.new leaving.now.start leaving.now.ids }
    ensures words { arena.new.words ≡ arena.old.words }
{
    arena.holds_clauses();
    let stand = watch.trail().len();
    take_out(
        watch,
        arena,
        &mut database.rows,
        &mut database.shorts,
        leaving,
        stand,
    );
}

/// Moves the live clauses together where more words are dead than live. It takes no memory.
pub fn compact_where_due(
    watch: &mut Watch,
    arena: &mut Arena,
    renaming: &mut Renaming,
    database: &mut Database,
)
    requires serves { Serves watch.old arena.old.clauses }
    requires room { length arena.old.clauses ≤ renaming.old.spare }
    ensures moved { HasCompacted watch.old watch.new arena.old.clauses arena.new.clauses database.old database.new }
    ensures words { arena.new.words ≤ 2 * live_words arena.new.clauses }
    ensures live { live_words arena.new.clauses ≡ live_words arena.old.clauses }
    ensures spared { arena.old.words ≤ 2 * live_words arena.old.clauses → arena.new ≡ arena.old }
{
    arena.holds_clauses();
    let dead = arena.words() - arena.live();
    if dead > arena.live() {
        compact_all(
            watch,
            arena,
            renaming,
            &mut database.rows,
            &mut database.shorts,
        );
        arena.holds_clauses();
    }
}

/// What is known of the rows once each is of a lemma that names no activation literal. Those before a place are looked at only where it is
/// not the one up to which they were known.
pub fn known_after(
    arena: &Arena,
    rows: &[LoggedClause],
    activations: Activations,
    known: CountedRows,
    start: usize,
) -> CountedRows
    requires held { AreHeld arena.now.clauses rows.now }
    requires low { start ≤ length rows.now }
    requires long { start ≡ known.rows → known.long ≡ count_by (is_long_row activations.own activations.steps arena.now.clauses) (take start rows.now) }
    ensures rows { result.rows ≡ length rows.now }
    ensures long { result.long ≡ count_by (is_long_row activations.own activations.steps arena.now.clauses) rows.now }
{
    let rows_len = rows.len();
    if start == known.rows {
        let more = count_long(arena, rows, activations, start);
        return CountedRows {
            rows: rows_len,
            long: known.long + more,
        };
    }
    let long = count_long(arena, rows, activations, 0);
    CountedRows {
        rows: rows_len,
        long,
    }
}
