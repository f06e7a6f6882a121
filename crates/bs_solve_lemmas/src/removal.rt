//! Clauses leave the arena, the watch lists and the tables.
ghost use Rattle.std.specs.Prelude.{◌≡◌, ◌≤◌, ◌<◌, [], ◌∷◌, slice_set, length, filter, take, is_some, true, All, Contains};
ghost use Rattle.bs_clause.specs.Range.{HasVariables};
ghost use Rattle.bs_arena.specs.Arena.{held_at, literals_at};
ghost use Rattle.bs_watch.specs.Watch.{Serves};
ghost use Rattle.bs_watch.specs.Sweep.{ArePlaced, HasSwept};
ghost use Rattle.bs_solve_lemmas.specs.Keeping.{AreHeld, Ascends};
ghost use Rattle.bs_solve_lemmas.specs.Notes.{HasKilled, GoBy, AreOut};

use crate::row::LoggedClause;
use crate::selection::Leaving;
use bs_arena::{Arena, Ref};
use bs_watch::Watch;

// Takes a clause out of the arena, if it is live.
fn kill_one(arena: &mut Arena, r: Ref)
    requires { Contains arena.old.places r }
    ensures killed { HasKilled arena.old.clauses arena.new.clauses (r ∷ []) }
    ensures places { arena.new.places ≡ arena.old.places }
    ensures words { arena.new.words ≡ arena.old.words }
    ensures spare { arena.new.spare ≡ arena.old.spare }
{
    if arena.is_live(r) {
        arena.kill(r);
    }
}

// Takes clauses out of the arena.
fn kill_all(arena: &mut Arena, clauses: &[Ref])
    requires { All (Contains arena.old.places) clauses.now }
    ensures killed { HasKilled arena.old.clauses arena.new.clauses clauses.now }
    ensures places { arena.new.places ≡ arena.old.places }
    ensures words { arena.new.words ≡ arena.old.words }
    ensures spare { arena.new.spare ≡ arena.old.spare }
{
    'clauses: for at in 0..clauses.len() {
        kill_one(arena, clauses[at]);
    }
}

// Another row in a place.
fn put_row(rows: &mut Vec<LoggedClause>, at: usize, row: LoggedClause)
    requires { at < length rows.old.items }
    ensures { rows.new.items ≡ slice_set rows.old.items at row }
{
    rows[at] = row;
}

// Another reference in a place.
fn put_ref(refs: &mut Vec<Ref>, at: usize, r: Ref)
    requires { at < length refs.old.items }
    ensures { refs.new.items ≡ slice_set refs.old.items at r }
{
    refs[at] = r;
}

// The rows whose clauses are live, where those before a place are.
fn keep_rows(rows: &mut Vec<LoggedClause>, arena: &Arena, from: usize)
    requires known { All (λ row. Contains arena.now.places row.clause) rows.old.items }
    requires low { from ≤ length rows.old.items }
    requires live { All (λ row. is_some (held_at arena.now.clauses row.clause) ≡ true)
        (take from rows.old.items) }
    ensures { rows.new.items
        ≡ filter (λ row. is_some (held_at arena.now.clauses row.clause)) rows.old.items }
{
    let mut kept = from;
    'rows: for place in from..rows.len() {
        let row = rows[place];
        if arena.is_live(row.clause) {
            put_row(rows, kept, row);
            kept += 1;
        }
    }
    rows.truncate(kept);
}

// The live clauses, where those before a place are.
fn keep_refs(refs: &mut Vec<Ref>, arena: &Arena, from: usize)
    requires known { All (Contains arena.now.places) refs.old.items }
    requires low { from ≤ length refs.old.items }
    requires live { All (λ r. is_some (held_at arena.now.clauses r) ≡ true)
        (take from refs.old.items) }
    ensures { refs.new.items ≡ filter (λ r. is_some (held_at arena.now.clauses r)) refs.old.items }
{
    let mut kept = from;
    'refs: for place in from..refs.len() {
        let r = refs[place];
        if arena.is_live(r) {
            put_ref(refs, kept, r);
            kept += 1;
        }
    }
    refs.truncate(kept);
}

/// Takes the clauses of the rows that go out of the arena, the watch lists, the rows and the short
/// clauses. None of the first `shorts_from` short clauses goes. It takes no memory.
pub fn take_out(
    watch: &mut Watch,
    arena: &mut Arena,
    rows: &mut Vec<LoggedClause>,
    shorts: &mut Vec<Ref>,
    leaving: &Leaving,
    shorts_from: usize,
)
    requires serves { Serves watch.old arena.old.clauses }
    requires placed { ArePlaced watch.old.lists arena.old.places }
    requires held { AreHeld arena.old.clauses rows.old.items }
    requires ascends { Ascends rows.old.items }
    requires range { All (λ row. HasVariables watch.old.trail.vars
        (literals_at arena.old.clauses row.clause)) rows.old.items }
    requires short { All (λ r. is_some (held_at arena.old.clauses r) ≡ true) shorts.old.items }
    requires gone { GoBy arena.old.clauses rows.old.items leaving.now.start leaving.now.ids
        leaving.now.clauses.items leaving.now.watched.items }
    requires out { AreOut shorts.old.items shorts_from leaving.now.clauses.items }
    ensures killed { HasKilled arena.old.clauses arena.new.clauses leaving.now.clauses.items }
    ensures places { arena.new.places ≡ arena.old.places }
    ensures words { arena.new.words ≡ arena.old.words }
    ensures spare { arena.new.spare ≡ arena.old.spare }
    ensures swept { HasSwept watch.old watch.new arena.new.clauses }
    ensures rows { rows.new.items
        ≡ filter (λ row. is_some (held_at arena.new.clauses row.clause)) rows.old.items }
    ensures shorts { shorts.new.items
        ≡ filter (λ r. is_some (held_at arena.new.clauses r)) shorts.old.items }
{
    arena.holds_clauses();
    kill_all(arena, leaving.clauses.as_slice());
    keep_rows(rows, arena, leaving.start);
    keep_refs(shorts, arena, shorts_from);
    watch.sweep(arena, leaving.watched.as_slice());
}
