//! Which lemmas and blocks go at a step's end.
ghost use Rattle.std.specs.Prelude.{◌≡◌, ◌-◌, ◌+◌, ◌≤◌, ◌<◌, ◌^◌, ◌&&◌, ◌||◌, not, cond, map, count_by};
ghost use Rattle.std.specs.Prelude.{filter, take, length, is_some, nat_le, true, [], ◌∷◌, ◌++◌, min, IfOk, OnOk};
ghost use Rattle.bs_arena.specs.Arena.{AreCodes, held_at, literal_of, literals_at};
ghost use Rattle.bs_log.specs.Kept.{is_long};
ghost use Rattle.bs_solve_lemmas.specs.Keeping.{is_free_row, is_long_row, goes, entry_in, AreHeld, AreKnown, Ascends};
ghost use Rattle.bs_solve_lemmas.specs.Notes.{IsNoted};

use crate::row::LoggedClause;
use crate::rule::{Activations, MOST_LONG, count_long, is_free, is_long};
use bs_arena::{Arena, Ref};
use bs_bits::List;
use bs_clause::{Lit, NoMemory};
use std::alloc::Global;

/// The lemmas and blocks that go, in the order of their ids.
#[derive(Drop)]
pub struct Leaving {
    pub ids: List<u64>,
    pub clauses: Vec<Ref>,
    /// The first two literals of each clause.
    pub watched: Vec<Lit>,
    /// A place among the rows before which none goes.
    pub start: usize,
}

// Whether the row goes, where so many long free lemmas before it were seen, and this many have to
// go.
fn has_to_go(
    arena: &Arena,
    row: &LoggedClause,
    activations: Activations,
    many: usize,
    seen: &mut usize,
) -> bool
    requires live { is_some (held_at arena.now.clauses row.now.clause) ≡ true }
    requires small { seen.old < 2 ^ 64 - 1 }
    ensures goes { result ≡ not (is_free_row activations.own activations.steps arena.now.clauses row.now
        && (not (is_long (entry_in arena.now.clauses row.now)) || nat_le many seen.old)) }
    ensures seen { seen.new
        ≡ cond (is_long_row activations.own activations.steps arena.now.clauses row.now) 1 0 + seen.old }
{
    if !is_free(arena, *row, activations) {
        return true;
    }
    if !is_long(arena, *row) {
        return false;
    }
    *seen += 1;
    *seen <= many
}

// Notes a row with the first two literals of its clause.
fn note(leaving: &mut Leaving, arena: &Arena, row: &LoggedClause) -> Result<(), NoMemory>
    requires live { is_some (held_at arena.now.clauses row.now.clause) ≡ true }
    ensures ids { OnOk result (leaving.new.ids ≡ leaving.old.ids ++ row.now.id ∷ []) }
    ensures clauses { OnOk result
        (leaving.new.clauses.items ≡ leaving.old.clauses.items ++ row.now.clause ∷ []) }
    ensures watched { OnOk result (leaving.new.watched.items ≡ leaving.old.watched.items
        ++ take 2 (literals_at arena.now.clauses row.now.clause)) }
    ensures start { OnOk result (leaving.new.start ≡ leaving.old.start) }
{
    if leaving.ids.push(row.id).is_err() {
        return Err(NoMemory);
    }
    leaving.clauses.push(row.clause)?;
    push_first(&mut leaving.watched, arena.lits(row.clause))
}

// The first two literals, where there are so many.
fn push_first(watched: &mut Vec<Lit>, codes: &[u32]) -> Result<(), NoMemory>
    requires { AreCodes codes.now }
    ensures { OnOk result (watched.new.items
        ≡ watched.old.items ++ take 2 (map literal_of codes.now)) }
{
    if codes.len() > 0 {
        watched.push(Lit::from_code(codes[0]))?;
    }
    if codes.len() > 1 {
        watched.push(Lit::from_code(codes[1]))?;
    }
    Ok(())
}

// The rows from a place on that go, where none before it does, and so many of those are long.
fn collect(
    alloc: Global,
    arena: &Arena,
    rows: &[LoggedClause],
    activations: Activations,
    many: usize,
    from: usize,
    long: usize,
) -> Result<Leaving, NoMemory>
    requires held { AreHeld arena.now.clauses rows.now }
    requires ascends { Ascends rows.now }
    requires many { many ≡ count_by (is_long_row activations.own activations.steps
        arena.now.clauses) rows.now - MOST_LONG }
    requires low { from ≤ length rows.now }
    requires long { long ≡ count_by (is_long_row activations.own activations.steps
        arena.now.clauses) (take from rows.now) }
    requires none { filter (goes activations.own activations.steps arena.now.clauses rows.now)
        (take from rows.now) ≡ [] }
    ensures noted { IfOk result (λ r. IsNoted arena.now.clauses
        (filter (goes activations.own activations.steps arena.now.clauses rows.now) rows.now)
        r.ids r.clauses.items r.watched.items) }
    ensures start { IfOk result (λ r. r.start ≡ from) }
{
    let mut found = Leaving {
        ids: List::new(alloc),
        clauses: Vec::new(alloc),
        watched: Vec::new(alloc),
        start: from,
    };
    let mut seen = long;
    for place in from..rows.len() {
        let row = &rows[place];
        if has_to_go(arena, row, activations, many, &mut seen) {
            note(&mut found, arena, row)?;
        }
    }
    Ok(found)
}

/// The rows that go when the steps of these activation literals have ended, by the log's rule: the blocks, the
/// lemmas that name an activation literal, and of the long lemmas all but the `MOST_LONG` newest. The first
/// `known` rows are known to be lemmas without an activation literal, `long` of them long ones; these are looked
/// at again only where there are too many long ones.
pub fn find_leaving(
    alloc: Global,
    arena: &Arena,
    rows: &[LoggedClause],
    activations: Activations,
    known: usize,
    long: usize,
) -> Result<Leaving, NoMemory>
    requires held { AreHeld arena.now.clauses rows.now }
    requires ascends { Ascends rows.now }
    requires known { AreKnown activations.own activations.steps arena.now.clauses rows.now
        known long }
    ensures noted { IfOk result (λ r. IsNoted arena.now.clauses
        (filter (goes activations.own activations.steps arena.now.clauses rows.now) rows.now)
        r.ids r.clauses.items r.watched.items) }
    ensures low { IfOk result (λ r. r.start ≤ length rows.now) }
    ensures none { IfOk result (λ r.
        filter (goes activations.own activations.steps arena.now.clauses rows.now) (take r.start rows.now)
        ≡ []) }
{
    let count = long + count_long(arena, rows, activations, known);
    let many = count.saturating_sub(MOST_LONG);
    if many == 0 {
        let found = collect(alloc, arena, rows, activations, 0, known, long)?;
        return Ok(found);
    }
    let found = collect(alloc, arena, rows, activations, many, 0, 0)?;
    Ok(found)
}
