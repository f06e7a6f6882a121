//! The rule by which lemmas are kept.
ghost use Rattle.std.specs.Prelude.{◌≡◌, ◌≤◌, ◌&&◌, ◌+◌, map, not, count_by, take, length, is_some, nat_lt, nat_le, true};
ghost use Rattle.bs_arena.specs.Arena.{held_at, literal_of};
ghost use Rattle.bs_log.specs.Kept.{has_retired_activation, is_long};
ghost use Rattle.bs_solve_lemmas.specs.Keeping.{over, entry_in, is_free_row, is_long_row, AreHeld};

use crate::row::LoggedClause;
use bs_arena::Arena;

/// A lemma with more literals than this is a long one.
/// Short lemmas exclude most and cost least: so all of these are kept.
pub const SHORT: usize = 8;
/// How many long lemmas are kept.
/// More slow down propagation. The newest are kept, because the next step is near to the last.
pub const MOST_LONG: usize = 20_000;

/// The activation literals of the steps that have ended: so many variables above the first `own`.
#[derive(Clone, Copy)]
pub struct Activations {
    pub own: u32,
    pub steps: u32,
}

// Whether the variable is an activation literal.
fn is_activation(variable: u32, activations: Activations) -> bool
    ensures { result ≡ (nat_lt activations.own variable && nat_le variable (activations.own + activations.steps)) }
{
    activations.own < variable
        && variable as u64 <= activations.own as u64 + activations.steps as u64
}

// Whether an activation literal stands among the literals of these codes.
fn has_activation(codes: &[u32], activations: Activations) -> bool
    ensures { result ≡ has_retired_activation (over activations.own) activations.steps (map literal_of codes.now) }
{
    for place in 0..codes.len() {
        if is_activation(codes[place] / 2, activations) {
            return true;
        }
    }
    false
}

// Whether it is that of a lemma without an activation literal.
fn is_free_clause(is_lemma: bool, codes: &[u32], activations: Activations) -> bool
    ensures { result ≡ (is_lemma
        && not (has_retired_activation (over activations.own) activations.steps (map literal_of codes.now))) }
{
    if !is_lemma {
        return false;
    }
    !has_activation(codes, activations)
}

/// Whether the row is a lemma without an activation literal.
pub fn is_free(arena: &Arena, row: LoggedClause, activations: Activations) -> bool
    requires { is_some (held_at arena.now.clauses row.clause) ≡ true }
    ensures { result ≡ is_free_row activations.own activations.steps arena.now.clauses row }
{
    let is_lemma = row.is_lemma;
    let codes = arena.lits(row.clause);
    is_free_clause(is_lemma, codes, activations)
}

/// Whether the clause of the row is a long one.
pub fn is_long(arena: &Arena, row: LoggedClause) -> bool
    requires { is_some (held_at arena.now.clauses row.clause) ≡ true }
    ensures { result ≡ is_long (entry_in arena.now.clauses row) }
{
    arena.lits(row.clause).len() > SHORT
}

// Whether it is a lemma without an activation literal, and long.
fn is_free_long(arena: &Arena, row: &LoggedClause, activations: Activations) -> bool
    requires { is_some (held_at arena.now.clauses row.now.clause) ≡ true }
    ensures { result ≡ is_long_row activations.own activations.steps arena.now.clauses row.now }
{
    if !is_free(arena, *row, activations) {
        return false;
    }
    is_long(arena, *row)
}

/// The number of long lemmas without an activation literal from a place on, beside those before it.
pub fn count_long(
    arena: &Arena,
    rows: &[LoggedClause],
    activations: Activations,
    from: usize,
) -> usize
    requires held { AreHeld arena.now.clauses rows.now }
    requires low { from ≤ length rows.now }
    ensures { result
        + count_by (is_long_row activations.own activations.steps arena.now.clauses) (take from rows.now)
        ≡ count_by (is_long_row activations.own activations.steps arena.now.clauses) rows.now }
{
    let mut count = 0;
    for place in from..rows.len() {
        if is_free_long(arena, &rows[place], activations) {
            count += 1;
        }
    }
    count
}
