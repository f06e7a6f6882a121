//! The literals of the arena's clauses.
ghost use Rattle.std.specs.Prelude.{◌≡◌, ◌<◌, length, slice_get, Some, IsSome};
ghost use Rattle.bs_arena.specs.Arena.{held_at, literals_at};

use bs_arena::{Arena, Ref};
use bs_clause::Lit;

/// The number of literals of a live clause.
pub fn clause_len(arena: &Arena, r: Ref) -> usize
    requires { IsSome (held_at arena.now.clauses r) }
    ensures { result ≡ length (literals_at arena.now.clauses r) }
{
    arena.lits(r).len()
}

/// A literal of a live clause, by its place from 0.
pub fn literal_in(arena: &Arena, r: Ref, at: usize) -> Lit
    requires live { IsSome (held_at arena.now.clauses r) }
    requires at { at < length (literals_at arena.now.clauses r) }
    ensures { slice_get (literals_at arena.now.clauses r) at ≡ Some result }
{
    Lit::from_code(arena.lits(r)[at])
}
