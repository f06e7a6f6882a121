//! The variables that had a part in a conflict come earlier in the order of decisions.
ghost use Rattle.std.specs.Prelude.{◌≡◌, map, is_some, true, All};
ghost use Rattle.bs_clause.specs.Range.{HasVariables};
ghost use Rattle.bs_arena.specs.Arena.{AreCodes, literal_of, held_at, literals_at};

use bs_arena::{Arena, Ref};
use bs_clause::Lit;
use bs_watch::Watch;

// The variables of a clause, which its codes give, are more active.
fn bump_codes(watch: &mut Watch, codes: &[u32])
    requires codes { AreCodes codes.now }
    requires range { HasVariables watch.old.trail.vars (map literal_of codes.now) }
    ensures { watch.new ≡ watch.old }
{
    'places: for place in 0..codes.len() {
        watch.bump(Lit::from_code(codes[place]).var());
    }
}

// The variables of a live clause are more active.
fn bump_clause(watch: &mut Watch, arena: &Arena, r: Ref)
    requires live { is_some (held_at arena.now.clauses r) ≡ true }
    requires range { HasVariables watch.old.trail.vars (literals_at arena.now.clauses r) }
    ensures { watch.new ≡ watch.old }
{
    bump_codes(watch, arena.lits(r));
}

/// The variables of the clauses that a conflict's analysis resolved are more active, and earlier conflicts count for less. Nothing
/// that a contract sees changes.
pub fn reward(watch: &mut Watch, arena: &Arena, hints: &[Ref])
    requires live { All (λ r. is_some (held_at arena.now.clauses r) ≡ true) hints.now }
    requires range { All (λ r. HasVariables watch.old.trail.vars (literals_at arena.now.clauses r)) hints.now }
    ensures { watch.new ≡ watch.old }
{
    'hints: for place in 0..hints.len() {
        bump_clause(watch, arena, hints[place]);
    }
    watch.decay();
}
