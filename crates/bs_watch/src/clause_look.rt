//! A look at a clause of which a watched literal became false.
ghost use Rattle.std.specs.Prelude.{◌≡◌, ◌≤◌, ◌<◌, length, map, IfSome, IfNone, slice_index, slice_get, Some};
ghost use Rattle.bs_clause.specs.Range.{HasVariables};
ghost use Rattle.bs_arena.specs.Arena.{AreCodes, literal_of};
ghost use Rattle.bs_watch.specs.Trail.{IsFalseOn};
ghost use Rattle.bs_watch.specs.Places.{literals_of};
ghost use Rattle.bs_watch.specs.Look.{Says, AreFalseFrom, IsFirstTwo};

use crate::trail::Trail;
use bs_clause::Lit;

/// What a look at a clause finds.
#[derive(Clone, Copy)]
pub enum ClauseLook {
    /// This literal of it is true.
    True(Lit),
    /// The false literal stands at `side`, which is 0 or 1, and a literal that is not false at
    /// `place`.
    Free {
        side: usize,
        place: usize,
        literal: Lit,
    },
    /// This literal is unassigned, and all others are false.
    Unit(Lit),
    False,
}

// The first place from 2 on whose literal is not false.
fn free_place(trail: &Trail, codes: &[u32]) -> Option<usize>
    requires codes { AreCodes codes.now }
    requires range { HasVariables trail.now.vars (map literal_of codes.now) }
    ensures found { IfSome result (λ k. (2 ≤ k) × (k < length codes.now)) }
    ensures free { IfSome result (λ k. ¬ IsFalseOn (literals_of trail.now.places)
        (literal_of (slice_index codes.now k))) }
    ensures none { IfNone result (AreFalseFrom (literals_of trail.now.places)
        (map literal_of codes.now) 2) }
{
    for place in 2..codes.len() {
        if !trail.is_true(Lit::from_code(codes[place]).negate()) {
            return Some(place);
        }
    }
    None
}

// Where the false literal stands, which is one of the first two.
fn side_of(codes: &[u32], falsified: Lit) -> usize
    requires two { 2 ≤ length codes.now }
    requires watched { IsFirstTwo (map literal_of codes.now) falsified }
    ensures low { result < 2 }
    ensures there { slice_get (map literal_of codes.now) result ≡ Some falsified }
{
    if codes[0] == falsified.code() { 0 } else { 1 }
}

/// Looks at a clause by its codes.
pub fn look_at(trail: &Trail, codes: &[u32], falsified: Lit) -> ClauseLook
    requires two { 2 ≤ length codes.now }
    requires codes { AreCodes codes.now }
    requires range { HasVariables trail.now.vars (map literal_of codes.now) }
    requires watched { IsFirstTwo (map literal_of codes.now) falsified }
    requires lost { IsFalseOn (literals_of trail.now.places) falsified }
    ensures { Says (literals_of trail.now.places) (map literal_of codes.now) falsified result }
{
    let side = side_of(codes, falsified);
    let other = Lit::from_code(codes[1 - side]);
    if trail.is_true(other) {
        return ClauseLook::True(other);
    }
    match free_place(trail, codes) {
        Some(place) => ClauseLook::Free {
            side,
            place,
            literal: Lit::from_code(codes[place]),
        },
        None => if trail.is_true(other.negate()) {
            ClauseLook::False
        } else {
            ClauseLook::Unit(other)
        },
    }
}
