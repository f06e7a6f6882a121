//! The test of a chain: the clauses are read once, against where each literal stands and which clause needs it.
ghost use Rattle.std.specs.Prelude.{◌≡◌, ◌⊎◌, ◌+◌, ◌<◌, ◌∷◌, [], true, length, All, IfSome, Some, slice_get};
ghost use Rattle.std.specs.Bool.{OnTrue};
ghost use Rattle.bs_clause.specs.Literal.{negation};
ghost use Rattle.bs_log.specs.Refusal.{has_distinct_variables};
ghost use Rattle.bs_reach_unrolled.specs.Chain.{IsBefore, IsNeeded, IsMade, AreMade, IsProvedBy};

use bs_clause::{Lit, Lits, has_literal, is_same};

/// Whether the literal stands in this place.
fn is_literal_at(literals: &[Lit], at: usize, l: Lit) -> bool
    ensures { OnTrue result (slice_get literals.now at ≡ Some l) }
{
    if at >= literals.len() {
        return false;
    }
    is_same(literals[at], l)
}

/// Whether the literal stands before a place, where its variable's place says.
fn is_before(literals: &[Lit], places: &[u32], i: usize, l: Lit) -> bool
    ensures { OnTrue result (IsBefore literals.now i l) }
{
    let variable = l.var().0 as usize;
    if variable >= places.len() {
        return false;
    }
    let at = places[variable] as usize;
    if at >= i {
        return false;
    }
    is_literal_at(literals, at, l)
}

/// Whether it is this literal, or is denied before a place.
fn is_settled(literals: &[Lit], places: &[u32], i: usize, l: Lit, m: Lit) -> bool
    ensures { OnTrue result ((m ≡ l) ⊎ IsBefore literals.now i (negation m)) }
{
    if is_same(m, l) {
        return true;
    }
    is_before(literals, places, i, m.negate())
}

/// Whether that is so of each literal of a clause.
fn are_settled(literals: &[Lit], places: &[u32], i: usize, l: Lit, clause: &[Lit]) -> bool
    ensures { OnTrue result (All (λ m. (m ≡ l) ⊎ IsBefore literals.now i (negation m)) clause.now) }
{
    'literals: for m in clause {
        if !is_settled(literals, places, i, l, *m) {
            return false;
        }
    }
    true
}

/// Whether the place of the literal's variable is this one.
fn is_place(places: &[u32], i: usize, l: Lit) -> bool
    ensures { OnTrue result (slice_get places.now l.variable ≡ Some i) }
{
    let variable = l.var().0 as usize;
    if variable >= places.len() {
        return false;
    }
    places[variable] as usize == i
}

/// Whether the clause that is to need the literal stands behind it and denies it.
fn is_needed(clauses: &[Lits], later: &[u32], i: usize, l: Lit) -> bool
    ensures { OnTrue result (IsNeeded clauses.now i l) }
{
    if i >= later.len() {
        return false;
    }
    let at = later[i] as usize;
    if at <= i || at >= clauses.len() {
        return false;
    }
    has_literal(clauses[at].slice(), l.negate())
}

/// Whether the literal is needed, or the last one.
fn is_used(clauses: &[Lits], later: &[u32], i: usize, l: Lit) -> bool
    requires { i < length clauses.now }
    ensures { OnTrue result (i + 1 < length clauses.now → IsNeeded clauses.now i l) }
{
    if i + 1 == clauses.len() {
        return true;
    }
    is_needed(clauses, later, i, l)
}

/// Whether a place is as it should be.
fn is_made(literals: &[Lit], clauses: &[Lits], places: &[u32], later: &[u32], i: usize) -> bool
    requires within { i < length clauses.now }
    requires same { length literals.now ≡ length clauses.now }
    ensures { OnTrue result (IsMade literals.now clauses.now places.now i) }
{
    let l = literals[i];
    let clause = clauses[i].slice();
    if !has_literal(clause, l) {
        return false;
    }
    if !are_settled(literals, places, i, l, clause) {
        return false;
    }
    if !is_place(places, i, l) {
        return false;
    }
    is_used(clauses, later, i, l)
}

/// Whether each place is as it should be.
fn are_made(literals: &[Lit], clauses: &[Lits], places: &[u32], later: &[u32]) -> bool
    requires { length literals.now ≡ length clauses.now }
    ensures { OnTrue result (AreMade literals.now clauses.now places.now (length clauses.now)) }
{
    'chain: for i in 0..clauses.len() {
        if !is_made(literals, clauses, places, later, i) {
            return false;
        }
    }
    true
}

/// The last literal, where the clauses are a chain: each has the literal in its place, and its others are denied by literals in
/// earlier places. `places` has the place of each variable, and `later` for each place that of a clause that denies its literal.
pub fn literal_of_chain(
    literals: &[Lit],
    clauses: &[Lits],
    places: &[u32],
    later: &[u32],
) -> Option<Lit>
    requires { All (λ c. has_distinct_variables c ≡ true) clauses.now }
    ensures { IfSome result (λ l. IsProvedBy clauses.now (l ∷ [])) }
{
    if clauses.len() == 0 || literals.len() != clauses.len() {
        return None;
    }
    if !are_made(literals, clauses, places, later) {
        return None;
    }
    Some(literals[literals.len() - 1])
}
