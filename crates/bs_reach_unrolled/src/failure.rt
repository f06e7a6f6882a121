//! A lemma that denies an assumption by what follows from reset alone.
ghost use Rattle.std.specs.Prelude.{◌≡◌, ◌<◌, ◌≤◌, ◌∷◌, [], length, Some, slice_get, IfOk, IfSome};
ghost use Rattle.std.specs.Bool.{OnTrue};
ghost use Rattle.bs_encode.specs.Assuming.{signed, signed_seen};
ghost use Rattle.bs_reach_unrolled.specs.Room.{IsUnrollable};
ghost use Rattle.bs_reach_unrolled.specs.Unrolled.{next_at, unrolled};
ghost use Rattle.bs_reach_unrolled.specs.declared.rows.TheConstants.{ROW_ROOM};
ghost use Rattle.bs_reach_unrolled.specs.Rows.{AreRows, Refutes};

use crate::chain::literal_of_chain;
use crate::cone::{NeededClauses, find};
use crate::forcing::Implied;
use crate::rows::ROW_ROOM;
use crate::template::{number_at, zeros};
use bs_bits::{Bits, List};
use bs_clause::{Lit, Lits, NoMemory, Var, is_same};
use bs_encode::Encoding;
use bs_scan::Seen;
use std::alloc::Global;

/// A lemma of one literal, and the ids of the clauses that it follows from.
#[derive(Drop)]
pub struct Lemma {
    pub lits: Lits,
    pub hints: List<u64>,
}

/// Where the variables stand in the cone that was looked at last, and this cone.
#[derive(Drop)]
pub struct Places {
    places: Vec<u32>,
    cone: NeededClauses,
}

impl Places {
    /// Places for the variables of what follows from reset.
    pub fn new(alloc: Global, implied: &Implied) -> Result<Places, NoMemory> {
        let places = zeros(alloc, implied.reasons.len())?;
        Ok(Places {
            places,
            cone: NeededClauses::new(alloc),
        })
    }
}

/// A lemma of one literal with its hints.
fn lemma_of(alloc: Global, l: Lit, hints: &[u64]) -> Result<Lemma, NoMemory>
    ensures lits { IfOk result (λ d. d.lits ≡ l ∷ []) }
    ensures hints { IfOk result (λ d. d.hints ≡ hints.now) }
{
    let mut lits = Lits::new(alloc);
    lits.push(l)?;
    let hints = List::of(hints.to_vec(alloc)?);
    Ok(Lemma { lits, hints })
}

/// The lemma of a cone, where it is one and denies the wanted literal.
fn tried(
    alloc: Global,
    encoding: &Encoding,
    reset: &Bits,
    k: u32,
    cone: &NeededClauses,
    places: &[u32],
    wanted: Lit,
) -> Result<Option<Lemma>, NoMemory>
    requires unrollable { IsUnrollable encoding.now k }
    requires rows { AreRows (unrolled encoding.now reset.now k) cone.now.ids.items cone.now.clauses.items }
    ensures { IfOk result (λ d. IfSome d (Refutes (unrolled encoding.now reset.now k) (wanted ∷ []))) }
{
    let found = literal_of_chain(
        cone.literals.as_slice(),
        cone.clauses.as_slice(),
        places,
        cone.later.as_slice(),
    );
    match found {
        None => Ok(None),
        Some(l) => {
            if !is_same(l.negate(), wanted) {
                return Ok(None);
            }
            let lemma = lemma_of(alloc, l, cone.ids.as_slice())?;
            Ok(Some(lemma))
        }
    }
}

/// Whether the ids of the unrolled list can be told.
fn has_small_rows(encoding: &Encoding) -> bool
    ensures clauses { OnTrue result (length encoding.now.clauses ≤ ROW_ROOM) }
    ensures states { OnTrue result (length encoding.now.states ≤ ROW_ROOM) }
{
    let clauses = encoding.clauses().len() as u64;
    let states = encoding.states().len() as u64;
    clauses <= ROW_ROOM && states <= ROW_ROOM
}

/// The lemma that denies a literal of time frame number `c`.
fn failed_assumption_of(
    alloc: Global,
    encoding: &Encoding,
    reset: &Bits,
    implied: &Implied,
    places: &mut Places,
    wanted: Lit,
    c: u32,
    k: u32,
) -> Result<Option<Lemma>, NoMemory>
    requires unrollable { IsUnrollable encoding.now k }
    requires width { length encoding.now.states ≡ length reset.now }
    requires small { length encoding.now.clauses ≤ ROW_ROOM }
    requires narrow { length encoding.now.states ≤ ROW_ROOM }
    ensures { IfOk result (λ d. IfSome d (Refutes (unrolled encoding.now reset.now k) (wanted ∷ []))) }
{
    find(
        alloc,
        encoding,
        reset,
        implied.reasons.as_slice(),
        k,
        &mut places.cone,
        &mut places.places,
        wanted.negate(),
        c,
    )?;
    let lemma = tried(
        alloc,
        encoding,
        reset,
        k,
        &places.cone,
        places.places.as_slice(),
        wanted,
    )?;
    Ok(lemma)
}

/// The literal of a flip-flop's bit of the state behind time frame number `c`.
fn wanted_of(encoding: &Encoding, state: &Bits, f: usize, c: u32, _k: u32) -> Lit
    requires unrollable { IsUnrollable encoding.now _k }
    requires within { c < _k }
    requires there { f < length encoding.now.next }
    requires bit { f < length state.now }
    ensures { slice_get (signed (next_at encoding.now c) state.now) f ≡ Some result }
{
    let variable = c * encoding.vars() + encoding.next_lit(f).var().0;
    Lit::new(Var(variable), state.get(f))
}

/// A lemma that denies one of the literals of the state behind time frame number `c`, where what follows from reset does.
pub fn failed_assumption(
    alloc: Global,
    encoding: &Encoding,
    reset: &Bits,
    implied: &Implied,
    places: &mut Places,
    state: &Seen,
    c: u32,
    k: u32,
) -> Result<Option<Lemma>, NoMemory>
    requires unrollable { IsUnrollable encoding.now k }
    requires within { c < k }
    requires width { length encoding.now.states ≡ length reset.now }
    requires state { length encoding.now.next ≡ length state.now.bits }
    ensures { IfOk result (λ d. IfSome d (Refutes (unrolled encoding.now reset.now k) (signed_seen (next_at encoding.now c) state.now))) }
{
    let f = number_at(implied.denied.as_slice(), c as usize) as usize;
    if c as usize >= implied.denied.len() || f >= state.bits.len() || !has_small_rows(encoding) {
        return Ok(None);
    }
    if state.is_free(f) {
        return Ok(None);
    }
    let wanted = wanted_of(encoding, &state.bits, f, c, k);
    let lemma = failed_assumption_of(alloc, encoding, reset, implied, places, wanted, c, k)?;
    Ok(lemma)
}
