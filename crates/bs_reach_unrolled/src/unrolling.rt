//! The unrolled clauses, and what the step of a length assumes over them.
ghost use Rattle.std.specs.Prelude.{◌≡◌, ◌<◌, ◌≤◌, ◌++◌, [], ◌∷◌, map, length, IfOk, OnOk};
ghost use Rattle.bs_encode.specs.Assuming.{signed, signed_seen};
ghost use Rattle.bs_reach_unrolled.specs.Unrolled.{next_at, unrolled};
ghost use Rattle.bs_reach_unrolled.specs.Room.{IsUnrollable};

use crate::frames::add_frames;
use crate::links::add_all_links;
use bs_bits::Bits;
use bs_clause::{Clauses, Lit, Lits, NoMemory};
use bs_encode::{Encoding, push_seen, push_signed, raise_all};
use bs_scan::Seen;
use std::alloc::Global;

/// Puts a unit of each literal at the end.
fn add_units(alloc: Global, into: &mut Clauses, literals: &[Lit]) -> Result<(), NoMemory>
    ensures { OnOk result (into.new ≡ into.old ++ map (λ l. l ∷ []) literals.now) }
{
    'literals: for l in literals {
        into.push(Lits::copy(alloc, &[*l])?)?;
    }
    Ok(())
}

/// Puts the units of the first time frame's state at the end.
fn add_reset(
    alloc: Global,
    into: &mut Clauses,
    encoding: &Encoding,
    reset: &Bits,
) -> Result<(), NoMemory>
    requires width { length encoding.now.states ≡ length reset.now }
    ensures { OnOk result (into.new ≡ into.old ++ map (λ l. l ∷ []) (signed encoding.now.states reset.now)) }
{
    let mut starts = Lits::new(alloc);
    push_signed(&mut starts, encoding.states(), reset)?;
    add_units(alloc, into, starts.slice())
}

/// The clauses of one cycle or more from this state on (docs/FORMATS.md, "Unrolled clauses").
pub fn unroll(alloc: Global, encoding: &Encoding, reset: &Bits, k: u32) -> Result<Clauses, NoMemory>
    requires some { 1 ≤ k }
    requires unrollable { IsUnrollable encoding.now k }
    requires width { length encoding.now.states ≡ length reset.now }
    ensures { IfOk result (λ all. all ≡ unrolled encoding.now reset.now k) }
{
    let mut all = Clauses::new(alloc);
    add_frames(alloc, &mut all, encoding, k)?;
    add_reset(alloc, &mut all, encoding, reset)?;
    add_all_links(alloc, &mut all, encoding, k)?;
    Ok(all)
}

/// An activation literal, and literals with the signs of a state where it is known.
fn guarded(alloc: Global, activation: Lit, next: &[Lit], state: &Seen) -> Result<Lits, NoMemory>
    requires { length next.now ≡ length state.now.bits }
    ensures { IfOk result (λ all. all ≡ activation ∷ signed_seen next.now state.now) }
{
    let mut all = Lits::new(alloc);
    all.push(activation)?;
    push_seen(&mut all, next, state)?;
    Ok(all)
}

/// What the step of a length assumes: its activation literal, and that time frame number `c` of the `k` time frames, from 0, leads to a state that
/// shows this.
pub fn assume_length(
    alloc: Global,
    encoding: &Encoding,
    activation: Lit,
    state: &Seen,
    c: u32,
    k: u32,
) -> Result<Lits, NoMemory>
    requires unrollable { IsUnrollable encoding.now k }
    requires within { c < k }
    requires width { length encoding.now.next ≡ length state.now.bits }
    ensures { IfOk result (λ all. all ≡ activation ∷ signed_seen (next_at encoding.now c) state.now) }
{
    let next = raise_all(alloc, encoding.next(), c * encoding.vars())?;
    let all = guarded(alloc, activation, next.slice(), state)?;
    Ok(all)
}
