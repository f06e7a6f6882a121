//! The first lengths, where what follows from the values at reset denies the state: lemmas without a search.
ghost use Rattle.std.specs.Prelude.{◌≡◌, ◌+◌, ◌*◌, ◌<◌, length, true, IfOk, IfSome};
ghost use Rattle.bs_reach_unrolled.specs.Room.{IsUnrollable};
ghost use Rattle.bs_encode.specs.Assuming.{signed_seen};
ghost use Rattle.bs_reach_unrolled.specs.Unrolled.{length_assumes, next_at, unrolled};
ghost use Rattle.bs_reach_unrolled.specs.Rows.{Refutes};
ghost use Rattle.bs_solve.specs.Failure.{FailsBy};
ghost use Rattle.bs_reach.specs.FailedAssumptions.{AreFailedAssumptions};

use bs_bits::Bits;
use bs_clause::NoMemory;
use bs_encode::Encoding;
use bs_reach_unrolled::{Implied, Lemma, Places, failed_assumption};
use bs_scan::Seen;
use bs_solve::FailedAssumption;
use std::alloc::Global;
use std::collections::VecDeque;

/// The lemma, as a solver takes it: it denies what the length `c + 1` assumes.
fn as_failed_assumption(
    _encoding: &Encoding,
    _reset: &Bits,
    _state: &Seen,
    _c: u32,
    _k: u32,
    lemma: Lemma,
) -> FailedAssumption
    requires { Refutes (unrolled _encoding.now _reset.now _k) (signed_seen (next_at _encoding.now _c) _state.now) lemma }
    ensures { FailsBy (unrolled _encoding.now _reset.now _k) (length_assumes _encoding.now _k _state.now (_c + 1)) result }
{
    FailedAssumption {
        lits: lemma.lits,
        hints: lemma.hints,
    }
}

/// The lemma of the length `c + 1`, where what follows from reset denies the state.
pub(crate) fn failed_assumption_at(
    alloc: Global,
    encoding: &Encoding,
    reset: &Bits,
    implied: &Implied,
    places: &mut Places,
    state: &Seen,
    c: u32,
    k: u32,
) -> Result<Option<FailedAssumption>, NoMemory>
    requires unrollable { IsUnrollable encoding.now k }
    requires within { c < k }
    requires starts { length encoding.now.states ≡ length reset.now }
    requires width { length encoding.now.next ≡ length state.now.bits }
    ensures { IfOk result (λ d. IfSome d (FailsBy (unrolled encoding.now reset.now k) (length_assumes encoding.now k state.now (c + 1)))) }
{
    let found = failed_assumption(alloc, encoding, reset, implied, places, state, c, k)?;
    match found {
        None => Ok(None),
        Some(lemma) => Ok(Some(as_failed_assumption(encoding, reset, state, c, k, lemma))),
    }
}

/// The lemmas of the first lengths, up to one that has none.
fn failed_assumptions_by(
    alloc: Global,
    encoding: &Encoding,
    reset: &Bits,
    implied: &Implied,
    places: &mut Places,
    state: &Seen,
    k: u32,
) -> Result<VecDeque<FailedAssumption>, NoMemory>
    requires unrollable { IsUnrollable encoding.now k }
    requires starts { length encoding.now.states ≡ length reset.now }
    requires width { length encoding.now.next ≡ length state.now.bits }
    ensures { IfOk result (λ found. AreFailedAssumptions (unrolled encoding.now reset.now k) encoding.now k state.now 0 found.items) }
{
    let mut found = VecDeque::new(alloc);
    'lengths: for c in 0..k {
        let next = failed_assumption_at(alloc, encoding, reset, implied, places, state, c, k)?;
        match next {
            Some(one) => {
                found.push_back(one)?;
            }
            None => return Ok(found),
        }
    }
    Ok(found)
}

/// The lemmas of the first lengths that what follows from reset refutes, up to the first that it does not.
pub(crate) fn first_failed_assumptions(
    alloc: Global,
    encoding: &Encoding,
    reset: &Bits,
    implied: &Implied,
    state: &Seen,
    k: u32,
) -> Result<VecDeque<FailedAssumption>, NoMemory>
    requires unrollable { IsUnrollable encoding.now k }
    requires starts { length encoding.now.states ≡ length reset.now }
    requires width { length encoding.now.next ≡ length state.now.bits }
    ensures { IfOk result (λ found. AreFailedAssumptions (unrolled encoding.now reset.now k) encoding.now k state.now 0 found.items) }
{
    let mut places = Places::new(alloc, implied)?;
    let found = failed_assumptions_by(alloc, encoding, reset, implied, &mut places, state, k)?;
    Ok(found)
}
