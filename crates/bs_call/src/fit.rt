//! How the signatures of a moment compare with those of a dump.
ghost use Rattle.std.specs.Prelude.{◌≡◌, option_map, reverse, IfOk, Some};
ghost use Rattle.bs_call.specs.Fits.{fit_of, holds_same, holds_turned, same_held};

use crate::reversed_bits::turned_held;
use bs_bits::{Bits, NoMemory};
use bs_scan::Dump;
use std::alloc::Global;

/// How the signatures of a moment compare with those of a dump.
#[derive(Clone, Copy, Debug, PartialEq, Eq)]
pub enum Fit {
    /// They are the same.
    Same,
    /// They are the dump's, each read backwards.
    Turned,
    Other,
}

/// Whether a signature is the one that is held.
fn is_held(signature: &Bits, held: &Option<Bits>) -> bool
    ensures { result ≡ same_held (Some signature.now) held.now }
{
    match held {
        Some(bits) => signature.equals(bits),
        None => false,
    }
}

/// Whether the same is held, or nothing of both.
fn same_held(first: &Option<Bits>, second: &Option<Bits>) -> bool
    ensures { result ≡ same_held first.now second.now }
{
    match first {
        Some(bits) => is_held(bits, second),
        None => second.is_none(),
    }
}

/// Whether a moment has the signatures of a dump.
fn holds_same(there: &Dump, dump: &Dump) -> bool
    ensures { result ≡ holds_same there.now dump.now }
{
    let stored = same_held(&there.stored, &dump.stored);
    let older = same_held(&there.older, &dump.older);
    stored && older
}

/// Whether what a moment holds is what a dump holds, read backwards.
fn is_turned(alloc: Global, there: &Option<Bits>, held: &Option<Bits>) -> Result<bool, NoMemory>
    ensures { IfOk result (λ is. is ≡ same_held there.now (option_map reverse held.now)) }
{
    let turned = turned_held(alloc, held)?;
    Ok(same_held(there, &turned))
}

/// Whether a moment has the signatures of a dump, each read backwards.
fn holds_turned(alloc: Global, there: &Dump, dump: &Dump) -> Result<bool, NoMemory>
    ensures { IfOk result (λ is. is ≡ holds_turned there.now dump.now) }
{
    let stored = is_turned(alloc, &there.stored, &dump.stored)?;
    let older = is_turned(alloc, &there.older, &dump.older)?;
    Ok(stored && older)
}

/// How the signatures of a moment compare with those of a dump.
pub fn fit_of(alloc: Global, there: &Dump, dump: &Dump) -> Result<Fit, NoMemory>
    ensures { IfOk result (λ fit. fit ≡ fit_of there.now dump.now) }
{
    if holds_same(there, dump) {
        return Ok(Fit::Same);
    }
    if holds_turned(alloc, there, dump)? {
        return Ok(Fit::Turned);
    }
    Ok(Fit::Other)
}
