//! Whether the steps of a report fit a netlist and a signature.
ghost use Rattle.std.specs.Prelude.{◌≡◌, ◌+◌, All, IsTrue, MatchOption};
ghost use Rattle.bs_evidence.specs.Evidence.{has_signatures, is_fit, is_held, is_wide, misfit_of, IsMisfit};

use crate::flaw::Flaw;
use bs_bits::Bits;
use bs_report::Step;

/// Whether a signature that may be there has so many bits.
fn is_wide(items: usize, signature: &Option<Bits>) -> bool
    ensures { result ≡ is_wide items signature.now }
{
    match signature {
        None => true,
        Some(bits) => bits.len() == items,
    }
}

/// Whether an older signature is one that a register of this depth keeps.
fn is_held(items: usize, depth: u8, older: &Option<Bits>) -> bool
    ensures { result ≡ is_held items depth older.now }
{
    if depth == 1 {
        older.is_none()
    } else {
        is_wide(items, older)
    }
}

/// Whether the signatures of a step are those that the register keeps.
fn has_signatures(items: usize, depth: u8, step: &Step) -> bool
    ensures { result ≡ has_signatures items depth step.now }
{
    step.stored.len() == items && is_held(items, depth, &step.older)
}

/// Why a step, counted from 1, does not fit.
fn misfit_of(flops: usize, items: usize, depth: u8, number: u64, step: &Step) -> Option<Flaw>
    ensures { result ≡ misfit_of flops items depth number step.now }
{
    if step.present.bits.len() != flops {
        return Some(Flaw::Present(number));
    }
    if has_signatures(items, depth, step) {
        None
    } else {
        Some(Flaw::Stored(number))
    }
}

/// The first step that does not fit.
pub fn misfit(flops: usize, items: usize, depth: u8, steps: &[Step]) -> Option<Flaw>
    ensures { MatchOption result (All (λ step. IsTrue (is_fit flops items depth step)) steps.now) (IsMisfit flops items depth steps.now) }
{
    'steps: for i in 0..steps.len() {
        let step = &steps[i];
        match misfit_of(flops, items, depth, i as u64 + 1, step) {
            Some(flaw) => return Some(flaw),
            None => {}
        }
    }
    None
}
