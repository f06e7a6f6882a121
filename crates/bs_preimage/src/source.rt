//! What may know a predecessor of a present.
ghost use Rattle.std.specs.Prelude.{◌≡◌, IfOk};
ghost use Rattle.std.specs.Prelude.{Option};
ghost use Rattle.bs_report.specs.declared.report.Cand.{Cand};

use crate::candidate::copied;
use bs_bits::NoMemory;
use bs_report::Cand;
use std::alloc::Global;

/// What may know a predecessor of a present, once its list is about to be cut.
pub trait Source {
    /// What it needs to be asked.
    ghost ready: { Self → Type 0 } = { λ _. Unit {0} };

    /// A call leads from the source as it was, with what it knew, to the source as it is.
    ghost knows: { Self → Option Cand → Self → Type 0 };

    /// What stays in a call, also where memory runs out.
    ghost stays: { Self → Self → Type 0 } = { λ _ _. Unit {0} };

    /// A predecessor that is known, if there is one. It is asked for once at most in a list, where one place is left and the list is
    /// neither finished nor spent.
    fn known(&mut self, alloc: Global) -> Result<Option<Cand>, NoMemory>
        requires ready { ready self.old }
        ensures known { IfOk result (λ known. knows self.old known self.new) }
        ensures stays { stays self.old self.new };
}

/// An equal candidate, if there is one.
fn copied_known(known: &Option<Cand>) -> Result<Option<Cand>, NoMemory>
    ensures { IfOk result (λ copy. copy ≡ known.now) }
{
    match known {
        None => Ok(None),
        Some(cand) => {
            let copy = copied(cand)?;
            Ok(Some(copy))
        }
    }
}

/// What was known beforehand.
#[derive(Drop)]
pub(crate) struct KnownBefore<'a> {
    pub(crate) known: &'a Option<Cand>,
}

impl<'a> Source for KnownBefore<'a> {
    ghost knows = { λ before known _. known ≡ before.known.now };

    fn known(&mut self, _alloc: Global) -> Result<Option<Cand>, NoMemory> {
        copied_known(self.known)
    }
}
