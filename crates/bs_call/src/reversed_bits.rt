//! Bits read backwards.
ghost use Rattle.std.specs.Prelude.{◌≡◌, option_map, reverse, IfOk};

use bs_bits::{Bits, NoMemory};
use std::alloc::Global;

/// The bits of a list, the last one first.
#[tactic(auto, using(crate::proofs::TurnedLemmas::turned_more, crate::proofs::TurnedLemmas::turned_all))]
pub fn turned(alloc: Global, bits: &Bits) -> Result<Bits, NoMemory>
    ensures { IfOk result (λ turned. turned ≡ reverse bits.now) }
{
    let count = bits.len();
    let mut turned = Bits::new(alloc);
    'bits: for i in 0..count {
        turned.push(bits.get(count - 1 - i))?;
    }
    Ok(turned)
}

/// A signature that is held, if one is, read backwards.
pub fn turned_held(alloc: Global, held: &Option<Bits>) -> Result<Option<Bits>, NoMemory>
    ensures { IfOk result (λ turned. turned ≡ option_map reverse held.now) }
{
    match held {
        Some(bits) => Ok(Some(turned(alloc, bits)?)),
        None => Ok(None),
    }
}
