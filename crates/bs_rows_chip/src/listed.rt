//! States of three flip-flops.
ghost use Rattle.std.specs.Prelude.{◌≡◌, length, All, IfOk};

use bs_bits::{Bits, NoMemory};
use std::alloc::Global;

/// The state of three flip-flops whose bits are those of a number, the lowest one first.
fn state(alloc: Global, number: u8) -> Result<Bits, NoMemory>
    ensures { IfOk result (λ bits. length bits ≡ 3) }
{
    let mut bits = Bits::new(alloc);
    bits.push(number & 1 == 1)?;
    bits.push(number & 2 == 2)?;
    bits.push(number & 4 == 4)?;
    Ok(bits)
}

/// The states of some numbers.
pub fn states(alloc: Global, numbers: &[u8]) -> Result<Vec<Bits>, NoMemory>
    ensures { IfOk result (λ states. All (λ s. length s ≡ 3) states.items) }
{
    let mut states = Vec::new(alloc);
    'numbers: for number in numbers {
        states.push(state(alloc, *number)?)?;
    }
    Ok(states)
}
