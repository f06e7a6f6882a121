//! How many items the proposals have that are tried.
ghost use Rattle.std.specs.Prelude.{◌≡◌, ◌++◌, filter, nat_lt, IfOk, OnOk, if◌then◌else◌, ◌∷◌, []};
ghost use Rattle.bs_inspect_signature.specs.Tried.{last_tried, tried};

use bs_bits::NoMemory;
use bs_scan::MAX_ITEMS;
use std::alloc::Global;

/// Numbers of items that are tried, each at most half as great again as the one before.
const NUMBERS: [usize; 9] = [16, 24, 32, 48, 64, 96, 128, 192, 256];

/// Puts a number at the end where it is below the number of flip-flops.
fn put_below(own: &mut Vec<usize>, width: usize, number: usize) -> Result<(), NoMemory>
    ensures { OnOk result (own.new.items ≡ own.old.items ++ (if nat_lt number width then number ∷ [] else [])) }
{
    if number < width {
        own.push(number)?;
    }
    Ok(())
}

/// Those of some numbers that are below the number of flip-flops.
#[tactic(auto, using(crate::proofs::TriedLemmas::below_more))]
fn below(alloc: Global, width: usize, numbers: &[usize]) -> Result<Vec<usize>, NoMemory>
    ensures { IfOk result (λ own. own.items ≡ filter (λ n. nat_lt n width) numbers.now) }
{
    let mut own = Vec::new(alloc);
    'numbers: for i in 0..numbers.len() {
        put_below(&mut own, width, numbers[i])?;
    }
    Ok(own)
}

/// Puts the number of flip-flops at the end, where a signature may have so many items.
fn put_last(own: &mut Vec<usize>, width: usize) -> Result<(), NoMemory>
    ensures { OnOk result (own.new.items ≡ own.old.items ++ last_tried width) }
{
    if width <= MAX_ITEMS as usize {
        own.push(width.max(1))?;
    }
    Ok(())
}

/// The numbers that are tried, the least first.
pub(crate) fn tried(alloc: Global, width: usize) -> Result<Vec<usize>, NoMemory>
    ensures { IfOk result (λ own. own.items ≡ tried width) }
{
    let mut own = below(alloc, width, &NUMBERS)?;
    put_last(&mut own, width)?;
    Ok(own)
}
