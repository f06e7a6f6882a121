//! The flip-flops that the items of a signature read.
ghost use Rattle.std.specs.Prelude.{◌≡◌, [], length, slice_index_or, option_map, IfOk};
ghost use Rattle.std.specs.List.{list_any, range_with_len};
ghost use Rattle.bs_inspect_html.specs.Signed.{file_in};
ghost use Rattle.bs_inspect_html.specs.Reads.{has_flop, is_read, reads_of, signed_of};

use crate::signed::SignatureFile;
use bs_bits::{Bits, NoMemory};
use bs_scan::Choice;
use std::alloc::Global;

/// Whether an item has a flip-flop.
fn has_flop(item: &[u32], place: usize) -> bool
    ensures { result ≡ has_flop item.now place }
{
    item.iter().any(|flop| *flop as usize == place)
}

/// Whether the item with a number has a flip-flop; one that is not there has none.
#[tactic(auto, using(crate::proofs::ReadLemmas::item_there, crate::proofs::ReadLemmas::item_past))]
fn item_has(choice: &Choice, i: usize, place: usize) -> bool
    ensures { result ≡ has_flop (slice_index_or choice.now.items i []) place }
{
    if i < choice.items() {
        has_flop(choice.item(i).slice(), place)
    } else {
        false
    }
}

/// Whether the item with some number has a flip-flop.
fn any_item(choice: &Choice, place: usize) -> bool
    ensures { result ≡ list_any (λ i. has_flop (slice_index_or choice.now.items i []) place) (range_with_len 0 (length choice.now.items)) }
{
    (0..choice.items()).any(|i| item_has(choice, i, place))
}

/// Whether some item has a flip-flop.
#[tactic(auto, using(crate::proofs::ReadLemmas::any_item))]
fn is_read(choice: &Choice, place: usize) -> bool
    ensures { result ≡ is_read choice.now.items place }
{
    any_item(choice, place)
}

/// For each flip-flop, whether some item has it.
#[tactic(auto, using(crate::proofs::ReadLemmas::reads_more))]
fn reads_of(alloc: Global, choice: &Choice) -> Result<Bits, NoMemory>
    ensures { IfOk result (λ bits. bits ≡ reads_of choice.now) }
{
    let mut bits = Bits::new(alloc);
    'flops: for place in 0..choice.width() {
        bits.push(is_read(choice, place))?;
    }
    Ok(bits)
}

/// The same of a signature that may be given.
pub fn signed_of(alloc: Global, signature: Option<SignatureFile<'_>>) -> Result<Bits, NoMemory>
    ensures { IfOk result (λ bits. bits ≡ signed_of (option_map file_in signature.entry)) }
{
    match signature {
        Some(file) => reads_of(alloc, file.choice),
        None => Ok(Bits::new(alloc)),
    }
}
