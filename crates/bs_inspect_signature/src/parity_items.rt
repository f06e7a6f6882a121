//! The items of a proposal.
ghost use Rattle.std.specs.Prelude.{◌≡◌, ◌<◌, ◌^◌, ◌++◌, ◌∷◌, [], map, IfOk, OnOk, if◌then◌else◌};
ghost use Rattle.std.specs.List.{range_with_len};
ghost use Rattle.bs_inspect_signature.specs.Deck.{deck_before, deck_in, hand_of};
ghost use Rattle.bs_inspect_signature.specs.Mixed.{drawn_items, has_item, is_drawn, members, mixed_items, single};

use crate::deck::{Deck, first_deck, next_hand};
use bs_bits::{List, NoMemory};
use std::alloc::Global;

/// The items of each of so many flip-flops, where none has drawn yet.
fn deal(
    alloc: Global,
    deck: &mut Deck,
    width: usize,
    count: usize,
) -> Result<List<List<u32>>, NoMemory>
    requires some { 0 < count }
    requires few { count < 2 ^ 20 }
    requires first { deck_in deck.old ≡ deck_before count 0 }
    ensures { IfOk result (λ hands. hands ≡ map (hand_of count) (range_with_len 0 width)) }
{
    let mut hands = List::new(alloc);
    'flops: for _ in 0..width {
        hands.push(next_hand(alloc, deck, count)?)?;
    }
    Ok(hands)
}

/// The items of each of so many flip-flops.
fn hands_of(alloc: Global, width: usize, count: usize) -> Result<List<List<u32>>, NoMemory>
    requires some { 0 < count }
    requires few { count < 2 ^ 20 }
    ensures { IfOk result (λ hands. hands ≡ map (hand_of count) (range_with_len 0 width)) }
{
    let mut deck = first_deck(alloc, count);
    let hands = deal(alloc, &mut deck, width, count)?;
    Ok(hands)
}

/// Whether an item is one of these.
fn has_item(items: &[u32], item: u32) -> bool
    ensures { result ≡ has_item items.now item }
{
    items.iter().any(|one| *one == item)
}

/// Puts a flip-flop at the end where it drew an item.
fn put_if(members: &mut List<u32>, hand: &[u32], flop: usize, item: u32) -> Result<(), NoMemory>
    requires { flop < 2 ^ 20 }
    ensures { OnOk result (members.new ≡ members.old ++ (if has_item hand.now item then flop ∷ [] else [])) }
{
    if has_item(hand, item) {
        members.push(flop as u32)?;
    }
    Ok(())
}

/// The flip-flops that drew an item.
#[tactic(auto, using(crate::proofs::MixedLemmas::no_members, crate::proofs::MixedLemmas::member_more, crate::proofs::MixedLemmas::members_all))]
fn members(
    alloc: Global,
    width: usize,
    hands: &[List<u32>],
    count: usize,
    item: u32,
) -> Result<List<u32>, NoMemory>
    requires narrow { width < 2 ^ 20 }
    requires hands { hands.now ≡ map (hand_of count) (range_with_len 0 width) }
    ensures { IfOk result (λ own. own ≡ members width count item) }
{
    let _width = width;
    let _count = count;
    let mut members = List::new(alloc);
    'flops: for flop in 0..hands.len() {
        put_if(&mut members, hands[flop].slice(), flop, item)?;
    }
    Ok(members)
}

/// Puts an item at the end where some flip-flop drew it.
fn put_drawn(items: &mut List<List<u32>>, members: List<u32>) -> Result<(), NoMemory>
    ensures { OnOk result (items.new ≡ items.old ++ (if is_drawn members then members ∷ [] else [])) }
{
    if members.len() > 0 {
        items.push(members)?;
    }
    Ok(())
}

/// The items that some flip-flop drew, where each has drawn.
#[tactic(auto, using(crate::proofs::MixedLemmas::item_more))]
fn items_of(
    alloc: Global,
    width: usize,
    hands: &[List<u32>],
    count: usize,
) -> Result<List<List<u32>>, NoMemory>
    requires narrow { width < 2 ^ 20 }
    requires few { count < 2 ^ 20 }
    requires hands { hands.now ≡ map (hand_of count) (range_with_len 0 width) }
    ensures { IfOk result (λ items. items ≡ drawn_items width count) }
{
    let mut items = List::new(alloc);
    'items: for item in 0..count {
        put_drawn(
            &mut items,
            members(alloc, width, hands, count, item as u32)?,
        )?;
    }
    Ok(items)
}

/// The parities of so many items, without those that no flip-flop drew.
fn drawn_items(alloc: Global, width: usize, count: usize) -> Result<List<List<u32>>, NoMemory>
    requires narrow { width < 2 ^ 20 }
    requires some { 0 < count }
    requires few { count < 2 ^ 20 }
    ensures { IfOk result (λ items. items ≡ drawn_items width count) }
{
    let hands = hands_of(alloc, width, count)?;
    let items = items_of(alloc, width, hands.slice(), count)?;
    Ok(items)
}

/// The item of one flip-flop.
fn single(alloc: Global, flop: u32) -> Result<List<u32>, NoMemory>
    ensures { IfOk result (λ item. item ≡ single flop) }
{
    let mut item = List::new(alloc);
    item.push(flop)?;
    Ok(item)
}

/// Each flip-flop by itself.
#[tactic(auto, using(crate::proofs::MixedLemmas::mapped_place))]
fn singles(alloc: Global, width: usize) -> Result<List<List<u32>>, NoMemory>
    requires { width < 2 ^ 20 }
    ensures { IfOk result (λ items. items ≡ map single (range_with_len 0 width)) }
{
    let mut items = List::new(alloc);
    'flops: for flop in 0..width {
        items.push(single(alloc, flop as u32)?)?;
    }
    Ok(items)
}

/// The items of a proposal of so many.
#[tactic(auto, using(crate::proofs::MixedLemmas::all_single, crate::proofs::MixedLemmas::all_drawn))]
pub(crate) fn mixed_items(
    alloc: Global,
    width: usize,
    count: usize,
) -> Result<List<List<u32>>, NoMemory>
    requires narrow { width < 2 ^ 20 }
    requires some { 0 < count }
    ensures { IfOk result (λ items. items ≡ mixed_items width count) }
{
    if width <= count {
        singles(alloc, width)
    } else {
        drawn_items(alloc, width, count)
    }
}
