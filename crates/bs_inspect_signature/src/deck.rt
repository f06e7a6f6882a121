//! A deck of items, from which flip-flops draw.
ghost use Rattle.std.specs.Prelude.{◌≡◌, ◌<◌, ◌≤◌, ◌^◌, length, IfOk, OnOk};
ghost use Rattle.std.specs.List.{range_with_len};
ghost use Rattle.bs_inspect_signature.specs.Deck.{behind, deck_before, deck_in, filled, hand, rest_of, top_of, weight_of};

use bs_bits::{List, NoMemory};
use bs_gen::Draws;
use std::alloc::Global;

/// How many items a flip-flop draws. With three a search ends soon up to 0.8 lost flip-flops an item; with two up to half as many.
pub const WEIGHT: usize = 3;

/// Where there are fewer items, a flip-flop draws one: three would be nearly all of them.
pub const FEW_ITEMS: usize = 6;

/// The first state of the generator. Any other does as well; a proposal is the same each time.
const SEED: u64 = 1;

/// The items that are left of a deck, and the draws that are left.
#[derive(Drop)]
pub(crate) struct Deck {
    pub left: Vec<u32>,
    pub draws: Draws,
}

/// The deck in front of the first flip-flop: no items are left, and no draw was made.
pub(crate) fn first_deck(alloc: Global, count: usize) -> Deck
    ensures { deck_in result ≡ deck_before count 0 }
{
    let _count = count;
    Deck {
        left: Vec::new(alloc),
        draws: Draws::new(SEED),
    }
}

/// How many items a flip-flop draws, of so many.
pub(crate) fn weight_of(count: usize) -> usize
    ensures { result ≡ weight_of count }
{
    if count < FEW_ITEMS { 1 } else { WEIGHT }
}

/// Draws an item.
#[tactic(auto, using(crate::proofs::DeckLemmas::top_drawn, crate::proofs::DeckLemmas::rest_left))]
fn draw(deck: &mut Deck) -> u32
    requires some { 0 < length deck.old.left.items }
    requires few { length deck.old.left.items < 2 ^ 20 }
    ensures item { result ≡ top_of (deck_in deck.old) }
    ensures rest { deck_in deck.new ≡ rest_of (deck_in deck.old) }
{
    let count = deck.left.len() as u32;
    let place = deck.draws.pick(count) as usize;
    deck.left.remove(place)
}

/// All items.
fn all_items(alloc: Global, count: usize) -> Result<Vec<u32>, NoMemory>
    requires { count < 2 ^ 20 }
    ensures { IfOk result (λ items. items.items ≡ range_with_len 0 count) }
{
    let mut items = Vec::new(alloc);
    'items: for item in 0..count {
        items.push(item as u32)?;
    }
    Ok(items)
}

/// Takes a new deck where a flip-flop finds too few items.
fn fill(alloc: Global, deck: &mut Deck, count: usize) -> Result<(), NoMemory>
    requires { count < 2 ^ 20 }
    ensures { OnOk result (deck_in deck.new ≡ filled count (deck_in deck.old)) }
{
    if deck.left.len() < weight_of(count) {
        let left = all_items(alloc, count)?;
        deck.left = left;
    }
    Ok(())
}

/// Draws so many items.
fn draw_hand(alloc: Global, deck: &mut Deck, weight: usize) -> Result<List<u32>, NoMemory>
    requires enough { weight ≤ length deck.old.left.items }
    requires few { length deck.old.left.items < 2 ^ 20 }
    ensures items { IfOk result (λ items. items ≡ hand weight (deck_in deck.old)) }
    ensures rest { OnOk result (deck_in deck.new ≡ behind weight (deck_in deck.old)) }
{
    let mut items = List::new(alloc);
    'items: for _ in 0..weight {
        items.push(draw(deck))?;
    }
    Ok(items)
}

/// Draws the items of the next flip-flop, of so many items.
pub(crate) fn next_hand(alloc: Global, deck: &mut Deck, count: usize) -> Result<List<u32>, NoMemory>
    requires some { 0 < count }
    requires few { count < 2 ^ 20 }
    requires left { length deck.old.left.items ≤ count }
    ensures items { IfOk result (λ items. items ≡ hand (weight_of count) (filled count (deck_in deck.old))) }
    ensures rest { OnOk result (deck_in deck.new ≡ behind (weight_of count) (filled count (deck_in deck.old))) }
    ensures left { OnOk result (length deck.new.left.items ≤ count) }
{
    fill(alloc, deck, count)?;
    let items = draw_hand(alloc, deck, weight_of(count))?;
    Ok(items)
}
