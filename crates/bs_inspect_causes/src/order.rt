//! Chains in order: the last moment first, then by layers.
ghost use Rattle.std.specs.Prelude.{◌≡◌, ◌<◌, length, All, IfOk};
ghost use Rattle.std.specs.List.Sorted.{IsPermutation, IsSorted};
ghost use Rattle.bs_inspect_causes.specs.Chains.{ArePlaces, IsWithin, place_cmp, place_of, places_of};

use crate::account::Account;
use crate::chain::{AccountChain, ChainPlace};
use bs_bits::NoMemory;
use std::alloc::Global;
use std::cmp::Reverse;

/// When a chain ends, its layer, and its place.
#[tactic(auto, using(crate::proofs::OrderLemmas::first_there, crate::proofs::OrderLemmas::place_is))]
fn place_of(accounts: &[Account], chains: &[AccountChain], place: usize) -> ChainPlace
    requires place { place < length chains.now }
    requires within { All (IsWithin (length accounts.now)) chains.now }
    ensures { result ≡ place_of accounts.now chains.now place }
{
    let chain = chains[place];
    let account = &accounts[chain.first];
    ChainPlace {
        at: account.block.at,
        layer: account.layer,
        place,
    }
}

/// When chains end, their layers, and their places.
fn places_of(
    alloc: Global,
    accounts: &[Account],
    chains: &[AccountChain],
) -> Result<Vec<ChainPlace>, NoMemory>
    requires { All (IsWithin (length accounts.now)) chains.now }
    ensures { IfOk result (λ places. places.items ≡ places_of accounts.now chains.now (length chains.now)) }
{
    let mut places = Vec::new(alloc);
    'chains: for i in 0..chains.len() {
        places.push(place_of(accounts, chains, i))?;
    }
    Ok(places)
}

/// Places in order.
fn ordered(places: Vec<ChainPlace>) -> Result<Vec<ChainPlace>, NoMemory>
    ensures same { IfOk result (λ ordered. IsPermutation places.items ordered.items) }
    ensures sorted { IfOk result (λ ordered. IsSorted place_cmp ordered.items) }
{
    let mut places = places;
    places.sort_by_key(|p| (Reverse(p.at), p.layer, p.place))?;
    Ok(places)
}

/// Chains in order.
#[tactic(auto, using(crate::proofs::OrderLemmas::places_are))]
pub fn ordered_chains(
    alloc: Global,
    accounts: &[Account],
    chains: &[AccountChain],
) -> Result<Vec<ChainPlace>, NoMemory>
    requires { All (IsWithin (length accounts.now)) chains.now }
    ensures { IfOk result (λ ordered. ArePlaces accounts.now chains.now ordered.items) }
{
    let places = places_of(alloc, accounts, chains)?;
    let ordered = ordered(places)?;
    Ok(ordered)
}
