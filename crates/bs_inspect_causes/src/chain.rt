//! Accounts that step a vector on for the same reasons, as one.
ghost use Rattle.std.specs.Prelude.{◌≡◌, ◌<◌, ◌+◌, ◌^◌, length, count_by, All, IfOk, OnOk, None, Some};
ghost use Rattle.std.specs.List.{list_all, list_any, position};
ghost use Rattle.bs_inspect_causes.specs.Chains.{are_among, chain_at, chained, chained_at, chains_of, come_again, goes_on, has_fact, is_before, is_other, is_other_again, is_step, IsWithin, may_be_before, may_go, other_causes, same_nets};

use crate::account::Account;
use bs_bits::NoMemory;
use bs_net_facts::{Fact, is_again};
use std::alloc::Global;

/// Accounts from the one that ends last to that of the first step, by their places, and how many they are.
#[derive(Clone, Copy)]
pub struct AccountChain {
    pub first: usize,
    pub last: usize,
    pub steps: usize,
}

/// When a chain ends, its layer, and its place.
#[derive(Clone, Copy)]
pub struct ChainPlace {
    pub at: u32,
    pub layer: u32,
    pub place: usize,
}

/// Whether one of some facts is of a net.
fn has_fact(facts: &[Fact], fact: Fact) -> bool
    ensures { result ≡ has_fact facts.now fact }
{
    'facts: for other in facts {
        let same = other.net.0 == fact.net.0;
        if same {
            return true;
        }
    }
    false
}

/// Whether facts are all of nets of others.
fn are_among(facts: &[Fact], others: &[Fact]) -> bool
    ensures { result ≡ are_among facts.now others.now }
{
    'facts: for fact in facts {
        if !has_fact(others, *fact) {
            return false;
        }
    }
    true
}

/// Whether facts are of the same nets.
fn same_nets(facts: &[Fact], others: &[Fact]) -> bool
    ensures { result ≡ same_nets facts.now others.now }
{
    facts.len() == others.len() && are_among(facts, others)
}

/// Whether a fact is of another net than the bits of an account.
fn is_other(account: &Account, fact: Fact) -> bool
    ensures { result ≡ is_other account.now fact }
{
    !has_fact(account.block.bits.slice(), fact)
}

/// How many causes are of other nets than the bits.
fn count_others(account: &Account) -> usize
    ensures { result ≡ count_by (is_other account.now) account.now.causes }
{
    account
        .causes
        .slice()
        .iter()
        .filter(|&&fact| is_other(account, fact))
        .count()
}

/// Whether a fact is of another net than the bits of an account, and the same as another one, a cycle later.
fn is_other_again(later: &Account, fact: Fact, other: Fact) -> bool
    ensures { result ≡ is_other_again later.now fact other }
{
    is_other(later, other) && is_again(fact, other)
}

/// Whether one of the other causes of an account is the same as a fact, a cycle later.
fn comes_again(later: &Account, fact: Fact) -> bool
    ensures { result ≡ list_any (is_other_again later.now fact) later.now.causes }
{
    let causes = later.causes.slice();
    'causes: for other in causes {
        if is_other_again(later, fact, *other) {
            return true;
        }
    }
    false
}

/// Whether a fact comes again among the other causes of an account, unless it is of the bits of the account before.
fn may_go(later: &Account, account: &Account, fact: Fact) -> bool
    ensures { result ≡ may_go later.now account.now fact }
{
    !is_other(account, fact) || comes_again(later, fact)
}

/// Whether each of the other causes of an account comes again a cycle later.
fn all_again(later: &Account, account: &Account) -> bool
    ensures { result ≡ list_all (may_go later.now account.now) account.now.causes }
{
    let causes = account.causes.slice();
    'causes: for fact in causes {
        if !may_go(later, account, *fact) {
            return false;
        }
    }
    true
}

/// Whether each of the other causes of an account comes again a cycle later, and no others.
#[tactic(auto, using(crate::proofs::ChainLemmas::again_is))]
fn come_again(later: &Account, account: &Account) -> bool
    ensures { result ≡ come_again (other_causes account.now) (other_causes later.now) }
{
    let same = count_others(account) == count_others(later);
    let all = all_again(later, account);
    same && all
}

/// Whether an account sets each of its bits from the bits before.
fn is_step(account: &Account) -> bool
    ensures { result ≡ is_step account.now }
{
    are_among(account.block.bits.slice(), account.causes.slice())
}

/// Whether an account may be the step before another one, but for the other causes.
fn may_step(later: &Account, account: &Account) -> bool
    ensures { result ≡ may_be_before later.now account.now }
{
    u64::from(later.block.since) == u64::from(account.block.at) + 1
        && (account.block.since == account.block.at
            && (same_nets(account.block.bits.slice(), later.block.bits.slice())
                && (is_step(account) && is_step(later))))
}

/// Whether an account tells the step before another one.
#[tactic(auto, using(crate::proofs::ChainLemmas::before_not, crate::proofs::ChainLemmas::before_by))]
fn is_before(later: &Account, account: &Account) -> bool
    ensures { result ≡ is_before later.now account.now }
{
    if !may_step(later, account) {
        return false;
    }
    come_again(later, account)
}

/// Whether an account goes on the chain at a place.
#[tactic(auto, using(crate::proofs::ChainLemmas::last_here, crate::proofs::ChainLemmas::on_here))]
fn goes_on_at(accounts: &[Account], chains: &[AccountChain], number: usize, place: usize) -> bool
    requires number { number < length accounts.now }
    requires within { All (IsWithin number) chains.now }
    requires place { place < length chains.now }
    ensures { result ≡ goes_on accounts.now number (chain_at chains.now place) }
{
    let chain = chains[place];
    is_before(&accounts[chain.last], &accounts[number])
}

/// The first chain that an account goes on.
#[tactic(auto, using(crate::proofs::ChainLemmas::none_begin))]
fn chain_of(accounts: &[Account], chains: &[AccountChain], number: usize) -> Option<usize>
    requires number { number < length accounts.now }
    requires within { All (IsWithin number) chains.now }
    ensures { result ≡ position (goes_on accounts.now number) chains.now }
{
    'chains: for k in 0..chains.len() {
        if goes_on_at(accounts, chains, number, k) {
            return Some(k);
        }
    }
    None
}

/// Puts an account on the chain at a place.
#[tactic(auto, using(crate::proofs::ChainLemmas::steps_fit, crate::proofs::ChainLemmas::set_is, crate::proofs::ChainLemmas::set_within))]
fn extend(chains: &mut Vec<AccountChain>, place: usize, number: usize)
    requires place { place < length chains.old.items }
    requires number { number + 1 < 2 ^ 64 }
    requires within { All (IsWithin number) chains.old.items }
    ensures chains { chains.new.items ≡ chained_at (Some place) chains.old.items number }
    ensures within { All (IsWithin (number + 1)) chains.new.items }
{
    let chain = chains[place];
    chains[place] = AccountChain {
        first: chain.first,
        last: number,
        steps: chain.steps + 1,
    };
}

/// Puts an account at the end as a chain of its own.
#[tactic(auto, using(crate::proofs::ChainLemmas::push_within))]
fn push_alone(chains: &mut Vec<AccountChain>, number: usize) -> Result<(), NoMemory>
    requires within { All (IsWithin number) chains.old.items }
    ensures chains { OnOk result (chains.new.items ≡ chained_at None chains.old.items number) }
    ensures within { OnOk result (All (IsWithin (number + 1)) chains.new.items) }
{
    chains.push(AccountChain {
        first: number,
        last: number,
        steps: 1,
    })?;
    Ok(())
}

/// Puts an account on the first chain that it goes on, or at the end as one of its own.
#[tactic(auto, using(crate::proofs::ChainLemmas::found_there, crate::proofs::ChainLemmas::chained_by))]
fn add_account(
    accounts: &[Account],
    chains: &mut Vec<AccountChain>,
    number: usize,
) -> Result<(), NoMemory>
    requires number { number < length accounts.now }
    requires small { number + 1 < 2 ^ 64 }
    requires within { All (IsWithin number) chains.old.items }
    ensures chains { OnOk result (chains.new.items ≡ chained accounts.now chains.old.items number) }
    ensures within { OnOk result (All (IsWithin (number + 1)) chains.new.items) }
{
    match chain_of(accounts, chains.as_slice(), number) {
        Some(place) => {
            extend(chains, place, number);
            Ok(())
        }
        None => push_alone(chains, number),
    }
}

/// The chains of accounts.
#[tactic(auto, using(crate::proofs::ChainLemmas::none_within))]
pub fn chains_of(alloc: Global, accounts: &[Account]) -> Result<Vec<AccountChain>, NoMemory>
    ensures chains { IfOk result (λ chains. chains.items ≡ chains_of accounts.now (length accounts.now)) }
    ensures within { IfOk result (λ chains. All (IsWithin (length accounts.now)) chains.items) }
{
    let mut chains = Vec::new(alloc);
    'accounts: for i in 0..accounts.len() {
        add_account(accounts, &mut chains, i)?;
    }
    Ok(chains)
}
