//! The text of accounts.
ghost use Rattle.std.specs.Prelude.{◌≡◌, ◌<◌, length, All, IfOk, OnOk};
ghost use Rattle.bs_net.specs.Netlist.{circuit};
ghost use Rattle.bs_net_facts.specs.Facts.{IsWayOf};
ghost use Rattle.bs_inspect_causes.specs.Accounts.{IsAccount};
ghost use Rattle.bs_inspect_why_words.specs.Blocks.{Appends, TellsBlock};
ghost use Rattle.bs_inspect_why_words.specs.Heads.{episode_in};
ghost use Rattle.bs_inspect_causes.specs.Chains.{ArePlaces, chain_at, chains_of as all_chains, IsWithin};
ghost use Rattle.bs_inspect_why.specs.Stills.{shown};
ghost use Rattle.bs_inspect_why.specs.Why.{episode_of, episode_with, ordered_at, TellsAccounts, TellsBlocks, TellsBlocksWith, TellsChain, TellsChains, TellsPlaces};

use crate::question::AskedNets;
use crate::still::{shown, stills_for, used};
use crate::table::accounts_table;
use bs_bits::NoMemory;
use bs_inspect_causes::{Account, AccountChain, ChainPlace, chains_of, ordered_chains};
use bs_inspect_why_words::{Episode, Limits, limits_of, push_block, push_stills};
use bs_net_facts::{Fact, Moments};
use bs_report::Report;
use std::alloc::Global;

/// What blocks are told by: a trace and its report, how much is told, the data inputs that stand still, and the accounts.
#[derive(Clone, Copy)]
struct Telling<'a> {
    moments: &'a Moments<'a>,
    report: &'a Report,
    few: Limits,
    stills: &'a [Fact],
    accounts: &'a [Account],
}

/// An account's bits, with facts that set and that keep them.
fn episode_with<'a>(account: &'a Account, causes: &'a [Fact], holds: &'a [Fact]) -> Episode<'a>
    ensures { episode_in result ≡ episode_with causes.now holds.now account.now }
{
    Episode {
        bits: account.block.bits.slice(),
        since: account.block.since,
        at: account.block.at,
        begun: account.block.begun,
        causes,
        holds,
        idle: account.idle.slice(),
    }
}

/// Appends the text of the accounts of a chain by what is told of them: what set the bits of the last, and what kept those of the first.
fn push_shown(
    text: &mut Vec<u8>,
    telling: &Telling<'_>,
    steps: usize,
    first: &Account,
    last: &Account,
    causes: &[Fact],
    holds: &[Fact],
) -> Result<(), NoMemory>
    requires way { IsWayOf (circuit telling.now.moments.now.net) telling.now.moments.now.states telling.now.moments.now.inputs }
    requires account { IsAccount (circuit telling.now.moments.now.net) telling.now.moments.now.states telling.now.moments.now.inputs last.now }
    requires causes { causes.now ≡ shown telling.now.stills.now last.now.causes }
    requires holds { holds.now ≡ shown telling.now.stills.now first.now.holds }
    ensures { OnOk result (Appends (TellsBlock telling.now.moments.now telling.now.report.now telling.now.few steps (episode_of telling.now.stills.now first.now) (episode_of telling.now.stills.now last.now)) text.old.items text.new.items) }
{
    let first = episode_with(first, causes, holds);
    let last = episode_with(last, causes, holds);
    push_block(
        text,
        telling.moments,
        telling.report,
        telling.few,
        steps,
        &first,
        &last,
    )?;
    Ok(())
}

/// Appends the text of the accounts of a chain.
fn push_accounts(
    text: &mut Vec<u8>,
    telling: &Telling<'_>,
    steps: usize,
    first: &Account,
    last: &Account,
) -> Result<(), NoMemory>
    requires way { IsWayOf (circuit telling.now.moments.now.net) telling.now.moments.now.states telling.now.moments.now.inputs }
    requires account { IsAccount (circuit telling.now.moments.now.net) telling.now.moments.now.states telling.now.moments.now.inputs last.now }
    ensures { OnOk result (Appends (TellsBlock telling.now.moments.now telling.now.report.now telling.now.few steps (episode_of telling.now.stills.now first.now) (episode_of telling.now.stills.now last.now)) text.old.items text.new.items) }
{
    let causes = shown(*text.allocator(), telling.stills, last.causes.slice())?;
    let holds = shown(*text.allocator(), telling.stills, first.holds.slice())?;
    push_shown(
        text,
        telling,
        steps,
        first,
        last,
        causes.slice(),
        holds.slice(),
    )?;
    Ok(())
}

/// Appends the text of the chain at a place.
#[tactic(auto, using(crate::proofs::TellingLemmas::first_here, crate::proofs::TellingLemmas::last_here, crate::proofs::TellingLemmas::account_there, crate::proofs::TellingLemmas::chain_told))]
fn push_place(
    text: &mut Vec<u8>,
    telling: &Telling<'_>,
    chains: &[AccountChain],
    place: usize,
) -> Result<(), NoMemory>
    requires way { IsWayOf (circuit telling.now.moments.now.net) telling.now.moments.now.states telling.now.moments.now.inputs }
    requires accounts { All (IsAccount (circuit telling.now.moments.now.net) telling.now.moments.now.states telling.now.moments.now.inputs) telling.now.accounts.now }
    requires within { All (IsWithin (length telling.now.accounts.now)) chains.now }
    requires place { place < length chains.now }
    ensures { OnOk result (Appends (TellsChain telling.now.moments.now telling.now.report.now telling.now.few telling.now.stills.now telling.now.accounts.now (chain_at chains.now place)) text.old.items text.new.items) }
{
    let chain = chains[place];
    let first = &telling.accounts[chain.first];
    let last = &telling.accounts[chain.last];
    push_accounts(text, telling, chain.steps, first, last)?;
    Ok(())
}

/// The place of the chain that stands at a place of their order.
#[tactic(auto, using(crate::proofs::TellingLemmas::place_read))]
fn place_at(ordered: &[ChainPlace], i: usize) -> usize
    requires { i < length ordered.now }
    ensures { result ≡ ordered_at ordered.now i }
{
    let place = &ordered[i];
    place.place
}

/// Appends the text of chains in their order.
fn push_places(
    text: &mut Vec<u8>,
    telling: &Telling<'_>,
    chains: &[AccountChain],
    ordered: &[ChainPlace],
) -> Result<(), NoMemory>
    requires way { IsWayOf (circuit telling.now.moments.now.net) telling.now.moments.now.states telling.now.moments.now.inputs }
    requires accounts { All (IsAccount (circuit telling.now.moments.now.net) telling.now.moments.now.states telling.now.moments.now.inputs) telling.now.accounts.now }
    requires within { All (IsWithin (length telling.now.accounts.now)) chains.now }
    requires places { ArePlaces telling.now.accounts.now chains.now ordered.now }
    ensures { OnOk result (Appends (TellsPlaces telling.now.moments.now telling.now.report.now telling.now.few telling.now.stills.now telling.now.accounts.now chains.now ordered.now (length ordered.now)) text.old.items text.new.items) }
{
    'places: for i in 0..ordered.len() {
        let place = place_at(ordered, i);
        push_place(text, telling, chains, place)?;
    }
    Ok(())
}

/// Appends the text of chains.
fn push_chains(
    text: &mut Vec<u8>,
    telling: &Telling<'_>,
    chains: &[AccountChain],
) -> Result<(), NoMemory>
    requires way { IsWayOf (circuit telling.now.moments.now.net) telling.now.moments.now.states telling.now.moments.now.inputs }
    requires accounts { All (IsAccount (circuit telling.now.moments.now.net) telling.now.moments.now.states telling.now.moments.now.inputs) telling.now.accounts.now }
    requires within { All (IsWithin (length telling.now.accounts.now)) chains.now }
    ensures { OnOk result (Appends (TellsChains telling.now.moments.now telling.now.report.now telling.now.few telling.now.stills.now telling.now.accounts.now chains.now) text.old.items text.new.items) }
{
    let ordered = ordered_chains(*text.allocator(), telling.accounts, chains)?;
    push_places(text, telling, chains, ordered.as_slice())?;
    Ok(())
}

/// The text of accounts as blocks.
#[tactic(auto, using(crate::proofs::TellingLemmas::whole_text))]
fn chains_text(alloc: Global, telling: &Telling<'_>) -> Result<Vec<u8>, NoMemory>
    requires way { IsWayOf (circuit telling.now.moments.now.net) telling.now.moments.now.states telling.now.moments.now.inputs }
    requires accounts { All (IsAccount (circuit telling.now.moments.now.net) telling.now.moments.now.states telling.now.moments.now.inputs) telling.now.accounts.now }
    ensures { IfOk result (λ text. TellsChains telling.now.moments.now telling.now.report.now telling.now.few telling.now.stills.now telling.now.accounts.now (all_chains telling.now.accounts.now (length telling.now.accounts.now)) text.items) }
{
    let chains = chains_of(alloc, telling.accounts)?;
    let mut text = Vec::new(alloc);
    push_chains(&mut text, telling, chains.as_slice())?;
    Ok(text)
}

/// The text of accounts as blocks, and behind them what stands still.
fn text_with(alloc: Global, telling: &Telling<'_>) -> Result<Vec<u8>, NoMemory>
    requires way { IsWayOf (circuit telling.now.moments.now.net) telling.now.moments.now.states telling.now.moments.now.inputs }
    requires accounts { All (IsAccount (circuit telling.now.moments.now.net) telling.now.moments.now.states telling.now.moments.now.inputs) telling.now.accounts.now }
    ensures { IfOk result (λ text. TellsBlocksWith telling.now.moments.now telling.now.report.now telling.now.few telling.now.stills.now telling.now.accounts.now text.items) }
{
    let mut text = chains_text(alloc, telling)?;
    let kept = used(alloc, telling.accounts, telling.stills)?;
    push_stills(
        &mut text,
        telling.moments.net().raw(),
        telling.few.held,
        kept.slice(),
    )?;
    Ok(text)
}

/// The text of accounts as blocks.
fn blocks_text(
    moments: &Moments<'_>,
    asked: &AskedNets<'_>,
    accounts: &[Account],
) -> Result<Vec<u8>, NoMemory>
    requires way { IsWayOf (circuit moments.now.net) moments.now.states moments.now.inputs }
    requires accounts { All (IsAccount (circuit moments.now.net) moments.now.states moments.now.inputs) accounts.now }
    ensures { IfOk result (λ text. TellsBlocks moments.now asked.now.report.now asked.now.question.now.all accounts.now text.items) }
{
    let all = asked.question.all;
    let stills = stills_for(asked.alloc, moments, all)?;
    let telling = Telling {
        moments,
        report: asked.report,
        few: limits_of(all),
        stills: stills.as_slice(),
        accounts,
    };
    let text = text_with(asked.alloc, &telling)?;
    Ok(text)
}

/// The text of accounts, as blocks or as a table.
#[tactic(auto, using(crate::proofs::TellingLemmas::table_told, crate::proofs::TellingLemmas::blocks_told))]
pub(crate) fn accounts_text(
    moments: &Moments<'_>,
    asked: &AskedNets<'_>,
    accounts: &[Account],
) -> Result<Vec<u8>, NoMemory>
    requires way { IsWayOf (circuit moments.now.net) moments.now.states moments.now.inputs }
    requires accounts { All (IsAccount (circuit moments.now.net) moments.now.states moments.now.inputs) accounts.now }
    ensures { IfOk result (λ text. TellsAccounts asked.now.question.now.csv moments.now asked.now.report.now asked.now.question.now.all accounts.now text.items) }
{
    if asked.question.csv {
        let text = accounts_table(asked.alloc, moments.net().raw(), accounts)?;
        return Ok(text);
    }
    let text = blocks_text(moments, asked, accounts)?;
    Ok(text)
}
