//! How many items are enough.
ghost use Rattle.std.specs.Prelude.{◌≡◌, ◌<◌, length, Some, All, IfOk};
ghost use Rattle.bs_net.specs.Netlist.{circuit};
ghost use Rattle.bs_inspect_signature.specs.Enough.{EndsAt, IsJudged, IsVerdict, TellsEnough, answer_of, is_refuted, others, suffices};
ghost use Rattle.bs_inspect_signature.specs.Reading.{mixed_choice};
ghost use Rattle.bs_inspect_signature.specs.Tried.{tried};

use crate::counting::{ListPurpose, is_one};
use crate::item_counts::tried;
use crate::lines::count_cut;
use crate::lists::{MomentCount, count_lists, count_taken, most_others};
use crate::reading::read_mixed;
use bs_bits::NoMemory;
use bs_net::Netlist;
use bs_scan::{Choice, Moment};
use bs_stim::Runs;
use std::alloc::Global;

/// What lists say of a number of items.
#[derive(Clone, Copy, Debug, PartialEq, Eq)]
pub enum ItemsVerdict {
    /// It is enough.
    Suffices,
    /// It is not: with the list at this moment one is cut, or too many are not of one predecessor.
    GivenUp(Moment),
    /// A proposal of so many is no signature, since its lines are too long.
    Unread,
}

/// How many items are enough, of the numbers that are tried.
#[derive(Clone, Copy, Debug, PartialEq, Eq)]
pub enum EnoughItems {
    /// So many.
    Number(usize),
    /// None: so many are the last, and were given up at this moment.
    NoneAt(usize, Moment),
    /// None: a proposal of the last number is no signature.
    NoneRead,
}

/// How many lists are not of one predecessor.
fn others(lists: &[MomentCount]) -> usize
    ensures { result ≡ others lists.now }
{
    lists.iter().filter(|entry| !is_one(entry.count)).count()
}

/// Whether a list is cut, or more are not of one predecessor than may be at so many moments.
fn is_refuted(taken: usize, lists: &[MomentCount]) -> bool
    ensures { result ≡ is_refuted taken lists.now }
{
    let cut = count_cut(lists);
    let others = others(lists);
    0 < cut || most_others(taken) < others
}

/// The moment of the last list.
#[tactic(auto, using(crate::proofs::EnoughLemmas::ends_there))]
fn last_moment(lists: &[MomentCount]) -> Moment
    requires { 0 < length lists.now }
    ensures { EndsAt lists.now result }
{
    lists[lists.len() - 1].moment
}

/// What lists say, of so many moments that may be taken.
#[tactic(auto, using(crate::proofs::EnoughLemmas::some_lists, crate::proofs::EnoughLemmas::refuted_at, crate::proofs::EnoughLemmas::not_refuted))]
fn verdict_of(taken: usize, lists: &[MomentCount]) -> ItemsVerdict
    ensures { IsVerdict taken lists.now result }
{
    if is_refuted(taken, lists) {
        ItemsVerdict::GivenUp(last_moment(lists))
    } else {
        ItemsVerdict::Suffices
    }
}

/// What the lists by the signature say that a proposal of so many items is.
#[tactic(auto, using(crate::proofs::ReadingLemmas::choice_wide, crate::proofs::ReadingLemmas::choice_once))]
fn judge(
    alloc: Global,
    net: &Netlist,
    choice: Choice,
    runs: &Runs,
    count: usize,
) -> Result<ItemsVerdict, NoMemory>
    requires inputs { runs.now.width ≡ length (circuit net.now).inputs }
    requires read { Some choice ≡ mixed_choice net.now.raw count }
    ensures { IfOk result (IsJudged net.now.raw runs.now count) }
{
    let _count = count;
    let lists = count_lists(alloc, ListPurpose::Ones, net, &choice, runs)?;
    let taken = count_taken(ListPurpose::Ones, net, runs);
    let verdict = verdict_of(taken, lists.as_slice());
    Ok(verdict)
}

/// What the lists by a proposal of so many items say.
#[tactic(auto, using(crate::proofs::EnoughLemmas::none_judged))]
fn judge_number(
    alloc: Global,
    net: &Netlist,
    runs: &Runs,
    count: usize,
) -> Result<ItemsVerdict, NoMemory>
    requires inputs { runs.now.width ≡ length (circuit net.now).inputs }
    requires some { 0 < count }
    ensures { IfOk result (IsJudged net.now.raw runs.now count) }
{
    match read_mixed(alloc, net, count)? {
        Some(choice) => judge(alloc, net, choice, runs, count),
        None => Ok(ItemsVerdict::Unread),
    }
}

/// The answer where so many items are the last.
fn answer_of(count: usize, verdict: ItemsVerdict) -> EnoughItems
    ensures { result ≡ answer_of count verdict }
{
    match verdict {
        ItemsVerdict::Suffices => EnoughItems::Number(count),
        ItemsVerdict::GivenUp(at) => EnoughItems::NoneAt(count, at),
        ItemsVerdict::Unread => EnoughItems::NoneRead,
    }
}

/// Whether a number of items is enough.
fn suffices(verdict: ItemsVerdict) -> bool
    ensures { result ≡ suffices verdict }
{
    match verdict {
        ItemsVerdict::Suffices => true,
        ItemsVerdict::GivenUp(_) => false,
        ItemsVerdict::Unread => false,
    }
}

/// The first of some numbers of items that is enough, or that none is.
#[tactic(auto, using(crate::proofs::EnoughLemmas::none_yet, crate::proofs::EnoughLemmas::one_more, crate::proofs::EnoughLemmas::first_found, crate::proofs::EnoughLemmas::none_found))]
fn first_enough(
    alloc: Global,
    net: &Netlist,
    runs: &Runs,
    numbers: &[usize],
) -> Result<EnoughItems, NoMemory>
    requires inputs { runs.now.width ≡ length (circuit net.now).inputs }
    requires some { All (λ n. 0 < n) numbers.now }
    ensures { IfOk result (TellsEnough net.now.raw runs.now numbers.now) }
{
    let mut answer = EnoughItems::NoneRead;
    'numbers: for i in 0..numbers.len() {
        let verdict = judge_number(alloc, net, runs, numbers[i])?;
        answer = answer_of(numbers[i], verdict);
        if suffices(verdict) {
            return Ok(answer);
        }
    }
    Ok(answer)
}

/// The least number of items that is enough, of those that are tried, or that none is.
#[tactic(auto, using(crate::proofs::TriedLemmas::some_tried, crate::proofs::EnoughLemmas::told_as))]
pub(crate) fn enough(alloc: Global, net: &Netlist, runs: &Runs) -> Result<EnoughItems, NoMemory>
    requires inputs { runs.now.width ≡ length (circuit net.now).inputs }
    ensures { IfOk result (TellsEnough net.now.raw runs.now (tried (length net.now.raw.flops))) }
{
    let numbers = tried(alloc, net.width())?;
    let found = first_enough(alloc, net, runs, numbers.as_slice())?;
    Ok(found)
}
