//! Cycles of which the same is told.
ghost use Rattle.std.specs.Prelude.{◌≡◌, ◌<◌, length, IfOk, OnOk, None, Some};
ghost use Rattle.bs_inspect_why_words.specs.Groups.{AreFronted, groups_of, IsWidest, joined, joined_at, longer, place_of, single, told_in};

use crate::limits::MAX_APART;
use crate::reason::Reason;
use crate::words::first_of;
use bs_bits::{List, NoMemory};
use std::alloc::Global;

/// Cycles in a row.
#[derive(Clone, Copy)]
pub struct CycleSpan {
    pub from: u32,
    pub to: u32,
}

/// What is told of several cycles: closed spans, from the last one on, and the one that still grows towards the first cycle.
#[derive(Drop)]
pub struct Group {
    pub words: List<u8>,
    pub closed: List<CycleSpan>,
    pub from: u32,
    pub to: u32,
}

/// A group of one cycle.
#[tactic(auto, using(crate::proofs::GroupLemmas::single_is))]
fn single(alloc: Global, reason: &Reason) -> Result<Group, NoMemory>
    ensures { IfOk result (λ g. g ≡ single reason.now) }
{
    let words = Vec::from_slice(alloc, reason.words.slice())?;
    Ok(Group {
        words: List::of(words),
        closed: List::new(alloc),
        from: reason.cycle,
        to: reason.cycle,
    })
}

/// Puts a cycle to a group.
#[tactic(auto, using(crate::proofs::GroupLemmas::longer_near, crate::proofs::GroupLemmas::longer_far))]
fn add_cycle(group: &mut Group, cycle: u32) -> Result<(), NoMemory>
    ensures { OnOk result (group.new ≡ longer group.old cycle) }
{
    if u64::from(cycle) + 1 == u64::from(group.from) {
        group.from = cycle;
        return Ok(());
    }
    let span = CycleSpan {
        from: group.from,
        to: group.to,
    };
    group.closed.push(span)?;
    group.from = cycle;
    group.to = cycle;
    Ok(())
}

/// The place of the first group with these words, among the first `MAX_APART`.
#[tactic(auto, using(crate::proofs::GroupLemmas::place_is))]
fn place_of(groups: &[Group], words: &[u8]) -> Option<usize>
    ensures { result ≡ place_of groups.now words.now }
{
    let few = first_of(groups, MAX_APART);
    few.iter().position(|group| group.words.slice() == words)
}

/// Puts a reason to the group at a place.
#[tactic(auto, using(crate::proofs::GroupLemmas::grown))]
fn grow(groups: &mut Vec<Group>, place: usize, reason: &Reason) -> Result<(), NoMemory>
    requires { place < length groups.old.items }
    ensures { OnOk result (groups.new.items ≡ joined_at (Some place) groups.old.items reason.now) }
{
    add_cycle(&mut groups[place], reason.cycle)?;
    Ok(())
}

/// Puts a reason at the end as a group of its own.
#[tactic(auto, using(crate::proofs::GroupLemmas::put_alone))]
fn push_alone(alloc: Global, groups: &mut Vec<Group>, reason: &Reason) -> Result<(), NoMemory>
    ensures { OnOk result (groups.new.items ≡ joined_at None groups.old.items reason.now) }
{
    let group = single(alloc, reason)?;
    groups.push(group)?;
    Ok(())
}

/// Puts a reason to the group with its words, or at the end as one of its own.
#[tactic(auto, using(crate::proofs::GroupLemmas::joined_by))]
fn join(alloc: Global, groups: &mut Vec<Group>, reason: &Reason) -> Result<(), NoMemory>
    ensures { OnOk result (groups.new.items ≡ joined groups.old.items reason.now) }
{
    match place_of(groups.as_slice(), reason.words.slice()) {
        Some(place) => grow(groups, place, reason),
        None => push_alone(alloc, groups, reason),
    }
}

/// The groups of reasons.
pub(crate) fn groups_of(alloc: Global, reasons: &[Reason]) -> Result<Vec<Group>, NoMemory>
    ensures { IfOk result (λ groups. groups.items ≡ groups_of reasons.now) }
{
    let mut groups = Vec::new(alloc);
    'reasons: for reason in reasons {
        join(alloc, &mut groups, reason)?;
    }
    Ok(groups)
}

/// In how many cycles the words of a group are told.
#[tactic(auto, using(crate::proofs::FrontLemmas::told_is))]
fn told_in(reasons: &[Reason], group: &Group) -> usize
    ensures { result ≡ told_in reasons.now group.now }
{
    let words = group.words.slice();
    reasons
        .iter()
        .filter(|reason| reason.words.slice() == words)
        .count()
}

/// The place of the group whose words are told in the most cycles.
#[tactic(auto, using(crate::proofs::FrontLemmas::widest_begin, crate::proofs::FrontLemmas::widest_all))]
fn widest(reasons: &[Reason], groups: &[Group]) -> usize
    ensures { IsWidest reasons.now groups.now result }
{
    let mut best = 0;
    let mut most = 0;
    'groups: for i in 0..groups.len() {
        let told = told_in(reasons, &groups[i]);
        if most < told {
            best = i;
            most = told;
        }
    }
    best
}

/// Groups with the one first whose words are told in the most cycles.
pub(crate) fn fronted(reasons: &[Reason], groups: Vec<Group>) -> Result<Vec<Group>, NoMemory>
    ensures { IfOk result (λ fronts. AreFronted reasons.now groups.items fronts.items) }
{
    let mut groups = groups;
    let place = widest(reasons, first_of(groups.as_slice(), MAX_APART));
    if place >= groups.len() {
        return Ok(groups);
    }
    let group = groups.remove(place);
    groups.insert(0, group)?;
    Ok(groups)
}
