//! How many members a list of predecessors has.
ghost use Rattle.std.specs.Prelude.{◌≡◌, ◌≢◌, ◌<◌, ◌≤◌, ◌+◌, ◌^◌, [], ◌∷◌, None, length, IfOk, IfSome};
ghost use Rattle.std.specs.Option.{option_to_list};
ghost use Rattle.bs_encode.specs.declared.encoding.TheConstants.{MAX_ACTIVATIONS};
ghost use Rattle.bs_inspect_signature.specs.declared.counting.TheConstants.{MAX_LISTED};
ghost use Rattle.bs_inspect_signature.specs.declared.counting.ListPurpose.TheVariants.{Ones};
ghost use Rattle.bs_inspect_signature.specs.MomentCount.{IsCountOf, counted_as, is_cut, is_one, most_lemmas, most_listed, number_of, weight_of, whole_weight};

use bs_bits::{Bits, NoMemory};
use bs_preimage::{Listing, Preimage};
use bs_report::ListEnd;
use bs_scan::{Dump, Seen};
use std::alloc::Global;

/// A list that has more members is cut. `run` without an option cuts a list there too.
pub const MAX_LISTED: usize = 256;

/// A solve may log so many lemmas. So one hard list does not hold up the others.
pub const MAX_LEMMAS: u64 = 10_000;

/// The same where numbers of items are tried: a signature whose lists are longer is not called enough.
pub const MAX_TRY_LISTED: usize = 16;

/// Nor is one whose lists are harder.
pub const MAX_TRY_LEMMAS: u64 = 1_000;

/// What lists are made for.
#[derive(Clone, Copy, Debug, PartialEq, Eq)]
pub enum ListPurpose {
    /// Their numbers of predecessors.
    Numbers,
    /// Whether nearly each has one alone, and none is long.
    Ones,
}

/// How many members a list may have.
fn most_listed(aim: ListPurpose) -> u64
    ensures most { result ≡ most_listed aim }
    ensures few { result ≤ MAX_LISTED }
{
    match aim {
        ListPurpose::Numbers => MAX_LISTED as u64,
        ListPurpose::Ones => MAX_TRY_LISTED as u64,
    }
}

/// How many lemmas a solve may log.
fn most_lemmas(aim: ListPurpose) -> u64
    ensures most { result ≡ most_lemmas aim }
    ensures some { 1 ≤ result }
{
    match aim {
        ListPurpose::Numbers => MAX_LEMMAS,
        ListPurpose::Ones => MAX_TRY_LEMMAS,
    }
}

/// How many predecessors there are.
#[derive(Clone, Copy, Debug, PartialEq, Eq)]
pub enum PredecessorCount {
    /// So many, which is all.
    Whole(u32),
    /// More than a list may have.
    More,
    /// So many were found before the search was given up.
    Spent(u32),
}

/// How many a list has.
fn count_of(listing: &Listing) -> PredecessorCount
    requires { length listing.now.cands ≤ MAX_LISTED + 1 }
    ensures { result ≡ counted_as listing.now.cands listing.now.end }
{
    match listing.end {
        ListEnd::Finished(_) => PredecessorCount::Whole(listing.cands.len() as u32),
        ListEnd::Candidates => PredecessorCount::More,
        ListEnd::Conflicts => PredecessorCount::Spent(listing.cands.len() as u32),
    }
}

/// How many predecessors of a state agree with a signature.
#[tactic(auto, using(crate::proofs::MomentCountLemmas::is_count_by, crate::proofs::MomentCountLemmas::few_listed))]
fn count_in(
    alloc: Global,
    preimage: &mut Preimage<'_>,
    aim: ListPurpose,
    present: &Seen,
    stored: &Bits,
) -> Result<PredecessorCount, NoMemory>
    requires state { length present.now.bits ≡ length preimage.old.circuit.flops }
    requires signature { length stored.now ≡ length preimage.old.choice.items }
    requires calls { preimage.old.calls < MAX_ACTIVATIONS }
    ensures count { IfOk result (IsCountOf aim preimage.old.circuit preimage.old.choice present.now (stored.now ∷ [])) }
    ensures circuit { preimage.new.circuit ≡ preimage.old.circuit }
    ensures choice { preimage.new.choice ≡ preimage.old.choice }
    ensures calls { preimage.new.calls ≡ preimage.old.calls + 1 }
{
    let listing = preimage.list(
        alloc,
        present,
        stored,
        None,
        &None,
        most_listed(aim) + 1,
        most_lemmas(aim),
    )?;
    Ok(count_of(&listing))
}

/// How many predecessors of a dump's state agree with what it holds, at a moment behind reset.
fn count_of_dump(
    alloc: Global,
    preimage: &mut Preimage<'_>,
    aim: ListPurpose,
    dump: &Dump,
) -> Result<PredecessorCount, NoMemory>
    requires held { dump.now.stored ≢ None }
    requires state { length dump.now.state.bits ≡ length preimage.old.circuit.flops }
    requires signature { IfSome dump.now.stored (λ stored. length stored ≡ length preimage.old.choice.items) }
    requires calls { preimage.old.calls < MAX_ACTIVATIONS }
    ensures count { IfOk result (IsCountOf aim preimage.old.circuit preimage.old.choice dump.now.state (option_to_list dump.now.stored)) }
    ensures circuit { preimage.new.circuit ≡ preimage.old.circuit }
    ensures choice { preimage.new.choice ≡ preimage.old.choice }
    ensures calls { preimage.new.calls ≤ preimage.old.calls + 1 }
{
    match &dump.stored {
        Some(stored) => count_in(alloc, preimage, aim, &dump.state, stored),
        None => unreachable!(),
    }
}

/// The same of a dump that is let go.
pub(crate) fn count_dump(
    alloc: Global,
    preimage: &mut Preimage<'_>,
    aim: ListPurpose,
    dump: Dump,
) -> Result<PredecessorCount, NoMemory>
    requires held { dump.stored ≢ None }
    requires state { length dump.state.bits ≡ length preimage.old.circuit.flops }
    requires signature { IfSome dump.stored (λ stored. length stored ≡ length preimage.old.choice.items) }
    requires calls { preimage.old.calls < MAX_ACTIVATIONS }
    ensures count { IfOk result (IsCountOf aim preimage.old.circuit preimage.old.choice dump.state (option_to_list dump.stored)) }
    ensures circuit { preimage.new.circuit ≡ preimage.old.circuit }
    ensures choice { preimage.new.choice ≡ preimage.old.choice }
    ensures calls { preimage.new.calls ≤ preimage.old.calls + 1 }
{
    count_of_dump(alloc, preimage, aim, &dump)
}

/// How many are counted: of a list that was cut those that it has.
pub(crate) fn number_of(count: PredecessorCount) -> u32
    ensures { result ≡ number_of count }
{
    match count {
        PredecessorCount::Whole(number) => number,
        PredecessorCount::More => MAX_LISTED as u32,
        PredecessorCount::Spent(number) => number,
    }
}

/// Whether a list was cut.
pub(crate) fn is_cut(count: PredecessorCount) -> bool
    ensures { result ≡ is_cut count }
{
    match count {
        PredecessorCount::Whole(_) => false,
        PredecessorCount::More => true,
        PredecessorCount::Spent(_) => true,
    }
}

/// Whether there is one predecessor, and no other.
pub(crate) fn is_one(count: PredecessorCount) -> bool
    ensures { result ≡ is_one count }
{
    match count {
        PredecessorCount::Whole(number) => number == 1,
        PredecessorCount::More => false,
        PredecessorCount::Spent(_) => false,
    }
}

/// One where a list is not of one predecessor.
fn other_of(count: PredecessorCount) -> u64
    ensures weight { result ≡ whole_weight Ones count }
    ensures small { result < 2 ^ 32 }
{
    if is_one(count) { 0 } else { 1 }
}

/// How much of the room a list takes that was not cut: as many as it has members, or one where it is not of one predecessor.
fn whole_weight(aim: ListPurpose, count: PredecessorCount) -> u64
    ensures weight { result ≡ whole_weight aim count }
    ensures small { result < 2 ^ 32 }
{
    match aim {
        ListPurpose::Numbers => u64::from(number_of(count)),
        ListPurpose::Ones => other_of(count),
    }
}

/// How much of the room a list takes: one that was cut as much as a longest one.
pub(crate) fn weight_of(aim: ListPurpose, count: PredecessorCount) -> u64
    ensures weight { result ≡ weight_of aim count }
    ensures small { result < 2 ^ 32 }
{
    if is_cut(count) {
        MAX_LISTED as u64
    } else {
        whole_weight(aim, count)
    }
}
