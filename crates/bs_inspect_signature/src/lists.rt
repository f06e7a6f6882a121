//! The lists of predecessors at some moments, by one signature.
ghost use Rattle.std.specs.Prelude.{◌≡◌, ◌<◌, ◌≤◌, ◌+◌, length, IfOk};
ghost use Rattle.bs_net.specs.Netlist.{circuit};
ghost use Rattle.bs_encode.specs.declared.encoding.TheConstants.{MAX_ACTIVATIONS};
ghost use Rattle.bs_stim.specs.Runs.{inputs_of};
ghost use Rattle.bs_scan.specs.Choice.{depth_of};
ghost use Rattle.bs_scan.specs.Crash.{recording_of};
ghost use Rattle.bs_scan.specs.Moments.{IsMoment};
ghost use Rattle.bs_preimage.specs.Preimage.{fresh};
ghost use Rattle.bs_inspect_signature.specs.declared.counting.ListPurpose.TheVariants.{Ones};
ghost use Rattle.bs_inspect_signature.specs.MomentCount.{AreMomentCounts, IsMomentCount, most_moments, most_others, room_of, taken_of};
ghost use Rattle.bs_inspect_signature.specs.Spread.{later_moments, moment_taken};
ghost use Rattle.bs_inspect_signature.specs.declared.lists.TheConstants.{MAX_LISTED_BITS};
ghost use Rattle.bs_inspect_signature.specs.declared.spread.TheConstants.{MAX_TRY_MOMENTS};

use crate::counting::{ListPurpose, PredecessorCount, count_dump, weight_of};
use crate::spread::{MAX_MOMENTS, MAX_TRY_MOMENTS, count_later, moment_taken};
use bs_bits::{List, NoMemory};
use bs_chip::Chip;
use bs_net::Netlist;
use bs_preimage::Preimage;
use bs_report::Cand;
use bs_scan::{Choice, Moment};
use bs_stim::Runs;
use std::alloc::Global;

/// How many bits the members of all lists by one signature may have, a bit a flip-flop: then no further list is begun.
/// A list of a wide netlist takes longer, so there are fewer of them.
pub const MAX_LISTED_BITS: usize = 1_048_576;

/// Above so many flip-flops numbers of items are tried at fewer moments, since a list takes longer.
pub const MAX_TRY_WIDTH: usize = 2_048;

/// With a number of items that is enough, one of so many lists may be of another number of predecessors than one.
pub const OTHERS_PART: usize = 64;

/// How many bytes the cycles that are kept of the runs may take. An eighth of what a backtrace keeps: few moments are looked at.
const TRACK_BYTES: usize = 67_108_864;

/// A moment, and how many predecessors its state has that agree with what the register holds there.
#[derive(Clone, Copy, Debug, PartialEq, Eq)]
pub struct MomentCount {
    pub moment: Moment,
    pub count: PredecessorCount,
}

/// A moment with its count.
#[tactic(auto, using(crate::proofs::MomentCountLemmas::moment_counted_as, crate::proofs::MomentCountLemmas::state_wide, crate::proofs::MomentCountLemmas::stored_wide, crate::proofs::MomentCountLemmas::held_there, crate::proofs::MomentCountLemmas::moment_there))]
fn count_at(
    alloc: Global,
    aim: ListPurpose,
    chip: &mut Chip<'_>,
    preimage: &mut Preimage<'_>,
    net: &Netlist,
    choice: &Choice,
    runs: &Runs,
    moment: Moment,
) -> Result<MomentCount, NoMemory>
    requires recording { chip.old.recording ≡ recording_of net.now.raw choice.now runs.now }
    requires circuit { preimage.old.circuit ≡ circuit net.now }
    requires choice { preimage.old.choice ≡ choice.now }
    requires calls { preimage.old.calls < MAX_ACTIVATIONS }
    requires depth { depth_of choice.now ≡ 1 }
    requires moment { IsMoment (inputs_of runs.now) moment }
    requires later { 1 ≤ moment.cycle }
    ensures counts { IfOk result (IsMomentCount aim (circuit net.now) choice.now (inputs_of runs.now)) }
    ensures moment { IfOk result (λ entry. entry.moment ≡ moment) }
    ensures chip { chip.new ≡ chip.old }
    ensures circuit { preimage.new.circuit ≡ preimage.old.circuit }
    ensures choice { preimage.new.choice ≡ preimage.old.choice }
    ensures calls { preimage.new.calls ≤ preimage.old.calls + 1 }
{
    let _net = net;
    let _choice = choice;
    let _runs = runs;
    let dump = chip.dump_at(alloc, moment.run, moment.cycle)?;
    let count = count_dump(alloc, preimage, aim, dump)?;
    Ok(MomentCount { moment, count })
}

/// At how many moments numbers of items are tried.
fn try_moments(width: usize) -> usize
    ensures most { result ≡ most_moments Ones width }
    ensures few { result ≤ MAX_TRY_MOMENTS }
{
    if width <= MAX_TRY_WIDTH {
        MAX_TRY_MOMENTS
    } else {
        MAX_MOMENTS
    }
}

/// How many moments may be taken, by the number of flip-flops.
fn most_moments(aim: ListPurpose, width: usize) -> usize
    ensures most { result ≡ most_moments aim width }
    ensures few { result ≤ MAX_TRY_MOMENTS }
{
    match aim {
        ListPurpose::Numbers => MAX_MOMENTS,
        ListPurpose::Ones => try_moments(width),
    }
}

/// How many moments are taken.
#[tactic(auto, using(crate::proofs::MomentCountLemmas::taken_is))]
pub(crate) fn count_taken(aim: ListPurpose, net: &Netlist, runs: &Runs) -> usize
    ensures taken { result ≡ taken_of aim (length (circuit net.now).flops) (inputs_of runs.now) }
    ensures few { result ≤ MAX_TRY_MOMENTS }
{
    let all = count_later(runs);
    let most = most_moments(aim, net.width());
    all.min(most)
}

/// The moment with this number that is taken.
#[tactic(auto, using(crate::proofs::MomentCountLemmas::moment_is, crate::proofs::MomentCountLemmas::number_is))]
fn moment_of(aim: ListPurpose, net: &Netlist, runs: &Runs, k: usize) -> Moment
    requires { k < taken_of aim (length (circuit net.now).flops) (inputs_of runs.now) }
    ensures is { result ≡ moment_taken (most_moments aim (length (circuit net.now).flops)) (later_moments (inputs_of runs.now)) k }
    ensures moment { IsMoment (inputs_of runs.now) result }
    ensures later { 1 ≤ result.cycle }
{
    let all = count_later(runs);
    let most = most_moments(aim, net.width());
    moment_taken(runs, most, all, all.min(most), k)
}

/// How many lists at so many moments may not be of one predecessor.
pub(crate) fn most_others(taken: usize) -> usize
    ensures most { result ≡ most_others taken }
    ensures few { result ≤ taken }
{
    taken / OTHERS_PART
}

/// How much room there is for all lists: for members, by the number of flip-flops, or for those that are not of one predecessor.
fn room_of(aim: ListPurpose, width: usize, taken: usize) -> u64
    requires { taken ≤ MAX_TRY_MOMENTS }
    ensures room { result ≡ room_of aim width taken }
    ensures small { result ≤ MAX_LISTED_BITS }
{
    match aim {
        ListPurpose::Numbers => (MAX_LISTED_BITS / width.max(1)) as u64,
        ListPurpose::Ones => most_others(taken) as u64 + 1,
    }
}

/// The room by the number of flip-flops and of moments.
#[tactic(auto, using(crate::proofs::MomentCountLemmas::room_is))]
fn room_for(aim: ListPurpose, net: &Netlist, runs: &Runs) -> u64
    ensures room { result ≡ room_of aim (length (circuit net.now).flops) (taken_of aim (length (circuit net.now).flops) (inputs_of runs.now)) }
    ensures small { result ≤ MAX_LISTED_BITS }
{
    let width = net.width();
    let taken = count_taken(aim, net, runs);
    room_of(aim, width, taken)
}

/// The moments that are taken, each with its count, while there is room.
#[tactic(auto, using(crate::proofs::MomentCountLemmas::none_counted, crate::proofs::MomentCountLemmas::all_are_counted, crate::proofs::MomentCountLemmas::enough_counted))]
fn tell_each(
    alloc: Global,
    aim: ListPurpose,
    chip: &mut Chip<'_>,
    preimage: &mut Preimage<'_>,
    net: &Netlist,
    choice: &Choice,
    runs: &Runs,
) -> Result<Vec<MomentCount>, NoMemory>
    requires recording { chip.old.recording ≡ recording_of net.now.raw choice.now runs.now }
    requires preimage { preimage.old ≡ fresh (circuit net.now) choice.now }
    requires depth { depth_of choice.now ≡ 1 }
    ensures { IfOk result (λ counts. AreMomentCounts aim (circuit net.now) choice.now (inputs_of runs.now) counts.items) }
{
    let count = count_taken(aim, net, runs);
    let room = room_for(aim, net, runs);
    let mut spent = 0u64;
    let mut counts = Vec::new(alloc);
    'moments: for k in 0..count {
        if spent >= room {
            return Ok(counts);
        }
        let moment = moment_of(aim, net, runs, k);
        let one = count_at(alloc, aim, chip, preimage, net, choice, runs, moment)?;
        spent += weight_of(aim, one.count);
        counts.push(one)?;
    }
    Ok(counts)
}

/// Drops a search.
fn drop_search(_preimage: Preimage<'_>) {}

/// The same by a search that is at its beginning.
fn tell_by(
    alloc: Global,
    aim: ListPurpose,
    chip: &mut Chip<'_>,
    mut preimage: Preimage<'_>,
    net: &Netlist,
    choice: &Choice,
    runs: &Runs,
) -> Result<Vec<MomentCount>, NoMemory>
    requires recording { chip.old.recording ≡ recording_of net.now.raw choice.now runs.now }
    requires preimage { preimage ≡ fresh (circuit net.now) choice.now }
    requires depth { depth_of choice.now ≡ 1 }
    ensures { IfOk result (λ counts. AreMomentCounts aim (circuit net.now) choice.now (inputs_of runs.now) counts.items) }
{
    let counts = tell_each(alloc, aim, chip, &mut preimage, net, choice, runs);
    drop_search(preimage);
    counts
}

/// Steps all runs, so that a chip keeps their states.
fn play(alloc: Global, chip: &mut Chip<'_>) -> Result<(), NoMemory>
    ensures { chip.new.recording ≡ chip.old.recording }
{
    let none: List<Cand> = List::new(alloc);
    let _hit = chip.first(alloc, none.slice())?;
    Ok(())
}

/// The moments that are taken, each with its count, where the runs are stepped first.
fn tell_played(
    alloc: Global,
    aim: ListPurpose,
    chip: &mut Chip<'_>,
    net: &Netlist,
    choice: &Choice,
    runs: &Runs,
) -> Result<Vec<MomentCount>, NoMemory>
    requires recording { chip.old.recording ≡ recording_of net.now.raw choice.now runs.now }
    requires width { choice.now.width ≡ length (circuit net.now).flops }
    requires depth { depth_of choice.now ≡ 1 }
    ensures { IfOk result (λ counts. AreMomentCounts aim (circuit net.now) choice.now (inputs_of runs.now) counts.items) }
{
    play(alloc, chip)?;
    let counts = tell_by(
        alloc,
        aim,
        chip,
        Preimage::new(alloc, net, choice)?,
        net,
        choice,
        runs,
    )?;
    Ok(counts)
}

/// Drops a chip.
fn drop_chip(_chip: Chip<'_>) {}

/// The same by a chip whose runs are not stepped yet.
fn tell_on(
    alloc: Global,
    aim: ListPurpose,
    mut chip: Chip<'_>,
    net: &Netlist,
    choice: &Choice,
    runs: &Runs,
) -> Result<Vec<MomentCount>, NoMemory>
    requires recording { chip.recording ≡ recording_of net.now.raw choice.now runs.now }
    requires width { choice.now.width ≡ length (circuit net.now).flops }
    requires depth { depth_of choice.now ≡ 1 }
    ensures { IfOk result (λ counts. AreMomentCounts aim (circuit net.now) choice.now (inputs_of runs.now) counts.items) }
{
    let counts = tell_played(alloc, aim, &mut chip, net, choice, runs);
    drop_chip(chip);
    counts
}

/// At `MAX_MOMENTS` moments of the runs behind their fronts, or at all where these are fewer: how many predecessors the state has that
/// agree with the stored signature. No further one is counted where the lists before have `MAX_LISTED_BITS`. For ones these are
/// `MAX_TRY_MOMENTS` moments, and no further one is counted where a list before was cut, or more than one of `OTHERS_PART` are not of one
/// predecessor. The lists share one search, whose log grows by a block for each member.
pub fn count_lists(
    alloc: Global,
    aim: ListPurpose,
    net: &Netlist,
    choice: &Choice,
    runs: &Runs,
) -> Result<Vec<MomentCount>, NoMemory>
    requires states { choice.now.width ≡ length (circuit net.now).flops }
    requires inputs { runs.now.width ≡ length (circuit net.now).inputs }
    requires depth { depth_of choice.now ≡ 1 }
    ensures { IfOk result (λ counts. AreMomentCounts aim (circuit net.now) choice.now (inputs_of runs.now) counts.items) }
{
    let chip = Chip::with_bound(alloc, net, choice, runs, TRACK_BYTES)?;
    let counts = tell_on(alloc, aim, chip, net, choice, runs)?;
    Ok(counts)
}
