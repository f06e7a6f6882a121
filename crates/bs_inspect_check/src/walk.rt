//! From moment to moment: the cycles that end, and what is known behind each.
ghost use Rattle.std.specs.Prelude.{◌≡◌, ◌⊎◌, ◌<◌, ◌≤◌, ◌+◌, ◌^◌, [], Some, None, Err, length, map, IfOk, MatchResult, OnOk};
ghost use Rattle.std.specs.Option.{option_or};
ghost use Rattle.bs_bits.specs.Reading.{Answers};
ghost use Rattle.bs_vcd_header.specs.declared.fault.VcdFault.TheVariants.{NoMemory as Want};
ghost use Rattle.bs_vcd_header.specs.Tokens.{tokens_from};
ghost use Rattle.bs_vcd.specs.History.{change_in, history_of, time_if};
ghost use Rattle.bs_vcd.specs.Levels.{known_in};
ghost use Rattle.bs_vcd.specs.Watching.{known_after};
ghost use Rattle.bs_inspect_check.specs.Taking.{history_at, last_line, left, moment_in};
ghost use Rattle.bs_inspect_check.specs.Tallies.{closed, IsBegin, IsSmall, moved, tally_in, walked, watch_in};

use crate::moments::{MomentStart, take_moment};
use crate::replay::Replay;
use crate::tally::{RunTally, end_cycle, no_tally};
use bs_bits::NoMemory;
use bs_vcd::{ValueChange, apply, rises};
use bs_vcd_header::{BitSource, VcdFault};
use std::alloc::Global;
use std::collections::HashMap;

/// Where the clock and the flip-flops are.
#[derive(Clone, Copy)]
pub struct Sources<'a> {
    pub clock: BitSource,
    pub flops: &'a [Option<BitSource>],
}

/// The time of the first change so far, what is known, and what is counted.
#[derive(Drop)]
pub struct RunWatch<'a> {
    pub first: Option<u64>,
    pub known: HashMap<u64, &'a [u8]>,
    pub tally: RunTally,
}

/// Nothing is known and counted before the first moment.
pub fn no_watch<'a>(alloc: Global) -> RunWatch<'a>
    ensures { IsBegin result }
{
    RunWatch {
        first: None,
        known: HashMap::new(alloc),
        tally: no_tally(alloc),
    }
}

/// A time, where it has changes.
fn time_if(time: u64, changes: &[ValueChange<'_>]) -> Option<u64>
    ensures { result ≡ time_if (map change_in changes.now) time }
{
    match changes {
        [] => None,
        [_, ..] => Some(time),
    }
}

/// The first of two times.
fn first_or(first: Option<u64>, next: Option<u64>) -> Option<u64>
    ensures { result ≡ option_or first next }
{
    match first {
        Some(first) => Some(first),
        None => next,
    }
}

/// The cycle that a moment ends, if the clock rises in it.
fn close(
    alloc: Global,
    sources: Sources<'_>,
    changes: &[ValueChange<'_>],
    known: &HashMap<u64, &[u8]>,
    replay: &mut Replay<'_>,
    tally: &mut RunTally,
) -> Result<(), NoMemory>
    requires flops { length sources.flops.now < 2 ^ 32 }
    requires ended { tally.old.ended < 2 ^ 63 }
    requires small { IsSmall tally.old }
    ensures is { OnOk result (tally_in tally.new replay.new.state ≡ closed sources.entry.clock sources.entry.flops.now replay.old.circuit replay.old.run (known_in known.now) (known_after (known_in known.now) (map change_in changes.now)) (tally_in tally.old replay.old.state)) }
    ensures small { OnOk result (IsSmall tally.new) }
    ensures one { OnOk result (tally.new.ended ≤ tally.old.ended + 1) }
    ensures circuit { replay.new.circuit ≡ replay.old.circuit }
    ensures run { replay.new.run ≡ replay.old.run }
{
    if !rises(known, changes, sources.clock) {
        return Ok(());
    }
    end_cycle(alloc, known, sources.flops, replay, tally)?;
    Ok(())
}

/// Ends a moment.
#[tactic(auto, using(crate::proofs::WalkLemmas::moved_on))]
fn end_moment<'a>(
    alloc: Global,
    sources: Sources<'_>,
    time: u64,
    changes: &[ValueChange<'a>],
    replay: &mut Replay<'_>,
    watch: &mut RunWatch<'a>,
) -> Result<(), NoMemory>
    requires flops { length sources.flops.now < 2 ^ 32 }
    requires ended { watch.old.tally.ended < 2 ^ 63 }
    requires small { IsSmall watch.old.tally }
    ensures is { OnOk result (watch_in watch.new replay.new.state ≡ moved sources.entry.clock sources.entry.flops.now replay.old.circuit replay.old.run (watch_in watch.old replay.old.state) (moment_in time changes.now)) }
    ensures small { OnOk result (IsSmall watch.new.tally) }
    ensures one { OnOk result (watch.new.tally.ended ≤ watch.old.tally.ended + 1) }
    ensures circuit { replay.new.circuit ≡ replay.old.circuit }
    ensures run { replay.new.run ≡ replay.old.run }
{
    close(
        alloc,
        sources,
        changes,
        &watch.known,
        replay,
        &mut watch.tally,
    )?;
    apply(&mut watch.known, changes)?;
    watch.first = first_or(watch.first, time_if(time, changes));
    Ok(())
}

/// Takes the moment that begins at a place of the text, and answers where the next one begins.
#[tactic(auto, using(crate::proofs::WalkLemmas::moment_walked, crate::proofs::WalkLemmas::moment_faulty))]
fn walk_moment<'a>(
    alloc: Global,
    sources: Sources<'_>,
    spot: MomentStart<'a>,
    changes: &mut Vec<ValueChange<'a>>,
    replay: &mut Replay<'_>,
    watch: &mut RunWatch<'a>,
) -> Result<Option<MomentStart<'a>>, VcdFault>
    requires lines { spot.line + length spot.rest.now < 2 ^ 64 }
    requires flops { length sources.flops.now < 2 ^ 32 }
    requires ended { watch.old.tally.ended < 2 ^ 63 }
    requires small { IsSmall watch.old.tally }
    ensures is { MatchResult result
        (λ next. walked sources.entry.clock sources.entry.flops.now replay.old.circuit replay.old.run (watch_in watch.old replay.old.state) (history_at (Some spot.entry))
        ≡ walked sources.entry.clock sources.entry.flops.now replay.old.circuit replay.old.run (watch_in watch.new replay.new.state) (history_at next))
        (λ fault. (fault ≡ Want) ⊎ (walked sources.entry.clock sources.entry.flops.now replay.old.circuit replay.old.run (watch_in watch.old replay.old.state) (history_at (Some spot.entry)) ≡ Err fault)) }
    ensures less { IfOk result (λ next. left next < left (Some spot.entry)) }
    ensures lines { IfOk result (λ next. last_line next < 2 ^ 64) }
    ensures small { OnOk result (IsSmall watch.new.tally) }
    ensures one { OnOk result (watch.new.tally.ended ≤ watch.old.tally.ended + 1) }
    ensures circuit { replay.new.circuit ≡ replay.old.circuit }
    ensures run { replay.new.run ≡ replay.old.run }
{
    changes.clear();
    let next = take_moment(spot, changes)?;
    end_moment(alloc, sources, spot.time, changes.as_slice(), replay, watch)?;
    Ok(next)
}

/// Takes all moments of value changes whose first line has this number.
#[tactic(auto, using(crate::proofs::WalkLemmas::walk_more, crate::proofs::WalkLemmas::walk_ends, crate::proofs::WalkLemmas::walk_faulty, crate::proofs::WalkLemmas::counted_more, crate::proofs::WalkLemmas::ended_fits, crate::proofs::WalkLemmas::line_fits, crate::proofs::WalkLemmas::left_less))]
pub fn walk<'a>(
    alloc: Global,
    sources: Sources<'_>,
    line: u64,
    text: &'a [u8],
    replay: &mut Replay<'_>,
    watch: &mut RunWatch<'a>,
) -> Result<(), VcdFault>
    requires lines { line + length text.now < 2 ^ 64 }
    requires short { length text.now < 2 ^ 62 }
    requires flops { length sources.flops.now < 2 ^ 32 }
    requires none { watch.old.tally.ended ≡ 0 }
    requires small { IsSmall watch.old.tally }
    ensures is { Answers Want (λ _. watch_in watch.new replay.new.state) result (walked sources.entry.clock sources.entry.flops.now replay.old.circuit replay.old.run (watch_in watch.old replay.old.state) (history_of (tokens_from line text.now))) }
    ensures small { OnOk result (IsSmall watch.new.tally) }
    ensures few { OnOk result (watch.new.tally.ended ≤ length text.now + 1) }
    ensures circuit { replay.new.circuit ≡ replay.old.circuit }
    ensures run { replay.new.run ≡ replay.old.run }
{
    let mut changes = Vec::new(alloc);
    let mut at = Some(MomentStart {
        time: 0,
        line,
        rest: text,
    });
    'moments: while let Some(spot) = at {
        at = walk_moment(alloc, sources, spot, &mut changes, replay, watch)?;
    }
    Ok(())
}
