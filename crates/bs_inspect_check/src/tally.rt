//! The end of a cycle: what differs, and what is counted.
ghost use Rattle.std.specs.Prelude.{◌≡◌, ◌<◌, ◌≤◌, ◌+◌, ◌^◌, ◌||◌, [], length, IfOk, OnOk};
ghost use Rattle.bs_stim.specs.declared.limits.TheConstants.{MAX_CYCLES};
ghost use Rattle.bs_vcd.specs.Levels.{known_in};
ghost use Rattle.bs_inspect_check.specs.Flops.{count_unknown, differs};
ghost use Rattle.bs_inspect_check.specs.Samples.{levels_by};
ghost use Rattle.bs_inspect_check.specs.Tallies.{different, is_open, IsSmall, looked, one_if, stepped, tally_in};

use crate::level::{FlopLevel, flop_level, is_other, is_unknown};
use crate::replay::Replay;
use bs_bits::{Bits, List, NoMemory};
use bs_inspect_report::bit_at;
use bs_vcd_header::BitSource;
use std::alloc::Global;
use std::collections::HashMap;

/// The end of a cycle: its number, from 0, the state of the run there, and what the VCD has of each flip-flop; or the same of the data
/// inputs.
#[derive(Drop)]
pub struct CycleEnd {
    pub cycle: u64,
    pub state: Bits,
    pub levels: List<FlopLevel>,
}

/// How many cycles have ended, how many agree before the first one that differs, how many bits are unknown in these, and that one, if
/// there is one.
#[derive(Drop)]
pub struct RunTally {
    pub ended: u64,
    pub agreed: u64,
    pub unknown: u64,
    pub differing: List<CycleEnd>,
}

/// Whether the bit of some flip-flop differs, and how many are unknown.
#[derive(Clone, Copy)]
pub struct SeenCount {
    pub differs: bool,
    pub unknown: usize,
}

// ---- what is seen

/// Whether one of both is so.
fn either(one: bool, other: bool) -> bool
    ensures { result ≡ (one || other) }
{
    one || other
}

/// 1 where it is so, and else 0.
pub(crate) fn one_if(is: bool) -> usize
    ensures is { result ≡ one_if is }
    ensures small { result ≤ 1 }
{
    if is { 1 } else { 0 }
}

/// Looks at the end of a cycle.
#[tactic(auto, using(crate::proofs::LevelLemmas::look_more, crate::proofs::LevelLemmas::unknown_more, crate::proofs::LevelLemmas::look_all, crate::proofs::LevelLemmas::unknown_all))]
fn look(known: &HashMap<u64, &[u8]>, sources: &[Option<BitSource>], state: &Bits) -> SeenCount
    requires { length sources.now < 2 ^ 32 }
    ensures differs { result.differs ≡ differs state.now (levels_by sources.now (known_in known.now)) }
    ensures unknown { result.unknown ≡ count_unknown (levels_by sources.now (known_in known.now)) }
    ensures few { result.unknown < 2 ^ 32 }
{
    let mut differs = false;
    let mut unknown = 0usize;
    'flops: for i in 0..sources.len() {
        let level = flop_level(known, sources[i]);
        differs = either(differs, is_other(bit_at(state, i), level));
        unknown += one_if(is_unknown(level));
    }
    SeenCount { differs, unknown }
}

/// What is known of each flip-flop.
#[tactic(auto, using(crate::proofs::LevelLemmas::levels_more))]
fn levels_of(
    alloc: Global,
    known: &HashMap<u64, &[u8]>,
    sources: &[Option<BitSource>],
) -> Result<List<FlopLevel>, NoMemory>
    ensures { IfOk result (λ levels. levels ≡ levels_by sources.now (known_in known.now)) }
{
    let mut levels = List::new(alloc);
    'sources: for source in sources {
        levels.push(flop_level(known, *source))?;
    }
    Ok(levels)
}

// ---- what is counted

/// Nothing is counted before the first cycle ends.
pub fn no_tally(alloc: Global) -> RunTally
    ensures { result ≡ record { ended = 0; agreed = 0; unknown = 0; differing = [] } }
{
    RunTally {
        ended: 0,
        agreed: 0,
        unknown: 0,
        differing: List::new(alloc),
    }
}

/// Whether the cycle that ends is one of so many behind the first, and none before it differs.
fn is_open(cycles: u32, tally: &RunTally) -> bool
    ensures { result ≡ is_open cycles tally.now.ended tally.now.differing }
{
    let none = tally.differing.len() == 0;
    none && tally.ended <= u64::from(cycles)
}

/// A cycle ends that is not looked at.
fn pass(tally: &mut RunTally)
    requires { tally.old.ended < 2 ^ 63 }
    ensures ended { tally.new.ended ≡ tally.old.ended + 1 }
    ensures agreed { tally.new.agreed ≡ tally.old.agreed }
    ensures unknown { tally.new.unknown ≡ tally.old.unknown }
    ensures differing { tally.new.differing ≡ tally.old.differing }
{
    tally.ended += 1;
}

/// A cycle ends that agrees, with so many unknown bits.
fn count(tally: &mut RunTally, unknown: u64)
    requires ended { tally.old.ended < 2 ^ 63 }
    requires agreed { tally.old.agreed < 2 ^ 63 }
    requires unknown { tally.old.unknown + unknown < 2 ^ 64 }
    ensures ended { tally.new.ended ≡ tally.old.ended + 1 }
    ensures agreed { tally.new.agreed ≡ tally.old.agreed + 1 }
    ensures unknown { tally.new.unknown ≡ tally.old.unknown + unknown }
    ensures differing { tally.new.differing ≡ tally.old.differing }
{
    tally.ended += 1;
    tally.agreed += 1;
    tally.unknown += unknown;
}

/// The end of a cycle with its state and what the VCD has of it.
fn end_of(
    alloc: Global,
    known: &HashMap<u64, &[u8]>,
    sources: &[Option<BitSource>],
    cycle: u64,
    state: &Bits,
) -> Result<CycleEnd, NoMemory>
    ensures { IfOk result (λ e. e ≡ record { cycle = cycle; state = state.now; levels = levels_by sources.now (known_in known.now) }) }
{
    let own = state.copy()?;
    match levels_of(alloc, known, sources) {
        Ok(levels) => Ok(CycleEnd {
            cycle,
            state: own,
            levels,
        }),
        Err(want) => {
            drop(own);
            Err(want)
        }
    }
}

/// A cycle ends that differs.
#[tactic(auto, using(crate::proofs::TallyLemmas::differs_is))]
fn differ(
    alloc: Global,
    known: &HashMap<u64, &[u8]>,
    sources: &[Option<BitSource>],
    state: &Bits,
    tally: &mut RunTally,
) -> Result<(), NoMemory>
    requires { tally.old.ended < 2 ^ 63 }
    ensures is { OnOk result (tally_in tally.new state.now ≡ different (tally_in tally.old state.now) (levels_by sources.now (known_in known.now))) }
    ensures ended { OnOk result (tally.new.ended ≡ tally.old.ended + 1) }
    ensures agreed { OnOk result (tally.new.agreed ≡ tally.old.agreed) }
    ensures unknown { OnOk result (tally.new.unknown ≡ tally.old.unknown) }
{
    let end = end_of(alloc, known, sources, tally.ended, state)?;
    tally.differing.push(end)?;
    tally.ended += 1;
    Ok(())
}

/// A cycle ends that is looked at.
#[tactic(auto, using(crate::proofs::TallyLemmas::small_differs, crate::proofs::TallyLemmas::small_agrees, crate::proofs::TallyLemmas::looked_differs, crate::proofs::TallyLemmas::looked_agrees, crate::proofs::TallyLemmas::unknown_fits, crate::proofs::TallyLemmas::agreed_fits))]
fn look_at(
    alloc: Global,
    known: &HashMap<u64, &[u8]>,
    sources: &[Option<BitSource>],
    replay: &mut Replay<'_>,
    tally: &mut RunTally,
) -> Result<(), NoMemory>
    requires flops { length sources.now < 2 ^ 32 }
    requires cycle { tally.old.ended ≤ MAX_CYCLES }
    requires small { IsSmall tally.old }
    ensures is { OnOk result (tally_in tally.new replay.new.state ≡ looked replay.old.circuit replay.old.run (tally_in tally.old replay.old.state) (levels_by sources.now (known_in known.now))) }
    ensures small { OnOk result (IsSmall tally.new) }
    ensures one { OnOk result (tally.new.ended ≡ tally.old.ended + 1) }
    ensures circuit { replay.new.circuit ≡ replay.old.circuit }
    ensures run { replay.new.run ≡ replay.old.run }
{
    let seen = look(known, sources, replay.state());
    if seen.differs {
        differ(alloc, known, sources, replay.state(), tally)?;
        return Ok(());
    }
    replay.advance(tally.ended);
    count(tally, seen.unknown as u64);
    Ok(())
}

/// A cycle ends.
#[tactic(auto, using(crate::proofs::TallyLemmas::small_passed, crate::proofs::TallyLemmas::open_cycle, crate::proofs::TallyLemmas::stepped_open, crate::proofs::TallyLemmas::stepped_passed))]
pub fn end_cycle(
    alloc: Global,
    known: &HashMap<u64, &[u8]>,
    sources: &[Option<BitSource>],
    replay: &mut Replay<'_>,
    tally: &mut RunTally,
) -> Result<(), NoMemory>
    requires flops { length sources.now < 2 ^ 32 }
    requires ended { tally.old.ended < 2 ^ 63 }
    requires small { IsSmall tally.old }
    ensures is { OnOk result (tally_in tally.new replay.new.state ≡ stepped replay.old.circuit replay.old.run (tally_in tally.old replay.old.state) (levels_by sources.now (known_in known.now))) }
    ensures small { OnOk result (IsSmall tally.new) }
    ensures one { OnOk result (tally.new.ended ≡ tally.old.ended + 1) }
    ensures circuit { replay.new.circuit ≡ replay.old.circuit }
    ensures run { replay.new.run ≡ replay.old.run }
{
    if !is_open(replay.cycles(), tally) {
        pass(tally);
        return Ok(());
    }
    look_at(alloc, known, sources, replay, tally)?;
    Ok(())
}
