//! The moments of recorded runs in their order, until one is in a predecessor.
ghost use Rattle.std.specs.Prelude.{◌≡◌, ◌≤◌, ◌+◌, ◌-◌, option_map, IfOk, IfSome};
ghost use Rattle.bs_preimage_recorded.specs.declared.search.TheConstants.{MAX_ASKS};
ghost use Rattle.bs_scan.specs.Moments.{IsMoment, moment};
ghost use Rattle.bs_stim.specs.declared.limits.TheConstants.{MAX_CYCLES};
ghost use Rattle.bs_chip.specs.Lockstep.{NoneBefore};
ghost use Rattle.bs_chip.specs.SignatureHashes.{IsNextAlike};
ghost use Rattle.bs_preimage_recorded.specs.Finder.{IsAsking};
ghost use Rattle.bs_preimage_recorded.specs.Search.{alike_at, alike_before, alike_below, asked_in, turn_by, HasTried, HasTurned, IsCutAt, IsUnknownAt, SoughtAt, SoughtBefore, SoughtOfAll, SoughtSooner, SoughtWithin, TurnsTo};

use crate::finder::{Finder, Query};
use bs_bits::NoMemory;
use bs_chip::Chip;
use bs_preimage::Probed;
use bs_report::Cand;
use bs_scan::Moment;
use std::alloc::Global;

/// How many states a search may ask about at most.
/// Each takes a solve. A search that comes to this many says up to where it has asked.
pub const MAX_ASKS: u64 = 1_000;

/// How many it asks about before it sees where recorded states lead, which takes the time of some replays of all runs.
const FEW_ASKS: u64 = 2;

/// A moment, a run from 1 and a cycle from 0, and its state as a candidate.
#[derive(Drop)]
pub struct Recorded {
    pub run: u32,
    pub cycle: u32,
    pub cand: Cand,
}

/// What comes of a search.
#[derive(Drop)]
pub enum Sought {
    /// The first moment in a predecessor.
    Found(Recorded),
    /// No moment that was looked at is in one.
    NoMoment,
    /// As many states as the limit were asked about, each with the hash of the stored signature. No moment before this one is in a
    /// predecessor.
    Cut(Moment),
    /// It is not known whether the state of this moment is a predecessor: a solve about it spent its budget, or it cannot be asked about.
    /// No moment before it is in one.
    Unsaid(Moment),
}

/// What comes of one run.
#[derive(Drop)]
enum RunResult {
    /// No run up to this one is in a predecessor.
    GoOn(u32),
    /// The search at the cycle ends.
    End(Sought),
}

/// The runs behind one number, up to another, at a cycle.
#[derive(Clone, Copy)]
struct RunRange {
    cycle: u32,
    from: u32,
    below: u32,
}

/// What an answer about a run means for the search at its cycle.
fn turn_of(said: Probed, run: u32, cycle: u32) -> RunResult
    ensures { result ≡ turn_by said run cycle }
{
    match said {
        Probed::Predecessor(cand) => RunResult::End(Sought::Found(Recorded { run, cycle, cand })),
        Probed::NoPredecessor => RunResult::GoOn(run),
        Probed::Unknown => RunResult::End(Sought::Unsaid(Moment { run, cycle })),
    }
}

/// What comes of the run that is next in a state with the signature, where one of so many tries is taken.
fn ask_run(
    alloc: Global,
    chip: &mut Chip<'_>,
    finder: &mut Finder<'_, '_>,
    query: &Query<'_>,
    span: RunRange,
    run: u32,
    tries: &mut u64,
) -> Result<RunResult, NoMemory>
    requires next { IsNextAlike chip.old.recording query.now.stored.now span.cycle span.from run }
    requires within { run ≤ span.below }
    requires aimed { finder.old ≡ record { recording = chip.old.recording; present = query.now.present.now; stored = query.now.stored.now } }
    requires asking { IsAsking chip.old.recording query.now.present.now query.now.stored.now (option_map (λ bits. bits.now) query.now.older) query.now.b }
    ensures turn { IfOk result (TurnsTo chip.old.recording query.now.present.now query.now.stored.now (option_map (λ bits. bits.now) query.now.older) span.cycle span.from span.below) }
    ensures tried { IfOk result (HasTurned tries.old tries.new (alike_at chip.old.recording query.now.stored.now span.cycle) (IsUnknownAt chip.old.recording query.now.present.now query.now.stored.now (option_map (λ bits. bits.now) query.now.older) query.now.b) span.from span.below) }
    ensures chip { chip.new ≡ chip.old }
    ensures finder { finder.new ≡ finder.old }
{
    if *tries == 0 {
        let cycle = span.cycle;
        return Ok(RunResult::End(Sought::Cut(Moment { run, cycle })));
    }
    *tries -= 1;
    let said = finder.ask(alloc, chip, query, run, span.cycle)?;
    Ok(turn_of(said, run, span.cycle))
}

/// What comes of the run that is next in a state with the signature.
fn try_run(
    alloc: Global,
    chip: &mut Chip<'_>,
    finder: &mut Finder<'_, '_>,
    query: &Query<'_>,
    span: RunRange,
    run: u32,
    tries: &mut u64,
) -> Result<RunResult, NoMemory>
    requires few { span.cycle ≤ MAX_CYCLES }
    requires next { IsNextAlike chip.old.recording query.now.stored.now span.cycle span.from run }
    requires order { span.from ≤ span.below }
    requires aimed { finder.old ≡ record { recording = chip.old.recording; present = query.now.present.now; stored = query.now.stored.now } }
    requires asking { IsAsking chip.old.recording query.now.present.now query.now.stored.now (option_map (λ bits. bits.now) query.now.older) query.now.b }
    ensures turn { IfOk result (TurnsTo chip.old.recording query.now.present.now query.now.stored.now (option_map (λ bits. bits.now) query.now.older) span.cycle span.from span.below) }
    ensures tried { IfOk result (HasTurned tries.old tries.new (alike_at chip.old.recording query.now.stored.now span.cycle) (IsUnknownAt chip.old.recording query.now.present.now query.now.stored.now (option_map (λ bits. bits.now) query.now.older) query.now.b) span.from span.below) }
    ensures chip { chip.new ≡ chip.old }
    ensures finder { finder.new ≡ finder.old }
{
    if span.below < run {
        return Ok(RunResult::End(Sought::NoMoment));
    }
    if !finder.may_lead(alloc, chip, run, span.cycle)? {
        return Ok(RunResult::GoOn(run));
    }
    ask_run(alloc, chip, finder, query, span, run, tries)
}

/// What comes of the next run of a span.
fn next_turn(
    alloc: Global,
    chip: &mut Chip<'_>,
    finder: &mut Finder<'_, '_>,
    query: &Query<'_>,
    span: RunRange,
    tries: &mut u64,
) -> Result<RunResult, NoMemory>
    requires few { span.cycle ≤ MAX_CYCLES }
    requires order { span.from ≤ span.below }
    requires aimed { finder.old ≡ record { recording = chip.old.recording; present = query.now.present.now; stored = query.now.stored.now } }
    requires asking { IsAsking chip.old.recording query.now.present.now query.now.stored.now (option_map (λ bits. bits.now) query.now.older) query.now.b }
    ensures turn { IfOk result (TurnsTo chip.old.recording query.now.present.now query.now.stored.now (option_map (λ bits. bits.now) query.now.older) span.cycle span.from span.below) }
    ensures tried { IfOk result (HasTurned tries.old tries.new (alike_at chip.old.recording query.now.stored.now span.cycle) (IsUnknownAt chip.old.recording query.now.present.now query.now.stored.now (option_map (λ bits. bits.now) query.now.older) query.now.b) span.from span.below) }
    ensures chip { chip.new ≡ chip.old }
    ensures finder { finder.new ≡ finder.old }
{
    match finder.next_alike(alloc, chip, span.cycle, span.from)? {
        None => Ok(RunResult::End(Sought::NoMoment)),
        Some(run) => try_run(alloc, chip, finder, query, span, run, tries),
    }
}

/// The lowest run, up to a number, that is in a predecessor at a cycle.
fn lowest_at(
    alloc: Global,
    chip: &mut Chip<'_>,
    finder: &mut Finder<'_, '_>,
    query: &Query<'_>,
    cycle: u32,
    below: u32,
    tries: &mut u64,
) -> Result<Sought, NoMemory>
    requires few { cycle ≤ MAX_CYCLES }
    requires aimed { finder.old ≡ record { recording = chip.old.recording; present = query.now.present.now; stored = query.now.stored.now } }
    requires asking { IsAsking chip.old.recording query.now.present.now query.now.stored.now (option_map (λ bits. bits.now) query.now.older) query.now.b }
    ensures sought { IfOk result (SoughtAt chip.old.recording query.now.present.now query.now.stored.now (option_map (λ bits. bits.now) query.now.older) cycle 0 below) }
    ensures tried { IfOk result (HasTried tries.old tries.new (alike_at chip.old.recording query.now.stored.now cycle below) (λ m. alike_at chip.old.recording query.now.stored.now cycle (m.run - 1)) (IsUnknownAt chip.old.recording query.now.present.now query.now.stored.now (option_map (λ bits. bits.now) query.now.older) query.now.b)) }
    ensures chip { chip.new ≡ chip.old }
    ensures finder { finder.new ≡ finder.old }
{
    let mut from = 0;
    'runs: for _ in 0..below {
        let span = RunRange { cycle, from, below };
        match next_turn(alloc, chip, finder, query, span, tries)? {
            RunResult::GoOn(run) => from = run,
            RunResult::End(sought) => return Ok(sought),
        }
    }
    Ok(Sought::NoMoment)
}

/// A cycle, no later than a limit, before which no run is in a predecessor.
fn start_of(
    chip: &Chip<'_>,
    finder: &mut Finder<'_, '_>,
    query: &Query<'_>,
    limit: u32,
) -> Result<u32, NoMemory>
    requires aimed { finder.old ≡ record { recording = chip.now.recording; present = query.now.present.now; stored = query.now.stored.now } }
    ensures within { IfOk result (λ from. from ≤ limit) }
    ensures none { IfOk result (NoneBefore chip.now.recording.circuit chip.now.recording.runs (asked_in chip.now.recording query.now.present.now query.now.stored.now (option_map (λ bits. bits.now) query.now.older))) }
    ensures finder { finder.new ≡ finder.old }
{
    let _stored = query.stored.len();
    let start = finder.start()?;
    if start <= limit {
        return Ok(start);
    }
    Ok(limit)
}

/// The first moment in a predecessor before a cycle.
fn first_before(
    alloc: Global,
    chip: &mut Chip<'_>,
    finder: &mut Finder<'_, '_>,
    query: &Query<'_>,
    limit: u32,
    tries: &mut u64,
) -> Result<Sought, NoMemory>
    requires few { limit ≤ MAX_CYCLES + 1 }
    requires aimed { finder.old ≡ record { recording = chip.old.recording; present = query.now.present.now; stored = query.now.stored.now } }
    requires asking { IsAsking chip.old.recording query.now.present.now query.now.stored.now (option_map (λ bits. bits.now) query.now.older) query.now.b }
    ensures sought { IfOk result (SoughtBefore chip.old.recording query.now.present.now query.now.stored.now (option_map (λ bits. bits.now) query.now.older) limit) }
    ensures tried { IfOk result (HasTried tries.old tries.new (alike_below chip.old.recording query.now.stored.now limit) (alike_before chip.old.recording query.now.stored.now) (IsUnknownAt chip.old.recording query.now.present.now query.now.stored.now (option_map (λ bits. bits.now) query.now.older) query.now.b)) }
    ensures chip { chip.new ≡ chip.old }
    ensures finder { finder.new ≡ finder.old }
{
    let runs = finder.runs();
    let from = start_of(chip, finder, query, limit)?;
    'cycles: for cycle in from..limit {
        match lowest_at(alloc, chip, finder, query, cycle, runs, tries)? {
            Sought::NoMoment => {}
            Sought::Found(found) => return Ok(Sought::Found(found)),
            Sought::Cut(moment) => return Ok(Sought::Cut(moment)),
            Sought::Unsaid(moment) => return Ok(Sought::Unsaid(moment)),
        }
    }
    Ok(Sought::NoMoment)
}

/// The first moment in a predecessor before a moment.
fn first_sooner(
    alloc: Global,
    chip: &mut Chip<'_>,
    finder: &mut Finder<'_, '_>,
    query: &Query<'_>,
    moment: Moment,
    tries: &mut u64,
) -> Result<Sought, NoMemory>
    requires few { moment.cycle ≤ MAX_CYCLES }
    requires from_one { 1 ≤ moment.run }
    requires aimed { finder.old ≡ record { recording = chip.old.recording; present = query.now.present.now; stored = query.now.stored.now } }
    requires asking { IsAsking chip.old.recording query.now.present.now query.now.stored.now (option_map (λ bits. bits.now) query.now.older) query.now.b }
    ensures sought { IfOk result (SoughtSooner chip.old.recording query.now.present.now query.now.stored.now (option_map (λ bits. bits.now) query.now.older) moment) }
    ensures tried { IfOk result (IsCutAt chip.old.recording query.now.present.now query.now.stored.now (option_map (λ bits. bits.now) query.now.older) query.now.b tries.old) }
    ensures chip { chip.new ≡ chip.old }
    ensures finder { finder.new ≡ finder.old }
{
    let (run, cycle) = (moment.run, moment.cycle);
    match first_before(alloc, chip, finder, query, cycle, tries)? {
        Sought::NoMoment => lowest_at(alloc, chip, finder, query, cycle, run - 1, tries),
        Sought::Found(found) => Ok(Sought::Found(found)),
        Sought::Cut(moment) => Ok(Sought::Cut(moment)),
        Sought::Unsaid(moment) => Ok(Sought::Unsaid(moment)),
    }
}

/// The first moment of all in a predecessor.
fn first_of_all(
    alloc: Global,
    chip: &mut Chip<'_>,
    finder: &mut Finder<'_, '_>,
    query: &Query<'_>,
    tries: &mut u64,
) -> Result<Sought, NoMemory>
    requires aimed { finder.old ≡ record { recording = chip.old.recording; present = query.now.present.now; stored = query.now.stored.now } }
    requires asking { IsAsking chip.old.recording query.now.present.now query.now.stored.now (option_map (λ bits. bits.now) query.now.older) query.now.b }
    ensures sought { IfOk result (SoughtOfAll chip.old.recording query.now.present.now query.now.stored.now (option_map (λ bits. bits.now) query.now.older)) }
    ensures tried { IfOk result (IsCutAt chip.old.recording query.now.present.now query.now.stored.now (option_map (λ bits. bits.now) query.now.older) query.now.b tries.old) }
    ensures chip { chip.new ≡ chip.old }
    ensures finder { finder.new ≡ finder.old }
{
    let limit = finder.longest() + 1;
    let sought = first_before(alloc, chip, finder, query, limit, tries)?;
    Ok(sought)
}

/// The first moment in a predecessor, of those before a moment, if one is given, or of all, with so many tries.
fn first_within(
    alloc: Global,
    chip: &mut Chip<'_>,
    finder: &mut Finder<'_, '_>,
    query: &Query<'_>,
    before: Option<Moment>,
    most: u64,
) -> Result<Sought, NoMemory>
    requires before { IfSome before (λ moment. (1 ≤ moment.run) × (moment.cycle ≤ MAX_CYCLES)) }
    requires aimed { finder.old ≡ record { recording = chip.old.recording; present = query.now.present.now; stored = query.now.stored.now } }
    requires asking { IsAsking chip.old.recording query.now.present.now query.now.stored.now (option_map (λ bits. bits.now) query.now.older) query.now.b }
    ensures sought { IfOk result (SoughtWithin chip.old.recording query.now.present.now query.now.stored.now (option_map (λ bits. bits.now) query.now.older) before) }
    ensures tried { IfOk result (IsCutAt chip.old.recording query.now.present.now query.now.stored.now (option_map (λ bits. bits.now) query.now.older) query.now.b most) }
    ensures chip { chip.new ≡ chip.old }
    ensures finder { finder.new ≡ finder.old }
{
    let mut tries = most;
    match before {
        Some(moment) => first_sooner(alloc, chip, finder, query, moment, &mut tries),
        None => first_of_all(alloc, chip, finder, query, &mut tries),
    }
}

/// The first moment in a predecessor, where it is known where recorded states lead.
fn first_ahead<'a>(
    alloc: Global,
    chip: &mut Chip<'a>,
    finder: &mut Finder<'a, '_>,
    query: &Query<'_>,
    before: Option<Moment>,
) -> Result<Sought, NoMemory>
    requires before { IfSome before (λ moment. (1 ≤ moment.run) × (moment.cycle ≤ MAX_CYCLES)) }
    requires aimed { finder.old ≡ record { recording = chip.old.recording; present = query.now.present.now; stored = query.now.stored.now } }
    requires asking { IsAsking chip.old.recording query.now.present.now query.now.stored.now (option_map (λ bits. bits.now) query.now.older) query.now.b }
    ensures sought { IfOk result (SoughtWithin chip.old.recording query.now.present.now query.now.stored.now (option_map (λ bits. bits.now) query.now.older) before) }
    ensures cut { IfOk result (IsCutAt chip.old.recording query.now.present.now query.now.stored.now (option_map (λ bits. bits.now) query.now.older) query.now.b MAX_ASKS) }
    ensures chip { chip.new ≡ chip.old }
    ensures finder { finder.new.recording ≡ finder.old.recording }
{
    finder.look_forward(alloc, chip)?;
    let sought = first_within(alloc, chip, finder, query, before, MAX_ASKS)?;
    Ok(sought)
}

/// The first moment in a predecessor, where it is not known yet: it is made known where a few tries do not serve.
fn first_unseen<'a>(
    alloc: Global,
    chip: &mut Chip<'a>,
    finder: &mut Finder<'a, '_>,
    query: &Query<'_>,
    before: Option<Moment>,
) -> Result<Sought, NoMemory>
    requires before { IfSome before (λ moment. (1 ≤ moment.run) × (moment.cycle ≤ MAX_CYCLES)) }
    requires aimed { finder.old ≡ record { recording = chip.old.recording; present = query.now.present.now; stored = query.now.stored.now } }
    requires asking { IsAsking chip.old.recording query.now.present.now query.now.stored.now (option_map (λ bits. bits.now) query.now.older) query.now.b }
    ensures sought { IfOk result (SoughtWithin chip.old.recording query.now.present.now query.now.stored.now (option_map (λ bits. bits.now) query.now.older) before) }
    ensures cut { IfOk result (IsCutAt chip.old.recording query.now.present.now query.now.stored.now (option_map (λ bits. bits.now) query.now.older) query.now.b MAX_ASKS) }
    ensures chip { chip.new ≡ chip.old }
    ensures finder { finder.new.recording ≡ finder.old.recording }
{
    match first_within(alloc, chip, finder, query, before, FEW_ASKS)? {
        Sought::Found(found) => Ok(Sought::Found(found)),
        Sought::NoMoment => Ok(Sought::NoMoment),
        Sought::Cut(_) => first_ahead(alloc, chip, finder, query, before),
        Sought::Unsaid(moment) => Ok(Sought::Unsaid(moment)),
    }
}

/// The first moment in a predecessor: of those before a moment, if one is given, or of all. The search is cut where it has asked
/// about `MAX_ASKS` states: as many moments before the one that it stands at have a signature with the hash of the stored one. It ends
/// at a moment that is unsaid only where a solve about its state spent its budget, or the state cannot be asked about.
pub fn first_recorded<'a>(
    alloc: Global,
    chip: &mut Chip<'a>,
    finder: &mut Finder<'a, '_>,
    query: &Query<'_>,
    before: Option<Moment>,
) -> Result<Sought, NoMemory>
    requires before { IfSome before (λ moment. (1 ≤ moment.run) × (moment.cycle ≤ MAX_CYCLES)) }
    requires recording { finder.old.recording ≡ chip.old.recording }
    requires asking { IsAsking chip.old.recording query.now.present.now query.now.stored.now (option_map (λ bits. bits.now) query.now.older) query.now.b }
    ensures sought { IfOk result (SoughtWithin chip.old.recording query.now.present.now query.now.stored.now (option_map (λ bits. bits.now) query.now.older) before) }
    ensures cut { IfOk result (IsCutAt chip.old.recording query.now.present.now query.now.stored.now (option_map (λ bits. bits.now) query.now.older) query.now.b MAX_ASKS) }
    ensures chip { chip.new ≡ chip.old }
    ensures finder { finder.new.recording ≡ finder.old.recording }
{
    finder.stand_at(query.present, query.stored)?;
    if finder.looks_forward() {
        first_within(alloc, chip, finder, query, before, MAX_ASKS)
    } else {
        first_unseen(alloc, chip, finder, query, before)
    }
}
