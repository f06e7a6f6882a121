//! One step back: the list of the states before the present one, and the first moment of a run in a listed state.
ghost use Rattle.std.specs.Prelude.{◌≡◌, ◌<◌, ◌∷◌, ◌++◌, [], All, IfOk, IfSome, MatchOption, length, option_map};
ghost use Rattle.std.specs.Option.{option_to_list};
ghost use Rattle.bs_scan.specs.Crash.{DumpFits};
ghost use Rattle.bs_scan.specs.Dump.{signatures_of};
ghost use Rattle.bs_scan.specs.Moments.{moment};
ghost use Rattle.bs_scan.specs.Crash.{dump_at};
ghost use Rattle.bs_scan.specs.Moments.{first_moment, IsMoment};
ghost use Rattle.bs_report.specs.Step.{listed};
ghost use Rattle.bs_report.specs.Valid.{cause_of_end};
ghost use Rattle.bs_loop.specs.Budget.{IsBudget};
ghost use Rattle.bs_loop.specs.HitInput.{TakesRecorded};
ghost use Rattle.bs_loop.specs.KnownCand.{Sees};
ghost use Rattle.bs_loop.specs.Recorded.{StandsIn};
ghost use Rattle.bs_loop.specs.Searched.{IsTurnSearched};
ghost use Rattle.bs_loop.specs.Turn.{line_of, step_of, HasListedFrom, HasLookedFrom, HasStepped, HasStopped};

use crate::hit_input::take_recorded;
use crate::known::{SearchAnswer, SearchExtent, Sight, reach_of, sight_of};
use crate::recorded_source::Lookout;
use crate::stop::cause_after;
use bs_bits::{Bits, List, NoMemory};
use bs_chip::{Chip, Hit};
use bs_preimage::{Listing, Preimage};
use bs_preimage_recorded::Finder;
use bs_report::{Budgets, Cand, HitLine, MAX_STEPS, Step, Stop};
use bs_scan::{Dump, Moment};
use std::alloc::Global;

/// A list of states, and what was answered for it, if anything was asked.
#[derive(Drop)]
struct Listed {
    listing: Listing,
    answer: Option<SearchAnswer>,
}

/// A list of states, the first moment of a run in one of them, and how far the recorded moments were searched.
#[derive(Drop)]
struct ListedHit {
    listing: Listing,
    hit: Option<Hit>,
    reach: SearchExtent,
}

/// The signature, lent, if there is one.
pub fn lent(signature: &Option<Bits>) -> Option<&Bits>
    ensures { option_map (λ bits. bits.now) result ≡ signature.now }
{
    match signature {
        None => None,
        Some(bits) => Some(bits),
    }
}

/// The states before a present that has a stored signature. Where their list is about to be cut, the recorded moments are searched.
fn list_from<'s, 'a>(
    alloc: Global,
    chip: &'s mut Chip<'a>,
    finder: &'s mut Finder<'a, '_>,
    preimage: &mut Preimage<'_>,
    now: &'s Dump,
    at: Option<Moment>,
    stored: &'s Bits,
    budgets: &Budgets,
) -> Result<Listed, NoMemory>
    requires finder { finder.old.recording ≡ chip.old.recording }
    requires circuit { preimage.old.circuit ≡ chip.old.recording.circuit }
    requires choice { preimage.old.choice ≡ chip.old.recording.choice }
    requires dump { DumpFits chip.old.recording.circuit chip.old.recording.choice now.now }
    requires at { IfSome at (StandsIn chip.old.recording now.now) }
    requires stored { signatures_of now.now ≡ stored.now ∷ option_to_list now.now.older }
    requires budgets { IsBudget budgets.now }
    requires calls { preimage.old.calls < MAX_STEPS }
    ensures listed { IfOk result (λ listed. HasListedFrom chip.old.recording budgets.now preimage.old preimage.new now.now stored.now at listed.listing listed.answer) }
    ensures chip { chip.new.recording ≡ chip.old.recording }
    ensures finder { finder.new.recording ≡ finder.old.recording }
{
    let mut lookout = Lookout {
        chip,
        finder,
        now,
        stored,
        at,
        b: budgets.conflicts,
        answer: None,
    };
    let listing = preimage.list_asking(
        alloc,
        &now.state,
        stored,
        lent(&now.older),
        &mut lookout,
        budgets.candidates,
        budgets.conflicts,
    )?;
    let answer = lookout.answer;
    Ok(Listed { listing, answer })
}

/// A moment and its dump, if there is one.
fn hit_at(
    alloc: Global,
    chip: &mut Chip<'_>,
    first: Option<Moment>,
) -> Result<Option<Hit>, NoMemory>
    requires { IfSome first (IsMoment chip.old.recording.runs) }
    ensures first { IfOk result (λ hit. first ≡ option_map (λ hit. moment hit.run hit.cycle) hit) }
    ensures dump { IfOk result (λ hit. IfSome hit (λ hit. hit.dump ≡ dump_at chip.old.recording (moment hit.run hit.cycle))) }
    ensures chip { chip.new.recording ≡ chip.old.recording }
{
    match first {
        None => Ok(None),
        Some(Moment { run, cycle }) => {
            let dump = chip.dump_at(alloc, run, cycle)?;
            Ok(Some(Hit { run, cycle, dump }))
        }
    }
}

/// The first moment of a run in a listed state, where it is not known yet.
fn hit_in(
    alloc: Global,
    chip: &mut Chip<'_>,
    cands: &[Cand],
    sight: Sight,
) -> Result<Option<Hit>, NoMemory>
    requires widths { All (λ cand. length cand.state ≡ length chip.old.recording.circuit.flops) cands.now }
    requires sight { Sees chip.old.recording cands.now sight }
    ensures first { IfOk result (λ hit. first_moment chip.old.recording.circuit chip.old.recording.runs (listed cands.now) ≡ option_map (λ hit. moment hit.run hit.cycle) hit) }
    ensures dump { IfOk result (λ hit. IfSome hit (λ hit. hit.dump ≡ dump_at chip.old.recording (moment hit.run hit.cycle))) }
    ensures chip { chip.new.recording ≡ chip.old.recording }
{
    match sight {
        Sight::Told(first) => hit_at(alloc, chip, first),
        Sight::Untold => {
            let hit = chip.first(alloc, cands)?;
            Ok(hit)
        }
    }
}

/// An equal signature of its own, or none.
fn copy_of(signature: &Option<Bits>) -> Result<Option<Bits>, NoMemory>
    ensures { IfOk result (λ copy. copy ≡ signature.now) }
{
    match signature {
        None => Ok(None),
        Some(bits) => Ok(Some(bits.copy()?)),
    }
}

/// The line of a hit.
fn line_of(hit: &Option<Hit>) -> Result<Option<HitLine>, NoMemory>
    ensures { IfOk result (λ line. line ≡ option_map line_of hit.now) }
{
    match hit {
        None => Ok(None),
        Some(hit) => Ok(Some(HitLine {
            run: hit.run,
            cycle: hit.cycle,
            state: hit.dump.state.bits.copy()?,
        })),
    }
}

/// The step of a list and of the moment that it hit.
fn step_of(now: &Dump, stored: Bits, listing: Listing, hit: &Option<Hit>) -> Result<Step, NoMemory>
    ensures { IfOk result (λ step. step ≡ step_of now.now stored listing hit.now) }
{
    let present = now.state.copy()?;
    let older = copy_of(&now.older)?;
    let hit = line_of(hit)?;
    Ok(Step {
        present,
        stored,
        older,
        cands: listing.cands,
        end: listing.end,
        hit,
    })
}

/// What is before a present: the list, and the first moment hit.
fn meet_from<'a>(
    alloc: Global,
    chip: &mut Chip<'a>,
    finder: &mut Finder<'a, '_>,
    preimage: &mut Preimage<'_>,
    now: &Dump,
    at: Option<Moment>,
    stored: &Bits,
    budgets: &Budgets,
) -> Result<ListedHit, NoMemory>
    requires finder { finder.old.recording ≡ chip.old.recording }
    requires circuit { preimage.old.circuit ≡ chip.old.recording.circuit }
    requires choice { preimage.old.choice ≡ chip.old.recording.choice }
    requires dump { DumpFits chip.old.recording.circuit chip.old.recording.choice now.now }
    requires at { IfSome at (StandsIn chip.old.recording now.now) }
    requires stored { signatures_of now.now ≡ stored.now ∷ option_to_list now.now.older }
    requires budgets { IsBudget budgets.now }
    requires calls { preimage.old.calls < MAX_STEPS }
    ensures back { IfOk result (λ back. HasLookedFrom chip.old.recording budgets.now preimage.old preimage.new now.now stored.now at back.listing back.hit back.reach) }
    ensures chip { chip.new.recording ≡ chip.old.recording }
    ensures finder { finder.new.recording ≡ finder.old.recording }
{
    let Listed { listing, answer } = list_from(
        alloc, chip, finder, preimage, now, at, stored, budgets,
    )?;
    let sight = sight_of(at, answer, &listing.end);
    let hit = hit_in(alloc, chip, listing.cands.slice(), sight)?;
    let reach = reach_of(answer);
    Ok(ListedHit {
        listing,
        hit,
        reach,
    })
}

/// The same, where the state hit has its recorded input, if that leads to what is known of the present.
fn look_from<'a>(
    alloc: Global,
    chip: &mut Chip<'a>,
    finder: &mut Finder<'a, '_>,
    preimage: &mut Preimage<'_>,
    now: &Dump,
    at: Option<Moment>,
    stored: &Bits,
    budgets: &Budgets,
) -> Result<ListedHit, NoMemory>
    requires finder { finder.old.recording ≡ chip.old.recording }
    requires circuit { preimage.old.circuit ≡ chip.old.recording.circuit }
    requires choice { preimage.old.choice ≡ chip.old.recording.choice }
    requires dump { DumpFits chip.old.recording.circuit chip.old.recording.choice now.now }
    requires at { IfSome at (StandsIn chip.old.recording now.now) }
    requires stored { signatures_of now.now ≡ stored.now ∷ option_to_list now.now.older }
    requires budgets { IsBudget budgets.now }
    requires calls { preimage.old.calls < MAX_STEPS }
    ensures back { IfOk result (λ back. HasLookedFrom chip.old.recording budgets.now preimage.old preimage.new now.now stored.now at back.listing back.hit back.reach) }
    ensures takes { IfOk result (λ back. TakesRecorded chip.old.recording.circuit chip.old.recording.runs (step_of now.now stored.now back.listing back.hit)) }
    ensures chip { chip.new.recording ≡ chip.old.recording }
    ensures finder { finder.new.recording ≡ finder.old.recording }
{
    chip.is_recording();
    let ListedHit {
        listing,
        hit,
        reach,
    } = meet_from(alloc, chip, finder, preimage, now, at, stored, budgets)?;
    let with_input = take_recorded(alloc, chip, &now.state, &hit, listing)?;
    Ok(ListedHit {
        listing: with_input,
        hit,
        reach,
    })
}

/// Goes to the moment hit, which is now the present. Where there is none, the cause comes for which the backtrace stops.
fn go_on(now: &mut Dump, at: &mut Option<Moment>, hit: Option<Hit>, cause: Stop) -> Option<Stop>
    ensures { MatchOption hit (result ≡ Some cause) (λ hit. (result ≡ None) × (now.new ≡ hit.dump) × (at.new ≡ Some (moment hit.run hit.cycle))) }
{
    match hit {
        Some(hit) => {
            let (run, cycle) = (hit.run, hit.cycle);
            *at = Some(Moment { run, cycle });
            *now = hit.dump;
            None
        }
        None => Some(cause),
    }
}

/// Puts a step to the others, and how far was searched for it. Where it has a hit, the present is now the moment hit; else the cause comes for which the
/// backtrace stops.
fn advance(
    steps: &mut List<Step>,
    searched: &mut List<SearchExtent>,
    now: &mut Dump,
    at: &mut Option<Moment>,
    step: Step,
    hit: Option<Hit>,
    reach: SearchExtent,
) -> Result<Option<Stop>, NoMemory>
    ensures searched { IfOk result (λ _. searched.new ≡ searched.old ++ reach ∷ []) }
    ensures steps { IfOk result (λ _. steps.new ≡ steps.old ++ step ∷ []) }
    ensures stop { IfOk result (λ stop. MatchOption hit (stop ≡ Some (cause_of_end step step.end)) (λ hit. (stop ≡ None) × (now.new ≡ hit.dump) × (at.new ≡ Some (moment hit.run hit.cycle)))) }
{
    let stop = go_on(now, at, hit, cause_after(&step));
    steps.push(step)?;
    searched.push(reach)?;
    Ok(stop)
}

/// One turn of a backtrace: the cause for which it stops at the present or after a step; or a step with a hit, which is
/// the next present. Where the present is a moment of a run, its place is at hand.
pub fn turn<'a>(
    alloc: Global,
    chip: &mut Chip<'a>,
    finder: &mut Finder<'a, '_>,
    preimage: &mut Preimage<'_>,
    budgets: &Budgets,
    steps: &mut List<Step>,
    searched: &mut List<SearchExtent>,
    now: &mut Dump,
    at: &mut Option<Moment>,
) -> Result<Option<Stop>, NoMemory>
    requires finder { finder.old.recording ≡ chip.old.recording }
    requires circuit { preimage.old.circuit ≡ chip.old.recording.circuit }
    requires choice { preimage.old.choice ≡ chip.old.recording.choice }
    requires dump { DumpFits chip.old.recording.circuit chip.old.recording.choice now.old }
    requires at { IfSome at.old (StandsIn chip.old.recording now.old) }
    requires budgets { IsBudget budgets.now }
    requires calls { preimage.old.calls < MAX_STEPS }
    ensures turn { IfOk result (λ stop. MatchOption stop (HasStepped chip.old.recording budgets.now steps.old steps.new preimage.old preimage.new now.old now.new at.old at.new) (HasStopped chip.old.recording budgets.now steps.old steps.new preimage.old preimage.new now.old at.old)) }
    ensures searched { IfOk result (λ _. IsTurnSearched chip.old.recording budgets.now.conflicts steps.old steps.new searched.old searched.new) }
    ensures chip { chip.new.recording ≡ chip.old.recording }
    ensures finder { finder.new.recording ≡ finder.old.recording }
{
    let stored = match &now.stored {
        None => return Ok(Some(Stop::Reset)),
        Some(stored) => stored.copy()?,
    };
    let ListedHit {
        listing,
        hit,
        reach,
    } = look_from(alloc, chip, finder, preimage, now, *at, &stored, budgets)?;
    let step = step_of(now, stored, listing, &hit)?;
    advance(steps, searched, now, at, step, hit, reach)
}
