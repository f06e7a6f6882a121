//! The candidate that is known where a list is about to be cut: of the first recorded moment that leads to the present, or else of
//! the moment before the present.
ghost use Rattle.std.specs.Prelude.{◌≡◌, ◌≤◌, ◌∷◌, IfOk, IfSome, Some};
ghost use Rattle.std.specs.Option.{option_to_list};
ghost use Rattle.bs_scan.specs.Choice.{depth_of};
ghost use Rattle.bs_scan.specs.Crash.{DumpFits};
ghost use Rattle.bs_scan.specs.Dump.{signatures_of};
ghost use Rattle.bs_scan.specs.Moments.{moment, IsMoment};
ghost use Rattle.bs_preimage_recorded.specs.Search.{IsCutAt, SoughtWithin};
ghost use Rattle.bs_preimage_recorded.specs.declared.search.TheConstants.{MAX_ASKS};
ghost use Rattle.bs_loop.specs.declared.known.SearchExtent.TheVariants.{Whole};
ghost use Rattle.bs_loop.specs.KnownCand.{floor_of, known_by, reach_by, seen_at, seen_by, sight_by, IsKnown};
ghost use Rattle.bs_loop.specs.Recorded.{known_before, StandsIn};

use crate::before_present::known_before;
use crate::steps::lent;
use bs_bits::{Bits, NoMemory};
use bs_chip::Chip;
use bs_preimage_recorded::{Finder, Query, Recorded, Sought, first_recorded};
use bs_report::{Cand, ListEnd};
use bs_scan::{Dump, Moment};
use std::alloc::Global;

/// How far the recorded moments were searched for the predecessors of a step.
#[derive(Clone, Copy)]
pub enum SearchExtent {
    /// The step hits the first moment of all, or none is in one, unless its list ended with conflicts.
    Whole,
    /// As many states as the limit were asked about, each with the hash of the stored signature. No moment before this one is in a
    /// predecessor.
    Limited(Moment),
    /// It is not known whether the state of this moment is a predecessor: a solve about it spent its budget, or it cannot be asked about.
    /// No moment before it is in one.
    Unanswered(Moment),
}

/// What a search says: the first moment in a predecessor, where it is whole.
#[derive(Clone, Copy)]
pub struct SearchAnswer {
    pub first: Option<Moment>,
    pub reach: SearchExtent,
}

/// A candidate that is known, and what the search for it says.
#[derive(Drop)]
pub struct KnownCand {
    pub cand: Option<Cand>,
    pub answer: SearchAnswer,
}

/// Whether the first moment in a listed state is known.
#[derive(Clone, Copy)]
pub enum Sight {
    /// This one, or that there is none.
    Told(Option<Moment>),
    /// Not yet.
    Untold,
}

/// What a search says, from its parts.
fn answer_of(first: Option<Moment>, reach: SearchExtent) -> SearchAnswer
    ensures { result ≡ record { first = first; reach = reach } }
{
    SearchAnswer { first, reach }
}

/// The moment before a moment above cycle 0.
fn floor_of(at: Option<Moment>) -> Option<Moment>
    ensures { result ≡ floor_of at }
{
    match at {
        None => None,
        Some(at) => {
            if at.cycle == 0 {
                return None;
            }
            Some(Moment {
                run: at.run,
                cycle: at.cycle - 1,
            })
        }
    }
}

/// The search before a moment that is known to lead to the present, or among all.
fn seek<'a>(
    alloc: Global,
    chip: &mut Chip<'a>,
    finder: &mut Finder<'a, '_>,
    now: &Dump,
    at: Option<Moment>,
    stored: &Bits,
    b: u64,
) -> Result<Sought, NoMemory>
    requires finder { finder.old.recording ≡ chip.old.recording }
    requires dump { DumpFits chip.old.recording.circuit chip.old.recording.choice now.now }
    requires at { IfSome at (StandsIn chip.old.recording now.now) }
    requires stored { signatures_of now.now ≡ stored.now ∷ option_to_list now.now.older }
    requires conflicts { 1 ≤ b }
    ensures sought { IfOk result (SoughtWithin chip.old.recording now.now.state stored.now now.now.older (floor_of at)) }
    ensures cut { IfOk result (IsCutAt chip.old.recording now.now.state stored.now now.now.older b MAX_ASKS) }
    ensures chip { chip.new ≡ chip.old }
    ensures finder { finder.new.recording ≡ finder.old.recording }
{
    chip.is_recording();
    let query = Query {
        present: &now.state,
        stored,
        older: lent(&now.older),
        b,
    };
    let sought = first_recorded(alloc, chip, finder, &query, floor_of(at))?;
    Ok(sought)
}

/// The moment before the present, with what a search says.
fn floor_known(
    alloc: Global,
    chip: &mut Chip<'_>,
    at: Option<Moment>,
    depth: u8,
    answer: SearchAnswer,
) -> Result<KnownCand, NoMemory>
    requires at { IfSome at (IsMoment chip.old.recording.runs) }
    requires depth { depth ≡ depth_of chip.old.recording.choice }
    ensures known { IfOk result (λ known. known ≡ record { cand = known_before chip.old.recording at; answer = answer }) }
    ensures chip { chip.new ≡ chip.old }
{
    let cand = known_before(alloc, chip, at, depth)?;
    Ok(KnownCand { cand, answer })
}

/// What is known where a moment was found.
fn found_known(found: Recorded) -> KnownCand
    ensures { result ≡ record { cand = Some found.cand; answer = record { first = Some (moment found.run found.cycle); reach = Whole } } }
{
    let Recorded { run, cycle, cand } = found;
    let first = Some(Moment { run, cycle });
    let reach = SearchExtent::Whole;
    KnownCand {
        cand: Some(cand),
        answer: SearchAnswer { first, reach },
    }
}

/// What is known after a search.
fn known_of(
    alloc: Global,
    chip: &mut Chip<'_>,
    at: Option<Moment>,
    depth: u8,
    sought: Sought,
) -> Result<KnownCand, NoMemory>
    requires at { IfSome at (IsMoment chip.old.recording.runs) }
    requires depth { depth ≡ depth_of chip.old.recording.choice }
    ensures known { IfOk result (λ known. known ≡ known_by sought (floor_of at) (known_before chip.old.recording at)) }
    ensures chip { chip.new ≡ chip.old }
{
    let first = floor_of(at);
    match sought {
        Sought::Found(found) => Ok(found_known(found)),
        Sought::NoMoment => floor_known(
            alloc,
            chip,
            at,
            depth,
            answer_of(first, SearchExtent::Whole),
        ),
        Sought::Cut(m) => floor_known(
            alloc,
            chip,
            at,
            depth,
            answer_of(None, SearchExtent::Limited(m)),
        ),
        Sought::Unsaid(m) => {
            floor_known(
                alloc,
                chip,
                at,
                depth,
                answer_of(None, SearchExtent::Unanswered(m)),
            )
        }
    }
}

/// What is known of the states before a present.
pub fn known_for<'a>(
    alloc: Global,
    chip: &mut Chip<'a>,
    finder: &mut Finder<'a, '_>,
    now: &Dump,
    at: Option<Moment>,
    stored: &Bits,
    b: u64,
) -> Result<KnownCand, NoMemory>
    requires finder { finder.old.recording ≡ chip.old.recording }
    requires dump { DumpFits chip.old.recording.circuit chip.old.recording.choice now.now }
    requires at { IfSome at (StandsIn chip.old.recording now.now) }
    requires stored { signatures_of now.now ≡ stored.now ∷ option_to_list now.now.older }
    requires conflicts { 1 ≤ b }
    ensures known { IfOk result (λ known. IsKnown chip.old.recording now.now stored.now b at known.cand known.answer) }
    ensures chip { chip.new ≡ chip.old }
    ensures finder { finder.new.recording ≡ finder.old.recording }
{
    chip.is_recording();
    let sought = seek(alloc, chip, finder, now, at, stored, b)?;
    let known = known_of(alloc, chip, at, now.depth, sought)?;
    Ok(known)
}

/// How far the search came for a list: where nothing was asked, what leads to the present is all in the list.
pub fn reach_of(answer: Option<SearchAnswer>) -> SearchExtent
    ensures { result ≡ reach_by answer }
{
    match answer {
        None => SearchExtent::Whole,
        Some(answer) => answer.reach,
    }
}

/// What is seen of a list by a search that came so far.
fn seen_at(first: Option<Moment>, reach: SearchExtent) -> Sight
    ensures { result ≡ seen_at first reach }
{
    match reach {
        SearchExtent::Whole => Sight::Told(first),
        SearchExtent::Limited(_) => Sight::Untold,
        SearchExtent::Unanswered(_) => Sight::Untold,
    }
}

/// What is seen of a list that has ended so.
fn seen_by(answer: Option<SearchAnswer>, end: &ListEnd) -> Sight
    ensures { result ≡ seen_by answer end.now }
{
    match answer {
        None => Sight::Untold,
        Some(answer) => match end {
            ListEnd::Finished(_) => seen_at(answer.first, answer.reach),
            ListEnd::Candidates => seen_at(answer.first, answer.reach),
            ListEnd::Conflicts => Sight::Untold,
        },
    }
}

/// Whether the first moment in a state of a list that has ended is known. Where the present is at no moment the runs are looked
/// through, so that the chip keeps their states.
pub fn sight_of(at: Option<Moment>, answer: Option<SearchAnswer>, end: &ListEnd) -> Sight
    ensures { result ≡ sight_by at answer end.now }
{
    match at {
        None => Sight::Untold,
        Some(_) => seen_by(answer, end),
    }
}
