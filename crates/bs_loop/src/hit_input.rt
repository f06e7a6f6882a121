//! The input recorded at a hit. Where the present is known in part, the state hit is listed with it, if it leads to what is known: the
//! trace then goes on as the run did.
ghost use Rattle.std.specs.Prelude.{◌≡◌, ◌+◌, ◌≤◌, length, map, if◌then◌else◌, IfOk, IfSome};
ghost use Rattle.bs_bits.specs.Bits.{bits_eq};
ghost use Rattle.bs_scan.specs.Seen.{is_shown};
ghost use Rattle.bs_scan.specs.Moments.{IsMoment, moment, run_of, state_at};
ghost use Rattle.bs_loop.specs.HitInput.{goes_to, own_at, own_input, put_input, put_own};

use crate::before_present::recorded_at;
use bs_bits::{Bits, List, NoMemory};
use bs_chip::{Chip, Hit};
use bs_preimage::{Listing, copied_before};
use bs_report::{Before, Cand};
use bs_scan::Seen;
use std::alloc::Global;

/// The number of cycles of a run.
fn cycles_of(alloc: Global, chip: &Chip<'_>, run: u32) -> Result<u32, NoMemory>
    requires from_one { 1 ≤ run }
    requires there { run ≤ length chip.now.recording.runs }
    ensures { IfOk result (λ cycles. cycles ≡ length (run_of chip.now.recording.runs run)) }
{
    let pass = chip.pass(alloc)?;
    Ok(pass.cycles(run))
}

/// Whether the state of a moment shows the present.
fn shows_at(
    alloc: Global,
    chip: &mut Chip<'_>,
    present: &Seen,
    run: u32,
    cycle: u32,
) -> Result<bool, NoMemory>
    requires { IsMoment chip.old.recording.runs (moment run cycle) }
    ensures shows { IfOk result (λ shows. shows ≡ is_shown present.now (state_at chip.old.recording.circuit (run_of chip.old.recording.runs run) cycle)) }
    ensures chip { chip.new ≡ chip.old }
{
    let dump = chip.dump_at(alloc, run, cycle)?;
    let shows = present.is_shown(alloc, &dump.state.bits)?;
    Ok(shows)
}

/// Whether the run of a moment goes on, to a state that shows the present.
fn goes_to(
    alloc: Global,
    chip: &mut Chip<'_>,
    present: &Seen,
    run: u32,
    cycle: u32,
) -> Result<bool, NoMemory>
    requires { IsMoment chip.old.recording.runs (moment run cycle) }
    ensures goes { IfOk result (λ goes. goes ≡ goes_to chip.old.recording present.now run cycle) }
    ensures chip { chip.new ≡ chip.old }
{
    let cycles = cycles_of(alloc, chip, run)?;
    if cycle < cycles {
        let shows = shows_at(alloc, chip, present, run, cycle + 1)?;
        return Ok(shows);
    }
    Ok(false)
}

/// The state of a moment and the input recorded there, where the present is known in part and the run goes on to a state that shows it.
fn own_at(
    alloc: Global,
    chip: &mut Chip<'_>,
    present: &Seen,
    run: u32,
    cycle: u32,
) -> Result<Option<Before>, NoMemory>
    requires { IsMoment chip.old.recording.runs (moment run cycle) }
    ensures own { IfOk result (λ own. own ≡ own_at chip.old.recording present.now run cycle) }
    ensures chip { chip.new ≡ chip.old }
{
    if present.is_whole() {
        return Ok(None);
    }
    let goes = goes_to(alloc, chip, present, run, cycle)?;
    if goes {
        let own = recorded_at(alloc, chip, run, cycle)?;
        return Ok(Some(own));
    }
    Ok(None)
}

/// The same of a hit.
fn own_input(
    alloc: Global,
    chip: &mut Chip<'_>,
    present: &Seen,
    hit: &Option<Hit>,
) -> Result<Option<Before>, NoMemory>
    requires { IfSome hit.now (λ hit. IsMoment chip.old.recording.runs (moment hit.run hit.cycle)) }
    ensures own { IfOk result (λ own. own ≡ own_input chip.old.recording present.now hit.now) }
    ensures chip { chip.new ≡ chip.old }
{
    match hit {
        None => Ok(None),
        Some(hit) => own_at(alloc, chip, present, hit.run, hit.cycle),
    }
}

/// The input that belongs to a state, if the candidate has this state, or else the candidate's own.
fn input_or<'a>(cand: &'a Cand, own: &'a Before) -> &'a Bits
    ensures { result.now ≡ (if bits_eq cand.now.state own.now.state then own.now.input else cand.now.input) }
{
    if cand.state.equals(&own.state) {
        &own.input
    } else {
        &cand.input
    }
}

/// A copy of a candidate, with the input that belongs to its state, if it has this state.
fn put_input(cand: &Cand, own: &Before) -> Result<Cand, NoMemory>
    ensures { IfOk result (λ put. put ≡ put_input own.now cand.now) }
{
    let state = cand.state.copy()?;
    let input = input_or(cand, own).copy()?;
    let before = copied_before(&cand.before)?;
    Ok(Cand {
        state,
        input,
        before,
    })
}

/// Copies of candidates, with that input.
fn put_inputs(alloc: Global, cands: &[Cand], own: &Before) -> Result<List<Cand>, NoMemory>
    ensures { IfOk result (λ list. list ≡ map (put_input own.now) cands.now) }
{
    let mut list = List::new(alloc);
    'cands: for cand in cands {
        list.push(put_input(cand, own)?)?;
    }
    Ok(list)
}

/// The list, with that input.
fn with_input(alloc: Global, listing: Listing, own: &Before) -> Result<Listing, NoMemory>
    ensures end { IfOk result (λ after. after.end ≡ listing.end) }
    ensures cands { IfOk result (λ after. after.cands ≡ map (put_input own.now) listing.cands) }
{
    let end = listing.end;
    let cands = put_inputs(alloc, listing.cands.slice(), own)?;
    Ok(Listing { cands, end })
}

/// The list, with that input, if there is one.
fn put_own(alloc: Global, listing: Listing, own: &Option<Before>) -> Result<Listing, NoMemory>
    ensures end { IfOk result (λ after. after.end ≡ listing.end) }
    ensures cands { IfOk result (λ after. after.cands ≡ put_own own.now listing.cands) }
{
    match own {
        None => Ok(listing),
        Some(own) => with_input(alloc, listing, own),
    }
}

/// The list, where the state hit has the recorded input, if that leads to a state that shows the present, which is known in part.
pub fn take_recorded(
    alloc: Global,
    chip: &mut Chip<'_>,
    present: &Seen,
    hit: &Option<Hit>,
    listing: Listing,
) -> Result<Listing, NoMemory>
    requires { IfSome hit.now (λ hit. IsMoment chip.old.recording.runs (moment hit.run hit.cycle)) }
    ensures end { IfOk result (λ after. after.end ≡ listing.end) }
    ensures cands { IfOk result (λ after. after.cands ≡ put_own (own_input chip.old.recording present.now hit.now) listing.cands) }
    ensures chip { chip.new ≡ chip.old }
{
    match own_input(alloc, chip, present, hit) {
        Ok(own) => put_own(alloc, listing, &own),
        Err(want) => Err(want),
    }
}
