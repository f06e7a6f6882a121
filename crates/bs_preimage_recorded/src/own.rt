//! The way of a run itself: where the present is known in part and the run of a moment goes on to it, the moment's state is a
//! predecessor under the recorded input. No search has to find so.
ghost use Rattle.std.specs.Prelude.{◌≡◌, ◌+◌, ◌≤◌, length, option_map, None, IfOk, IfSome};
ghost use Rattle.bs_scan.specs.Crash.{dump_at};
ghost use Rattle.bs_scan.specs.Moments.{IsMoment, moment, run_of};
ghost use Rattle.bs_preimage_recorded.specs.Own.{held_is, is_asked, own_cand, IsOwn};

use crate::finder::Query;
use bs_bits::{Bits, NoMemory};
use bs_chip::Chip;
use bs_report::Cand;
use bs_scan::Dump;
use std::alloc::Global;

/// The number of cycles of a run.
fn cycles_of(alloc: Global, chip: &Chip<'_>, run: u32) -> Result<u32, NoMemory>
    requires from_one { 1 ≤ run }
    requires there { run ≤ length chip.now.recording.runs }
    ensures { IfOk result (λ cycles. cycles ≡ length (run_of chip.now.recording.runs run)) }
{
    let pass = chip.pass(alloc)?;
    Ok(pass.cycles(run))
}

/// Whether a register holds this signature.
fn holds(held: &Option<Bits>, stored: &Bits) -> bool
    ensures { result ≡ held_is held.now stored.now }
{
    match held {
        None => false,
        Some(held) => held.equals(stored),
    }
}

/// Whether a dump is one that is asked about: it shows the present, and its register holds the stored signature and keeps no other.
fn is_asked(alloc: Global, dump: &Dump, query: &Query<'_>) -> Result<bool, NoMemory>
    ensures { IfOk result (λ asked. asked ≡ is_asked dump.now query.now.present.now query.now.stored.now) }
{
    let held = holds(&dump.stored, query.stored);
    let shows = query.present.is_shown(alloc, &dump.state.bits)?;
    let alone = dump.depth == 1 && held;
    Ok(alone && shows)
}

/// Whether the dump of a moment is one.
fn is_asked_at(
    alloc: Global,
    chip: &mut Chip<'_>,
    query: &Query<'_>,
    run: u32,
    cycle: u32,
) -> Result<bool, NoMemory>
    requires { IsMoment chip.old.recording.runs (moment run cycle) }
    ensures asked { IfOk result (λ asked. asked ≡ is_asked (dump_at chip.old.recording (moment run cycle)) query.now.present.now query.now.stored.now) }
    ensures chip { chip.new ≡ chip.old }
{
    let dump = chip.dump_at(alloc, run, cycle)?;
    let asked = is_asked(alloc, &dump, query)?;
    Ok(asked)
}

/// The state of a run at a cycle and the input recorded there, as a candidate.
fn own_cand(alloc: Global, chip: &mut Chip<'_>, run: u32, cycle: u32) -> Result<Cand, NoMemory>
    requires { IsMoment chip.old.recording.runs (moment run (cycle + 1)) }
    ensures cand { IfOk result (λ cand. cand ≡ own_cand chip.old.recording run cycle) }
    ensures chip { chip.new ≡ chip.old }
{
    let input = chip.input_at(alloc, run, cycle)?;
    let dump = chip.dump_at(alloc, run, cycle)?;
    Ok(Cand {
        state: dump.state.bits,
        input,
        before: None,
    })
}

/// The state of a moment and the input recorded there, where the run's next dump is one that is asked about.
fn way_on(
    alloc: Global,
    chip: &mut Chip<'_>,
    query: &Query<'_>,
    run: u32,
    cycle: u32,
) -> Result<Option<Cand>, NoMemory>
    requires { IsMoment chip.old.recording.runs (moment run cycle) }
    ensures own { IfOk result (λ own. IfSome own (IsOwn chip.old.recording query.now.present.now query.now.stored.now run cycle)) }
    ensures chip { chip.new ≡ chip.old }
{
    let cycles = cycles_of(alloc, chip, run)?;
    if cycle < cycles {
        let asked = is_asked_at(alloc, chip, query, run, cycle + 1)?;
        if asked {
            let cand = own_cand(alloc, chip, run, cycle)?;
            return Ok(Some(cand));
        }
    }
    Ok(None)
}

/// The state of a moment and the input recorded there, where the present is known in part and the run goes on to it. Where all is known
/// of the present, or an older signature is asked for, there is none.
pub(crate) fn own_way(
    alloc: Global,
    chip: &mut Chip<'_>,
    query: &Query<'_>,
    run: u32,
    cycle: u32,
) -> Result<Option<Cand>, NoMemory>
    requires { IsMoment chip.old.recording.runs (moment run cycle) }
    ensures own { IfOk result (λ own. IfSome own (IsOwn chip.old.recording query.now.present.now query.now.stored.now run cycle)) }
    ensures none { IfOk result (λ own. IfSome own (λ _. option_map (λ bits. bits.now) query.now.older ≡ None)) }
    ensures chip { chip.new ≡ chip.old }
{
    if query.present.is_whole() {
        return Ok(None);
    }
    match query.older {
        Some(_) => Ok(None),
        None => way_on(alloc, chip, query, run, cycle),
    }
}
