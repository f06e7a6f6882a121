//! The moment before the present, where the present is a moment of a run: a candidate that no search has to find.
ghost use Rattle.std.specs.Prelude.{◌≡◌, ◌+◌, IfOk, IfSome};
ghost use Rattle.bs_scan.specs.Choice.{depth_of};
ghost use Rattle.bs_scan.specs.Moments.{IsMoment, moment};
ghost use Rattle.bs_loop.specs.Recorded.{before_at, cand_at, known_before, recorded_at};

use bs_bits::NoMemory;
use bs_chip::Chip;
use bs_report::{Before, Cand};
use bs_scan::Moment;
use std::alloc::Global;

/// The state of a run at a cycle, and the input that was recorded there.
pub fn recorded_at(
    alloc: Global,
    chip: &mut Chip<'_>,
    run: u32,
    cycle: u32,
) -> Result<Before, NoMemory>
    requires { IsMoment chip.old.recording.runs (moment run (cycle + 1)) }
    ensures recorded { IfOk result (λ before. before ≡ recorded_at chip.old.recording run cycle) }
    ensures chip { chip.new ≡ chip.old }
{
    let input = chip.input_at(alloc, run, cycle)?;
    let dump = chip.dump_at(alloc, run, cycle)?;
    Ok(Before {
        state: dump.state.bits,
        input,
    })
}

/// The same of the cycle before, where the register keeps two signatures and there is such a cycle.
fn before_at(
    alloc: Global,
    chip: &mut Chip<'_>,
    run: u32,
    cycle: u32,
    depth: u8,
) -> Result<Option<Before>, NoMemory>
    requires moment { IsMoment chip.old.recording.runs (moment run (cycle + 1)) }
    requires depth { depth ≡ depth_of chip.old.recording.choice }
    ensures before { IfOk result (λ before. before ≡ before_at chip.old.recording run cycle) }
    ensures chip { chip.new ≡ chip.old }
{
    if depth == 1 || cycle == 0 {
        return Ok(None);
    }
    let before = recorded_at(alloc, chip, run, cycle - 1)?;
    Ok(Some(before))
}

/// The state of a run at a cycle with its recorded input, as a candidate for the next cycle.
fn cand_at(
    alloc: Global,
    chip: &mut Chip<'_>,
    run: u32,
    cycle: u32,
    depth: u8,
) -> Result<Cand, NoMemory>
    requires moment { IsMoment chip.old.recording.runs (moment run (cycle + 1)) }
    requires depth { depth ≡ depth_of chip.old.recording.choice }
    ensures cand { IfOk result (λ cand. cand ≡ cand_at chip.old.recording run cycle) }
    ensures chip { chip.new ≡ chip.old }
{
    let before = before_at(alloc, chip, run, cycle, depth)?;
    let here = recorded_at(alloc, chip, run, cycle)?;
    Ok(Cand {
        state: here.state,
        input: here.input,
        before,
    })
}

/// The moment before the present as a candidate, where the present is a moment of a run above cycle 0.
pub fn known_before(
    alloc: Global,
    chip: &mut Chip<'_>,
    at: Option<Moment>,
    depth: u8,
) -> Result<Option<Cand>, NoMemory>
    requires at { IfSome at (IsMoment chip.old.recording.runs) }
    requires depth { depth ≡ depth_of chip.old.recording.choice }
    ensures known { IfOk result (λ known. known ≡ known_before chip.old.recording at) }
    ensures chip { chip.new ≡ chip.old }
{
    match at {
        None => Ok(None),
        Some(at) => {
            if at.cycle == 0 {
                return Ok(None);
            }
            let cand = cand_at(alloc, chip, at.run, at.cycle - 1, depth)?;
            Ok(Some(cand))
        }
    }
}
