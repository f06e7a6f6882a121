//! The state of a run at a moment.
ghost use Rattle.std.specs.Prelude.{◌≡◌, ◌<◌, ◌≤◌, ◌-◌, ◌*◌, length, IfOk};
ghost use Rattle.bs_net.specs.Netlist.{circuit};
ghost use Rattle.bs_scan.specs.Moments.{IsMoment, state_of};
ghost use Rattle.bs_stim.specs.Runs.{inputs_of};
ghost use Rattle.bs_stim.specs.declared.limits.TheConstants.{MAX_CYCLES};
ghost use Rattle.bs_inspect_near.specs.Nearest.{moment_of};

use crate::search::Near;
use bs_bits::{Bits, NoMemory};
use bs_chip::Pass;
use bs_lanes::lane_bits;
use bs_net::Netlist;
use bs_stim::Runs;
use std::alloc::Global;

/// Brings a pass from reset to a cycle.
fn go_to(pass: &mut Pass<'_>, cycle: u32)
    requires reset { pass.old.cycle ≡ 0 }
    requires few { cycle ≤ MAX_CYCLES }
    ensures circuit { pass.new.circuit ≡ pass.old.circuit }
    ensures runs { pass.new.runs ≡ pass.old.runs }
    ensures there { pass.new.cycle ≡ cycle }
{
    'cycles: for _ in 0..cycle {
        pass.step();
    }
}

/// The state of a run, where all runs stand.
#[tactic(auto, using(crate::proofs::MomentLemmas::state_is, crate::proofs::MomentLemmas::state_room, crate::proofs::MomentLemmas::state_lane))]
fn state_in(
    alloc: Global,
    net: &Netlist,
    runs: &Runs,
    pass: &Pass<'_>,
    near: Near,
) -> Result<Bits, NoMemory>
    requires circuit { pass.now.circuit ≡ circuit net.now }
    requires runs { pass.now.runs ≡ inputs_of runs.now }
    requires there { pass.now.cycle ≡ near.cycle }
    requires recorded { IsMoment (inputs_of runs.now) (moment_of near) }
    ensures { IfOk result (λ state. state ≡ state_of (circuit net.now) (inputs_of runs.now) (moment_of near)) }
{
    let _runs = runs;
    let _count = pass.count();
    let wide = pass.wide();
    let state = lane_bits(
        alloc,
        pass.planes(),
        wide,
        net.width(),
        near.run as usize - 1,
    )?;
    Ok(state)
}

/// The state of a run at a moment.
#[tactic(auto, using(crate::proofs::MomentLemmas::run_low, crate::proofs::MomentLemmas::run_there, crate::proofs::MomentLemmas::cycle_few))]
pub(crate) fn recorded_state(
    alloc: Global,
    net: &Netlist,
    runs: &Runs,
    near: Near,
) -> Result<Bits, NoMemory>
    requires inputs { runs.now.width ≡ length (circuit net.now).inputs }
    requires recorded { IsMoment (inputs_of runs.now) (moment_of near) }
    ensures { IfOk result (λ state. state ≡ state_of (circuit net.now) (inputs_of runs.now) (moment_of near)) }
{
    let _count = runs.count();
    let _cycles = runs.cycles(near.run);
    let mut pass = Pass::new(alloc, net, runs)?;
    go_to(&mut pass, near.cycle);
    let state = state_in(alloc, net, runs, &pass, near)?;
    Ok(state)
}
