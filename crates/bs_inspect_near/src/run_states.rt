//! The states of one run, from reset to its end.
ghost use Rattle.std.specs.Prelude.{◌≡◌, ◌<◌, ◌≤◌, ◌+◌, ◌-◌, ◌*◌, [], length, IfOk, OnOk};
ghost use Rattle.bs_net.specs.Netlist.{circuit};
ghost use Rattle.bs_scan.specs.Moments.{run_of, state_at};
ghost use Rattle.bs_stim.specs.Runs.{inputs_of};
ghost use Rattle.bs_inspect_near.specs.Known.{AreOwn};

use crate::run::ChosenRun;
use bs_bits::{Bits, List, NoMemory};
use bs_chip::{Pass, step_to};
use bs_lanes::lane_bits;
use std::alloc::Global;

/// The state of the run with a number, where all runs stand.
#[tactic(auto, using(crate::proofs::OwnLemmas::state_is, crate::proofs::OwnLemmas::state_room, crate::proofs::OwnLemmas::state_lane))]
fn state_of(run: &ChosenRun<'_>, pass: &Pass<'_>) -> Result<Bits, NoMemory>
    requires circuit { pass.now.circuit ≡ circuit run.now.net.now }
    requires runs { pass.now.runs ≡ inputs_of run.now.runs.now }
    requires from_one { 1 ≤ run.now.number }
    requires there { run.now.number ≤ length (inputs_of run.now.runs.now) }
    requires lasts { pass.now.cycle ≤ length (run_of (inputs_of run.now.runs.now) run.now.number) }
    ensures { IfOk result (λ state. state ≡ state_at (circuit run.now.net.now) (run_of (inputs_of run.now.runs.now) run.now.number) pass.now.cycle) }
{
    let _count = pass.count();
    let wide = pass.wide();
    let state = lane_bits(
        run.alloc,
        pass.planes(),
        wide,
        run.net.width(),
        run.number as usize - 1,
    )?;
    Ok(state)
}

/// Puts the states of the run with a number to none, by a pass that stands at reset.
fn push_states(
    run: &ChosenRun<'_>,
    pass: &mut Pass<'_>,
    own: &mut List<Bits>,
) -> Result<(), NoMemory>
    requires circuit { pass.old.circuit ≡ circuit run.now.net.now }
    requires runs { pass.old.runs ≡ inputs_of run.now.runs.now }
    requires reset { pass.old.cycle ≡ 0 }
    requires from_one { 1 ≤ run.now.number }
    requires there { run.now.number ≤ length (inputs_of run.now.runs.now) }
    requires none { own.old ≡ [] }
    ensures { OnOk result (AreOwn (circuit run.now.net.now) (inputs_of run.now.runs.now) run.now.number own.new) }
{
    let cycles = pass.cycles(run.number);
    'cycles: for cycle in 0..cycles + 1 {
        step_to(pass, cycle as usize);
        let state = state_of(run, pass)?;
        own.push(state)?;
    }
    Ok(())
}

/// The states of the run with a number, by a pass that stands at reset.
fn own_by(run: &ChosenRun<'_>, pass: &mut Pass<'_>) -> Result<List<Bits>, NoMemory>
    requires circuit { pass.old.circuit ≡ circuit run.now.net.now }
    requires runs { pass.old.runs ≡ inputs_of run.now.runs.now }
    requires reset { pass.old.cycle ≡ 0 }
    requires from_one { 1 ≤ run.now.number }
    requires there { run.now.number ≤ length (inputs_of run.now.runs.now) }
    ensures { IfOk result (λ own. AreOwn (circuit run.now.net.now) (inputs_of run.now.runs.now) run.now.number own) }
{
    let mut own = List::new(run.alloc);
    match push_states(run, pass, &mut own) {
        Ok(()) => Ok(own),
        Err(refused) => {
            drop(own);
            Err(refused)
        }
    }
}

/// The states of the run with a number.
pub(crate) fn own_states(run: &ChosenRun<'_>) -> Result<List<Bits>, NoMemory>
    requires inputs { run.now.runs.now.width ≡ length (circuit run.now.net.now).inputs }
    requires from_one { 1 ≤ run.now.number }
    requires there { run.now.number ≤ length (inputs_of run.now.runs.now) }
    ensures { IfOk result (λ own. AreOwn (circuit run.now.net.now) (inputs_of run.now.runs.now) run.now.number own) }
{
    let mut pass = Pass::new(run.alloc, run.net, run.runs)?;
    let own = own_by(run, &mut pass);
    drop(pass);
    own
}
