//! The values that other runs have, of each signal: all runs are moved in lock step.
ghost use Rattle.std.specs.Prelude.{◌≡◌, ◌<◌, ◌≤◌, ◌+◌, ◌*◌, [], length, IfOk, OnOk};
ghost use Rattle.bs_net.specs.Netlist.{circuit};
ghost use Rattle.bs_stim.specs.Runs.{inputs_of};
ghost use Rattle.bs_chip.specs.Lockstep.{ShowsCycle, wide_of};
ghost use Rattle.bs_inspect_near.specs.Known.{all_places, AreWhole};
ghost use Rattle.bs_inspect_near.specs.Shown.{AreEmpty, AreSets, IsMask, IsSet, ShowsWords};

use crate::masks::{mask_of, put_column, zeros};
use crate::novelty::MAX_VALUES;
use crate::run::{ChosenRun, Column};
use crate::values::add_values;
use bs_bits::{Bits, List, NoMemory};
use bs_chip::{Pass, step_to};
use bs_inspect_view::Signal;
use std::alloc::Global;

/// Puts the values that 64 lanes show of a signal to a set.
#[tactic(auto, using(crate::proofs::SetLemmas::set_done, crate::proofs::SetLemmas::set_passed, crate::proofs::SetLemmas::set_parts))]
fn extend(
    run: &ChosenRun<'_>,
    column: &Column<'_>,
    places: &[u32],
    values: &mut List<Bits>,
) -> Result<(), NoMemory>
    requires shows { ShowsWords (circuit run.now.net.now) (inputs_of run.now.runs.now) column.now.first column.now.words.now column.now.cycle }
    requires mask { IsMask (inputs_of run.now.runs.now) column.now.first run.now.number column.now.cycle column.now.mask }
    requires set { IsSet (circuit run.now.net.now) (inputs_of run.now.runs.now) run.now.number places.now column.now.cycle column.now.first values.old }
    ensures { OnOk result (IsSet (circuit run.now.net.now) (inputs_of run.now.runs.now) run.now.number places.now column.now.cycle (column.now.first + 64) values.new) }
{
    if values.len() > MAX_VALUES {
        return Ok(());
    }
    add_values(run, column, places, values)?;
    Ok(())
}

/// Puts the values that 64 lanes show to the sets of all signals.
#[tactic(auto, using(crate::proofs::SetLemmas::sets_begin, crate::proofs::SetLemmas::sets_done, crate::proofs::SetLemmas::signal_there))]
fn extend_all(
    run: &ChosenRun<'_>,
    column: &Column<'_>,
    signals: &[Signal<'_>],
    sets: &mut Vec<List<Bits>>,
) -> Result<(), NoMemory>
    requires shows { ShowsWords (circuit run.now.net.now) (inputs_of run.now.runs.now) column.now.first column.now.words.now column.now.cycle }
    requires mask { IsMask (inputs_of run.now.runs.now) column.now.first run.now.number column.now.cycle column.now.mask }
    requires sets { AreSets (circuit run.now.net.now) (inputs_of run.now.runs.now) run.now.number (all_places signals.now) column.now.cycle 0 column.now.first 0 sets.old.items }
    ensures { OnOk result (AreSets (circuit run.now.net.now) (inputs_of run.now.runs.now) run.now.number (all_places signals.now) column.now.cycle 0 (column.now.first + 64) 0 sets.new.items) }
{
    'signals: for i in 0..sets.len() {
        let places = signals[i].places.slice();
        extend(run, column, places, &mut sets[i])?;
    }
    Ok(())
}

/// Puts the values that one word of the planes shows to the sets.
#[tactic(auto, using(crate::proofs::SetLemmas::column_shows, crate::proofs::SetLemmas::planes_room, crate::proofs::SetLemmas::sets_first, crate::proofs::SetLemmas::sets_next))]
fn extend_word(
    run: &ChosenRun<'_>,
    cycle: u32,
    planes: &[u64],
    wide: usize,
    word: usize,
    words: &mut Vec<u64>,
    signals: &[Signal<'_>],
    sets: &mut Vec<List<Bits>>,
) -> Result<(), NoMemory>
    requires shows { ShowsCycle (circuit run.now.net.now) (inputs_of run.now.runs.now) planes.now cycle }
    requires wide { wide ≡ wide_of (length (inputs_of run.now.runs.now)) }
    requires few { wide ≤ 4 }
    requires word { word < wide }
    requires size { length words.old.items ≡ length (circuit run.now.net.now).flops }
    requires sets { AreSets (circuit run.now.net.now) (inputs_of run.now.runs.now) run.now.number (all_places signals.now) cycle 0 (word * 64) 0 sets.old.items }
    ensures size { length words.new.items ≡ length (circuit run.now.net.now).flops }
    ensures sets { OnOk result (AreSets (circuit run.now.net.now) (inputs_of run.now.runs.now) run.now.number (all_places signals.now) cycle 0 ((word + 1) * 64) 0 sets.new.items) }
{
    put_column(planes, wide, word, words);
    let first = word as u32 * 64;
    let mask = mask_of(run, first, cycle)?;
    let column = Column {
        words: words.as_slice(),
        mask,
        first,
        cycle,
    };
    extend_all(run, &column, signals, sets)?;
    Ok(())
}

/// Puts the values of a cycle to the sets.
fn extend_cycle(
    run: &ChosenRun<'_>,
    cycle: u32,
    planes: &[u64],
    wide: usize,
    words: &mut Vec<u64>,
    signals: &[Signal<'_>],
    sets: &mut Vec<List<Bits>>,
) -> Result<(), NoMemory>
    requires shows { ShowsCycle (circuit run.now.net.now) (inputs_of run.now.runs.now) planes.now cycle }
    requires wide { wide ≡ wide_of (length (inputs_of run.now.runs.now)) }
    requires few { wide ≤ 4 }
    requires room { length (inputs_of run.now.runs.now) ≤ 64 * wide }
    requires size { length words.old.items ≡ length (circuit run.now.net.now).flops }
    requires sets { AreSets (circuit run.now.net.now) (inputs_of run.now.runs.now) run.now.number (all_places signals.now) cycle 0 0 0 sets.old.items }
    ensures size { length words.new.items ≡ length (circuit run.now.net.now).flops }
    ensures sets { OnOk result (AreSets (circuit run.now.net.now) (inputs_of run.now.runs.now) run.now.number (all_places signals.now) (cycle + 1) 0 0 0 sets.new.items) }
{
    'words: for word in 0..wide {
        extend_word(run, cycle, planes, wide, word, words, signals, sets)?;
    }
    Ok(())
}

/// Puts the values of all cycles to the sets, from reset on.
fn extend_cycles(
    run: &ChosenRun<'_>,
    pass: &mut Pass<'_>,
    words: &mut Vec<u64>,
    signals: &[Signal<'_>],
    sets: &mut Vec<List<Bits>>,
) -> Result<(), NoMemory>
    requires circuit { pass.old.circuit ≡ circuit run.now.net.now }
    requires runs { pass.old.runs ≡ inputs_of run.now.runs.now }
    requires reset { pass.old.cycle ≡ 0 }
    requires size { length words.old.items ≡ length (circuit run.now.net.now).flops }
    requires sets { AreSets (circuit run.now.net.now) (inputs_of run.now.runs.now) run.now.number (all_places signals.now) 0 0 0 0 sets.old.items }
    ensures { OnOk result (AreWhole (circuit run.now.net.now) (inputs_of run.now.runs.now) run.now.number (all_places signals.now) sets.new.items) }
{
    let most = pass.longest();
    let wide = pass.wide();
    let _count = pass.count();
    'cycles: for cycle in 0..most + 1 {
        step_to(pass, cycle as usize);
        extend_cycle(run, cycle, pass.planes(), wide, words, signals, sets)?;
    }
    Ok(())
}

/// Puts so many empty sets to none.
fn push_empty(alloc: Global, count: usize, sets: &mut Vec<List<Bits>>) -> Result<(), NoMemory>
    requires { sets.old.items ≡ [] }
    ensures long { OnOk result (length sets.new.items ≡ count) }
    ensures empty { OnOk result (AreEmpty sets.new.items) }
{
    'sets: for _ in 0..count {
        sets.push(List::new(alloc))?;
    }
    Ok(())
}

/// Makes the sets, where there is none, and fills them by a pass over all runs.
fn fill(
    run: &ChosenRun<'_>,
    signals: &[Signal<'_>],
    sets: &mut Vec<List<Bits>>,
) -> Result<(), NoMemory>
    requires inputs { run.now.runs.now.width ≡ length (circuit run.now.net.now).inputs }
    requires none { sets.old.items ≡ [] }
    ensures { OnOk result (AreWhole (circuit run.now.net.now) (inputs_of run.now.runs.now) run.now.number (all_places signals.now) sets.new.items) }
{
    push_empty(run.alloc, signals.len(), sets)?;
    let mut words = zeros(run.alloc, run.net.width())?;
    let mut pass = Pass::new(run.alloc, run.net, run.runs)?;
    let done = extend_cycles(run, &mut pass, &mut words, signals, sets);
    drop(pass);
    drop(words);
    done
}

/// For each signal the values that other runs have, each once, or more than `MAX_VALUES` of them.
pub(crate) fn sets_of(
    run: &ChosenRun<'_>,
    signals: &[Signal<'_>],
) -> Result<Vec<List<Bits>>, NoMemory>
    requires inputs { run.now.runs.now.width ≡ length (circuit run.now.net.now).inputs }
    ensures { IfOk result (λ sets. AreWhole (circuit run.now.net.now) (inputs_of run.now.runs.now) run.now.number (all_places signals.now) sets.items) }
{
    let mut sets = Vec::new(run.alloc);
    match fill(run, signals, &mut sets) {
        Ok(()) => Ok(sets),
        Err(refused) => {
            drop(sets);
            Err(refused)
        }
    }
}
