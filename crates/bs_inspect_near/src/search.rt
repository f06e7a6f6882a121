//! The recorded moments that are nearest to some states: all runs are moved in lock step, once.
ghost use Rattle.std.specs.Prelude.{◌≡◌, ◌<◌, ◌≤◌, ◌+◌, ◌*◌, length, replicate, All, None, IfOk, OnOk};
ghost use Rattle.bs_net.specs.Netlist.{circuit};
ghost use Rattle.bs_net.specs.declared.limits.TheConstants.{MAX_FLOPS};
ghost use Rattle.bs_stim.specs.Runs.{inputs_of};
ghost use Rattle.bs_chip.specs.Lockstep.{ShowsCycle, wide_of};
ghost use Rattle.bs_inspect_near.specs.Nearest.{AreNearest};
ghost use Rattle.bs_inspect_near.specs.Visited.{AreBest, AreFound, IsBest};

use crate::distances::count_word;
use crate::lanes::with_lanes;
use bs_bits::{List, NoMemory};
use bs_chip::{Pass, step_to};
use bs_net::Netlist;
use bs_scan::Seen;
use bs_stim::Runs;
use std::alloc::Global;

/// A moment: a run from 1 and a cycle from 0; and in how many known bits its state differs from what is seen of another.
#[derive(Clone, Copy)]
pub struct Near {
    pub run: u32,
    pub cycle: u32,
    pub count: u32,
}

/// The nearest, with the lanes of one word of the planes.
#[tactic(auto, using(crate::proofs::SearchLemmas::counts_shown, crate::proofs::SearchLemmas::planes_room, crate::proofs::SearchLemmas::best_first, crate::proofs::SearchLemmas::best_next))]
fn with_word(
    alloc: Global,
    net: &Netlist,
    runs: &Runs,
    seen: &Seen,
    cycle: u32,
    planes: &[u64],
    wide: usize,
    word: usize,
    best: Option<Near>,
) -> Result<Option<Near>, NoMemory>
    requires shows { ShowsCycle (circuit net.now) (inputs_of runs.now) planes.now cycle }
    requires wide { wide ≡ wide_of (length (inputs_of runs.now)) }
    requires narrow { wide ≤ 4 }
    requires word { word < wide }
    requires size { length seen.now.bits ≡ length (circuit net.now).flops }
    requires few { length seen.now.bits ≤ MAX_FLOPS }
    requires best { IsBest (circuit net.now) (inputs_of runs.now) seen.now cycle (word * 64) best }
    ensures { IfOk result (λ best. IsBest (circuit net.now) (inputs_of runs.now) seen.now cycle ((word + 1) * 64) best) }
{
    let digits = count_word(alloc, planes, wide, word, seen)?;
    let first = word as u32 * 64;
    let new = with_lanes(net, runs, seen, first, cycle, digits.as_slice(), best);
    Ok(new)
}

/// The nearest, with all runs at a cycle.
#[tactic(auto, using(crate::proofs::SearchLemmas::best_zero, crate::proofs::SearchLemmas::cycle_done))]
fn with_cycle(
    alloc: Global,
    net: &Netlist,
    runs: &Runs,
    seen: &Seen,
    cycle: u32,
    planes: &[u64],
    wide: usize,
    old: Option<Near>,
) -> Result<Option<Near>, NoMemory>
    requires shows { ShowsCycle (circuit net.now) (inputs_of runs.now) planes.now cycle }
    requires wide { wide ≡ wide_of (length (inputs_of runs.now)) }
    requires narrow { wide ≤ 4 }
    requires room { length (inputs_of runs.now) ≤ 64 * wide }
    requires size { length seen.now.bits ≡ length (circuit net.now).flops }
    requires few { length seen.now.bits ≤ MAX_FLOPS }
    requires best { IsBest (circuit net.now) (inputs_of runs.now) seen.now cycle 0 old }
    ensures { IfOk result (λ best. IsBest (circuit net.now) (inputs_of runs.now) seen.now (cycle + 1) 0 best) }
{
    let mut best = old;
    'words: for word in 0..wide {
        best = with_word(alloc, net, runs, seen, cycle, planes, wide, word, best)?;
    }
    Ok(best)
}

/// The nearest to each of some states, with all runs at a cycle.
#[tactic(auto, using(crate::proofs::EachLemmas::each_begin, crate::proofs::EachLemmas::each_room, crate::proofs::EachLemmas::each_due, crate::proofs::EachLemmas::each_more, crate::proofs::EachLemmas::each_all, crate::proofs::EachLemmas::state_wide, crate::proofs::EachLemmas::state_few))]
fn with_states(
    alloc: Global,
    net: &Netlist,
    runs: &Runs,
    states: &List<Seen>,
    cycle: u32,
    planes: &[u64],
    wide: usize,
    bests: &mut Vec<Option<Near>>,
) -> Result<(), NoMemory>
    requires shows { ShowsCycle (circuit net.now) (inputs_of runs.now) planes.now cycle }
    requires wide { wide ≡ wide_of (length (inputs_of runs.now)) }
    requires narrow { wide ≤ 4 }
    requires room { length (inputs_of runs.now) ≤ 64 * wide }
    requires sizes { All (λ s. length s.bits ≡ length (circuit net.now).flops) states.now }
    requires few { length (circuit net.now).flops ≤ MAX_FLOPS }
    requires bests { AreBest (circuit net.now) (inputs_of runs.now) states.now cycle bests.old.items }
    ensures { OnOk result (AreBest (circuit net.now) (inputs_of runs.now) states.now (cycle + 1) bests.new.items) }
{
    'states: for i in 0..states.len() {
        let old = bests[i];
        let best = with_cycle(alloc, net, runs, states.get(i), cycle, planes, wide, old)?;
        bests[i] = best;
    }
    Ok(())
}

/// No moment in each of so many places.
fn no_moments(alloc: Global, count: usize) -> Result<Vec<Option<Near>>, NoMemory>
    ensures { IfOk result (λ bests. bests.items ≡ replicate count None) }
{
    let bests = vec![in alloc; None; count]?;
    Ok(bests)
}

/// The nearest to each of some states, by a pass that stands at reset.
#[tactic(auto, using(crate::proofs::EachLemmas::bests_none, crate::proofs::EachLemmas::found_all, crate::proofs::SearchLemmas::pass_shows, crate::proofs::SearchLemmas::pass_room, crate::proofs::SearchLemmas::pass_wide))]
fn by_pass(
    alloc: Global,
    net: &Netlist,
    runs: &Runs,
    states: &List<Seen>,
    pass: &mut Pass<'_>,
) -> Result<Vec<Option<Near>>, NoMemory>
    requires circuit { pass.old.circuit ≡ circuit net.now }
    requires runs { pass.old.runs ≡ inputs_of runs.now }
    requires reset { pass.old.cycle ≡ 0 }
    requires sizes { All (λ s. length s.bits ≡ length (circuit net.now).flops) states.now }
    requires few { length (circuit net.now).flops ≤ MAX_FLOPS }
    ensures { IfOk result (λ bests. AreFound (circuit net.now) (inputs_of runs.now) states.now bests.items) }
{
    let most = pass.longest();
    let wide = pass.wide();
    let _count = pass.count();
    let _runs = runs.count();
    let mut bests = no_moments(alloc, states.len())?;
    'cycles: for cycle in 0..most + 1 {
        step_to(pass, cycle as usize);
        with_states(
            alloc,
            net,
            runs,
            states,
            cycle,
            pass.planes(),
            wide,
            &mut bests,
        )?;
    }
    Ok(bests)
}

/// The moments that were found.
#[tactic(auto, using(crate::proofs::EachLemmas::nears_begin, crate::proofs::EachLemmas::found_some, crate::proofs::EachLemmas::nears_more, crate::proofs::EachLemmas::nears_all))]
fn all_found(
    alloc: Global,
    _net: &Netlist,
    _runs: &Runs,
    _states: &List<Seen>,
    bests: &[Option<Near>],
) -> Result<Vec<Near>, NoMemory>
    requires { AreFound (circuit _net.now) (inputs_of _runs.now) _states.now bests.now }
    ensures { IfOk result (λ nears. AreNearest (circuit _net.now) (inputs_of _runs.now) _states.now nears.items) }
{
    let mut nears = Vec::new(alloc);
    'places: for i in 0..bests.len() {
        let best = bests[i];
        nears.push(best.unwrap())?;
    }
    Ok(nears)
}

/// For each of some states, of which some bits may not be known, the recorded moment whose state differs from it in the fewest known
/// bits: that of the lowest run, and there the earliest. All runs are moved in lock step, once, and the bits of 64 of them are counted together.
#[tactic(auto, using(crate::proofs::EachLemmas::flops_few, crate::proofs::EachLemmas::found_slice))]
pub fn nearest_each(
    alloc: Global,
    net: &Netlist,
    runs: &Runs,
    states: &List<Seen>,
) -> Result<Vec<Near>, NoMemory>
    requires inputs { runs.now.width ≡ length (circuit net.now).inputs }
    requires sizes { All (λ s. length s.bits ≡ length (circuit net.now).flops) states.now }
    ensures { IfOk result (λ nears. AreNearest (circuit net.now) (inputs_of runs.now) states.now nears.items) }
{
    let _raw = net.raw();
    let mut pass = Pass::new(alloc, net, runs)?;
    let bests = by_pass(alloc, net, runs, states, &mut pass)?;
    let nears = all_found(alloc, net, runs, states, bests.as_slice())?;
    Ok(nears)
}
