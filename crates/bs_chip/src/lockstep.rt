//! All runs in lock step: the lanes at one cycle, and at the next.
ghost use Rattle.std.specs.Prelude.{◌≡◌, ◌<◌, ◌≤◌, ◌*◌, ◌+◌, length, min, IfOk, IsTrue, MatchOption, OnOk};
ghost use Rattle.bs_net.specs.Netlist.{circuit};
ghost use Rattle.bs_scan.specs.Crash.{Recording};
ghost use Rattle.bs_stim.specs.Runs.{inputs_of};
ghost use Rattle.std.specs.HashMap.{hash_map_len};
ghost use Rattle.bs_chip.specs.Index.{Keeps, NotesCycle, NotesCycles, NotesFirsts, price_of};
ghost use Rattle.bs_lanes.specs.Lanes.{is_wide};
ghost use Rattle.bs_scan.specs.Moments.{run_of};
ghost use Rattle.bs_chip.specs.Lockstep.{wide_of, IsLongest, IsLowest, IsSamePass, NoneAmong, ShowsCycle, ShowsPass};

use crate::hash_cycles::note_lanes;
use crate::inputs::put_inputs;
use crate::lanes::wide_for;
use crate::listed_run::lowest_run;
use crate::live::{Live, cycles_of, longest};
use bs_bits::NoMemory;
use bs_break::Bank;
use bs_lanes::Lanes;
use bs_net::Netlist;
use bs_scan::HasState;
use bs_stim::{MAX_CYCLES, Runs};
use std::alloc::Global;
use std::collections::HashMap;
use std::marker::Model;

/// All runs of a netlist, which stand at one cycle. Contracts see the machine, the runs and the cycle.
pub struct Pass<'a> {
    runs: &'a Runs,
    lanes: Lanes<'a>,
    live: Live<'a>,
    inputs: Vec<u64>,
    at: u32,
}

// One function for every place that drops one, so that the proof of each such place stays small.
impl<'a> Drop for Pass<'a> {
    fn drop(self) {
        let Pass {
            runs: _,
            lanes,
            live,
            inputs,
            at: _,
        } = self;
        drop(lanes);
        drop(live);
        drop(inputs);
    }
}

impl<'a> Model for Pass<'a> {
    ghost use Rattle.bs_net.specs.Netlist.{circuit};
    ghost use Rattle.bs_stim.specs.Runs.{inputs_of};
    ghost use Rattle.bs_chip.specs.Lockstep.{IsPass, Passing};

    ghost Value = { Passing };

    ghost view = { λ p. record { circuit = circuit p.lanes.net; runs = inputs_of p.runs.now; cycle = p.at } };

    ghost invariant = { λ p. IsPass p.runs.now p.lanes p.live p.inputs.items p.at };
}

/// So many words of zeros.
fn zero_words(alloc: Global, count: usize) -> Result<Vec<u64>, NoMemory>
    ensures { IfOk result (λ words. length words.items ≡ count) }
{
    let words = vec![in alloc; 0; count]?;
    Ok(words)
}

/// So many planes of zeros.
pub fn zero_planes(alloc: Global, count: usize, wide: usize) -> Result<Vec<u64>, NoMemory>
    ensures { IfOk result (λ words. length words.items ≡ count * wide) }
{
    match count.checked_mul(wide) {
        Some(words) => zero_words(alloc, words),
        None => Err(NoMemory),
    }
}

impl<'a> Pass<'a> {
    /// All runs at reset.
    pub fn new(alloc: Global, net: &'a Netlist, runs: &'a Runs) -> Result<Pass<'a>, NoMemory>
        requires { runs.now.width ≡ length (circuit net.now).inputs }
        ensures { IfOk result (λ p. p ≡ record { circuit = circuit net.now; runs = inputs_of runs.now; cycle = 0 }) }
    {
        let _count = runs.count();
        let wide = wide_for(runs);
        let inputs = zero_planes(alloc, runs.width(), wide)?;
        let live = Live::new(alloc, runs)?;
        let lanes = Lanes::new(alloc, net, wide)?;
        let _planes = lanes.flops();
        Ok(Pass {
            runs,
            lanes,
            live,
            inputs,
            at: 0,
        })
    }

    /// The number of cycles of the longest run.
    pub fn longest(&self) -> u32
        ensures all { IsLongest self.now.runs result }
        ensures few { result ≤ MAX_CYCLES }
    {
        longest(self.runs)
    }

    /// The number of runs.
    pub fn count(&self) -> u32
        ensures count { result ≡ length self.now.runs }
        ensures room { result ≤ 64 * wide_of (length self.now.runs) }
    {
        self.runs.count()
    }

    /// The number of words of a plane.
    pub fn wide(&self) -> usize
        ensures value { result ≡ wide_of (length self.now.runs) }
        ensures some { 1 ≤ result }
        ensures few { result ≤ 4 }
        ensures known { IsTrue (is_wide result) }
    {
        wide_for(self.runs)
    }

    /// How many cycles a run has. Runs are numbered from 1.
    pub fn cycles(&self, run: u32) -> u32
        requires from_one { 1 ≤ run }
        requires there { run ≤ length self.now.runs }
        ensures count { result ≡ length (run_of self.now.runs run) }
        ensures few { result ≤ MAX_CYCLES }
    {
        cycles_of(self.runs, run)
    }

    /// The cycle.
    pub fn cycle(&self) -> u32
        ensures { result ≡ self.now.cycle }
    {
        self.at
    }

    /// The planes of the flip-flops.
    pub fn planes(&self) -> &[u64]
        ensures { ShowsCycle self.now.circuit self.now.runs result.now self.now.cycle }
    {
        self.lanes.flops()
    }

    /// The lanes.
    pub fn lanes(&self) -> &Lanes<'a>
        ensures { ShowsPass self.now result.now }
    {
        let _planes = self.lanes.flops();
        &self.lanes
    }

    /// How many looks at a cycle cost about as much as noting one does, where a state has so many bits.
    pub(crate) fn price(&self, width: usize) -> u64
        ensures { result ≡ price_of width (length self.now.runs) }
    {
        (width as u64 / 8 + 2).saturating_mul(u64::from(self.runs.count()))
    }

    /// Notes the hashes of the states that planes show at a cycle.
    pub(crate) fn note(
        &self,
        first: &mut HashMap<u64, u32>,
        planes: &[u64],
        width: usize,
        cycle: u32,
    ) -> Result<(), NoMemory>
        requires few { cycle ≤ MAX_CYCLES }
        requires width { width ≡ length self.now.circuit.flops }
        requires shows { ShowsCycle self.now.circuit self.now.runs planes.now cycle }
        requires notes { NotesCycles self.now.circuit self.now.runs first.old cycle }
        requires firsts { NotesFirsts self.now.circuit self.now.runs first.old }
        ensures keeps { Keeps first.old first.new }
        ensures notes { OnOk result (NotesCycle self.now.circuit self.now.runs first.new cycle) }
        ensures firsts { NotesFirsts self.now.circuit self.now.runs first.new }
        ensures few { hash_map_len first.new ≤ hash_map_len first.old + length self.now.runs }
    {
        note_lanes(first, self.runs, planes, width, cycle)
    }

    /// Goes to a cycle that planes show.
    pub fn load(&mut self, planes: &[u64], cycle: u32)
        requires { ShowsCycle self.old.circuit self.old.runs planes.now cycle }
        ensures { self.new ≡ record { circuit = self.old.circuit; runs = self.old.runs; cycle = cycle } }
    {
        self.lanes.load(planes);
        self.at = cycle;
    }

    /// Goes to the next cycle.
    pub fn step(&mut self)
        requires { self.old.cycle < MAX_CYCLES }
        ensures { self.new ≡ record { circuit = self.old.circuit; runs = self.old.runs; cycle = self.old.cycle + 1 } }
    {
        self.live.go_to(self.at + 1);
        let wide = self.lanes.wide();
        put_inputs(self.runs, &self.live, self.at, wide, &mut self.inputs);
        self.lanes.step(self.inputs.as_slice());
        let _planes = self.lanes.flops();
        self.at += 1;
    }

    /// The lowest run that lasts to a cycle and is in a listed state there. The planes show the cycle.
    pub(crate) fn lowest_in<S: HasState>(
        &mut self,
        bank: &Bank<'_, S>,
        planes: &[u64],
        cycle: u32,
    ) -> Option<u32>
        requires width { bank.now.width ≡ length self.old.circuit.flops }
        requires shows { ShowsCycle self.old.circuit self.old.runs planes.now cycle }
        ensures lowest { MatchOption result (NoneAmong self.old.circuit self.old.runs bank.now.states cycle 0 (length self.old.runs)) (IsLowest self.old.circuit self.old.runs bank.now.states cycle 0) }
        ensures kept { self.new ≡ self.old }
    {
        self.live.go_to(cycle);
        lowest_run(&self.live, bank, planes, self.lanes.wide())
    }

    /// The lowest run that lasts to the cycle and is in a listed state.
    pub(crate) fn lowest<S: HasState>(&mut self, bank: &Bank<'_, S>) -> Option<u32>
        requires width { bank.now.width ≡ length self.old.circuit.flops }
        ensures lowest { MatchOption result (NoneAmong self.old.circuit self.old.runs bank.now.states self.old.cycle 0 (length self.old.runs)) (IsLowest self.old.circuit self.old.runs bank.now.states self.old.cycle 0) }
        ensures kept { self.new ≡ self.old }
    {
        self.live.go_to(self.at);
        lowest_run(&self.live, bank, self.lanes.flops(), self.lanes.wide())
    }
}

/// Goes to the cycle of a number, if the pass is at the one before.
pub fn step_to(pass: &mut Pass<'_>, number: usize)
    requires few { number ≤ MAX_CYCLES }
    requires noted { pass.old.cycle ≤ number }
    requires near { number ≤ pass.old.cycle + 1 }
    ensures same { IsSamePass pass.old pass.new }
    ensures there { pass.new.cycle ≡ number }
{
    if (pass.cycle() as usize) < number {
        pass.step();
    }
}
