//! The runs that last to a cycle, a bit a run.
ghost use Rattle.std.specs.Prelude.{◌≡◌, ◌<◌, ◌≤◌, ◌+◌, ◌*◌, length, min, nat_le, if◌then◌else◌, IfOk};
ghost use Rattle.bs_scan.specs.Moments.{run_of};
ghost use Rattle.bs_stim.specs.Packing.{IsClear};
ghost use Rattle.bs_stim.specs.Runs.{inputs_of};
ghost use Rattle.bs_chip.specs.Live.{AreLive, IsLive, IsLiveWord, LastTo};
ghost use Rattle.bs_chip.specs.Lockstep.{IsLongest};

use bs_bits::NoMemory;
use bs_lanes::put_bit;
use bs_stim::{MAX_CYCLES, Runs};
use std::alloc::Global;
use std::marker::Model;

/// The runs that last to a cycle. Contracts see all runs, and the cycle.
pub struct Live<'a> {
    runs: &'a Runs,
    words: Vec<u64>,
    cycle: u32,
    until: u32,
}

// One function for every place that drops one, so that the proof of each such place stays small.
impl<'a> Drop for Live<'a> {
    fn drop(self) {
        let Live {
            runs: _,
            words,
            cycle: _,
            until: _,
        } = self;
        drop(words);
    }
}

impl<'a> Model for Live<'a> {
    ghost use Rattle.bs_stim.specs.Runs.{inputs_of};
    ghost use Rattle.bs_chip.specs.Live.{Lasting, IsLive};

    ghost Value = { Lasting };

    ghost view = { λ live. record { runs = inputs_of live.runs.now; cycle = live.cycle } };

    ghost invariant = { λ live. IsLive (inputs_of live.runs.now) live.words.items live.cycle live.until };
}

/// How many cycles a run has.
pub fn cycles_of(runs: &Runs, run: u32) -> u32
    requires from_one { 1 ≤ run }
    requires there { run ≤ length runs.now.runs }
    ensures count { result ≡ length (run_of (inputs_of runs.now) run) }
    ensures few { result ≤ MAX_CYCLES }
{
    runs.cycles(run)
}

/// Writes the bit of each run: whether it lasts to a cycle.
fn mark(runs: &Runs, words: &mut Vec<u64>, cycle: u32)
    requires room { length runs.now.runs ≤ 64 * length words.old.items }
    requires clear { IsClear (length runs.now.runs) words.old.items }
    ensures size { length words.new.items ≡ length words.old.items }
    ensures live { AreLive (inputs_of runs.now) cycle words.new.items }
{
    'lanes: for lane in 0..runs.count() {
        let lasts = cycle <= cycles_of(runs, lane + 1);
        put_bit(
            words.as_mut_slice(),
            lane as usize / 64,
            lane as usize % 64,
            lasts,
        );
    }
}

/// An end, or the number of cycles of a run that lasts to a cycle and ends before.
fn sooner(end: u32, cycles: u32, cycle: u32) -> u32
    ensures { result ≡ (if nat_le cycle cycles then min end cycles else end) }
{
    if cycle <= cycles && cycles < end {
        cycles
    } else {
        end
    }
}

/// The number of cycles of the shortest run that lasts to a cycle.
fn next_end(runs: &Runs, cycle: u32) -> u32
    ensures { LastTo (inputs_of runs.now) cycle result }
{
    let mut end = MAX_CYCLES;
    'lanes: for lane in 0..runs.count() {
        end = sooner(end, cycles_of(runs, lane + 1), cycle);
    }
    end
}

/// The number of cycles of the longest run.
pub fn longest(runs: &Runs) -> u32
    ensures all { IsLongest (inputs_of runs.now) result }
    ensures few { result ≤ MAX_CYCLES }
{
    let mut most = 0;
    'lanes: for lane in 0..runs.count() {
        most = most.max(cycles_of(runs, lane + 1));
    }
    most
}

/// Makes the words of one cycle those of another, and gives the cycle up to which they stay right.
fn renew(runs: &Runs, words: &mut Vec<u64>, from: u32, until: u32, cycle: u32) -> u32
    requires { IsLive (inputs_of runs.now) words.old.items from until }
    ensures { IsLive (inputs_of runs.now) words.new.items cycle result }
{
    if from <= cycle && cycle <= until {
        return until;
    }
    mark(runs, words, cycle);
    next_end(runs, cycle)
}

/// Four words of zeros.
fn four_words(alloc: Global) -> Result<Vec<u64>, NoMemory>
    ensures size { IfOk result (λ words. length words.items ≡ 4) }
    ensures clear { IfOk result (λ words. IsClear 0 words.items) }
{
    let words = vec![in alloc; 0; 4]?;
    Ok(words)
}

impl<'a> Live<'a> {
    /// The runs that last to reset, which are all.
    pub fn new(alloc: Global, runs: &'a Runs) -> Result<Live<'a>, NoMemory>
        ensures { IfOk result (λ live. live ≡ record { runs = inputs_of runs.now; cycle = 0 }) }
    {
        let _count = runs.count();
        let mut words = four_words(alloc)?;
        mark(runs, &mut words, 0);
        let until = next_end(runs, 0);
        Ok(Live {
            runs,
            words,
            cycle: 0,
            until,
        })
    }

    /// Goes to a cycle.
    pub fn go_to(&mut self, cycle: u32)
        ensures { self.new ≡ record { runs = self.old.runs; cycle = cycle } }
    {
        self.until = renew(self.runs, &mut self.words, self.cycle, self.until, cycle);
        self.cycle = cycle;
    }

    /// The runs of a word that last to the cycle.
    pub fn word(&self, word: usize) -> u64
        requires { word < 4 }
        ensures { IsLiveWord self.now.runs self.now.cycle word result }
    {
        self.words[word]
    }
}
