//! Recorded runs.
ghost use Rattle.std.specs.Prelude.{◌≡◌, ◌<◌, ◌≤◌, length, false, Some, slice_get, slice_index_or, []};
ghost use Rattle.bs_stim.specs.declared.limits.TheConstants.{MAX_CYCLES};
ghost use Rattle.bs_stim.specs.Runs.{IsRecorded, IsStimulus, run_at};

use crate::inputs::Inputs;
use bs_bits::{Bits, List};
use std::marker::Model;

/// A run: its name, and the input of each cycle.
#[derive(Drop)]
pub struct Run {
    pub(crate) name: String,
    pub(crate) inputs: Inputs,
}

impl Model for Run {
    ghost use Rattle.bs_stim.specs.Runs.{Recorded};
    ghost use Rattle.std.specs.String.{string_bytes};
    ghost use Rattle.std.specs.Prelude.{length as length_of, ◌≡◌, ◌≤◌, All};
    ghost use Rattle.bs_stim.specs.declared.limits.TheConstants.{MAX_CYCLES};

    ghost Value = { Recorded };

    ghost view = { λ run. record { name = string_bytes run.name; inputs = run.inputs.rows } };

    ghost invariant = { λ run. (length_of run.inputs.rows ≤ MAX_CYCLES) × All (λ input. length_of input ≡ run.inputs.width) run.inputs.rows };
}

impl Run {
    /// The name.
    pub(crate) fn name(&self) -> &str
        ensures { result.now ≡ self.now.name }
    {
        self.name.as_str()
    }

    /// The number of cycles, at most `MAX_CYCLES`.
    pub(crate) fn cycles(&self) -> u32
        ensures count { result ≡ length self.now.inputs }
        ensures few { result ≤ MAX_CYCLES }
    {
        self.inputs.len() as u32
    }

    /// A bit of the input of a cycle.
    pub(crate) fn bit(&self, cycle: u32, place: usize) -> bool
        requires cycle { cycle < length self.now.inputs }
        requires place { place < length (slice_index_or self.now.inputs cycle []) }
        ensures { result ≡ slice_index_or (slice_index_or self.now.inputs cycle []) place false }
    {
        self.inputs.bit(cycle as usize, place)
    }

    /// Writes the input of a cycle over a list of as many bits.
    pub(crate) fn fill(&self, cycle: u32, into: &mut Bits)
        requires cycle { cycle < length self.now.inputs }
        requires width { length into.old ≡ length (slice_index_or self.now.inputs cycle []) }
        ensures { into.new ≡ slice_index_or self.now.inputs cycle [] }
    {
        self.inputs.fill(cycle as usize, into)
    }
}

/// The recorded runs of a stimulus: 1 to `MAX_RUNS` of them, numbered from 1, each with at most `MAX_CYCLES` cycles.
#[derive(Drop)]
pub struct Runs {
    width: usize,
    runs: List<Run>,
}

impl Model for Runs {
    ghost use Rattle.bs_stim.specs.Runs.{Stimulus, IsStimulus};

    ghost Value = { Stimulus };

    ghost view = { λ runs. record { width = runs.width; runs = runs.runs } };

    ghost invariant = { λ runs. IsStimulus (record { width = runs.width; runs = runs.runs }) };
}

impl Runs {
    /// The runs with their width.
    pub(crate) fn of(width: usize, runs: List<Run>) -> Runs
        requires { IsStimulus (record { width = width; runs = runs }) }
        ensures { result ≡ record { width = width; runs = runs } }
    {
        Runs { width, runs }
    }

    /// The run with a number.
    pub(crate) fn run(&self, run: u32) -> &Run
        requires from_one { 1 ≤ run }
        requires there { run ≤ length self.now.runs }
        ensures run { result.now ≡ run_at self.now run }
        ensures sound { IsRecorded self.now.width result.now }
    {
        self.runs.get(run as usize - 1)
    }

    /// The runs, in order.
    pub(crate) fn all(&self) -> &[Run]
        ensures { result.now ≡ self.now.runs }
    {
        self.runs.slice()
    }

    /// The number of runs, 1 to `MAX_RUNS`.
    pub fn count(&self) -> u32
        ensures count { result ≡ length self.now.runs }
        ensures sound { IsStimulus self.now }
    {
        self.runs.len() as u32
    }

    /// The number of bits of an input line.
    pub fn width(&self) -> usize
        ensures { result ≡ self.now.width }
    {
        self.width
    }

    /// The name of a run, 1 to `MAX_NAME` characters `!` to `~`.
    pub fn name(&self, run: u32) -> &str
        requires from_one { 1 ≤ run }
        requires there { run ≤ length self.now.runs }
        ensures { result.now ≡ (run_at self.now run).name }
    {
        self.run(run).name()
    }

    /// The number of cycles of a run, at most `MAX_CYCLES`.
    pub fn cycles(&self, run: u32) -> u32
        requires from_one { 1 ≤ run }
        requires there { run ≤ length self.now.runs }
        ensures count { result ≡ length (run_at self.now run).inputs }
        ensures few { result ≤ MAX_CYCLES }
    {
        self.run(run).cycles()
    }

    /// A bit of the input of a cycle of a run. Cycles and places count from 0.
    pub fn bit(&self, run: u32, cycle: u32, place: usize) -> bool
        requires from_one { 1 ≤ run }
        requires there { run ≤ length self.now.runs }
        requires recorded { cycle < length (run_at self.now run).inputs }
        requires place { place < self.now.width }
        ensures { result ≡ slice_index_or (slice_index_or (run_at self.now run).inputs cycle []) place false }
    {
        self.run(run).bit(cycle, place)
    }

    /// Writes the input of a cycle of a run over a list of as many bits. It takes no memory.
    pub fn fill(&self, run: u32, cycle: u32, into: &mut Bits)
        requires from_one { 1 ≤ run }
        requires there { run ≤ length self.now.runs }
        requires recorded { cycle < length (run_at self.now run).inputs }
        requires width { length into.old ≡ self.now.width }
        ensures lookup { slice_get (run_at self.now run).inputs cycle ≡ Some into.new }
        ensures value { into.new ≡ slice_index_or (run_at self.now run).inputs cycle [] }
        ensures width { length into.new ≡ self.now.width }
    {
        self.run(run).fill(cycle, into)
    }
}
