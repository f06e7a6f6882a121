//! A simulator that recorded runs drive.
ghost use Rattle.std.specs.Prelude.{◌≡◌, ◌≤◌, ◌+◌, ◌-◌, ◌*◌, [], length, slice_index_or, IfOk};
ghost use Rattle.bs_net.specs.Circuit.{reset_state};
ghost use Rattle.bs_net.specs.Netlist.{circuit};
ghost use Rattle.bs_stim.specs.declared.limits.TheConstants.{MAX_CYCLES};
ghost use Rattle.bs_stim.specs.Runs.{inputs_of};
ghost use Rattle.bs_scan.specs.Crash.{IsRecording, recording_of};
ghost use Rattle.bs_scan.specs.Moments.{IsMoment, moment, run_of, state_of};
ghost use Rattle.bs_lanes.specs.Planes.{lane};
ghost use Rattle.bs_chip.specs.Lockstep.{wide_of};
ghost use Rattle.bs_chip.specs.Replay.{Played, in_state};

use crate::lanes::{read_lane, wide_for};
use crate::live::cycles_of;
use bs_bits::{Bits, NoMemory};
use bs_net::Netlist;
use bs_scan::Moment;
use bs_sim::Sim;
use bs_stim::Runs;
use std::alloc::Global;
use std::marker::Model;

/// A netlist in a state, and the runs whose inputs drive it. Contracts see the machine, the inputs of the runs and the
/// state.
pub struct Player<'a> {
    net: &'a Netlist,
    runs: &'a Runs,
    sim: Sim<'a>,
    input: Bits,
    entered: Bits,
}

// One function for every place that drops one, so that the proof of each such place stays small.
impl<'a> Drop for Player<'a> {
    fn drop(self) {
        let Player {
            net: _,
            runs: _,
            sim,
            input,
            entered,
        } = self;
        drop(sim);
        drop(input);
        drop(entered);
    }
}

impl<'a> Model for Player<'a> {
    ghost use Rattle.std.specs.Prelude.{◌≡◌, length};
    ghost use Rattle.bs_net.specs.Netlist.{circuit};
    ghost use Rattle.bs_stim.specs.Runs.{inputs_of};
    ghost use Rattle.bs_chip.specs.Replay.{Played};

    ghost Value = { Played };

    ghost view = { λ p. record { circuit = circuit p.net.now; runs = inputs_of p.runs.now; state = p.sim.state } };

    ghost invariant = { λ p. (p.sim.net ≡ p.net.now) × (p.runs.now.width ≡ length (circuit p.net.now).inputs) × (length p.input ≡ p.runs.now.width) × (length p.entered ≡ length (circuit p.net.now).flops) };
}

/// As many zeros.
fn zeros(alloc: Global, count: usize) -> Result<Bits, NoMemory>
    ensures { IfOk result (λ bits. length bits ≡ count) }
{
    let mut bits = Bits::new(alloc);
    'zeros: for _ in 0..count {
        bits.push(false)?;
    }
    Ok(bits)
}

impl<'a> Player<'a> {
    /// A netlist at reset, and runs of its width.
    pub fn new(alloc: Global, net: &'a Netlist, runs: &'a Runs) -> Result<Player<'a>, NoMemory>
        requires { runs.now.width ≡ length (circuit net.now).inputs }
        ensures { IfOk result (λ p. p ≡ record { circuit = circuit net.now; runs = inputs_of runs.now; state = reset_state (circuit net.now) }) }
    {
        let input = zeros(alloc, runs.width())?;
        let entered = zeros(alloc, net.reset().len())?;
        match Sim::new(alloc, net) {
            Ok(sim) => Ok(Player {
                net,
                runs,
                sim,
                input,
                entered,
            }),
            Err(want) => {
                drop(input);
                drop(entered);
                Err(want)
            }
        }
    }

    /// The present state.
    pub fn state(&self) -> &Bits
        ensures { result.now ≡ self.now.state }
    {
        self.sim.state()
    }

    /// Goes back to the reset state.
    pub fn reset(&mut self)
        ensures { self.new ≡ in_state self.old (reset_state self.old.circuit) }
    {
        self.sim.load(self.net.reset());
    }

    /// The netlist.
    pub fn net(&self) -> &'a Netlist
        ensures { circuit result.now ≡ self.now.circuit }
    {
        self.net
    }

    /// The runs.
    pub fn runs(&self) -> &'a Runs
        ensures inputs { inputs_of result.now ≡ self.now.runs }
        ensures width { result.now.width ≡ length self.now.circuit.inputs }
    {
        self.runs
    }

    /// The number of runs.
    pub fn count(&self) -> u32
        ensures { result ≡ length self.now.runs }
    {
        self.runs.count()
    }

    /// How many cycles a run has. Runs are numbered from 1.
    pub fn cycles(&self, run: u32) -> u32
        requires from_one { 1 ≤ run }
        requires there { run ≤ length self.now.runs }
        ensures count { result ≡ length (run_of self.now.runs run) }
        ensures few { result ≤ MAX_CYCLES }
    {
        cycles_of(self.runs, run)
    }

    /// How many bits a state has.
    pub fn width(&self) -> usize
        ensures { result ≡ length self.now.circuit.flops }
    {
        self.entered.len()
    }

    /// Goes to the state that the lane of a run shows in the flip-flops' planes.
    pub fn enter(&mut self, planes: &[u64], run: u32)
        requires from_one { 1 ≤ run }
        requires there { run ≤ length self.old.runs }
        requires size { length planes.now ≡ length self.old.circuit.flops * wide_of (length self.old.runs) }
        ensures { self.new ≡ in_state self.old (lane (wide_of (length self.old.runs)) (length self.old.circuit.flops) planes.now (run - 1)) }
    {
        let wide = wide_for(self.runs);
        read_lane(planes, wide, run as usize - 1, &mut self.entered);
        self.sim.load(&self.entered);
    }

    /// The input of a cycle of a run, which leads to the next cycle.
    pub fn input_at(&self, alloc: Global, run: u32, cycle: u32) -> Result<Bits, NoMemory>
        requires { IsMoment self.now.runs (moment run (cycle + 1)) }
        ensures { IfOk result (λ input. input ≡ slice_index_or (run_of self.now.runs run) cycle []) }
    {
        let mut input = zeros(alloc, self.runs.width())?;
        self.runs.fill(run, cycle, &mut input);
        Ok(input)
    }

    /// One clock edge under the input of a cycle of a run.
    pub fn step(&mut self, run: u32, cycle: u32)
        requires moment { IsMoment self.old.runs (moment run (cycle + 1)) }
        requires state { self.old.state ≡ state_of self.old.circuit self.old.runs (moment run cycle) }
        ensures { self.new ≡ in_state self.old (state_of self.old.circuit self.old.runs (moment run (cycle + 1))) }
    {
        self.runs.fill(run, cycle, &mut self.input);
        self.sim.step(&self.input);
    }
}
