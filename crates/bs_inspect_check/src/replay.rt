//! A recorded run, state by state.
ghost use Rattle.std.specs.Prelude.{◌≡◌, ◌<◌, ◌≤◌, [], length, slice_index_or, IfOk};
ghost use Rattle.bs_net.specs.Circuit.{next, reset_state};
ghost use Rattle.bs_net.specs.Netlist.{circuit};
ghost use Rattle.bs_stim.specs.declared.limits.TheConstants.{MAX_CYCLES};
ghost use Rattle.bs_stim.specs.Runs.{run_at};
ghost use Rattle.bs_inspect_check.specs.Tallies.{in_state, next_state};

use bs_bits::{Bits, NoMemory};
use bs_net::Netlist;
use bs_sim::Sim;
use bs_stim::Runs;
use std::alloc::Global;
use std::marker::Model;

/// A netlist in a state, and the run whose inputs drive it. Contracts see the machine, the run and the state.
pub struct Replay<'a> {
    net: &'a Netlist,
    runs: &'a Runs,
    number: u32,
    sim: Sim<'a>,
    input: Bits,
}

// One function for every place that drops one, so that the proof of each such place stays small.
impl<'a> Drop for Replay<'a> {
    fn drop(self) {
        let Replay {
            net: _,
            runs: _,
            number: _,
            sim,
            input,
        } = self;
        drop(sim);
        drop(input);
    }
}

impl<'a> Model for Replay<'a> {
    ghost use Rattle.std.specs.Prelude.{◌≡◌, ◌≤◌, length};
    ghost use Rattle.bs_net.specs.Netlist.{circuit};
    ghost use Rattle.bs_stim.specs.Runs.{run_at};
    ghost use Rattle.bs_inspect_check.specs.Tallies.{Replayed};

    ghost Value = { Replayed };

    ghost view = { λ r. record { circuit = circuit r.net.now; run = (run_at r.runs.now r.number).inputs; state = r.sim.state } };

    ghost invariant = { λ r. (r.sim.net ≡ r.net.now) × (r.runs.now.width ≡ length (circuit r.net.now).inputs) × (length r.input ≡ r.runs.now.width) × (1 ≤ r.number) × (r.number ≤ length r.runs.now.runs) };
}

/// As many zeros.
fn zeros(alloc: Global, count: usize) -> Result<Bits, NoMemory>
    ensures { IfOk result (λ bits. length bits ≡ count) }
{
    let mut bits = Bits::new(alloc);
    'zeros: for _ in 0..count {
        bits.push(false)?;
    }
    Ok(bits)
}

impl<'a> Replay<'a> {
    /// A netlist at reset, and the run with a number. Runs are numbered from 1.
    pub fn new(
        alloc: Global,
        net: &'a Netlist,
        runs: &'a Runs,
        number: u32,
    ) -> Result<Replay<'a>, NoMemory>
        requires inputs { runs.now.width ≡ length (circuit net.now).inputs }
        requires from_one { 1 ≤ number }
        requires there { number ≤ length runs.now.runs }
        ensures { IfOk result (λ r. r ≡ record { circuit = circuit net.now; run = (run_at runs.now number).inputs; state = reset_state (circuit net.now) }) }
    {
        let input = zeros(alloc, runs.width())?;
        match Sim::new(alloc, net) {
            Ok(sim) => Ok(Replay {
                net,
                runs,
                number,
                sim,
                input,
            }),
            Err(want) => {
                drop(input);
                Err(want)
            }
        }
    }

    /// The present state.
    pub fn state(&self) -> &Bits
        ensures { result.now ≡ self.now.state }
    {
        self.sim.state()
    }

    /// How many cycles the run has.
    pub fn cycles(&self) -> u32
        ensures count { result ≡ length self.now.run }
        ensures few { result ≤ MAX_CYCLES }
    {
        self.runs.cycles(self.number)
    }

    /// One clock edge under the input of a cycle.
    fn step(&mut self, cycle: u32)
        requires { cycle < length self.old.run }
        ensures { self.new ≡ in_state self.old (next self.old.circuit self.old.state (slice_index_or self.old.run cycle [])) }
    {
        self.runs.fill(self.number, cycle, &mut self.input);
        self.sim.step(&self.input);
    }

    /// Goes on behind a cycle, where the run does.
    pub fn advance(&mut self, cycle: u64)
        ensures { self.new ≡ in_state self.old (next_state self.old.circuit self.old.run cycle self.old.state) }
    {
        if cycle < u64::from(self.cycles()) {
            self.step(cycle as u32);
        }
    }
}
