//! The replay of a crashed chip's recorded runs.
ghost use Rattle.std.specs.Prelude.{◌≡◌, length, IfOk};
ghost use Rattle.bs_net.specs.Netlist.{circuit};
ghost use Rattle.bs_scan.specs.Crash.{crash_of, recording_of};

use bs_bits::NoMemory;
use bs_chip::Chip;
use bs_net::Netlist;
use bs_scan::{Choice, Dump};
use bs_sim::Sim;
use bs_stim::Runs;
use std::alloc::Global;
use std::marker::Model;

/// A chip that replays the recorded runs, beside a simulator of its netlist. Contracts see the crash that is backtraced.
pub struct Replay<'a> {
    pub(crate) net: &'a Netlist,
    pub(crate) choice: &'a Choice,
    pub(crate) dump: &'a Dump,
    pub(crate) sim: Sim<'a>,
    pub(crate) chip: Chip<'a>,
}

// One function for every place that drops one, so that the proof of each such place stays small.
impl<'a> Drop for Replay<'a> {
    fn drop(self) {
        let Replay {
            net: _,
            choice: _,
            dump: _,
            sim,
            chip,
        } = self;
        drop(sim);
        drop(chip);
    }
}

impl<'a> Model for Replay<'a> {
    ghost use Rattle.std.specs.Prelude.{◌≡◌, length};
    ghost use Rattle.bs_net.specs.Netlist.{circuit};
    ghost use Rattle.bs_scan.specs.Crash.{Crash, crash_of};

    ghost Value = { Crash };

    ghost view = { λ r. crash_of r.chip.recording r.dump.now };

    ghost invariant = { λ r. (r.sim.net ≡ r.net.now) × (r.chip.recording.circuit ≡ circuit r.net.now) × (r.chip.recording.choice ≡ r.choice.now) × (r.choice.now.width ≡ length (circuit r.net.now).flops) };
}

impl<'a> Replay<'a> {
    /// The runs, ready to be replayed.
    pub fn new(
        alloc: Global,
        net: &'a Netlist,
        choice: &'a Choice,
        runs: &'a Runs,
        dump: &'a Dump,
    ) -> Result<Replay<'a>, NoMemory>
        requires choice { choice.now.width ≡ length (circuit net.now).flops }
        requires runs { runs.now.width ≡ length (circuit net.now).inputs }
        ensures { IfOk result (λ r. r ≡ crash_of (recording_of net.now.raw choice.now runs.now) dump.now) }
    {
        let sim = Sim::new(alloc, net)?;
        match Chip::new(alloc, net, choice, runs) {
            Ok(chip) => Ok(Replay {
                net,
                choice,
                dump,
                sim,
                chip,
            }),
            Err(want) => {
                drop(sim);
                Err(want)
            }
        }
    }
}
