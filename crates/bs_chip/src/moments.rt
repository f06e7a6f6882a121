//! A recorded run replayed cycle by cycle to a moment, and a state unloaded through the scan chain.
ghost use Rattle.std.specs.Prelude.{◌≡◌, length, IfOk};
ghost use Rattle.bs_scan.specs.Moments.{IsMoment, run_of, state_of};
ghost use Rattle.bs_scan.specs.Signature.{stored_at};
ghost use Rattle.bs_chip.specs.Replay.{in_state};

use crate::run_simulator::Player;
use bs_bits::{Bits, NoMemory};
use bs_scan::{Chain, Moment, SigReg};
use std::alloc::Global;

/// Brings a player and a signature register from reset to a moment.
pub fn replay(player: &mut Player<'_>, register: &mut SigReg<'_>, moment: Moment)
    requires moment { IsMoment player.old.runs moment }
    requires width { register.old.choice.width ≡ length player.old.circuit.flops }
    ensures player { player.new ≡ in_state player.old (state_of player.old.circuit player.old.runs moment) }
    ensures stored { register.new ≡ record { choice = register.old.choice; stored = stored_at player.old.circuit register.old.choice (run_of player.old.runs moment.run) moment.cycle } }
{
    player.reset();
    register.clear();
    'cycles: for cycle in 0..moment.cycle {
        register.clock(player.state());
        player.step(moment.run, cycle);
    }
}

/// The state that leaves the scan chain in as many shifts as it has bits.
pub fn unload(alloc: Global, state: Bits) -> Result<Bits, NoMemory>
    ensures { IfOk result (λ bits. bits ≡ state) }
{
    let count = state.len();
    let mut chain = Chain::capture(state);
    let mut bits = Bits::new(alloc);
    'shifts: for _ in 0..count {
        bits.push(chain.shift(false))?;
    }
    Ok(bits)
}
