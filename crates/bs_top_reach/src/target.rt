//! What a search for a state is made of.
ghost use Rattle.std.specs.Prelude.{◌≡◌, ◌*◌, ◌≤◌, [], length};
ghost use Rattle.bs_net.specs.Netlist.{circuit};
ghost use Rattle.bs_encode.specs.Transition.{variables};
ghost use Rattle.bs_reach_unrolled.specs.declared.limits.TheConstants.{MAX_FRAME_VARIABLES};

use bs_net::Netlist;
use bs_scan::Seen;

/// A netlist, what is known of a state with a bit for each of its flip-flops, and the most cycles in which a state that shows it is to be
/// reached.
#[derive(Drop)]
pub struct Target {
    pub net: Netlist,
    pub state: Seen,
    pub cycles: u64,
    ghost width: { length state.bits ≡ length (circuit net).flops },
    ghost room: { cycles * variables (circuit net) [] ≤ MAX_FRAME_VARIABLES },
}
