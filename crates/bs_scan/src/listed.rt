//! Whether a state is one of some.
ghost use Rattle.std.specs.Prelude.{◌≡◌};
ghost use Rattle.bs_scan.specs.Moments.{is_listed};

use bs_bits::{Bits, List};

/// Whether a state is one of these.
pub fn is_listed(states: &List<Bits>, state: &Bits) -> bool
    ensures { result ≡ is_listed states.now state.now }
{
    states.slice().iter().any(|one| state.equals(one))
}
