//! What shows a state, so that states are lent and not copied.
ghost use Rattle.std.specs.Prelude.{◌≡◌, Bool, List};

use bs_bits::Bits;

/// Something that shows a state of the flip-flops.
pub trait HasState {
    /// The bits of the state.
    ghost shown: { Self → List Bool };

    /// The state.
    fn state(&self) -> &Bits
        ensures { result.now ≡ shown self.now };
}

impl HasState for Bits {
    ghost shown = { λ bits. bits };

    fn state(&self) -> &Bits {
        self
    }
}
