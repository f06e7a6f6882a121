//! The scan chain, through which a captured state leaves the chip bit by bit.
ghost use Rattle.std.specs.Prelude.{◌≡◌, ◌<◌, ◌+◌, ◌⊎◌, [], ◌∷◌, ◌++◌, length};

use bs_bits::Bits;
use std::marker::Model;

/// A loaded scan chain. Contracts see its bits, the next one out first.
#[derive(Drop)]
pub struct Chain {
    bits: Bits,
    first: usize,
}

impl Model for Chain {
    ghost use Rattle.std.specs.Prelude.{◌≤◌, ◌-◌, ◌++◌, List, Bool, drop, take, length};

    ghost Value = { List Bool };

    ghost view = { λ chain. drop chain.first chain.bits ++ take chain.first chain.bits };

    ghost invariant = { λ chain. chain.first ≤ length chain.bits - 1 };
}

/// The place behind a place, and the first one behind the last.
fn place_behind(place: usize, count: usize) -> usize
    requires { place < count }
    ensures { ((result ≡ place + 1) × (place + 1 < count)) ⊎ ((result ≡ 0) × (place + 1 ≡ count)) }
{
    if place < count - 1 { place + 1 } else { 0 }
}

impl Chain {
    /// The chain that has captured a state, in scan order.
    pub fn capture(state: Bits) -> Chain
        ensures { result ≡ state }
    {
        Chain {
            bits: state,
            first: 0,
        }
    }

    /// Shifts the chain by one clock: the first bit comes out, and `scan_in` goes in last.
    pub fn shift(&mut self, scan_in: bool) -> bool
        requires { 0 < length self.old }
        ensures shifted { self.old ++ scan_in ∷ [] ≡ result ∷ self.new }
        ensures same_length { length self.new ≡ length self.old }
    {
        let scan_out = self.bits.get(self.first);
        self.bits.set(self.first, scan_in);
        self.first = place_behind(self.first, self.bits.len());
        scan_out
    }
}
