//! The draws of a generator.
ghost use Rattle.std.specs.Prelude.{◌≡◌, ◌<◌};
ghost use Rattle.bs_gen.specs.Draws.{after, draws_of, pick};

use rand_core::utils::NextWord;
use rand_pcg::Lcg64Xsh32;
use std::marker::Model;

/// The draws that are left. Contracts see the generator.
#[derive(Drop)]
pub struct Draws {
    generator: Lcg64Xsh32,
}

impl Model for Draws {
    ghost use Rattle.rand_pcg.specs.Lcg.{Lcg};

    ghost Value = { Lcg };

    ghost view = { λ draws. draws.generator };
}

impl Draws {
    /// All draws of the generator with this number as its first state.
    pub fn new(number: u64) -> Draws
        ensures { result ≡ draws_of number }
    {
        Draws {
            generator: Lcg64Xsh32::new(number, 1),
        }
    }

    /// Draws a number below `n`.
    pub fn pick(&mut self, n: u32) -> u32
        requires { 0 < n }
        ensures value { result ≡ pick self.old n }
        ensures below { result < n }
        ensures rest { self.new ≡ after 1 self.old }
    {
        self.generator.next_word() % n
    }
}
