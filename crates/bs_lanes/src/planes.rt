//! Planes, each of one bit of many runs.
ghost use Rattle.std.specs.Prelude.{◌≡◌, ◌<◌, ◌≤◌, ◌+◌, ◌-◌, ◌*◌, ◌^◌, true, false, length, replicate, IfOk};
ghost use Rattle.bs_stim.specs.Packing.{HasPut};
ghost use Rattle.bs_lanes.specs.Planes.{bit_place};

use bs_bits::NoMemory;
use std::alloc::Global;
use std::marker::Model;
use std::simd::Simd;

/// One bit of 256 runs: bit b of word w belongs to run 64 w + b + 1.
pub type Plane = Simd<u64, 4>;

/// Some planes, each of one, two or four words: bit b of word w belongs to run 64 w + b + 1. Contracts see the number of
/// words of a plane, and the words of all planes, one plane behind another.
#[derive(Drop)]
pub struct Planes {
    wide: usize,
    words: Vec<u64>,
}

impl Model for Planes {
    ghost use Rattle.bs_lanes.specs.Planes.{PlaneTable};

    ghost Value = { PlaneTable };

    ghost view = { λ p. record { wide = p.wide; words = p.words.items } };
}

/// Makes a bit of a word 1.
fn put_one(words: &mut [u64], at: usize, low: usize)
    requires word { at < length words.old }
    requires low { low < 64 }
    ensures { HasPut (at * 64 + low) true words.old words.new }
{
    let word = words[at];
    words[at] = word | (1 << low);
}

/// Makes a bit of a word 0.
fn put_zero(words: &mut [u64], at: usize, low: usize)
    requires word { at < length words.old }
    requires low { low < 64 }
    ensures { HasPut (at * 64 + low) false words.old words.new }
{
    let word = words[at];
    words[at] = word & !(1 << low);
}

/// Writes a bit of a word.
pub fn put_bit(words: &mut [u64], at: usize, low: usize, bit: bool)
    requires word { at < length words.old }
    requires low { low < 64 }
    ensures { HasPut (at * 64 + low) bit words.old words.new }
{
    if bit {
        put_one(words, at, low);
    } else {
        put_zero(words, at, low);
    }
}

impl Planes {
    /// So many planes of zeros, each of so many words.
    pub fn new(alloc: Global, count: usize, wide: usize) -> Result<Planes, NoMemory>
        requires { count * wide < 2 ^ 64 }
        ensures { IfOk result (λ p. p ≡ record { wide = wide; words = replicate (count * wide) 0 }) }
    {
        let words = vec![in alloc; 0; count * wide]?;
        Ok(Planes { wide, words })
    }

    /// The words of all planes.
    pub fn words(&self) -> &[u64]
        ensures { result.now ≡ self.now.words }
    {
        self.words.as_slice()
    }

    /// Writes the bit of a run in a plane. Runs are numbered from 1, and planes from 0.
    pub fn set(&mut self, plane: usize, run: u32, bit: bool)
        requires from_one { 1 ≤ run }
        requires lane { run ≤ 64 * self.old.wide }
        requires plane { plane * self.old.wide + self.old.wide ≤ length self.old.words }
        ensures wide { self.new.wide ≡ self.old.wide }
        ensures bit { HasPut (bit_place self.old.wide plane (run - 1)) bit self.old.words self.new.words }
    {
        let lane = run as usize - 1;
        let at = plane * self.wide + lane / 64;
        put_bit(self.words.as_mut_slice(), at, lane % 64, bit);
    }
}
