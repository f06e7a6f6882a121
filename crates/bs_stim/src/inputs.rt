//! Inputs of one width, in packed words.
ghost use Rattle.std.specs.Prelude.{◌≡◌, ◌<◌, ◌≤◌, [], ◌∷◌, ◌++◌, false, length, map, slice_index_or, All, OnOk, OnErr};
ghost use Rattle.bs_stim.specs.declared.limits.TheConstants.{MAX_CYCLES, MAX_TEXT};
ghost use Rattle.bs_stim.specs.Packing.{is_one};

use crate::packed::{bit_of, copy_bits, grow, write_bits};
use bs_bits::{Bits, NoMemory};
use std::alloc::Global;
use std::marker::Model;

/// Inputs, one behind another without a gap. Contracts see their width and a list of them.
#[derive(Drop)]
pub struct Inputs {
    width: usize,
    count: usize,
    words: Vec<u64>,
}

impl Model for Inputs {
    ghost use Rattle.bs_stim.specs.Packing.{Rows, inputs_in, IsPacked};

    ghost Value = { Rows };

    ghost view = { λ inputs. record { width = inputs.width; rows = inputs_in inputs.width inputs.count inputs.words.items } };

    ghost invariant = { λ inputs. IsPacked inputs.width inputs.count inputs.words.items };
}

impl Inputs {
    /// No inputs of a width.
    pub fn new(alloc: Global, width: usize) -> Inputs
        ensures { result ≡ record { width = width; rows = [] } }
    {
        Inputs {
            width,
            count: 0,
            words: Vec::new(alloc),
        }
    }

    /// The number of inputs.
    #[tactic(auto, using(crate::proofs::PackingLemmas::length_inputs))]
    pub fn len(&self) -> usize
        ensures { result ≡ length self.now.rows }
    {
        self.count
    }

    /// The number of bits of each.
    #[tactic(auto, using(crate::proofs::PackingLemmas::row_widths))]
    pub fn width(&self) -> usize
        ensures width { result ≡ self.now.width }
        ensures rows { All (λ row. length row ≡ self.now.width) self.now.rows }
    {
        self.width
    }

    /// A bit of an input.
    pub fn bit(&self, cycle: usize, place: usize) -> bool
        requires cycle { cycle < length self.now.rows }
        requires place { place < self.now.width }
        ensures { result ≡ slice_index_or (slice_index_or self.now.rows cycle []) place false }
    {
        bit_of(self.words.as_slice(), cycle * self.width + place)
    }

    /// Writes an input over a list of as many bits.
    pub fn fill(&self, cycle: usize, into: &mut Bits)
        requires cycle { cycle < length self.now.rows }
        requires width { length into.old ≡ self.now.width }
        ensures { into.new ≡ slice_index_or self.now.rows cycle [] }
    {
        copy_bits(self.words.as_slice(), cycle * self.width, into)
    }

    /// Puts the input of characters `0` and `1` at the end. The inputs are as before where memory runs out.
    pub fn push(&mut self, characters: &[u8]) -> Result<(), NoMemory>
        requires width { length characters.now ≡ self.old.width }
        requires few { length self.old.rows < MAX_CYCLES }
        requires narrow { self.old.width ≤ MAX_TEXT }
        ensures ok { OnOk result (self.new ≡ record { width = self.old.width; rows = self.old.rows ++ map is_one characters.now ∷ [] }) }
        ensures err { OnErr result (self.new ≡ self.old) }
    {
        let start = self.count * self.width;
        grow(&mut self.words, (start + self.width + 63) / 64)?;
        write_bits(&mut self.words, start, characters);
        self.count += 1;
        Ok(())
    }
}
