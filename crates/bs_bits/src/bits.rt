//! Lists of bits, seen by contracts as lists of `Bool`.
ghost use Rattle.std.specs.Prelude.{◌≡◌, ◌≢◌, ◌<◌, ◌↔◌, [], ◌∷◌, ◌++◌, Some, Bool, false, slice_get, slice_index_or, slice_set, length, IsTrue, IfOk};
ghost use Rattle.std.specs.Prelude.{OnOk, OnErr, MatchOption};
ghost use Rattle.std.specs.Prelude.{List as Seq};
ghost use Rattle.bs_bits.specs.Bits.{bits_eq, bits_cmp};
ghost use Rattle.bs_bits.specs.Text.{bits_text, bits_of};

use crate::bit_text::{parse_bits, push_bits};
use crate::memory::NoMemory;
use std::alloc::Global;
use std::cmp::Ordering;
use std::marker::Model;

/// A list of bits: a state with a bit for each flip-flop, an input with one for each data input, or a signature.
/// Places count from 0.
#[derive(Drop)]
pub struct Bits {
    items: Vec<bool>,
}

impl Model for Bits {
    ghost use Rattle.std.specs.Prelude.{List as Seq, Bool};

    ghost Value = { Seq Bool };

    ghost view = { λ bits. bits.items.items };
}

impl Bits {
    /// No bits.
    pub fn new(alloc: Global) -> Bits
        ensures { result ≡ [] }
    {
        Bits {
            items: Vec::new(alloc),
        }
    }

    /// Puts a bit at the end. The list is as before where memory runs out.
    pub fn push(&mut self, b: bool) -> Result<(), NoMemory>
        ensures ok { OnOk result (self.new ≡ self.old ++ b ∷ []) }
        ensures err { OnErr result (self.new ≡ self.old) }
    {
        self.items.push(b)?;
        Ok(())
    }

    /// The number of bits.
    pub fn len(&self) -> usize
        ensures { result ≡ length self.now }
    {
        self.items.len()
    }

    /// The bit at a place.
    pub fn get(&self, i: usize) -> bool
        requires { i < length self.now }
        ensures lookup { slice_get self.now i ≡ Some result }
        ensures value { result ≡ slice_index_or self.now i false }
    {
        self.items[i]
    }

    /// Writes the bit at a place.
    pub fn set(&mut self, i: usize, b: bool)
        requires { i < length self.old }
        ensures { self.new ≡ slice_set self.old i b }
    {
        self.items[i] = b;
    }

    /// An equal list of its own.
    pub fn copy(&self) -> Result<Bits, NoMemory>
        ensures { IfOk result (λ bits. bits ≡ self.now) }
    {
        let items = Vec::from_slice(*self.items.allocator(), self.items.as_slice())?;
        Ok(Bits { items })
    }

    /// Whether the two are the same list.
    pub fn equals(&self, other: &Bits) -> bool
        ensures same { IsTrue result ↔ (self.now ≡ other.now) }
        ensures test { result ≡ bits_eq self.now other.now }
    {
        self.items == other.items
    }

    /// The lexicographic order: 0 before 1, and a proper prefix before what it begins.
    pub fn order(&self, other: &Bits) -> Ordering
        ensures { result ≡ bits_cmp self.now other.now }
    {
        self.items.cmp(&other.items)
    }

    /// Appends the text of the bits (docs/FORMATS.md, "Bits"): one `0` or `1` a bit, and `.` for no bits.
    /// The text is as before where memory runs out.
    pub fn text(&self, into: &mut Vec<u8>) -> Result<(), NoMemory>
        ensures ok { OnOk result (into.new.items ≡ into.old.items ++ bits_text self.now) }
        ensures err { OnErr result (into.new.items ≡ into.old.items) }
    {
        push_bits(into, &self.items)
    }

    /// The bits that a text stands for. `None` comes exactly where it is the text of no bits at all: neither `.` nor
    /// one or more characters `0` and `1`.
    pub fn read_text(alloc: Global, text: &[u8]) -> Result<Option<Bits>, NoMemory>
        ensures value { IfOk result (λ bits. bits ≡ bits_of text.now) }
        ensures inverse { IfOk result (λ bits. MatchOption bits ((b : Seq Bool) → bits_text b ≢ text.now) (λ b. bits_text b ≡ text.now)) }
    {
        match parse_bits(alloc, text)? {
            Some(items) => Ok(Some(Bits { items })),
            None => Ok(None),
        }
    }
}
