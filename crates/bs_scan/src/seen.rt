//! Bits, and at which places they are not known.
ghost use Rattle.std.specs.Prelude.{◌≡◌, ◌==◌, ◌++◌, length, false, slice_index_or, IfOk, OnOk};
ghost use Rattle.bs_scan.specs.Seen.{is_shown, kept, kept_one, known_count, seen_eq, whole};

use bs_bits::{Bits, NoMemory};
use std::alloc::Global;

/// Bits of which some are not known. `free` says at each place whether it is not known; places behind its end are known, so that
/// bits that are all known need none.
#[derive(Drop)]
pub struct Seen {
    pub bits: Bits,
    pub free: Bits,
}

/// Whether a place is free. Those behind the end of the list are not.
pub(crate) fn is_free_in(free: &Bits, place: usize) -> bool
    ensures { result ≡ slice_index_or free.now place false }
{
    if place < free.len() {
        free.get(place)
    } else {
        false
    }
}

/// Puts a bit at the end, unless it is not known.
fn push_known(known: &mut Bits, free: bool, bit: bool) -> Result<(), NoMemory>
    ensures { OnOk result (known.new ≡ known.old ++ kept_one free bit) }
{
    if free {
        return Ok(());
    }
    known.push(bit)
}

impl Seen {
    /// Bits that are all known.
    pub fn whole(alloc: Global, bits: Bits) -> Seen
        ensures { result ≡ whole bits }
    {
        Seen {
            bits,
            free: Bits::new(alloc),
        }
    }

    /// Equal ones of their own.
    pub fn copy(&self) -> Result<Seen, NoMemory>
        ensures { IfOk result (λ copy. copy ≡ self.now) }
    {
        let bits = self.bits.copy()?;
        let free = self.free.copy()?;
        Ok(Seen { bits, free })
    }

    /// Whether no place is free.
    pub fn is_whole(&self) -> bool
        ensures { result ≡ (length self.now.free == 0) }
    {
        self.free.len() == 0
    }

    /// Whether the bit at a place is not known.
    pub fn is_free(&self, place: usize) -> bool
        ensures { result ≡ slice_index_or self.now.free place false }
    {
        is_free_in(&self.free, place)
    }

    /// Whether both have the same bits and the same free places.
    pub fn equals(&self, other: &Seen) -> bool
        ensures { result ≡ seen_eq self.now other.now }
    {
        self.bits.equals(&other.bits) && self.free.equals(&other.free)
    }

    /// The bits of a state at the known places.
    fn known_of(&self, alloc: Global, state: &Bits) -> Result<Bits, NoMemory>
        ensures { IfOk result (λ bits. bits ≡ kept self.now.free state.now) }
    {
        let mut known = Bits::new(alloc);
        'places: for i in 0..state.len() {
            push_known(&mut known, self.is_free(i), state.get(i))?;
        }
        Ok(known)
    }

    /// The same where some place is free.
    fn is_shown_partly(&self, alloc: Global, state: &Bits) -> Result<bool, NoMemory>
        ensures { IfOk result (λ shown. shown ≡ is_shown self.now state.now) }
    {
        let there = self.known_of(alloc, state)?;
        let here = self.known_of(alloc, &self.bits)?;
        Ok(there.equals(&here))
    }

    /// Whether a state has these bits at the known places.
    pub fn is_shown(&self, alloc: Global, state: &Bits) -> Result<bool, NoMemory>
        ensures { IfOk result (λ shown. shown ≡ is_shown self.now state.now) }
    {
        if self.is_whole() {
            return Ok(state.equals(&self.bits));
        }
        self.is_shown_partly(alloc, state)
    }

    /// How many bits are known.
    pub fn known_count(&self, alloc: Global) -> Result<usize, NoMemory>
        ensures { IfOk result (λ count. count ≡ known_count self.now) }
    {
        let known = self.known_of(alloc, &self.bits)?;
        Ok(known.len())
    }
}
