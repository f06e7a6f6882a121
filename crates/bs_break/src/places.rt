//! The places at which all states have one bit, and the others.
ghost use Rattle.std.specs.Prelude.{◌≡◌, ◌&&◌, [], ◌∷◌, ◌++◌, if◌then◌else◌, true, false, length, map, filter, replicate, slice_index_or, All, IfOk, OnOk};
ghost use Rattle.std.specs.Bool.{beq};
ghost use Rattle.std.specs.List.{range_with_len};
ghost use Rattle.bs_break.specs.Places.{is_shared, Narrows};

use bs_bits::{Bits, NoMemory};
use bs_scan::HasState;
use std::alloc::Global;

/// As many times true.
fn all_true(alloc: Global, count: usize) -> Result<Vec<bool>, NoMemory>
    ensures { IfOk result (λ flags. flags.items ≡ replicate count true) }
{
    let flags = vec![in alloc; true; count]?;
    Ok(flags)
}

/// Whether both are true.
fn both(one: bool, other: bool) -> bool
    ensures { result ≡ (one && other) }
{
    one && other
}

/// Makes false the flags of the places at which two lists of bits differ.
fn narrow(flags: &mut Vec<bool>, first: &Bits, other: &Bits)
    requires first { length first.now ≡ length flags.old.items }
    requires other { length other.now ≡ length flags.old.items }
    ensures { Narrows flags.old.items flags.new.items first.now other.now }
{
    'places: for i in 0..first.len() {
        flags[i] = both(flags[i], first.get(i) == other.get(i));
    }
}

/// For each place, whether all states have one bit there.
pub fn shared_flags<S: HasState>(
    alloc: Global,
    states: &[S],
    width: usize,
) -> Result<Vec<bool>, NoMemory>
    requires { All (λ listed. length (S.shown listed) ≡ width) states.now }
    ensures { IfOk result (λ flags. flags.items ≡ map (is_shared (map S.shown states.now)) (range_with_len 0 width)) }
{
    let mut flags = all_true(alloc, width)?;
    'states: for i in 0..states.len() {
        narrow(&mut flags, states[0].state(), states[i].state());
    }
    Ok(flags)
}

/// Puts a place at the end, if it is wanted.
fn push_if(places: &mut Vec<usize>, place: usize, wanted: bool) -> Result<(), NoMemory>
    ensures { OnOk result (places.new.items ≡ places.old.items ++ (if wanted then place ∷ [] else [])) }
{
    if wanted {
        places.push(place)?;
        return Ok(());
    }
    Ok(())
}

/// The places of the flags that have a value, ascending.
pub fn places_of(alloc: Global, flags: &[bool], value: bool) -> Result<Vec<usize>, NoMemory>
    ensures { IfOk result (λ places. places.items ≡ filter (λ i. beq (slice_index_or flags.now i false) value) (range_with_len 0 (length flags.now))) }
{
    let mut places = Vec::new(alloc);
    'places: for i in 0..flags.len() {
        push_if(&mut places, i, flags[i] == value)?;
    }
    Ok(places)
}
