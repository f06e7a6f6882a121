//! The bit of a variable by its changes.
ghost use Rattle.std.specs.Prelude.{◌≡◌, true, map, OnOk, IfOk};
ghost use Rattle.std.specs.List.{position};
ghost use Rattle.std.specs.Option.{option_map};
ghost use Rattle.bs_vcd.specs.History.{change_in};
ghost use Rattle.bs_vcd.specs.Levels.{bit_at, extension, is_bit, is_given, is_unknown, known_in, latest, level, level_in, level_of};
ghost use Rattle.bs_vcd.specs.Watching.{known_after};
ghost use Rattle.bs_vcd.specs.Sampled.{is_posedge, rises};

use crate::changes::ValueChange;
use bs_bits::{Bits, NoMemory};
use bs_vcd_header::BitSource;
use std::alloc::Global;
use std::collections::HashMap;

/// The bit of a character, where it is known.
fn level_in(byte: u8) -> Option<bool>
    ensures { result ≡ level_in byte }
{
    if byte == b'0' {
        return Some(false);
    }
    if byte == b'1' { Some(true) } else { None }
}

/// What stands before a value's first character.
fn extension(bits: &[u8]) -> u8
    ensures { result ≡ extension bits.now }
{
    match bits {
        [] => b'x',
        [first, ..] => { if *first == b'1' { b'0' } else { *first } }
    }
}

/// The bit at a place of a value, counted from its last character.
fn bit_at(place: u64, bits: &[u8]) -> Option<bool>
    ensures { result ≡ bit_at place bits.now }
{
    if place < bits.len() as u64 {
        level_in(bits[bits.len() - 1 - place as usize])
    } else {
        level_in(extension(bits))
    }
}

/// The bit of a source, where it is known.
pub fn level(known: &HashMap<u64, &[u8]>, source: BitSource) -> Option<bool>
    ensures { result ≡ level (known_in known.now) source }
{
    match known.get(&source.id) {
        Some(bits) => bit_at(source.place, bits),
        None => None,
    }
}

/// Whether a bit is known to be this one.
fn is_bit(bit: bool, level: Option<bool>) -> bool
    ensures { result ≡ is_bit bit level }
{
    match level {
        None => false,
        Some(known) => { if bit { known } else { !known } }
    }
}

/// Whether a source has had a value.
fn is_given(known: &HashMap<u64, &[u8]>, source: BitSource) -> bool
    ensures { result ≡ is_given (known_in known.now) source }
{
    match known.get(&source.id) {
        Some(_) => true,
        None => false,
    }
}

/// Whether the bit of a source is not known.
fn is_unknown(known: &HashMap<u64, &[u8]>, source: BitSource) -> bool
    ensures { result ≡ is_unknown (known_in known.now) source }
{
    let level = level(known, source);
    let low = is_bit(false, level);
    let high = is_bit(true, level);
    !low && !high
}

/// The first source whose bit is not known.
pub fn first_unknown(known: &HashMap<u64, &[u8]>, inputs: &[BitSource]) -> Option<usize>
    ensures { result ≡ position (is_unknown (known_in known.now)) inputs.now }
{
    inputs.iter().position(|input| is_unknown(known, *input))
}

/// Whether the bit of a source is 1.
fn is_high(known: &HashMap<u64, &[u8]>, source: BitSource) -> bool
    ensures { result ≡ is_bit true (level (known_in known.now) source) }
{
    is_bit(true, level(known, source))
}

/// Which sources are 1.
pub fn high_bits(
    alloc: Global,
    known: &HashMap<u64, &[u8]>,
    inputs: &[BitSource],
) -> Result<Bits, NoMemory>
    ensures { IfOk result (λ bits. bits ≡ map (λ s. is_bit true (level (known_in known.now) s)) inputs.now) }
{
    let mut bits = Bits::new(alloc);
    'inputs: for input in inputs {
        bits.push(is_high(known, *input))?;
    }
    Ok(bits)
}

/// Which sources are not known.
pub fn unknown_bits(
    alloc: Global,
    known: &HashMap<u64, &[u8]>,
    inputs: &[BitSource],
) -> Result<Bits, NoMemory>
    ensures { IfOk result (λ bits. bits ≡ map (is_unknown (known_in known.now)) inputs.now) }
{
    let mut bits = Bits::new(alloc);
    'inputs: for input in inputs {
        bits.push(is_unknown(known, *input))?;
    }
    Ok(bits)
}

/// The bits of the last of these changes that has this code.
#[tactic(auto, using(crate::proofs::LevelLemmas::latest_other, crate::proofs::LevelLemmas::latest_same))]
fn latest<'a>(changes: &[ValueChange<'a>], id: u64) -> Option<&'a [u8]>
    ensures { option_map (λ bits. bits.now) result ≡ latest id (map change_in changes.now) }
{
    let mut found = None;
    'changes: for change in changes {
        if change.id == id {
            found = Some(change.bits);
        }
    }
    found
}

/// The bit of a source after changes.
fn level_after(
    known: &HashMap<u64, &[u8]>,
    changes: &[ValueChange<'_>],
    source: BitSource,
) -> Option<bool>
    ensures { result ≡ level (known_after (known_in known.now) (map change_in changes.now)) source }
{
    match latest(changes, source.id) {
        Some(bits) => bit_at(source.place, bits),
        None => level(known, source),
    }
}

/// Whether a bit has a `posedge` from one level to another.
fn is_posedge(before: Option<bool>, behind: Option<bool>) -> bool
    ensures { result ≡ is_posedge before behind }
{
    let low = is_bit(false, before);
    let low_behind = is_bit(false, behind);
    let high = is_bit(true, before);
    let high_behind = is_bit(true, behind);
    (low && !low_behind) || (!high && high_behind)
}

/// Whether a clock rises by changes.
pub fn rises(known: &HashMap<u64, &[u8]>, changes: &[ValueChange<'_>], clock: BitSource) -> bool
    ensures { result ≡ rises clock (known_in known.now) (known_after (known_in known.now) (map change_in changes.now)) }
{
    let given = is_given(known, clock);
    let posedge = is_posedge(level(known, clock), level_after(known, changes, clock));
    given && posedge
}

/// Makes changes.
#[tactic(auto, using(crate::proofs::LevelLemmas::after_more))]
pub fn apply<'a>(
    known: &mut HashMap<u64, &'a [u8]>,
    changes: &[ValueChange<'a>],
) -> Result<(), NoMemory>
    ensures { OnOk result (known_in known.new ≡ known_after (known_in known.old) (map change_in changes.now)) }
{
    'changes: for change in changes {
        known.insert(change.id, change.bits)?;
    }
    Ok(())
}
