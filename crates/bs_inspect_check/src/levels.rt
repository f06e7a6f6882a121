//! What a VCD has of a signal.
ghost use Rattle.std.specs.Prelude.{◌≡◌, ◌<◌, ◌^◌, ◌++◌, length, IfOk, OnOk};
ghost use Rattle.bs_inspect_view.specs.Values.{value_text};
ghost use Rattle.bs_inspect_check.specs.Text.{all_known, is_known, known_bit, known_bits, level_at, level_char, level_chars, levels_text};

use crate::level::FlopLevel;
use bs_bits::{List, NoMemory, push_piece};
use bs_inspect_view::push_value;
use std::alloc::Global;

/// What is known of the flip-flop at a place.
#[tactic(auto, using(crate::proofs::LevelTextLemmas::level_there, crate::proofs::LevelTextLemmas::level_past))]
pub(crate) fn level_at(levels: &List<FlopLevel>, place: u32) -> FlopLevel
    ensures { result ≡ level_at levels.now place }
{
    if (place as usize) < levels.len() {
        *levels.get(place as usize)
    } else {
        FlopLevel::Missing
    }
}

/// Whether a bit is known.
fn is_known(level: FlopLevel) -> bool
    ensures { result ≡ is_known level }
{
    match level {
        FlopLevel::Missing => false,
        FlopLevel::Unknown => false,
        FlopLevel::Known(_) => true,
    }
}

/// The bit, or 0 where it is not known.
fn known_bit(level: FlopLevel) -> bool
    ensures { result ≡ known_bit level }
{
    match level {
        FlopLevel::Missing => false,
        FlopLevel::Unknown => false,
        FlopLevel::Known(bit) => bit,
    }
}

/// The character of a bit.
fn level_char(level: FlopLevel) -> u8
    ensures { result ≡ level_char level }
{
    match level {
        FlopLevel::Missing => b'-',
        FlopLevel::Unknown => b'x',
        FlopLevel::Known(true) => b'1',
        FlopLevel::Known(false) => b'0',
    }
}

/// Whether all bits of a signal are known.
fn all_known(levels: &List<FlopLevel>, places: &[u32]) -> bool
    ensures { result ≡ all_known levels.now places.now }
{
    places
        .iter()
        .all(|place| is_known(level_at(levels, *place)))
}

/// The bits of a signal.
#[tactic(auto, using(crate::proofs::LevelTextLemmas::bits_more))]
fn known_bits(
    alloc: Global,
    levels: &List<FlopLevel>,
    places: &[u32],
) -> Result<Vec<bool>, NoMemory>
    ensures { IfOk result (λ bits. bits.items ≡ known_bits levels.now places.now) }
{
    let mut bits = Vec::new(alloc);
    'places: for place in places {
        bits.push(known_bit(level_at(levels, *place)))?;
    }
    Ok(bits)
}

/// Appends the value of a signal whose bits are known.
#[tactic(auto, using(crate::proofs::LevelTextLemmas::bits_narrow))]
fn push_bits(text: &mut Vec<u8>, levels: &List<FlopLevel>, places: &[u32]) -> Result<(), NoMemory>
    requires { length places.now < 2 ^ 32 }
    ensures { OnOk result (text.new.items ≡ text.old.items ++ value_text (known_bits levels.now places.now)) }
{
    let bits = known_bits(*text.allocator(), levels, places)?;
    push_value(text, bits.as_slice())
}

/// Appends the bits of a signal, a character each.
#[tactic(auto, using(crate::proofs::LevelTextLemmas::chars_more))]
fn push_chars(text: &mut Vec<u8>, levels: &List<FlopLevel>, places: &[u32]) -> Result<(), NoMemory>
    ensures { OnOk result (text.new.items ≡ text.old.items ++ level_chars levels.now places.now) }
{
    'places: for place in places {
        text.push(level_char(level_at(levels, *place)))?;
    }
    Ok(())
}

/// Appends the value of a signal, or its bits one by one where one is not known.
pub(crate) fn push_levels(
    text: &mut Vec<u8>,
    levels: &List<FlopLevel>,
    places: &[u32],
) -> Result<(), NoMemory>
    requires { length places.now < 2 ^ 32 }
    ensures { OnOk result (text.new.items ≡ text.old.items ++ levels_text levels.now places.now) }
{
    if all_known(levels, places) {
        return push_bits(text, levels, places);
    }
    push_piece(text, b"0b")?;
    push_chars(text, levels, places)
}
