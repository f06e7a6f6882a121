//! What is found, a line each.
ghost use Rattle.std.specs.Prelude.{◌≡◌, ◌<◌, ◌^◌, ◌++◌, [], length, map, take, slice_index_or, OnOk};
ghost use Rattle.std.specs.List.{flat_map};
ghost use Rattle.bs_inspect_near.specs.Distance.{differing, differs};
ghost use Rattle.bs_inspect_near.specs.Told.{told_piece};
ghost use Rattle.bs_inspect_near.specs.Tells.{cell_text, differing_line, differing_text, flop_line, found_text, held_text, hints_text, more_text, near_line, order_text, place_words};

use crate::counters::one_if;
use crate::hints::Hints;
use crate::search::Near;
use bs_bits::{Bits, NoMemory, end_line, push_line, push_number, push_piece};
use bs_scan::Seen;

/// How many flip-flops that differ have a line.
/// With more than a few the hints say more than the names. The rest is counted.
pub const MAX_PLACES: usize = 8;

// ---- the moment

/// Appends a moment.
fn push_place(text: &mut Vec<u8>, near: Near) -> Result<(), NoMemory>
    ensures { OnOk result (text.new.items ≡ text.old.items ++ place_words near) }
{
    push_piece(text, b"run ")?;
    push_number(text, u64::from(near.run))?;
    push_piece(text, b" cycle ")?;
    push_number(text, u64::from(near.cycle))
}

/// Appends the line of the moment: how many of so many known bits differ.
pub(crate) fn push_near(text: &mut Vec<u8>, known: usize, near: Near) -> Result<(), NoMemory>
    ensures { OnOk result (text.new.items ≡ text.old.items ++ near_line known near) }
{
    push_place(text, near)?;
    push_piece(text, b" differ ")?;
    push_number(text, u64::from(near.count))?;
    push_piece(text, b" of ")?;
    push_number(text, known as u64)?;
    end_line(text)
}

// ---- what differs

/// The bytes of a key.
#[tactic(auto, using(crate::proofs::TextLemmas::key_is))]
fn key_text<'a>(keys: &'a [&str], place: usize) -> &'a [u8]
    requires { place < length keys.now }
    ensures { result.now ≡ slice_index_or (map (λ s. s.now) keys.now) place [] }
{
    keys[place].as_bytes()
}

/// Appends the line of a flip-flop by its key and its bits.
fn push_flop(text: &mut Vec<u8>, key: &[u8], recorded: bool, dumped: bool) -> Result<(), NoMemory>
    ensures { OnOk result (text.new.items ≡ text.old.items ++ flop_line key.now recorded dumped) }
{
    push_piece(text, key)?;
    push_piece(text, b" run ")?;
    push_number(text, u64::from(one_if(recorded)))?;
    push_piece(text, b" dump ")?;
    push_number(text, u64::from(one_if(dumped)))?;
    end_line(text)
}

/// Appends the line of a flip-flop that differs.
fn push_differing(
    text: &mut Vec<u8>,
    keys: &[&str],
    recorded: &Bits,
    seen: &Seen,
    place: usize,
) -> Result<(), NoMemory>
    requires key { place < length keys.now }
    requires recorded { place < length recorded.now }
    requires seen { place < length seen.now.bits }
    ensures { OnOk result (text.new.items ≡ text.old.items ++ differing_line (map (λ s. s.now) keys.now) recorded.now seen.now place) }
{
    push_flop(
        text,
        key_text(keys, place),
        recorded.get(place),
        seen.bits.get(place),
    )
}

/// Whether the bit of a flip-flop is known and differs.
fn differs(recorded: &Bits, seen: &Seen, place: usize) -> bool
    requires recorded { place < length recorded.now }
    requires seen { place < length seen.now.bits }
    ensures { result ≡ differs recorded.now seen.now place }
{
    let free = seen.is_free(place);
    let other = recorded.get(place) != seen.bits.get(place);
    !free && other
}

/// Appends the line of a flip-flop, where it differs and few are told before it.
fn push_told(
    text: &mut Vec<u8>,
    keys: &[&str],
    recorded: &Bits,
    seen: &Seen,
    place: usize,
    is: bool,
    told: usize,
) -> Result<(), NoMemory>
    requires key { place < length keys.now }
    requires recorded { place < length recorded.now }
    requires seen { place < length seen.now.bits }
    ensures { OnOk result (text.new.items ≡ text.old.items ++ told_piece (differing_line (map (λ s. s.now) keys.now) recorded.now seen.now) is told place) }
{
    if is && told < MAX_PLACES {
        push_differing(text, keys, recorded, seen, place)
    } else {
        Ok(())
    }
}

/// Appends the lines of the first flip-flops that differ.
#[tactic(auto, using(crate::proofs::TextLemmas::told_begin, crate::proofs::TextLemmas::told_more, crate::proofs::TextLemmas::told_all))]
fn push_first(
    text: &mut Vec<u8>,
    keys: &[&str],
    recorded: &Bits,
    seen: &Seen,
) -> Result<(), NoMemory>
    requires keys { length keys.now ≡ length seen.now.bits }
    requires recorded { length recorded.now ≡ length seen.now.bits }
    ensures { OnOk result (text.new.items ≡ text.old.items ++ flat_map (differing_line (map (λ s. s.now) keys.now) recorded.now seen.now) (take MAX_PLACES (differing recorded.now seen.now))) }
{
    let mut told = 0usize;
    'places: for i in 0..seen.bits.len() {
        let is = differs(recorded, seen, i);
        push_told(text, keys, recorded, seen, i, is, told)?;
        told += one_if(is) as usize;
    }
    Ok(())
}

/// Appends how many flip-flops have no line, where there are some.
fn push_more(text: &mut Vec<u8>, count: usize) -> Result<(), NoMemory>
    ensures { OnOk result (text.new.items ≡ text.old.items ++ more_text count) }
{
    if count <= MAX_PLACES {
        return Ok(());
    }
    push_piece(text, b"and ")?;
    push_number(text, (count - MAX_PLACES) as u64)?;
    push_piece(text, b" more")?;
    end_line(text)
}

/// Appends the first flip-flops that differ, of so many.
pub(crate) fn push_differences(
    text: &mut Vec<u8>,
    keys: &[&str],
    recorded: &Bits,
    seen: &Seen,
    count: u32,
) -> Result<(), NoMemory>
    requires keys { length keys.now ≡ length seen.now.bits }
    requires recorded { length recorded.now ≡ length seen.now.bits }
    ensures { OnOk result (text.new.items ≡ text.old.items ++ differing_text (map (λ s. s.now) keys.now) recorded.now seen.now count) }
{
    push_first(text, keys, recorded, seen)?;
    push_more(text, count as usize)
}

// ---- what it hints at

/// Appends that one bit differs.
fn push_cell(text: &mut Vec<u8>, count: u32) -> Result<(), NoMemory>
    ensures { OnOk result (text.new.items ≡ text.old.items ++ cell_text count) }
{
    if count == 1 {
        push_line(text, b"hint cell")
    } else {
        Ok(())
    }
}

/// Appends that several bits differ, and at least a quarter of the known ones.
fn push_order(text: &mut Vec<u8>, known: usize, count: u32) -> Result<(), NoMemory>
    requires { count < 2 ^ 20 }
    ensures { OnOk result (text.new.items ≡ text.old.items ++ order_text known count) }
{
    if 1 < count && known <= 4 * count as usize {
        push_line(text, b"hint order")
    } else {
        Ok(())
    }
}

/// Appends that all runs stand still.
fn push_held(text: &mut Vec<u8>, held: bool) -> Result<(), NoMemory>
    ensures { OnOk result (text.new.items ≡ text.old.items ++ held_text held) }
{
    if held {
        push_line(text, b"hint held")
    } else {
        Ok(())
    }
}

/// Appends the moment at which a run is in a state like this one.
fn push_found(text: &mut Vec<u8>, word: &[u8], found: Option<Near>) -> Result<(), NoMemory>
    ensures { OnOk result (text.new.items ≡ text.old.items ++ found_text word.now found) }
{
    match found {
        Some(near) => {
            push_piece(text, b"hint ")?;
            push_piece(text, word)?;
            push_piece(text, b" ")?;
            push_place(text, near)?;
            end_line(text)
        }
        None => Ok(()),
    }
}

/// Appends what hints there are.
pub(crate) fn push_hints(
    text: &mut Vec<u8>,
    known: usize,
    count: u32,
    hints: Hints,
) -> Result<(), NoMemory>
    requires { count < 2 ^ 20 }
    ensures { OnOk result (text.new.items ≡ text.old.items ++ hints_text known count hints) }
{
    push_cell(text, count)?;
    push_held(text, hints.held)?;
    push_found(text, b"inverted", hints.inverted)?;
    push_found(text, b"shifted", hints.shifted)?;
    push_order(text, known, count)
}
