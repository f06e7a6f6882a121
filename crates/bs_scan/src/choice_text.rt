//! The text of a signature file, read line by line.
ghost use Rattle.std.specs.Prelude.{◌≡◌, ◌<◌, ◌≤◌, length, All, IsTrue, IfOk, IfSome, drop, is_some, option_map};
ghost use Rattle.std.specs.List.{list_all};
ghost use Rattle.bs_bits.specs.Reading.{Answers};
ghost use Rattle.bs_bits.specs.Lines.{lines_of, words_of, is_name as is_name_text};
ghost use Rattle.bs_scan.specs.Choice.{IsChoice};
ghost use Rattle.bs_scan.specs.ChoiceText.{names_of, flops_of, item_of, items_of, chosen, keeps_two};
ghost use Rattle.bs_scan.specs.Reading.{bytes_in};

use crate::choice::{MAX_ITEMS, MAX_SIGNATURE_BYTES};
use crate::fault::ChoiceFault;
use crate::flops::FlopNames;
use crate::words::{is_same, item_names, split_word};
use bs_bits::{List, next_line};
use std::alloc::Global;

/// The text behind its first line, where that says that two signatures are kept.
pub fn rest_behind_two(bytes: &[u8]) -> Option<&[u8]>
    ensures said { is_some result ≡ keeps_two (lines_of bytes.now) }
    ensures rest { IfSome result (λ rest. lines_of rest.now ≡ drop 1 (lines_of bytes.now)) }
    ensures short { IfSome result (λ rest. bytes_in (lines_of rest.now) ≤ length bytes.now) }
{
    match next_line(bytes) {
        Some((line, rest)) => {
            if is_same(line, b"cycles 2") {
                Some(rest)
            } else {
                None
            }
        }
        None => None,
    }
}

/// The flip-flops of the names in the line with this number.
fn read_flops(
    alloc: Global,
    names: &[u8],
    number: u32,
    flops: &FlopNames<'_>,
) -> Result<List<u32>, ChoiceFault>
    requires { IsTrue (list_all is_name_text (words_of names.now)) }
    ensures reads { Answers ChoiceFault.NoMemory (λ item. item) result (flops_of flops.now number (words_of names.now)) }
    ensures range { IfOk result (λ item. All (λ flop. flop < length flops.now.flops) item) }
    ensures count { IfOk result (λ item. length item ≡ length (words_of names.now)) }
{
    let mut item = List::new(alloc);
    let mut behind = Some(names);
    'names: while let Some(rest) = behind {
        let (name, more) = split_word(rest);
        match flops.number(name) {
            Some(flop) => item.push(flop)?,
            None => return Err(ChoiceFault::UnknownFlop(number)),
        }
        behind = more;
    }
    Ok(item)
}

/// The item with this number, in the line with that one.
fn read_item(
    alloc: Global,
    line: &[u8],
    at: u32,
    number: u32,
    flops: &FlopNames<'_>,
) -> Result<List<u32>, ChoiceFault>
    ensures reads { Answers ChoiceFault.NoMemory (λ item. item) result (item_of flops.now at number (names_of (words_of line.now))) }
    ensures range { IfOk result (λ item. All (λ flop. flop < length flops.now.flops) item) }
    ensures short { IfOk result (λ item. length item ≤ length line.now) }
    ensures few { IfOk result (λ _. number ≤ MAX_ITEMS) }
{
    match item_names(line) {
        None => Err(ChoiceFault::Line(at)),
        Some(names) => {
            if number > MAX_ITEMS {
                return Err(ChoiceFault::TooMany(at));
            }
            read_flops(alloc, names, at, flops)
        }
    }
}

/// The items of a text, whose first line has this number.
pub fn read_items(
    alloc: Global,
    bytes: &[u8],
    first: u32,
    flops: &FlopNames<'_>,
) -> Result<List<List<u32>>, ChoiceFault>
    requires bytes { bytes_in (lines_of bytes.now) ≤ MAX_SIGNATURE_BYTES }
    requires first { first ≤ 2 }
    ensures reads { Answers ChoiceFault.NoMemory (λ items. items) result (items_of flops.now first 1 (lines_of bytes.now)) }
    ensures sound { IfOk result (λ items. IsChoice (chosen (length flops.now.flops) 1 items)) }
{
    let mut items = List::new(alloc);
    let mut rest = bytes;
    let mut at = first;
    let mut number = 1u32;
    'lines: while let Some((line, behind)) = next_line(rest) {
        items.push(read_item(alloc, line, at, number, flops)?)?;
        at += 1;
        number += 1;
        rest = behind;
    }
    Ok(items)
}
