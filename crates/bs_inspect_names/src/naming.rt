//! The names of inputs: what a text says, and else their keys.
ghost use Rattle.std.specs.Prelude.{◌≡◌, ◌<◌, ◌++◌, ◌∷◌, [], find, length, map, option_map, slice_get, Some, IfOk, OnOk};
ghost use Rattle.bs_bits.specs.Lines.{lines_of, words_of};
ghost use Rattle.bs_bits.specs.Reading.{Answers};
ghost use Rattle.bs_inspect_names.specs.declared.fault.MapFault.TheVariants.{NoMemory as Want};
ghost use Rattle.bs_inspect_names.specs.Tagged.{key_tag};
ghost use Rattle.bs_inspect_names.specs.Mapping.{bit_name, entries_from, entry_at, entry_in, entry_of, has_bit, has_key, judged, map_in, name_by_vector, name_of, names_of, numbered_name};

use crate::entry::{MapEntry, entry_of, has_bit, judged, same_key};
use crate::fault::MapFault;
use crate::tagged::{
    Lines, key_tag, keys_near, lines_near, no_lines, tags_of, with_line, word_tag,
};
use crate::vector::vector_of;
use bs_bits::{List, NoMemory, next_line, push_number, push_piece};
use bs_net_names::key_parts;
use std::alloc::Global;

/// The entry of a line behind those of the lines before it, by the keys, which have these numbers.
fn entry_at<'a>(
    alloc: Global,
    keys: &[&[u8]],
    tags: &[u64],
    lines: &Lines<'_>,
    line: &'a [u8],
) -> Result<MapEntry<'a>, MapFault>
    requires { tags.now ≡ map (λ k. key_tag k.now) keys.now }
    ensures { Answers Want entry_in result (entry_at (map (λ k. k.now) keys.now) (map entry_in lines.now.entries.items) (entry_of (words_of line.now))) }
{
    let number = lines.entries.len() as u64 + 1;
    match entry_of(line) {
        Some(entry) => near_entry(alloc, keys, tags, lines, number, entry),
        None => Err(MapFault::Line(number)),
    }
}

/// The same of an entry, which is compared with the keys and the lines alone whose numbers its own has.
fn near_entry<'a>(
    alloc: Global,
    keys: &[&[u8]],
    tags: &[u64],
    lines: &Lines<'_>,
    number: u64,
    entry: MapEntry<'a>,
) -> Result<MapEntry<'a>, MapFault>
    requires { tags.now ≡ map (λ k. key_tag k.now) keys.now }
    ensures { Answers Want entry_in result (judged (map (λ k. k.now) keys.now) (map entry_in lines.now.entries.items) number (entry_in entry.entry)) }
{
    let own = key_tag(entry.key);
    let whole = word_tag(entry.key);
    let near = keys_near(alloc, keys, tags, own, whole)?;
    let earlier = lines_near(alloc, lines, own, whole)?;
    judged(near.as_slice(), earlier.as_slice(), number, entry)
}

/// The entries of a text, line by line.
#[tactic(auto, using(crate::proofs::MappingLemmas::entry_more, crate::proofs::MappingLemmas::entry_faulty, crate::proofs::MappingLemmas::entries_end))]
fn read_lines<'a>(
    alloc: Global,
    text: &'a [u8],
    keys: &[&[u8]],
    tags: &[u64],
) -> Result<Lines<'a>, MapFault>
    requires { tags.now ≡ map (λ k. key_tag k.now) keys.now }
    ensures { Answers Want (λ lines. map entry_in lines.entries.items) result (entries_from (map (λ k. k.now) keys.now) [] (lines_of text.now)) }
{
    let mut lines = no_lines(alloc);
    let mut rest = text;
    'lines: while let Some((line, behind)) = next_line(rest) {
        let entry = entry_at(alloc, keys, tags, &lines, line)?;
        lines = with_line(lines, entry)?;
        rest = behind;
    }
    Ok(lines)
}

// ---- the name of a key

/// The line of a key itself.
fn own_line<'a, 'b>(entries: &'b [MapEntry<'a>], key: &[u8]) -> Option<&'b MapEntry<'a>>
    ensures { option_map (λ e. e.now) result ≡ find (λ e. has_key key.now (entry_in e)) entries.now }
{
    entries.iter().find(|entry| same_key(entry.key, key))
}

/// The line of a vector with a key's bit.
fn vector_line<'a, 'b>(entries: &'b [MapEntry<'a>], key: &[u8]) -> Option<&'b MapEntry<'a>>
    ensures { option_map (λ e. e.now) result ≡ find (λ e. has_bit key.now (entry_in e)) entries.now }
{
    entries.iter().find(|entry| has_bit(**entry, key))
}

/// A text of its own with the bytes of another.
fn copied(alloc: Global, bytes: &[u8]) -> Result<List<u8>, NoMemory>
    ensures { IfOk result (λ name. name ≡ bytes.now) }
{
    let mut text = Vec::new(alloc);
    push_piece(&mut text, bytes)?;
    Ok(List::of(text))
}

/// The bit with a number of a vector of the simulation.
fn bit_name(alloc: Global, name: &[u8], number: u64) -> Result<List<u8>, NoMemory>
    ensures { IfOk result (λ bit. bit ≡ bit_name name.now number) }
{
    let mut text = Vec::new(alloc);
    push_piece(&mut text, vector_of(name).base)?;
    push_piece(&mut text, b"[")?;
    push_number(&mut text, number)?;
    push_piece(&mut text, b"]")?;
    Ok(List::of(text))
}

/// The name of a vector's bit, where there is a number.
fn numbered_name(alloc: Global, name: &[u8], bit: Option<u64>) -> Result<List<u8>, NoMemory>
    ensures { IfOk result (λ name_of_bit. name_of_bit ≡ numbered_name name.now bit) }
{
    match bit {
        Some(number) => bit_name(alloc, name, number),
        None => copied(alloc, name),
    }
}

/// The name of a key by the line of a vector with its bit, or else the key itself.
#[tactic(auto, using(crate::proofs::MappingLemmas::by_none))]
fn name_by_vector(alloc: Global, entries: &[MapEntry<'_>], key: &[u8]) -> Result<List<u8>, NoMemory>
    ensures { IfOk result (λ name. name ≡ name_by_vector (map entry_in entries.now) key.now) }
{
    match vector_line(entries, key) {
        Some(entry) => {
            let name = numbered_name(alloc, entry.name, key_parts(key).bit)?;
            Ok(name)
        }
        None => copied(alloc, key),
    }
}

/// The name of a key: by its own line, or else by that of its vector.
#[tactic(auto, using(crate::proofs::MappingLemmas::by_other))]
fn name_of(alloc: Global, entries: &[MapEntry<'_>], key: &[u8]) -> Result<List<u8>, NoMemory>
    ensures { IfOk result (λ name. name ≡ name_of (map entry_in entries.now) key.now) }
{
    match own_line(entries, key) {
        Some(entry) => {
            let name = copied(alloc, entry.name)?;
            Ok(name)
        }
        None => {
            let name = name_by_vector(alloc, entries, key)?;
            Ok(name)
        }
    }
}

// ---- all names

/// The name of a key, by the lines alone whose numbers it has.
fn name_near(alloc: Global, lines: &Lines<'_>, key: &[u8]) -> Result<List<u8>, NoMemory>
    ensures { IfOk result (λ name. name ≡ name_of (map entry_in lines.now.entries.items) key.now) }
{
    let tag = key_tag(key);
    let near = lines_near(alloc, lines, tag, tag)?;
    let name = name_of(alloc, near.as_slice(), key)?;
    Ok(name)
}

/// The name of each input.
#[tactic(auto, using(crate::proofs::MappingLemmas::names_more))]
fn names_of(alloc: Global, lines: &Lines<'_>, keys: &[&[u8]]) -> Result<List<List<u8>>, NoMemory>
    ensures { IfOk result (λ names. names ≡ names_of (map entry_in lines.now.entries.items) (map (λ k. k.now) keys.now)) }
{
    let mut names = List::new(alloc);
    'keys: for &key in keys {
        let name = name_near(alloc, lines, key)?;
        names.push(name)?;
    }
    Ok(names)
}

/// The names that inputs with these keys have in a simulation, in the order of the keys: a line `KEY NAME` of the text says one, or
/// those of a vector's bits, and an input without a line has its key (docs/FORMATS.md, "Names in a simulation").
pub fn read_names(alloc: Global, text: &[u8], keys: &[&[u8]]) -> Result<List<List<u8>>, MapFault>
    ensures { Answers Want (λ names. names) result (map_in (map (λ k. k.now) keys.now) text.now) }
{
    let tags = tags_of(alloc, keys)?;
    let lines = read_lines(alloc, text, keys, tags.as_slice())?;
    let names = names_of(alloc, &lines, keys)?;
    Ok(names)
}

// ---- as slices

/// The name at a place.
fn name_at(names: &List<List<u8>>, place: usize) -> &[u8]
    requires { place < length names.now }
    ensures { slice_get names.now place ≡ Some result.now }
{
    names.get(place).slice()
}

/// The bytes of each name.
#[tactic(auto, using(crate::proofs::MappingLemmas::slices_more, crate::proofs::MappingLemmas::slices_end))]
pub fn slices_of(alloc: Global, names: &List<List<u8>>) -> Result<Vec<&[u8]>, NoMemory>
    ensures { IfOk result (λ slices. map (λ n. n.now) slices.items ≡ names.now) }
{
    let mut slices = Vec::new(alloc);
    'names: for place in 0..names.len() {
        slices.push(name_at(names, place))?;
    }
    Ok(slices)
}
