//! A line of the text: the name of an input or of a vector of them, and its name in a simulation.
ghost use Rattle.std.specs.Prelude.{◌≡◌, map};
ghost use Rattle.std.specs.List.{list_any};
ghost use Rattle.bs_bits.specs.Lines.{words_of};
ghost use Rattle.bs_bits.specs.Reading.{Answers};
ghost use Rattle.bs_inspect_names.specs.declared.fault.MapFault.TheVariants.{NoMemory as Want};
ghost use Rattle.bs_inspect_names.specs.Mapping.{are_both, entry_in, entry_of, has_bit, is_beyond, is_double, judged, named, names_key, same_key, share, shown_entry};
ghost use Rattle.bs_inspect_names.specs.Vectors.{vector_in};

use crate::fault::MapFault;
use crate::vector::{Vector, covers, has_number, vector_of};
use bs_bits::{Words, is_name};
use bs_net_names::{key_parts, plain, same_name};

/// The first word of a line, a key or the name of a vector, and its name in a simulation.
#[derive(Clone, Copy)]
pub struct MapEntry<'a> {
    pub key: &'a [u8],
    pub name: &'a [u8],
}

/// A key and a name, where each is one or more visible bytes.
fn named<'a>(key: &'a [u8], name: &'a [u8]) -> Option<MapEntry<'a>>
    ensures { shown_entry result ≡ named key.now name.now }
{
    let one = is_name(key);
    let other = is_name(name);
    if one && other {
        Some(MapEntry { key, name })
    } else {
        None
    }
}

/// The key and the name of a line.
pub fn entry_of(line: &[u8]) -> Option<MapEntry<'_>>
    ensures { shown_entry result ≡ entry_of (words_of line.now) }
{
    let mut words = Words::of(line);
    let key = words.next()?;
    let name = words.next()?;
    if words.end() { named(key, name) } else { None }
}

/// Whether two keys are one name, as RTL writes it.
pub fn same_key(one: &[u8], other: &[u8]) -> bool
    ensures { result ≡ same_key one.now other.now }
{
    same_name(key_parts(one), key_parts(other))
}

/// Whether a line's first word is the name of a vector, and a key that of one of its bits.
pub fn has_bit(entry: MapEntry<'_>, key: &[u8]) -> bool
    ensures { result ≡ has_bit key.now (entry_in entry.entry) }
{
    covers(vector_of(entry.key), key_parts(key))
}

// ---- the lines that are refused

/// Whether a line is that of a key, by itself or as a bit.
fn names_key(entry: MapEntry<'_>, key: &[u8]) -> bool
    ensures { result ≡ names_key (entry_in entry.entry) key.now }
{
    same_key(entry.key, key) || has_bit(entry, key)
}

/// Whether a line is that of one of these keys.
fn names_some(keys: &[&[u8]], entry: MapEntry<'_>) -> bool
    ensures { result ≡ list_any (λ k. names_key (entry_in entry.entry) k.now) keys.now }
{
    keys.iter().any(|key| names_key(entry, key))
}

/// Whether a key is that of a bit of both vectors.
fn are_both(one: Vector<'_>, other: Vector<'_>, key: &[u8]) -> bool
    ensures { result ≡ are_both (vector_in one.entry) (vector_in other.entry) key.now }
{
    covers(one, key_parts(key)) && covers(other, key_parts(key))
}

/// Whether one of these keys is that of a bit of both vectors.
fn have_both(keys: &[&[u8]], one: Vector<'_>, other: Vector<'_>) -> bool
    ensures { result ≡ list_any (λ k. are_both (vector_in one.entry) (vector_in other.entry) k.now) keys.now }
{
    keys.iter().any(|key| are_both(one, other, key))
}

/// Whether two vectors share a bit that has one of these keys.
#[tactic(auto, using(crate::proofs::MappingLemmas::share_some, crate::proofs::MappingLemmas::share_none))]
fn share(keys: &[&[u8]], one: Vector<'_>, other: Vector<'_>) -> bool
    ensures { result ≡ share (map (λ k. k.now) keys.now) (vector_in one.entry) (vector_in other.entry) }
{
    if plain(one.base) == plain(other.base) {
        have_both(keys, one, other)
    } else {
        false
    }
}

/// Whether an earlier line has the same first word, or names a vector with a bit of this line's.
fn is_double(keys: &[&[u8]], entry: MapEntry<'_>, earlier: MapEntry<'_>) -> bool
    ensures { result ≡ is_double (map (λ k. k.now) keys.now) (entry_in entry.entry) (entry_in earlier.entry) }
{
    same_key(earlier.key, entry.key) || share(keys, vector_of(earlier.key), vector_of(entry.key))
}

/// Whether one of the earlier lines does.
fn has_double(keys: &[&[u8]], entries: &[MapEntry<'_>], entry: MapEntry<'_>) -> bool
    ensures { result ≡ list_any (λ e. is_double (map (λ k. k.now) keys.now) (entry_in entry.entry) (entry_in e)) entries.now }
{
    entries
        .iter()
        .any(|earlier| is_double(keys, entry, *earlier))
}

/// Whether a key is that of a bit whose number stands outside the range behind the name in the simulation.
fn is_beyond(entry: MapEntry<'_>, key: &[u8]) -> bool
    ensures { result ≡ is_beyond (entry_in entry.entry) key.now }
{
    has_bit(entry, key) && !has_number(vector_of(entry.name), key_parts(key).bit)
}

/// Whether one of these keys is.
fn goes_beyond(keys: &[&[u8]], entry: MapEntry<'_>) -> bool
    ensures { result ≡ list_any (λ k. is_beyond (entry_in entry.entry) k.now) keys.now }
{
    keys.iter().any(|key| is_beyond(entry, key))
}

/// The entry of the line with this number, by the keys and the lines before it.
pub fn judged<'a>(
    keys: &[&[u8]],
    entries: &[MapEntry<'_>],
    number: u64,
    entry: MapEntry<'a>,
) -> Result<MapEntry<'a>, MapFault>
    ensures { Answers Want entry_in result (judged (map (λ k. k.now) keys.now) (map entry_in entries.now) number (entry_in entry.entry)) }
{
    if !names_some(keys, entry) {
        return Err(MapFault::Unknown(number));
    }
    if has_double(keys, entries, entry) {
        return Err(MapFault::Twice(number));
    }
    if goes_beyond(keys, entry) {
        return Err(MapFault::Range(number));
    }
    Ok(entry)
}
