//! Names by numbers that equal names share, so that a line is compared with few keys and few other lines.
ghost use Rattle.std.specs.Prelude.{◌≡◌, ◌==◌, ◌||◌, ◌++◌, ◌∷◌, [], filter, map, slice_index_or, IfOk, OnOk};
ghost use Rattle.bs_inspect_names.specs.Mapping.{entry_in};
ghost use Rattle.bs_inspect_names.specs.Tagged.{is_near_key, is_near_line, kept, key_tag, word_tag};

use crate::entry::MapEntry;
use crate::vector::vector_of;
use bs_bits::NoMemory;
use bs_net_names::{key_parts, plain};
use bs_vcd_header::tag_of;
use std::alloc::Global;

/// Lines that were read, and the numbers of their first words: of each as a key, and as the name of a vector.
#[derive(Drop)]
pub struct Lines<'a> {
    pub entries: Vec<MapEntry<'a>>,
    pub owns: Vec<u64>,
    pub wholes: Vec<u64>,
    ghost owns_are: { owns.items ≡ map (λ e. key_tag e.key.now) entries.items },
    ghost wholes_are: { wholes.items ≡ map (λ e. word_tag e.key.now) entries.items },
}

// ---- a number

/// The number of what stands before the number of a bit.
#[tactic(auto, using(crate::proofs::TaggedLemmas::key_tag_by))]
pub fn key_tag(key: &[u8]) -> u64
    ensures { result ≡ key_tag key.now }
{
    let parts = key_parts(key);
    let base = plain(parts.base);
    tag_of(base)
}

/// The number of the name of a vector.
#[tactic(auto, using(crate::proofs::TaggedLemmas::word_tag_by))]
pub fn word_tag(word: &[u8]) -> u64
    ensures { result ≡ word_tag word.now }
{
    let vector = vector_of(word);
    let base = plain(vector.base);
    tag_of(base)
}

/// The number at a place, and 0 behind the last.
#[tactic(auto, using(crate::proofs::TaggedLemmas::tag_there, crate::proofs::TaggedLemmas::tag_past))]
fn tag_at(tags: &[u64], i: usize) -> u64
    ensures { result ≡ slice_index_or tags.now i 0 }
{
    if i < tags.len() { tags[i] } else { 0 }
}

/// The number of each key.
#[tactic(auto, using(crate::proofs::TaggedLemmas::tags_more))]
pub fn tags_of(alloc: Global, keys: &[&[u8]]) -> Result<Vec<u64>, NoMemory>
    ensures { IfOk result (λ tags. tags.items ≡ map (λ k. key_tag k.now) keys.now) }
{
    let mut tags = Vec::new(alloc);
    'keys: for key in keys {
        tags.push(key_tag(key))?;
    }
    Ok(tags)
}

// ---- keys

/// Whether a number is one of two.
fn is_either(tag: u64, own: u64, whole: u64) -> bool
    ensures { result ≡ ((tag == own) || (tag == whole)) }
{
    tag == own || tag == whole
}

/// Puts a key at the end, or not.
fn add_key<'a>(found: &mut Vec<&'a [u8]>, key: &'a [u8], is: bool) -> Result<(), NoMemory>
    ensures { OnOk result (map (λ k. k.now) found.new.items ≡ map (λ k. k.now) found.old.items ++ kept is key.now) }
{
    if is {
        found.push(key)?;
    }
    Ok(())
}

/// The keys, which have these numbers, that have one of two.
pub fn keys_near<'a>(
    alloc: Global,
    keys: &[&'a [u8]],
    tags: &[u64],
    own: u64,
    whole: u64,
) -> Result<Vec<&'a [u8]>, NoMemory>
    requires { tags.now ≡ map (λ k. key_tag k.now) keys.now }
    ensures { IfOk result (λ found. map (λ k. k.now) found.items ≡ filter (is_near_key own whole) (map (λ k. k.now) keys.now)) }
{
    let mut found = Vec::new(alloc);
    'keys: for i in 0..keys.len() {
        let tag = tag_at(tags, i);
        let near = is_either(tag, own, whole);
        add_key(&mut found, keys[i], near)?;
    }
    Ok(found)
}

// ---- lines

/// Whether the first number of a line is this one, or its second one the other.
fn is_line(one: u64, other: u64, own: u64, whole: u64) -> bool
    ensures { result ≡ ((one == own) || (other == whole)) }
{
    one == own || other == whole
}

/// Puts a line at the end, or not.
fn add_line<'a>(
    found: &mut Vec<MapEntry<'a>>,
    entry: MapEntry<'a>,
    is: bool,
) -> Result<(), NoMemory>
    ensures { OnOk result (map entry_in found.new.items ≡ map entry_in found.old.items ++ kept is (entry_in entry.entry)) }
{
    if is {
        found.push(entry)?;
    }
    Ok(())
}

/// The lines, whose first words have these numbers, that have the first number by themselves, or the second one as the name of a vector.
fn entries_near<'a>(
    alloc: Global,
    entries: &[MapEntry<'a>],
    owns: &[u64],
    wholes: &[u64],
    own: u64,
    whole: u64,
) -> Result<Vec<MapEntry<'a>>, NoMemory>
    requires owns { owns.now ≡ map (λ e. key_tag e.key.now) entries.now }
    requires wholes { wholes.now ≡ map (λ e. word_tag e.key.now) entries.now }
    ensures { IfOk result (λ found. map entry_in found.items ≡ filter (is_near_line own whole) (map entry_in entries.now)) }
{
    let mut found = Vec::new(alloc);
    'entries: for i in 0..entries.len() {
        let one = tag_at(owns, i);
        let other = tag_at(wholes, i);
        let near = is_line(one, other, own, whole);
        add_line(&mut found, entries[i], near)?;
    }
    Ok(found)
}

/// The lines that have the first number by themselves, or the second one as the name of a vector.
pub fn lines_near<'a>(
    alloc: Global,
    lines: &Lines<'a>,
    own: u64,
    whole: u64,
) -> Result<Vec<MapEntry<'a>>, NoMemory>
    ensures { IfOk result (λ found. map entry_in found.items ≡ filter (is_near_line own whole) (map entry_in lines.now.entries.items)) }
{
    let entries = lines.entries.as_slice();
    let owns = lines.owns.as_slice();
    let wholes = lines.wholes.as_slice();
    let found = entries_near(alloc, entries, owns, wholes, own, whole)?;
    Ok(found)
}

/// No lines.
pub fn no_lines<'a>(alloc: Global) -> Lines<'a>
    ensures { result.entries.items ≡ [] }
{
    Lines {
        entries: Vec::new(alloc),
        owns: Vec::new(alloc),
        wholes: Vec::new(alloc),
    }
}

/// Lines with one more.
#[tactic(auto, using(crate::proofs::TaggedLemmas::owns_push, crate::proofs::TaggedLemmas::wholes_push))]
pub fn with_line<'a>(lines: Lines<'a>, entry: MapEntry<'a>) -> Result<Lines<'a>, NoMemory>
    ensures { IfOk result (λ more. map entry_in more.entries.items ≡ map entry_in lines.entry.entries.items ++ entry_in entry.entry ∷ []) }
{
    let Lines {
        entries,
        owns,
        wholes,
    } = lines;
    let mut more = entries;
    let mut firsts = owns;
    let mut seconds = wholes;
    firsts.push(key_tag(entry.key))?;
    seconds.push(word_tag(entry.key))?;
    more.push(entry)?;
    Ok(Lines {
        entries: more,
        owns: firsts,
        wholes: seconds,
    })
}
