//! Names as a note lists them.
ghost use Rattle.std.specs.Prelude.{◌≡◌, ◌++◌, map, take, OnOk};
ghost use Rattle.std.specs.List.{flat_map, list_any};
ghost use Rattle.std.specs.Str.{bytes_eq};
ghost use Rattle.bs_inspect_notes.specs.Listings.{listed, listing, more_piece, name_piece, near_or, near_text, quoted, some_listing, some_near, word_piece};

use crate::distance::{nearest, offered};
use bs_bits::{NoMemory, push_number, push_piece};
use bs_net_names::{NAMED, push_quoted};
use std::alloc::Global;

/// How many names a listing has at most. A note is to be read at a glance.
pub const LISTED: usize = 16;

/// Whether a name is one of these.
pub fn is_one_of(name: &[u8], names: &[&[u8]]) -> bool
    ensures { result ≡ list_any (λ o. bytes_eq o.now name.now) names.now }
{
    names.iter().any(|other| *other == name)
}

/// Appends a name in quotes.
#[tactic(auto, unfolding(crate::specs::Listings::quoted))]
pub fn push_name(text: &mut Vec<u8>, name: &[u8]) -> Result<(), NoMemory>
    ensures { OnOk result (text.new.items ≡ text.old.items ++ quoted name.now) }
{
    push_piece(text, b"`")?;
    push_quoted(text, name)?;
    push_piece(text, b"`")
}

/// Appends a word of a command line, behind its number from 1.
#[tactic(auto, unfolding(crate::specs::Listings::word_piece))]
pub fn push_word(text: &mut Vec<u8>, number: u64, word: &[u8]) -> Result<(), NoMemory>
    ensures { OnOk result (text.new.items ≡ text.old.items ++ word_piece number word.now) }
{
    push_piece(text, b"word ")?;
    push_number(text, number)?;
    push_piece(text, b", ")?;
    push_name(text, word)
}

/// Appends a space and a name in quotes.
fn push_spaced(text: &mut Vec<u8>, name: &[u8]) -> Result<(), NoMemory>
    ensures { OnOk result (text.new.items ≡ text.old.items ++ name_piece name.now) }
{
    push_piece(text, b" ")?;
    push_name(text, name)
}

/// Appends names, a space before each.
fn push_each(text: &mut Vec<u8>, names: &[&[u8]]) -> Result<(), NoMemory>
    ensures { OnOk result (text.new.items ≡ text.old.items ++ flat_map (λ n. name_piece n.now) names.now) }
{
    'names: for name in names {
        push_spaced(text, name)?;
    }
    Ok(())
}

/// The same, as the definitions have it.
#[tactic(auto, using(crate::proofs::NearLemmas::pieces_of))]
fn push_names(text: &mut Vec<u8>, names: &[&[u8]]) -> Result<(), NoMemory>
    ensures { OnOk result (text.new.items ≡ text.old.items ++ flat_map name_piece (map (λ n. n.now) names.now)) }
{
    push_each(text, names)?;
    Ok(())
}

/// The first of these names, so many at most.
#[tactic(auto, using(std::proofs::lemmas::List::take_min))]
fn front<'a, 'b>(names: &'b [&'a [u8]], most: usize) -> &'b [&'a [u8]]
    ensures { result.now ≡ take most names.now }
{
    &names[..most.min(names.len())]
}

/// Appends the first of these names, so many at most.
#[tactic(auto, using(crate::proofs::NearLemmas::front_of))]
fn push_front(text: &mut Vec<u8>, names: &[&[u8]], most: usize) -> Result<(), NoMemory>
    ensures { OnOk result (text.new.items ≡ text.old.items ++ flat_map name_piece (take most (map (λ n. n.now) names.now))) }
{
    push_names(text, front(names, most))?;
    Ok(())
}

/// Appends the nearest of some names, a few of them.
#[tactic(auto, using(crate::proofs::NearLemmas::near_of))]
fn push_near(
    alloc: Global,
    text: &mut Vec<u8>,
    name: &[u8],
    names: &[&[u8]],
) -> Result<(), NoMemory>
    ensures { OnOk result (text.new.items ≡ text.old.items ++ near_text name.now (map (λ n. n.now) names.now)) }
{
    let found = nearest(alloc, name, names)?;
    push_piece(text, b"; the nearest:")?;
    push_front(text, found.as_slice(), NAMED)?;
    Ok(())
}

/// Appends the nearest of some names, where there are any.
#[tactic(auto, using(crate::proofs::NearLemmas::none_near, crate::proofs::NearLemmas::one_near))]
fn push_near_or(
    alloc: Global,
    text: &mut Vec<u8>,
    name: &[u8],
    names: &[&[u8]],
) -> Result<(), NoMemory>
    ensures { OnOk result (text.new.items ≡ text.old.items ++ near_or name.now (map (λ n. n.now) names.now)) }
{
    if names.is_empty() {
        return Ok(());
    }
    push_near(alloc, text, name, names)?;
    Ok(())
}

/// Appends the nearest of those names that are offered for one, where there are any.
#[tactic(auto, using(crate::proofs::NearLemmas::offered_near))]
pub fn push_some_near(
    alloc: Global,
    text: &mut Vec<u8>,
    name: &[u8],
    names: &[&[u8]],
) -> Result<(), NoMemory>
    ensures { OnOk result (text.new.items ≡ text.old.items ++ some_near name.now (map (λ n. n.now) names.now)) }
{
    let found = offered(alloc, name, names)?;
    let some = found.as_slice();
    push_near_or(alloc, text, name, some)?;
    Ok(())
}

/// Appends that there are more than are listed, where there are.
fn push_more(text: &mut Vec<u8>, most: usize, count: usize) -> Result<(), NoMemory>
    ensures { OnOk result (text.new.items ≡ text.old.items ++ more_piece most count) }
{
    if most < count {
        push_piece(text, b" ..")
    } else {
        Ok(())
    }
}

/// Appends the first of these names, so many at most.
#[tactic(auto, using(crate::proofs::NearLemmas::listed_of))]
fn push_listed(text: &mut Vec<u8>, names: &[&[u8]], most: usize) -> Result<(), NoMemory>
    ensures { OnOk result (text.new.items ≡ text.old.items ++ listed most (map (λ n. n.now) names.now)) }
{
    push_front(text, names, most)?;
    push_more(text, most, names.len())?;
    Ok(())
}

/// Appends a line of the first of these names, so many at most, behind a title.
pub fn push_listing(
    text: &mut Vec<u8>,
    title: &str,
    names: &[&[u8]],
    most: usize,
) -> Result<(), NoMemory>
    ensures { OnOk result (text.new.items ≡ text.old.items ++ listing most title.now (map (λ n. n.now) names.now)) }
{
    push_piece(text, b"note: ")?;
    push_piece(text, title.as_bytes())?;
    push_listed(text, names, most)?;
    push_piece(text, b"\n")
}

/// The same, where there are names.
#[tactic(auto, using(crate::proofs::NearLemmas::none_listed, crate::proofs::NearLemmas::one_listed))]
pub fn push_some_listing(text: &mut Vec<u8>, title: &str, names: &[&[u8]]) -> Result<(), NoMemory>
    ensures { OnOk result (text.new.items ≡ text.old.items ++ some_listing title.now (map (λ n. n.now) names.now)) }
{
    if names.is_empty() {
        return Ok(());
    }
    push_listing(text, title, names, LISTED)?;
    Ok(())
}
