//! Variables by the tags of their names.
ghost use Rattle.std.specs.Prelude.{◌≡◌, ◌++◌, ◌∷◌, [], Some, length, map, nat_eq, IfOk, OnOk};
ghost use Rattle.std.specs.HashMap.{Updates, get};
ghost use Rattle.bs_net_names.specs.Keys.{parts_in};
ghost use Rattle.bs_net_names.specs.Naming.{plain};
ghost use Rattle.bs_vcd_header.specs.Header.{variable_in};
ghost use Rattle.bs_vcd_header.specs.TagIndex.{IsIndex, places_in, tag_of, tags_in};
ghost use Rattle.bs_vcd_header.specs.Sources.{or_next, source_in};

use crate::header::Variable;
use crate::sources::{BitSource, source_here};
use crate::tags::{tag_here, tag_of};
use bs_bits::{List, NoMemory};
use bs_net_names::{KeyParts, plain};
use std::alloc::Global;
use std::collections::HashMap;

/// For each tag the place of the last variable that has it, and for each variable that of the last before it with its tag.
#[derive(Drop)]
pub struct TagIndex {
    pub last: HashMap<u64, usize>,
    pub before: Vec<Option<usize>>,
}

/// The place of the last variable with a tag.
fn place_of(index: &TagIndex, tag: u64) -> Option<usize>
    ensures { result ≡ places_in index.now.last tag }
{
    index.last.get(&tag).copied()
}

/// Takes the next variable, by its tag.
fn add(index: &mut TagIndex, tag: u64) -> Result<(), NoMemory>
    ensures links { OnOk result (index.new.before.items ≡ index.old.before.items ++ places_in index.old.last tag ∷ []) }
    ensures ends { OnOk result (Updates nat_eq index.old.last index.new.last tag (Some (length index.old.before.items))) }
{
    let place = index.before.len();
    let before = place_of(index, tag);
    index.before.push(before)?;
    index.last.insert(tag, place)?;
    Ok(())
}

/// The variables by the tags of what they are called in the scope with a path.
#[tactic(auto, using(crate::proofs::IndexLemmas::index_none, crate::proofs::IndexLemmas::index_more))]
pub fn index_of(
    alloc: Global,
    paths: &List<List<u8>>,
    path: &[u8],
    variables: &[Variable<'_>],
) -> Result<TagIndex, NoMemory>
    ensures { IfOk result (λ index. IsIndex (tags_in paths.now path.now (map variable_in variables.now)) (places_in index.last) index.before.items (length variables.now)) }
{
    let mut index = TagIndex {
        last: HashMap::new(alloc),
        before: Vec::new(alloc),
    };
    'variables: for variable in variables {
        add(&mut index, tag_here(paths, path, *variable))?;
    }
    Ok(index)
}

/// A source, or else another.
fn or_next(first: Option<BitSource>, next: Option<BitSource>) -> Option<BitSource>
    ensures { result ≡ or_next first next }
{
    match first {
        Some(source) => Some(source),
        None => next,
    }
}

/// The bit of this name of the first variable that has one in the scope with a path, where the variables are indexed.
#[tactic(auto, using(crate::proofs::IndexLemmas::from_last, crate::proofs::IndexLemmas::from_before, crate::proofs::IndexLemmas::from_none))]
pub fn source_by(
    paths: &List<List<u8>>,
    path: &[u8],
    key: KeyParts<'_>,
    variables: &[Variable<'_>],
    index: &TagIndex,
) -> Option<BitSource>
    requires { IsIndex (tags_in paths.now path.now (map variable_in variables.now)) (places_in index.now.last) index.now.before.items (length variables.now) }
    ensures { result ≡ source_in paths.now path.now (parts_in key.entry) (map variable_in variables.now) }
{
    let mut at = place_of(index, tag_of(plain(key.base)));
    let mut found = None;
    'places: while let Some(place) = at {
        found = or_next(source_here(paths, path, key, variables[place]), found);
        at = index.before[place];
    }
    found
}
