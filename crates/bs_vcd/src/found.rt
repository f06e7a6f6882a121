//! The bits of names of which a VCD may lack some.
ghost use Rattle.std.specs.Prelude.{◌≡◌, ◌++◌, ◌∷◌, ◌&&◌, [], length, map, nat_lt, not, is_some, IfOk, OnOk};
ghost use Rattle.std.specs.List.{list_any};
ghost use Rattle.bs_bits.specs.Reading.{Answers};
ghost use Rattle.bs_net_names.specs.Keys.{key_parts};
ghost use Rattle.bs_vcd_header.specs.declared.fault.VcdFault.TheVariants.{NoMemory as Want};
ghost use Rattle.bs_vcd_header.specs.Header.{declared_in};
ghost use Rattle.bs_vcd_header.specs.Sources.{source_in};
ghost use Rattle.bs_vcd_header.specs.TagIndex.{IsIndex, places_in, tags_in};
ghost use Rattle.bs_vcd.specs.Found.{found_inputs, is_found, is_lacking, lacking, none_found, or_nowhere, some_found, sources_of};

use bs_bits::NoMemory;
use bs_net_names::key_parts;
use bs_vcd_header::{BitSource, HeaderDeclarations, TagIndex, VcdFault, index_of, source_by};
use std::alloc::Global;

/// The bit of a name.
fn source_of(
    declared: &HeaderDeclarations<'_>,
    path: &[u8],
    index: &TagIndex,
    name: &[u8],
) -> Option<BitSource>
    requires { IsIndex (tags_in (declared_in declared.now).paths path.now (declared_in declared.now).variables) (places_in index.now.last) index.now.before.items (length declared.now.variables.items) }
    ensures { result ≡ source_in (declared_in declared.now).paths path.now (key_parts name.now) (declared_in declared.now).variables }
{
    source_by(
        &declared.paths,
        path,
        key_parts(name),
        declared.variables.as_slice(),
        index,
    )
}

/// Puts a bit at the end.
fn put_source(
    sources: &mut Vec<Option<BitSource>>,
    source: Option<BitSource>,
) -> Result<(), NoMemory>
    ensures { OnOk result (sources.new.items ≡ sources.old.items ++ source ∷ []) }
{
    sources.push(source)?;
    Ok(())
}

/// The bit of each of these names, where the variables are indexed.
#[tactic(auto, using(crate::proofs::FoundLemmas::sources_more))]
fn indexed_sources(
    alloc: Global,
    declared: &HeaderDeclarations<'_>,
    path: &[u8],
    index: &TagIndex,
    names: &[&[u8]],
) -> Result<Vec<Option<BitSource>>, NoMemory>
    requires { IsIndex (tags_in (declared_in declared.now).paths path.now (declared_in declared.now).variables) (places_in index.now.last) index.now.before.items (length declared.now.variables.items) }
    ensures { IfOk result (λ sources. sources.items ≡ sources_of (declared_in declared.now) path.now (map (λ name. name.now) names.now)) }
{
    let mut sources = Vec::new(alloc);
    'names: for name in names {
        put_source(&mut sources, source_of(declared, path, index, name))?;
    }
    Ok(sources)
}

/// The bit of each of these names in the scope with a path.
pub fn sources_of(
    alloc: Global,
    declared: &HeaderDeclarations<'_>,
    path: &[u8],
    names: &[&[u8]],
) -> Result<Vec<Option<BitSource>>, NoMemory>
    ensures { IfOk result (λ sources. sources.items ≡ sources_of (declared_in declared.now) path.now (map (λ name. name.now) names.now)) }
{
    let index = index_of(alloc, &declared.paths, path, declared.variables.as_slice())?;
    let sources = indexed_sources(alloc, declared, path, &index, names)?;
    Ok(sources)
}

/// Whether a name is there.
pub fn is_found(source: Option<BitSource>) -> bool
    ensures { result ≡ is_found source }
{
    match source {
        Some(_) => true,
        None => false,
    }
}

/// Whether some name is there.
fn any_found(sources: &[Option<BitSource>]) -> bool
    ensures { result ≡ list_any is_found sources.now }
{
    sources.iter().any(|source| is_found(*source))
}

/// Whether names are asked for, and none is there.
fn none_found(sources: &[Option<BitSource>]) -> bool
    ensures { result ≡ none_found sources.now }
{
    let any = any_found(sources);
    0 < sources.len() && !any
}

/// The bit of each of these names, of which some is there.
#[tactic(auto, using(crate::proofs::FoundLemmas::sources_count))]
pub fn found_sources(
    alloc: Global,
    declared: &HeaderDeclarations<'_>,
    path: &[u8],
    names: &[&[u8]],
) -> Result<Vec<Option<BitSource>>, VcdFault>
    ensures count { IfOk result (λ sources. length sources.items ≡ length names.now) }
    ensures is { Answers Want (λ sources. sources.items) result (some_found (sources_of (declared_in declared.now) path.now (map (λ name. name.now) names.now))) }
{
    let sources = sources_of(alloc, declared, path, names)?;
    if none_found(sources.as_slice()) {
        return Err(VcdFault::NoInput(0));
    }
    Ok(sources)
}

/// Whether no variable has a name.
fn is_lacking(source: Option<BitSource>) -> bool
    ensures { result ≡ is_lacking source }
{
    !is_found(source)
}

/// How many names no variable has.
pub fn lacking(sources: &[Option<BitSource>]) -> usize
    ensures { result ≡ lacking sources.now }
{
    sources.iter().filter(|source| is_lacking(**source)).count()
}

/// The bit of a name, or that of no variable.
fn or_nowhere(source: Option<BitSource>) -> BitSource
    ensures { result ≡ or_nowhere source }
{
    match source {
        Some(source) => source,
        None => BitSource { id: 0, place: 0 },
    }
}

/// The bit of each name, or that of no variable.
#[tactic(auto, using(crate::proofs::FoundLemmas::nowhere_more))]
fn each_or_nowhere(alloc: Global, sources: &[Option<BitSource>]) -> Result<Vec<BitSource>, NoMemory>
    ensures { IfOk result (λ inputs. inputs.items ≡ map or_nowhere sources.now) }
{
    let mut inputs = Vec::new(alloc);
    'sources: for source in sources {
        inputs.push(or_nowhere(*source))?;
    }
    Ok(inputs)
}

/// The bits of these names, of which one at least is there, and that of no variable for each other one.
pub fn found_inputs(
    alloc: Global,
    declared: &HeaderDeclarations<'_>,
    path: &[u8],
    names: &[&[u8]],
) -> Result<Vec<BitSource>, VcdFault>
    ensures { Answers Want (λ inputs. inputs.items) result (found_inputs (declared_in declared.now) path.now (map (λ name. name.now) names.now)) }
{
    let sources = found_sources(alloc, declared, path, names)?;
    let inputs = each_or_nowhere(alloc, sources.as_slice())?;
    Ok(inputs)
}
