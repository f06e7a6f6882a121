//! The bits of inputs.
ghost use Rattle.std.specs.Prelude.{◌≡◌, ◌++◌, ◌∷◌, [], length, map, OnOk};
ghost use Rattle.bs_bits.specs.Reading.{Answers};
ghost use Rattle.bs_net_names.specs.Keys.{key_parts};
ghost use Rattle.bs_vcd_header.specs.declared.fault.VcdFault.TheVariants.{NoMemory as Want};
ghost use Rattle.bs_vcd_header.specs.Header.{declared_in};
ghost use Rattle.bs_vcd_header.specs.TagIndex.{IsIndex, places_in, tags_in};
ghost use Rattle.bs_vcd_header.specs.Sources.{input_at, inputs_behind};

use crate::fault::VcdFault;
use crate::header::HeaderDeclarations;
use crate::index::{TagIndex, index_of, source_by};
use crate::sources::BitSource;
use bs_bits::NoMemory;
use bs_net_names::key_parts;
use std::alloc::Global;

/// The bit of an input.
fn input_of(
    declared: &HeaderDeclarations<'_>,
    path: &[u8],
    index: &TagIndex,
    number: usize,
    key: &[u8],
) -> Result<BitSource, VcdFault>
    requires { IsIndex (tags_in (declared_in declared.now).paths path.now (declared_in declared.now).variables) (places_in index.now.last) index.now.before.items (length declared.now.variables.items) }
    ensures { Answers Want (λ source. source) result (input_at number (declared_in declared.now) path.now key.now) }
{
    match source_by(
        &declared.paths,
        path,
        key_parts(key),
        declared.variables.as_slice(),
        index,
    ) {
        Some(source) => Ok(source),
        None => Err(VcdFault::NoInput(number as u64)),
    }
}

/// Puts a source at the end.
fn add_source(source: BitSource, into: &mut Vec<BitSource>) -> Result<(), NoMemory>
    ensures { OnOk result (into.new.items ≡ into.old.items ++ source ∷ []) }
{
    into.push(source)?;
    Ok(())
}

/// Puts the bit of each input behind others, where the variables are indexed.
#[tactic(auto, using(crate::proofs::SourceLemmas::input_more, crate::proofs::SourceLemmas::input_faulty, crate::proofs::SourceLemmas::inputs_none))]
fn take_indexed(
    declared: &HeaderDeclarations<'_>,
    path: &[u8],
    index: &TagIndex,
    keys: &[&[u8]],
    into: &mut Vec<BitSource>,
) -> Result<(), VcdFault>
    requires { IsIndex (tags_in (declared_in declared.now).paths path.now (declared_in declared.now).variables) (places_in index.now.last) index.now.before.items (length declared.now.variables.items) }
    ensures { Answers Want (λ _. into.new.items) result (inputs_behind into.old.items 0 (declared_in declared.now) path.now (map (λ key. key.now) keys.now)) }
{
    'keys: for i in 0..keys.len() {
        let source = input_of(declared, path, index, i, keys[i])?;
        add_source(source, into)?;
    }
    Ok(())
}

/// Puts the bit of each input behind others.
pub fn take_inputs(
    alloc: Global,
    declared: &HeaderDeclarations<'_>,
    path: &[u8],
    keys: &[&[u8]],
    into: &mut Vec<BitSource>,
) -> Result<(), VcdFault>
    ensures { Answers Want (λ _. into.new.items) result (inputs_behind into.old.items 0 (declared_in declared.now) path.now (map (λ key. key.now) keys.now)) }
{
    let index = index_of(alloc, &declared.paths, path, declared.variables.as_slice())?;
    take_indexed(declared, path, &index, keys, into)
}
