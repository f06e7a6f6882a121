//! A run of a stimulus out of the text of a VCD.
ghost use Rattle.std.specs.Prelude.{◌≡◌, ◌<◌, ◌+◌, ◌^◌, length, map, option_map, IfOk};
ghost use Rattle.bs_bits.specs.Reading.{Answers};
ghost use Rattle.bs_net_names.specs.Keys.{parts_in};
ghost use Rattle.bs_vcd_header.specs.declared.fault.VcdFault.TheVariants.{NoClock, NoMemory as Want};
ghost use Rattle.bs_vcd_header.specs.Header.{begun_in, declared_in, header_from, header_in};
ghost use Rattle.bs_vcd_header.specs.Sources.{inputs_from, or_fault, scope_of, source_in};
ghost use Rattle.bs_vcd_header.specs.Tokens.{tokens_from};
ghost use Rattle.bs_vcd.specs.Found.{lacking, sources_of};
ghost use Rattle.bs_vcd.specs.Stimulus.{edges_of, found_sampling, lacks_of, read_from, sampling_in, sampling_of, stimulus_in};

use crate::clock_edges::{SampledLines, sample};
use crate::found::{found_inputs, lacking, sources_of};
use bs_bits::NoMemory;
use bs_net_names::{KeyParts, key_parts};
use bs_vcd_header::{
    Behind, BitSource, HeaderDeclarations, HeaderState, VcdFault, nothing, scope_of, source_in,
    take_inputs, take_words,
};
use std::alloc::Global;

/// A clock, and the sources of names.
#[derive(Drop)]
pub struct ClockAndInputs {
    pub clock: BitSource,
    pub inputs: Vec<BitSource>,
}

/// The path of the clock's scope.
pub fn clock_scope<'a>(
    scope: Option<&'a [u8]>,
    clock: KeyParts<'_>,
    declared: &'a HeaderDeclarations<'_>,
) -> Result<&'a [u8], VcdFault>
    ensures { Answers Want (λ path. path.now) result (or_fault NoClock (scope_of (option_map (λ path. path.now) scope.entry) (parts_in clock.entry) (declared_in declared.now))) }
{
    match scope_of(scope, clock, declared) {
        Some(path) => Ok(path),
        None => Err(VcdFault::NoClock),
    }
}

/// The bit of the clock.
pub fn clock_source(
    declared: &HeaderDeclarations<'_>,
    path: &[u8],
    clock: KeyParts<'_>,
) -> Result<BitSource, VcdFault>
    ensures { Answers Want (λ source. source) result (or_fault NoClock (source_in (declared_in declared.now).paths path.now (parts_in clock.entry) (declared_in declared.now).variables)) }
{
    match source_in(&declared.paths, path, clock, declared.variables.as_slice()) {
        Some(source) => Ok(source),
        None => Err(VcdFault::NoClock),
    }
}

/// The clock in its scope, and these names there.
pub fn sampling_of(
    alloc: Global,
    declared: &HeaderDeclarations<'_>,
    scope: Option<&[u8]>,
    clock: &[u8],
    keys: &[&[u8]],
) -> Result<ClockAndInputs, VcdFault>
    ensures { Answers Want sampling_in result (sampling_of (declared_in declared.now) (option_map (λ path. path.now) scope.entry) clock.now (map (λ key. key.now) keys.now)) }
{
    let clock = key_parts(clock);
    let path = clock_scope(scope, clock, declared)?;
    let source = clock_source(declared, path, clock)?;
    let mut inputs = Vec::new(alloc);
    take_inputs(alloc, declared, path, keys, &mut inputs)?;
    Ok(ClockAndInputs {
        clock: source,
        inputs,
    })
}

/// The same, where some of these names may be missing.
pub fn found_sampling(
    alloc: Global,
    declared: &HeaderDeclarations<'_>,
    scope: Option<&[u8]>,
    clock: &[u8],
    keys: &[&[u8]],
) -> Result<ClockAndInputs, VcdFault>
    ensures { Answers Want sampling_in result (found_sampling (declared_in declared.now) (option_map (λ path. path.now) scope.entry) clock.now (map (λ key. key.now) keys.now)) }
{
    let clock = key_parts(clock);
    let path = clock_scope(scope, clock, declared)?;
    let source = clock_source(declared, path, clock)?;
    let inputs = found_inputs(alloc, declared, path, keys)?;
    Ok(ClockAndInputs {
        clock: source,
        inputs,
    })
}

/// How many of these names no variable has in the scope with a path.
fn lacks_in_path(
    alloc: Global,
    declared: &HeaderDeclarations<'_>,
    path: &[u8],
    keys: &[&[u8]],
) -> Result<usize, NoMemory>
    ensures { IfOk result (λ count. count ≡ lacking (sources_of (declared_in declared.now) path.now (map (λ key. key.now) keys.now))) }
{
    let sources = sources_of(alloc, declared, path, keys)?;
    let count = lacking(sources.as_slice());
    Ok(count)
}

/// How many of these names are missing in the clock's scope.
pub fn lacks_of(
    alloc: Global,
    declared: &HeaderDeclarations<'_>,
    scope: Option<&[u8]>,
    clock: &[u8],
    keys: &[&[u8]],
) -> Result<usize, VcdFault>
    ensures { Answers Want (λ count. count) result (lacks_of (declared_in declared.now) (option_map (λ path. path.now) scope.entry) clock.now (map (λ key. key.now) keys.now)) }
{
    let clock = key_parts(clock);
    let path = clock_scope(scope, clock, declared)?;
    let count = lacks_in_path(alloc, declared, path, keys)?;
    Ok(count)
}

/// The lines of a clock's rising edges by what is declared and the text behind that.
fn edges_of(
    alloc: Global,
    declared: &HeaderDeclarations<'_>,
    behind: Behind<'_>,
    scope: Option<&[u8]>,
    clock: &[u8],
    keys: &[&[u8]],
) -> Result<SampledLines, VcdFault>
    requires { behind.line + length behind.rest.now < 2 ^ 64 }
    ensures { Answers Want (λ sampled. sampled) result (edges_of (header_in behind.entry declared.now) (option_map (λ path. path.now) scope.entry) clock.now (map (λ key. key.now) keys.now)) }
{
    let sampling = sampling_of(alloc, declared, scope, clock, keys)?;
    let sampled = sample(
        alloc,
        sampling.clock,
        sampling.inputs.as_slice(),
        behind.line,
        behind.rest,
    )?;
    Ok(sampled)
}

/// The lines of a clock's rising edges, where so much is read of the declarations.
fn read_from<'a>(
    alloc: Global,
    text: &'a [u8],
    scope: Option<&[u8]>,
    clock: &[u8],
    keys: &[&[u8]],
    begun: &mut HeaderState<'a>,
) -> Result<SampledLines, VcdFault>
    requires { length text.now < 2 ^ 63 }
    ensures { Answers Want (λ sampled. sampled) result (read_from (begun_in begun.old) (tokens_from 1 text.now) (option_map (λ path. path.now) scope.entry) clock.now (map (λ key. key.now) keys.now)) }
{
    let behind = take_words(alloc, 1, text, begun)?;
    let sampled = edges_of(alloc, &begun.declared, behind, scope, clock, keys)?;
    Ok(sampled)
}

/// The line of each rising edge of a clock in the text of a VCD: the bits of these names just before it, in the scope with this
/// path or else in that of the first variable that has the clock (docs/FORMATS.md, "Value changes (VCD)"). The names are keys. With
/// the time of the first change and the last time.
pub fn stimulus(
    alloc: Global,
    text: &[u8],
    scope: Option<&[u8]>,
    clock: &[u8],
    keys: &[&[u8]],
) -> Result<SampledLines, VcdFault>
    requires { length text.now < 2 ^ 63 }
    ensures { Answers Want (λ sampled. sampled) result (stimulus_in text.now (option_map (λ path. path.now) scope.entry) clock.now (map (λ key. key.now) keys.now)) }
{
    let mut begun = nothing(alloc)?;
    let sampled = read_from(alloc, text, scope, clock, keys, &mut begun)?;
    Ok(sampled)
}
