//! One run beside one VCD: the flip-flops, and the data inputs.
ghost use Rattle.std.specs.Prelude.{◌≡◌, ◌<◌, ◌≤◌, ◌^◌, length, map, option_map, IfOk};
ghost use Rattle.bs_bits.specs.Reading.{Answers};
ghost use Rattle.bs_net.specs.Netlist.{circuit};
ghost use Rattle.bs_stim.specs.Runs.{run_at};
ghost use Rattle.bs_vcd_header.specs.declared.fault.VcdFault.TheVariants.{NoMemory as Want};
ghost use Rattle.bs_vcd.specs.Stimulus.{stimulus_in};
ghost use Rattle.bs_inspect_report.specs.Keys.{input_keys};
ghost use Rattle.bs_inspect_check.specs.Comparison.{agrees, all_agree, compared_in, origin_of, whole};
ghost use Rattle.bs_inspect_check.specs.Inputs.{inputs_compared};

use crate::flops::{FlopComparison, RunOf, compare_flops};
use crate::inputs::{InputComparison, compare_inputs};
use bs_bits::{List, NoMemory};
use bs_net::Netlist;
use bs_stim::Runs;
use bs_vcd_header::VcdFault;
use std::alloc::Global;

/// The name of a run, and that of the file of its VCD.
#[derive(Drop)]
pub struct RunOrigin {
    pub run: List<u8>,
    pub file: List<u8>,
}

/// A run beside its VCD: the names of both, the flip-flops, and the data inputs.
#[derive(Drop)]
pub struct Comparison {
    pub origin: RunOrigin,
    pub flops: FlopComparison,
    pub inputs: InputComparison,
}

/// A copy of a name.
fn copy_of(alloc: Global, name: &[u8]) -> Result<List<u8>, NoMemory>
    ensures { IfOk result (λ own. own ≡ name.now) }
{
    let own = name.to_vec(alloc)?;
    Ok(List::of(own))
}

/// The names of a run and of the file of its VCD.
fn origin_of(alloc: Global, run: RunOf<'_>, file: &[u8]) -> Result<RunOrigin, NoMemory>
    requires from_one { 1 ≤ run.number }
    requires there { run.number ≤ length run.runs.now.runs }
    ensures { IfOk result (λ origin. origin ≡ origin_of (run_at run.entry.runs.now run.entry.number) file.now) }
{
    let name = run.runs.name(run.number);
    let own = copy_of(alloc, name.as_bytes())?;
    match copy_of(alloc, file) {
        Ok(path) => Ok(RunOrigin {
            run: own,
            file: path,
        }),
        Err(want) => {
            drop(own);
            Err(want)
        }
    }
}

/// The flip-flops, and the data inputs of the run at a place, from 0.
fn with_inputs(
    alloc: Global,
    net: &Netlist,
    runs: &Runs,
    i: usize,
    text: &[u8],
    scope: Option<&[u8]>,
    clock: &[u8],
    origin: RunOrigin,
    flops: FlopComparison,
) -> Result<Comparison, NoMemory>
    requires { length text.now < 2 ^ 61 }
    ensures { IfOk result (λ m. m ≡ whole origin flops (inputs_compared runs.now i (stimulus_in text.now (option_map (λ path. path.now) scope.entry) clock.now (input_keys net.now.raw)))) }
{
    match compare_inputs(alloc, net, runs, i, text, scope, clock) {
        Ok(inputs) => Ok(Comparison {
            origin,
            flops,
            inputs,
        }),
        Err(want) => {
            drop(origin);
            drop(flops);
            Err(want)
        }
    }
}

/// A run of a netlist beside the text of a VCD, which stands in the file with this name, in the scope with this path or else in that of the
/// first variable that has the clock (docs/FORMATS.md, "Value changes (VCD)"). The flip-flops have these names, which are keys, and the data
/// inputs their own keys. It takes a pass over the text for either.
#[tactic(auto, using(crate::proofs::ComparisonLemmas::both_compared, crate::proofs::ComparisonLemmas::flops_faulty))]
pub fn compare(
    alloc: Global,
    run: RunOf<'_>,
    file: &[u8],
    text: &[u8],
    scope: Option<&[u8]>,
    clock: &[u8],
    names: &[&[u8]],
) -> Result<Comparison, VcdFault>
    requires inputs { run.runs.now.width ≡ length (circuit run.net.now).inputs }
    requires from_one { 1 ≤ run.number }
    requires there { run.number ≤ length run.runs.now.runs }
    requires short { length text.now < 2 ^ 61 }
    requires flops { length names.now < 2 ^ 32 }
    ensures { Answers Want (λ m. m) result
        (compared_in run.entry.net.now.raw run.entry.runs.now run.entry.number file.now text.now (option_map (λ path. path.now) scope.entry) clock.now (map (λ name. name.now) names.now)) }
{
    let net = run.net;
    let runs = run.runs;
    let place = run.number as usize - 1;
    let origin = origin_of(alloc, run, file)?;
    let flops = compare_flops(alloc, run, text, scope, clock, names)?;
    let comparison = with_inputs(alloc, net, runs, place, text, scope, clock, origin, flops)?;
    Ok(comparison)
}

/// Whether a run does not differ from its VCD.
pub(crate) fn agrees(comparison: &Comparison) -> bool
    ensures { result ≡ agrees comparison.now }
{
    comparison.flops.differing.len() == 0 && comparison.inputs.differing.len() == 0
}

/// Whether no run differs from its VCD.
pub fn all_agree(comparisons: &[Comparison]) -> bool
    ensures { result ≡ all_agree comparisons.now }
{
    comparisons.iter().all(|comparison| agrees(comparison))
}
