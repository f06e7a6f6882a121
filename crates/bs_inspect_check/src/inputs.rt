//! The data inputs of one run beside those of one VCD.
ghost use Rattle.std.specs.Prelude.{◌≡◌, ◌<◌, ◌^◌, ◌∷◌, [], length, map, min, option_map, IfOk};
ghost use Rattle.std.specs.List.{list_any};
ghost use Rattle.bs_bits.specs.Reading.{Answers};
ghost use Rattle.bs_vcd_header.specs.declared.fault.VcdFault.TheVariants.{NoMemory as Want};
ghost use Rattle.bs_vcd.specs.Stimulus.{stimulus_in};
ghost use Rattle.bs_inspect_report.specs.Keys.{input_keys};
ghost use Rattle.bs_inspect_check.specs.Inputs.{beside_from, both_cycles, ends_at, first_like, first_other, input_bit, input_end, inputs_at, inputs_beside, inputs_compared, is_like, is_other_cycle, is_want, like_if, no_inputs, other_bit, run_row, vcd_row};

use crate::level::FlopLevel;
use crate::tally::CycleEnd;
use bs_bits::{Bits, List, NoMemory};
use bs_inspect_report::{bit_at, input_keys as keys_of};
use bs_net::Netlist;
use bs_stim::Runs;
use bs_vcd::{SampledLines, stimulus};
use bs_vcd_header::VcdFault;
use std::alloc::Global;

/// Whether the VCD has each data input as 0 or 1 just before each edge; the first cycle in which one is another than the run's, if there
/// is one; and where there is one, the first run whose data inputs are just those of the VCD, if there is one, from 0.
#[derive(Drop)]
pub struct InputComparison {
    pub known: bool,
    pub differing: List<CycleEnd>,
    pub like: Option<u32>,
}

// ---- a bit

/// The bit of a data input of a VCD in a cycle.
#[tactic(auto, using(crate::proofs::InputLemmas::vcd_there, crate::proofs::InputLemmas::vcd_past))]
fn vcd_bit(vcd: &[Bits], cycle: usize, place: usize) -> bool
    ensures { result ≡ input_bit vcd.now cycle place }
{
    if cycle < vcd.len() {
        bit_at(&vcd[cycle], place)
    } else {
        false
    }
}

/// The number of cycles of the run at a place.
#[tactic(auto, using(crate::proofs::InputLemmas::cycles_there, crate::proofs::InputLemmas::cycles_past))]
fn cycles_at(runs: &Runs, i: usize) -> usize
    ensures { result ≡ length (inputs_at runs.now i) }
{
    if i < runs.count() as usize {
        runs.cycles(i as u32 + 1) as usize
    } else {
        0
    }
}

/// The bit of a data input of the run at a place in a cycle.
#[tactic(auto, using(crate::proofs::InputLemmas::run_there, crate::proofs::InputLemmas::run_past, crate::proofs::InputLemmas::cycle_past, crate::proofs::InputLemmas::place_past))]
fn run_bit(runs: &Runs, i: usize, cycle: usize, place: usize) -> bool
    ensures { result ≡ input_bit (inputs_at runs.now i) cycle place }
{
    if i >= runs.count() as usize {
        return false;
    }
    if cycle >= runs.cycles(i as u32 + 1) as usize {
        return false;
    }
    if place >= runs.width() {
        return false;
    }
    runs.bit(i as u32 + 1, cycle as u32, place)
}

/// Whether the bit of a data input is another one.
fn other_bit(runs: &Runs, i: usize, vcd: &[Bits], cycle: usize, place: usize) -> bool
    ensures { result ≡ other_bit (inputs_at runs.now i) vcd.now cycle place }
{
    run_bit(runs, i, cycle, place) != vcd_bit(vcd, cycle, place)
}

// ---- a cycle

/// Whether the bit of some data input is another one in a cycle.
fn is_other_cycle(runs: &Runs, i: usize, vcd: &[Bits], cycle: usize) -> bool
    ensures { result ≡ is_other_cycle runs.now.width (inputs_at runs.now i) vcd.now cycle }
{
    (0..runs.width()).any(|place| other_bit(runs, i, vcd, cycle, place))
}

/// How many cycles both have.
fn both_count(runs: &Runs, i: usize, vcd: &[Bits]) -> usize
    ensures { result ≡ min (length (inputs_at runs.now i)) (length vcd.now) }
{
    cycles_at(runs, i).min(vcd.len())
}

/// The first cycle in which the bit of a data input is another one.
fn first_other(runs: &Runs, i: usize, vcd: &[Bits]) -> Option<usize>
    ensures { result ≡ first_other runs.now.width (inputs_at runs.now i) vcd.now }
{
    (0..both_count(runs, i, vcd)).find(|cycle| is_other_cycle(runs, i, vcd, *cycle))
}

/// Whether there is such a cycle.
fn has_other(runs: &Runs, i: usize, vcd: &[Bits]) -> bool
    ensures { result ≡ list_any (is_other_cycle runs.now.width (inputs_at runs.now i) vcd.now) (both_cycles (inputs_at runs.now i) vcd.now) }
{
    (0..both_count(runs, i, vcd)).any(|cycle| is_other_cycle(runs, i, vcd, cycle))
}

// ---- a run

/// Whether the run at a place has just these inputs.
fn is_like(runs: &Runs, i: usize, vcd: &[Bits]) -> bool
    ensures { result ≡ is_like runs.now.width (inputs_at runs.now i) vcd.now }
{
    let other = has_other(runs, i, vcd);
    cycles_at(runs, i) == vcd.len() && !other
}

/// The first run that has just these inputs.
fn first_like(runs: &Runs, vcd: &[Bits]) -> Option<u32>
    ensures { result ≡ first_like runs.now vcd.now }
{
    (0..runs.count()).find(|i| is_like(runs, *i as usize, vcd))
}

/// The same, where some cycle differs from that of a run.
fn like_if(runs: &Runs, vcd: &[Bits], other: Option<usize>) -> Option<u32>
    ensures { result ≡ like_if runs.now vcd.now other }
{
    match other {
        None => None,
        Some(_) => first_like(runs, vcd),
    }
}

// ---- what is kept

/// The data inputs of the run at a place in a cycle.
#[tactic(auto, using(crate::proofs::InputLemmas::run_more))]
fn run_row(alloc: Global, runs: &Runs, i: usize, cycle: usize) -> Result<Bits, NoMemory>
    ensures { IfOk result (λ bits. bits ≡ run_row runs.now.width (inputs_at runs.now i) cycle) }
{
    let mut bits = Bits::new(alloc);
    'places: for place in 0..runs.width() {
        bits.push(run_bit(runs, i, cycle, place))?;
    }
    Ok(bits)
}

/// So many data inputs of a VCD in a cycle.
#[tactic(auto, using(crate::proofs::InputLemmas::vcd_more))]
fn vcd_row(
    alloc: Global,
    width: usize,
    vcd: &[Bits],
    cycle: usize,
) -> Result<List<FlopLevel>, NoMemory>
    ensures { IfOk result (λ levels. levels ≡ vcd_row width vcd.now cycle) }
{
    let mut levels = List::new(alloc);
    'places: for place in 0..width {
        levels.push(FlopLevel::Known(vcd_bit(vcd, cycle, place)))?;
    }
    Ok(levels)
}

/// A cycle with the data inputs of the run at a place, and those of a VCD.
fn input_end(
    alloc: Global,
    runs: &Runs,
    i: usize,
    vcd: &[Bits],
    cycle: usize,
) -> Result<CycleEnd, NoMemory>
    ensures { IfOk result (λ e. e ≡ input_end runs.now.width (inputs_at runs.now i) vcd.now cycle) }
{
    let state = run_row(alloc, runs, i, cycle)?;
    match vcd_row(alloc, runs.width(), vcd, cycle) {
        Ok(levels) => Ok(CycleEnd {
            cycle: cycle as u64,
            state,
            levels,
        }),
        Err(want) => {
            drop(state);
            Err(want)
        }
    }
}

/// One end of a cycle.
fn single(alloc: Global, end: CycleEnd) -> Result<List<CycleEnd>, NoMemory>
    ensures { IfOk result (λ ends. ends ≡ end ∷ []) }
{
    let mut ends = List::new(alloc);
    ends.push(end)?;
    Ok(ends)
}

/// The same as a list, where there is such a cycle.
fn ends_at(
    alloc: Global,
    runs: &Runs,
    i: usize,
    vcd: &[Bits],
    cycle: Option<usize>,
) -> Result<List<CycleEnd>, NoMemory>
    ensures { IfOk result (λ ends. ends ≡ ends_at runs.now.width (inputs_at runs.now i) vcd.now cycle) }
{
    match cycle {
        None => Ok(List::new(alloc)),
        Some(cycle) => {
            let end = input_end(alloc, runs, i, vcd, cycle)?;
            let ends = single(alloc, end)?;
            Ok(ends)
        }
    }
}

/// The run at a place beside the data inputs of a VCD, where this is the first cycle that differs.
fn beside_from(
    alloc: Global,
    runs: &Runs,
    i: usize,
    vcd: &[Bits],
    other: Option<usize>,
) -> Result<InputComparison, NoMemory>
    ensures { IfOk result (λ m. m ≡ beside_from runs.now i vcd.now other) }
{
    let like = like_if(runs, vcd, other);
    let differing = ends_at(alloc, runs, i, vcd, other)?;
    Ok(InputComparison {
        known: true,
        differing,
        like,
    })
}

/// The run at a place beside the data inputs of a VCD.
fn inputs_beside(
    alloc: Global,
    runs: &Runs,
    i: usize,
    vcd: &[Bits],
) -> Result<InputComparison, NoMemory>
    ensures { IfOk result (λ m. m ≡ inputs_beside runs.now i vcd.now) }
{
    let other = first_other(runs, i, vcd);
    let comparison = beside_from(alloc, runs, i, vcd, other)?;
    Ok(comparison)
}

/// Nothing is known of the data inputs of a VCD.
fn no_inputs(alloc: Global) -> InputComparison
    ensures { result ≡ no_inputs }
{
    InputComparison {
        known: false,
        differing: List::new(alloc),
        like: None,
    }
}

/// Whether memory ran out.
fn is_want(fault: VcdFault) -> bool
    ensures { result ≡ is_want fault }
{
    match fault {
        VcdFault::NoMemory => true,
        _ => false,
    }
}

/// The bytes of texts.
#[tactic(auto, using(crate::proofs::InputLemmas::bytes_none, crate::proofs::InputLemmas::bytes_more, crate::proofs::InputLemmas::bytes_end))]
fn bytes_of<'a>(alloc: Global, texts: &[&'a str]) -> Result<Vec<&'a [u8]>, NoMemory>
    ensures { IfOk result (λ bytes. map (λ s. s.now) bytes.items ≡ map (λ s. s.now) texts.now) }
{
    let mut bytes = Vec::new(alloc);
    'texts: for &text in texts {
        bytes.push(text.as_bytes())?;
    }
    Ok(bytes)
}

/// The keys of the data inputs.
#[tactic(auto, using(crate::proofs::InputLemmas::keys_by))]
fn key_bytes<'a>(alloc: Global, net: &'a Netlist) -> Result<Vec<&'a [u8]>, NoMemory>
    ensures { IfOk result (λ keys. map (λ s. s.now) keys.items ≡ input_keys net.now.raw) }
{
    let keys = keys_of(alloc, net)?;
    let bytes = bytes_of(alloc, keys.as_slice())?;
    Ok(bytes)
}

/// The data inputs just before each rising edge of a clock.
#[tactic(auto, using(crate::proofs::InputLemmas::lines_by))]
fn input_lines(
    alloc: Global,
    net: &Netlist,
    text: &[u8],
    scope: Option<&[u8]>,
    clock: &[u8],
) -> Result<SampledLines, VcdFault>
    requires { length text.now < 2 ^ 61 }
    ensures { Answers Want (λ sampled. sampled) result (stimulus_in text.now (option_map (λ path. path.now) scope.entry) clock.now (input_keys net.now.raw)) }
{
    let keys = key_bytes(alloc, net)?;
    stimulus(alloc, text, scope, clock, keys.as_slice())
}

/// The run at a place beside the data inputs of a VCD with this text, where these are known.
#[tactic(auto, using(crate::proofs::InputLemmas::inputs_read, crate::proofs::InputLemmas::inputs_unread))]
pub(crate) fn compare_inputs(
    alloc: Global,
    net: &Netlist,
    runs: &Runs,
    i: usize,
    text: &[u8],
    scope: Option<&[u8]>,
    clock: &[u8],
) -> Result<InputComparison, NoMemory>
    requires { length text.now < 2 ^ 61 }
    ensures { IfOk result (λ m. m ≡ inputs_compared runs.now i (stimulus_in text.now (option_map (λ path. path.now) scope.entry) clock.now (input_keys net.now.raw))) }
{
    match input_lines(alloc, net, text, scope, clock) {
        Ok(sampled) => {
            let compared = inputs_beside(alloc, runs, i, sampled.lines.slice());
            drop(sampled);
            compared
        }
        Err(fault) => {
            if is_want(fault) {
                return Err(NoMemory);
            }
            Ok(no_inputs(alloc))
        }
    }
}
