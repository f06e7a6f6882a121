//! The runs that were simulated, their names and their text.
ghost use Rattle.std.specs.Prelude.{◌≡◌, ◌++◌, find, length, map, nat_lt, option_map, take, IfOk, OnOk};
ghost use Rattle.bs_bits.specs.Lines.{line};
ghost use Rattle.bs_bits.specs.Text.{bits_text};
ghost use Rattle.bs_stim.specs.StimulusText.{head_text, inputs_text, run_text};
ghost use Rattle.bs_stim.specs.declared.limits.TheConstants.{MAX_NAME};
ghost use Rattle.bs_inspect_values.specs.SimulatedRun.{is_late, leaf_of, name_byte, or_vcd, recorded_in, run_in, run_name, runs_text, simulated, simulated_text, stem_of};

use bs_bits::{Bits, List, NoMemory, end_line, push_line, push_number, push_piece};
use bs_net_names::last_split;
use bs_stim::MAX_NAME;
use bs_vcd::{SampledLines, begin_in};
use std::alloc::Global;

/// A run: the bytes of its name, the input of each cycle, and the time at which the values begin that it is of.
#[derive(Drop)]
pub struct SimulatedRun {
    pub name: Vec<u8>,
    pub lines: List<Bits>,
    pub begin: u64,
}

// ---- the name

/// The own name of a file.
fn leaf_of(path: &[u8]) -> &[u8]
    ensures { result.now ≡ leaf_of path.now }
{
    match last_split(b'/', path) {
        Some((_, leaf)) => leaf,
        None => path,
    }
}

/// A file's own name without its ending.
fn stem_of(leaf: &[u8]) -> &[u8]
    ensures { result.now ≡ stem_of leaf.now }
{
    match last_split(b'.', leaf) {
        Some((stem, _)) => stem,
        None => leaf,
    }
}

/// The front of a text, so many bytes at most.
#[tactic(auto, using(std::proofs::lemmas::List::take_min))]
fn front(text: &[u8], most: usize) -> &[u8]
    ensures { result.now ≡ take most text.now }
{
    &text[..most.min(text.len())]
}

/// A byte that a name may have.
fn name_byte(byte: u8) -> u8
    ensures { result ≡ name_byte byte }
{
    if 33 <= byte && byte <= 126 {
        byte
    } else {
        b'_'
    }
}

/// The bytes of a text as a name may have them.
#[tactic(auto, using(crate::proofs::RunLemmas::bytes_more))]
fn name_bytes(alloc: Global, text: &[u8]) -> Result<Vec<u8>, NoMemory>
    ensures { IfOk result (λ name. name.items ≡ map name_byte text.now) }
{
    let mut name = Vec::new(alloc);
    'bytes: for byte in text {
        name.push(name_byte(*byte))?;
    }
    Ok(name)
}

/// A name, or `vcd` where that is empty.
#[tactic(auto, using(crate::proofs::RunLemmas::name_there, crate::proofs::RunLemmas::name_none))]
fn or_vcd(alloc: Global, name: Vec<u8>) -> Result<Vec<u8>, NoMemory>
    ensures { IfOk result (λ own. own.items ≡ or_vcd name.items) }
{
    if name.is_empty() {
        return Ok(b"vcd".to_vec(alloc)?);
    }
    Ok(name)
}

/// The name of a run by the path of its file.
fn run_name(alloc: Global, path: &[u8]) -> Result<Vec<u8>, NoMemory>
    ensures { IfOk result (λ name. name.items ≡ run_name path.now) }
{
    let stem = stem_of(leaf_of(path));
    let bytes = name_bytes(alloc, front(stem, MAX_NAME))?;
    let name = or_vcd(alloc, bytes)?;
    Ok(name)
}

/// The run of a file with these inputs.
#[tactic(auto, using(crate::proofs::RunLemmas::simulated_by))]
pub(crate) fn simulated(
    alloc: Global,
    path: &str,
    sampled: SampledLines,
) -> Result<SimulatedRun, NoMemory>
    ensures { IfOk result (λ run. run_in run ≡ simulated path.now sampled) }
{
    let name = run_name(alloc, path.as_bytes())?;
    let begin = begin_in(&sampled);
    Ok(SimulatedRun {
        name,
        lines: sampled.lines,
        begin,
    })
}

/// The first of these runs whose values begin behind time 0.
fn late_among(runs: &[SimulatedRun]) -> Option<&SimulatedRun>
    ensures { option_map (λ run. run.now) result ≡ find (λ run. nat_lt 0 run.begin) runs.now }
{
    runs.iter().find(|run| 0 < run.begin)
}

/// The first of these runs whose values begin behind time 0.
#[tactic(auto, using(crate::proofs::RunLemmas::late_by))]
pub fn first_late(runs: &[SimulatedRun]) -> Option<&SimulatedRun>
    ensures { option_map (λ run. run_in run.now) result ≡ find is_late (map run_in runs.now) }
{
    late_among(runs)
}

// ---- the text

/// Appends the first line of a run.
fn push_head(text: &mut Vec<u8>, run: &SimulatedRun) -> Result<(), NoMemory>
    ensures { OnOk result (text.new.items ≡ text.old.items ++ line (head_text (recorded_in run.now))) }
{
    push_piece(text, b"run ")?;
    push_piece(text, run.name.as_slice())?;
    push_piece(text, b" ")?;
    push_number(text, run.lines.len() as u64)?;
    end_line(text)
}

/// Appends an input line.
fn push_input(text: &mut Vec<u8>, bits: &Bits) -> Result<(), NoMemory>
    ensures { OnOk result (text.new.items ≡ text.old.items ++ line (bits_text bits.now)) }
{
    bits.text(text)?;
    end_line(text)
}

/// Appends the input lines.
fn push_inputs(text: &mut Vec<u8>, lines: &[Bits]) -> Result<(), NoMemory>
    ensures { OnOk result (text.new.items ≡ text.old.items ++ inputs_text lines.now) }
{
    'lines: for bits in lines {
        push_input(text, bits)?;
    }
    Ok(())
}

/// Appends a run.
fn push_run(text: &mut Vec<u8>, run: &SimulatedRun) -> Result<(), NoMemory>
    ensures { OnOk result (text.new.items ≡ text.old.items ++ run_text (recorded_in run.now)) }
{
    push_head(text, run)?;
    push_inputs(text, run.lines.slice())?;
    push_line(text, b"end")?;
    Ok(())
}

/// The text of runs.
#[tactic(auto, using(crate::proofs::RunLemmas::runs_more))]
fn recorded_text(alloc: Global, runs: &[SimulatedRun]) -> Result<Vec<u8>, NoMemory>
    ensures { IfOk result (λ text. text.items ≡ runs_text (map recorded_in runs.now)) }
{
    let mut text = Vec::new(alloc);
    'runs: for run in runs {
        push_run(&mut text, run)?;
    }
    Ok(text)
}

/// The text of runs (docs/FORMATS.md, "Stimulus").
#[tactic(auto, using(crate::proofs::RunLemmas::text_by))]
pub fn runs_text(alloc: Global, runs: &[SimulatedRun]) -> Result<Vec<u8>, NoMemory>
    ensures { IfOk result (λ text. text.items ≡ simulated_text (map run_in runs.now)) }
{
    let text = recorded_text(alloc, runs)?;
    Ok(text)
}
