//! The text of a stimulus, read run by run.
ghost use Rattle.std.specs.Prelude.{◌≡◌, ◌<◌, ◌≤◌, ◌+◌, ◌^◌, length, map, All, IsTrue, IfOk, codes};
ghost use Rattle.std.specs.String.{string_bytes};
ghost use Rattle.std.specs.Str.{bytes_eq};
ghost use Rattle.bs_bits.specs.Lines.{lines_of, is_name as is_name_text};
ghost use Rattle.bs_bits.specs.Reading.{Answers};
ghost use Rattle.bs_stim.specs.declared.fault.StimFault.TheVariants.{NoMemory as Want};
ghost use Rattle.bs_stim.specs.Runs.{IsRecorded, IsStimulus};
ghost use Rattle.bs_stim.specs.Packing.{is_one};
ghost use Rattle.bs_stim.specs.StimulusText.{input_of, runs_of, stimulus_of};
ghost use Rattle.bs_stim.specs.RunText.{AreShort, taken, inputs_from, end_from, run_from};

use crate::characters::{bit_characters, of_width};
use crate::fault::StimFault;
use crate::first_line::read_first;
use crate::inputs::Inputs;
use crate::limits::{MAX_CYCLES, MAX_RUNS, MAX_TEXT};
use crate::runs::{Run, Runs};
use bs_bits::{List, NoMemory, next_line};
use std::alloc::Global;

/// A name as a text of its own.
fn name_text(alloc: Global, name: &[u8]) -> Result<String, NoMemory>
    requires { IsTrue (is_name_text name.now) }
    ensures { IfOk result (λ text. string_bytes text ≡ name.now) }
{
    match str::from_utf8(name) {
        Ok(text) => Ok(String::from_str(alloc, text)?),
        Err(_) => unreachable!(),
    }
}

/// Whether a line is `end`.
fn is_end(line: &[u8]) -> bool
    ensures { result ≡ bytes_eq line.now (codes "end") }
{
    line == b"end".as_slice()
}

/// The characters of the input of the line with this number, one a bit.
fn read_input(line: &[u8], number: u32, width: usize) -> Result<&[u8], StimFault>
    ensures reads { Answers Want (λ characters. map is_one characters.now) result (input_of width number line.now) }
    ensures width { IfOk result (λ characters. length characters.now ≡ width) }
    ensures short { IfOk result (λ characters. length characters.now ≤ length line.now) }
{
    if is_end(line) {
        return Err(StimFault::Count(number));
    }
    of_width(width, number, bit_characters(line))
}

/// The inputs of so many lines, from the line with this number on, and the bytes behind them.
fn read_inputs<'a>(
    alloc: Global,
    text: &'a [u8],
    number: u32,
    cycles: u32,
    width: usize,
) -> Result<(Inputs, &'a [u8]), StimFault>
    requires countable { number + length (lines_of text.now) < 2 ^ 32 }
    requires short { AreShort MAX_TEXT (lines_of text.now) }
    requires few { cycles ≤ MAX_CYCLES }
    ensures reads { Answers Want (λ f. taken f.0.rows (lines_of f.1.now)) result (inputs_from width number cycles (lines_of text.now)) }
    ensures count { IfOk result (λ f. length f.0.rows ≡ cycles) }
    ensures widths { IfOk result (λ f. All (λ input. length input ≡ width) f.0.rows) }
    ensures width { IfOk result (λ f. f.0.width ≡ width) }
    ensures behind { IfOk result (λ f. length (lines_of f.1.now) + cycles ≡ length (lines_of text.now)) }
    ensures short { IfOk result (λ f. AreShort MAX_TEXT (lines_of f.1.now)) }
{
    let mut inputs = Inputs::new(alloc, width);
    let mut rest = text;
    'inputs: for done in 0..cycles {
        let (line, behind) = match next_line(rest) {
            Some(found) => found,
            None => return Err(StimFault::Count(number + done)),
        };
        inputs.push(read_input(line, number + done, width)?)?;
        rest = behind;
    }
    Ok((inputs, rest))
}

/// The bytes behind the line `end`, which has this number.
fn read_end(text: &[u8], number: u32) -> Result<&[u8], StimFault>
    requires { AreShort MAX_TEXT (lines_of text.now) }
    ensures reads { Answers Want (λ rest. lines_of rest.now) result (end_from number (lines_of text.now)) }
    ensures behind { IfOk result (λ rest. length (lines_of rest.now) + 1 ≡ length (lines_of text.now)) }
    ensures short { IfOk result (λ rest. AreShort MAX_TEXT (lines_of rest.now)) }
{
    let (line, behind) = match next_line(text) {
        Some(found) => found,
        None => return Err(StimFault::Count(number)),
    };
    if is_end(line) {
        return Ok(behind);
    }
    match bit_characters(line) {
        Some(_) => Err(StimFault::Count(number)),
        None => Err(StimFault::Line(number)),
    }
}

/// The run whose first line this is, with this number, and the bytes behind it.
fn read_run<'a>(
    alloc: Global,
    line: &[u8],
    text: &'a [u8],
    number: u32,
    begun: usize,
    width: usize,
) -> Result<(Run, &'a [u8]), StimFault>
    requires countable { number + 2 + length (lines_of text.now) < 2 ^ 32 }
    requires short { AreShort MAX_TEXT (lines_of text.now) }
    ensures reads { Answers Want (λ f. taken f.0 (lines_of f.1.now)) result (run_from width number begun line.now (lines_of text.now)) }
    ensures sound { IfOk result (λ f. IsRecorded width f.0) }
    ensures room { IfOk result (λ _. begun < MAX_RUNS) }
    ensures behind { IfOk result (λ f. length (lines_of f.1.now) + (length f.0.inputs + 1) ≡ length (lines_of text.now)) }
    ensures short { IfOk result (λ f. AreShort MAX_TEXT (lines_of f.1.now)) }
{
    let (name, cycles) = read_first(line, number, begun)?;
    let name = name_text(alloc, name)?;
    let (inputs, rest) = read_inputs(alloc, text, number + 1, cycles, width)?;
    let rest = read_end(rest, number + 1 + cycles)?;
    Ok((Run { name, inputs }, rest))
}

/// The runs of a text.
#[tactic(auto, using(crate::proofs::RunLemmas::lines_short))]
fn read_runs(alloc: Global, bytes: &[u8], width: usize) -> Result<List<Run>, StimFault>
    requires { length bytes.now ≤ MAX_TEXT }
    ensures reads { Answers Want (λ runs. runs) result (runs_of width (lines_of bytes.now)) }
    ensures sound { IfOk result (λ runs. IsStimulus (record { width = width; runs = runs })) }
{
    let mut runs = List::new(alloc);
    let mut rest = bytes;
    let mut number = 1u32;
    'runs: while let Some((line, behind)) = next_line(rest) {
        let (run, left) = read_run(alloc, line, behind, number, runs.len(), width)?;
        number += run.cycles() + 2;
        rest = left;
        runs.push(run)?;
    }
    if runs.len() == 0 {
        return Err(StimFault::NoRun);
    }
    Ok(runs)
}

/// The runs that a text stands for, with so many bits in an input line (docs/FORMATS.md, "Stimulus").
pub fn read(alloc: Global, bytes: &[u8], width: usize) -> Result<Runs, StimFault>
    requires { length bytes.now ≤ MAX_TEXT }
    ensures { Answers Want (λ runs. runs) result (stimulus_of width (lines_of bytes.now)) }
{
    let runs = read_runs(alloc, bytes, width)?;
    Ok(Runs::of(width, runs))
}
