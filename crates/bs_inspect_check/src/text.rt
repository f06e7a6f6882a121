//! The text of recorded runs beside their VCDs.
ghost use Rattle.std.specs.Prelude.{◌≡◌, ◌<◌, ◌+◌, ◌^◌, ◌++◌, ◌∷◌, [], length, map, count_by, All, IfOk, OnOk};
ghost use Rattle.std.specs.List.{flat_map, range_with_len};
ghost use Rattle.bs_inspect_view.specs.Signals.{AreSignals, signal_in};
ghost use Rattle.bs_inspect_report.specs.Keys.{flop_keys};
ghost use Rattle.bs_inspect_check.specs.Text.{begin_text, check_text, counts_text, difference_text, flops_text, inputs_text, is_set, like_text, origin_text, other_text, outcome_line, outcome_text, run_at, run_text, size_text, TellsCheck, unread_line, word_line};

use crate::comparison::{Comparison, RunOrigin};
use crate::differing::push_differences;
use crate::inputs::InputComparison;
use crate::missing::push_all_missing;
use crate::tally::{CycleEnd, one_if};
use bs_bits::{Bits, NoMemory, end_line, push_number, push_piece};
use bs_inspect_report::{flop_signals, input_signals};
use bs_inspect_view::Signal;
use bs_net::Netlist;
use std::alloc::Global;

/// How many bits are 1.
#[tactic(auto, using(crate::proofs::TextLemmas::set_more, crate::proofs::TextLemmas::set_all))]
fn count_set(bits: &Bits) -> usize
    ensures { result ≡ count_by is_set bits.now }
{
    let mut count = 0usize;
    'bits: for i in 0..bits.len() {
        count += one_if(bits.get(i));
    }
    count
}

/// Appends all cycles that were compared, or the first one that differs.
fn push_outcome(text: &mut Vec<u8>, agreed: u64, differing: &[CycleEnd]) -> Result<(), NoMemory>
    ensures { OnOk result (text.new.items ≡ text.old.items ++ outcome_text agreed differing.now) }
{
    match differing {
        [] => {
            push_piece(text, b" agree 0..")?;
            push_number(text, agreed.saturating_sub(1))
        }
        [end, ..] => {
            push_piece(text, b" differ ")?;
            push_number(text, end.cycle)
        }
    }
}

/// Appends the name of a run, and the file of its VCD.
fn push_origin(text: &mut Vec<u8>, origin: &RunOrigin) -> Result<(), NoMemory>
    ensures { OnOk result (text.new.items ≡ text.old.items ++ origin_text origin.now) }
{
    push_piece(text, b" name ")?;
    push_piece(text, origin.run.slice())?;
    push_piece(text, b" vcd ")?;
    push_piece(text, origin.file.slice())
}

/// Appends how many flip-flops the VCD has, how many of their bits are unknown, and the names of both.
fn push_counts(text: &mut Vec<u8>, comparison: &Comparison) -> Result<(), NoMemory>
    ensures { OnOk result (text.new.items ≡ text.old.items ++ counts_text comparison.now) }
{
    push_piece(text, b" flops ")?;
    push_number(text, count_set(&comparison.flops.found) as u64)?;
    push_piece(text, b" unknown ")?;
    push_number(text, comparison.flops.unknown)?;
    push_origin(text, &comparison.origin)
}

/// Appends how a run ended.
fn push_outcome_line(
    text: &mut Vec<u8>,
    number: u64,
    comparison: &Comparison,
) -> Result<(), NoMemory>
    ensures { OnOk result (text.new.items ≡ text.old.items ++ outcome_line number comparison.now) }
{
    push_piece(text, b"run ")?;
    push_number(text, number)?;
    push_outcome(
        text,
        comparison.flops.agreed,
        comparison.flops.differing.slice(),
    )?;
    push_counts(text, comparison)?;
    end_line(text)
}

/// Appends how many cycles a run has, and how many rising edges its VCD, where these differ.
fn push_size(text: &mut Vec<u8>, number: u64, comparison: &Comparison) -> Result<(), NoMemory>
    ensures { OnOk result (text.new.items ≡ text.old.items ++ size_text number comparison.now) }
{
    if comparison.flops.cycles == comparison.flops.edges {
        return Ok(());
    }
    push_piece(text, b"run ")?;
    push_number(text, number)?;
    push_piece(text, b" cycles ")?;
    push_number(text, comparison.flops.cycles)?;
    push_piece(text, b" edges ")?;
    push_number(text, comparison.flops.edges)?;
    end_line(text)
}

/// Appends the time at which the values begin, where that is not 0.
fn push_begin(text: &mut Vec<u8>, number: u64, comparison: &Comparison) -> Result<(), NoMemory>
    ensures { OnOk result (text.new.items ≡ text.old.items ++ begin_text number comparison.now) }
{
    if comparison.flops.begin == 0 {
        return Ok(());
    }
    push_piece(text, b"run ")?;
    push_number(text, number)?;
    push_piece(text, b" begin ")?;
    push_number(text, comparison.flops.begin)?;
    end_line(text)
}

/// Appends what differs at the ends of cycles.
#[tactic(auto, using(crate::proofs::TextLemmas::ends_more))]
fn push_ends(text: &mut Vec<u8>, ends: &[CycleEnd], signals: &[Signal<'_>]) -> Result<(), NoMemory>
    requires { All (λ s. length s.places < 2 ^ 32) signals.now }
    ensures { OnOk result (text.new.items ≡ text.old.items ++ flat_map (difference_text (map signal_in signals.now)) ends.now) }
{
    'ends: for end in ends {
        push_differences(text, end, signals)?;
    }
    Ok(())
}

/// Appends the lines of a run's flip-flops.
fn push_flops(
    text: &mut Vec<u8>,
    flops: &[Signal<'_>],
    number: u64,
    comparison: &Comparison,
) -> Result<(), NoMemory>
    requires { All (λ s. length s.places < 2 ^ 32) flops.now }
    ensures { OnOk result (text.new.items ≡ text.old.items ++ flops_text (map signal_in flops.now) number comparison.now) }
{
    push_outcome_line(text, number, comparison)?;
    push_size(text, number, comparison)?;
    push_begin(text, number, comparison)?;
    push_ends(text, comparison.flops.differing.slice(), flops)
}

/// Appends words and a number of a run.
fn push_word_line(text: &mut Vec<u8>, number: u64, words: &[u8], count: u64) -> Result<(), NoMemory>
    ensures { OnOk result (text.new.items ≡ text.old.items ++ word_line number words.now count) }
{
    push_piece(text, b"run ")?;
    push_number(text, number)?;
    push_piece(text, words)?;
    push_number(text, count)?;
    end_line(text)
}

/// Appends the run whose data inputs are just those of the VCD, where there is one.
fn push_like(text: &mut Vec<u8>, number: u64, like: Option<u32>) -> Result<(), NoMemory>
    ensures { OnOk result (text.new.items ≡ text.old.items ++ like_text number like) }
{
    match like {
        None => Ok(()),
        Some(i) => push_word_line(text, number, b" inputs of run ", i as u64 + 1),
    }
}

/// Appends the data inputs that differ at the end of a cycle.
fn push_other(
    text: &mut Vec<u8>,
    inputs: &[Signal<'_>],
    number: u64,
    like: Option<u32>,
    end: &CycleEnd,
) -> Result<(), NoMemory>
    requires { All (λ s. length s.places < 2 ^ 32) inputs.now }
    ensures { OnOk result (text.new.items ≡ text.old.items ++ other_text (map signal_in inputs.now) number like (end.now ∷ [])) }
{
    push_word_line(text, number, b" inputs differ ", end.cycle)?;
    push_differences(text, end, inputs)?;
    push_like(text, number, like)
}

/// Appends the data inputs that differ at the end of the first of these cycles.
fn push_others(
    text: &mut Vec<u8>,
    inputs: &[Signal<'_>],
    number: u64,
    like: Option<u32>,
    differing: &[CycleEnd],
) -> Result<(), NoMemory>
    requires { All (λ s. length s.places < 2 ^ 32) inputs.now }
    ensures { OnOk result (text.new.items ≡ text.old.items ++ other_text (map signal_in inputs.now) number like differing.now) }
{
    match differing {
        [] => Ok(()),
        [end, ..] => push_other(text, inputs, number, like, end),
    }
}

/// Appends that data inputs are not known.
fn push_unread(text: &mut Vec<u8>, number: u64) -> Result<(), NoMemory>
    ensures { OnOk result (text.new.items ≡ text.old.items ++ unread_line number) }
{
    push_piece(text, b"run ")?;
    push_number(text, number)?;
    push_piece(text, b" inputs unknown")?;
    end_line(text)
}

/// Appends the lines of a run's data inputs.
fn push_inputs(
    text: &mut Vec<u8>,
    inputs: &[Signal<'_>],
    number: u64,
    comparison: &InputComparison,
) -> Result<(), NoMemory>
    requires { All (λ s. length s.places < 2 ^ 32) inputs.now }
    ensures { OnOk result (text.new.items ≡ text.old.items ++ inputs_text (map signal_in inputs.now) number comparison.now) }
{
    if comparison.known {
        push_others(
            text,
            inputs,
            number,
            comparison.like,
            comparison.differing.slice(),
        )
    } else {
        push_unread(text, number)
    }
}

/// Appends the lines of a run.
fn push_run(
    text: &mut Vec<u8>,
    flops: &[Signal<'_>],
    inputs: &[Signal<'_>],
    number: u64,
    comparison: &Comparison,
) -> Result<(), NoMemory>
    requires stored { All (λ s. length s.places < 2 ^ 32) flops.now }
    requires given { All (λ s. length s.places < 2 ^ 32) inputs.now }
    ensures { OnOk result (text.new.items ≡ text.old.items ++ run_text (map signal_in flops.now) (map signal_in inputs.now) number comparison.now) }
{
    push_flops(text, flops, number, comparison)?;
    push_inputs(text, inputs, number, &comparison.inputs)
}

/// Appends the lines of the run at a place.
#[tactic(auto, using(crate::proofs::TextLemmas::run_there))]
fn push_run_at(
    text: &mut Vec<u8>,
    flops: &[Signal<'_>],
    inputs: &[Signal<'_>],
    comparisons: &[Comparison],
    i: usize,
) -> Result<(), NoMemory>
    requires stored { All (λ s. length s.places < 2 ^ 32) flops.now }
    requires given { All (λ s. length s.places < 2 ^ 32) inputs.now }
    requires there { i < length comparisons.now }
    requires small { i + 1 < 2 ^ 64 }
    ensures { OnOk result (text.new.items ≡ text.old.items ++ run_at (map signal_in flops.now) (map signal_in inputs.now) comparisons.now i) }
{
    push_run(text, flops, inputs, i as u64 + 1, &comparisons[i])?;
    Ok(())
}

/// Appends the lines of all runs.
#[tactic(auto, using(bs_bits::proofs::RangeLemmas::places_step))]
fn push_runs(
    text: &mut Vec<u8>,
    flops: &[Signal<'_>],
    inputs: &[Signal<'_>],
    comparisons: &[Comparison],
) -> Result<(), NoMemory>
    requires stored { All (λ s. length s.places < 2 ^ 32) flops.now }
    requires given { All (λ s. length s.places < 2 ^ 32) inputs.now }
    ensures { OnOk result (text.new.items ≡ text.old.items ++ flat_map (run_at (map signal_in flops.now) (map signal_in inputs.now) comparisons.now) (range_with_len 0 (length comparisons.now))) }
{
    'runs: for i in 0..comparisons.len() {
        push_run_at(text, flops, inputs, comparisons, i)?;
    }
    Ok(())
}

/// The text by signals.
fn text_of(
    alloc: Global,
    flops: &[Signal<'_>],
    inputs: &[Signal<'_>],
    comparisons: &[Comparison],
) -> Result<Vec<u8>, NoMemory>
    requires stored { All (λ s. length s.places < 2 ^ 32) flops.now }
    requires given { All (λ s. length s.places < 2 ^ 32) inputs.now }
    ensures { IfOk result (λ text. text.items ≡ check_text (map signal_in flops.now) (map signal_in inputs.now) comparisons.now) }
{
    let mut text = Vec::new(alloc);
    push_runs(&mut text, flops, inputs, comparisons)?;
    push_all_missing(&mut text, flops, comparisons)?;
    Ok(text)
}

/// The text by the signals of the flip-flops.
fn text_by(
    alloc: Global,
    net: &Netlist,
    flops: &[Signal<'_>],
    comparisons: &[Comparison],
) -> Result<Vec<u8>, NoMemory>
    requires narrow { All (λ s. length s.places < 2 ^ 32) flops.now }
    requires stored { AreSignals [] (flop_keys net.now.raw) (map signal_in flops.now) }
    ensures { IfOk result (λ text. TellsCheck net.now.raw comparisons.now text.items) }
{
    match input_signals(alloc, net, &[]) {
        Ok(inputs) => text_of(alloc, flops, inputs.as_slice(), comparisons),
        Err(refused) => Err(refused),
    }
}

/// A line for each run, with the lines of what differs at the end of its first cycle that differs, and those of its data inputs; then the
/// lines of what some VCD does not have.
pub fn check_text(
    alloc: Global,
    net: &Netlist,
    comparisons: &[Comparison],
) -> Result<Vec<u8>, NoMemory>
    ensures { IfOk result (λ text. TellsCheck net.now.raw comparisons.now text.items) }
{
    match flop_signals(alloc, net, &[]) {
        Ok(flops) => text_by(alloc, net, flops.as_slice(), comparisons),
        Err(refused) => Err(refused),
    }
}
