//! The lists of a report: what all candidates of a list share, and where they differ.
ghost use Rattle.std.specs.Prelude.{◌≡◌, ◌<◌, ◌+◌, ◌^◌, ◌++◌, length, map, slice_get, All, IfOk, OnOk};
ghost use Rattle.std.specs.List.{flat_map, list_any};
ghost use Rattle.bs_inspect_view.specs.Signals.{signal_in};
ghost use Rattle.bs_inspect_report_texts.specs.Lists.{TellsLists, differ_line, differ_words, each_words, list_at, list_lines, list_of, list_piece, lists_lines, lists_text as lists_text_of, mark_of, marks_of, pattern_text, value_in, values_in};
ghost use Rattle.bs_inspect_report.specs.Steps.{differs_at};

use bs_bits::{Bits, NoMemory, end_line, push_number, push_piece};
use bs_inspect_report::{
    bit_at, differs_at, flop_signals, lemmas_logged, member, push_at, push_signal,
    push_signal_value,
};
use bs_inspect_view::{Signal, push_name};
use bs_net::Netlist;
use bs_report::{Cand, Report};
use std::alloc::Global;

/// Whether one of these candidates has another bit than this state at one of these places.
fn differ(first: &Bits, rest: &[Cand], places: &[u32]) -> bool
    ensures { result ≡ list_any (differs_at first.now rest.now) places.now }
{
    places
        .iter()
        .any(|place| differs_at(first, rest, *place as usize))
}

/// Appends a bit in which candidates differ, or one that all share.
fn push_mark(text: &mut Vec<u8>, differs: bool, bit: bool) -> Result<(), NoMemory>
    ensures { OnOk result (text.new.items ≡ text.old.items ++ mark_of differs bit) }
{
    if differs {
        return push_piece(text, b"?");
    }
    if bit {
        push_piece(text, b"1")
    } else {
        push_piece(text, b"0")
    }
}

/// Appends the bits of a signal, the greatest first.
fn push_marks(
    text: &mut Vec<u8>,
    first: &Bits,
    rest: &[Cand],
    places: &[u32],
) -> Result<(), NoMemory>
    ensures { OnOk result (text.new.items ≡ text.old.items ++ marks_of first.now rest.now places.now) }
{
    'places: for &place in places {
        let differs = differs_at(first, rest, place as usize);
        push_mark(text, differs, bit_at(first, place as usize))?;
    }
    Ok(())
}

/// Appends the bits of a signal: a vector's as a number of base 2.
#[tactic(auto, unfolding(crate::specs::Lists::pattern_text))]
fn push_pattern(
    text: &mut Vec<u8>,
    first: &Bits,
    rest: &[Cand],
    places: &[u32],
) -> Result<(), NoMemory>
    ensures { OnOk result (text.new.items ≡ text.old.items ++ pattern_text first.now rest.now places.now) }
{
    if places.len() == 1 {
        return push_marks(text, first, rest, places);
    }
    push_piece(text, b"0b")?;
    push_marks(text, first, rest, places)
}

/// Appends the value of a signal in a state, behind a space.
fn push_value_in(text: &mut Vec<u8>, places: &[u32], state: &Bits) -> Result<(), NoMemory>
    requires { length places.now < 2 ^ 32 }
    ensures { OnOk result (text.new.items ≡ text.old.items ++ value_in places.now state.now) }
{
    push_piece(text, b" ")?;
    push_signal_value(text, state, places)
}

/// Appends the value of a signal in each of these candidates.
fn push_values_in(text: &mut Vec<u8>, places: &[u32], cands: &[Cand]) -> Result<(), NoMemory>
    requires { length places.now < 2 ^ 32 }
    ensures { OnOk result (text.new.items ≡ text.old.items ++ values_in places.now cands.now) }
{
    'cands: for cand in cands {
        push_value_in(text, places, &cand.state)?;
    }
    Ok(())
}

/// Appends the value of a signal in each candidate of a list.
#[tactic(auto, unfolding(crate::specs::Lists::each_words))]
fn push_each(
    text: &mut Vec<u8>,
    first: &Bits,
    rest: &[Cand],
    places: &[u32],
) -> Result<(), NoMemory>
    requires { length places.now < 2 ^ 32 }
    ensures { OnOk result (text.new.items ≡ text.old.items ++ each_words first.now rest.now places.now) }
{
    push_piece(text, b" in")?;
    push_value_in(text, places, first)?;
    push_values_in(text, places, rest)
}

/// Appends the number of a step, and the name of a signal in which candidates differ.
#[tactic(auto, unfolding(crate::specs::Lists::differ_words))]
fn push_differ_words(text: &mut Vec<u8>, number: u64, signal: &Signal<'_>) -> Result<(), NoMemory>
    ensures { OnOk result (text.new.items ≡ text.old.items ++ differ_words number (signal_in signal.now)) }
{
    push_number(text, number)?;
    push_piece(text, b" differ ")?;
    push_name(text, signal)?;
    push_piece(text, b" = ")
}

/// Appends the line of a signal in which candidates differ.
fn push_differ(
    text: &mut Vec<u8>,
    number: u64,
    first: &Bits,
    rest: &[Cand],
    signal: &Signal<'_>,
) -> Result<(), NoMemory>
    requires { length signal.now.places < 2 ^ 32 }
    ensures { OnOk result (text.new.items ≡ text.old.items ++ differ_line number first.now rest.now (signal_in signal.now)) }
{
    push_differ_words(text, number, signal)?;
    push_pattern(text, first, rest, signal.places.slice())?;
    push_each(text, first, rest, signal.places.slice())?;
    end_line(text)
}

/// Appends the line of a signal of a list.
fn push_listed(
    text: &mut Vec<u8>,
    number: u64,
    first: &Bits,
    rest: &[Cand],
    signal: &Signal<'_>,
) -> Result<(), NoMemory>
    requires { length signal.now.places < 2 ^ 32 }
    ensures { OnOk result (text.new.items ≡ text.old.items ++ list_piece number first.now rest.now (signal_in signal.now)) }
{
    if differ(first, rest, signal.places.slice()) {
        push_differ(text, number, first, rest, signal)
    } else {
        push_signal(text, b" same ", number, None, first, signal)
    }
}

/// Appends the lines of the signals of a list, with its first candidate's state and the others.
#[tactic(auto, using(crate::proofs::ListLemmas::list_more))]
fn push_listed_all(
    text: &mut Vec<u8>,
    number: u64,
    first: &Bits,
    rest: &[Cand],
    flops: &[Signal<'_>],
) -> Result<(), NoMemory>
    requires { All (λ s. length s.places < 2 ^ 32) flops.now }
    ensures { OnOk result (text.new.items ≡ text.old.items ++ flat_map (list_piece number first.now rest.now) (map signal_in flops.now)) }
{
    'signals: for signal in flops {
        push_listed(text, number, first, rest, signal)?;
    }
    Ok(())
}

/// Appends the lines of the signals of a list.
fn push_list(
    text: &mut Vec<u8>,
    number: u64,
    cands: &[Cand],
    flops: &[Signal<'_>],
) -> Result<(), NoMemory>
    requires { All (λ s. length s.places < 2 ^ 32) flops.now }
    ensures { OnOk result (text.new.items ≡ text.old.items ++ list_lines number cands.now (map signal_in flops.now)) }
{
    match cands {
        [] => Ok(()),
        [first, rest @ ..] => push_listed_all(text, number, &first.state, rest, flops),
    }
}

/// Appends the list of the step at a place.
fn push_list_of(
    text: &mut Vec<u8>,
    report: &Report,
    flops: &[Signal<'_>],
    i: usize,
) -> Result<(), NoMemory>
    requires few { All (λ s. length s.places < 2 ^ 32) flops.now }
    requires small { i + 1 < 2 ^ 64 }
    ensures { OnOk result (text.new.items ≡ text.old.items ++ list_of i (map signal_in flops.now) (slice_get report.now.steps i)) }
{
    match member(&report.steps, i) {
        Some(step) => push_list(text, i as u64 + 1, step.cands.slice(), flops),
        None => Ok(()),
    }
}

/// Appends the line of the step at a place, and its list.
fn push_list_at(
    text: &mut Vec<u8>,
    report: &Report,
    lemmas: &[u64],
    flops: &[Signal<'_>],
    i: usize,
) -> Result<(), NoMemory>
    requires few { All (λ s. length s.places < 2 ^ 32) flops.now }
    requires there { i < length report.now.steps }
    requires small { i + 1 < 2 ^ 64 }
    ensures { OnOk result (text.new.items ≡ text.old.items ++ list_at report.now lemmas.now (map signal_in flops.now) i) }
{
    push_at(text, report, lemmas, i)?;
    push_list_of(text, report, flops, i)
}

/// Appends the steps with their lists.
#[tactic(auto, using(bs_bits::proofs::RangeLemmas::places_step))]
fn push_lists(
    text: &mut Vec<u8>,
    report: &Report,
    lemmas: &[u64],
    flops: &[Signal<'_>],
) -> Result<(), NoMemory>
    requires { All (λ s. length s.places < 2 ^ 32) flops.now }
    ensures { OnOk result (text.new.items ≡ text.old.items ++ lists_lines report.now lemmas.now (map signal_in flops.now)) }
{
    'steps: for i in 0..report.steps.len() {
        push_list_at(text, report, lemmas, flops, i)?;
    }
    Ok(())
}

/// The text of the lists, with these signals.
fn text_of(alloc: Global, report: &Report, flops: &[Signal<'_>]) -> Result<Vec<u8>, NoMemory>
    requires { All (λ s. length s.places < 2 ^ 32) flops.now }
    ensures { IfOk result (λ text. text.items ≡ lists_text_of report.now (map signal_in flops.now)) }
{
    let lemmas = lemmas_logged(alloc, report.log.slice())?;
    let mut text = Vec::new(alloc);
    push_lists(&mut text, report, lemmas.as_slice(), flops)?;
    Ok(text)
}

/// The steps of a report, each with its line in the text of the steps, and the signals of its list: the value that all candidates share,
/// or the bits in which they differ and the value in each. Where names are given, these alone.
#[tactic(auto, using(crate::proofs::ListLemmas::lists_told))]
pub fn lists_text(
    alloc: Global,
    net: &Netlist,
    report: &Report,
    only: &[&str],
) -> Result<Vec<u8>, NoMemory>
    ensures { IfOk result (λ text. TellsLists net.now.raw report.now (map (λ s. s.now) only.now) text.items) }
{
    match flop_signals(alloc, net, only) {
        Ok(flops) => text_of(alloc, report, flops.as_slice()),
        Err(refused) => Err(refused),
    }
}
