//! The steps of a report, a line each.
ghost use Rattle.std.specs.Prelude.{◌≡◌, ◌<◌, ◌≤◌, ◌+◌, ◌^◌, ◌++◌, length, map, not, count_by, slice_index_or, IfOk, OnOk};
ghost use Rattle.std.specs.Bool.{beq};
ghost use Rattle.std.specs.List.{list_any, range_with_len};
ghost use Rattle.bs_inspect_report.specs.Signal.{bit_at};
ghost use Rattle.bs_inspect_report.specs.Steps.{differing, differing_bits, differs_at, end_words, hit_words, list_word, list_words, one_if, step_at, step_line, steps_text as steps_text_of, steps_lines};

use crate::lemmas::lemmas_logged;
use crate::signal::bit_at;
use bs_bits::{Bits, NoMemory, end_line, push_number, push_piece};
use bs_report::{Cand, HitLine, ListEnd, Report, Step};
use std::alloc::Global;

/// Whether one of these candidates has another bit at a place than this state.
pub fn differs_at(first: &Bits, cands: &[Cand], place: usize) -> bool
    ensures { result ≡ differs_at first.now cands.now place }
{
    cands
        .iter()
        .any(|cand| bit_at(&cand.state, place) != bit_at(first, place))
}

/// 1 where it is so, and else 0.
fn one_if(is: bool) -> usize
    ensures is { result ≡ one_if is }
    ensures small { result ≤ 1 }
{
    if is { 1 } else { 0 }
}

/// At how many places one of these candidates has another bit than this state.
#[tactic(auto, using(crate::proofs::PieceLemmas::count_more))]
fn count_differing(first: &Bits, cands: &[Cand]) -> usize
    ensures { result ≡ count_by (differs_at first.now cands.now) (range_with_len 0 (length first.now)) }
{
    let mut count = 0usize;
    'places: for place in 0..first.len() {
        count += one_if(differs_at(first, cands, place));
    }
    count
}

/// How many flip-flops differ among candidates.
pub fn differing(cands: &[Cand]) -> usize
    ensures { result ≡ differing cands.now }
{
    match cands {
        [] => 0,
        [first, rest @ ..] => count_differing(&first.state, rest),
    }
}

/// For each flip-flop, whether one of these candidates has another bit than this state.
#[tactic(auto, using(crate::proofs::PieceLemmas::bits_more))]
fn differing_from(alloc: Global, first: &Bits, cands: &[Cand]) -> Result<Bits, NoMemory>
    ensures { IfOk result (λ bits. bits ≡ map (differs_at first.now cands.now) (range_with_len 0 (length first.now))) }
{
    let mut bits = Bits::new(alloc);
    'places: for place in 0..first.len() {
        bits.push(differs_at(first, cands, place))?;
    }
    Ok(bits)
}

/// For each flip-flop, whether candidates differ at it.
pub fn differing_bits(alloc: Global, cands: &[Cand]) -> Result<Bits, NoMemory>
    ensures { IfOk result (λ bits. bits ≡ differing_bits cands.now) }
{
    match cands {
        [] => Ok(Bits::new(alloc)),
        [first, rest @ ..] => differing_from(alloc, &first.state, rest),
    }
}

/// Appends the word for the end of a list.
pub fn push_end(text: &mut Vec<u8>, end: ListEnd) -> Result<(), NoMemory>
    ensures { OnOk result (text.new.items ≡ text.old.items ++ list_word end) }
{
    match end {
        ListEnd::Finished(_) => push_piece(text, b"finished"),
        ListEnd::Candidates => push_piece(text, b"candidates"),
        ListEnd::Conflicts => push_piece(text, b"conflicts"),
    }
}

/// Appends the run and the cycle of a hit.
fn push_hit(text: &mut Vec<u8>, hit: &Option<HitLine>) -> Result<(), NoMemory>
    ensures { OnOk result (text.new.items ≡ text.old.items ++ hit_words hit.now) }
{
    match hit {
        Some(hit) => {
            push_piece(text, b" hit ")?;
            push_number(text, u64::from(hit.run))?;
            push_piece(text, b" ")?;
            push_number(text, u64::from(hit.cycle))
        }
        None => push_piece(text, b" nohit"),
    }
}

/// Appends how many candidates a step lists, and how many flip-flops differ among them.
#[tactic(auto, unfolding(crate::specs::Steps::list_words))]
fn push_list(text: &mut Vec<u8>, number: u64, cands: u64, differ: u64) -> Result<(), NoMemory>
    ensures { OnOk result (text.new.items ≡ text.old.items ++ list_words number cands differ) }
{
    push_piece(text, b"step ")?;
    push_number(text, number)?;
    push_piece(text, b" candidates ")?;
    push_number(text, cands)?;
    push_piece(text, b" differ ")?;
    push_number(text, differ)
}

/// Appends how a list ended, how many lemmas it logged, and its hit.
#[tactic(auto, unfolding(crate::specs::Steps::end_words))]
fn push_ending(text: &mut Vec<u8>, lemmas: u64, step: &Step) -> Result<(), NoMemory>
    ensures { OnOk result (text.new.items ≡ text.old.items ++ end_words lemmas step.now) }
{
    push_piece(text, b" list ")?;
    push_end(text, step.end)?;
    push_piece(text, b" lemmas ")?;
    push_number(text, lemmas)?;
    push_hit(text, &step.hit)
}

/// Appends the line of a step.
fn push_step(text: &mut Vec<u8>, number: u64, lemmas: u64, step: &Step) -> Result<(), NoMemory>
    ensures { OnOk result (text.new.items ≡ text.old.items ++ step_line number lemmas step.now) }
{
    let cands = step.cands.slice();
    push_list(text, number, cands.len() as u64, differing(cands) as u64)?;
    push_ending(text, lemmas, step)?;
    end_line(text)
}

/// The number at a place, or 0 past the end.
pub fn number_at(numbers: &[u64], place: usize) -> u64
    ensures { result ≡ slice_index_or numbers.now place 0 }
{
    if place < numbers.len() {
        numbers[place]
    } else {
        0
    }
}

/// Appends the line of the step at a place.
#[tactic(auto, using(crate::proofs::PieceLemmas::step_there))]
pub fn push_at(
    text: &mut Vec<u8>,
    report: &Report,
    lemmas: &[u64],
    i: usize,
) -> Result<(), NoMemory>
    requires there { i < length report.now.steps }
    requires small { i + 1 < 2 ^ 64 }
    ensures { OnOk result (text.new.items ≡ text.old.items ++ step_at report.now lemmas.now i) }
{
    push_step(
        text,
        i as u64 + 1,
        number_at(lemmas, i),
        report.steps.get(i),
    )
}

/// Appends the lines of the steps.
#[tactic(auto, using(bs_bits::proofs::RangeLemmas::places_step))]
fn push_steps(text: &mut Vec<u8>, report: &Report, lemmas: &[u64]) -> Result<(), NoMemory>
    ensures { OnOk result (text.new.items ≡ text.old.items ++ steps_lines report.now lemmas.now) }
{
    'steps: for i in 0..report.steps.len() {
        push_at(text, report, lemmas, i)?;
    }
    Ok(())
}

/// A line for each step of a report: how many candidates it lists, how many flip-flops differ among them, how the list
/// ended, how many lemmas it logged, and its hit.
pub fn steps_text(alloc: Global, report: &Report) -> Result<Vec<u8>, NoMemory>
    ensures { IfOk result (λ text. text.items ≡ steps_text_of report.now) }
{
    let lemmas = lemmas_logged(alloc, report.log.slice())?;
    let mut text = Vec::new(alloc);
    push_steps(&mut text, report, lemmas.as_slice())?;
    Ok(text)
}
