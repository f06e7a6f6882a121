//! The places of an answer's text, and what a line gives at each.
ghost use Rattle.std.specs.Prelude.{◌≡◌, IfOk, codes, option_map, Some, None, if◌then◌else◌};
ghost use Rattle.std.specs.Str.{bytes_eq};
ghost use Rattle.bs_bits.specs.Reading.{Answers};
ghost use Rattle.bs_report.specs.Forms.{count_in};
ghost use Rattle.bs_report.specs.declared.fault.ReportFault.TheVariants.{NoMemory as Want};
ghost use Rattle.bs_reach_answer.specs.Reading.{behind_outcome as behind_outcome_of, behind_state as behind_state_of, end_fault, ended};
ghost use Rattle.bs_reach_answer.specs.Reading.{followed, is_done as is_done_place, line_or_fault, log_place as log_place_of, taken};
ghost use Rattle.bs_reach_answer.specs.declared.place.NextLine.TheVariants as places;

use crate::forms::{read_asked, read_line, read_outcome};
use bs_bits::NoMemory;
use bs_reach::{Outcome, Reach};
use bs_report::{ReportFault, is_text, read_bits, read_count};
use std::alloc::Global;

/// What the next line of an answer may be.
#[derive(Clone, Copy)]
pub enum NextLine {
    /// `reach 1`
    Title,
    /// what was asked for
    Asked,
    /// the outcome
    Outcome,
    /// a state of the execution, behind which so many inputs are left
    State(u64),
    /// an input of the execution, of which so many are left
    Input(u64),
    /// the number of log lines
    Log,
    /// a log line, of which so many are left
    Lines(u64),
    /// `end`
    End,
    /// nothing
    Done,
}

/// The place behind an outcome.
fn behind_outcome(outcome: Outcome) -> NextLine
    ensures { result ≡ behind_outcome_of outcome }
{
    match outcome {
        Outcome::Reached(length) => NextLine::State(length),
        Outcome::Unreached => NextLine::Log,
        Outcome::Unknown(_) => NextLine::Log,
    }
}

/// The place behind a state of the execution, where so many inputs are left.
fn behind_state(left: u64) -> NextLine
    ensures { result ≡ behind_state_of left }
{
    if left == 0 {
        NextLine::Log
    } else {
        NextLine::Input(left)
    }
}

/// The place of a log line, where so many are left.
fn log_place(left: u64) -> NextLine
    ensures { result ≡ log_place_of left }
{
    if left == 0 {
        NextLine::End
    } else {
        NextLine::Lines(left)
    }
}

/// The first line.
fn take_title(line: &[u8]) -> Option<NextLine>
    ensures { result ≡ (if bytes_eq line.now (codes "reach 1") then Some places.Asked else None) }
{
    if is_text(line, b"reach 1") {
        Some(NextLine::Asked)
    } else {
        None
    }
}

/// The line of what was asked for.
fn take_asked(answer: &mut Reach, line: &[u8]) -> Option<NextLine>
    ensures { option_map (λ place. (place, answer.new)) result ≡ taken places.Asked answer.old line.now }
{
    match read_asked(line) {
        None => None,
        Some((asked, conflicts)) => {
            answer.asked = asked;
            answer.conflicts = conflicts;
            Some(NextLine::Outcome)
        }
    }
}

/// The line of the outcome.
fn take_outcome(answer: &mut Reach, line: &[u8]) -> Option<NextLine>
    ensures { option_map (λ place. (place, answer.new)) result ≡ taken places.Outcome answer.old line.now }
{
    match read_outcome(line, answer.asked) {
        None => None,
        Some(outcome) => {
            answer.outcome = outcome;
            Some(behind_outcome(outcome))
        }
    }
}

/// A state of the execution.
fn take_state(
    alloc: Global,
    left: u64,
    answer: &mut Reach,
    line: &[u8],
) -> Result<Option<NextLine>, NoMemory>
    ensures { IfOk result (λ next. option_map (λ place. (place, answer.new)) next ≡ taken (places.State left) answer.old line.now) }
{
    match read_bits(alloc, line, b"state")? {
        None => Ok(None),
        Some(state) => {
            answer.states.push(state)?;
            Ok(Some(behind_state(left)))
        }
    }
}

/// An input of the execution.
fn take_input(
    alloc: Global,
    left: u64,
    answer: &mut Reach,
    line: &[u8],
) -> Result<Option<NextLine>, NoMemory>
    ensures { IfOk result (λ next. option_map (λ place. (place, answer.new)) next ≡ taken (places.Input left) answer.old line.now) }
{
    match read_bits(alloc, line, b"input")? {
        None => Ok(None),
        Some(input) => {
            answer.inputs.push(input)?;
            Ok(Some(NextLine::State(left.saturating_sub(1))))
        }
    }
}

/// The number of log lines.
fn take_log(line: &[u8]) -> Option<NextLine>
    ensures { result ≡ option_map (λ n. log_place_of n) (count_in (codes "log") line.now) }
{
    let count = read_count(line, b"log")?;
    Some(log_place(count))
}

/// A log line.
fn take_log_line(
    alloc: Global,
    left: u64,
    answer: &mut Reach,
    line: &[u8],
) -> Result<Option<NextLine>, NoMemory>
    ensures { IfOk result (λ next. option_map (λ place. (place, answer.new)) next ≡ taken (places.Lines left) answer.old line.now) }
{
    match read_line(alloc, line)? {
        None => Ok(None),
        Some(log_line) => {
            answer.log.push(log_line)?;
            Ok(Some(log_place(left.saturating_sub(1))))
        }
    }
}

/// The last line.
fn take_end(line: &[u8]) -> Option<NextLine>
    ensures { result ≡ (if bytes_eq line.now (codes "end") then Some places.Done else None) }
{
    if is_text(line, b"end") {
        Some(NextLine::Done)
    } else {
        None
    }
}

/// The place behind a line, which is one of a form that its own place allows.
fn take(
    alloc: Global,
    place: NextLine,
    answer: &mut Reach,
    line: &[u8],
) -> Result<Option<NextLine>, NoMemory>
    ensures { IfOk result (λ next. option_map (λ place. (place, answer.new)) next ≡ taken place answer.old line.now) }
{
    match place {
        NextLine::Title => Ok(take_title(line)),
        NextLine::Asked => Ok(take_asked(answer, line)),
        NextLine::Outcome => Ok(take_outcome(answer, line)),
        NextLine::State(left) => take_state(alloc, left, answer, line),
        NextLine::Input(left) => take_input(alloc, left, answer, line),
        NextLine::Log => Ok(take_log(line)),
        NextLine::Lines(left) => take_log_line(alloc, left, answer, line),
        NextLine::End => Ok(take_end(line)),
        NextLine::Done => Ok(None),
    }
}

/// Whether nothing may follow.
fn is_done(place: NextLine) -> bool
    ensures { result ≡ is_done_place place }
{
    match place {
        NextLine::Done => true,
        _ => false,
    }
}

/// The place behind the whole line with this number, where something may follow.
fn follow_on(
    alloc: Global,
    number: u64,
    place: NextLine,
    answer: &mut Reach,
    line: &[u8],
) -> Result<NextLine, ReportFault>
    ensures { Answers Want (λ next. (next, answer.new)) result (line_or_fault number (taken place answer.old line.now)) }
{
    match take(alloc, place, answer, line)? {
        Some(next) => Ok(next),
        None => Err(ReportFault::Line(number)),
    }
}

/// The place behind the whole line with this number.
pub fn follow(
    alloc: Global,
    number: u64,
    place: NextLine,
    answer: &mut Reach,
    line: &[u8],
) -> Result<NextLine, ReportFault>
    ensures { Answers Want (λ next. (next, answer.new)) result (followed number place answer.old line.now) }
{
    if is_done(place) {
        Err(ReportFault::Extra)
    } else {
        follow_on(alloc, number, place, answer, line)
    }
}

/// What is wrong with a text that ends at a place with these bytes behind its last line.
fn end_fault(place: NextLine, rest: &[u8]) -> Option<ReportFault>
    ensures { result ≡ end_fault place rest.now }
{
    if !is_done(place) {
        Some(ReportFault::Short)
    } else if rest.is_empty() {
        None
    } else {
        Some(ReportFault::Extra)
    }
}

/// The answer, where the text ends behind its last line.
#[tactic(auto, using(crate::proofs::EndLemmas::ended_right, crate::proofs::EndLemmas::ended_wrong))]
pub fn finish(place: NextLine, answer: Reach, rest: &[u8]) -> Result<Reach, ReportFault>
    ensures { result ≡ ended place answer rest.now }
{
    match end_fault(place, rest) {
        None => Ok(answer),
        Some(fault) => Err(fault),
    }
}
