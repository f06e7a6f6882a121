//! The line of a backtrace of a generated job.
ghost use Rattle.std.specs.Prelude.{◌≡◌, ◌≤◌, ◌++◌, ◌∷◌, [], codes, decimal, length, All, IfOk, OnOk, count_by};
ghost use Rattle.std.specs.List.{sum_by};
ghost use Rattle.bs_report.specs.Text.{stop_word};
ghost use Rattle.bs_top.specs.Summary.{is_finished, is_finished_end, listed_in, summary_text};

use bs_bits::{NoMemory, end_line, push_number, push_piece};
use bs_report::{ListEnd, MAX_CANDIDATES, MAX_STEPS, Report, Step, Stop};
use std::alloc::Global;

/// How many lists are finished.
fn finished(steps: &[Step]) -> usize
    ensures { result ≡ count_by is_finished steps.now }
{
    let mut count = 0;
    'steps: for step in steps {
        if is_end(step.end) {
            count += 1;
        }
    }
    count
}

/// Whether a list is finished.
fn is_end(end: ListEnd) -> bool
    ensures { result ≡ is_finished_end end }
{
    match end {
        ListEnd::Finished(_) => true,
        ListEnd::Candidates => false,
        ListEnd::Conflicts => false,
    }
}

/// How many candidates stand in all lists.
fn listed(steps: &[Step]) -> u64
    requires count { length steps.now ≤ MAX_STEPS }
    requires each { All (λ step. length step.cands ≤ MAX_CANDIDATES) steps.now }
    ensures { result ≡ listed_in steps.now }
{
    let mut sum = 0;
    'steps: for step in steps {
        sum += step.cands.len() as u64;
    }
    sum
}

/// Appends a word and a number.
fn push_count(text: &mut Vec<u8>, word: &[u8], number: u64) -> Result<(), NoMemory>
    ensures { OnOk result (text.new.items ≡ text.old.items ++ (word.now ++ decimal number)) }
{
    push_piece(text, word)?;
    push_number(text, number)
}

/// Appends the word of a stop.
fn push_stop(text: &mut Vec<u8>, stop: Stop) -> Result<(), NoMemory>
    ensures { OnOk result (text.new.items ≡ text.old.items ++ stop_word stop) }
{
    match stop {
        Stop::Reset => push_piece(text, b"reset"),
        Stop::Length => push_piece(text, b"length"),
        Stop::Nohit => push_piece(text, b"nohit"),
        Stop::Empty => push_piece(text, b"empty"),
        Stop::Candidates => push_piece(text, b"candidates"),
        Stop::Conflicts => push_piece(text, b"conflicts"),
    }
}

/// Appends the line of a backtrace.
fn push_summary(text: &mut Vec<u8>, number: u64, report: &Report) -> Result<(), NoMemory>
    requires count { length report.now.steps ≤ MAX_STEPS }
    requires each { All (λ step. length step.cands ≤ MAX_CANDIDATES) report.now.steps }
    ensures { OnOk result (text.new.items ≡ text.old.items ++ summary_text number report.now) }
{
    push_count(text, b"demo ", number)?;
    push_count(text, b" steps ", report.steps.len() as u64)?;
    push_count(text, b" finished ", finished(report.steps.slice()) as u64)?;
    push_count(text, b" listed ", listed(report.steps.slice()))?;
    push_piece(text, b" stop ")?;
    push_stop(text, report.stop)?;
    end_line(text)
}

/// The line that tells what the backtrace of a number's job found: its steps, finished lists, candidates and stop.
pub fn summary_line(alloc: Global, number: u64, report: &Report) -> Result<Vec<u8>, NoMemory>
    requires count { length report.now.steps ≤ MAX_STEPS }
    requires each { All (λ step. length step.cands ≤ MAX_CANDIDATES) report.now.steps }
    ensures { IfOk result (λ text. text.items ≡ summary_text number report.now) }
{
    let mut text = Vec::new(alloc);
    push_summary(&mut text, number, report)?;
    Ok(text)
}
