//! The lines of an answer, each read by itself.
ghost use Rattle.std.specs.Prelude.{◌≡◌, IfOk, option_map};
ghost use Rattle.bs_reach_answer.specs.Forms.{asked_in, is_block as is_block_line, length_in, outcome_in, outcome_of, plain as plain_of, plain_line_in};
ghost use Rattle.bs_reach.specs.declared.reach.Outcome.TheVariants as outcomes;

use bs_bits::{NoMemory, Words};
use bs_log::Line;
use bs_reach::Outcome;
use bs_reach_unrolled::MAX_FRAMES;
use bs_report::{MAX_CONFLICTS, at_end, is_text, read_behind, read_within, word_behind};
use std::alloc::Global;

/// How many cycles and lemmas were asked for, as a line says.
pub fn read_asked(line: &[u8]) -> Option<(u64, u64)>
    ensures { result ≡ asked_in line.now }
{
    let mut words = Words::of(line);
    let asked = read_behind(&mut words, b"asked", 0, MAX_FRAMES as u64)?;
    let conflicts = read_behind(&mut words, b"conflicts", 1, MAX_CONFLICTS)?;
    at_end(&mut words, (asked, conflicts))
}

/// The length that the last word is.
fn read_length<'a>(words: &mut Words<'a>, asked: u64) -> Option<u64>
    ensures { result ≡ length_in asked words.old }
{
    let word = words.next()?;
    let length = read_within(0, asked, word)?;
    at_end(words, length)
}

/// A length in which the state is reached.
fn reached(length: Option<u64>) -> Option<Outcome>
    ensures { result ≡ option_map (λ j. outcomes.Reached j) length }
{
    match length {
        None => None,
        Some(length) => Some(Outcome::Reached(length)),
    }
}

/// A length that is not settled.
fn unknown(length: Option<u64>) -> Option<Outcome>
    ensures { result ≡ option_map (λ j. outcomes.Unknown j) length }
{
    match length {
        None => None,
        Some(length) => Some(Outcome::Unknown(length)),
    }
}

/// The outcome that this word and those behind it say.
fn read_outcome_of<'a>(word: &[u8], words: &mut Words<'a>, asked: u64) -> Option<Outcome>
    ensures { result ≡ outcome_of asked word.now words.old }
{
    if is_text(word, b"unreached") {
        at_end(words, Outcome::Unreached)
    } else if is_text(word, b"reached") {
        reached(read_length(words, asked))
    } else if is_text(word, b"unknown") {
        unknown(read_length(words, asked))
    } else {
        None
    }
}

/// The outcome that a line says, where so many cycles were asked for.
pub fn read_outcome(line: &[u8], asked: u64) -> Option<Outcome>
    ensures { result ≡ outcome_in asked line.now }
{
    let mut words = Words::of(line);
    let word = word_behind(&mut words, b"result")?;
    read_outcome_of(word, &mut words, asked)
}

/// Whether a line of a log is a block.
fn is_block(line: &Line) -> bool
    ensures { result ≡ is_block_line line.now }
{
    match line {
        Line::Block { .. } => true,
        _ => false,
    }
}

/// The line, if it is no block.
fn plain(line: Line) -> Option<Line>
    ensures { result ≡ plain_of line }
{
    if is_block(&line) { None } else { Some(line) }
}

/// The line of an answer's log that a line says.
pub fn read_line(alloc: Global, line: &[u8]) -> Result<Option<Line>, NoMemory>
    ensures { IfOk result (λ read. read ≡ plain_line_in line.now) }
{
    match Line::read(alloc, line)? {
        None => Ok(None),
        Some(line) => Ok(plain(line)),
    }
}
