//! Texts that are lines and texts that are none, small and great, and a log that grows.
use bs_bits::{NoMemory, push_number, push_piece};
use bs_log::{Line, Log};
use std::alloc::Global;
use std::test::Fail;

/// The text of a lemma of the first variables, with one hint.
pub fn lemma_text(alloc: Global, id: u64, variables: u64) -> Result<Vec<u8>, NoMemory> {
    let mut text = Vec::new(alloc);
    push_number(&mut text, id)?;
    for variable in 0..variables {
        push_piece(&mut text, " ".as_bytes())?;
        push_number(&mut text, variable + 1)?;
    }
    push_piece(&mut text, " 0 1 0".as_bytes())?;
    Ok(text)
}

/// Texts that are lines.
static LINES: [&str; 9] = [
    "s",
    "7 -5 -4 0 4 1 6 0",
    "18446744073709551615 1073741823 0 1 0",
    "10 0 5 0",
    "b 6 -5 3 0",
    "e 7",
    "r 8",
    "d 6 7 0",
    "d 9 0",
];

/// Texts that are none.
static OTHERS: [&str; 22] = [
    "",
    "s ",
    " s",
    "s 1",
    "t 1",
    "r 08",
    "r 0",
    "r",
    "r 8 9",
    "r +8",
    "r  8",
    "r 18446744073709551616",
    "7 -5 0 0",
    "7 -5 0 1",
    "7 -5 0 1 0 0",
    "7 1073741824 0 1 0",
    "7 -0 0 1 0",
    "7 --5 0 1 0",
    "b 6 0",
    "b 6 -5 3",
    "d 0",
    "d 6 7",
];

/// Whether a line has this text.
fn has_text(alloc: Global, line: &Line, text: &[u8]) -> Result<bool, NoMemory> {
    let mut written = Vec::new(alloc);
    line.text(&mut written)?;
    Ok(written.as_slice() == text)
}

/// Whether a text is a line that has it again.
fn is_written_back(alloc: Global, text: &[u8]) -> Result<bool, NoMemory> {
    match Line::read(alloc, text)? {
        Some(line) => has_text(alloc, &line, text),
        None => Ok(false),
    }
}

/// Whether a text is no line.
fn is_none(alloc: Global, text: &[u8]) -> Result<bool, NoMemory> {
    Ok(Line::read(alloc, text)?.is_none())
}

#[test]
fn lines_are_read_and_written_back(rt: HostRuntime) -> Result<(), Fail> {
    let alloc = rt.alloc();
    for text in &LINES {
        assert!(rt; is_written_back(alloc, text.as_bytes())?);
    }
    for text in &OTHERS {
        assert!(rt; is_none(alloc, text.as_bytes())?);
    }
    Ok(())
}

/// Whether three lines are kept in a new log.
fn are_kept(log: &mut Log) -> Result<bool, NoMemory> {
    log.push(Line::Solve)?;
    log.push_two(Line::Finish { id: 7 }, Line::Retire { id: 8 })?;
    if log.len() != 3 {
        return Ok(false);
    }
    let finish = matches!(log.get(1), Line::Finish { id: 7 });
    Ok(finish && matches!(log.get(2), Line::Retire { id: 8 }))
}

#[test]
fn a_log_keeps_its_lines(rt: HostRuntime) -> Result<(), Fail> {
    let mut log = Log::new(rt.alloc());
    assert!(rt; are_kept(&mut log)?);
    Ok(())
}

/// Numbers of literals.
static NUMBERS: [u64; 4] = [0, 4, 5, 20_000];

/// Whether the text of a lemma of so many literals is written back.
fn is_lemma(alloc: Global, variables: u64) -> Result<bool, NoMemory> {
    let text = lemma_text(alloc, 9, variables)?;
    is_written_back(alloc, &text)
}

#[test]
fn a_lemma_of_thousands_of_literals_is_read_and_written_back(rt: HostRuntime) -> Result<(), Fail> {
    let alloc = rt.alloc();
    for variables in &NUMBERS {
        assert!(rt; is_lemma(alloc, *variables)?);
    }
    Ok(())
}
