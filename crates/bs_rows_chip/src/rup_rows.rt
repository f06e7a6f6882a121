//! Logs of one step and of two, each with one line changed, and their verdicts.
use crate::literals::{clause, clauses, first_literals, literal, one_clause};
use crate::log_rows::lemma_text;
use bs_bits::{List, NoMemory};
use bs_clause::{Clauses, Lits};
use bs_log::{Line, Log};
use bs_rup::{Verdict, Why, check};
use std::alloc::Global;
use std::test::Fail;

/// The log of two steps, of which the first is the first seven lines.
static LINES: [&str; 14] = [
    "s",
    "b 6 -5 3 0",
    "s",
    "7 -5 -4 0 4 1 6 0",
    "e 7",
    "r 8",
    "d 6 7 0",
    "s",
    "b 9 -6 -3 0",
    "s",
    "10 -6 4 0 5 2 9 0",
    "e 10",
    "r 11",
    "d 9 10 0",
];

/// Five clauses.
static CLAUSES: [&[i32]; 5] = [&[-2, -3], &[2, 3], &[-1], &[-4, 2], &[4, -2]];

/// The assumptions of two steps.
static STEPS: [&[i32]; 2] = [&[5, 4], &[6, -4]];

/// The assumptions of the first step, or of two.
fn steps_of(alloc: Global, two_steps: bool) -> Result<List<Lits>, NoMemory> {
    let mut steps = List::new(alloc);
    for (place, numbers) in STEPS.iter().enumerate() {
        if place == 0 || two_steps {
            steps.push(clause(alloc, numbers)?)?;
        }
    }
    Ok(steps)
}

/// Puts the line of a text at the end of a log.
fn push_line(alloc: Global, log: &mut Log, text: &str) -> Result<(), NoMemory> {
    match Line::read(alloc, text.as_bytes())? {
        Some(line) => log.push(line),
        None => Ok(()),
    }
}

/// Puts these lines at the end of a log, with the line of this number changed.
fn push_lines(
    alloc: Global,
    log: &mut Log,
    lines: &[&str],
    number: usize,
    text: &str,
) -> Result<(), NoMemory> {
    for (i, line) in lines.iter().enumerate() {
        push_line(alloc, log, if i + 1 == number { text } else { *line })?;
    }
    Ok(())
}

/// The verdict on the log of at most two steps.
fn checked(
    alloc: Global,
    vars: u16,
    clauses: &Clauses,
    steps: &List<Lits>,
    log: &Log,
) -> Result<Verdict, NoMemory> {
    if steps.len() > 2 {
        return Ok(refused(0, Why::Order));
    }
    check(alloc, u32::from(vars), clauses, steps, log)
}

/// The verdict on a log over these clauses, after the assumptions of one step or of two.
fn verdict_over(
    alloc: Global,
    clauses: &Clauses,
    two_steps: bool,
    log: &Log,
) -> Result<Verdict, NoMemory> {
    let steps = steps_of(alloc, two_steps)?;
    checked(alloc, 4, clauses, &steps, log)
}

/// The same over the five clauses.
fn verdict_on(alloc: Global, two_steps: bool, log: &Log) -> Result<Verdict, NoMemory> {
    let clauses = clauses(alloc, &CLAUSES)?;
    verdict_over(alloc, &clauses, two_steps, log)
}

/// Whether the log has two steps, how many of its lines stand, the number of the line that is changed, and that line; the line and
/// the reason of the refusal.
type Changed<'a> = (bool, usize, usize, &'a str, Option<(u64, Why)>);

/// The verdict on a changed log, which is made in a new one.
fn verdict_in(
    alloc: Global,
    log: &mut Log,
    (two_steps, count, number, text, _): &Changed<'_>,
) -> Result<Verdict, NoMemory> {
    let lines = &LINES[..LINES.len().min(*count)];
    push_lines(alloc, log, lines, *number, text)?;
    verdict_on(alloc, *two_steps, log)
}

/// The verdict on a changed log.
fn verdict(alloc: Global, row: &Changed<'_>) -> Result<Verdict, NoMemory> {
    let mut log = Log::new(alloc);
    verdict_in(alloc, &mut log, row)
}

/// A refusal of a line.
fn refused(line: u64, why: Why) -> Verdict {
    Verdict::Rejected { line, why }
}

/// The logs of one step and of two, whole, cut, too long, and with one line changed.
static LOGS: [Changed<'static>; 19] = [
    (false, 7, 0, "", None),
    (true, 14, 0, "", None),
    (true, 14, 11, "10 -6 4 0 8 5 2 9 0", None),
    (false, 5, 0, "", Some((6, Why::Order))),
    (false, 14, 0, "", Some((8, Why::Order))),
    (false, 7, 6, "r 9", Some((6, Why::Order))),
    (false, 7, 5, "e 6", Some((5, Why::NoClause))),
    (
        false,
        7,
        4,
        "7 -5 -4 -5 0 4 1 6 0",
        Some((4, Why::Duplicate)),
    ),
    (false, 7, 2, "b 6 3 -5 0", Some((2, Why::BadBlock))),
    (false, 7, 4, "7 -5 -4 0 1 6 0", Some((4, Why::NotUnit))),
    (false, 7, 4, "7 -5 -4 0 4 1 0", Some((4, Why::NotFalse))),
    (false, 7, 4, "7 -5 -4 -3 0 4 1 0", Some((5, Why::BadEnd))),
    (
        false,
        7,
        4,
        "7 -5 -4 1073741823 0 4 1 6 0",
        Some((5, Why::BadEnd)),
    ),
    (
        false,
        7,
        4,
        "7 -5 -4 99999 0 4 1 0",
        Some((4, Why::NotFalse)),
    ),
    (
        false,
        7,
        4,
        "7 -5 -4 99999 -99999 0 4 1 6 0",
        Some((4, Why::Duplicate)),
    ),
    (true, 14, 9, "b 9 -5 -3 0", Some((9, Why::BadBlock))),
    (
        true,
        14,
        11,
        "10 -6 4 0 5 2 6 9 0",
        Some((11, Why::NoClause)),
    ),
    (true, 14, 14, "d 8 9 10 0", Some((14, Why::NoClause))),
    (true, 14, 14, "d 10 9 0", Some((14, Why::Order))),
];

/// The number of the first of these logs that has another verdict.
fn first_other(alloc: Global, rows: &[Changed<'_>]) -> Result<Option<usize>, NoMemory> {
    for (i, row) in rows.iter().enumerate() {
        let want = match row.4 {
            Some((line, why)) => refused(line, why),
            None => Verdict::Accepted,
        };
        if verdict(alloc, row)? != want {
            return Ok(Some(i));
        }
    }
    Ok(None)
}

#[test]
fn logs_are_accepted_or_refused_for_their_reason(rt: HostRuntime) -> Result<(), Fail> {
    assert_eq!(rt; first_other(rt.alloc(), &LOGS)?, None);
    Ok(())
}

/// The assumptions of one step.
fn one_step(alloc: Global, assumed: Lits) -> Result<List<Lits>, NoMemory> {
    let mut steps = List::new(alloc);
    steps.push(assumed)?;
    Ok(steps)
}

/// The activation literal of one step of a log over so many variables, and the negations of these.
fn assumed(alloc: Global, variables: u16) -> Result<Lits, NoMemory> {
    let mut assumed = Lits::new(alloc);
    assumed.push(literal(i32::from(variables) + 1))?;
    for variable in 0..variables {
        assumed.push(literal(-i32::from(variable) - 1))?;
    }
    Ok(assumed)
}

/// The verdict on the log of one step with this lemma, which is made in a new one.
fn verdict_of(
    alloc: Global,
    log: &mut Log,
    clauses: &Clauses,
    variables: u16,
    lemma: &str,
) -> Result<Verdict, NoMemory> {
    push_lines(alloc, log, &["s", lemma, "e 2", "r 3", "d 2"], 0, "")?;
    let assumed = assumed(alloc, variables)?;
    let steps = one_step(alloc, assumed)?;
    checked(alloc, variables, clauses, &steps, log)
}

/// The same where the lemma has so many variables.
fn verdict_with(alloc: Global, clauses: &Clauses, variables: u16) -> Result<Verdict, NoMemory> {
    let lemma = lemma_text(alloc, 2, u64::from(variables))?;
    let mut log = Log::new(alloc);
    match str::from_utf8(&lemma) {
        Ok(lemma) => verdict_of(alloc, &mut log, clauses, variables, lemma),
        Err(_) => Ok(refused(0, Why::Order)),
    }
}

/// The verdict on a log of one step, whose lemma is the one clause of so many variables.
fn verdict_on_copy(alloc: Global, variables: u16) -> Result<Verdict, NoMemory> {
    let clause = first_literals(alloc, variables, true)?;
    let clauses = one_clause(alloc, clause)?;
    verdict_with(alloc, &clauses, variables)
}

#[test]
fn a_lemma_of_thousands_of_literals_is_checked(rt: HostRuntime) -> Result<(), Fail> {
    let alloc = rt.alloc();
    assert!(rt; verdict_on_copy(alloc, 1)? == Verdict::Accepted);
    assert!(rt; verdict_on_copy(alloc, 5)? == Verdict::Accepted);
    assert!(rt; verdict_on_copy(alloc, 20_000)? == Verdict::Accepted);
    Ok(())
}
