//! The job that words are: a command, its files and its numbers.
ghost use Rattle.std.specs.Prelude.{◌≡◌, map, string_bytes, IfOk, MatchOption};
ghost use Rattle.std.specs.List.{list_all};
ghost use Rattle.bs_top_words.specs.Options.{number_between};
ghost use Rattle.bs_top_words.specs.Job.{audit_job, command_job, demo_job, dump_job, has_budget, is_mark, is_state, job_of, reach_at, reach_job, reach_of, run_job, wave_job};
ghost use Rattle.bs_top_words.specs.Shown.{line_in, shown_job};
ghost use Rattle.bs_top_words.specs.Spelling.{IsJob, IsNoJob};

use crate::limits::{DEFAULT_CANDIDATES, DEFAULT_CONFLICTS, DEFAULT_STEPS, MAX_BOUND};
use crate::line::{CommandLine, read_line};
use crate::options::number_between;
use bs_stim::{MAX_CYCLES, MAX_RUNS};
use std::alloc::{AllocError, Global};

/// `run`: the names of its files, and its budgets.
#[derive(Clone, Copy)]
pub struct RunJob<'a> {
    pub netlist: &'a str,
    pub signature: &'a str,
    pub stimulus: &'a str,
    pub dump: &'a str,
    pub steps: u64,
    pub candidates: u64,
    pub conflicts: u64,
}

/// `audit` and `wave`: the names of their files.
#[derive(Clone, Copy)]
pub struct AuditJob<'a> {
    pub netlist: &'a str,
    pub signature: &'a str,
    pub stimulus: &'a str,
    pub dump: &'a str,
    pub report: &'a str,
}

/// `dump`: the names of its files, and a moment. A run counts from 1, a cycle from 0.
#[derive(Clone, Copy)]
pub struct DumpJob<'a> {
    pub netlist: &'a str,
    pub signature: &'a str,
    pub stimulus: &'a str,
    pub run: u64,
    pub cycle: u64,
}

/// `reach`: the name of its file, and a state, a number of cycles and a budget. The state is one or more characters 0, 1 and -.
#[derive(Clone, Copy)]
pub struct ReachJob<'a> {
    pub netlist: &'a str,
    pub state: &'a str,
    pub cycles: u64,
    pub conflicts: u64,
}

/// What a command line asks for.
#[derive(Clone, Copy)]
pub enum Job<'a> {
    Run(RunJob<'a>),
    Audit(AuditJob<'a>),
    Dump(DumpJob<'a>),
    /// `demo`, with its number.
    Demo(u64),
    Wave(AuditJob<'a>),
    Reach(ReachJob<'a>),
}

/// The run of four file names and the budgets that are given.
fn run_job<'a>(line: &CommandLine<'a>) -> Option<Job<'a>>
    ensures { shown_job result ≡ run_job (line_in line.now) }
{
    match line.positions.as_slice() {
        [netlist, signature, stimulus, dump] => Some(Job::Run(RunJob {
            netlist,
            signature,
            stimulus,
            dump,
            steps: line.steps.unwrap_or(DEFAULT_STEPS),
            candidates: line.candidates.unwrap_or(DEFAULT_CANDIDATES),
            conflicts: line.conflicts.unwrap_or(DEFAULT_CONFLICTS),
        })),
        _ => None,
    }
}

/// The audit of five file names.
fn audit_job<'a>(line: &CommandLine<'a>) -> Option<Job<'a>>
    ensures { shown_job result ≡ audit_job (line_in line.now) }
{
    match line.positions.as_slice() {
        [netlist, signature, stimulus, dump, report] => Some(Job::Audit(AuditJob {
            netlist,
            signature,
            stimulus,
            dump,
            report,
        })),
        _ => None,
    }
}

/// The dump of three file names, a run and a cycle.
fn dump_job<'a>(line: &CommandLine<'a>) -> Option<Job<'a>>
    ensures { shown_job result ≡ dump_job (line_in line.now) }
{
    match line.positions.as_slice() {
        [netlist, signature, stimulus, run, cycle] => {
            match (
                number_between(1, u64::from(MAX_RUNS), run),
                number_between(0, u64::from(MAX_CYCLES), cycle),
            ) {
                (Some(run), Some(cycle)) => Some(Job::Dump(DumpJob {
                    netlist,
                    signature,
                    stimulus,
                    run,
                    cycle,
                })),
                _ => None,
            }
        }
        _ => None,
    }
}

/// The demo of a number.
fn demo_job<'a>(line: &CommandLine<'a>) -> Option<Job<'a>>
    ensures { shown_job result ≡ demo_job (line_in line.now) }
{
    match line.positions.as_slice() {
        [number] => match number_between(0, u64::MAX, number) {
            Some(number) => Some(Job::Demo(number)),
            None => None,
        },
        _ => None,
    }
}

/// The wave of five file names.
fn wave_job<'a>(line: &CommandLine<'a>) -> Option<Job<'a>>
    ensures { shown_job result ≡ wave_job (line_in line.now) }
{
    match line.positions.as_slice() {
        [netlist, signature, stimulus, dump, report] => Some(Job::Wave(AuditJob {
            netlist,
            signature,
            stimulus,
            dump,
            report,
        })),
        _ => None,
    }
}

/// Whether all characters are 0, 1 or -.
fn are_marks(word: &[u8]) -> bool
    ensures { result ≡ list_all is_mark word.now }
{
    word.iter().all(|&c| c == b'0' || c == b'1' || c == b'-')
}

/// Whether a word is a state: one or more characters 0, 1 and -.
fn is_state(word: &str) -> bool
    ensures { result ≡ is_state word.now }
{
    let marks = are_marks(word.as_bytes());
    match word.as_bytes() {
        [] => false,
        _ => marks,
    }
}

/// The search of a netlist for a state, within a number of cycles.
fn reach_of<'a>(netlist: &'a str, state: &'a str, cycles: &str, conflicts: u64) -> Option<Job<'a>>
    ensures { shown_job result ≡ reach_of netlist.now state.now conflicts (is_state state.now) (number_between 0 MAX_BOUND cycles.now) }
{
    match (is_state(state), number_between(0, MAX_BOUND, cycles)) {
        (true, Some(cycles)) => Some(Job::Reach(ReachJob {
            netlist,
            state,
            cycles,
            conflicts,
        })),
        _ => None,
    }
}

/// The search of a file name, a state and a number of cycles.
fn reach_at<'a>(line: &CommandLine<'a>) -> Option<Job<'a>>
    ensures { shown_job result ≡ reach_at (line_in line.now) (line_in line.now).positions }
{
    match line.positions.as_slice() {
        [netlist, state, cycles] => reach_of(
            netlist,
            state,
            cycles,
            line.conflicts.unwrap_or(DEFAULT_CONFLICTS),
        ),
        _ => None,
    }
}

/// The same, where no option is given but the budget of lemmas.
fn reach_job<'a>(line: &CommandLine<'a>) -> Option<Job<'a>>
    ensures { shown_job result ≡ reach_job (line_in line.now) }
{
    match (line.steps, line.candidates) {
        (None, None) => reach_at(line),
        _ => None,
    }
}

/// Whether a command takes options.
pub fn has_budget(command: &str) -> bool
    ensures { result ≡ has_budget command.now }
{
    command == "run" || command == "reach"
}

/// The job that words are, if they are one.
fn job_of_words(alloc: Global, words: &[String]) -> Result<Option<Job<'_>>, AllocError>
    ensures { IfOk result (λ job. shown_job job ≡ job_of (map string_bytes words.now)) }
{
    let [command, rest @ ..] = words else {
        return Ok(None);
    };
    let command = command.as_str();
    let Some(line) = read_line(alloc, has_budget(command), rest)? else {
        return Ok(None);
    };
    Ok(job_in(command, &line))
}

/// The job that the words of a command line are, without the program's name, if they are one. The first word is the
/// command; options belong to `run`, and `--conflicts` to `reach`.
#[tactic(auto, using(crate::proofs::JobLemmas::job_spelled))]
pub fn read_words(alloc: Global, words: &[String]) -> Result<Option<Job<'_>>, AllocError>
    ensures read { IfOk result (λ job. shown_job job ≡ job_of (map string_bytes words.now)) }
    ensures spelled { IfOk result (λ job. MatchOption (shown_job job) (IsNoJob (map string_bytes words.now)) (IsJob (map string_bytes words.now))) }
{
    let job = job_of_words(alloc, words)?;
    Ok(job)
}

/// The job of a command and what stands behind it.
fn job_in<'a>(command: &str, line: &CommandLine<'a>) -> Option<Job<'a>>
    ensures { shown_job result ≡ command_job command.now (line_in line.now) }
{
    if command == "run" {
        return run_job(line);
    }
    if command == "reach" {
        return reach_job(line);
    }
    if command == "audit" {
        return audit_job(line);
    }
    if command == "dump" {
        return dump_job(line);
    }
    if command == "demo" {
        return demo_job(line);
    }
    if command == "wave" {
        return wave_job(line);
    }
    None
}
