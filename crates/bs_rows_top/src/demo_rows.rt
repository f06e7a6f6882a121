//! The generated job: run 1's dump at cycle 256 is traced back by two steps.

use crate::calls::{Answer, SOUND, called};
use bs_gen::{GeneratedJob, make};
use bs_outside::NoMemory;
use bs_top::Status;
use std::alloc::Global;
use std::test::Fail;

/// How many lines of a text begin so.
fn lines_of(text: &str, start: &str) -> usize {
    text.lines().filter(|line| line.starts_with(start)).count()
}

/// Whether a step's list is finished with eight candidates.
fn has_eight(step: &str) -> bool {
    lines_of(step, "cand ") == 8 && lines_of(step, "list finished ") == 1
}

/// Whether two steps are finished, and hit run 1 at cycles 255 and 254.
fn is_two_steps(first: &str, second: &str) -> bool {
    has_eight(first)
        && has_eight(second)
        && first.contains("\nhit 1 255 ")
        && second.contains("\nhit 1 254 ")
        && second.contains("\nstop length\n")
}

/// Whether a report is of two such steps.
fn is_traced(report: &[u8]) -> bool {
    match str::from_utf8(report) {
        Ok(text) => match text.split_once("\nstep 2\n") {
            Some((first, second)) => is_two_steps(first, second),
            None => false,
        },
        Err(_) => false,
    }
}

/// Whether an answer is done, with a report of two such steps.
fn is_done(answer: &Answer) -> bool {
    answer.status == Status::Done && is_traced(&answer.out)
}

/// Whether a run on these files is.
fn is_run(alloc: Global, texts: &[&str; 5]) -> Result<bool, NoMemory> {
    let line = "run n s t d --steps 2 --candidates 64 --conflicts 10000";
    match called(alloc, line, texts, SOUND) {
        Ok(answer) => Ok(is_done(&answer)),
        Err(fault) => Err(fault),
    }
}

/// The same from this dump.
fn is_run_from(alloc: Global, texts: &[&str; 3], dump: &[u8]) -> Result<bool, NoMemory> {
    match str::from_utf8(dump) {
        Ok(dump) => is_run(alloc, &[texts[0], texts[1], texts[2], dump, ""]),
        Err(_) => Ok(false),
    }
}

/// The same from the dump of run 1 at cycle 256.
fn is_dumped_and_run(alloc: Global, texts: &[&str; 3]) -> Result<bool, NoMemory> {
    let files = [texts[0], texts[1], texts[2], "", ""];
    match called(alloc, "dump n s t 1 256", &files, SOUND) {
        Ok(answer) => is_run_from(alloc, texts, &answer.out),
        Err(fault) => Err(fault),
    }
}

/// The same of the texts of a job.
fn is_job(alloc: Global, job: &GeneratedJob) -> Result<bool, NoMemory> {
    match (
        str::from_utf8(job.netlist.slice()),
        str::from_utf8(job.signature.slice()),
        str::from_utf8(job.stimulus.slice()),
    ) {
        (Ok(netlist), Ok(signature), Ok(stimulus)) => {
            is_dumped_and_run(alloc, &[netlist, signature, stimulus])
        }
        _ => Ok(false),
    }
}

/// Whether the job with this number is traced back so.
fn is_traced_back(alloc: Global, number: u64) -> Result<bool, NoMemory> {
    match make(alloc, number) {
        Ok(job) => is_job(alloc, &job),
        Err(fault) => Err(fault),
    }
}

#[test]
fn a_generated_job_is_traced_back(rt: HostRuntime) -> Result<(), Fail> {
    assert!(rt; is_traced_back(rt.alloc(), 7)?);
    Ok(())
}
