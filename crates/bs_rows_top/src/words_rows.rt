//! Worked command lines.
use bs_top_words::{AuditJob, DumpJob, Job, ReachJob, RunJob, read_words};
use std::alloc::{AllocError, Global};
use std::test::Fail;

/// The words of a line, with one space between two.
fn words_of(alloc: Global, line: &str) -> Result<Vec<String>, AllocError> {
    let mut words = Vec::new(alloc);
    for word in line.split(' ') {
        words.push(String::from_str(alloc, word)?)?;
    }
    Ok(words)
}

/// A run in one text.
fn run_text(alloc: Global, job: &RunJob<'_>) -> Result<String, AllocError> {
    let (netlist, signature, stimulus, dump) = (job.netlist, job.signature, job.stimulus, job.dump);
    let (steps, candidates, conflicts) = (job.steps, job.candidates, job.conflicts);
    format!(in alloc;
        "run {netlist} {signature} {stimulus} {dump} {steps} {candidates} {conflicts}"
    )
}

/// An audit or a waveform in one text.
fn audit_text(alloc: Global, command: &str, job: &AuditJob<'_>) -> Result<String, AllocError> {
    let (netlist, signature, stimulus) = (job.netlist, job.signature, job.stimulus);
    let (dump, report) = (job.dump, job.report);
    format!(in alloc; "{command} {netlist} {signature} {stimulus} {dump} {report}")
}

/// A dump in one text.
fn dump_text(alloc: Global, job: &DumpJob<'_>) -> Result<String, AllocError> {
    let (netlist, signature, stimulus) = (job.netlist, job.signature, job.stimulus);
    let (run, cycle) = (job.run, job.cycle);
    format!(in alloc; "dump {netlist} {signature} {stimulus} {run} {cycle}")
}

/// A search in one text.
fn reach_text(alloc: Global, job: &ReachJob<'_>) -> Result<String, AllocError> {
    let (netlist, state) = (job.netlist, job.state);
    let (cycles, conflicts) = (job.cycles, job.conflicts);
    format!(in alloc; "reach {netlist} {state} {cycles} {conflicts}")
}

/// A job in one text.
fn job_text(alloc: Global, job: &Job<'_>) -> Result<String, AllocError> {
    match job {
        Job::Run(job) => run_text(alloc, job),
        Job::Audit(job) => audit_text(alloc, "audit", job),
        Job::Dump(job) => dump_text(alloc, job),
        Job::Demo(number) => format!(in alloc; "demo {number}"),
        Job::Wave(job) => audit_text(alloc, "wave", job),
        Job::Reach(job) => reach_text(alloc, job),
    }
}

/// The job of a line of words with one space between two, in one text, or `refused`.
fn shown(alloc: Global, line: &str) -> Result<String, AllocError> {
    let words = words_of(alloc, line)?;
    match read_words(alloc, &words)? {
        Some(job) => job_text(alloc, &job),
        None => String::from_str(alloc, "refused"),
    }
}

/// Lines of words, and what is shown of their jobs.
static LINES: [(&str, &str); 52] = [
    ("run n s t d", "run n s t d 64 256 100000"),
    ("run n s t d --conflicts 1", "run n s t d 64 256 1"),
    ("run n s t d --steps 1", "run n s t d 1 256 100000"),
    ("reach n 01 1024", "reach n 01 1024 100000"),
    ("reach n 01 0 --conflicts 7", "reach n 01 0 7"),
    ("reach n 01 1025", "refused"),
    ("reach n 2 1", "refused"),
    ("run n s t d --steps=65536", "run n s t d 65536 256 100000"),
    (
        "run --candidates 1 n s --steps 5 t d",
        "run n s t d 5 1 100000",
    ),
    (
        "run n s t d --conflicts 1099511627776",
        "run n s t d 64 256 1099511627776",
    ),
    ("run n s t d --conflicts 1099511627777", "refused"),
    ("run n s t d --steps 0", "refused"),
    ("run n s t d --steps 65537", "refused"),
    ("run n s t d --steps 01", "refused"),
    ("run n s t d --steps +5", "refused"),
    ("run n s t d --steps 5 --steps 5", "refused"),
    ("run n s t d --steps=5 --steps 6", "refused"),
    ("run n s t", "refused"),
    ("run n s t d e", "refused"),
    ("run - -- -s --steps -", "run - -s --steps - 64 256 100000"),
    ("run n s -- -- d", "run n s -- d 64 256 100000"),
    ("run n s t d --", "run n s t d 64 256 100000"),
    ("run n  t d", "run n  t d 64 256 100000"),
    ("run n s t d --step 5", "refused"),
    ("wave n s t d r", "wave n s t d r"),
    ("wave n s t d r --steps 5", "refused"),
    ("run n s t d --steps", "refused"),
    ("run n s t d --steps -", "refused"),
    ("run n s t d --steps --", "refused"),
    ("run n s t d --steps=", "refused"),
    ("run n s t d --help", "refused"),
    ("run n s t -d", "refused"),
    ("--help", "refused"),
    ("", "refused"),
    ("Run n s t d", "refused"),
    ("audit n s t d r", "audit n s t d r"),
    ("audit n s t d", "refused"),
    ("audit n s t d r --steps 5", "refused"),
    ("audit n s t d r --steps=5", "refused"),
    ("dump n s t 1 0", "dump n s t 1 0"),
    ("dump n s t 256 65536", "dump n s t 256 65536"),
    ("dump n s t 0 0", "refused"),
    ("dump n s t 257 0", "refused"),
    ("dump n s t 1 65537", "refused"),
    ("dump n s t 1 -0", "refused"),
    ("dump n s t 1", "refused"),
    ("demo 0", "demo 0"),
    ("demo 18446744073709551615", "demo 18446744073709551615"),
    ("demo 18446744073709551616", "refused"),
    ("demo 07", "refused"),
    ("demo -- 7", "demo 7"),
    ("demo", "refused"),
];

/// The first of these lines whose job is another one.
fn first_other<'a>(
    alloc: Global,
    rows: &[(&'a str, &'a str)],
) -> Result<Option<&'a str>, AllocError> {
    for (line, want) in rows {
        let got = shown(alloc, line)?;
        if got.as_str() != *want {
            return Ok(Some(*line));
        }
    }
    Ok(None)
}

#[test]
fn words_and_their_jobs(rt: HostRuntime) -> Result<(), Fail> {
    let alloc = rt.alloc();
    assert!(rt; read_words(alloc, &[])?.is_none());
    assert_eq!(rt; first_other(alloc, &LINES)?, None);
    Ok(())
}
