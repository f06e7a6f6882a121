//! The words of a command line: which are a job of `backspace`, and which one they are.
//!
//! Modules: `options` (numbers between bounds), `line` (the words behind the command, one after
//! another), `job` (`Job`, `read_words`), `fault` (`word_fault`: which word is wrong, where they are
//! no job). Used above: `read_words` answers the job that the words spell (`specs/Spelling`, a
//! relation without an order of reading); `job_of` is it as a function, for plans; `IsWordFault`
//! (`specs/Faults`) says in the same pieces what is wrong. A command: a record and a variant of
//! `Job`, and a line in `command_job`. An option: a variant of `BudgetKind`, a field of `CommandLine`, and a line
//! in each table of `specs/Options`. The companion's words are parted by the same `read_given`.
#![tactic(auto)]

mod fault;
mod flags;
mod given;
mod job;
mod law;
mod limits;
mod line;
mod options;

pub use fault::{WordFault, word_fault};
pub use flags::{Flag, is_flag};
pub use given::{Given, Setting, read_given};
pub use job::{AuditJob, DumpJob, Job, ReachJob, RunJob, read_words};
pub use law::spelled_jobs_are_read;
pub use limits::{
    DEFAULT_CANDIDATES, DEFAULT_CONFLICTS, DEFAULT_STEPS, MAX_BITS, MAX_BOUND, MAX_CANDIDATES,
    MAX_CONFLICTS, MAX_STEPS, VERSION,
};
pub use options::{BudgetKind, number_between};
