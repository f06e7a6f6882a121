//! What the program reads and writes: files by name, and the output, with counted faults; and a job as a
//! plan: the files that it comes to one after the other, how it may end, and what is written for each end.
//!
//! Of files and outputs: `shelf` (`Shelf`, `Fetch`), `sink` (`Sink`, `Put`), `memory` (both in memory, with
//! faults on demand), `never_failing` (those that never fail), `once` (a shelf that gives each file once), `null_sink`,
//! `reading` and `writing` (a whole file out of any reader, a piece into any writer), `files` and `streams`
//! (real files, standard output: the trusted edge, each one call of the generic function). Used above:
//! `Fetches`, `Puts` and `CountsFaults`, and `leads`, that a state follows from another by these calls. For
//! another place to read from, write an impl of `Shelf`.
//!
//! A plan knows no netlist and no report: `file`, `status` (the exit codes), `limits` (of files), `file_fetch`
//! (`fetch_file`), `diagnostic` (`Diagnostic`, the words and the note of one refusal; `settle_diagnostic`),
//! `reply` (`Reply`, the refusal lines), `output` (`deliver`). Used above: `WalksDiagnosed`, that one walk
//! follows a plan to an end that agrees with the shelf, and in the same fetches a second plan, whose refusals
//! are the notes; `line_walks` gives `Walks`, the first plan alone; and the clauses of `specs/Clauses`, which
//! follow from `Prepares` and `Delivers`. A new command changes nothing here; a new file is a variant of
//! `File` and of `Status` and a line in each table of `specs/PlanFiles`.
#![tactic(auto)]

mod diagnostic;
mod file;
mod file_fetch;
mod files;
mod limits;
mod memory;
mod never_failing;
mod null_sink;
mod once;
mod output;
mod reading;
mod reply;
mod shelf;
mod sink;
mod status;
mod streams;
mod writing;

pub use bs_bits::NoMemory;
pub use diagnostic::{Diagnostic, Unread, WalkStop, both, settle_diagnostic};
pub use file::File;
pub use file_fetch::{JobFault, Refusal, fetch_file, settle};
pub use files::FileShelf;
pub use limits::{
    MAX_DUMP_BYTES, MAX_MAP_BYTES, MAX_NETLIST_BYTES, MAX_REPORT_BYTES, MAX_SIGNATURE_BYTES,
    MAX_STIMULUS_BYTES, MAX_VCD_BYTES,
};
pub use memory::{MemShelf, MemSink};
pub use never_failing::{SureShelf, SureSink};
pub use null_sink::Deaf;
pub use once::OnceShelf;
pub use output::{Delivered, deliver, deliver_counted};
pub use reading::fetch_opened;
pub use reply::{Reply, refused_words, stopped};
pub use shelf::{Fetch, Shelf};
pub use sink::{Put, Sink, put_text};
pub use status::{NO_MEMORY_CODE, Status};
pub use streams::StdSink;
pub use writing::write_whole;
