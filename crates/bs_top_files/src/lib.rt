//! The walk over the files of a job: each is fetched, read and checked before the next, up to what they make
//! ready or the first refusal; and the netlist of a text of one module or of several.
//!
//! Of files: `refusals` (the words behind a file's name), `netlist`, `texts`, `extent` (a reader each,
//! `*_or_diagnostic`: a value, or the line and the note of one refusal, made of one reading), `ready`
//! (`Setup`, `MomentFiles`, `CrashFiles`, `AuditFiles`: what is ready, with what is right of it), `loading`
//! (`load_crash_files` and its kin: each file is fetched and read once, for both programs). Used above:
//! `WalksDiagnosed CheckSays NoteSays ..`, that the code followed the plan of `specs/Entry`, with a line and a
//! note that go with what stopped it (`specs/Causes`: `Case`, the causes of a refusal); `text_in`
//! (`specs/Readings`), what a netlist's text is. A fault: its words in `specs/Refusals` and an arm in
//! `refusals`. A file: its reading, its plan and a walk.
//!
//! Of a netlist's text: `single` (a text of fewer than two modules, cells aside), `several` (modules, order,
//! connections, flat netlist), `reader` (`read`). Used above: `read` answers exactly as bs_flat_meaning's
//! `IsAnswer` says (`specs/Answers`). A refusal of several modules stands in the crate of its step.
#![tactic(auto)]

mod extent;
mod limits;
mod loading;
mod netlist;
mod reader;
mod readings;
mod ready;
mod refusals;
mod several;
mod single;
mod texts;

pub use extent::{moment_or_diagnostic, partial_diagnostic, size_or_diagnostic};
pub use limits::MAX_WAVE_VALUES;
pub use loading::{
    load_audit_files, load_crash_files, load_drawn, load_dump, load_moment_files, load_netlist,
    load_report, load_setup, load_signature, load_stimulus,
};
pub use netlist::netlist_or_diagnostic;
pub use reader::read;
pub use readings::{is_known, read_choice};
pub use ready::{AuditFiles, CrashFiles, FileNames, MomentFiles, Setup};
pub use refusals::worded;
pub use texts::{
    dump_or_diagnostic, report_or_diagnostic, signature_or_diagnostic, stimulus_or_diagnostic,
};
