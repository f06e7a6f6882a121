//! The files of a request about a report, recorded runs or flip-flops: each is fetched, read and checked
//! before the next, up to what they make ready or the first refusal.
//!
//! Modules: `refusals` and `flop_refusals` (the words of a refusal), `fits` (whether a report fits a netlist,
//! and names are its own, or a diagnostic), `fit_fault` (why it does not), `called`, `order` and `pattern` (names, a scan chain's order and
//! a pattern: a reader each, `*_or_diagnostic`), `ready` (`TraceFiles`, `PageFiles`, `RunFiles`,
//! `BenchFiles`, `ReportFiles`, `OneRun`, `Scanned`), `tracing`, `paging` and `loading` (the walks). The
//! netlist, the report and the stimulus are fetched and read by bs_top_files; an answer of `reach` in place
//! of a report by bs_top_reach; a simulation's values by bs_inspect_values; what names, an order and a
//! pattern are is said by bs_inspect_netlist. Used above: `WalksDiagnosed CheckSays NoteSays ..` over the
//! plans of `specs/Taken`, `specs/Paged` and `specs/FlopFiles`. A refusal: its words in `specs/Words`,
//! `specs/FlopWords` or `specs/Fits`, its note in `specs/Saying` or `specs/Readings`; a file: its plan and a walk.
//!
//! Of recorded runs beside a simulation: `counting` (as many VCDs as runs), `reading` (a run beside the text
//! of its VCD), `comparing` (all runs, one after another), `naming` (the names that the flip-flops have in a
//! simulation), `checking` (`load_checked`). A VCD is let go before the next one is fetched. Used above:
//! `WalksDiagnosed CheckSays NoteSays ..` over the plans of `specs/Checked`.
#![tactic(auto)]

mod called;
mod checking;
mod comparing;
mod counting;
mod fit_fault;
mod fits;
mod flop_refusals;
mod loading;
mod naming;
mod order;
mod paging;
mod pattern;
mod reading;
mod ready;
mod refusals;
mod tracing;

pub use checking::{CheckFiles, Checked, load_checked};
pub use loading::{load_named, load_scanned};
pub use paging::load_page_files;
pub use pattern::file_in;
pub use ready::{BenchFiles, OneRun, PageFiles, ReportFiles, RunFiles, Scanned, TraceFiles};
pub use tracing::{
    load_bench_files, load_charted, load_one_run, load_picked, load_report_files, load_run_files,
};
