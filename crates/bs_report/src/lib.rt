//! A backtrace's report: what it says, and its one text, both ways; when it is good, when it is valid, what
//! follows from either, and where its trace ends: where the first step's hit leads, of which all is known, or
//! else in what is known of the dump.
//!
//! Of the text: `report` (`Report`, `Step`, `Cand`, `ListEnd`, `HitLine`, `Stop`), `text` (`Report::text`),
//! `forms` (each line by itself), `place` (what the next line may be), `reading` (`Report::read`), `limits`,
//! `fault`, `law`. Used above: `report_text`, the one spelling of a report, and `report_in`, the report that
//! a text is. A line: `specs/Text` and `specs/Forms`, with `text` and `forms`; the order of lines:
//! `specs/Reading` and `place`.
//!
//! Of a good report there are definitions and laws; only `end` runs. `part` (`Part`, the first part of a
//! report that fails), `good_law`. Used above: `IsGood`, that a report is right for the chip, the runs, the
//! dump and its budgets, which a valid report is. A right step or end: `specs/Step`; when a backtrace stops:
//! `specs/Stop`; the parts of a valid report in their order: `specs/Valid`, then bs_audit. `end` knows no
//! search: a state is led on by the plain simulator. Used above: `end_of`, whose contract says the definition
//! of that name, and `input_for`.
#![tactic(auto)]

mod end;
mod fault;
mod forms;
mod good_law;
mod law;
mod limits;
mod part;
mod place;
mod reading;
mod report;
mod text;

pub use end::{end_of, input_for};
pub use fault::ReportFault;
pub use forms::{at_end, is_text, read_behind, read_bits, read_count, read_within, word_behind};
pub use good_law::{
    a_good_report_is_valid, a_trace_ends_an_execution, a_valid_report_is_good,
    finished_lists_reach_reset, later_hits_are_earlier, whole_dumps_end_traces,
};
pub use law::{faults_are_exact, reports_read_back};
pub use limits::{MAX_CANDIDATES, MAX_CONFLICTS, MAX_REPORT_BYTES, MAX_STEPS};
pub use part::Part;
pub use report::{Before, Budgets, Cand, HitLine, ListEnd, Report, Step, Stop};
