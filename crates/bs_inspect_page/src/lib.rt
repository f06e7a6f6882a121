//! A report as one page of HTML, without a script and without anything from outside.
//!
//! Modules: `options` (what is asked), `step_table`, `last_list` (the last list, if it has no hit), `listing` (which signals of it), `opens`
//! (where other candidates differ), `columns` (the head of the trace), `execution` (the same of an execution that a search for a state
//! found), `drawn` (which signals), `rows` (their rows), `page`, `law`. What stands in front, and which flip-flops a signature reads, is bs_inspect_html's.
//! Used above: `ShowsReport` (`specs/Page`): the text is the page of the report, whose cells (bs_inspect_html) are those of the
//! trace's signals. A line: its definition and the function of the same name.
#![tactic(auto)]

mod columns;
mod drawn;
mod execution;
mod last_list;
mod law;
mod listing;
mod opens;
mod options;
mod page;
mod rows;
mod step_table;

pub use law::cells_are_traced;
pub use options::PageOptions;
pub use page::page_text;
