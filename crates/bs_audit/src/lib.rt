//! The audit of a report: it is accepted exactly where it is valid, or else refused with the first part that fails.
//!
//! It uses nothing of the solver. `finding` (what an audit finds), `replay`, `candidates` and
//! `steps` (the parts of each step), `stop`, `trace`, `step_lines`, `blocks`, `assumed` and `list_end`
//! (a step against its lines), `logged` (the log as a whole), `law`. Used above: `audit` names
//! exactly `first_failing`, and what it accepts is good. The parts and their order are
//! bs_report's `specs/Valid`.
#![tactic(auto)]

mod assumed;
mod blocks;
mod candidates;
mod law;
mod list_end;
mod logged;
mod parts;
mod replay;
mod step_lines;
mod steps;
mod stop;
mod trace;

pub use law::valid_reports_are_good;
pub use parts::{Finding, audit};
