//! The answers to requests of the companion that read a report, or an answer of `reach`.
//!
//! Modules: `telling` and `reasons` (what is told, as a reply), `sources` (the names of the files, for notes), `asking` (the answer to each
//! request). Used above: each answer is `PreparedNoted` over the plan of its request (bs_inspect_plans). A command: its arm there, its
//! reply in `telling`, and its answer in `asking`.
#![tactic(auto)]

mod asking;
mod reasons;
mod sources;
mod telling;

pub use asking::{
    bench, cnf, gtkw, lists, lrat, page, reach_cnf, reach_lrat, steps, steps_table, trace,
    trace_table, wave, why,
};
