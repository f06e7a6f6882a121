//! The checker of logs: it accepts a log, or names its first refused line with the first reason.
//!
//! It shares no data structure with the solver. `verdict` (`check`), `checker` (the rules, and the
//! state between two lines), `hints` (propagation along hints), `trail` and `marks` (what is true:
//! a mark for usual variables, a search tree for great ones), `live_clauses` (by id; literals are
//! lent), `line_forms`, `problem`. Used above: `check`, clause `first`: the verdict's line is
//! `first_refused`. A rule: bs_log's `specs/Refusal`, then `checker`.
//!
//! Why: unusual variables stand in a search tree. Marks by number would take gigabytes for a lemma over variable 2^30
//! - 1, and a hostile log could slow down a hash table.
#![tactic(auto)]

mod checker;
mod hints;
mod line_forms;
mod live_clauses;
mod marks;
mod problem;
mod trail;
mod verdict;

pub use bs_log::Why;
pub use verdict::{Verdict, check};
