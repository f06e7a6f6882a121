//! An incremental solver that logs what it learns, over a clause arena and watched literals.
//!
//! Modules: `solver` (`Solver`), `room` and `starting` (the clauses that it is given, with room in
//! the watch lists), `database` (clauses by rows, the short ones apart), `first_level` (the first level), `cdcl` (decide, propagate,
//! learn, refute: `search`), `backjump` and `learning` (a learnt clause, and how far the trail goes back), `activity`, `blocking` (a
//! block: `add_between`), `failure` (a lemma that the caller knows ends the step), `pausing`, `retiring` (a retired activation literal's unit),
//! `ending` and `dropping` (the end of a step: what leaves log, arena and watch lists), `value` and `reading`. Used above:
//! `Solver::solve` (`HasSolved`: values of all clauses, a refutation, or the budget spent) and `into_log` (accepted, lean). `search`
//! ends as bs_solve_lemmas's `Ends` says, with the clauses that stand in the arena and watched (`IsAtRest`, or `IsPaused` where
//! values were found). What holds between two calls: `specs/Starting`; between two rounds of a search: `specs/Running`; between two
//! solves: `specs/Pausing`; what stands for good: `specs/Ground`.
#![tactic(auto)]

mod activity;
mod backjump;
mod blocking;
mod cdcl;
mod database;
mod dropping;
mod ending;
mod failure;
mod first_level;
mod learning;
mod pausing;
mod reading;
mod retiring;
mod room;
mod solver;
mod starting;
mod value;

pub use dropping::CountedRows;
pub use failure::FailedAssumption;
pub use solver::Solver;
