//! The transition clauses of a netlist, unrolled over the cycles from reset, and what they mean; and the
//! literals that reset implies in them, time frame by time frame, with lemmas by them.
//!
//! Of the clauses: `frames` and `links` (the clauses of all time frames; the next state of one is the state
//! of the one behind), `unrolling` (`unroll`, `assume_length`), `limits`, `law`. Used above:
//! `unrolled_clauses_are_executions`: what meets the clauses shows an execution of each length, each
//! execution is shown, and an accepted log that finishes a length's step refutes it. What is linked or
//! assumed: `specs/Unrolled`.
//!
//! Of what reset implies: `template` (where each literal stands in the clauses of one time frame), `forcing`
//! (what is implied in one time frame after another, `Implied`), `rows` (a clause of the unrolled list, made
//! from one time frame, with its number there), `cone` (the clauses from which a literal follows), `chain`
//! (`literal_of_chain`: clauses tried as the hints of a lemma), `failure` (a lemma that denies a length).
//! Used above: a lemma is right by clauses of the unrolled list (`Refutes` in `specs/Rows`), of which no list
//! is made. `forcing` and `cone` promise nothing: what they find is tried by `chain`. The last literal of a
//! chain that passes is right by its clauses, wherever the chain comes from (`IsProvedBy` in `specs/Chain`).
#![tactic(auto)]

mod chain;
mod cone;
mod failure;
mod forcing;
mod frames;
mod law;
mod limits;
mod links;
mod rows;
mod template;
mod unrolling;

pub use failure::{Lemma, Places, failed_assumption};
pub use forcing::{Implied, implied_from};
pub use law::{netlists_unroll, unrolled_clauses_are_executions};
pub use limits::{MAX_FRAME_VARIABLES, MAX_FRAMES};
pub use unrolling::{assume_length, unroll};
