//! An execution of a given length from reset to a state, found by a private search and tried by simulation.
//!
//! Modules: `numbers` (tables of numbers), `template` (where each literal stands in the clauses of one time frame), `classes` (which
//! variables of a time frame are always equal), `scene` (what the variables of the present time frame stand for), `folding` (the clauses of
//! all time frames, with what is known put in), `search` (a solver over them, whose log is let go), `trial` (the inputs that it finds,
//! simulated), `execution` (`Execution`, `execution_of`). Used above: what `execution_of` tells is an execution (`IsExecution`).
//! All but `trial` promise nothing: what they find is tried there.
#![tactic(auto)]

mod classes;
mod execution;
mod folding;
mod numbers;
mod scene;
mod search;
mod template;
mod trial;

pub use execution::{Execution, execution_of};
