//! The answers to requests of the companion that read a netlist, recorded runs, or the values of a simulator, and no report.
//!
//! Modules: `telling` (what is told, as a reply), `sources` (the names of the files, for notes), `chain` (the answer to `unscan`, with the
//! note on flip-flops that an order lacks), `asking` (the answer to each request).
//! Used above: each answer is `PreparedNoted` over the plan of its request (bs_inspect_plans). A command: its arm there, its reply in
//! `telling`, and its answer in `asking`.
#![tactic(auto)]

mod asking;
mod chain;
mod sources;
mod telling;

pub use asking::{
    check, dump, flops, inputs, keys, near, novel, seen, signature, stats, stimulus, unscan,
};
