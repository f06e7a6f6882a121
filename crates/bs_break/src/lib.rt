//! The breakpoint bank: which runs are in a listed state, by masks over the flip-flops' planes.
//!
//! Modules: `bank` (`Bank`, over states that are lent), `places` (where all states share a bit, and
//! the others), `masks` (runs cut by planes). Used above: `Bank::word_hits`, clause `Hits`: exactly
//! the live runs whose lane is a listed state. The order of comparison: `places`, and the invariant
//! `IsBank`.
#![tactic(auto)]

mod bank;
mod masks;
mod places;

pub use bank::Bank;
