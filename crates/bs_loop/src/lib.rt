//! The backtrace: step after step from a dump back towards reset, until a named stop.
//!
//! It knows no solver and no simulator: candidates come from `Preimage::list_asking`, moments from `Chip::first`, recorded
//! predecessors from `first_recorded`. Modules: `known` (the candidate that a search makes known), `recorded_source` (what a list asks for it),
//! `before_present` (the moment before the present), `hit_input` (the input recorded at a hit), `steps` (one step back; one turn), `stop` (the
//! cause after a step without a hit), `trace` (states and inputs from the last hit to the dump), `backtracing` (turns until a stop: `backtrace`),
//! `law`. Used above: `backtrace`, clauses `good`, `valid`, `searched`, `cut` and `takes`. When a backtrace stops: `stop` and
//! bs_report's `specs/Stop`; what holds between two turns: `specs/Made`, `specs/Way`.
#![tactic(auto)]

mod backtracing;
mod before_present;
mod hit_input;
mod known;
mod law;
mod recorded_source;
mod steps;
mod stop;
mod trace;

pub use backtracing::backtrace;
pub use law::traces_end_as_recorded;
