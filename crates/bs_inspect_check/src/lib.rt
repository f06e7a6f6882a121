//! Recorded runs beside a simulation: which flip-flops and data inputs differ, and from which cycle on.
//!
//! Modules: `level` (what a VCD has of a flip-flop), `sources` (where it has them), `moments` (the value changes, moment by moment),
//! `replay` (a run, state by state), `tally` (the end of a cycle: what differs), `walk` (from moment to moment), `flops` (the flip-flops of a
//! run and a VCD), `inputs` (their data inputs), `comparison` (`compare`, both), `differing` and `missing` (which signals are told), `levels`
//! and `lines` (their lines), `text` (`check_text`). Used above: `compare` answers `compared_in` (`specs/Comparison`): by the states of the
//! run (`state_at`) and the values of the VCD at the end of each cycle (`specs/Flops`, `specs/Samples`), and by the inputs of both
//! (`specs/Inputs`); `check_text` tells `TellsCheck` (`specs/Text`). How many signals are told: `MAX_LINES`.
#![tactic(auto)]

mod comparison;
mod differing;
mod flops;
mod inputs;
mod level;
mod levels;
mod lines;
mod missing;
mod moments;
mod replay;
mod sources;
mod tally;
mod text;
mod walk;

pub use comparison::{Comparison, RunOrigin, all_agree, compare};
pub use flops::{FlopComparison, RunOf};
pub use inputs::InputComparison;
pub use level::FlopLevel;
pub use lines::MAX_LINES;
pub use tally::CycleEnd;
pub use text::check_text;
