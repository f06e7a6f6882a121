//! Recorded runs, and their text.
//!
//! Modules: `runs` (`Runs`), `inputs` and `packed` (a cycle's inputs in words of 64 bits of its
//! own), `first_line`, `characters` and `reading` (`read`, line by line in one pass), `writing`
//! (`write`), `limits`, `fault`. Used above: `read` answers `stimulus_of width (lines_of bytes)`;
//! `Runs::bit` and `Runs::fill` show an input. The text's form: `specs/StimulusText`, then
//! `first_line` or `reading`, and `writing`. How inputs are kept: `inputs` and `packed` alone.
#![tactic(auto)]

mod characters;
mod fault;
mod first_line;
mod inputs;
mod law;
mod limits;
mod packed;
mod reading;
mod runs;
mod writing;

pub use fault::StimFault;
pub use law::{stimuli_read_back, stimulus_texts_are_exact};
pub use limits::{MAX_CYCLES, MAX_NAME, MAX_RUNS, MAX_TEXT};
pub use reading::read;
pub use runs::Runs;
pub use writing::write;
