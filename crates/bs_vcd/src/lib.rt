//! Lines of bits out of the value changes that a simulator dumps (VCD).
//!
//! Modules: `changes` (what comes of a word), `levels`, `clock_edges` (from word to word), `stimulus_run` (`stimulus`, the inputs just before each
//! rising edge of a clock), `cycles` (`states`, what stands at the end of a cycle and of those before it), `found`
//! (names of which some may be missing; that nothing is ever known of these says `codes_are_somewhere`, a law). Used above: `stimulus`
//! answers `stimulus_in` (`specs/Stimulus`): the lines of all edges, a filter over the moments of the text (`specs/Sampled`), or the
//! first fault; `states` answers `states_in` (`specs/Cycles`), and `marked_states`, where bits may be unknown, `marked_in`. The declarations are read by `bs_vcd_header`.
#![tactic(auto)]

mod changes;
mod clock_edges;
mod cycles;
mod found;
mod law;
mod levels;
mod stimulus_run;

pub use changes::{ValueChange, WordEffect, WordPlace, word_step};
pub use clock_edges::SampledLines;
pub use cycles::{MarkedStates, When, begin_in, marked_states, states};
pub use found::{found_sources, is_found};
pub use law::codes_are_somewhere;
pub use levels::{apply, level, rises};
pub use stimulus_run::{clock_scope, clock_source, stimulus};
