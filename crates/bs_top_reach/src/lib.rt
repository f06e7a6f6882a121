//! What a search for a state is made of.
//!
//! Modules: `target` (`Target`), `readings` (the word of the state, and the size of the search), `walk`
//! (`load_target`: the netlist, then its state, then its size). Used above: `WalksDiagnosed CheckSays NoteSays ..` over the plan of
//! `specs/Target`.
#![tactic(auto)]

mod readings;
mod target;
mod walk;

pub use target::Target;
pub use walk::load_target;
