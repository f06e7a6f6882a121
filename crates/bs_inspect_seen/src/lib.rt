//! What is known of a state by names of flip-flops and their values.
//!
//! Modules: `value` (`0x1f`, `0b01` or a decimal number, as bits), `numbers` (the numbers of the bits that have a name), `given`
//! (`NAME=VALUE`, word by word), `state` (the state line), `fault`, `refusals` and `notes` (the words and the note of a fault), `reading`
//! (a reader, `given_or_diagnostic`), `loading` (the walk). Used above: `givens_in` (`specs/Given`), the names with their values or the
//! first fault; `state_line` (`specs/State`), in which what no name has is `-`; `WalksDiagnosed CheckSays NoteSays ..` over the plan of
//! `specs/Taken`.
#![tactic(auto)]

mod fault;
mod given;
mod loading;
mod notes;
mod numbers;
mod reading;
mod refusals;
mod state;
mod value;

pub use fault::GivenFault;
pub use given::{Given, read_givens};
pub use loading::{Named, load_named_values};
pub use state::{seen_of, state_text};
