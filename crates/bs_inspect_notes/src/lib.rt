//! The notes of the program that tells about the files of a job: what is said of a simulation, and of names.
//!
//! Modules: `distance` (the names that are nearest to one), `listing` (names and words in a note), `simulation` (on a VCD), `name` (on
//! names and places that do not fit). Used above: the text of each note, exactly (`specs/Simulations`, `specs/Names`). A path before a
//! name counts as none apart, so a forgotten scope is found (`specs/Nearest`). A sentence: its text in specs and its function.
#![tactic(auto)]

mod distance;
mod listing;
mod name;
mod simulation;

pub use listing::{LISTED, is_one_of, push_name, push_some_near, push_word};
pub use name::{
    Subject, UNLISTED, first_word, form_saying, key_sentence, keys_label, name_note, net_note,
    numbered, state_note, trace_note, twice_saying, unlisted_note,
};
pub use simulation::{
    clock_note, cycles_note, data_clock_note, early_note, ended_note, foreign, input_note,
    late_note, short_note, time_note, unknown_note,
};
