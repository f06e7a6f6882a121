//! Notes on a call of the program that are on no text: on its words, on files and an output that fail, and on how it stopped.
//!
//! Modules: `word` (wrong words, help and the version), `fault` (files and outputs that fail), `reason` (the words for a kind of error),
//! `stop` (the stops of a run), `search` and `miss` (a search and what it misses), `brief` (`Brief`, a note that takes no memory: all but
//! those on a moment, a state, a search or a waveform that can't be). Used above: the text of each note (`specs/Words`, `specs/Stops`, `specs/Faults`,
//! `specs/Searches`); the words of each reason (`specs/Reasons`). A sentence: its text in specs and its module.
#![tactic(auto)]

mod brief;
mod fault;
mod miss;
mod reason;
mod search;
mod stop;
mod word;

pub use brief::{Brief, ROOM, brief_plain};
pub use fault::{
    large_note, long_note, output_note, partial_note, range_note, rejected_note, unread_note,
};
pub use miss::Miss;
pub use search::{miss_note, room_note, state_note};
pub use stop::{cut_lists, stop_note};
pub use word::{unread_words_note, words_note};
