//! Notes on a text that a reader refuses: what is said, and the place of the text that it is said of.
//!
//! Modules: `form` (the forms of a note), a module a reader (`check`, `signature`, `stimulus`,
//! `dump`, `report`, and those of a netlist's text), `flaw` (what is wrong with a line at sight),
//! `kind` (which file a text seems to be), `part`, `width`. Used above: `IsPlacedNote`
//! (`specs/Notes`): path, line, column, the line as it is shown, and the caret. A sentence:
//! `specs/Sayings` and the module of its reader; a note for a new fault: a line in that reader's
//! definition and an arm in its module.
#![tactic(auto)]

mod check;
mod design;
mod dump;
mod flaw;
mod form;
mod kind;
mod netlist;
mod part;
mod report;
mod signature;
mod stimulus;
mod width;

pub use check::check_note;
pub use design::design_note;
pub use dump::{Widths, dump_note};
pub use form::{FilePlace, Message, file_note, pair_note, placed_note, plain_note};
pub use kind::{mistaken, mistaken_note};
pub use report::report_note;
pub use signature::signature_note;
pub use stimulus::stimulus_note;
pub use width::width_sentence;
