//! The text of blocks: what facts of a trace are called, since when they stand, and what is told of several cycles at once.
//!
//! Modules: `limits` (how much is told), `key` (facts under their keys), `words` (signals and their values), `row` (signals by their
//! last change), `cause` (the lines of causes), `stretch` (facts of one cycle), `reason` and `group` (what is told of each cycle, and
//! of several), `span` (their lines), `throughout` (what stands still), `episode` and `head` (the first line), `block`
//! (`push_block`). Used above: `TellsBlock` (`specs/Blocks`), `TellsStills` (`specs/Throughout`). A line: its definition and the
//! function of the same name.
#![tactic(auto)]

mod block;
mod cause;
mod episode;
mod group;
mod head;
mod key;
mod limits;
mod reason;
mod row;
mod span;
mod stretch;
mod throughout;
mod words;

pub use block::push_block;
pub use episode::Episode;
pub use key::key_of;
pub use limits::{Limits, MAX_APART, RECENT, limits_of};
pub use throughout::push_stills;
