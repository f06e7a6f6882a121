//! What each name of a module is, the keys and the numbers of its nets, and the first fault of its declarations.
//!
//! Modules: `keys` (the text by which a net is named), `tables` (what is said of names, and marks:
//! maps that hold a module's own names), `redeclaring` (their making, and the faults of ports and
//! bounds), `declaring` (declarations one after another), `numbering` and `nets` (the declared nets
//! and their numbers); of a text that is no netlist `standing` (where a name stands) and `before` (the
//! word in front of a place, and the module that it lies in). Used above: `scope_of` and `nets_of` give
//! exactly what the declarations say, or their first fault. A key's text: `specs/Keys`. What clashes:
//! `is_clash` and `redeclaring`.
#![tactic(auto)]

mod before;
mod declaring;
mod keys;
mod nets;
mod numbering;
mod redeclaring;
mod standing;
mod tables;

pub use before::{declares_near, is_own, is_word};
pub use declaring::{Declarations, declare};
pub use keys::{bit_key, constant_key, has_index, index_at, scalar_key, width};
pub use nets::{net_of, nets_of};
pub use numbering::{Known, known_net, numbered};
pub use redeclaring::{direction_of, entry, header_marks, scope_of};
pub use standing::place_of_name;
pub use tables::{NameMarks, Scope};
