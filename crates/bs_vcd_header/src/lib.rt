//! What a simulator's value changes (VCD) declare: scopes, and the variables in them.
//!
//! Modules: `token` (the words of a text with their lines), `command` and `header` (the declarations), `range` and `sources` (which
//! bit of which variable a name is), `tags` and `index` (variables by their names), `inputs` (the bits of many names), `scopes` (what is
//! declared, for notes), `words` (what a word of the value changes says), `fault`.
//! Used above: `take_words` answers what is declared and where that ends (`specs/Header`); `source_in`, `scope_of` and `take_inputs`
//! answer the bits of names (`specs/Sources`).
#![tactic(auto)]

mod command;
mod fault;
mod header;
mod index;
mod inputs;
mod range;
mod scopes;
mod sources;
mod tags;
mod token;
mod words;

pub use fault::VcdFault;
pub use header::{Behind, HeaderDeclarations, HeaderState, Variable, nothing, take_words};
pub use index::{TagIndex, index_of, source_by};
pub use inputs::take_inputs;
pub use scopes::{declared, names_of, scopes_of};
pub use sources::{BitSource, scope_of, source_in};
pub use tags::tag_of;
pub use token::{VcdToken, next_token};
pub use words::{Said, id_in, is_text, said_of};
