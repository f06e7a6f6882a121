//! The grammar of a netlist text: its top module as written, or the first fault with its place.
//!
//! Modules: `tree` (what is read), `packed` (a connection in sixteen bytes), `reading` (the next
//! lexeme, attributes, the fault of a lexeme that cannot go on), `unsupported` (what is left out),
//! `listing` (a list with commas), `terms`, `declarations`, `parts`, `modules` (the whole text),
//! `fault`. Used above: `syntax` gives exactly `syntax_of`. To change a form open the definition of
//! its name in `specs/Terms`, `Declarations`, `Parts` or `Modules`, the function of the same name,
//! and its production in bs_verilog; what is left out, `specs/Unsupported`.
#![tactic(auto)]

mod declarations;
mod fault;
mod listing;
mod modules;
mod packed;
mod parts;
mod reading;
mod terms;
mod tree;
mod unsupported;

pub use fault::{VerilogFault, What};
pub use listing::{Reader, closed, listed};
pub use modules::syntax;
pub use packed::PackedConnection;
pub use parts::connections;
pub use reading::{
    Due, attributes, expect, expect_name, is_at, name_of, place_of, rest_of, sort_of,
};
pub use tree::{Component, Connection, Declared, Direction, Module, Net, Range, Says, Shape, Term};
