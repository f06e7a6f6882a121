//! The reader of a netlist text: structural Verilog of one module, as the parts of a netlist or a refusal
//! with its place; and the grammar as a relation, whose texts are exactly those that are read.
//!
//! Modules: `cells` (the pins of each cell), `reset` (with which bit a flip-flop begins), `pins` (what a
//! gate, cell or assignment may be connected to), `placing` (the net of a term, implicit nets, constants),
//! `ports`, `building` (gates and flip-flops in file order), `netlist` (from a scope to `Raw`), `reader`
//! (`read`: the four passes). Used above: `read` answers exactly `netlist_text`, the value or the first fault
//! of the earliest pass. Connections: `specs/Terminals`. A further cell: bs_lex, then
//! `specs/Cells`. What is built: `specs/Building`.
//!
//! Of the grammar `grammar_law` has a law; nothing stands on it. `specs/Symbols` (what a token is to a
//! production), `specs/Written` (a module as written, names as texts), `specs/Productions` (the grammar),
//! `specs/Views` (a read module as a written one). A new form is a production here and a definition in
//! bs_verilog_syntax; the law fails until both agree.
#![tactic(auto)]

mod building;
mod cells;
mod grammar_law;
mod law;
mod netlist;
mod pins;
mod placing;
mod ports;
mod reader;
mod reset;

pub use bs_lex::numbers_are_told_apart;
pub use bs_verilog_syntax::{VerilogFault, What};
pub use grammar_law::{
    netlists_are_in_the_grammar, what_is_read_is_written, what_is_written_is_read,
};
pub use law::nets_are_named;
pub use netlist::meaning;
pub use reader::read;
