//! Which facts of a trace a block is told by: what set its bits, and what has kept them.
//!
//! Modules: `tables` (tables by number, sets of cycles), `driver` (`Driver`: what drives each net), `scene` (`TraceScene`: a trace, every
//! net's bits, 64 moments in a word, and where cones end), `fanin` (the nets below some nets), `view` (what a pass over them looks at,
//! and what is noted of each net), `known` (what given nets decide: three values, at many moments at once), `need` (which nets decide
//! what a flip-flop loads), `costs`, `walk` and `choice` (cheap sources that decide bits at a cycle, none of which can be left out),
//! `hold` (sources that keep bits, each at all cycles at which they do), `idle` and `rare` (what shows 1 and does not matter),
//! `chosen_block` (`propose`). Used above: the block is of the bits that were asked for and ends at their cycle. Nothing more is promised of
//! what is chosen: `is_block` (bs_net_facts) decides.
//! To choose by another rule open `costs`.
#![tactic(auto)]

mod choice;
mod chosen_block;
mod costs;
mod driver;
mod fanin;
mod hold;
mod idle;
mod known;
mod need;
mod rare;
mod scene;
mod tables;
mod view;
mod walk;

pub use chosen_block::{Proposal, propose};
pub use driver::Driver;
pub use scene::TraceScene;
pub use tables::{at, put};
