//! What is told of a netlist: its flip-flops and its data inputs one by one, with the keys that show the same value, its sizes, and
//! what a pattern of its scan chain shows of a state.
//!
//! Modules: `mark` and `marking` (a number for each net, from those of its gate's inputs), `bits`
//! (lines of flip-flops and inputs), `tally`, `sizes`, `order` and `pattern` (a scan chain,
//! `specs/Order`), `dumped` (`specs/Dumped`). Used above: `TellsFlops`, `TellsInputs`, `TellsSizes`, `order_in`, `pattern_in`,
//! `state_line` and `AreMarks`: what a net shows through `buf` and `assign` alone, and its level, is said by each gate's equation
//! (`specs/Marks`); something else of this kind is a variant of `Measure`.
#![tactic(auto)]

mod bits;
mod dumped;
mod fault;
mod mark;
mod marking;
mod order;
mod pattern;
mod sizes;
mod tally;

pub use bits::{flops_text, inputs_text, key_at};
pub use dumped::{last_dump, last_state};
pub use fault::{OrderFault, PatternFault};
pub use mark::Measure;
pub use marking::marks;
pub use order::{read_order, unlisted_count};
pub use pattern::{read_pattern, state_text, unscan};
pub use sizes::stats_text;
