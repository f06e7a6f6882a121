//! Simulators of a checked netlist: level by level, event by event, and gate step by gate step in any order; and marks.
//!
//! Modules: `simulator` (`Sim`), `events` (`Event`: gates with a changed input alone), `schedule`
//! (`Schedule`: gate steps in any order), over `valuation` (sources shown, gates settled, bits
//! loaded, over slices). Used above: `Sim::step` moves by `next`, and the nets show the valuation
//! that fits the last state and input.
//! A gate's value is bs_net's.
//!
//! Of marks, what is known of nets' bits in several valuations, told of gates' inputs' marks alone: `mark` (of a
//! bit), `gates` (of a gate's output, in one pass over the gates, and of constants), `flops` (of the bit that a
//! flip-flop loads). Used above: new marks hold of two valuations of which the old ones hold (`StayHeld` in
//! `specs/Marks`). The marks are sound, and not all that could be known: a bit that is 0 or 1 for two reasons
//! that exclude each other has no mark.
#![tactic(auto)]

mod events;
mod flops;
mod gates;
mod mark;
mod schedule;
mod simulator;
mod valuation;

pub use events::Event;
pub use flops::{flop_mark, is_known};
pub use gates::{gate_mark, mark_constants, mark_gates, unmarked};
pub use mark::{Mark, differed, fixed, flipped, joined, met};
pub use schedule::{Schedule, Settled};
pub use simulator::Sim;
