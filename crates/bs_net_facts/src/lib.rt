//! Facts of a trace, and whether some force others in every execution.
//!
//! Modules: `fact` (`Fact`, and whether one comes again), `block` (`Block`: bits that stand, and what forces them; `Cone`: what a pass
//! goes over), `moments` (`Moments`: every net's bit at each moment of a trace), `mark_table` (the marks of one
//! cycle, set and taken back), `cycle` and `known_loads` (what is marked in a cycle, and what goes on to the
//! next), `pass` (cycle by cycle), `block_check` (`is_block`), `law` (functions with empty bodies). Used above:
//! where `is_block` says so a block is one (`IsBlock` in `specs/Blocks`): its facts are the trace's, and
//! force its bits in all valuations that follow each other (`specs/Facts`). The marks (bs_sim) are sound,
//! and not all that is forced.
#![tactic(auto)]

mod block;
mod block_check;
mod cycle;
mod fact;
mod known_loads;
mod law;
mod mark_table;
mod moments;
mod pass;

pub use block::{Block, Cone};
pub use block_check::is_block;
pub use fact::{Fact, is_again};
pub use law::{forces_compose, sources_force};
pub use moments::Moments;
