//! The chip as a replay of recorded runs: the first moment in a list of states, and the dump of a moment.
//!
//! Modules: `first_hit` (`Chip`, `Hit`), `live` (runs that last to a cycle), `inputs` and `lockstep` (all
//! runs in lock step at one cycle), `kept_planes` (the planes of the first cycles, kept), `listed_run` (the
//! lowest run in a listed state, by the bank), `hashes`, `hash_cycles` and `index` (at which kept cycle a
//! look may begin), `run_simulator` and `moments` (one run replayed to a moment), `parities` and `signature_hashes`
//! (`SignatureHashes`, the signatures of all recorded states), `alike` (one signature, without hashes). Used above:
//! `Chip::first`, clause `first`: the first moment of the runs in the listed states. How much is
//! kept: `MAX_TRACK_BYTES`, `MAX_HASHES`; when the index grows: `Pass::price`.
//!
//! Why: all runs are stepped together, and the planes of each cycle are kept, up to `MAX_TRACK_BYTES`. For a cycle
//! that is not kept, one run is replayed from reset.
#![tactic(auto)]

mod alike;
mod first_hit;
mod hash_cycles;
mod hashes;
mod index;
mod inputs;
mod kept_planes;
mod lanes;
mod listed_run;
mod live;
mod lockstep;
mod moments;
mod parities;
mod run_simulator;
mod signature_hashes;

pub use first_hit::{Chip, Hit, MAX_TRACK_BYTES};
pub use hashes::{hash_more, hash_of, lane_hashes};
pub use lockstep::{Pass, step_to, zero_planes};
pub use signature_hashes::SignatureHashes;
