//! The generated job of a number: a netlist, a signature and a stimulus, drawn from one generator, PCG XSH-RR
//! 64/32 of stream 1: 32-bit words, one after another.
//!
//! Modules: `names` (nets, and the pool's members by number), `gates`, `flops`, `stimulus` (a function a
//! line), `job` (`make`). It draws by `draws`. Used above: the clauses `netlist`, `signature` and `stimulus`
//! of `make`. A line: its definition in specs and the function of the same name (docs/FORMATS.md, "The
//! generated job").
//!
//! Of the draws: `draws` (`Draws`). Used above: `draws_of`, `after` and `pick` (`specs/Draws`): which numbers
//! are drawn is a matter of the generator's first state alone.
#![tactic(auto)]

mod draws;
mod flops;
mod gates;
mod job;
mod names;
mod stimulus;

pub use draws::Draws;
pub use job::{GeneratedJob, make};
