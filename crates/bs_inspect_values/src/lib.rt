//! What a simulator's values give: runs of a stimulus, a file each, or the states of a dump.
//!
//! Modules: `refusals` (the words of a fault), `run` (the runs, their names and their text) and `law`, `keys`, `lines` (a note on a
//! line), `mapping` and `values` (a reader each, `*_or_diagnostic`), `ready` (`Simulated`, `Dumped`), `simulated` and `dumping` (the
//! walks). The netlist and the signature are fetched and read by bs_top_files, the names in a simulation read by bs_inspect_names.
//! Used above: `WalksDiagnosed CheckSays NoteSays ..` over the plans of `specs/Simulated` and `specs/Dumped`; `runs_text`, the one
//! spelling of runs, which is read back.
#![tactic(auto)]

mod dumping;
mod keys;
mod law;
mod lines;
mod mapping;
mod ready;
mod refusals;
mod run;
mod simulated;
mod values;

pub use dumping::{DumpFiles, clock_key, clock_or, load_dumped};
pub use keys::{all_bytes, flop_bytes, maybe_bytes};
pub use law::runs_read_back;
pub use mapping::{key_note, names_or_diagnostic};
pub use ready::{Dumped, Sampled, Signed, Simulated, Unsigned};
pub use refusals::{numbered, refusal};
pub use run::{SimulatedRun, first_late, runs_text};
pub use simulated::{Clocked, load_simulated};
pub use values::{Sampling, vcd_diagnostic};
