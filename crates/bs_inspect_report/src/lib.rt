//! What a report tells: its trace with the names of a netlist, and its steps.
//!
//! Modules: `execution` (a trace that a search for a state found), `keys`, `known` (names that no net has), `signal`, `named` and
//! `moment` (the lines of a cycle), `window` (which of them are told), `trace`, `lemmas` (of each step of a log), `steps`; `field`, `table` and `step_table` (the same for
//! scripts), `remarks` and `recorded` (for a waveform). Used above: `TellsTrace` (`specs/Trace`), `TellsTable` and `steps_table` (`specs/Table`),
//! `steps_text` (`specs/Steps`), `first_unknown` (`specs/Known`), `is_execution` (`specs/Execution`), `field` (`specs/Table`). A line:
//! its definition and the function of the same name.
#![tactic(auto)]

mod execution;
mod field;
mod keys;
mod known;
mod lemmas;
mod moment;
mod named;
mod recorded;
mod remarks;
mod signal;
mod step_table;
mod steps;
mod table;
mod trace;
mod window;

pub use execution::is_execution;
pub use field::push_field;
pub use keys::{flop_keys, input_keys};
pub use known::first_unknown;
pub use lemmas::lemmas_logged;
pub use moment::member;
pub use recorded::recorded_moments;
pub use remarks::remarks_text;
pub use signal::{bit_at, push_signal, push_signal_value};
pub use step_table::steps_table;
pub use steps::{differing, differing_bits, differs_at, number_at, push_at, push_end, steps_text};
pub use table::trace_table;
pub use trace::{flop_signals, input_signals, trace_text};
pub use window::Window;
