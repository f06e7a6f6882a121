//! Waves: every net's value at every moment of a trace, with their text and its reading.
//!
//! Modules: `wave` (`Wave`, `Trace`), `value`, `decided` (nets that no input decides), `moments`
//! (`Wave::of`), `text`, `place`, `forms`, `partial_wave` and `reading` (`Wave::read`, line by line),
//! `tracing` (`Wave::trace`), `law`. Used above: `Wave::of` gives the wave of the trace,
//! `IsWaveOf`, of which there is one. What is unknown at the end: `specs/Wave` and `decided`; a
//! line: `specs/WaveText` and `specs/WaveReading`, with `text` and `forms`.
//!
//! Why: at the last moment the output of a gate is unknown, even if no data input reaches it. So one rule holds for
//! all gates.
#![tactic(auto)]

mod decided;
mod fault;
mod forms;
mod law;
mod moments;
mod partial_wave;
mod place;
mod reading;
mod text;
mod tracing;
mod value;
mod wave;

pub use fault::WaveFault;
pub use law::{waves_read_back, waves_show_traces, wrong_lines_are_named};
pub use text::{is_same, value_code};
pub use value::Value;
pub use wave::{Trace, Wave};
