//! The call that each program of this repository is: words, files, an output, and at most one note for a
//! person; the answer, its note, and how both go out.
//!
//! Of the call: `program` (`Program`: what is a program's own), `answering` (`answer_words`: the answer to
//! words), `exiting` (`run_program`: up to the exit code). Used above: `AnswersWords` (`specs/Answering`),
//! each part of which is a promise of docs/PROOFS.md, and `EndsBy` (`specs/Exiting`), over the `Meaning` of a
//! program (`specs/Meaning`). A new program: an impl of `Program`.
//!
//! Of the answer: `note` (`Note`: nothing, a text, or that memory ran out), `stopping` (the answer to a walk
//! that stopped), `ending` (the notes on work that is done), `recorded_state` (the first recorded moment in a dump's
//! state, and what is said of it), `partial_dump` (how many flip-flops of a dump are known), `fit` (`Fit`: how the
//! signatures of a moment compare with a dump's), `reversed_bits` (bits read backwards), `sentence` (a moment in
//! words), `saying` (the reply goes out, and then at most one note). Used above: `PreparedNoted`
//! (`specs/Prepared`), that the reply is what the words call for and the note is on the same fetches;
//! `SaysAfter` (`specs/Said`), what the sink of the notes gains. The note on a run: `run_text`
//! (`specs/Endings`), and on a stop in the first step `looked_text` (`specs/Looks`).
#![tactic(auto)]

mod answering;
mod ending;
mod exiting;
mod fit;
mod note;
mod partial_dump;
mod paths;
mod program;
mod recorded_state;
mod reversed_bits;
mod saying;
mod sentence;
mod stopping;

pub use answering::answer_words;
pub use ending::{miss_said, rejected_said, run_said};
pub use exiting::run_program;
pub use note::{Note, Response, note_made};
pub use paths::Paths;
pub use program::Program;
pub use saying::say_memory;
pub use stopping::{stop_answer, stop_file, stopped_at};
