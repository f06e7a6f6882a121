//! Whether a state is reached from reset in a bounded number of cycles.
//!
//! Modules: `bounded_search` (`bounded`, over how many time frames), `wider` (few time frames first), `renaming` (their log, renamed for all time frames),
//! `offsets` (where its ids and variables go), `renaming_law` (a renamed log stays accepted and lean), `answer` (a search over so many
//! time frames), `count` (`size`), `search` (one length after another, over one solver), `length` (a
//! step of the log), `failed_assumptions` (the first lengths, by what follows from reset alone), `refuted` (their
//! log), `shown` (an execution of the length behind them), `telling` (the states and inputs of an
//! assignment), `reach` (`Reach`, `Outcome`), `text`. Used
//! above: `IsReach` of `bounded`, and `reach_text` of `Reach::text`. A right answer: `specs/Reach`;
//! how a length is tried: `length`; a line of the text: `specs/Text`; where ids go: `specs/Renamed`; what the list of all time frames
//! is to the list of few: `specs/Widened`.
//!
//! Why: what reset implies refutes the first lengths without a search. At the first length that is left, a search
//! without a log looks for an execution. If there is one, no clause of the log's list is unrolled.
//! Otherwise four times as many time frames as that length are searched, then four times as many again, and the log
//! is renamed for all time frames. A spent budget is answered only after a search over all, because its bound speaks
//! of them.
#![tactic(auto)]

mod answer;
mod bounded_search;
mod count;
mod failed_assumptions;
mod length;
mod offsets;
mod reach;
mod refuted;
mod renaming;
mod renaming_law;
mod search;
mod shown;
mod telling;
mod text;
mod wider;

pub use bounded_search::bounded;
pub use count::size;
pub use reach::{Outcome, Reach};
