//! What recorded runs have: the moment whose state is nearest to what is seen of one, with what the
//! difference hints at; and the values that one run alone has, such as no other run ever has.
//!
//! Of `near`: `counters` (64 counters that count at once), `distances` (in how many known bits the state of each
//! lane differs), `lanes` (the nearest of 64 lanes), `search` (the nearest of all runs, which are moved in
//! lock step, once for all states that are asked about), `states` (these states), `hints`, `moment` (the
//! state at a moment), `text`, `near` (`near_text`). Used above: `TellsNear` (`specs/Tells`), over the runs'
//! states by `state_of` and a count of known bits, `distance` (`specs/Distance`).
//!
//! Of `novel`: `run` (`ChosenRun`: the one that is asked for), `masks` (which lanes are looked at), `unmatched_lanes` (the
//! lanes that show a value which is none of a set), `values` and `sets` (the values of other runs, all of
//! which are moved in lock step), `run_states` (the states of the run), `novel_line`, `novel` (`novel_text`). Which
//! value is new `novelty` decides. Used above: `TellsNovel` (`specs/Novel`), over the runs' states by
//! `state_at`. `novelty` finds of each signal the first cycle with such a value, by the states of the run and
//! the values that others have. Used above: `AreNovelties` (`specs/Novelties`), by `IsNovel`
//! (`specs/Values`). To tell signals of which others have more values raise `MAX_VALUES`.
#![tactic(auto)]

mod counters;
mod distances;
mod hints;
mod lanes;
mod masks;
mod moment;
mod near;
mod novel;
mod novel_line;
mod novelty;
mod run;
mod run_states;
mod search;
mod sets;
mod states;
mod text;
mod unmatched_lanes;
mod values;

pub use near::near_text;
pub use novel::novel_text;
pub use novelty::{Novelty, ordered};
pub use search::{Near, nearest_each};
