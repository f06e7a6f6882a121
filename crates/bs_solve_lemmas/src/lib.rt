//! The lemmas of a search: what it writes down, in the log with the clauses that stand, with where a solver
//! stands between two calls and the laws of the conflict bound; the lemma of a false clause, by marks on
//! variables along the trail; and which lemmas are kept when a step ends.
//!
//! Of the log: `recording` (`Recording`, the one door of the log), `ids`, `opening` (the lines with which a
//! solve begins and a step ends), `stage`, `answer`, `solution` (the values that a solve found), `law` (the
//! bound). Used above: no line is refused and lemmas are lean; `specs/Solver` says what a solve and a step's
//! end log. To change what a line asks open `recording` and `proofs/ProofLogs`; what holds between two rounds
//! of a search, `specs/Round`.
//!
//! Of the analysis of conflicts: `marks` (`Marks`, one a variable, clear between two analyses), `marking` (a
//! reason in place of its literal), `analysis` (the walks back along the trail), `analysis_law`. Used above:
//! `first_point` and `to_reasonless` answer a lemma that is the resolvent of its hints, right by them however
//! their literals are ordered; the first stops at the first unique implication point of the last level.
//! `proofs/AnalysisCallerLemmas` says what keeps a trail's reasons right.
//!
//! Of a step's end: `row` (`LoggedClause`, a lemma or a block), `rule` (which lemmas are kept, by the log's
//! rule), `selection` (`find_leaving`), `removal` (`take_out`: from the arena, the watch lists, the rows),
//! `compaction` (`compact_all`). Used above: `find_leaving` notes exactly the rows that bs_log's `is_kept`
//! does not keep, ids ascending; the other two take no memory.
//!
//! Why: analysis marks variables along the trail, and builds the learnt clause once. Whole resolvents would cost a
//! clause of thousands of literals for each of thousands of hints.
#![tactic(auto)]

mod analysis;
mod analysis_law;
mod answer;
mod compaction;
mod ids;
mod law;
mod marking;
mod marks;
mod opening;
mod recording;
mod removal;
mod row;
mod rule;
mod selection;
mod solution;
mod stage;

pub use analysis::{Learnt, first_point, to_reasonless};
pub use analysis_law::{analysis_makes_chains, reasons_make_hints};
pub use answer::Answer;
pub use compaction::compact_all;
pub use law::{quiet_trails, trails_are_numbers};
pub use marks::Marks;
pub use opening::{begin_solve, finish, guarded};
pub use recording::Recording;
pub use removal::take_out;
pub use row::LoggedClause;
pub use rule::{Activations, MOST_LONG, SHORT, count_long};
pub use selection::{Leaving, find_leaving};
pub use solution::Solution;
pub use stage::{Stage, is_begun, stage_after};
