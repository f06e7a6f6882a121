//! A trail with levels and reasons, and propagation by two watched literals of each clause.
//!
//! Modules: `trail` (the literals that are true, oldest first), `cause` (reasons and levels),
//! `lists` (the watchers of each literal), `attachment`, `clause_look` and `visit` (a clause, a literal's
//! watchers), `propagation`, `false_span` (variables in a row that are false), `watch` (`Watch`). Used
//! above: `Watch::propagate` is Quiet exactly where no attached clause is false or unit, and
//! Conflict only on a false clause. `Watch::pass` counts places as looked at that nobody watches;
//! `Watch::reserve` makes room and changes nothing that contracts see.
//!
//! Why: a level is a place of the trail. The trail, read as a number, rises at each conflict, and this bounds the
//! conflicts.
#![tactic(auto)]

mod attachment;
mod cause;
mod choice;
mod clause_look;
mod decision;
mod false_span;
mod lists;
mod propagation;
mod renaming;
mod sweep;
mod tables;
mod trail;
mod visit;
mod watch;

pub use false_span::FalseSpan;
pub use visit::Outcome;
pub use watch::{Level, Watch};
