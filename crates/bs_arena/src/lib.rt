//! What propagation stands on: a clause arena, with every clause of a run in one vector of words, and the
//! order in which a search decides, the most active of the variables that may be open first.
//!
//! Of the arena: `header` (the four words before a clause's literals: two of its id, its length, live or
//! dead), `arena` (`Arena`), `compaction` (live clauses move down in place), `renaming` (`Renaming`, new
//! references by halves), `reference` (`Ref`, which the arena alone makes). Used above: contracts see the
//! live clauses in order, the words in use and to spare; `Arena::compact` with `Renaming::get` carries
//! references over. The header: `specs/Words`.
//!
//! Of the order: `activity_heap` (a binary heap of variables, with the place of each in it), `decision_order` (`Order`:
//! activities, raised where analysis sees a variable and scaled together), `value` (a variable's value by
//! literal code). Used above: `Order::first_open` gives a variable without a value, or none where all have
//! one. Which comes first, the most active, is for speed alone, and no contract of the solver rests on it.
//! Calls but `new` and `grow` take no memory.
//!
//! Why: decisions go by activity, which is raised for each resolved clause. A variable takes the value that it lost
//! last, at first false: in a model this left 0.6 of the conflicts of hard lists.
#![tactic(auto)]

mod activity_heap;
mod arena;
mod compaction;
mod decision_order;
mod header;
mod reference;
mod renaming;
mod value;

pub use arena::Arena;
pub use decision_order::Order;
pub use reference::{Ref, WORD_LIMIT};
pub use renaming::Renaming;
