//! A proposed signature, in which flip-flops are mixed, and what lists of predecessors it leads to, at some
//! moments of recorded runs.
//!
//! Of the lists: `spread` (which moments), `counting` (how many members a list has), `lists` (the lists by
//! one signature), `reading` (the lists by a proposal), `item_counts` (which numbers of items are tried), `enough`
//! (the first that is enough), `lines` (the text), `signature` (`signature_text`: a proposal, the lists by
//! it, and how many items are enough). Used above: `TellsSignature` (`specs/Signature`), over
//! `AreMomentCounts` (`specs/MomentCount`): each number is that of a list of predecessors, all of them, or
//! the list was cut; `Spent` comes only where the lemmas of a solve may be too few. More moments:
//! `MAX_MOMENTS`; longer lists: `MAX_LISTED`, and `MAX_LISTED_BITS` for all together; harder ones:
//! `MAX_LEMMAS`. Where numbers of items are tried: `MAX_TRY_MOMENTS` and `MAX_TRY_WIDTH`,
//! `MAX_TRY_LISTED`, `MAX_TRY_LEMMAS`; more lists that are not of one predecessor: `OTHERS_PART`. What
//! is left out of a run in front: `FRONT_PART`.
//!
//! Of the proposal: `deck` (a deck of items, from which a flip-flop draws), `parity_items` (the items), `keys`,
//! `item_lines` (`mixed_lines`: the items as lines of a file). Used above: `mixed_lines` (`specs/Proposal`),
//! over `specs/Mixed` and `specs/Deck`: which items a flip-flop stands in follows from its number and from
//! how many items there are. Items for each flip-flop: `WEIGHT`.
//!
//! Why: each flip-flop stands in three parities. The bits of a state that do not show in the next one, the lost ones,
//! are unknowns; the stored bits are equations. With three parities for each unknown, unit propagation alone finds
//! the solution up to 0.82 unknowns an equation; with two it is unique up to 0.5 only. A deck deals the items, so
//! that bits of one register, which are lost together, share none. Which bits are lost depends on the moment, so no
//! flip-flop is left out.
//! Lists are made behind the first eighth of each run, since runs begin with their reset, in which more bits are lost
//! at once than a signature can store. A backtrace that comes to such a moment is at that run's reset.
//! What is enough must hold at 256 moments: at 64 of one program 32 items left each list of one, but at 1,024 they
//! left 39 that were not. One list of 64 may have a few candidates: two flip-flops that drew the same three items
//! cannot be told apart. That a list of 17 candidates or of 1,000 lemmas is cut is a margin, and ends early what is
//! too small.
#![tactic(auto)]

mod counting;
mod deck;
mod enough;
mod item_counts;
mod item_lines;
mod keys;
mod lines;
mod lists;
mod parity_items;
mod reading;
mod signature;
mod spread;

pub use counting::{
    ListPurpose, MAX_LEMMAS, MAX_LISTED, MAX_TRY_LEMMAS, MAX_TRY_LISTED, PredecessorCount,
};
pub use deck::{FEW_ITEMS, WEIGHT};
pub use enough::{EnoughItems, ItemsVerdict};
pub use item_lines::mixed_lines;
pub use lists::{MAX_LISTED_BITS, MAX_TRY_WIDTH, MomentCount, OTHERS_PART, count_lists};
pub use signature::signature_text;
pub use spread::{FRONT_PART, MAX_MOMENTS, MAX_TRY_MOMENTS};
