//! The search for a recorded predecessor: the first moment of any run whose state leads to the present and
//! has its signatures; and where the recorded states lead: most states that lead to no present one are passed
//! over by a hash.
//!
//! Of the search: `finder` (`Finder`: what a search keeps for the next one), `search` (moments in the order
//! of `Chip::first`), `own` (a present that is known in part, to which the run itself goes on).
//! `SignatureHashes` of bs_chip passes over moments with another signature, or the planes of the flip-flops
//! do, `Forward` over those that lead nowhere near the present, `Probe` of bs_preimage says of each other one
//! whether its state is a predecessor. Used above: `first_recorded`; what it finds: `specs/Search`. Why: the
//! search passes over moments whose signature has another hash. It asks the solver about the first two
//! others, by one unlogged solve each. Later moments must pass a cheaper test first: one data input is set to
//! 0 and to 1, and the next state is compared with the present one in the bits that no other data input
//! changes. If some bit differs both times, the moment is passed over. After 1,000 questions the moment
//! before the present takes the place, if the present is recorded.
//!
//! Of where states lead: `nets` (which nets change with a data input, in one pass over the gates), `flops`
//! (`independent_flops`: the flip-flops that load the same bit under all inputs in which one data input has a
//! value), `split` (`Split`: that data input), `groups` (parities of groups of bits), `held` (all runs' next
//! states while the data input is held at a value), `firsts` (for each hash the first cycle that has it),
//! `forward` (`Forward`, `PresentHashes`). Used above: where `Forward::may_lead` says no, the state of the moment leads
//! to the present one under no input (`LeadsNowhere` in `specs/Forward`). The flip-flops that
//! `independent_flops` names are such (`IsIndependent` in `specs/Independent`), and not all that could be:
//! marks (bs_net_facts) are told of gates' inputs' marks alone.
#![tactic(auto)]

mod finder;
mod firsts;
mod flops;
mod forward;
mod groups;
mod held;
mod nets;
mod own;
mod search;
mod split;

pub use finder::{Finder, Query};
pub use forward::{Forward, PresentHashes};
pub use search::{MAX_ASKS, Recorded, Sought, first_recorded};
