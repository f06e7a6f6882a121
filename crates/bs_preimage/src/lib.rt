//! Lists of candidates for the state before the present one, by refutation.
//!
//! Modules: `candidate` (the state and input that an assignment shows), `source` (`Source`, what may know a candidate), `next_candidate` (one
//! solve, and what comes of it), `enumeration` (turns until the list ends), `order`, `step` (begin, search and end of a
//! step), `preimage` (`Preimage`), `probe` (`Probe`, a private search about one state). Used above: `HasListed` of `Preimage::list`,
//! what a list is and what it adds to the log; `HasListedAsking` of `list_asking`, where a source is asked as the list is about to be
//! cut; and `into_log`, whose log is accepted. How a list ends: `specs/Finding` and `enumeration`. What stays between two lists: `specs/Rest`.
#![tactic(auto)]

mod candidate;
mod enumeration;
mod listing;
mod next_candidate;
mod order;
mod preimage;
mod probe;
mod source;
mod step;

pub use candidate::copied_before;
pub use listing::Listing;
pub use preimage::Preimage;
pub use probe::{MAX_PROBES, Probe, Probed};
pub use source::Source;
