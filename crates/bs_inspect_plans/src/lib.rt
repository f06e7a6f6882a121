//! What each request of the companion calls for, and the files of a state that is looked for in recorded
//! runs: each is fetched and read once, up to the first that stops the walk.
//!
//! `specs/`: the plan of each request (`Work`), the names of its files (`Sources`), the status and the text
//! of work that is done (`Finishes`), and what is said besides (`Said`). Modules: `sources` (the answer to a
//! walk that stopped), `replies` (a reply with no note), `rejection` (what an answer that is rejected means),
//! `window` (a trace of which no state is told), `lacking` (a dump of which flip-flops are not there), `usage` (what `help` and `version` show). Used
//! above: `plan_of`, `finishes` and `RequestSaid`, which the answer to a request is proved of
//! (bs_inspect_report_requests, bs_inspect_netlist_requests), and the clauses of the call (backspace_inspect).
//! `proofs/WorkLemmas`: a walk that came to its end, or stopped, is such an answer.
//!
//! Of these files: `reading` (what is seen in the first line of a dump, or a diagnostic), `ready`
//! (`NearFiles`), `loading` (`load_near_files`). What stands behind the first line of the dump is not read,
//! so that no signature is wanted. Used above: `WalksDiagnosed CheckSays NoteSays ..` over the plan of
//! `specs/Taken`.
#![tactic(auto)]

mod lacking;
mod loading;
mod reading;
mod ready;
mod rejection;
mod replies;
mod sources;
mod usage;
mod window;

pub use lacking::lacking_noted;
pub use loading::load_near_files;
pub use ready::NearFiles;
pub use rejection::{Rejecting, rejected_noted};
pub use replies::silent;
pub use sources::{Sources, or_none, stop_at};
pub use usage::{usage_text, version_text};
pub use window::window_noted;
