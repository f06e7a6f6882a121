//! Evidence for other checkers, as texts: the clauses on which one list of a report stands, or all of them,
//! and the proof that nothing meets them; the same of an answer of `reach`, for a length or for all that it
//! refutes.
//!
//! Modules: `flaw` (why there is none), `words` (`flaw_text`), `logged` (`log_evidence`: of any log, which
//! bs_rup checks first). Of a report: `fits` (whether the steps fit), `assumed` (what each step assumes),
//! `evidence` (`evidence_of` a step, `evidence_for` all), `law`. Of an answer: `lengths` (what the step of
//! each length assumes), `answer` (`evidence_of`), `length_law`. Used above: `IsEvidence` of `specs/Evidence`
//! and of `specs/Lengths`; `unlisted_states_are_shown` and `all_unlisted_states_are_shown`: an unlisted
//! predecessor gives an assignment that meets the clauses; `report_proofs_are_right`; `lengths_are_shown`:
//! the clauses of a length are met just where the state is reached in it. The clauses: bs_log; those of all
//! time frames: bs_reach_unrolled.
//!
//! Of all finished steps of a log: `whole` (`WholeLog`), `whole_walk` (where a walk over the lines stands),
//! `parts` (what is said of a step), `whole_cnf` (`push_whole_cnf`), `whole_lines` and `whole_lrat`
//! (`push_whole_lrat`), `whole_law` (`finished_lists_are_shown`). What the clauses are: `whole_cnf_of`
//! (`specs/WholeCnf`); what a right proof is: `IsRefutation` (bs_log).
#![tactic(auto)]

mod answer;
mod assumed;
mod evidence;
mod fits;
mod flaw;
mod law;
mod length_law;
mod lengths;
mod logged;
mod parts;
mod whole;
mod whole_cnf;
mod whole_law;
mod whole_lines;
mod whole_lrat;
mod whole_walk;
mod words;

pub use answer::evidence_of as length_evidence;
pub use evidence::{Format, evidence_for, evidence_of};
pub use flaw::{Evidence, Flaw};
pub use law::{all_unlisted_states_are_shown, report_proofs_are_right, unlisted_states_are_shown};
pub use length_law::{all_lengths_are_shown, lengths_are_shown};
pub use whole::WholeLog;
pub use whole_law::finished_lists_are_shown;
pub use words::flaw_text;
