//! The log of a search: its lines and their texts, what they add and take away, and what an accepted log
//! proves; and, of one step, the clauses that its list stands on, as DIMACS text, and the proof that nothing
//! meets them as LRAT text.
//!
//! Of lines: `line` (the six lines), `log`, `line_text` and `line_reading`, `origin`, `phase`, `why` (what
//! the definitions match on), `law`. Definitions: `specs/Refusal` (the rules), `specs/Propagation` (right
//! lemmas), `specs/Steps`, `specs/Kept` and `specs/Lean`. Used above: `accepted_logs_refute`, and
//! `IsAccepted`, which the checker decides and the solver keeps. A line's text: `specs/LineText`,
//! `specs/LineReading`. A rule: `tests_of` in `specs/Refusal`, then bs_rup's `checker`. A new line: each
//! definition by cases over lines.
//!
//! For other checkers: `asked` (`Refuted`), `finish` (where a log finishes a step), `cnf` (`push_cnf`),
//! `walk`, `log_lines` and `lrat` (`push_lrat`), `shown_law` (`step_lists_are_shown`). What the clauses are:
//! `cnf_of` (`specs/Cnf`); what a right proof is: `IsRefutation` (`specs/Proof`). The words of such texts:
//! `words` (literals, ids, one clause), `clauses` (those of a list beside a netlist's), `id_offsets` (where ids
//! go), `proof_lines` (of a proof). Used above: `clause_text`, `block_at` and `closed_from`
//! (`specs/Clauses`), `proof_line` and `raised` (`specs/Lines`). A line: its definition and the function of
//! the same name.
#![tactic(auto)]

mod asked;
mod clauses;
mod cnf;
mod finish;
mod id_offsets;
mod law;
mod line;
mod line_reading;
mod line_text;
mod log;
mod log_lines;
mod lrat;
mod origin;
mod phase;
mod proof_lines;
mod shown_law;
mod walk;
mod why;
mod words;

pub use asked::{FEW, Refuted};
pub use cnf::{push_clauses, push_cnf, push_header};
pub use finish::{finish_place, lemma_of};
pub use id_offsets::Frame;
pub use law::{accepted_logs_refute, reading_inverts_writing, the_first_refused_line_is_exact};
pub use line::Line;
pub use log::Log;
pub use log_lines::{last_behind, off, push_deletion, push_lemma};
pub use lrat::{push_lrat, unit_id};
pub use origin::Origin;
pub use phase::Phase;
pub use proof_lines::{push_copy, raised};
pub use shown_law::step_lists_are_shown;
pub use why::Why;
pub use words::{push_clause, push_id, push_literal, push_literals, push_unit};
