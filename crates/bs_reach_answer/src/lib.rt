//! An answer of `reach`, read back from its text, and among the files of a request.
//!
//! Of the text: `forms` (each line by itself, by the words' readers of bs_report), `place` (what the
//! next line may be), `reading` (`read_answer`), `shown` (`execution_report`), `answer_law`. Used above:
//! `answer_in`, the answer that a text is, and `answers_read_back`: a right answer within the limits is read
//! back from the text that `Reach::text` writes. A line: `specs/Forms`; the order of lines: `specs/Reading`.
//! Faults and the most bytes are those of a report.
//!
//! A file is read as an answer, or as the trace of a report: `refusals` (the words of a refusal), `lines`
//! (a note on a line), `answer` and `trace` (a reader each, `*_or_diagnostic`), `loading` (the walks over one
//! file), `ready` and `searched` (`AnswerFiles`: an answer, and the netlist and the state that were
//! searched). Used above: `WalksDiagnosed CheckSays NoteSays ..` over the plans of `specs/Entry` and
//! `specs/Searched`. A refusal: `specs/Words`; what a text is: `specs/Readings`.
#![tactic(auto)]

mod answer;
mod answer_law;
mod forms;
mod lines;
mod loading;
mod place;
mod reading;
mod ready;
mod refusals;
mod searched;
mod shown;
mod trace;

pub use answer_law::answers_read_back;
pub use lines::line_note;
pub use loading::{load_answer, load_trace};
pub use reading::read_answer;
pub use ready::AnswerFiles;
pub use searched::load_answer_files;
pub use shown::execution_report;
