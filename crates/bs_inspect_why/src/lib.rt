//! What forces a name's bits in a trace, as a text: from moment to moment back to the cause.
//!
//! Modules: `question` (what is asked), `asked` (the nets with a name, and their facts), `setting` (where cones end, and which nets make
//! a vector), `still` (data inputs that stand still), `telling` (the text of accounts), `table` (the same for scripts),
//! `denial` (why there is no account), `why` (`why_text`). Accounts are made by bs_inspect_causes, joined to chains by
//! bs_inspect_causes, the text of a block is made by bs_inspect_why_words. Used above: `TellsWhy` (`specs/Why`), whose accounts
//! `Explain` what is asked, and `IsDenied` (`specs/Denials`).
#![tactic(auto)]

mod asked;
mod denial;
mod question;
mod setting;
mod still;
mod table;
mod telling;
mod why;

pub use denial::{Denial, WhyAnswer, denial_text};
pub use question::Question;
pub use why::why_text;
