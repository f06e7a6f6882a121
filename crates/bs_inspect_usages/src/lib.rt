//! The options behind a command of the companion with their values, how the words of each command stand, and
//! the notes on words that are no request.
//!
//! Of the notes: `usage` (how words stand, and wrong words), `reason` (an option that is missing, a number
//! out of its bounds), `valued` (a value that is missing, or needless), `twice` (an option that is given
//! twice), `foreign` (an option of another command), `positions` (how many words by position there are).
//! Used above: the text of each note, exactly (`specs/Usages`). A command: a line of `usages`, `owned` and
//! `places` and of `USAGES`, `COMMANDS`, `OWNED` and `PLACES`; each option in `options` and `OPTIONS`, and in
//! `worded` or `bare` where its value is a word or it has none; each number in `ranges` and `RANGES`.
//!
//! Of the options: `given` (the words behind a command, parted by bs_top_words), `settings` (which options
//! are given, and their values), `numbers` (the numbers that options take), `window` (which states of a
//! trace). Used above: `fit`, `is_given`, `value_of` and `values_of` answer the definitions of their names
//! (`specs/Settings`), and each reader of a number its own (`specs/Numbers`); `given_words` answers `read_all
//! all_flags`. An option: a variant of `Flag` (bs_top_words), and a place in `all_flags` and in
//! `given_words`.
#![tactic(auto)]

mod foreign;
mod given;
mod numbers;
mod positions;
mod reason;
mod settings;
mod twice;
mod usage;
mod valued;
mod window;

pub use given::given_words;
pub use numbers::{
    DEFAULT_DEPTH, DEFAULT_DRAWN, MAX_DEPTH, MAX_DRAWN, MAX_LINES, MAX_STEP, drawn_most, items_in,
    layers, length_of, most_lines, step_in,
};
pub use settings::{fit, is_given, value_of, values_of};
pub use usage::{push_usages, unread_note, words_note};
pub use window::{TraceWindow, cycle_at, from_of, window_of};
