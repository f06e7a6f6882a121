//! Lists of bits and of any type that contracts see as lists, and the lines, words and numbers of a text.
//!
//! Modules: `bits` and `bit_text` (bits as a list, their text both ways), `list` (`List<T>`),
//! `memory` (`NoMemory`, the one answer for out of memory), `lines`, `words`, `numbers` (what all line texts
//! are read by), `writing` (pieces that are appended, cut back where memory runs out). Used above:
//! a `Bits` is a list of 0 and 1; `Answers` and the step of `specs/Reading`, in whose words every
//! reader's contract is written. To change the text of bits open `bit_text` and `specs/Text`; a
//! line, a word or a number, `specs/Lines`.
#![tactic(auto)]

mod bit_text;
mod bits;
mod lines;
mod list;
mod memory;
mod numbers;
mod words;
mod writing;

pub use bits::Bits;
pub use lines::{is_name, next_line, next_word, whole_line};
pub use list::List;
pub use memory::NoMemory;
pub use numbers::{is_canonical, read_number};
pub use words::Words;
pub use writing::{end_line, push_line, push_number, push_number_line, push_piece};
