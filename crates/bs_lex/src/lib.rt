//! The tokens of a netlist text, each a slice of its source, one after another; and what the grammar sees of
//! each, with its names and its great numbers numbered.
//!
//! Of tokens, which take no memory: `classes` (classes of bytes, and runs of them), `comments`, `forms` (what
//! else begins with a mark: texts, escaped names, directives), `numbers`, `pieces` (the longest form at a
//! place), `scan` (`next_token`), `token`. Used above: `next_token` answers exactly what `tokens_of bytes`
//! has next. To change what a token is open `piece_at` in `specs/Tokens`, then the module of its form; a
//! class of bytes, `specs/Bytes` and `classes`.
//!
//! Of the grammar's view: `lexeme` (what a token is to the grammar), `tag` and `packed` (a lexeme in eight
//! bytes), `words` (keywords, cells, numbers), `number_limits` (which numbers are great), `naming` (one
//! lexeme a token, and the table of names). Used above: `lexemes` gives exactly `lexemes_of` and `names_of`,
//! or the first place where no token begins. To add a keyword or a cell: `specs/Lexemes` with `words`, and
//! its tag in `specs/Packed`, `tag` and `packed`.
#![tactic(auto)]

mod classes;
mod comments;
mod fault;
mod forms;
mod law;
mod lexeme;
mod limits;
mod naming;
mod number_limits;
mod numbers;
mod packed;
mod pieces;
mod scan;
mod tag;
mod token;
mod words;

pub use classes::{begins_name, byte_at, is_of_name};
pub use fault::LexFault;
pub use law::numbers_are_told_apart;
pub use lexeme::{Cell, Name, Sort, Word, is_name};
pub use limits::MAX_BYTES;
pub use naming::{NameTable, lexemes};
pub use number_limits::{GREAT, MAX_INDEX};
pub use packed::Lexeme;
pub use scan::next_token;
pub use token::{Next, Token, TokenKind};
