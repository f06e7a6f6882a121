//! Pieces of a page as HTML: what stands in front of its tables, which flip-flops a signature reads, and the
//! cells of signals over moments with their names.
//!
//! In front of the tables: `style`, `paths` (names of files), `numbers` (between pieces), `signed` (what is
//! said of a signature), `reads` (which flip-flops it reads), `execution` (what is said of an execution that
//! a search for a state found), `front`, `law`. Used above: `push_front`, whose text is `front_text`
//! (`specs/Front`), and `signed_of` (`specs/Reads`), by which a name is marked just where an item reads a
//! flip-flop (`marks_are_reads`). A line: its definition and the function of the same name.
//!
//! In the tables: `figure` (moments, and the bits that are open or read), `cells` (where a cell begins and
//! ends, and its bits), `names`, `escape` (a text as HTML shows it), `cell_law`. Used above: `cells_of`
//! (`specs/Cells`), `name_cell` (`specs/Names`), `html_escaped` (`specs/Escapes`). A cell shows the signal's
//! bits at each of its moments (`cells_are_exact`), and a name holds no byte that a browser reads as a mark
//! (`escaped_is_quiet`). A line: its definition and the function of the same name.
#![tactic(auto)]

mod cell_law;
mod cells;
mod escape;
mod execution;
mod figure;
mod front;
mod law;
mod names;
mod numbers;
mod paths;
mod reads;
mod signed;
mod style;

pub use cell_law::{cells_are_exact, escaped_is_quiet};
pub use cells::{begins, bits_at, end_of, is_lively, is_open};
pub use figure::Figure;
pub use front::push_front;
pub use law::marks_are_reads;
pub use names::push_name_cell;
pub use numbers::{push_before, push_between};
pub use reads::signed_of;
pub use signed::SignatureFile;
