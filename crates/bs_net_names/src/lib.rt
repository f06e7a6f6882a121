//! Names of bits: what a key says, and which bits a name stands for; and places in a text, for notes that a
//! person reads: the line and column of a byte, the line as it is shown, and the keys of a netlist that are
//! nearest to a name.
//!
//! Of names: `splits` (a text cut at a byte), `key` (`key_parts`), `range` (`[7:0]`), `naming` (`is_named`:
//! which bits a name stands for), `rtl` (names that RTL writes alike). Used above: `is_named`
//! (`specs/Naming`) and `same_name` (`specs/Rtl`).
//!
//! Of places: `spot` (`Spot`, `spot_of`: line and column of a byte), `starts`, `quoted_line` (shown lines and
//! carets), `nearest` (how far two names are apart). Used above: `IsSpot` (`specs/Spots`): the line is one
//! more than the line feeds before the place, the column one more than the bytes since. How a byte or a line
//! is shown: `specs/Quotes` and `quoted_line`.
#![tactic(auto)]

mod key;
mod naming;
mod nearest;
mod quoted_line;
mod range;
mod rtl;
mod splits;
mod spot;
mod starts;

pub use key::{KeyParts, key_parts};
pub use naming::{is_named, plain, same_bit, unspaced};
pub use nearest::{NAMED, apart, flop_key, nearest_flops};
pub use quoted_line::{SHOWN, push_caret, push_quoted};
pub use range::{Range, place_in, push_range, range_behind};
pub use rtl::same_name;
pub use splits::{before, behind, first_split, last_split};
pub use spot::{Spot, spot_of};
pub use starts::line_start;
