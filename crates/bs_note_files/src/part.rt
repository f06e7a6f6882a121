//! A line by its number.
ghost use Rattle.std.specs.Prelude.{◌≡◌, ◌≤◌, length, max};
ghost use Rattle.bs_note_files.specs.Parts.{IsNumbered};

use crate::form::line_at;
use bs_net_names::{line_start, spot_of};

/// The line with a number, from 1, as the place at which it begins and its bytes.
pub fn numbered_line(text: &[u8], number: u64) -> (usize, &[u8])
    ensures within { result.0 ≤ length text.now }
    ensures is { IsNumbered text.now (max number 1) result.0 result.1.now }
{
    let start = line_start(text, number.max(1));
    let spot = spot_of(text, start);
    (start, line_at(text, start, spot))
}
