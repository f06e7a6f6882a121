//! How many signals are told.
ghost use Rattle.std.specs.Prelude.{◌≡◌, ◌++◌, OnOk};
ghost use Rattle.bs_inspect_check.specs.Text.{more_text};

use bs_bits::{NoMemory, end_line, push_number, push_piece};

/// How many signals of one kind have a line.
/// What differs further mostly follows from these. It is counted.
pub const MAX_LINES: usize = 16;

/// Appends how many signals have no line, where there are some.
pub(crate) fn push_more(text: &mut Vec<u8>, count: usize) -> Result<(), NoMemory>
    ensures { OnOk result (text.new.items ≡ text.old.items ++ more_text count) }
{
    if count <= MAX_LINES {
        return Ok(());
    }
    push_piece(text, b"and ")?;
    push_number(text, (count - MAX_LINES) as u64)?;
    push_piece(text, b" more")?;
    end_line(text)
}
