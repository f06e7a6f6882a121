//! The names of files on the page.
ghost use Rattle.std.specs.Prelude.{◌≡◌, ◌++◌, OnOk};
ghost use Rattle.bs_inspect_html.specs.Paths.{shown_path};

use crate::escape::push_escaped;
use bs_bits::{NoMemory, push_piece};

/// Appends the name of a file, as HTML shows it.
#[tactic(auto, unfolding(crate::specs::Paths::shown_path))]
pub(crate) fn push_path(text: &mut Vec<u8>, path: &str) -> Result<(), NoMemory>
    ensures { OnOk result (text.new.items ≡ text.old.items ++ shown_path path.now) }
{
    push_escaped(text, path.as_bytes())
}

/// Appends the name of a file, and a piece behind it.
pub(crate) fn push_path_before(text: &mut Vec<u8>, path: &str, back: &[u8]) -> Result<(), NoMemory>
    ensures { OnOk result (text.new.items ≡ text.old.items ++ (shown_path path.now ++ back.now)) }
{
    push_path(text, path)?;
    push_piece(text, back)
}
