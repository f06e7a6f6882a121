//! The scopes of a waveform.
ghost use Rattle.std.specs.Prelude.{◌≡◌, ◌++◌, OnOk};
ghost use Rattle.std.specs.List.{flat_map};
ghost use Rattle.bs_inspect_view.specs.Scopes.{leaf_of, moves, opening, parts_of, path_of, scope_piece, scopes, word_of};

use bs_bits::{NoMemory, push_line, push_piece};
use bs_net_names::{first_split, last_split, plain};

/// The path of a name: what stands before its last dot.
pub(crate) fn path_of(name: &[u8]) -> &[u8]
    ensures { result.now ≡ path_of name.now }
{
    match last_split(b'.', plain(name)) {
        Some((path, _)) => path,
        None => b"",
    }
}

/// The name in its scope: what stands behind the last dot.
pub(crate) fn leaf_of(name: &[u8]) -> &[u8]
    ensures { result.now ≡ leaf_of name.now }
{
    match last_split(b'.', plain(name)) {
        Some((_, leaf)) => leaf,
        None => plain(name),
    }
}

/// A part of a name, or `_` where it is empty.
pub(crate) fn word_of(part: &[u8]) -> &[u8]
    ensures { result.now ≡ word_of part.now }
{
    if part.is_empty() { b"_" } else { part }
}

/// Appends the line that opens the scope with a name.
fn push_opening(text: &mut Vec<u8>, word: &[u8]) -> Result<(), NoMemory>
    ensures { OnOk result (text.new.items ≡ text.old.items ++ opening word.now) }
{
    push_piece(text, b"$scope module ")?;
    push_piece(text, word)?;
    push_line(text, b" $end")?;
    Ok(())
}

/// Appends the line that opens the scope of a part, or the one that closes it.
fn push_scope(text: &mut Vec<u8>, opens: bool, part: &[u8]) -> Result<(), NoMemory>
    ensures { OnOk result (text.new.items ≡ text.old.items ++ scope_piece opens part.now) }
{
    if opens {
        push_opening(text, word_of(part))
    } else {
        push_line(text, b"$upscope $end")
    }
}

/// Appends such a line for each part of a path.
#[tactic(auto, using(crate::proofs::ScopeLemmas::part_more, crate::proofs::ScopeLemmas::part_last, crate::proofs::ScopeLemmas::fewer_parts))]
fn push_parts(text: &mut Vec<u8>, opens: bool, path: &[u8]) -> Result<(), NoMemory>
    ensures { OnOk result (text.new.items ≡ text.old.items ++ flat_map (scope_piece opens) (parts_of path.now)) }
{
    let mut rest = path;
    'parts: while let Some((part, behind)) = first_split(b'.', rest) {
        push_scope(text, opens, part)?;
        rest = behind;
    }
    push_scope(text, opens, rest)?;
    Ok(())
}

/// Appends the lines that open, or close, the scopes of a path.
pub(crate) fn push_scopes(text: &mut Vec<u8>, opens: bool, path: &[u8]) -> Result<(), NoMemory>
    ensures { OnOk result (text.new.items ≡ text.old.items ++ scopes opens path.now) }
{
    if path.is_empty() {
        return Ok(());
    }
    push_parts(text, opens, path)
}

/// Appends the lines between a variable on one path and the next one on another.
pub(crate) fn push_moves(text: &mut Vec<u8>, closed: &[u8], opened: &[u8]) -> Result<(), NoMemory>
    ensures { OnOk result (text.new.items ≡ text.old.items ++ moves closed.now opened.now) }
{
    if closed == opened {
        return Ok(());
    }
    push_scopes(text, false, closed)?;
    push_scopes(text, true, opened)
}
