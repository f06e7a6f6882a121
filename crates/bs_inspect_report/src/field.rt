//! A field of a table.
ghost use Rattle.std.specs.Prelude.{◌≡◌, ◌++◌, codes, OnOk};
ghost use Rattle.std.specs.List.{flat_map, list_any};
ghost use Rattle.bs_inspect_report.specs.Table.{doubled, field, is_special};

use bs_bits::{NoMemory, push_piece};

/// Whether a byte is a quote or a comma.
fn is_special(byte: u8) -> bool
    ensures { result ≡ is_special byte }
{
    byte == b'"' || byte == b','
}

/// Whether a text has a quote or a comma.
fn has_special(text: &[u8]) -> bool
    ensures { result ≡ list_any is_special text.now }
{
    text.iter().any(|byte| is_special(*byte))
}

/// Appends a quote twice, and any other byte once.
fn push_doubled(text: &mut Vec<u8>, byte: u8) -> Result<(), NoMemory>
    ensures { OnOk result (text.new.items ≡ text.old.items ++ doubled byte) }
{
    if byte == b'"' {
        push_piece(text, b"\"\"")
    } else {
        push_piece(text, &[byte])
    }
}

/// Appends the bytes of a text, each quote twice.
fn push_all_doubled(text: &mut Vec<u8>, content: &[u8]) -> Result<(), NoMemory>
    ensures { OnOk result (text.new.items ≡ text.old.items ++ flat_map doubled content.now) }
{
    'bytes: for &byte in content {
        push_doubled(text, byte)?;
    }
    Ok(())
}

/// Appends a field: a text as it is, or between quotes where it has a quote or a comma.
pub fn push_field(text: &mut Vec<u8>, content: &[u8]) -> Result<(), NoMemory>
    ensures { OnOk result (text.new.items ≡ text.old.items ++ field content.now) }
{
    if !has_special(content) {
        return push_piece(text, content);
    }
    push_piece(text, b"\"")?;
    push_all_doubled(text, content)?;
    push_piece(text, b"\"")
}
