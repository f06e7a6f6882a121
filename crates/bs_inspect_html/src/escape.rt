//! A text as HTML shows it.
ghost use Rattle.std.specs.Prelude.{◌≡◌, ◌++◌, OnOk};
ghost use Rattle.bs_inspect_html.specs.Escapes.{entity, html_escaped};

use bs_bits::{NoMemory, push_piece};

/// Appends a byte, as an entity where a browser would read it as a mark.
fn push_entity(text: &mut Vec<u8>, byte: u8) -> Result<(), NoMemory>
    ensures { OnOk result (text.new.items ≡ text.old.items ++ entity byte) }
{
    if byte == b'&' {
        return push_piece(text, b"&amp;");
    }
    if byte == b'<' {
        return push_piece(text, b"&lt;");
    }
    if byte == b'>' {
        return push_piece(text, b"&gt;");
    }
    if byte == b'"' {
        return push_piece(text, b"&quot;");
    }
    if byte == b'\'' {
        return push_piece(text, b"&apos;");
    }
    push_piece(text, &[byte])
}

/// Appends a text as HTML shows it.
pub(crate) fn push_escaped(text: &mut Vec<u8>, content: &[u8]) -> Result<(), NoMemory>
    ensures { OnOk result (text.new.items ≡ text.old.items ++ html_escaped content.now) }
{
    'bytes: for &byte in content {
        push_entity(text, byte)?;
    }
    Ok(())
}
