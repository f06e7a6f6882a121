//! The tags of names: numbers that equal names share.
ghost use Rattle.std.specs.Prelude.{◌≡◌};
ghost use Rattle.bs_vcd_header.specs.Header.{variable_in};
ghost use Rattle.bs_vcd_header.specs.TagIndex.{tag_behind, tag_here, tag_local, tag_more, tag_named, tag_of};

use crate::header::Variable;
use crate::range::named_in;
use crate::sources::{behind, lies_in, path_of};
use crate::words::is_text;
use bs_bits::List;

/// By what a tag is multiplied for each byte: the multiplier of Knuth's generator of 64 bits.
pub const TAG_FACTOR: u64 = 6_364_136_223_846_793_005;

/// A tag with one byte more.
#[tactic(auto, unfolding(crate::specs::TagIndex::tag_more))]
fn tag_more(tag: u64, byte: u8) -> u64
    ensures { result ≡ tag_more tag byte }
{
    tag.wrapping_mul(TAG_FACTOR).wrapping_add(u64::from(byte))
}

/// A tag with more bytes.
fn tag_behind(tag: u64, text: &[u8]) -> u64
    ensures { result ≡ tag_behind tag text.now }
{
    let mut more = tag;
    'bytes: for byte in text {
        more = tag_more(more, *byte);
    }
    more
}

/// The tag of a text.
pub fn tag_of(text: &[u8]) -> u64
    ensures { result ≡ tag_of text.now }
{
    tag_behind(0, text)
}

/// The tag of a name in a path, as of `tx.level` by `tx` and `level`.
fn tag_local(inner: &[u8], name: &[u8]) -> u64
    ensures { result ≡ tag_local inner.now name.now }
{
    tag_behind(tag_more(tag_of(inner), b'.'), name)
}

/// The tag of what a variable of a scope is called in the scope with a path.
fn tag_named(path: &[u8], own: &[u8], name: &[u8]) -> u64
    ensures { result ≡ tag_named path.now own.now name.now }
{
    if is_text(own, path) {
        return tag_of(name);
    }
    if path.is_empty() {
        return tag_local(own, name);
    }
    if lies_in(path, own) {
        tag_local(behind(path, own), name)
    } else {
        0
    }
}

/// The tag of what a variable is called in the scope with a path.
pub fn tag_here(paths: &List<List<u8>>, path: &[u8], variable: Variable<'_>) -> u64
    ensures { result ≡ tag_here paths.now path.now (variable_in variable.entry) }
{
    tag_named(
        path,
        path_of(paths, variable.scope),
        named_in(variable).name,
    )
}
