//! Which bits a name stands for.
ghost use Rattle.std.specs.Prelude.{◌≡◌};
ghost use Rattle.bs_net_names.specs.Keys.{parts_in};
ghost use Rattle.bs_net_names.specs.Naming.{is_named, is_sliced, is_word, names_bit, names_memory, names_range, plain, same_base, same_bit, sliced_by, unspaced};
ghost use Rattle.bs_net_names.specs.Splits.{last_split};

use crate::key::{KeyParts, back_bit, key_parts};
use crate::range::{Range, is_among, range_behind};
use crate::splits::last_split;

/// A name without the `\` that it may begin with.
pub fn plain(name: &[u8]) -> &[u8]
    ensures { result.now ≡ plain name.now }
{
    match name {
        [b'\\', rest @ ..] => rest,
        _ => name,
    }
}

/// A name without the space that may end it, as yosys writes one behind an escaped name.
#[tactic(auto, using(crate::proofs::SpaceLemmas::space_none, crate::proofs::SpaceLemmas::space_ends, crate::proofs::SpaceLemmas::space_else))]
pub fn unspaced(name: &[u8]) -> &[u8]
    ensures { result.now ≡ unspaced name.now }
{
    match name.split_last() {
        None => name,
        Some((last, front)) => { if *last == b' ' { front } else { name } }
    }
}

/// Whether a number is wanted: any, where none is named.
pub fn same_bit(wanted: Option<u64>, bit: Option<u64>) -> bool
    ensures { result ≡ same_bit wanted bit }
{
    match (wanted, bit) {
        (None, _) => true,
        (Some(_), None) => false,
        (Some(one), Some(other)) => one == other,
    }
}

/// Whether a name is that of a vector or of a net.
fn same_base(name: &[u8], base: &[u8]) -> bool
    ensures { result ≡ same_base name.now base.now }
{
    plain(unspaced(name)) == plain(base)
}

/// Whether a name is that of a bit by its number, or of its vector.
fn names_bit(parts: KeyParts<'_>, name: &[u8]) -> bool
    ensures { result ≡ names_bit (parts_in parts.entry) name.now }
{
    let of_name = key_parts(name);
    same_base(of_name.base, parts.base) && same_bit(of_name.bit, parts.bit)
}

/// Whether a bit is one of a range of a vector.
fn is_sliced(parts: KeyParts<'_>, base: &[u8], range: Option<Range>) -> bool
    ensures { result ≡ is_sliced (parts_in parts.entry) base.now range }
{
    match range {
        Some(range) => same_base(base, parts.base) && is_among(range, parts.bit),
        None => false,
    }
}

/// Whether a name is that of a range with a bit.
fn names_range(parts: KeyParts<'_>, name: &[u8]) -> bool
    ensures { result ≡ names_range (parts_in parts.entry) name.now }
{
    match last_split(b'[', name) {
        Some((base, rest)) => is_sliced(parts, base, range_behind(rest)),
        None => false,
    }
}

/// Whether a name is that of the memory whose word has a bit.
fn names_memory(parts: KeyParts<'_>, name: &[u8]) -> bool
    ensures { result ≡ names_memory (parts_in parts.entry) name.now }
{
    match back_bit(parts.base) {
        Some(word) => same_base(name, word.base),
        None => false,
    }
}

/// Whether a name is that of a bit, of its vector, which may be a memory's word as `box[3]` is, of a range with it, or of the
/// memory. The space that may end it, or stand before its brackets, is passed over.
pub fn is_named(parts: KeyParts<'_>, name: &[u8]) -> bool
    ensures { result ≡ is_named (parts_in parts.entry) name.now }
{
    names_bit(parts, unspaced(name))
        || same_base(name, parts.base)
        || names_range(parts, unspaced(name))
        || names_memory(parts, name)
}
