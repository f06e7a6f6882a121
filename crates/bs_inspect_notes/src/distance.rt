//! How far two names are apart, and which of some names are offered for one, and nearest to it.
ghost use Rattle.std.specs.Prelude.{◌≡◌, ◌++◌, map, min, fold, IfOk, OnOk};
ghost use Rattle.bs_inspect_notes.specs.Nearest.{at_distance, bases_apart, by_bits, ends_behind, far, is_made, is_offered, is_separator, kept, least, nearest, offered};

use bs_bits::NoMemory;
use bs_inspect_view::is_nameless;
use bs_net_names::{apart, key_parts, plain, same_bit};
use bs_vcd_header::is_text;
use std::alloc::Global;

/// Whether a byte parts the names of a path.
fn is_separator(byte: u8) -> bool
    ensures { result ≡ is_separator byte }
{
    byte == b'.' || byte == b'/'
}

/// Whether a text ends with a separator and then this name.
fn ends_behind(whole: &[u8], name: &[u8]) -> bool
    ensures { result ≡ ends_behind whole.now name.now }
{
    if name.len() < whole.len() {
        let at = whole.len() - name.len();
        is_separator(whole[at - 1]) && is_text(&whole[at..], name)
    } else {
        false
    }
}

/// How far two names are apart: not at all where one is a path to the other.
fn bases_apart(name: &[u8], other: &[u8]) -> usize
    ensures { result ≡ bases_apart name.now other.now }
{
    let within = ends_behind(name, other);
    let around = ends_behind(other, name);
    if within || around {
        0
    } else {
        apart(name, other)
    }
}

/// A distance, and at least 1 where a bit is another.
fn by_bits(same: bool, distance: usize) -> usize
    ensures { result ≡ by_bits same distance }
{
    if same { distance } else { 1.max(distance) }
}

/// How far two names are apart as RTL writes them.
#[tactic(auto, using(crate::proofs::NearLemmas::far_vector, crate::proofs::NearLemmas::far_bits))]
fn far(name: &[u8], other: &[u8]) -> usize
    ensures { result ≡ far name.now other.now }
{
    let one = key_parts(name);
    let two = key_parts(other);
    let base = plain(two.base);
    if is_text(plain(name), base) {
        return 0;
    }
    by_bits(
        same_bit(one.bit, two.bit),
        bases_apart(plain(one.base), base),
    )
}

/// The least of a distance and those of these names.
#[tactic(auto, using(crate::proofs::NearLemmas::least_more, crate::proofs::NearLemmas::least_end))]
fn least_from(name: &[u8], first: usize, names: &[&[u8]]) -> usize
    ensures { result ≡ fold (λ d n. min d (far name.now n.now)) first names.now }
{
    let mut least = first;
    'names: for other in names {
        least = least.min(far(name, other));
    }
    least
}

/// The least distance of these names.
#[tactic(auto, using(crate::proofs::NearLemmas::least_is))]
fn least(name: &[u8], names: &[&[u8]]) -> usize
    ensures { result ≡ least name.now (map (λ n. n.now) names.now) }
{
    match names {
        [] => 0,
        [first, rest @ ..] => least_from(name, far(name, first), rest),
    }
}

/// Puts a name at the end, or not.
fn add_if<'a>(found: &mut Vec<&'a [u8]>, name: &'a [u8], is: bool) -> Result<(), NoMemory>
    ensures { OnOk result (map (λ n. n.now) found.new.items ≡ map (λ n. n.now) found.old.items ++ kept is name.now) }
{
    if is {
        found.push(name)?;
    }
    Ok(())
}

/// Whether this is a constant's key, or a name that synthesis made.
#[tactic(auto, using(crate::proofs::NearLemmas::made_by))]
fn is_made(key: &[u8]) -> bool
    ensures { result ≡ is_made key.now }
{
    let parts = key_parts(key);
    is_nameless(parts.base)
}

/// Whether a name is offered for another.
fn is_offered(name: &[u8], other: &[u8]) -> bool
    ensures { result ≡ is_offered name.now other.now }
{
    let asked = is_made(name);
    let made = is_made(other);
    asked || !made
}

/// Those of these names that are offered for one.
pub fn offered<'a>(
    alloc: Global,
    name: &[u8],
    names: &[&'a [u8]],
) -> Result<Vec<&'a [u8]>, NoMemory>
    ensures { IfOk result (λ found. map (λ n. n.now) found.items ≡ offered name.now (map (λ n. n.now) names.now)) }
{
    let mut found = Vec::new(alloc);
    'names: for &other in names {
        let keep = is_offered(name, other);
        add_if(&mut found, other, keep)?;
    }
    Ok(found)
}

/// Those of these names that are so far from one.
fn at_distance<'a>(
    alloc: Global,
    name: &[u8],
    distance: usize,
    names: &[&'a [u8]],
) -> Result<Vec<&'a [u8]>, NoMemory>
    ensures { IfOk result (λ found. map (λ n. n.now) found.items ≡ at_distance name.now distance (map (λ n. n.now) names.now)) }
{
    let mut found = Vec::new(alloc);
    'names: for &other in names {
        let far = far(name, other);
        add_if(&mut found, other, far == distance)?;
    }
    Ok(found)
}

/// Those of these names that are as near to one as any.
pub fn nearest<'a>(
    alloc: Global,
    name: &[u8],
    names: &[&'a [u8]],
) -> Result<Vec<&'a [u8]>, NoMemory>
    ensures { IfOk result (λ found. map (λ n. n.now) found.items ≡ nearest name.now (map (λ n. n.now) names.now)) }
{
    let found = at_distance(alloc, name, least(name, names), names)?;
    Ok(found)
}
