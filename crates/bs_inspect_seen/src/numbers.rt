//! The numbers of the bits that have a name.
ghost use Rattle.std.specs.Prelude.{◌≡◌, ◌<◌, ◌++◌, ◌∷◌, [], ◌+◌, drop, length, map, IfOk, OnOk};
ghost use Rattle.std.specs.List.{list_any};
ghost use Rattle.bs_net.specs.Netlist.{parts_of};
ghost use Rattle.bs_net.specs.Parts.{key_at};
ghost use Rattle.bs_net_names.specs.Keys.{parts_in};
ghost use Rattle.bs_inspect_seen.specs.Given.{flop_keys, greatest, is_wide, least, net_parts, number_if, number_of, numbers_of};

use bs_bits::NoMemory;
use bs_net::{NetId, Netlist, Raw};
use bs_net_names::{KeyParts, is_named, key_parts};
use std::alloc::Global;

/// The key of a net.
#[tactic(auto, using(crate::proofs::NumberLemmas::key_is))]
fn key_of(raw: &Raw, net: u32) -> &[u8]
    requires { net < length raw.now.names }
    ensures { result.now ≡ key_at (parts_of raw.now) net }
{
    raw.names.key(NetId(net)).as_bytes()
}

/// What the keys of the nets say.
#[tactic(auto, using(crate::proofs::NumberLemmas::net_more))]
pub(crate) fn net_parts<'a>(alloc: Global, raw: &'a Raw) -> Result<Vec<KeyParts<'a>>, NoMemory>
    ensures { IfOk result (λ nets. map parts_in nets.items ≡ net_parts (parts_of raw.now)) }
{
    let mut nets = Vec::new(alloc);
    'nets: for n in 0..raw.names.len() {
        nets.push(key_parts(key_of(raw, n)))?;
    }
    Ok(nets)
}

/// The keys of the flip-flops.
#[tactic(auto, using(crate::proofs::NumberLemmas::bytes_more))]
fn flop_bytes<'a>(alloc: Global, raw: &'a Raw) -> Result<Vec<&'a [u8]>, NoMemory>
    ensures { IfOk result (λ keys. map (λ k. k.now) keys.items ≡ flop_keys (parts_of raw.now)) }
{
    let mut keys = Vec::new(alloc);
    'flops: for i in 0..raw.flops.len() {
        keys.push(key_of(raw, raw.flops.get(i).q.0))?;
    }
    Ok(keys)
}

/// The keys of a netlist's flip-flops.
pub(crate) fn flop_keys<'a>(alloc: Global, net: &'a Netlist) -> Result<Vec<&'a [u8]>, NoMemory>
    ensures { IfOk result (λ keys. map (λ k. k.now) keys.items ≡ flop_keys net.now.raw) }
{
    let keys = flop_bytes(alloc, net.raw())?;
    Ok(keys)
}

/// The number of a bit in its vector.
pub(crate) fn number_of(parts: KeyParts<'_>) -> u64
    ensures { result ≡ number_of (parts_in parts.entry) }
{
    match parts.bit {
        Some(number) => number,
        None => 0,
    }
}

/// Puts the number of a net at the end, where it has a name.
fn put_number(numbers: &mut Vec<u64>, parts: KeyParts<'_>, name: &[u8]) -> Result<(), NoMemory>
    ensures { OnOk result (numbers.new.items ≡ numbers.old.items ++ number_if name.now (parts_in parts.entry)) }
{
    if is_named(parts, name) {
        numbers.push(number_of(parts))?;
    }
    Ok(())
}

/// The numbers of the nets that have a name.
#[tactic(auto, using(crate::proofs::NumberLemmas::numbers_more))]
pub(crate) fn numbers_of(
    alloc: Global,
    nets: &[KeyParts<'_>],
    name: &[u8],
) -> Result<Vec<u64>, NoMemory>
    ensures { IfOk result (λ numbers. numbers.items ≡ numbers_of (map parts_in nets.now) name.now) }
{
    let mut numbers = Vec::new(alloc);
    'nets: for i in 0..nets.len() {
        put_number(&mut numbers, nets[i], name)?;
    }
    Ok(numbers)
}

/// The least of a number and others.
fn least_from(first: u64, numbers: &[u64]) -> u64
    ensures { result ≡ least (first ∷ numbers.now) }
{
    let mut least = first;
    'numbers: for number in numbers {
        least = least.min(*number);
    }
    least
}

/// The least of some numbers.
pub(crate) fn least(numbers: &[u64]) -> u64
    ensures { result ≡ least numbers.now }
{
    match numbers {
        [] => 0,
        [first, rest @ ..] => least_from(*first, rest),
    }
}

/// The greatest of some numbers.
fn greatest(numbers: &[u64]) -> u64
    ensures { result ≡ greatest numbers.now }
{
    let mut greatest = 0;
    'numbers: for number in numbers {
        greatest = greatest.max(*number);
    }
    greatest
}

/// Whether there is a 1.
fn has_one(bits: &[bool]) -> bool
    ensures { result ≡ list_any (λ b. b) bits.now }
{
    bits.iter().any(|bit| *bit)
}

/// Whether there is a 1 behind a place.
#[tactic(auto, using(crate::proofs::NumberLemmas::none_behind))]
fn has_one_behind(bits: &[bool], place: u64) -> bool
    ensures { result ≡ list_any (λ b. b) (drop (place + 1) bits.now) }
{
    if place < bits.len() as u64 {
        let (_, rest) = bits.split_at(place as usize + 1);
        has_one(rest)
    } else {
        false
    }
}

/// Whether a value has a 1 above the bits with these numbers.
pub(crate) fn is_wide(numbers: &[u64], bits: &[bool]) -> bool
    ensures { result ≡ is_wide numbers.now bits.now }
{
    has_one_behind(bits, greatest(numbers).saturating_sub(least(numbers)))
}
