//! Names of flip-flops with their values, word by word.
ghost use Rattle.std.specs.Prelude.{◌≡◌, ◌++◌, ◌∷◌, [], ◌&&◌, map, option_map, IfOk, OnOk};
ghost use Rattle.std.specs.List.{list_any};
ghost use Rattle.bs_bits.specs.Reading.{Answers};
ghost use Rattle.bs_net_names.specs.Keys.{parts_in};
ghost use Rattle.bs_net_names.specs.Naming.{is_named};
ghost use Rattle.bs_net_names.specs.Splits.{last_split};
ghost use Rattle.bs_inspect_seen.specs.declared.fault.GivenFault.TheVariants.{NoMemory as Want};
ghost use Rattle.bs_inspect_seen.specs.Value.{value_in};
ghost use Rattle.bs_inspect_seen.specs.Given.{given_at, given_by, given_in, given_of, given_with, givens_from, givens_in, has_flop, is_given, is_twice};

use crate::fault::GivenFault;
use crate::numbers::{is_wide, least, net_parts, numbers_of};
use crate::value::read_value;
use bs_bits::NoMemory;
use bs_net::Netlist;
use bs_net_names::{KeyParts, is_named, last_split};
use bs_scan::flop_parts;
use std::alloc::Global;

/// A name of flip-flops, the bits of its value, the lowest first, and the lowest number of a bit that has the name.
#[derive(Drop)]
pub struct Given<'a> {
    pub name: &'a [u8],
    pub bits: Vec<bool>,
    pub low: u64,
}

/// Whether some flip-flop has a name.
fn has_flop(flops: &[KeyParts<'_>], name: &[u8]) -> bool
    ensures { result ≡ has_flop (map parts_in flops.now) name.now }
{
    any_flop(flops, name)
}

/// The same, key by key.
fn any_flop(flops: &[KeyParts<'_>], name: &[u8]) -> bool
    ensures { result ≡ list_any (λ p. is_named (parts_in p) name.now) flops.now }
{
    flops.iter().any(|parts| is_named(*parts, name))
}

/// Whether a flip-flop has a value.
pub(crate) fn is_given(givens: &[Given<'_>], parts: KeyParts<'_>) -> bool
    ensures { result ≡ is_given (map given_in givens.now) (parts_in parts.entry) }
{
    any_given(givens, parts)
}

/// The same, name by name.
fn any_given(givens: &[Given<'_>], parts: KeyParts<'_>) -> bool
    ensures { result ≡ list_any (λ g. is_named (parts_in parts.entry) g.name.now) givens.now }
{
    givens.iter().any(|given| is_named(parts, given.name))
}

/// Whether a flip-flop has a name, and a value.
fn is_both(parts: KeyParts<'_>, givens: &[Given<'_>], name: &[u8]) -> bool
    ensures { result ≡ (is_named (parts_in parts.entry) name.now && is_given (map given_in givens.now) (parts_in parts.entry)) }
{
    is_named(parts, name) && is_given(givens, parts)
}

/// Whether some flip-flop with a name has a value.
fn is_twice(flops: &[KeyParts<'_>], givens: &[Given<'_>], name: &[u8]) -> bool
    ensures { result ≡ is_twice (map parts_in flops.now) (map given_in givens.now) name.now }
{
    any_twice(flops, givens, name)
}

/// The same, key by key.
fn any_twice(flops: &[KeyParts<'_>], givens: &[Given<'_>], name: &[u8]) -> bool
    ensures { result ≡ list_any (λ p. is_named (parts_in p) name.now && is_given (map given_in givens.now) (parts_in p)) flops.now }
{
    flops.iter().any(|parts| is_both(*parts, givens, name))
}

/// A name with a value, behind others, where nets with these numbers have the name.
fn given_with<'a>(
    numbers: &[u64],
    flops: &[KeyParts<'_>],
    earlier: &[Given<'_>],
    name: &'a [u8],
    bits: Vec<bool>,
) -> Result<Given<'a>, GivenFault>
    ensures { Answers Want given_in result (given_with numbers.now (map parts_in flops.now) (map given_in earlier.now) name.now bits.items) }
{
    let number = earlier.len() as u64 + 1;
    if !has_flop(flops, name) {
        return Err(GivenFault::Unknown(number));
    }
    if is_wide(numbers, bits.as_slice()) {
        return Err(GivenFault::Wide(number));
    }
    if is_twice(flops, earlier, name) {
        return Err(GivenFault::Twice(number));
    }
    Ok(Given {
        name,
        bits,
        low: least(numbers),
    })
}

/// A name with a value, behind others.
fn given_by<'a>(
    alloc: Global,
    nets: &[KeyParts<'_>],
    flops: &[KeyParts<'_>],
    earlier: &[Given<'_>],
    name: &'a [u8],
    bits: Vec<bool>,
) -> Result<Given<'a>, GivenFault>
    ensures { Answers Want given_in result (given_by (map parts_in nets.now) (map parts_in flops.now) (map given_in earlier.now) name.now bits.items) }
{
    match numbers_of(alloc, nets, name) {
        Ok(numbers) => given_with(numbers.as_slice(), flops, earlier, name, bits),
        Err(_) => Err(GivenFault::NoMemory),
    }
}

/// A name with the text of a value, behind others.
fn given_of<'a>(
    alloc: Global,
    nets: &[KeyParts<'_>],
    flops: &[KeyParts<'_>],
    earlier: &[Given<'_>],
    name: &'a [u8],
    value: &[u8],
) -> Result<Given<'a>, GivenFault>
    ensures { Answers Want given_in result (given_of (map parts_in nets.now) (map parts_in flops.now) (map given_in earlier.now) name.now (value_in value.now)) }
{
    match read_value(alloc, value)? {
        None => Err(GivenFault::Form(earlier.len() as u64 + 1)),
        Some(bits) => given_by(alloc, nets, flops, earlier, name, bits),
    }
}

/// The name and the value of a word, behind others.
fn given_at<'a>(
    alloc: Global,
    nets: &[KeyParts<'_>],
    flops: &[KeyParts<'_>],
    earlier: &[Given<'_>],
    word: &'a [u8],
) -> Result<Given<'a>, GivenFault>
    ensures { Answers Want given_in result (given_at (map parts_in nets.now) (map parts_in flops.now) (map given_in earlier.now) (last_split 61 word.now)) }
{
    match last_split(b'=', word) {
        None => Err(GivenFault::Form(earlier.len() as u64 + 1)),
        Some((name, value)) => given_of(alloc, nets, flops, earlier, name, value),
    }
}

/// The same of a word that is a text.
fn given_word<'a>(
    alloc: Global,
    nets: &[KeyParts<'_>],
    flops: &[KeyParts<'_>],
    earlier: &[Given<'_>],
    word: &'a str,
) -> Result<Given<'a>, GivenFault>
    ensures { Answers Want given_in result (given_at (map parts_in nets.now) (map parts_in flops.now) (map given_in earlier.now) (last_split 61 word.now)) }
{
    given_at(alloc, nets, flops, earlier, word.as_bytes())
}

/// Puts a name with its value at the end.
fn put<'a>(givens: &mut Vec<Given<'a>>, given: Given<'a>) -> Result<(), NoMemory>
    ensures { OnOk result (map given_in givens.new.items ≡ map given_in givens.old.items ++ given_in given.entry ∷ []) }
{
    givens.push(given)?;
    Ok(())
}

/// The names and values of words.
#[tactic(auto, using(crate::proofs::GivenLemmas::word_more, crate::proofs::GivenLemmas::word_faulty, crate::proofs::GivenLemmas::words_end))]
fn read_words<'a>(
    alloc: Global,
    nets: &[KeyParts<'_>],
    flops: &[KeyParts<'_>],
    words: &[&'a str],
) -> Result<Vec<Given<'a>>, GivenFault>
    ensures { Answers Want (λ givens. map given_in givens.items) result (givens_from (map parts_in nets.now) (map parts_in flops.now) [] (map (λ s. s.now) words.now)) }
{
    let mut givens = Vec::new(alloc);
    'words: for &word in words {
        let given = given_word(alloc, nets, flops, givens.as_slice(), word)?;
        put(&mut givens, given)?;
    }
    Ok(givens)
}

/// The names of a netlist's flip-flops, or of their vectors, with their values: each word is `NAME=VALUE`.
pub fn read_givens<'a>(
    alloc: Global,
    net: &Netlist,
    words: &[&'a str],
) -> Result<Vec<Given<'a>>, GivenFault>
    ensures { Answers Want (λ givens. map given_in givens.items) result (givens_in net.now.raw (map (λ s. s.now) words.now)) }
{
    let nets = net_parts(alloc, net.raw())?;
    let flops = flop_parts(alloc, net.raw())?;
    let givens = read_words(alloc, nets.as_slice(), flops.as_slice(), words)?;
    Ok(givens)
}
