//! The state in which flip-flops with names have their values.
ghost use Rattle.std.specs.Prelude.{◌≡◌, ◌++◌, ◌∷◌, [], codes, find, map, not, option_map, IfOk};
ghost use Rattle.std.specs.List.{list_any};
ghost use Rattle.bs_bits.specs.Lines.{line};
ghost use Rattle.bs_net_names.specs.Keys.{parts_in};
ghost use Rattle.bs_net_names.specs.Naming.{is_named};
ghost use Rattle.bs_scan.specs.SeenText.{seen_text};
ghost use Rattle.bs_inspect_seen.specs.Given.{given_in, is_given};
ghost use Rattle.bs_inspect_seen.specs.State.{bit_in, free_among, given_bit, given_for, is_open, seen_among, seen_by, state_line};

use crate::given::{Given, is_given};
use crate::numbers::number_of;
use bs_bits::{Bits, NoMemory, end_line, push_piece};
use bs_net::Netlist;
use bs_net_names::{KeyParts, is_named};
use bs_scan::{Seen, flop_parts};
use std::alloc::Global;

/// The first of these names that a flip-flop has.
fn find_given<'a, 'b>(givens: &'b [Given<'a>], parts: KeyParts<'_>) -> Option<&'b Given<'a>>
    ensures { option_map (λ g. g.now) result ≡ find (λ g. is_named (parts_in parts.entry) g.name.now) givens.now }
{
    givens.iter().find(|given| is_named(parts, given.name))
}

/// The bit of a value at the place of a flip-flop.
fn bit_in(parts: KeyParts<'_>, given: &Given<'_>) -> bool
    ensures { result ≡ bit_in (parts_in parts.entry) (Some (given_in given.now)) }
{
    let place = number_of(parts).saturating_sub(given.low);
    if place < given.bits.len() as u64 {
        given.bits[place as usize]
    } else {
        false
    }
}

/// The bit of a flip-flop, by the value of a name that it has.
#[tactic(auto, using(crate::proofs::StateLemmas::bit_there, crate::proofs::StateLemmas::bit_none))]
fn given_bit(givens: &[Given<'_>], parts: KeyParts<'_>) -> bool
    ensures { result ≡ given_bit (map given_in givens.now) (parts_in parts.entry) }
{
    match find_given(givens, parts) {
        Some(given) => bit_in(parts, given),
        None => false,
    }
}

/// Whether nothing is known of a flip-flop.
fn is_open(givens: &[Given<'_>], parts: KeyParts<'_>) -> bool
    ensures { result ≡ is_open (map given_in givens.now) (parts_in parts.entry) }
{
    !is_given(givens, parts)
}

/// Whether some flip-flop is not known.
fn some_open(givens: &[Given<'_>], flops: &[KeyParts<'_>]) -> bool
    ensures { result ≡ list_any (λ p. is_open (map given_in givens.now) (parts_in p)) flops.now }
{
    flops.iter().any(|parts| is_open(givens, *parts))
}

/// Which flip-flops are not known.
#[tactic(auto, using(crate::proofs::StateLemmas::open_more))]
fn open_among(alloc: Global, givens: &[Given<'_>], flops: &[KeyParts<'_>]) -> Result<Bits, NoMemory>
    ensures { IfOk result (λ free. free ≡ map (is_open (map given_in givens.now)) (map parts_in flops.now)) }
{
    let mut free = Bits::new(alloc);
    'flops: for i in 0..flops.len() {
        free.push(is_open(givens, flops[i]))?;
    }
    Ok(free)
}

/// The same, where one is not.
#[tactic(auto, using(crate::proofs::StateLemmas::free_some, crate::proofs::StateLemmas::free_none))]
fn free_among(alloc: Global, givens: &[Given<'_>], flops: &[KeyParts<'_>]) -> Result<Bits, NoMemory>
    ensures { IfOk result (λ free. free ≡ free_among (map given_in givens.now) (map parts_in flops.now)) }
{
    if some_open(givens, flops) {
        open_among(alloc, givens, flops)
    } else {
        Ok(Bits::new(alloc))
    }
}

/// The bits of the flip-flops.
#[tactic(auto, using(crate::proofs::StateLemmas::bit_more))]
fn bits_among(alloc: Global, givens: &[Given<'_>], flops: &[KeyParts<'_>]) -> Result<Bits, NoMemory>
    ensures { IfOk result (λ bits. bits ≡ map (given_bit (map given_in givens.now)) (map parts_in flops.now)) }
{
    let mut bits = Bits::new(alloc);
    'flops: for i in 0..flops.len() {
        bits.push(given_bit(givens, flops[i]))?;
    }
    Ok(bits)
}

/// The state, by what the keys of the flip-flops say.
fn seen_among(alloc: Global, givens: &[Given<'_>], flops: &[KeyParts<'_>]) -> Result<Seen, NoMemory>
    ensures { IfOk result (λ seen. seen ≡ seen_among (map given_in givens.now) (map parts_in flops.now)) }
{
    let bits = bits_among(alloc, givens, flops)?;
    let free = free_among(alloc, givens, flops)?;
    Ok(Seen { bits, free })
}

/// The state of a netlist in which flip-flops with these names have their values, and nothing is known of the others. The lowest bit of
/// a value is that of the lowest net with the name.
pub fn seen_of(alloc: Global, net: &Netlist, givens: &[Given<'_>]) -> Result<Seen, NoMemory>
    ensures { IfOk result (λ seen. seen ≡ seen_by net.now.raw (map given_in givens.now)) }
{
    let flops = flop_parts(alloc, net.raw())?;
    let seen = seen_among(alloc, givens, flops.as_slice())?;
    Ok(seen)
}

/// The line of a state in a dump.
fn text_of(alloc: Global, seen: &Seen) -> Result<Vec<u8>, NoMemory>
    ensures { IfOk result (λ text. text.items ≡ line (codes "state " ++ seen_text seen.now)) }
{
    let mut text = Vec::new(alloc);
    push_piece(&mut text, b"state ")?;
    seen.text(&mut text)?;
    end_line(&mut text)?;
    Ok(text)
}

/// The first line of a dump of that state.
pub fn state_text(alloc: Global, net: &Netlist, givens: &[Given<'_>]) -> Result<Vec<u8>, NoMemory>
    ensures { IfOk result (λ text. text.items ≡ state_line net.now.raw (map given_in givens.now)) }
{
    let seen = seen_of(alloc, net, givens)?;
    let text = text_of(alloc, &seen)?;
    Ok(text)
}
