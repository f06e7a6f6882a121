//! What a pattern in the order of a scan chain shows of a state.
ghost use Rattle.std.specs.Prelude.{◌≡◌, ◌∷◌, [], ◌++◌, ◌==◌, codes, length, map, IfOk, Some};
ghost use Rattle.std.specs.List.{list_any, position, range_with_len};
ghost use Rattle.bs_bits.specs.Lines.{line};
ghost use Rattle.bs_bits.specs.Reading.{Answers};
ghost use Rattle.bs_scan.specs.SeenText.{seen_text};
ghost use Rattle.bs_inspect_netlist.specs.declared.fault.PatternFault.TheVariants.{NoMemory as Want};
ghost use Rattle.bs_inspect_netlist.specs.Order.{bit_there, is_unlisted, of_width, pattern_bit, pattern_in, state_line, unlisted_among, unscanned};

use crate::fault::PatternFault;
use crate::order::is_unlisted;
use bs_bits::{Bits, NoMemory, end_line, push_piece};
use bs_scan::Seen;
use std::alloc::Global;

/// Bits, where there are so many.
fn of_width(width: usize, bits: Bits) -> Result<Bits, PatternFault>
    ensures { result ≡ of_width width (Some bits) }
{
    let count = bits.len();
    if count == width {
        Ok(bits)
    } else {
        Err(PatternFault::Width(count as u64))
    }
}

/// A pattern of so many bits.
pub fn read_pattern(alloc: Global, text: &[u8], width: usize) -> Result<Bits, PatternFault>
    ensures { Answers Want (λ bits. bits) result (pattern_in width text.now) }
{
    match Bits::read_text(alloc, text)? {
        Some(bits) => of_width(width, bits),
        None => Err(PatternFault::Bits),
    }
}

/// The bit at a place of a pattern, if there is one.
fn bit_there(pattern: &Bits, place: Option<usize>) -> bool
    ensures { result ≡ bit_there pattern.now place }
{
    match place {
        Some(place) => {
            if place < pattern.len() {
                pattern.get(place)
            } else {
                false
            }
        }
        None => false,
    }
}

/// The place of a flip-flop in an order, if it is there.
fn place_of(order: &[usize], flop: usize) -> Option<usize>
    ensures { result ≡ position (λ f. f == flop) order.now }
{
    order.iter().position(|other| *other == flop)
}

/// The bit of a flip-flop.
fn pattern_bit(order: &[usize], pattern: &Bits, flop: usize) -> bool
    ensures { result ≡ pattern_bit order.now pattern.now flop }
{
    bit_there(pattern, place_of(order, flop))
}

/// The bits of so many flip-flops.
#[tactic(auto, using(crate::proofs::OrderLemmas::bits_more))]
fn pattern_bits(
    alloc: Global,
    width: usize,
    order: &[usize],
    pattern: &Bits,
) -> Result<Bits, NoMemory>
    ensures { IfOk result (λ bits. bits ≡ map (pattern_bit order.now pattern.now) (range_with_len 0 width)) }
{
    let mut bits = Bits::new(alloc);
    'flops: for flop in 0..width {
        bits.push(pattern_bit(order, pattern, flop))?;
    }
    Ok(bits)
}

/// Whether one of so many flip-flops is not in an order.
fn lacks_one(width: usize, order: &[usize]) -> bool
    ensures { result ≡ list_any (is_unlisted order.now) (range_with_len 0 width) }
{
    (0..width).any(|flop| is_unlisted(order, flop))
}

/// Which of so many flip-flops are not in an order.
#[tactic(auto, using(crate::proofs::OrderLemmas::unlisted_more))]
fn unlisted(alloc: Global, width: usize, order: &[usize]) -> Result<Bits, NoMemory>
    ensures { IfOk result (λ free. free ≡ map (is_unlisted order.now) (range_with_len 0 width)) }
{
    let mut free = Bits::new(alloc);
    'flops: for flop in 0..width {
        free.push(is_unlisted(order, flop))?;
    }
    Ok(free)
}

/// The same, where one is not.
fn unlisted_among(alloc: Global, width: usize, order: &[usize]) -> Result<Bits, NoMemory>
    ensures { IfOk result (λ free. free ≡ unlisted_among width order.now) }
{
    if lacks_one(width, order) {
        unlisted(alloc, width, order)
    } else {
        Ok(Bits::new(alloc))
    }
}

/// What a pattern shows of a state: each of so many flip-flops has the bit at its place in the order, and nothing is known of those that
/// are not in it.
pub fn unscan(
    alloc: Global,
    width: usize,
    order: &[usize],
    pattern: &Bits,
) -> Result<Seen, NoMemory>
    ensures { IfOk result (λ seen. seen ≡ unscanned width order.now pattern.now) }
{
    let bits = pattern_bits(alloc, width, order, pattern)?;
    let free = unlisted_among(alloc, width, order)?;
    Ok(Seen { bits, free })
}

/// The line of a state in a dump.
fn text_of(alloc: Global, seen: &Seen) -> Result<Vec<u8>, NoMemory>
    ensures { IfOk result (λ text. text.items ≡ line (codes "state " ++ seen_text seen.now)) }
{
    let mut text = Vec::new(alloc);
    push_piece(&mut text, b"state ")?;
    seen.text(&mut text)?;
    end_line(&mut text)?;
    Ok(text)
}

/// The first line of a dump: what a pattern in the order of a scan chain shows of a state.
pub fn state_text(
    alloc: Global,
    width: usize,
    order: &[usize],
    pattern: &Bits,
) -> Result<Vec<u8>, NoMemory>
    ensures { IfOk result (λ text. text.items ≡ state_line width order.now pattern.now) }
{
    let seen = unscan(alloc, width, order, pattern)?;
    let text = text_of(alloc, &seen)?;
    Ok(text)
}
