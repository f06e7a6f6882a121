//! What is like what is seen of a state, by its known bits inverted and shifted by one place; and what is asked of runs at once.
ghost use Rattle.std.specs.Prelude.{◌≡◌, ◌<◌, ◌++◌, length, map, not, All, IfOk, OnOk};
ghost use Rattle.std.specs.List.{range_with_len};
ghost use Rattle.bs_net.specs.Circuit.{reset_state};
ghost use Rattle.bs_net.specs.Netlist.{circuit};
ghost use Rattle.bs_scan.specs.Seen.{kept_one, whole};
ghost use Rattle.bs_inspect_near.specs.Hints.{asked, asked_by, bit_with, inverted, known_before, known_bits, shifted_back, shifted_on, shifts_by, with_known};

use crate::counters::one_if;
use bs_bits::{Bits, List, NoMemory};
use bs_inspect_report::bit_at;
use bs_net::Netlist;
use bs_scan::Seen;
use std::alloc::Global;

// ---- bits in a row

/// The other bits.
#[tactic(auto, using(crate::proofs::StateLemmas::inverted_more, crate::proofs::StateLemmas::inverted_all))]
fn inverted(alloc: Global, row: &Bits) -> Result<Bits, NoMemory>
    ensures { IfOk result (λ bits. bits ≡ inverted row.now) }
{
    let mut bits = Bits::new(alloc);
    'bits: for i in 0..row.len() {
        bits.push(!row.get(i))?;
    }
    Ok(bits)
}

/// Each bit a place further on, behind this one.
#[tactic(auto, using(crate::proofs::StateLemmas::on_begin, crate::proofs::StateLemmas::on_more, crate::proofs::StateLemmas::on_all))]
fn shifted_on(alloc: Global, bit: bool, row: &Bits) -> Result<Bits, NoMemory>
    ensures { IfOk result (λ bits. bits ≡ shifted_on bit row.now) }
{
    let count = row.len().saturating_sub(1);
    let mut bits = Bits::new(alloc);
    bits.push(bit)?;
    'bits: for i in 0..count {
        bits.push(row.get(i))?;
    }
    Ok(bits)
}

/// Each bit a place before, and behind them this one.
#[tactic(auto, using(crate::proofs::StateLemmas::back_begin, crate::proofs::StateLemmas::back_more, crate::proofs::StateLemmas::back_all))]
fn shifted_back(alloc: Global, bit: bool, row: &Bits) -> Result<Bits, NoMemory>
    ensures { IfOk result (λ bits. bits ≡ shifted_back bit row.now) }
{
    let count = row.len().saturating_sub(1);
    let mut bits = Bits::new(alloc);
    'bits: for i in 0..count {
        bits.push(row.get(i + 1))?;
    }
    bits.push(bit)?;
    Ok(bits)
}

// ---- the known bits

/// Puts a bit at the end, unless it is not known.
fn push_known(known: &mut Bits, free: bool, bit: bool) -> Result<(), NoMemory>
    ensures { OnOk result (known.new ≡ known.old ++ kept_one free bit) }
{
    if free {
        return Ok(());
    }
    known.push(bit)
}

/// The known bits, in their order.
#[tactic(auto, using(crate::proofs::StateLemmas::known_none, crate::proofs::StateLemmas::known_all))]
fn known_bits(alloc: Global, seen: &Seen) -> Result<Bits, NoMemory>
    ensures { IfOk result (λ known. known ≡ known_bits seen.now) }
{
    let mut known = Bits::new(alloc);
    'places: for i in 0..seen.bits.len() {
        push_known(&mut known, seen.is_free(i), seen.bits.get(i))?;
    }
    Ok(known)
}

/// The bit at a place, where others stand one after another at the known places, so many of them before it.
fn bit_with(seen: &Seen, known: &Bits, place: usize, next: usize) -> bool
    requires place { place < length seen.now.bits }
    requires next { next ≡ known_before seen.now.free place }
    ensures { result ≡ bit_with seen.now known.now place }
{
    if seen.is_free(place) {
        seen.bits.get(place)
    } else {
        bit_at(known, next)
    }
}

/// The bits, with others at the known places.
#[tactic(auto, using(crate::proofs::StateLemmas::with_begin, crate::proofs::StateLemmas::with_all))]
fn bits_with(alloc: Global, seen: &Seen, known: &Bits) -> Result<Bits, NoMemory>
    ensures { IfOk result (λ bits. bits ≡ map (bit_with seen.now known.now) (range_with_len 0 (length seen.now.bits))) }
{
    let mut bits = Bits::new(alloc);
    let mut next = 0usize;
    'places: for i in 0..seen.bits.len() {
        bits.push(bit_with(seen, known, i, next))?;
        next += one_if(!seen.is_free(i)) as usize;
    }
    Ok(bits)
}

/// What is seen, with other bits at the known places.
fn with_known(alloc: Global, seen: &Seen, known: &Bits) -> Result<Seen, NoMemory>
    ensures { IfOk result (λ other. other ≡ with_known seen.now known.now) }
{
    let bits = bits_with(alloc, seen, known)?;
    let free = seen.free.copy()?;
    Ok(Seen { bits, free })
}

/// What is seen, with the known bits, which are these, inverted.
fn inverse(alloc: Global, seen: &Seen, known: &Bits) -> Result<Seen, NoMemory>
    ensures { IfOk result (λ other. other ≡ with_known seen.now (inverted known.now)) }
{
    let bits = inverted(alloc, known)?;
    with_known(alloc, seen, &bits)
}

/// What is seen, with the known bits, which are these, a place further on, behind this one.
fn moved_on(alloc: Global, bit: bool, seen: &Seen, known: &Bits) -> Result<Seen, NoMemory>
    ensures { IfOk result (λ other. other ≡ with_known seen.now (shifted_on bit known.now)) }
{
    let bits = shifted_on(alloc, bit, known)?;
    with_known(alloc, seen, &bits)
}

/// What is seen, with the known bits, which are these, a place before, and behind them this one.
fn moved_back(alloc: Global, bit: bool, seen: &Seen, known: &Bits) -> Result<Seen, NoMemory>
    ensures { IfOk result (λ other. other ≡ with_known seen.now (shifted_back bit known.now)) }
{
    let bits = shifted_back(alloc, bit, known)?;
    with_known(alloc, seen, &bits)
}

// ---- what is asked

/// What is seen, with the known bits, which are these, shifted by one place.
fn shifts(alloc: Global, seen: &Seen, known: &Bits) -> Result<List<Seen>, NoMemory>
    ensures { IfOk result (λ states. states ≡ shifts_by known.now seen.now) }
{
    let mut states = List::new(alloc);
    states.push(moved_back(alloc, false, seen, known)?)?;
    states.push(moved_back(alloc, true, seen, known)?)?;
    states.push(moved_on(alloc, false, seen, known)?)?;
    states.push(moved_on(alloc, true, seen, known)?)?;
    Ok(states)
}

/// The reset state inverted.
fn inverted_reset(alloc: Global, reset: &Bits) -> Result<Seen, NoMemory>
    ensures { IfOk result (λ other. other ≡ whole (inverted reset.now)) }
{
    let bits = inverted(alloc, reset)?;
    Ok(Seen::whole(alloc, bits))
}

/// What is asked of runs at once, of a netlist with this reset state, and by these known bits.
fn asked_by(alloc: Global, reset: &Bits, known: &Bits, seen: &Seen) -> Result<List<Seen>, NoMemory>
    ensures { IfOk result (λ states. states ≡ asked_by reset.now known.now seen.now) }
{
    let mut states = List::new(alloc);
    states.push(seen.copy()?)?;
    states.push(inverse(alloc, seen, known)?)?;
    states.append(shifts(alloc, seen, known)?)?;
    states.push(inverted_reset(alloc, reset)?)?;
    Ok(states)
}

/// What is asked of the runs of a netlist at once: what is seen of a state, what is like it, and the reset state inverted.
#[tactic(auto, using(crate::proofs::StateLemmas::asked_is))]
pub(crate) fn asked(alloc: Global, net: &Netlist, seen: &Seen) -> Result<List<Seen>, NoMemory>
    requires { length seen.now.bits ≡ length (circuit net.now).flops }
    ensures is { IfOk result (λ states. states ≡ asked (reset_state (circuit net.now)) seen.now) }
    ensures wide { IfOk result (λ states. All (λ s. length s.bits ≡ length (circuit net.now).flops) states) }
{
    let known = known_bits(alloc, seen)?;
    let states = asked_by(alloc, net.reset(), &known, seen)?;
    Ok(states)
}
