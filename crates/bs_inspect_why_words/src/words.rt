//! Signals and their values in words.
ghost use Rattle.std.specs.Prelude.{◌≡◌, ◌<◌, ◌-◌, ◌^◌, ◌==◌, [], ◌++◌, codes, length, map, take, All, IfOk, OnOk, if◌then◌else◌};
ghost use Rattle.bs_net.specs.Netlist.{parts_of};
ghost use Rattle.bs_inspect_view.specs.Signals.{signal_in};
ghost use Rattle.bs_inspect_why_words.specs.Facts.{fact_bits, more_words, signal_words, signals_words, TellsFacts, TellsFirst};

use crate::key::{fact_bits, fact_signals};
use bs_bits::{Bits, List, NoMemory, push_number, push_piece};
use bs_inspect_report::push_signal_value;
use bs_inspect_view::{Signal, push_rtl_name};
use bs_net::Raw;
use bs_net_facts::Fact;
use std::alloc::Global;

/// Appends a signal and its value.
pub(crate) fn push_signal(
    text: &mut Vec<u8>,
    bits: &Bits,
    signal: &Signal<'_>,
) -> Result<(), NoMemory>
    requires { length signal.now.places < 2 ^ 32 }
    ensures { OnOk result (text.new.items ≡ text.old.items ++ signal_words bits.now (signal_in signal.now)) }
{
    push_rtl_name(text, signal)?;
    push_piece(text, b" = ")?;
    push_signal_value(text, bits, signal.places.slice())
}

/// Appends what stands before the member of a list at a place.
pub(crate) fn push_comma(text: &mut Vec<u8>, place: usize) -> Result<(), NoMemory>
    ensures { OnOk result (text.new.items ≡ text.old.items ++ (if place == 0 then [] else codes ", ")) }
{
    if place == 0 {
        Ok(())
    } else {
        push_piece(text, b", ")
    }
}

/// Appends signals, one behind another.
pub(crate) fn push_signals(
    text: &mut Vec<u8>,
    bits: &Bits,
    signals: &[Signal<'_>],
) -> Result<(), NoMemory>
    requires { All (λ s. length s.places < 2 ^ 32) signals.now }
    ensures { OnOk result (text.new.items ≡ text.old.items ++ signals_words bits.now (map signal_in signals.now)) }
{
    'signals: for i in 0..signals.len() {
        let signal = &signals[i];
        push_comma(text, i)?;
        push_signal(text, bits, signal)?;
    }
    Ok(())
}

/// Appends how many more there are.
pub(crate) fn push_more(text: &mut Vec<u8>, count: usize) -> Result<(), NoMemory>
    ensures { OnOk result (text.new.items ≡ text.old.items ++ more_words count) }
{
    if count == 0 {
        return Ok(());
    }
    push_piece(text, b" and ")?;
    push_number(text, count as u64)?;
    push_piece(text, b" more")
}

/// Appends facts.
#[tactic(auto, using(crate::proofs::WordLemmas::facts_told))]
fn facts_words(alloc: Global, raw: &Raw, facts: &[Fact]) -> Result<Vec<u8>, NoMemory>
    ensures { IfOk result (λ words. TellsFacts (parts_of raw.now) facts.now words.items) }
{
    let signals = fact_signals(alloc, raw, facts)?;
    let words = signals_text(alloc, facts, signals.as_slice())?;
    Ok(words)
}

/// Signals with the bits of facts, one behind another.
fn signals_text(alloc: Global, facts: &[Fact], signals: &[Signal<'_>]) -> Result<Vec<u8>, NoMemory>
    requires { All (λ s. length s.places < 2 ^ 32) signals.now }
    ensures { IfOk result (λ words. words.items ≡ signals_words (fact_bits facts.now) (map signal_in signals.now)) }
{
    let bits = fact_bits(alloc, facts)?;
    let mut words = Vec::new(alloc);
    push_signals(&mut words, &bits, signals)?;
    Ok(words)
}

/// The first members of a list.
#[tactic(auto, using(crate::proofs::StepLemmas::all_first))]
pub(crate) fn first_of<T>(members: &[T], most: usize) -> &[T]
    ensures { result.now ≡ take most members.now }
{
    if most < members.len() {
        &members[..most]
    } else {
        members
    }
}

/// The first of some facts in words, and how many more there are.
#[tactic(auto, using(crate::proofs::WordLemmas::first_told))]
pub(crate) fn first_words(
    alloc: Global,
    raw: &Raw,
    facts: &[Fact],
    most: usize,
) -> Result<List<u8>, NoMemory>
    ensures { IfOk result (λ words. TellsFirst (parts_of raw.now) most facts.now words) }
{
    let mut words = facts_words(alloc, raw, first_of(facts, most))?;
    push_more(&mut words, facts.len().saturating_sub(most))?;
    Ok(List::of(words))
}
