//! Bits that make a vector, by their keys.
ghost use Rattle.std.specs.Prelude.{◌≡◌, ◌<◌, ◌^◌, ◌∷◌, [], ◌++◌, length, map, true, Some, IfOk, OnOk};
ghost use Rattle.std.specs.List.{list_any};
ghost use Rattle.bs_net_names.specs.Keys.{parts_in};
ghost use Rattle.bs_net_names.specs.Naming.{is_named};
ghost use Rattle.bs_inspect_view.specs.Signals.{all_bits, AreSignals, AreWholeIn, bits_of, EndsBefore, GoesOn, goes_on, is_wanted, member_in, MayFollow, members_of, name_text, signal_in, wanted};

use bs_bits::{List, NoMemory, push_piece};
use bs_net_names::{KeyParts, is_named, key_parts, push_range};
use std::alloc::Global;
use std::cmp::Reverse;

/// A place of a list of keys, with what its key says.
#[derive(Clone, Copy)]
pub struct Member<'a> {
    pub base: &'a [u8],
    pub bit: Option<u64>,
    pub place: u32,
}

/// A net by itself, or consecutive bits of a vector from the one with the number `high` down; and the place of each.
#[derive(Drop)]
pub struct Signal<'a> {
    pub base: &'a [u8],
    pub high: Option<u64>,
    pub places: List<u32>,
}

/// Whether one of these names is that of a bit.
fn has_name(only: &[&str], parts: KeyParts<'_>) -> bool
    ensures { result ≡ list_any (λ s. is_named (parts_in parts.entry) s.now) only.now }
{
    only.iter().any(|name| is_named(parts, name.as_bytes()))
}

/// Whether a bit is one of these names, or there are none.
#[tactic(auto, using(crate::proofs::SignalLemmas::any_named))]
fn is_wanted(only: &[&str], parts: KeyParts<'_>) -> bool
    ensures { result ≡ is_wanted (map (λ s. s.now) only.now) (parts_in parts.entry) }
{
    only.is_empty() || has_name(only, parts)
}

/// Puts a place at the end where its key is wanted.
#[tactic(auto, using(crate::proofs::SignalLemmas::wanted_put, crate::proofs::SignalLemmas::wanted_not))]
fn put_wanted<'a>(
    members: &mut Vec<Member<'a>>,
    only: &[&str],
    key: &'a str,
    place: u32,
) -> Result<(), NoMemory>
    ensures { OnOk result (map member_in members.new.items ≡ map member_in members.old.items ++ wanted (map (λ s. s.now) only.now) key.now place) }
{
    let parts = key_parts(key.as_bytes());
    if !is_wanted(only, parts) {
        return Ok(());
    }
    members.push(Member {
        base: parts.base,
        bit: parts.bit,
        place,
    })?;
    Ok(())
}

/// The places whose keys are wanted, in order, each with what its key says.
#[tactic(auto, using(crate::proofs::SignalLemmas::members_put))]
pub fn members<'a>(
    alloc: Global,
    keys: &[&'a str],
    only: &[&str],
) -> Result<Vec<Member<'a>>, NoMemory>
    requires { length keys.now < 2 ^ 32 }
    ensures { IfOk result (λ members. map member_in members.items ≡ members_of (map (λ s. s.now) only.now) (map (λ s. s.now) keys.now)) }
{
    let mut members = Vec::new(alloc);
    let mut place = 0u32;
    'keys: for key in keys {
        put_wanted(&mut members, only, key, place)?;
        place += 1;
    }
    Ok(members)
}

/// Whether a bit is the next lower one of a signal.
fn goes_on(signal: &Signal<'_>, member: &Member<'_>) -> bool
    ensures next { result ≡ true → GoesOn (signal_in signal.now) (member_in member.now) }
    ensures test { result ≡ goes_on (signal_in signal.now) (member_in member.now) }
{
    match (signal.high, member.bit) {
        (Some(high), Some(bit)) => {
            let count = signal.places.len() as u64;
            count <= high && bit == high - count && signal.base == member.base
        }
        _ => false,
    }
}

/// A signal of one bit.
fn single<'a>(alloc: Global, member: &Member<'a>) -> Result<Signal<'a>, NoMemory>
    ensures { IfOk result (λ signal. bits_of (signal_in signal) ≡ member_in member.now ∷ []) }
{
    let mut places = List::new(alloc);
    places.push(member.place)?;
    Ok(Signal {
        base: member.base,
        high: member.bit,
        places,
    })
}

/// A signal with the bit that goes on.
#[tactic(auto, using(crate::proofs::SignalLemmas::bits_extended))]
fn extended<'a>(last: Signal<'a>, member: &Member<'a>) -> Result<Signal<'a>, NoMemory>
    requires { GoesOn (signal_in last) (member_in member.now) }
    ensures { IfOk result (λ signal. bits_of (signal_in signal) ≡ bits_of (signal_in last.entry) ++ member_in member.now ∷ []) }
{
    let mut places = last.places;
    places.push(member.place)?;
    Ok(Signal {
        base: last.base,
        high: last.high,
        places,
    })
}

/// Puts a signal at the end.
#[tactic(auto, using(crate::proofs::SignalLemmas::bits_put))]
fn put<'a>(signals: &mut Vec<Signal<'a>>, signal: Signal<'a>) -> Result<(), NoMemory>
    requires whole { AreWholeIn signals.old.items }
    requires follows { MayFollow signals.old.items (signal_in signal) }
    ensures bits { OnOk result (all_bits signals.new.items ≡ all_bits signals.old.items ++ bits_of (signal_in signal.entry)) }
    ensures whole { OnOk result (AreWholeIn signals.new.items) }
    ensures put { OnOk result (signals.new.items ≡ signals.old.items ++ signal.entry ∷ []) }
{
    signals.push(signal)?;
    Ok(())
}

/// Puts a bit at the end as a signal of its own.
#[tactic(auto, using(crate::proofs::SignalLemmas::single_follows))]
fn put_single<'a>(
    alloc: Global,
    signals: &mut Vec<Signal<'a>>,
    member: &Member<'a>,
) -> Result<(), NoMemory>
    requires whole { AreWholeIn signals.old.items }
    requires apart { EndsBefore signals.old.items (member_in member.now) }
    ensures whole { OnOk result (AreWholeIn signals.new.items) }
    ensures bits { OnOk result (all_bits signals.new.items ≡ all_bits signals.old.items ++ member_in member.now ∷ []) }
{
    let signal = single(alloc, member)?;
    put(signals, signal)
}

/// Puts a signal and a bit at the end: the bit to the signal where it goes on, and else as a signal of its own.
#[tactic(auto, using(crate::proofs::SignalLemmas::extended_follows, crate::proofs::SignalLemmas::ends_before))]
fn put_both<'a>(
    alloc: Global,
    signals: &mut Vec<Signal<'a>>,
    last: Signal<'a>,
    member: &Member<'a>,
) -> Result<(), NoMemory>
    requires whole { AreWholeIn signals.old.items }
    requires follows { MayFollow signals.old.items (signal_in last) }
    ensures whole { OnOk result (AreWholeIn signals.new.items) }
    ensures bits { OnOk result (all_bits signals.new.items ≡ (all_bits signals.old.items ++ bits_of (signal_in last.entry)) ++ member_in member.now ∷ []) }
{
    if goes_on(&last, member) {
        let signal = extended(last, member)?;
        put(signals, signal)
    } else {
        put(signals, last)?;
        put_single(alloc, signals, member)
    }
}

/// Puts a bit to the last signal where it goes on, and else into a new one.
#[tactic(auto, using(crate::proofs::SignalLemmas::bits_last, crate::proofs::SignalLemmas::none_before))]
fn add_member<'a>(
    alloc: Global,
    signals: &mut Vec<Signal<'a>>,
    member: &Member<'a>,
) -> Result<(), NoMemory>
    requires { AreWholeIn signals.old.items }
    ensures whole { OnOk result (AreWholeIn signals.new.items) }
    ensures bits { OnOk result (all_bits signals.new.items ≡ all_bits signals.old.items ++ member_in member.now ∷ []) }
{
    match signals.pop() {
        Some(last) => put_both(alloc, signals, last, member),
        None => put_single(alloc, signals, member),
    }
}

/// The signals that sorted bits make.
#[tactic(auto, using(crate::proofs::SignalLemmas::none_whole))]
fn join<'a>(alloc: Global, members: &[Member<'a>]) -> Result<Vec<Signal<'a>>, NoMemory>
    ensures whole { IfOk result (λ signals. AreWholeIn signals.items) }
    ensures bits { IfOk result (λ signals. all_bits signals.items ≡ map member_in members.now) }
{
    let mut signals = Vec::new(alloc);
    'members: for member in members {
        add_member(alloc, &mut signals, member)?;
    }
    Ok(signals)
}

/// The signals of the keys that are wanted: by their names, and of a vector from the greatest bit down. The bits of a vector
/// that stand behind one another are one signal.
pub fn signals<'a>(
    alloc: Global,
    keys: &[&'a str],
    only: &[&str],
) -> Result<Vec<Signal<'a>>, NoMemory>
    requires { length keys.now < 2 ^ 32 }
    ensures { IfOk result (λ signals. AreSignals (map (λ s. s.now) only.now) (map (λ s. s.now) keys.now) (map signal_in signals.items)) }
{
    let mut members = members(alloc, keys, only)?;
    members.sort_by_key(|s| (s.base, Reverse(s.bit.unwrap_or(0)), s.place))?;
    join(alloc, &members)
}

/// Appends the name of a signal: a net's key, or a vector's name with its greatest and its least bit.
pub fn push_name(text: &mut Vec<u8>, signal: &Signal<'_>) -> Result<(), NoMemory>
    ensures { OnOk result (text.new.items ≡ text.old.items ++ name_text (signal_in signal.now)) }
{
    push_piece(text, signal.base)?;
    match signal.high {
        Some(high) => push_range(text, high, signal.places.len()),
        None => Ok(()),
    }
}
