//! Facts under the keys of their nets.
ghost use Rattle.std.specs.Prelude.{◌≡◌, ◌<◌, ◌^◌, [], length, map, All, IfOk};
ghost use Rattle.bs_net.specs.Netlist.{parts_of};
ghost use Rattle.bs_net.specs.Parts.{key_at};
ghost use Rattle.bs_inspect_view.specs.Signals.{AreSignals, signal_in};
ghost use Rattle.bs_inspect_why_words.specs.Facts.{fact_bits, fact_keys};

use bs_bits::{Bits, NoMemory};
use bs_inspect_view::{Signal, signals};
use bs_net::{NetId, Raw};
use bs_net_facts::Fact;
use std::alloc::Global;

/// The key of a net, and nothing where there is no such net.
#[tactic(auto, using(crate::proofs::KeyLemmas::key_there, crate::proofs::KeyLemmas::key_past))]
pub fn key_of(raw: &Raw, net: NetId) -> &str
    ensures { result.now ≡ key_at (parts_of raw.now) net.0 }
{
    if net.0 < raw.names.len() {
        raw.names.key(net)
    } else {
        ""
    }
}

/// The keys of the nets of facts.
fn fact_keys<'a>(alloc: Global, raw: &'a Raw, facts: &[Fact]) -> Result<Vec<&'a str>, NoMemory>
    ensures { IfOk result (λ keys. map (λ s. s.now) keys.items ≡ fact_keys (parts_of raw.now) facts.now) }
{
    let mut keys = Vec::new(alloc);
    'facts: for fact in facts {
        keys.push(key_of(raw, fact.net))?;
    }
    Ok(keys)
}

/// The bits of facts.
pub(crate) fn fact_bits(alloc: Global, facts: &[Fact]) -> Result<Bits, NoMemory>
    ensures { IfOk result (λ bits. bits ≡ fact_bits facts.now) }
{
    let mut bits = Bits::new(alloc);
    'facts: for fact in facts {
        bits.push(fact.bit)?;
    }
    Ok(bits)
}

/// The signals of all keys. More than can be numbered are answered as out of memory.
fn all_signals<'a>(alloc: Global, keys: &[&'a str]) -> Result<Vec<Signal<'a>>, NoMemory>
    ensures are { IfOk result (λ signals. AreSignals [] (map (λ s. s.now) keys.now) (map signal_in signals.items)) }
    ensures narrow { IfOk result (λ signals. All (λ s. length s.places < 2 ^ 32) signals.items) }
{
    if keys.len() > u32::MAX as usize {
        return Err(NoMemory);
    }
    let signals = signals(alloc, keys, &[])?;
    Ok(signals)
}

/// The signals of the nets of facts.
#[tactic(auto, using(crate::proofs::KeyLemmas::signals_are))]
pub(crate) fn fact_signals<'a>(
    alloc: Global,
    raw: &'a Raw,
    facts: &[Fact],
) -> Result<Vec<Signal<'a>>, NoMemory>
    ensures are { IfOk result (λ signals. AreSignals [] (fact_keys (parts_of raw.now) facts.now) (map signal_in signals.items)) }
    ensures narrow { IfOk result (λ signals. All (λ s. length s.places < 2 ^ 32) signals.items) }
{
    let keys = fact_keys(alloc, raw, facts)?;
    let signals = all_signals(alloc, keys.as_slice())?;
    Ok(signals)
}
