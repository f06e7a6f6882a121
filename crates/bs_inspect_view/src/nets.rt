//! The signals of a netlist's nets.
ghost use Rattle.std.specs.Prelude.{◌≡◌, ◌<◌, ◌^◌, length, map, IfOk};
ghost use Rattle.bs_inspect_view.specs.Signals.{AreSignals, signal_in};
ghost use Rattle.bs_net.specs.Netlist.{parts_of};

use crate::signal::{Signal, signals};
use bs_bits::NoMemory;
use bs_net::{NetId, Netlist, Raw};
use std::alloc::Global;

/// The keys of the nets of a netlist's parts.
#[tactic(auto, using(crate::proofs::NetLemmas::key_more))]
fn keys_of<'a>(alloc: Global, raw: &'a Raw) -> Result<Vec<&'a str>, NoMemory>
    ensures { IfOk result (λ keys. map (λ s. s.now) keys.items ≡ (parts_of raw.now).names) }
{
    let mut keys = Vec::new(alloc);
    'nets: for n in 0..raw.names.len() {
        keys.push(raw.names.key(NetId(n)))?;
    }
    Ok(keys)
}

/// The keys of the nets, in the order of a moment's values.
pub fn net_keys<'a>(alloc: Global, net: &'a Netlist) -> Result<Vec<&'a str>, NoMemory>
    ensures are { IfOk result (λ keys. map (λ s. s.now) keys.items ≡ net.now.raw.names) }
    ensures few { IfOk result (λ keys. length keys.items < 2 ^ 32) }
{
    let keys = keys_of(alloc, net.raw())?;
    Ok(keys)
}

/// The signals of the nets with these names, or of all nets where there are none.
pub fn net_signals<'a>(
    alloc: Global,
    net: &'a Netlist,
    only: &[&str],
) -> Result<Vec<Signal<'a>>, NoMemory>
    ensures { IfOk result (λ signals. AreSignals (map (λ s. s.now) only.now) net.now.raw.names (map signal_in signals.items)) }
{
    let keys = net_keys(alloc, net)?;
    let signals = signals(alloc, keys.as_slice(), only)?;
    Ok(signals)
}
