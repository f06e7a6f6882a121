//! The trace that a wave shows.
ghost use Rattle.std.specs.Prelude.{◌≡◌, ◌<◌, ◌≤◌, ◌-◌, length, map, take, All, IfOk};
ghost use Rattle.std.specs.Bool.{OnTrue};
ghost use Rattle.std.specs.Str.{bytes_eq};
ghost use Rattle.bs_net.specs.Circuit.{state_nets};
ghost use Rattle.bs_net.specs.Netlist.{circuit};
ghost use Rattle.bs_wave.specs.WayIn.{bit_in, bits_on, bits_over, both, same_keys, trace_in};

use crate::value::Value;
use crate::wave::{Trace, Wave};
use bs_bits::{Bits, List, NoMemory};
use bs_net::{Flop, Names, NetId, Netlist};
use std::alloc::Global;

/// Whether two texts are the same.
fn is_key(key: &[u8], name: &str) -> bool
    ensures { result ≡ bytes_eq key.now name.now }
{
    key == name.as_bytes()
}

/// Whether keys are these names, in order.
fn same_keys(keys: &List<List<u8>>, names: &Names) -> bool
    ensures test { result ≡ same_keys keys.now names.now }
    ensures same { OnTrue result (keys.now ≡ names.now) }
{
    if keys.len() != names.len() as usize {
        return false;
    }
    'keys: for n in 0..names.len() {
        if !is_key(keys.get(n as usize).slice(), names.key(NetId(n))) {
            return false;
        }
    }
    true
}

/// The bit of a value, if it is known.
fn bit_in(value: Value) -> Option<bool>
    ensures { result ≡ bit_in value }
{
    match value {
        Value::Zero => Some(false),
        Value::One => Some(true),
        Value::Unknown => None,
    }
}

/// The outputs of flip-flops.
fn outputs(alloc: Global, flops: &[Flop]) -> Result<List<NetId>, NoMemory>
    ensures { IfOk result (λ nets. nets ≡ map (λ f. f.q) flops.now) }
{
    let mut nets = List::new(alloc);
    for flop in flops {
        nets.push(flop.q)?;
    }
    Ok(nets)
}

/// The bits of some nets at a moment, where all are known.
fn bits_on(alloc: Global, nets: &[NetId], values: &List<Value>) -> Result<Option<Bits>, NoMemory>
    requires { All (λ n. n.0 < length values.now) nets.now }
    ensures { IfOk result (λ bits. bits ≡ bits_on nets.now values.now) }
{
    let mut bits = Bits::new(alloc);
    'nets: for i in 0..nets.len() {
        let net = nets[i];
        match bit_in(*values.get(net.0 as usize)) {
            Some(bit) => bits.push(bit)?,
            None => return Ok(None),
        }
    }
    Ok(Some(bits))
}

/// The bits of some nets at each moment, where all are known.
fn bits_over(
    alloc: Global,
    nets: &[NetId],
    moments: &List<List<Value>>,
    count: usize,
) -> Result<Option<List<Bits>>, NoMemory>
    requires placed { All (λ values. All (λ n. n.0 < length values) nets.now) moments.now }
    requires count { count ≤ length moments.now }
    ensures { IfOk result (λ bits. bits ≡ bits_over nets.now (take count moments.now)) }
{
    let mut all = List::new(alloc);
    'moments: for i in 0..count {
        match bits_on(alloc, nets, moments.get(i))? {
            Some(bits) => all.push(bits)?,
            None => return Ok(None),
        }
    }
    Ok(Some(all))
}

/// The trace of states and inputs, where both are known.
fn both(states: Option<List<Bits>>, inputs: Option<List<Bits>>) -> Option<Trace>
    ensures { result ≡ both states inputs }
{
    let states = states?;
    let inputs = inputs?;
    Some(Trace { states, inputs })
}

/// The trace that moments show, of which there is one at least.
fn trace_over(
    alloc: Global,
    net: &Netlist,
    moments: &List<List<Value>>,
) -> Result<Option<Trace>, NoMemory>
    requires some { 0 < length moments.now }
    requires widths { All (λ values. length values ≡ (circuit net.now).nets) moments.now }
    ensures { IfOk result (λ trace. trace ≡ both (bits_over (state_nets (circuit net.now)) moments.now)
        (bits_over (circuit net.now).inputs (take (length moments.now - 1) moments.now))) }
{
    let count = moments.len();
    let outputs = outputs(alloc, net.raw().flops.slice())?;
    let states = bits_over(alloc, outputs.slice(), moments, count)?;
    let inputs = bits_over(alloc, net.data_inputs().slice(), moments, count - 1)?;
    Ok(both(states, inputs))
}

impl Wave {
    /// The trace that the wave shows on a netlist: what the flip-flops' outputs show at each moment, and the data inputs at
    /// each but the last. There is none where the keys are not the netlist's in net order, there is no moment, or one of
    /// these values is unknown.
    pub fn trace(&self, alloc: Global, net: &Netlist) -> Result<Option<Trace>, NoMemory>
        requires { All (λ values. length values ≡ length self.now.keys) self.now.moments }
        ensures { IfOk result (λ trace. trace ≡ trace_in net.now.raw self.now) }
    {
        if !same_keys(&self.keys, &net.raw().names) {
            return Ok(None);
        }
        if self.moments.len() == 0 {
            return Ok(None);
        }
        trace_over(alloc, net, &self.moments)
    }
}
