//! The values of the nets at each moment of a trace.
ghost use Rattle.std.specs.Prelude.{◌≡◌, ◌<◌, length, map, IfOk};
ghost use Rattle.bs_net.specs.Netlist.{circuit};
ghost use Rattle.bs_wave.specs.Deciding.{value_where, values_where};
ghost use Rattle.bs_wave.specs.Wave.{value_of, IsWayOf, IsWaveOf, IsLastMoment, AreMoments};
ghost use Rattle.bs_wave.specs.Making.{AreSettled};

use crate::decided::decided_nets;
use crate::value::Value;
use crate::wave::Wave;
use bs_bits::{Bits, List, NoMemory};
use bs_net::{NetId, Netlist};
use bs_sim::Sim;
use std::alloc::Global;

/// The value of a bit.
fn value_of(bit: bool) -> Value
    ensures { result ≡ value_of bit }
{
    if bit { Value::One } else { Value::Zero }
}

/// The value of a bit where it is known.
fn value_where(known: bool, bit: bool) -> Value
    ensures { result ≡ value_where known bit }
{
    if known { value_of(bit) } else { Value::Unknown }
}

/// The values of so many nets, which is all of them.
fn settled_values(alloc: Global, sim: &Sim<'_>, count: u32) -> Result<List<Value>, NoMemory>
    requires count { count ≡ (circuit sim.now.net).nets }
    requires wide { length sim.now.values ≡ count }
    ensures { IfOk result (λ values. values ≡ map value_of sim.now.values) }
{
    let mut values = Vec::new(alloc);
    values.reserve(count as usize)?;
    'nets: for n in 0..count {
        values.push_reserved(value_of(sim.value(NetId(n))));
    }
    Ok(List::of(values))
}

/// The values of the nets that are known.
#[tactic(auto, using(crate::proofs::LastLemmas::one_more_value))]
fn known_values(
    alloc: Global,
    sim: &Sim<'_>,
    known: &[bool],
    count: u32,
) -> Result<List<Value>, NoMemory>
    requires count { count ≡ (circuit sim.now.net).nets }
    requires wide { length sim.now.values ≡ count }
    requires marks { length known.now ≡ count }
    ensures { IfOk result (λ values. values ≡ values_where known.now sim.now.values) }
{
    let mut values = Vec::new(alloc);
    values.reserve(count as usize)?;
    'nets: for n in 0..count {
        values.push_reserved(value_where(known[n as usize], sim.value(NetId(n))));
    }
    Ok(List::of(values))
}

/// An input of zeros.
fn zeros(alloc: Global, count: usize) -> Result<Bits, NoMemory>
    ensures { IfOk result (λ bits. length bits ≡ count) }
{
    let mut bits = Bits::new(alloc);
    'places: for place in 0..count {
        let _place = place;
        bits.push(false)?;
    }
    Ok(bits)
}

/// The moments that have an input.
fn settled_moments(
    alloc: Global,
    net: &Netlist,
    sim: &mut Sim<'_>,
    states: &List<Bits>,
    inputs: &List<Bits>,
) -> Result<List<List<Value>>, NoMemory>
    requires way { IsWayOf (circuit net.now) states.now inputs.now }
    requires same { sim.old.net ≡ net.now }
    ensures net { sim.new.net ≡ net.now }
    ensures settled { IfOk result (λ moments. AreSettled (circuit net.now) states.now inputs.now (length inputs.now) moments) }
{
    let count = net.raw().names.len();
    let mut moments = List::new(alloc);
    'moments: for i in 0..inputs.len() {
        sim.load(states.get(i));
        sim.settle(inputs.get(i));
        moments.push(settled_values(alloc, sim, count)?)?;
    }
    Ok(moments)
}

/// The moment that has no input.
fn last_moment(
    alloc: Global,
    net: &Netlist,
    sim: &mut Sim<'_>,
    state: &Bits,
) -> Result<List<Value>, NoMemory>
    requires same { sim.old.net ≡ net.now }
    requires fits { length state.now ≡ length (circuit net.now).flops }
    ensures { IfOk result (λ values. IsLastMoment (circuit net.now) state.now values) }
{
    let input = zeros(alloc, net.data_inputs().len())?;
    sim.load(state);
    sim.settle(&input);
    let known = decided_nets(alloc, net)?;
    known_values(alloc, sim, known.as_slice(), net.raw().names.len())
}

/// The moments of a trace.
fn moments_of(
    alloc: Global,
    net: &Netlist,
    states: &List<Bits>,
    inputs: &List<Bits>,
) -> Result<List<List<Value>>, NoMemory>
    requires { IsWayOf (circuit net.now) states.now inputs.now }
    ensures { IfOk result (λ moments. AreMoments (circuit net.now) states.now inputs.now moments) }
{
    let mut sim = Sim::new(alloc, net)?;
    let mut moments = settled_moments(alloc, net, &mut sim, states, inputs)?;
    let last = last_moment(alloc, net, &mut sim, states.get(inputs.len()))?;
    moments.push(last)?;
    Ok(moments)
}

/// A text as a list of its bytes.
fn key_text(alloc: Global, key: &str) -> Result<List<u8>, NoMemory>
    ensures { IfOk result (λ text. text ≡ key.now) }
{
    Ok(List::of(key.as_bytes().to_vec(alloc)?))
}

/// The keys of the nets.
#[tactic(auto, using(crate::proofs::ListLemmas::one_more_taken))]
fn keys_of(alloc: Global, net: &Netlist) -> Result<List<List<u8>>, NoMemory>
    ensures { IfOk result (λ keys. keys ≡ net.now.raw.names) }
{
    let names = &net.raw().names;
    let mut keys = List::new(alloc);
    'nets: for n in 0..names.len() {
        keys.push(key_text(alloc, names.key(NetId(n)))?)?;
    }
    Ok(keys)
}

impl Wave {
    /// The wave of a trace, which has one state more than inputs: at each moment the values that settle, and at the last one,
    /// which has no input, those that no input decides. It takes one pass over the gates for each moment.
    pub fn of(
        alloc: Global,
        net: &Netlist,
        states: &List<Bits>,
        inputs: &List<Bits>,
    ) -> Result<Wave, NoMemory>
        requires { IsWayOf (circuit net.now) states.now inputs.now }
        ensures { IfOk result (λ wave. IsWaveOf net.now.raw states.now inputs.now wave) }
    {
        let keys = keys_of(alloc, net)?;
        let moments = moments_of(alloc, net, states, inputs)?;
        Ok(Wave { keys, moments })
    }
}
