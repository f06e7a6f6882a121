//! The event simulator, which evaluates a gate only where an input of it changed.
ghost use Rattle.std.specs.Prelude.{◌≡◌, ◌<◌, length, replicate, false, map, count_by, All, IfOk, IsTrue, slice_set};
ghost use Rattle.bs_net.specs.Circuit.{Fits, shown, next, bit_at, reset_state, IsSettled};
ghost use Rattle.bs_net.specs.Gate.{gate_value};
ghost use Rattle.bs_net.specs.Netlist.{circuit};
ghost use Rattle.bs_net.specs.Order.{gates_in};
ghost use Rattle.bs_net.specs.Gate.{takes};
ghost use Rattle.bs_net.specs.Steps.{run, gate_write};
ghost use Rattle.bs_sim.specs.Events.{IsReady, FitsSome, Settles};
ghost use Rattle.bs_sim.specs.Work.{has_change, changed_gates};

use crate::simulator::Sim;
use crate::valuation::{assign, gate_bit, load, show_constants, show_nets, show_state, zero_table};
use bs_bits::{Bits, NoMemory};
use bs_net::{Gate, NetId, Netlist};
use std::alloc::Global;
use std::marker::Model;

/// A netlist in a state, whose nets show the valuation that was settled last. Contracts see the netlist, the state, the bits
/// that the nets show, and the number of gates that the last step had to evaluate.
#[derive(Drop)]
pub struct Event<'a> {
    net: &'a Netlist,
    state: Bits,
    values: Vec<bool>,
    before: Vec<bool>,
    work: u64,
}

impl<'a> Model for Event<'a> {
    ghost use Rattle.std.specs.Prelude.{length};
    ghost use Rattle.bs_sim.specs.Events.{Events, IsEvents};

    ghost Value = { Events };

    ghost view = { λ s. record { net = s.net.now; state = s.state; values = s.values.items; work = s.work } };

    ghost invariant = { λ s. IsEvents (record { net = s.net.now; state = s.state; values = s.values.items; work = s.work }) (length s.before.items) };
}

/// Whether an input of the gate shows another bit than before.
fn is_changed(values: &[bool], before: &[bool], gate: &Gate) -> bool
    requires placed { All (λ n. n.0 < length values.now) gate.now.ins }
    requires same { length before.now ≡ length values.now }
    ensures { result ≡ has_change before.now values.now gate.now }
{
    gate.ins
        .slice()
        .iter()
        .any(|n| before[n.0 as usize] != values[n.0 as usize])
}

/// Evaluates a gate where an input of it changed, and says whether it did. A gate whose inputs are the same shows its value
/// already.
fn evaluate_changed(values: &mut [bool], before: &[bool], gate: &Gate) -> bool
    requires out { gate.now.out.0 < length values.old }
    requires placed { All (λ n. n.0 < length values.old) gate.now.ins }
    requires taken { IsTrue (takes gate.now.kind (length gate.now.ins)) }
    requires same { length before.now ≡ length values.old }
    requires settled { IsSettled before.now gate.now }
    requires unchanged { bit_at values.old gate.now.out.0 ≡ bit_at before.now gate.now.out.0 }
    ensures answer { result ≡ has_change before.now values.old gate.now }
    ensures values { values.new ≡ slice_set values.old gate.now.out.0 (gate_value gate.now.kind (shown values.old gate.now.ins)) }
{
    if !is_changed(values, before, gate) {
        return false;
    }
    let bit = gate_bit(values, gate);
    values[gate.out.0 as usize] = bit;
    true
}

/// Evaluates the gates with a changed input, in order, and counts them.
fn settle_changed(values: &mut [bool], before: &[bool], gates: &[Gate], order: &[u32]) -> u64
    requires numbered { All (λ i. i < length gates.now) order.now }
    requires outs { All (λ g. g.out.0 < length values.old) gates.now }
    requires ins { All (λ g. All (λ n. n.0 < length values.old) g.ins) gates.now }
    requires taken { All (λ g. IsTrue (takes g.kind (length g.ins))) gates.now }
    requires same { length before.now ≡ length values.old }
    requires ready { IsReady before.now values.old (gates_in order.now gates.now) }
    ensures values { values.new ≡ run (map gate_write (gates_in order.now gates.now)) values.old }
    ensures work { result ≡ count_by (has_change before.now values.new) (gates_in order.now gates.now) }
{
    let mut work = 0;
    for i in order {
        if evaluate_changed(values, before, &gates[*i as usize]) {
            work += 1;
        }
    }
    work
}

/// Makes the nets show the valuation of a state and an input over an older valuation, and counts the gates that had to be
/// evaluated.
fn settle_events(
    values: &mut [bool],
    before: &[bool],
    net: &Netlist,
    state: &Bits,
    input: &Bits,
) -> u64
    requires same { before.now ≡ values.old }
    requires at_rest { FitsSome (circuit net.now) values.old }
    requires state_fits { length state.now ≡ length (circuit net.now).flops }
    requires input_fits { length input.now ≡ length (circuit net.now).inputs }
    ensures { Settles (circuit net.now) state.now input.now values.old values.new result }
{
    let raw = net.raw();
    show_nets(values, net.data_inputs().slice(), input);
    show_state(values, raw.flops.slice(), state);
    show_constants(values, raw.consts.slice());
    settle_changed(values, before, raw.gates.slice(), net.order().slice())
}

impl<'a> Event<'a> {
    /// At reset, with the input of zeros settled.
    pub fn new(alloc: Global, net: &'a Netlist) -> Result<Event<'a>, NoMemory>
        ensures net { IfOk result (λ s. s.net ≡ net.now) }
        ensures state { IfOk result (λ s. s.state ≡ reset_state (circuit net.now)) }
        ensures fits { IfOk result (λ s. Fits (circuit net.now) s.state (replicate (length (circuit net.now).inputs) false) s.values) }
        ensures work { IfOk result (λ s. s.work ≡ 0) }
    {
        let before = zero_table(alloc, net.raw().names.len() as usize)?;
        let sim = Sim::new(alloc, net)?;
        Ok(Event::at_rest(net, sim, before))
    }

    /// In a simulator's state, with the nets that it shows.
    fn at_rest(net: &'a Netlist, sim: Sim<'a>, before: Vec<bool>) -> Event<'a>
        requires net { sim.net ≡ net.now }
        requires state { sim.state ≡ reset_state (circuit net.now) }
        requires fits { Fits (circuit net.now) sim.state (replicate (length (circuit net.now).inputs) false) sim.values }
        requires same { length before.items ≡ (circuit net.now).nets }
        ensures net { result.net ≡ net.now }
        ensures state { result.state ≡ sim.entry.state }
        ensures values { result.values ≡ sim.entry.values }
        ensures work { result.work ≡ 0 }
    {
        let (state, values) = sim.into_parts();
        Event {
            net,
            state,
            values,
            before,
            work: 0,
        }
    }

    /// The present state.
    pub fn state(&self) -> &Bits
        ensures { result.now ≡ self.now.state }
    {
        &self.state
    }

    /// The bit that a net shows.
    pub fn value(&self, net: NetId) -> bool
        requires { net.0 < (circuit self.now.net).nets }
        ensures { result ≡ bit_at self.now.values net.0 }
    {
        self.values[net.0 as usize]
    }

    /// The number of gates with an input net whose shown bit the last step changed; 0 after `new` and `load`.
    pub fn work(&self) -> u64
        ensures { result ≡ self.now.work }
    {
        self.work
    }

    /// Makes another state the present one. The nets show what they showed.
    pub fn load(&mut self, state: &Bits)
        requires { length state.now ≡ length (circuit self.old.net).flops }
        ensures net { self.new.net ≡ self.old.net }
        ensures state { self.new.state ≡ state.now }
        ensures values { self.new.values ≡ self.old.values }
        ensures work { self.new.work ≡ 0 }
    {
        assign(&mut self.state, state);
        self.work = 0;
    }

    /// Settles the gates whose inputs change, and loads the next state: one clock edge.
    pub fn step(&mut self, input: &Bits)
        requires { length input.now ≡ length (circuit self.old.net).inputs }
        ensures net { self.new.net ≡ self.old.net }
        ensures state { self.new.state ≡ next (circuit self.old.net) self.old.state input.now }
        ensures fits { Fits (circuit self.old.net) self.old.state input.now self.new.values }
        ensures work { self.new.work ≡ changed_gates (circuit self.old.net) self.old.values self.new.values }
    {
        self.before.copy_from_slice(self.values.as_slice());
        self.work = settle_events(
            self.values.as_mut_slice(),
            self.before.as_slice(),
            self.net,
            &self.state,
            input,
        );
        load(
            &mut self.state,
            self.values.as_slice(),
            self.net.raw().flops.slice(),
        );
    }
}
