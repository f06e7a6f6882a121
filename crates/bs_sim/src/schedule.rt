//! Gate steps in any order, as the gates of a chip settle.
ghost use Rattle.std.specs.Prelude.{◌≡◌, ◌<◌, ◌^◌, length, replicate, false, All, IfOk, IsTrue};
ghost use Rattle.bs_net.specs.Circuit.{Shows, bit_at};
ghost use Rattle.bs_net.specs.Netlist.{circuit};
ghost use Rattle.bs_net.specs.Gate.{takes};
ghost use Rattle.bs_net.specs.Schedule.{play as after_steps, IsSubsequence};
ghost use Rattle.bs_sim.specs.Played.{IsQuietness, FitsIfQuiet, KeepsSources, OutputsAreZero, ShowsSome};
ghost use Rattle.bs_sim.specs.declared.schedule.Settled.TheVariants.{Quiet};

use crate::valuation::{gate_bit, settle_gates, show_constants, show_nets, show_state, zero_table};
use bs_bits::{Bits, NoMemory};
use bs_net::{Gate, NetId, Netlist};
use std::alloc::Global;
use std::marker::Model;

/// Whether the gates have settled. A gate is numbered from 0, in the netlist's order of gates.
#[derive(Clone, Copy, PartialEq, Eq)]
pub enum Settled {
    /// Every gate's output shows the gate's value.
    Quiet,
    /// The lowest gate whose output differs from its value.
    Unstable(u32),
}

/// A netlist whose gates settle one step at a time. Contracts see the netlist and the bits that its nets show.
#[derive(Drop)]
pub struct Schedule<'a> {
    net: &'a Netlist,
    values: Vec<bool>,
}

impl<'a> Model for Schedule<'a> {
    ghost use Rattle.bs_sim.specs.Played.{Played, IsPlayed};

    ghost Value = { Played };

    ghost view = { λ s. record { net = s.net.now; values = s.values.items } };

    ghost invariant = { λ s. IsPlayed (record { net = s.net.now; values = s.values.items }) };
}

/// Shows a state, an input and the constants on nets that all show 0.
fn show_sources(values: &mut [bool], net: &Netlist, state: &Bits, input: &Bits)
    requires zeros { values.old ≡ replicate (circuit net.now).nets false }
    requires state_fits { length state.now ≡ length (circuit net.now).flops }
    requires input_fits { length input.now ≡ length (circuit net.now).inputs }
    ensures shows { Shows (circuit net.now) state.now input.now values.new }
    ensures outputs { OutputsAreZero (circuit net.now) values.new }
{
    let raw = net.raw();
    show_nets(values, net.data_inputs().slice(), input);
    show_state(values, raw.flops.slice(), state);
    show_constants(values, raw.consts.slice());
}

/// Whether every gate's output shows its value, or else the lowest gate whose output does not.
fn quietness(values: &[bool], gates: &[Gate]) -> Settled
    requires few { length gates.now < 2 ^ 32 }
    requires outs { All (λ g. g.out.0 < length values.now) gates.now }
    requires ins { All (λ g. All (λ n. n.0 < length values.now) g.ins) gates.now }
    requires taken { All (λ g. IsTrue (takes g.kind (length g.ins))) gates.now }
    ensures { IsQuietness gates.now values.now result }
{
    for (i, gate) in gates.iter().enumerate() {
        let shown = values[gate.out.0 as usize];
        let due = gate_bit(values, gate);
        if shown != due {
            return Settled::Unstable(i as u32);
        }
    }
    Settled::Quiet
}

/// Makes gate steps in the order of the list, and says whether the gates have settled.
fn play_gates(values: &mut [bool], net: &Netlist, gates: &[u32]) -> Settled
    requires numbered { All (λ i. i < length (circuit net.now).gates) gates.now }
    requires sources { ShowsSome (circuit net.now) values.old }
    ensures values { values.new ≡ after_steps (circuit net.now) gates.now values.old }
    ensures answer { IsQuietness (circuit net.now).gates values.new result }
    ensures sources { ShowsSome (circuit net.now) values.new }
    ensures keeps { KeepsSources (circuit net.now) values.old values.new }
    ensures fits { FitsIfQuiet (circuit net.now) values.old values.new result }
    ensures ordered { IsSubsequence net.now.order gates.now → result ≡ Quiet }
{
    let raw = net.raw();
    settle_gates(values, raw.gates.slice(), gates);
    quietness(values, raw.gates.slice())
}

impl<'a> Schedule<'a> {
    /// Inputs, flip-flop outputs and constants show their bits, and all other nets 0.
    pub fn new(
        alloc: Global,
        net: &'a Netlist,
        state: &Bits,
        input: &Bits,
    ) -> Result<Schedule<'a>, NoMemory>
        requires state_fits { length state.now ≡ length (circuit net.now).flops }
        requires input_fits { length input.now ≡ length (circuit net.now).inputs }
        ensures net { IfOk result (λ p. p.net ≡ net.now) }
        ensures shows { IfOk result (λ p. Shows (circuit net.now) state.now input.now p.values) }
        ensures outputs { IfOk result (λ p. OutputsAreZero (circuit net.now) p.values) }
    {
        let mut values = zero_table(alloc, net.raw().names.len() as usize)?;
        show_sources(&mut values, net, state, input);
        Ok(Schedule { net, values })
    }

    /// Makes gate steps in the order of the list. In a gate step one gate's output takes the gate's value of its inputs now.
    pub fn play(&mut self, gates: &[u32]) -> Settled
        requires { All (λ i. i < length (circuit self.old.net).gates) gates.now }
        ensures net { self.new.net ≡ self.old.net }
        ensures values { self.new.values ≡ after_steps (circuit self.old.net) gates.now self.old.values }
        ensures answer { IsQuietness (circuit self.old.net).gates self.new.values result }
        ensures keeps { KeepsSources (circuit self.old.net) self.old.values self.new.values }
        ensures fits { FitsIfQuiet (circuit self.old.net) self.old.values self.new.values result }
        ensures ordered { IsSubsequence self.old.net.order gates.now → result ≡ Quiet }
    {
        play_gates(self.values.as_mut_slice(), self.net, gates)
    }

    /// The bit that a net shows.
    pub fn value(&self, net: NetId) -> bool
        requires { net.0 < (circuit self.now.net).nets }
        ensures { result ≡ bit_at self.now.values net.0 }
    {
        self.values[net.0 as usize]
    }
}
