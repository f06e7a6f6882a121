//! The plain simulator, which evaluates every gate once in level order.
ghost use Rattle.std.specs.Prelude.{◌≡◌, ◌<◌, length, replicate, false, IfOk};
ghost use Rattle.bs_net.specs.Circuit.{Fits, next, bit_at, reset_state};
ghost use Rattle.bs_net.specs.Netlist.{circuit};

use crate::valuation::{assign, load, settle, zero_table, zeros};
use bs_bits::{Bits, NoMemory};
use bs_net::{NetId, Netlist};
use std::alloc::Global;
use std::marker::Model;

/// A netlist in a state, whose nets show the valuation that was settled last.
#[derive(Drop)]
pub struct Sim<'a> {
    net: &'a Netlist,
    state: Bits,
    values: Vec<bool>,
}

impl<'a> Model for Sim<'a> {
    ghost use Rattle.bs_sim.specs.Simulation.{Simulation, IsSimulation};

    ghost Value = { Simulation };

    ghost view = { λ s. record { net = s.net.now; state = s.state; values = s.values.items } };

    ghost invariant = { λ s. IsSimulation (record { net = s.net.now; state = s.state; values = s.values.items }) };
}

impl<'a> Sim<'a> {
    /// At reset, with the input of zeros settled.
    pub fn new(alloc: Global, net: &'a Netlist) -> Result<Sim<'a>, NoMemory>
        ensures net { IfOk result (λ s. s.net ≡ net.now) }
        ensures state { IfOk result (λ s. s.state ≡ reset_state (circuit net.now)) }
        ensures fits { IfOk result (λ s. Fits (circuit net.now) s.state (replicate (length (circuit net.now).inputs) false) s.values) }
    {
        let state = net.reset().copy()?;
        let input = zeros(alloc, net.data_inputs().len())?;
        let values = zero_table(alloc, net.raw().names.len() as usize)?;
        let mut sim = Sim { net, state, values };
        sim.settle(&input);
        Ok(sim)
    }

    /// The present state, and the bits that the nets show.
    pub(crate) fn into_parts(self) -> (Bits, Vec<bool>)
        ensures state { result.0 ≡ self.entry.state }
        ensures values { result.1.items ≡ self.entry.values }
        ensures wide { length self.entry.state ≡ length (circuit self.entry.net).flops }
    {
        let Sim {
            net: _,
            state,
            values,
        } = self;
        (state, values)
    }

    /// The present state.
    pub fn state(&self) -> &Bits
        ensures { result.now ≡ self.now.state }
    {
        &self.state
    }

    /// The bit that a net shows.
    pub fn value(&self, net: NetId) -> bool
        requires { net.0 < (circuit self.now.net).nets }
        ensures { result ≡ bit_at self.now.values net.0 }
    {
        self.values[net.0 as usize]
    }

    /// Makes another state the present one. The nets show what they showed.
    pub fn load(&mut self, state: &Bits)
        requires { length state.now ≡ length (circuit self.old.net).flops }
        ensures net { self.new.net ≡ self.old.net }
        ensures state { self.new.state ≡ state.now }
        ensures values { self.new.values ≡ self.old.values }
    {
        assign(&mut self.state, state);
    }

    /// Makes the nets show the valuation of the present state and an input.
    pub fn settle(&mut self, input: &Bits)
        requires { length input.now ≡ length (circuit self.old.net).inputs }
        ensures net { self.new.net ≡ self.old.net }
        ensures state { self.new.state ≡ self.old.state }
        ensures fits { Fits (circuit self.old.net) self.old.state input.now self.new.values }
    {
        settle(self.values.as_mut_slice(), self.net, &self.state, input);
    }

    /// Settles, and loads the next state: one clock edge.
    pub fn step(&mut self, input: &Bits)
        requires { length input.now ≡ length (circuit self.old.net).inputs }
        ensures net { self.new.net ≡ self.old.net }
        ensures state { self.new.state ≡ next (circuit self.old.net) self.old.state input.now }
        ensures fits { Fits (circuit self.old.net) self.old.state input.now self.new.values }
    {
        settle(self.values.as_mut_slice(), self.net, &self.state, input);
        load(
            &mut self.state,
            self.values.as_slice(),
            self.net.raw().flops.slice(),
        );
    }
}
