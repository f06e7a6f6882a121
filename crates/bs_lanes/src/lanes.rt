//! Many runs of a netlist, simulated at once.
ghost use Rattle.std.specs.Prelude.{◌≡◌, ◌<◌, ◌≤◌, ◌-◌, ◌*◌, length, replicate, IsTrue, IfOk};
ghost use Rattle.bs_net.specs.Netlist.{circuit};
ghost use Rattle.bs_stim.specs.Packing.{bit_in};
ghost use Rattle.bs_lanes.specs.Planes.{bit_place, lane, IsWidened};
ghost use Rattle.bs_lanes.specs.Lanes.{is_wide, state_in, IsSameTable, AreReset, AreStepped};
ghost use Rattle.bs_lanes.specs.Layout.{HasLayout, IsLayout, SettlesAll};
ghost use Rattle.bs_lanes.specs.Settling.{LoadsAll, ResetsAll};

use crate::layout::{Layout, layout_of};
use crate::plane::{lane_bit, widened};
use crate::planes::Plane;
use crate::widths::{reset, step};
use bs_bits::{Bits, NoMemory};
use bs_net::{Flop, NetId, Netlist};
use std::alloc::Global;
use std::marker::Model;

/// A netlist in the states of up to 64, 128 or 256 runs at once, with planes of one, two or four words. Bit b of word w
/// of a plane belongs to run 64 w + b + 1. The nets show the valuations that were settled last.
#[derive(Drop)]
pub struct Lanes<'a> {
    net: &'a Netlist,
    wide: usize,
    flops: Vec<u64>,
    nets: Vec<u64>,
    zeros: Vec<u64>,
    layout: Layout,
}

impl<'a> Model for Lanes<'a> {
    ghost use Rattle.std.specs.Prelude.{◌≡◌, ◌*◌, length, replicate};
    ghost use Rattle.bs_net.specs.Netlist.{circuit};
    ghost use Rattle.bs_lanes.specs.Lanes.{LaneTable, IsLaneTable};
    ghost use Rattle.bs_lanes.specs.Layout.{words_by_net, IsLayout};

    ghost Value = { LaneTable };

    ghost view = { λ l. record { net = l.net.now; wide = l.wide; flops = l.flops.items; nets = words_by_net l.wide l.layout.places l.nets.items } };

    ghost invariant = { λ l. IsLaneTable (record { net = l.net.now; wide = l.wide; flops = l.flops.items; nets = words_by_net l.wide l.layout.places l.nets.items }) × (l.zeros.items ≡ replicate (length (circuit l.net.now).inputs * l.wide) 0) × IsLayout (circuit l.net.now) l.layout × (length l.nets.items ≡ l.layout.planes * l.wide) };
}

/// So many words of zeros.
fn zero_words(alloc: Global, count: usize) -> Result<Vec<u64>, NoMemory>
    ensures { IfOk result (λ v. v.items ≡ replicate count 0) }
{
    let words = vec![in alloc; 0; count]?;
    Ok(words)
}

/// Brings all lanes to reset, with the input of zeros settled.
fn reset_all(
    wide: usize,
    nets: &mut Vec<u64>,
    flops: &mut Vec<u64>,
    layout: &Layout,
    states: &[Flop],
    zeros: &[u64],
)
    requires wide { IsTrue (is_wide wide) }
    requires placed { HasLayout wide nets.old.items layout.now }
    requires outputs { length flops.old.items ≡ length layout.now.outputs * wide }
    requires states { length flops.old.items ≡ length states.now * wide }
    requires zeros { length zeros.now ≡ length layout.now.inputs * wide }
    ensures settled { SettlesAll wide layout.now flops.new.items zeros.now nets.old.items nets.new.items }
    ensures reset { ResetsAll wide states.now flops.old.items flops.new.items }
{
    reset(
        wide,
        nets.as_mut_slice(),
        flops.as_mut_slice(),
        layout,
        states,
        zeros,
    );
}

/// Settles, and loads the next states: one clock edge in all lanes.
fn step_all(wide: usize, nets: &mut Vec<u64>, flops: &mut Vec<u64>, layout: &Layout, inputs: &[u64])
    requires wide { IsTrue (is_wide wide) }
    requires placed { HasLayout wide nets.old.items layout.now }
    requires outputs { length flops.old.items ≡ length layout.now.outputs * wide }
    requires loads { length flops.old.items ≡ length layout.now.flops * wide }
    requires inputs { length inputs.now ≡ length layout.now.inputs * wide }
    ensures settled { SettlesAll wide layout.now flops.old.items inputs.now nets.old.items nets.new.items }
    ensures loaded { LoadsAll wide nets.new.items layout.now.flops flops.old.items flops.new.items }
{
    step(
        wide,
        nets.as_mut_slice(),
        flops.as_mut_slice(),
        layout,
        inputs,
    );
}

/// The bits of a lane in the first planes.
pub fn lane_bits(
    alloc: Global,
    words: &[u64],
    wide: usize,
    count: usize,
    r: usize,
) -> Result<Bits, NoMemory>
    requires lane { r < 64 * wide }
    requires room { count * wide ≤ length words.now }
    ensures { IfOk result (λ bits. bits ≡ lane wide count words.now r) }
{
    let mut bits = Bits::new(alloc);
    'planes: for plane in 0..count {
        bits.push(lane_bit(words, wide, plane, r))?;
    }
    Ok(bits)
}

impl<'a> Lanes<'a> {
    /// All runs at reset, with the input of zeros settled. Planes have one, two or four words.
    pub fn new(alloc: Global, net: &'a Netlist, wide: usize) -> Result<Lanes<'a>, NoMemory>
        requires { IsTrue (is_wide wide) }
        ensures net { IfOk result (λ l. l.net ≡ net.now) }
        ensures wide { IfOk result (λ l. l.wide ≡ wide) }
        ensures reset { IfOk result AreReset }
    {
        let raw = net.raw();
        let flops = zero_words(alloc, raw.flops.len() * wide)?;
        let zeros = zero_words(alloc, net.data_inputs().len() * wide)?;
        let layout = layout_of(alloc, net)?;
        let nets = zero_words(alloc, layout.planes * wide)?;
        Ok(Lanes::started(net, wide, flops, nets, zeros, layout))
    }

    /// All runs at reset, over words for the flip-flops and the nets, and the input of zeros.
    fn started(
        net: &'a Netlist,
        wide: usize,
        flops: Vec<u64>,
        nets: Vec<u64>,
        zeros: Vec<u64>,
        layout: Layout,
    ) -> Lanes<'a>
        requires wide { IsTrue (is_wide wide) }
        requires layout { IsLayout (circuit net.now) layout }
        requires flops { length flops.items ≡ length (circuit net.now).flops * wide }
        requires nets { nets.items ≡ replicate (layout.planes * wide) 0 }
        requires zeros { zeros.items ≡ replicate (length (circuit net.now).inputs * wide) 0 }
        ensures net { result.net ≡ net.now }
        ensures wide { result.wide ≡ wide }
        ensures reset { AreReset result }
    {
        let mut flops = flops;
        let mut nets = nets;
        reset_all(
            wide,
            &mut nets,
            &mut flops,
            &layout,
            net.raw().flops.slice(),
            zeros.as_slice(),
        );
        Lanes {
            net,
            wide,
            flops,
            nets,
            zeros,
            layout,
        }
    }

    /// Brings all runs back to reset, with the input of zeros settled.
    pub fn reset(&mut self)
        ensures same { IsSameTable self.old self.new }
        ensures reset { AreReset self.new }
    {
        reset_all(
            self.wide,
            &mut self.nets,
            &mut self.flops,
            &self.layout,
            self.net.raw().flops.slice(),
            self.zeros.as_slice(),
        );
    }

    /// Settles, and loads the next states: one clock edge in all runs, each under its own input. The inputs are planes,
    /// one for each data input, one behind another.
    pub fn step(&mut self, inputs: &[u64])
        requires { length inputs.now ≡ length (circuit self.old.net).inputs * self.old.wide }
        ensures same { IsSameTable self.old self.new }
        ensures stepped { AreStepped self.old self.new inputs.now }
    {
        step_all(
            self.wide,
            &mut self.nets,
            &mut self.flops,
            &self.layout,
            inputs,
        );
    }

    /// Makes other states the present ones, given as planes of the flip-flops. The nets show what they showed.
    pub fn load(&mut self, flops: &[u64])
        requires { length flops.now ≡ length (circuit self.old.net).flops * self.old.wide }
        ensures same { IsSameTable self.old self.new }
        ensures flops { self.new.flops ≡ flops.now }
        ensures nets { self.new.nets ≡ self.old.nets }
    {
        self.flops.as_mut_slice().copy_from_slice(flops);
    }

    /// The number of words of a plane.
    pub fn wide(&self) -> usize
        ensures { result ≡ self.now.wide }
    {
        self.wide
    }

    /// The planes of the flip-flops, one behind another.
    pub fn flops(&self) -> &[u64]
        ensures planes { result.now ≡ self.now.flops }
        ensures size { length self.now.flops ≡ length (circuit self.now.net).flops * self.now.wide }
    {
        self.flops.as_slice()
    }

    /// The bit that a net shows in each of 256 runs, and zeros for runs beyond the planes.
    pub fn plane(&self, net: NetId) -> Plane
        requires { net.0 < (circuit self.now.net).nets }
        ensures { IsWidened self.now.wide result (λ r. bit_in self.now.nets (bit_place self.now.wide net.0 r)) }
    {
        let place = *self.layout.places.get(net.0 as usize);
        widened(self.nets.as_slice(), place as usize, self.wide)
    }

    /// The present bit of a flip-flop in each of 256 runs, and zeros for runs beyond the planes.
    pub fn flop(&self, i: usize) -> Plane
        requires { i < length (circuit self.now.net).flops }
        ensures { IsWidened self.now.wide result (λ r. bit_in self.now.flops (bit_place self.now.wide i r)) }
    {
        widened(self.flops.as_slice(), i, self.wide)
    }

    /// The present state of a run. Runs are numbered from 1.
    pub fn state_of(&self, alloc: Global, run: u32) -> Result<Bits, NoMemory>
        requires from_one { 1 ≤ run }
        requires lane { run ≤ 64 * self.now.wide }
        ensures { IfOk result (λ state. state ≡ state_in self.now (run - 1)) }
    {
        lane_bits(
            alloc,
            self.flops.as_slice(),
            self.wide,
            self.net.width(),
            run as usize - 1,
        )
    }
}
