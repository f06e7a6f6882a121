//! Where all lanes lead while one data input is held at a value.
ghost use Rattle.std.specs.Prelude.{◌≡◌, ◌<◌, ◌≤◌, ◌+◌, ◌*◌, ◌^◌, length, All, IfOk, IsTrue};
ghost use Rattle.bs_net.specs.Netlist.{circuit};
ghost use Rattle.bs_preimage_recorded.specs.Independent.{IsIndependent};
ghost use Rattle.bs_lanes.specs.Lanes.{is_wide};
ghost use Rattle.bs_preimage_recorded.specs.Forward.{Holds, IsHeldIn, TellLeads};
ghost use Rattle.bs_preimage_recorded.specs.Groups.{AreIndependent};

use crate::groups::{groups_of, parity_hashes};
use bs_bits::{Bits, List, NoMemory};
use bs_lanes::{Lanes, Planes};
use bs_net::Netlist;
use std::alloc::Global;
use std::marker::Model;

/// A netlist in which one data input is held at a value, and groups of flip-flops that no other one moves then.
pub struct HeldInput<'a> {
    lanes: Lanes<'a>,
    inputs: Planes,
    input: usize,
    value: bool,
    width: usize,
    groups: List<List<u32>>,
}

// One function for every place that drops one, so that the proof of each such place stays small.
impl<'a> Drop for HeldInput<'a> {
    fn drop(self) {
        let HeldInput {
            lanes,
            inputs,
            input: _,
            value: _,
            width: _,
            groups,
        } = self;
        drop(lanes);
        drop(inputs);
        drop(groups);
    }
}

impl<'a> Model for HeldInput<'a> {
    ghost use Rattle.bs_net.specs.Netlist.{circuit};
    ghost use Rattle.bs_preimage_recorded.specs.Forward.{Holding, IsHolding};

    ghost Value = { Holding };

    ghost view = { λ h. record { circuit = circuit h.lanes.net; wide = h.lanes.wide; input = h.input; value = h.value; groups = h.groups } };

    ghost invariant = { λ h. IsHolding (record { circuit = circuit h.lanes.net; wide = h.lanes.wide; input = h.input; value = h.value; groups = h.groups }) h.inputs.words h.width };
}

/// Holds a data input at a value in all lanes.
fn hold(planes: &mut Planes, wide: usize, input: usize, value: bool)
    requires wide { planes.old.wide ≡ wide }
    requires few { wide ≤ 4 }
    requires room { input * wide + wide ≤ length planes.old.words }
    ensures wide { planes.new.wide ≡ wide }
    ensures size { length planes.new.words ≡ length planes.old.words }
    ensures held { IsHeldIn wide input value planes.new.words (64 * wide) }
{
    'lanes: for lane in 0..64 * wide as u32 {
        planes.set(input, lane + 1, value);
    }
}

/// Planes of so many data inputs, of which one, if it is there, is held at a value in all lanes.
fn held_inputs(
    alloc: Global,
    count: usize,
    wide: usize,
    input: usize,
    value: bool,
) -> Result<Planes, NoMemory>
    requires few { wide ≤ 4 }
    requires limit { count * wide < 2 ^ 64 }
    ensures size { IfOk result (λ planes. length planes.words ≡ count * wide) }
    ensures held { IfOk result (λ planes. input < count → IsHeldIn wide input value planes.words (64 * wide)) }
{
    let mut planes = Planes::new(alloc, count, wide)?;
    if input < count {
        hold(&mut planes, wide, input, value);
    }
    Ok(planes)
}

/// How many flip-flops a netlist has.
fn state_width(net: &Netlist) -> usize
    ensures { result ≡ length (circuit net.now).flops }
{
    net.reset().len()
}

/// Groups of the flagged flip-flops, which no input but one moves.
fn independent_groups(
    alloc: Global,
    net: &Netlist,
    input: usize,
    value: bool,
    flags: &Bits,
) -> Result<List<List<u32>>, NoMemory>
    requires { IsIndependent (circuit net.now) input value flags.now }
    ensures { IfOk result (AreIndependent (circuit net.now) input value) }
{
    let groups = groups_of(alloc, flags)?;
    Ok(groups)
}

impl<'a> HeldInput<'a> {
    /// A netlist whose data input of a number is held at a value, with flags of flip-flops that no other one moves then.
    pub fn new(
        alloc: Global,
        net: &'a Netlist,
        wide: usize,
        input: usize,
        value: bool,
        flags: &Bits,
    ) -> Result<HeldInput<'a>, NoMemory>
        requires wide { IsTrue (is_wide wide) }
        requires some { 1 ≤ wide }
        requires few { wide ≤ 4 }
        requires independent { IsIndependent (circuit net.now) input value flags.now }
        ensures { IfOk result (Holds (circuit net.now) wide input value) }
    {
        let _raw = net.raw();
        let width = state_width(net);
        let groups = independent_groups(alloc, net, input, value, flags)?;
        let inputs = held_inputs(alloc, net.data_inputs().len(), wide, input, value)?;
        let lanes = Lanes::new(alloc, net, wide)?;
        Ok(HeldInput {
            lanes,
            inputs,
            input,
            value,
            width,
            groups,
        })
    }

    /// Groups of flip-flops that no other data input moves.
    pub fn groups(&self) -> &List<List<u32>>
        ensures groups { result.now ≡ self.now.groups }
        ensures range { All (λ group. All (λ place. place < length self.now.circuit.flops) group) self.now.groups }
    {
        &self.groups
    }

    /// The hashes of where the states of so many lanes lead: of the groups' parities.
    pub fn hashes(
        &mut self,
        alloc: Global,
        planes: &[u64],
        lanes: u32,
    ) -> Result<List<u64>, NoMemory>
        requires size { length planes.now ≡ length self.old.circuit.flops * self.old.wide }
        requires lanes { lanes ≤ 64 * self.old.wide }
        ensures kept { self.new ≡ self.old }
        ensures hashes { IfOk result (λ hashes. TellLeads self.old planes.now hashes lanes) }
    {
        self.lanes.load(planes);
        self.lanes.step(self.inputs.words());
        let wide = self.lanes.wide();
        let flops = self.lanes.flops();
        let hashes = parity_hashes(alloc, &self.groups, flops, self.width, wide, lanes)?;
        Ok(hashes)
    }
}
