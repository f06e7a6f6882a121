//! The check of a netlist's parts, and what a checked netlist offers.
ghost use Rattle.std.specs.Prelude.{◌≡◌, ◌≢◌, [], length, map, IfOk, IfErr, IfSome, IfNone};
ghost use Rattle.bs_net.specs.Circuit.{reset_state};
ghost use Rattle.bs_net.specs.Order.{IsOrder, IsChecked, IsBounded};
ghost use Rattle.bs_net.specs.Netlist.{parts_of, circuit, clock_of, without};
ghost use Rattle.bs_net.specs.Parts.{PartsArePlaced};
ghost use Rattle.bs_net.specs.Check.{Passes, PassesNets, HasOrder, IsFault};
ghost use Rattle.bs_net.specs.Findings.{Finds};

use crate::clock::mixed_clock;
use crate::drivers::nets_pass;
use crate::fault::{NetFault, Refused};
use crate::net::{Flop, NetId};
use crate::order::gate_order;
use crate::raw::Raw;
use crate::sizes::too_many;
use bs_bits::{Bits, List, NoMemory};
use std::alloc::Global;
use std::marker::Model;

/// A netlist that has passed the check. Contracts see its parts and the order of its gates.
#[derive(Drop)]
pub struct Netlist {
    raw: Raw,
    clock: NetId,
    data_inputs: List<NetId>,
    order: List<u32>,
    reset: Bits,
}

impl Model for Netlist {
    ghost use Rattle.bs_net.specs.Netlist.{Checked, parts_of};

    ghost Value = { Checked };

    ghost use Rattle.bs_net.specs.Inside.{IsCheckedInside};

    ghost view = { λ n. record { raw = parts_of n.raw; order = n.order } };

    ghost invariant = { λ n. IsCheckedInside n };
}

/// The nets without one.
fn without_net(alloc: Global, net: NetId, nets: &[NetId]) -> Result<List<NetId>, NoMemory>
    ensures { IfOk result (λ l. l ≡ without net nets.now) }
{
    let mut others = List::new(alloc);
    for n in nets {
        if n.0 != net.0 {
            others.push(*n)?;
        }
    }
    Ok(others)
}

/// The bits at reset.
fn reset_bits(alloc: Global, flops: &[Flop]) -> Result<Bits, NoMemory>
    ensures { IfOk result (λ b. b ≡ map (λ f. f.reset) flops.now) }
{
    let mut bits = Bits::new(alloc);
    for f in flops {
        bits.push(f.reset)?;
    }
    Ok(bits)
}

/// The clock of the first flip-flop.
fn first_clock(flops: &[Flop]) -> Option<NetId>
    ensures some { IfSome result (λ n. (n ≡ clock_of flops.now) × (flops.now ≢ [])) }
    ensures none { IfNone result (flops.now ≡ []) }
{
    if flops.len() == 0 {
        return None;
    }
    Some(flops[0].ck)
}

/// The clock of all flip-flops; or the refusal where there is none.
fn one_clock(raw: &Raw) -> Result<NetId, NetFault>
    requires nets { PassesNets (parts_of raw.now) }
    requires ordered { HasOrder raw.now.gates }
    ensures ok { IfOk result (λ n. (n ≡ clock_of raw.now.flops) × Passes (parts_of raw.now)) }
    ensures err { IfErr result (λ fault. IsFault (parts_of raw.now) fault) }
{
    match first_clock(raw.flops.slice()) {
        None => Err(NetFault::NoFlop),
        Some(clock) => match mixed_clock(raw, clock) {
            None => Ok(clock),
            Some(n) => Err(NetFault::ClockMixed(n)),
        },
    }
}

/// What the check finds beside the parts: the clock, the other input port bits, an order of the gates, the reset state.
struct Findings {
    clock: NetId,
    data_inputs: List<NetId>,
    order: List<u32>,
    reset: Bits,
}

/// What the check finds; or the first refusal.
fn examine(alloc: Global, raw: &Raw) -> Result<Findings, NetFault>
    requires { PartsArePlaced (parts_of raw.now) }
    ensures ok { IfOk result (λ f. Passes (parts_of raw.now) × Finds (parts_of raw.now) f) }
    ensures err { IfErr result (λ fault. IsFault (parts_of raw.now) fault) }
{
    if let Some((count, number)) = too_many(raw) {
        return Err(NetFault::TooMany(count, number));
    }
    nets_pass(alloc, raw)?;
    let order = gate_order(alloc, raw)?;
    let clock = one_clock(raw)?;
    let data_inputs = without_net(alloc, clock, raw.inputs.slice())?;
    let reset = reset_bits(alloc, raw.flops.slice())?;
    Ok(Findings {
        clock,
        data_inputs,
        order,
        reset,
    })
}

impl Netlist {
    /// The netlist of some parts; or the first refusal, with the parts as they were
    /// (docs/DEFINITIONS.md, "Refusals of the check"). It takes time linear in the parts.
    pub fn check(alloc: Global, raw: Raw) -> Result<Netlist, Refused>
        ensures ok { IfOk result (λ n. (n.raw ≡ parts_of raw) × Passes (parts_of raw)) }
        ensures err { IfErr result (λ e. (e.raw ≡ raw) × IsFault (parts_of raw) e.fault) }
    {
        match examine(alloc, &raw) {
            Ok(
                Findings {
                    clock,
                    data_inputs,
                    order,
                    reset,
                },
            ) => Ok(Netlist {
                raw,
                clock,
                data_inputs,
                order,
                reset,
            }),
            Err(fault) => Err(Refused { raw, fault }),
        }
    }

    /// The parts.
    pub fn raw(&self) -> &Raw
        ensures parts { parts_of result.now ≡ self.now.raw }
        ensures placed { PartsArePlaced self.now.raw }
        ensures checked { IsChecked (circuit self.now) }
        ensures bounded { IsBounded (circuit self.now) }
        ensures ordered { IsOrder (circuit self.now).gates self.now.order }
    {
        &self.raw
    }

    /// The clock net.
    pub fn clock(&self) -> NetId
        ensures { result ≡ (circuit self.now).clock }
    {
        self.clock
    }

    /// The input port bits without the clock, in order.
    pub fn data_inputs(&self) -> &List<NetId>
        ensures { result.now ≡ (circuit self.now).inputs }
    {
        &self.data_inputs
    }

    /// The number of flip-flops.
    pub fn width(&self) -> usize
        ensures { result ≡ length (circuit self.now).flops }
    {
        self.raw.flops.len()
    }

    /// All gates once, by number, each reading no output of itself or a later one.
    pub fn order(&self) -> &List<u32>
        ensures order { result.now ≡ self.now.order }
        ensures ordered { IsOrder (circuit self.now).gates self.now.order }
        ensures checked { IsChecked (circuit self.now) }
    {
        &self.order
    }

    /// The reset state: a bit for each flip-flop.
    pub fn reset(&self) -> &Bits
        ensures { result.now ≡ reset_state (circuit self.now) }
    {
        &self.reset
    }
}
