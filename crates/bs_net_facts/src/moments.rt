//! Every net's bit at each moment of a trace.
ghost use Rattle.std.specs.Prelude.{◌≡◌, ◌<◌, ◌≤◌, ◌⊎◌, length, All, IfOk, IfSome, IfNone};
ghost use Rattle.bs_net.specs.Netlist.{circuit};
ghost use Rattle.bs_sim.specs.Marks.{SayNothing, StayHeld, fixed, mark_at};
ghost use Rattle.bs_net_facts.specs.Facts.{IsWayOf, IsReal};
ghost use Rattle.bs_net_facts.specs.Seen.{RowsFit, ShowState, HoldAtLast};

use bs_bits::{Bits, List, NoMemory};
use bs_net::{Flop, NetId, Netlist};
use bs_sim::{Mark, Sim, fixed, mark_constants, mark_gates, unmarked};
use std::alloc::Global;
use std::marker::Model;

/// Every net's bit at each moment of a trace. Contracts see the netlist and the trace.
#[derive(Drop)]
pub struct Moments<'a> {
    net: &'a Netlist,
    states: &'a List<Bits>,
    inputs: &'a List<Bits>,
    /// The bits of the nets at each moment that has an input.
    rows: List<List<bool>>,
    /// What is known of them at the last moment.
    last: Vec<Mark>,
}

impl<'a> Model for Moments<'a> {
    ghost use Rattle.bs_net_facts.specs.Seen.{Seen, IsSeen};

    ghost Value = { Seen };

    ghost view = { λ m. record { net = m.net.now; states = m.states.now; inputs = m.inputs.now } };

    ghost invariant = { λ m. IsSeen m.net.now m.states.now m.inputs.now m.rows m.last.items };
}

/// Marks the outputs of flip-flops by a state.
#[tactic(auto, using(crate::proofs::SeenLemmas::stay_state))]
fn mark_state(marks: &mut [Mark], flops: &[Flop], state: &Bits)
    requires placed { All (λ f. f.q.0 < length marks.old) flops.now }
    requires wide { length state.now ≡ length flops.now }
    ensures { StayHeld (ShowState flops.now state.now) marks.old marks.new }
{
    'flops: for i in 0..flops.len() {
        let flop = flops[i];
        marks[flop.q.0 as usize] = fixed(state.get(i));
    }
}

/// Marks all nets under a state.
fn mark_all(marks: &mut [Mark], net: &Netlist, state: &Bits)
    requires size { length marks.old ≡ (circuit net.now).nets }
    requires nothing { SayNothing marks.old }
    requires wide { length state.now ≡ length (circuit net.now).flops }
    ensures { HoldAtLast (circuit net.now) state.now marks.new }
{
    let raw = net.raw();
    let order = net.order();
    mark_state(marks, raw.flops.slice(), state);
    mark_constants(marks, raw.consts.slice());
    mark_gates(marks, raw.gates.slice(), order.slice());
}

/// What is known of all nets under a state and any input.
fn last_marks(alloc: Global, net: &Netlist, state: &Bits) -> Result<Vec<Mark>, NoMemory>
    requires { length state.now ≡ length (circuit net.now).flops }
    ensures { IfOk result (λ marks. HoldAtLast (circuit net.now) state.now marks.items) }
{
    let mut marks = unmarked(alloc, net.raw().names.len() as usize)?;
    mark_all(marks.as_mut_slice(), net, state);
    Ok(marks)
}

/// The bits of so many nets, which is all of them.
fn settled_row(alloc: Global, sim: &Sim<'_>, count: u32) -> Result<List<bool>, NoMemory>
    requires count { count ≡ (circuit sim.now.net).nets }
    requires wide { length sim.now.values ≡ count }
    ensures { IfOk result (λ row. row ≡ sim.now.values) }
{
    let mut row = Vec::new(alloc);
    row.reserve(count as usize)?;
    'nets: for n in 0..count {
        row.push_reserved(sim.value(NetId(n)));
    }
    Ok(List::of(row))
}

/// The bits of the nets at the moments that have an input.
fn settled_rows(
    alloc: Global,
    net: &Netlist,
    count: u32,
    sim: &mut Sim<'_>,
    states: &List<Bits>,
    inputs: &List<Bits>,
) -> Result<List<List<bool>>, NoMemory>
    requires way { IsWayOf (circuit net.now) states.now inputs.now }
    requires same { sim.old.net ≡ net.now }
    requires count { count ≡ (circuit net.now).nets }
    ensures { IfOk result (λ rows. RowsFit (circuit net.now) states.now inputs.now (length inputs.now) rows) }
{
    let mut rows = List::new(alloc);
    'moments: for i in 0..inputs.len() {
        sim.load(states.get(i));
        sim.settle(inputs.get(i));
        rows.push(settled_row(alloc, sim, count)?)?;
    }
    Ok(rows)
}

/// The bits of the nets at the moments that have an input.
fn rows_of(
    alloc: Global,
    net: &Netlist,
    count: u32,
    states: &List<Bits>,
    inputs: &List<Bits>,
) -> Result<List<List<bool>>, NoMemory>
    requires way { IsWayOf (circuit net.now) states.now inputs.now }
    requires count { count ≡ (circuit net.now).nets }
    ensures { IfOk result (λ rows. RowsFit (circuit net.now) states.now inputs.now (length inputs.now) rows) }
{
    let mut sim = Sim::new(alloc, net)?;
    let rows = settled_rows(alloc, net, count, &mut sim, states, inputs)?;
    Ok(rows)
}

/// The bit that the mark of a net says.
fn bit_of(marks: &[Mark], net: NetId) -> Option<bool>
    ensures { IfSome result (λ bit. mark_at marks.now net.0 ≡ fixed bit) }
{
    let place = net.0 as usize;
    if place >= marks.len() {
        return None;
    }
    match marks[place] {
        Mark::Low => Some(false),
        Mark::High => Some(true),
        Mark::Still => None,
        Mark::Moved => None,
    }
}

impl<'a> Moments<'a> {
    /// The moments of a trace. It takes one pass over the gates for each.
    #[tactic(auto, using(crate::proofs::SeenLemmas::seen_made))]
    pub fn of(
        alloc: Global,
        net: &'a Netlist,
        states: &'a List<Bits>,
        inputs: &'a List<Bits>,
    ) -> Result<Moments<'a>, NoMemory>
        requires { IsWayOf (circuit net.now) states.now inputs.now }
        ensures net { IfOk result (λ m. m.net ≡ net.now) }
        ensures states { IfOk result (λ m. m.states ≡ states.now) }
        ensures inputs { IfOk result (λ m. m.inputs ≡ inputs.now) }
    {
        let count = net.raw().names.len();
        let state = states.get(inputs.len());
        let last = last_marks(alloc, net, state)?;
        let rows = rows_of(alloc, net, count, states, inputs)?;
        Ok(Moments {
            net,
            states,
            inputs,
            rows,
            last,
        })
    }

    /// The number of moments.
    pub fn len(&self) -> usize
        ensures { result ≡ length self.now.states }
    {
        self.states.len()
    }

    /// The netlist.
    pub fn net(&self) -> &'a Netlist
        ensures { result.now ≡ self.now.net }
    {
        self.net
    }

    /// A net's bit at a moment with an input.
    #[tactic(auto, using(crate::proofs::SeenLemmas::row_real, crate::proofs::SeenLemmas::row_none))]
    fn row_bit(&self, net: NetId, cycle: usize) -> Option<bool>
        requires { cycle < length self.now.inputs }
        ensures some { IfSome result (λ bit. IsReal (circuit self.now.net) self.now.states self.now.inputs (record { net = net; cycle = cycle; bit = bit })) }
        ensures none { IfNone result ((circuit self.now.net).nets ≤ net.0) }
    {
        let row = self.rows.get(cycle);
        let place = net.0 as usize;
        if place < row.len() {
            return Some(*row.get(place));
        }
        None
    }

    /// A net's bit at the last moment, where no input decides it.
    fn last_bit(&self, net: NetId, cycle: usize) -> Option<bool>
        requires { cycle ≡ length self.now.inputs }
        ensures { IfSome result (λ bit. IsReal (circuit self.now.net) self.now.states self.now.inputs (record { net = net; cycle = cycle; bit = bit })) }
    {
        bit_of(self.last.as_slice(), net)
    }

    /// A net's bit at a moment. `None` comes where there is no such net or moment, and at the last moment for nets of which the
    /// state alone does not tell it.
    pub fn bit(&self, net: NetId, cycle: u32) -> Option<bool>
        ensures some { IfSome result (λ bit. IsReal (circuit self.now.net) self.now.states self.now.inputs (record { net = net; cycle = cycle; bit = bit })) }
        ensures none { IfNone result (((circuit self.now.net).nets ≤ net.0) ⊎ (length self.now.inputs ≤ cycle)) }
    {
        let place = cycle as usize;
        if place < self.inputs.len() {
            return self.row_bit(net, place);
        }
        if place == self.inputs.len() {
            return self.last_bit(net, place);
        }
        None
    }
}
