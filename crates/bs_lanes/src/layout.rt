//! A netlist's parts with the places of planes for nets.
ghost use Rattle.std.specs.Prelude.{◌≡◌, ◌<◌, ◌≤◌, length, map, All, IfOk};
ghost use Rattle.bs_net.specs.Netlist.{circuit};
ghost use Rattle.bs_net.specs.Parts.{IsModePlaced, IsFlopPlaced};
ghost use Rattle.bs_lanes.specs.Layout.{placed_net, placed_const, placed_mode, placed_flop, IsLayout};

use crate::levels::by_level;
use crate::places::places_of;
use crate::program::{GateStretch, place, stretches_of};
use bs_bits::{List, NoMemory};
use bs_net::{Const, Flop, Mode, NetId, Netlist};
use std::alloc::Global;

/// Where the planes of a netlist's nets lie, and the netlist's parts with these places for nets.
#[derive(Drop)]
pub(crate) struct Layout {
    /// The number of planes.
    pub planes: usize,
    /// The place of each net's plane.
    pub places: List<u32>,
    /// The data inputs.
    pub inputs: List<NetId>,
    /// The outputs of the flip-flops.
    pub outputs: List<NetId>,
    /// The flip-flops.
    pub flops: List<Flop>,
    pub consts: List<Const>,
    /// The gates, each behind those whose outputs it reads.
    pub program: List<GateStretch>,
}

/// The places of some nets.
fn nets_at(alloc: Global, nets: &[NetId], places: &[u32]) -> Result<List<NetId>, NoMemory>
    requires { All (λ n. n.0 < length places.now) nets.now }
    ensures { IfOk result (λ placed. placed ≡ map (placed_net places.now) nets.now) }
{
    let mut placed = List::new(alloc);
    'nets: for i in 0..nets.len() {
        placed.push(place(places, nets[i]))?;
    }
    Ok(placed)
}

/// The places of the flip-flops' outputs.
fn outputs_at(alloc: Global, flops: &[Flop], places: &[u32]) -> Result<List<NetId>, NoMemory>
    requires { All (IsFlopPlaced (length places.now)) flops.now }
    ensures { IfOk result (λ placed. placed ≡ map (λ f. placed_net places.now f.q) flops.now) }
{
    let mut placed = List::new(alloc);
    'flops: for i in 0..flops.len() {
        placed.push(place(places, flops[i].q))?;
    }
    Ok(placed)
}

/// A mode by the place of its net.
fn mode_at(mode: Mode, places: &[u32]) -> Mode
    requires { IsModePlaced (length places.now) mode }
    ensures { result ≡ placed_mode places.now mode }
{
    match mode {
        Mode::Plain => Mode::Plain,
        Mode::Enable(enable) => Mode::Enable(place(places, enable)),
        Mode::Clear(clear) => Mode::Clear(place(places, clear)),
    }
}

/// A flip-flop by the places of its nets.
fn flop_at(flop: Flop, places: &[u32]) -> Flop
    requires { IsFlopPlaced (length places.now) flop }
    ensures { result ≡ placed_flop places.now flop }
{
    Flop {
        q: place(places, flop.q),
        d: place(places, flop.d),
        ck: place(places, flop.ck),
        reset: flop.reset,
        mode: mode_at(flop.mode, places),
    }
}

/// The flip-flops by their places.
fn flops_at(alloc: Global, flops: &[Flop], places: &[u32]) -> Result<List<Flop>, NoMemory>
    requires { All (IsFlopPlaced (length places.now)) flops.now }
    ensures { IfOk result (λ placed. placed ≡ map (placed_flop places.now) flops.now) }
{
    let mut placed = List::new(alloc);
    'flops: for i in 0..flops.len() {
        placed.push(flop_at(flops[i], places))?;
    }
    Ok(placed)
}

/// The constants by their places.
fn consts_at(alloc: Global, consts: &[Const], places: &[u32]) -> Result<List<Const>, NoMemory>
    requires { All (λ k. k.net.0 < length places.now) consts.now }
    ensures { IfOk result (λ placed. placed ≡ map (placed_const places.now) consts.now) }
{
    let mut placed = List::new(alloc);
    'constants: for i in 0..consts.len() {
        let constant = consts[i];
        placed.push(Const {
            net: place(places, constant.net),
            value: constant.value,
        })?;
    }
    Ok(placed)
}

/// A netlist's parts but its gates, with the places of planes for nets.
#[derive(Drop)]
struct Placed {
    inputs: List<NetId>,
    outputs: List<NetId>,
    flops: List<Flop>,
    consts: List<Const>,
}

/// A netlist's parts but its gates, by the places of its nets.
fn parts_at(alloc: Global, net: &Netlist, places: &[u32]) -> Result<Placed, NoMemory>
    requires { length places.now ≡ length net.now.raw.names }
    ensures inputs { IfOk result (λ p. p.inputs ≡ map (placed_net places.now) (circuit net.now).inputs) }
    ensures outputs { IfOk result (λ p. p.outputs ≡ map (λ f. placed_net places.now f.q) (circuit net.now).flops) }
    ensures flops { IfOk result (λ p. p.flops ≡ map (placed_flop places.now) (circuit net.now).flops) }
    ensures consts { IfOk result (λ p. p.consts ≡ map (placed_const places.now) (circuit net.now).constants) }
{
    let raw = net.raw();
    let inputs = nets_at(alloc, net.data_inputs().slice(), places)?;
    let outputs = outputs_at(alloc, raw.flops.slice(), places)?;
    let flops = flops_at(alloc, raw.flops.slice(), places)?;
    let consts = consts_at(alloc, raw.consts.slice(), places)?;
    Ok(Placed {
        inputs,
        outputs,
        flops,
        consts,
    })
}

/// The layout of a netlist: the gates' outputs lie in the order of their evaluation.
pub(crate) fn layout_of(alloc: Global, net: &Netlist) -> Result<Layout, NoMemory>
    ensures { IfOk result (IsLayout (circuit net.now)) }
{
    let raw = net.raw();
    let gates = raw.gates.slice();
    let order = by_level(alloc, net)?;
    let (places, planes) = places_of(alloc, raw.names.len() as usize, gates, order.as_slice())?;
    let program = stretches_of(alloc, gates, order.as_slice(), places.slice())?;
    let parts = parts_at(alloc, net, places.slice())?;
    Ok(Layout {
        planes,
        places,
        inputs: parts.inputs,
        outputs: parts.outputs,
        flops: parts.flops,
        consts: parts.consts,
        program,
    })
}
