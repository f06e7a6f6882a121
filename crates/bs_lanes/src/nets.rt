//! The planes of a netlist's nets: shown sources, and gates settled in order; then the flip-flops load.
ghost use Rattle.std.specs.Prelude.{◌≡◌, ◌<◌, ◌≤◌, ◌+◌, ◌*◌, length, map, All};
ghost use Rattle.bs_net.specs.Steps.{puts, constant_step, gate_write};
ghost use Rattle.bs_lanes.specs.Planes.{lane};
ghost use Rattle.bs_lanes.specs.Program.{stretch_gates, program_gates, HasGate};
ghost use Rattle.bs_lanes.specs.Layout.{HasLayout, SettlesAll};
ghost use Rattle.bs_lanes.specs.Settling.{HasPlane, RunsAll, LoadsAll, ResetsAll};

use crate::gates::{gate_plane, splat_of};
use crate::layout::Layout;
use crate::loads::load;
use crate::pairs::settle_pairs;
use crate::plane::{plane_at, put_plane};
use crate::program::GateStretch;
use bs_net::{Const, Flop, Gate, NetId};

/// Shows some planes on some nets.
fn show_nets<const N: usize>(nets: &mut [u64], shown: &[NetId], planes: &[u64])
    requires placed { All (λ n. HasPlane N nets.old n.0) shown.now }
    requires same { length planes.now ≡ length shown.now * N }
    ensures { RunsAll N (λ r. puts shown.now (lane N (length shown.now) planes.now r)) nets.old nets.new }
{
    'nets: for i in 0..shown.len() {
        let net = shown[i];
        let plane = plane_at::<N>(planes, i);
        put_plane::<N>(nets, net.0 as usize, plane);
    }
}

/// Shows the constants.
fn show_constants<const N: usize>(nets: &mut [u64], consts: &[Const])
    requires placed { All (λ k. HasPlane N nets.old k.net.0) consts.now }
    ensures { RunsAll N (λ r. map constant_step consts.now) nets.old nets.new }
{
    'constants: for i in 0..consts.len() {
        let constant = consts[i];
        let plane = splat_of::<N>(constant.value);
        put_plane::<N>(nets, constant.net.0 as usize, plane);
    }
}

/// Makes the gates' outputs show their values, in order.
fn settle_gates<const N: usize>(nets: &mut [u64], gates: &[Gate])
    requires { All (HasGate N nets.old) gates.now }
    ensures { RunsAll N (λ r. map gate_write gates.now) nets.old nets.new }
{
    'gates: for i in 0..gates.len() {
        let gate = &gates[i];
        let plane = gate_plane::<N>(nets, gate);
        put_plane::<N>(nets, gate.out.0 as usize, plane);
    }
}

/// Makes the outputs of a stretch of gates show their values, in order.
fn settle_stretch<const N: usize>(nets: &mut [u64], stretch: &GateStretch)
    requires { All (HasGate N nets.old) (stretch_gates stretch.now) }
    ensures { RunsAll N (λ r. map gate_write (stretch_gates stretch.now)) nets.old nets.new }
{
    match stretch {
        GateStretch::Pairs(kind, start, pairs) => settle_pairs::<N>(
            nets,
            *kind,
            *start,
            pairs.slice(),
        ),
        GateStretch::Others(gates) => settle_gates::<N>(nets, gates.slice()),
    }
}

/// Makes the outputs of all gates show their values, stretch by stretch.
fn settle_program<const N: usize>(nets: &mut [u64], program: &[GateStretch])
    requires { All (HasGate N nets.old) (program_gates program.now) }
    ensures { RunsAll N (λ r. map gate_write (program_gates program.now)) nets.old nets.new }
{
    'stretches: for i in 0..program.len() {
        settle_stretch::<N>(nets, &program[i]);
    }
}

/// Makes the planes of the flip-flops those of the reset state.
fn load_reset<const N: usize>(planes: &mut [u64], flops: &[Flop])
    requires { length planes.old ≡ length flops.now * N }
    ensures { ResetsAll N flops.now planes.old planes.new }
{
    'flops: for i in 0..flops.len() {
        let plane = splat_of::<N>(flops[i].reset);
        put_plane::<N>(planes, i, plane);
    }
}

/// Settles the nets under the states and inputs of all lanes.
fn settle<const N: usize>(nets: &mut [u64], layout: &Layout, flops: &[u64], inputs: &[u64])
    requires placed { HasLayout N nets.old layout.now }
    requires flops { length flops.now ≡ length layout.now.outputs * N }
    requires inputs { length inputs.now ≡ length layout.now.inputs * N }
    ensures { SettlesAll N layout.now flops.now inputs.now nets.old nets.new }
{
    show_nets::<N>(nets, layout.inputs.slice(), inputs);
    show_nets::<N>(nets, layout.outputs.slice(), flops);
    show_constants::<N>(nets, layout.consts.slice());
    settle_program::<N>(nets, layout.program.slice());
}

/// Settles, and loads the next states: one clock edge in all lanes.
pub(crate) fn step<const N: usize>(
    nets: &mut [u64],
    flops: &mut [u64],
    layout: &Layout,
    inputs: &[u64],
)
    requires placed { HasLayout N nets.old layout.now }
    requires outputs { length flops.old ≡ length layout.now.outputs * N }
    requires loads { length flops.old ≡ length layout.now.flops * N }
    requires inputs { length inputs.now ≡ length layout.now.inputs * N }
    ensures settled { SettlesAll N layout.now flops.old inputs.now nets.old nets.new }
    ensures loaded { LoadsAll N nets.new layout.now.flops flops.old flops.new }
{
    settle::<N>(nets, layout, flops, inputs);
    load::<N>(flops, nets, layout.flops.slice());
}

/// Brings all lanes to reset, with the input of zeros settled.
pub(crate) fn reset<const N: usize>(
    nets: &mut [u64],
    flops: &mut [u64],
    layout: &Layout,
    states: &[Flop],
    zeros: &[u64],
)
    requires placed { HasLayout N nets.old layout.now }
    requires outputs { length flops.old ≡ length layout.now.outputs * N }
    requires states { length flops.old ≡ length states.now * N }
    requires zeros { length zeros.now ≡ length layout.now.inputs * N }
    ensures settled { SettlesAll N layout.now flops.new zeros.now nets.old nets.new }
    ensures reset { ResetsAll N states.now flops.old flops.new }
{
    load_reset::<N>(flops, states);
    settle::<N>(nets, layout, flops, zeros);
}
