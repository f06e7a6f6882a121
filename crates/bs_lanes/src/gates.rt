//! The planes of gates' values.
ghost use Rattle.std.specs.Prelude.{◌≡◌, ◌≤◌, ◌+◌, ◌*◌, not, length, map, All, IsTrue};
ghost use Rattle.std.specs.List.{list_all, list_any};
ghost use Rattle.bs_net.specs.Gate.{gate_value, is_odd};
ghost use Rattle.bs_net.specs.Gate.{takes};
ghost use Rattle.bs_lanes.specs.Planes.{IsPlane};
ghost use Rattle.bs_lanes.specs.Settling.{net_bit, HasPlane};

use crate::plane::{inverse, plane_at};
use bs_net::{Gate, Kind, NetId};
use std::simd::Simd;

/// The plane of a net.
pub(crate) fn net_plane<const N: usize>(nets: &[u64], net: NetId) -> Simd<u64, N>
    requires { HasPlane N nets.now net.0 }
    ensures { IsPlane N result (λ r. net_bit N nets.now r net) }
{
    plane_at::<N>(nets, net.0 as usize)
}

/// A plane that has one bit in each lane.
#[tactic(auto, using(crate::proofs::PlaneLemmas::ones_is_plane, crate::proofs::PlaneLemmas::zeros_is_plane))]
pub(crate) fn splat_of<const N: usize>(bit: bool) -> Simd<u64, N>
    ensures { IsPlane N result (λ r. bit) }
{
    if bit {
        Simd::splat(u64::MAX)
    } else {
        Simd::splat(0)
    }
}

/// In each lane, whether all of these nets show 1.
fn all_one<const N: usize>(nets: &[u64], ins: &[NetId]) -> Simd<u64, N>
    requires { All (λ n. HasPlane N nets.now n.0) ins.now }
    ensures { IsPlane N result (λ r. list_all (net_bit N nets.now r) ins.now) }
{
    let mut plane: Simd<u64, N> = Simd::splat(u64::MAX);
    'ins: for i in 0..ins.len() {
        plane = plane & net_plane::<N>(nets, ins[i]);
    }
    plane
}

/// In each lane, whether one of these nets shows 1.
fn any_one<const N: usize>(nets: &[u64], ins: &[NetId]) -> Simd<u64, N>
    requires { All (λ n. HasPlane N nets.now n.0) ins.now }
    ensures { IsPlane N result (λ r. list_any (net_bit N nets.now r) ins.now) }
{
    let mut plane: Simd<u64, N> = Simd::splat(0);
    'ins: for i in 0..ins.len() {
        plane = plane | net_plane::<N>(nets, ins[i]);
    }
    plane
}

/// In each lane, whether the number of these nets that show 1 is odd.
fn odd_ones<const N: usize>(nets: &[u64], ins: &[NetId]) -> Simd<u64, N>
    requires { All (λ n. HasPlane N nets.now n.0) ins.now }
    ensures { IsPlane N result (λ r. is_odd (map (net_bit N nets.now r) ins.now)) }
{
    let mut plane: Simd<u64, N> = Simd::splat(0);
    'ins: for i in 0..ins.len() {
        plane = plane ^ net_plane::<N>(nets, ins[i]);
    }
    plane
}

/// In each lane, the value of a gate.
pub(crate) fn gate_plane<const N: usize>(nets: &[u64], gate: &Gate) -> Simd<u64, N>
    requires placed { All (λ n. HasPlane N nets.now n.0) gate.now.ins }
    requires taken { IsTrue (takes gate.now.kind (length gate.now.ins)) }
    ensures { IsPlane N result (λ r. gate_value gate.now.kind (map (net_bit N nets.now r) gate.now.ins)) }
{
    let ins = gate.ins.slice();
    match gate.kind {
        Kind::And => all_one::<N>(nets, ins),
        Kind::Nand => inverse::<N>(all_one::<N>(nets, ins)),
        Kind::Or => any_one::<N>(nets, ins),
        Kind::Nor => inverse::<N>(any_one::<N>(nets, ins)),
        Kind::Xor => odd_ones::<N>(nets, ins),
        Kind::Xnor => inverse::<N>(odd_ones::<N>(nets, ins)),
        Kind::Buf => net_plane::<N>(nets, ins[0]),
        Kind::Not => inverse::<N>(net_plane::<N>(nets, ins[0])),
    }
}
