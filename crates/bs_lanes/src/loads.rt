//! What flip-flops load at a clock edge, in all lanes.
ghost use Rattle.std.specs.Prelude.{◌≡◌, ◌≤◌, ◌+◌, ◌*◌, not, ◌&&◌, length, All, if◌then◌else◌};
ghost use Rattle.bs_stim.specs.Packing.{bit_in};
ghost use Rattle.bs_lanes.specs.Planes.{IsPlane};
ghost use Rattle.bs_lanes.specs.Settling.{HasFlop, LoadsAll, lane_loads};

use crate::gates::net_plane;
use crate::plane::{inverse, put_plane};
use bs_net::{Flop, Mode};
use std::simd::Simd;

/// In each lane, the bit of one plane where a choice is 1, and that of another where it is 0.
fn chosen<const N: usize>(
    choice: Simd<u64, N>,
    one: Simd<u64, N>,
    zero: Simd<u64, N>,
) -> Simd<u64, N>
    requires choice { length choice ≡ N }
    requires one { length one ≡ N }
    requires zero { length zero ≡ N }
    ensures { IsPlane N result (λ r. if bit_in choice.entry r then bit_in one.entry r else bit_in zero.entry r) }
{
    (choice & one) | (inverse::<N>(choice) & zero)
}

/// In each lane, the bit of a plane where another one is 0, and 0 where that is 1.
fn cleared<const N: usize>(clear: Simd<u64, N>, plane: Simd<u64, N>) -> Simd<u64, N>
    requires clear { length clear ≡ N }
    requires plane { length plane ≡ N }
    ensures { IsPlane N result (λ r. not (bit_in clear.entry r) && bit_in plane.entry r) }
{
    inverse::<N>(clear) & plane
}

/// In each lane, the bit that a flip-flop loads.
fn load_plane<const N: usize>(nets: &[u64], flop: Flop) -> Simd<u64, N>
    requires { HasFlop N nets.now flop }
    ensures { IsPlane N result (λ r. lane_loads N nets.now r flop) }
{
    let input = net_plane::<N>(nets, flop.d);
    match flop.mode {
        Mode::Plain => input,
        Mode::Enable(enable) => chosen::<N>(
            net_plane::<N>(nets, enable),
            input,
            net_plane::<N>(nets, flop.q),
        ),
        Mode::Clear(clear) => cleared::<N>(net_plane::<N>(nets, clear), input),
    }
}

/// Loads the flip-flops from what the nets show: one clock edge.
pub(crate) fn load<const N: usize>(planes: &mut [u64], nets: &[u64], flops: &[Flop])
    requires placed { All (HasFlop N nets.now) flops.now }
    requires same { length planes.old ≡ length flops.now * N }
    ensures { LoadsAll N nets.now flops.now planes.old planes.new }
{
    'flops: for i in 0..flops.len() {
        let plane = load_plane::<N>(nets, flops[i]);
        put_plane::<N>(planes, i, plane);
    }
}
