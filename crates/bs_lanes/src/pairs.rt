//! Gates of two inputs of one kind, evaluated one after another without a choice.
ghost use Rattle.std.specs.Prelude.{◌≡◌, ◌<◌, ◌≤◌, ◌+◌, ◌*◌, ◌∷◌, [], length, map, All, IsTrue};
ghost use Rattle.bs_net.specs.Gate.{gate_value};
ghost use Rattle.bs_net.specs.Steps.{gate_write};
ghost use Rattle.bs_stim.specs.Packing.{bit_in};
ghost use Rattle.bs_lanes.specs.Planes.{bit_place, IsPlane};
ghost use Rattle.bs_lanes.specs.Settling.{RunsAll};
ghost use Rattle.bs_lanes.specs.Program.{pair_gates, HasGate};
ghost use Rattle.bs_lanes.specs.Pairs.{IsMixed, IsTable};

use crate::gates::splat_of;
use crate::plane::{plane_at, put_plane};
use bs_net::Kind;
use std::simd::Simd;

/// The inputs of a gate of two inputs, by the places of their planes.
#[derive(Clone, Copy)]
pub(crate) struct Pair {
    pub a: u32,
    pub b: u32,
}

/// What a gate of two inputs computes: whether their conjunction counts, whether their difference counts, and whether the
/// whole is inverted.
#[derive(Clone, Copy)]
pub(crate) struct PairTable {
    pub both: bool,
    pub one: bool,
    pub inverted: bool,
}

/// In each lane, what a table gives for two bits.
fn mixed_plane<const N: usize>(
    a: Simd<u64, N>,
    b: Simd<u64, N>,
    both: Simd<u64, N>,
    one: Simd<u64, N>,
    inverted: Simd<u64, N>,
) -> Simd<u64, N>
    requires a { length a ≡ N }
    requires b { length b ≡ N }
    requires both { length both ≡ N }
    requires one { length one ≡ N }
    requires inverted { length inverted ≡ N }
    ensures { IsMixed N a.entry b.entry both.entry one.entry inverted.entry result }
{
    (a & b & both) ^ ((a ^ b) & one) ^ inverted
}

/// Makes the outputs of some gates of two inputs and one kind show their values, one plane after another. The table of the
/// kind is known when the program is built, so that the formula is one or two operations.
fn settle_some<const N: usize, const BOTH: bool, const ONE: bool, const INVERTED: bool>(
    nets: &mut [u64],
    kind: Kind,
    start: u32,
    pairs: &[Pair],
)
    requires table { IsTable kind (record { both = BOTH; one = ONE; inverted = INVERTED }) }
    requires some { 0 < length pairs.now }
    requires placed { All (HasGate N nets.old) (pair_gates kind start pairs.now) }
    ensures { RunsAll N (λ r. map gate_write (pair_gates kind start pairs.now)) nets.old nets.new }
{
    let both = splat_of::<N>(BOTH);
    let one = splat_of::<N>(ONE);
    let inverted = splat_of::<N>(INVERTED);
    'pairs: for i in 0..pairs.len() {
        let pair = &pairs[i];
        let a = plane_at::<N>(nets, pair.a as usize);
        let b = plane_at::<N>(nets, pair.b as usize);
        let plane = mixed_plane::<N>(a, b, both, one, inverted);
        put_plane::<N>(nets, start as usize + i, plane);
    }
}

/// Makes the outputs of gates of two inputs and one kind show their values, one plane after another.
#[tactic(auto, using(crate::proofs::PairLemmas::no_pairs, crate::proofs::PairLemmas::some_taken, crate::proofs::PairLemmas::and_table, crate::proofs::PairLemmas::nand_table, crate::proofs::PairLemmas::or_table, crate::proofs::PairLemmas::nor_table, crate::proofs::PairLemmas::xor_table, crate::proofs::PairLemmas::xnor_table))]
pub(crate) fn settle_pairs<const N: usize>(nets: &mut [u64], kind: Kind, start: u32, pairs: &[Pair])
    requires placed { All (HasGate N nets.old) (pair_gates kind start pairs.now) }
    ensures { RunsAll N (λ r. map gate_write (pair_gates kind start pairs.now)) nets.old nets.new }
{
    if pairs.len() == 0 {
        return;
    }
    match kind {
        Kind::And => settle_some::<N, true, false, false>(nets, kind, start, pairs),
        Kind::Nand => settle_some::<N, true, false, true>(nets, kind, start, pairs),
        Kind::Or => settle_some::<N, true, true, false>(nets, kind, start, pairs),
        Kind::Nor => settle_some::<N, true, true, true>(nets, kind, start, pairs),
        Kind::Xor => settle_some::<N, false, true, false>(nets, kind, start, pairs),
        Kind::Xnor => settle_some::<N, false, true, true>(nets, kind, start, pairs),
        Kind::Buf | Kind::Not => {}
    }
}
