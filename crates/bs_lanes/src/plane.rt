//! One plane of several, read and written whole.
ghost use Rattle.std.specs.Prelude.{◌≡◌, ◌<◌, ◌≤◌, ◌+◌, ◌*◌, not, length};
ghost use Rattle.std.specs.Simd.Lanes.{put_chunk};
ghost use Rattle.bs_stim.specs.Packing.{bit_in};
ghost use Rattle.bs_lanes.specs.Planes.{bit_place, IsPlane, IsPadded, IsWidened};

use crate::planes::Plane;
use std::simd::Simd;

/// A plane of N words. Planes are numbered from 0.
#[tactic(auto, using(crate::proofs::PlaneLemmas::chunk_is_plane))]
pub(crate) fn plane_at<const N: usize>(words: &[u64], plane: usize) -> Simd<u64, N>
    requires { plane * N + N ≤ length words.now }
    ensures { IsPlane N result (λ r. bit_in words.now (bit_place N plane r)) }
{
    Simd::from_slice(&words[plane * N..])
}

/// Writes a plane of N words.
pub(crate) fn put_plane<const N: usize>(words: &mut [u64], plane: usize, bits: Simd<u64, N>)
    requires long { length bits ≡ N }
    requires room { plane * N + N ≤ length words.old }
    ensures { words.new ≡ put_chunk (plane * N) words.old bits.entry }
{
    bits.copy_to_slice(&mut words[plane * N..]);
}

/// The complement of a plane.
#[tactic(auto, using(crate::proofs::PlaneLemmas::not_is_plane))]
pub fn inverse<const N: usize>(plane: Simd<u64, N>) -> Simd<u64, N>
    requires { length plane ≡ N }
    ensures { IsPlane N result (λ r. not (bit_in plane.entry r)) }
{
    plane ^ Simd::splat(u64::MAX)
}

/// The bit of a plane in a lane. Lanes are numbered from 0.
#[tactic(auto, using(crate::proofs::PlaneLemmas::bit_read_from))]
pub fn lane_bit(words: &[u64], wide: usize, plane: usize, lane: usize) -> bool
    requires lane { lane < 64 * wide }
    requires room { plane * wide + wide ≤ length words.now }
    ensures { result ≡ bit_in words.now (bit_place wide plane lane) }
{
    (words[plane * wide + lane / 64] >> (lane % 64)) & 1 == 1
}

/// Some words from a place on, and zeros behind them.
fn padded(words: &[u64], start: usize, count: usize) -> Plane
    requires few { count ≤ 4 }
    requires room { start + count ≤ length words.now }
    ensures { IsPadded words.now start count result }
{
    let mut all = [0; 4];
    'words: for i in 0..count {
        all[i] = words[start + i];
    }
    Simd::from_array(all)
}

/// A plane of up to four words, for 256 runs: zeros for the runs beyond its words.
#[tactic(auto, using(crate::proofs::PlaneLemmas::padded_is_plane))]
pub(crate) fn widened(words: &[u64], plane: usize, wide: usize) -> Plane
    requires wide { wide ≤ 4 }
    requires room { plane * wide + wide ≤ length words.now }
    ensures { IsWidened wide result (λ r. bit_in words.now (bit_place wide plane r)) }
{
    padded(words, plane * wide, wide)
}
