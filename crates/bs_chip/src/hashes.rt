//! The hash of a state: a number that equal states share, and other states hardly ever.
ghost use Rattle.std.specs.Prelude.{◌≡◌, ◌<◌, ◌≤◌, ◌*◌, length, IfOk};
ghost use Rattle.bs_lanes.specs.Planes.{lane as lane_in};
ghost use Rattle.bs_chip.specs.Hashes.{hash_more, hash_of, ListsEach};

use crate::lanes::bit_of;
use bs_bits::{Bits, List, NoMemory};
use std::alloc::Global;

/// By what a hash is multiplied for each bit: the multiplier of Knuth's generator of 64 bits.
pub const HASH_FACTOR: u64 = 6_364_136_223_846_793_005;

/// A hash with one bit more.
#[tactic(auto, unfolding(crate::specs::Hashes::hash_more))]
pub fn hash_more(hash: u64, bit: bool) -> u64
    ensures { result ≡ hash_more hash bit }
{
    let one = if bit { 1 } else { 0 };
    hash.wrapping_mul(HASH_FACTOR).wrapping_add(one)
}

/// The hash of a list of bits.
pub fn hash_of(bits: &Bits) -> u64
    ensures { result ≡ hash_of bits.now }
{
    let mut hash = 0;
    'bits: for i in 0..bits.len() {
        hash = hash_more(hash, bits.get(i));
    }
    hash
}

/// The hash of the first bits of a lane of planes.
pub fn lane_hash(planes: &[u64], wide: usize, lane: usize, count: usize) -> u64
    requires lane { lane < 64 * wide }
    requires size { length planes.now ≡ count * wide }
    ensures { result ≡ hash_of (lane_in wide count planes.now lane) }
{
    let mut hash = 0;
    'places: for i in 0..count {
        hash = hash_more(hash, bit_of(planes, i * wide + lane / 64, lane % 64));
    }
    hash
}

/// The hashes of the first bits of so many lanes.
pub fn lane_hashes(
    alloc: Global,
    planes: &[u64],
    wide: usize,
    count: usize,
    lanes: u32,
) -> Result<List<u64>, NoMemory>
    requires lanes { lanes ≤ 64 * wide }
    requires size { length planes.now ≡ count * wide }
    ensures { IfOk result (λ hashes. ListsEach (λ lane. hash_of (lane_in wide count planes.now lane)) hashes lanes) }
{
    let mut hashes = List::new(alloc);
    'lanes: for lane in 0..lanes {
        hashes.push(lane_hash(planes, wide, lane as usize, count))?;
    }
    Ok(hashes)
}
