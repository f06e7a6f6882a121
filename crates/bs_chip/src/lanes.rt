//! The lane of a run in planes, read bit by bit.
ghost use Rattle.std.specs.Prelude.{◌≡◌, ◌<◌, ◌≤◌, ◌+◌, ◌*◌, length, IsTrue};
ghost use Rattle.bs_stim.specs.Packing.{bit_in};
ghost use Rattle.bs_stim.specs.Runs.{inputs_of};
ghost use Rattle.bs_lanes.specs.Planes.{lane as lane_in};
ghost use Rattle.bs_lanes.specs.Lanes.{is_wide};
ghost use Rattle.bs_chip.specs.Lockstep.{wide_of};

use bs_bits::Bits;
use bs_stim::Runs;

/// How many words a plane of all runs has: 1, 2 or 4.
pub fn wide_for(runs: &Runs) -> usize
    ensures value { result ≡ wide_of (length (inputs_of runs.now)) }
    ensures room { length (inputs_of runs.now) ≤ 64 * result }
    ensures known { IsTrue (is_wide result) }
{
    let count = runs.count();
    if count <= 64 {
        1
    } else if count <= 128 {
        2
    } else {
        4
    }
}

/// A bit of a word.
pub fn bit_of(words: &[u64], at: usize, low: usize) -> bool
    requires word { at < length words.now }
    requires low { low < 64 }
    ensures { result ≡ bit_in words.now (at * 64 + low) }
{
    (words[at] >> low) & 1 == 1
}

/// Writes a lane of planes of so many words over a list of bits.
pub fn read_lane(planes: &[u64], wide: usize, lane: usize, into: &mut Bits)
    requires lane { lane < 64 * wide }
    requires size { length planes.now ≡ length into.old * wide }
    ensures { into.new ≡ lane_in wide (length into.old) planes.now lane }
{
    'places: for i in 0..into.len() {
        into.set(i, bit_of(planes, i * wide + lane / 64, lane % 64));
    }
}
