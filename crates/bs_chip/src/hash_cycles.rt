//! Notes of the hashes of states: for each hash, the first cycle at which a state has it.
ghost use Rattle.std.specs.Prelude.{◌≡◌, ◌<◌, ◌≤◌, ◌+◌, ◌*◌, length, nat_eq, OnOk};
ghost use Rattle.std.specs.HashMap.{get, hash_map_len};
ghost use Rattle.std.specs.Option.{unwrap_or};
ghost use Rattle.bs_stim.specs.declared.limits.TheConstants.{MAX_CYCLES};
ghost use Rattle.bs_stim.specs.Runs.{inputs_of};
ghost use Rattle.bs_chip.specs.Index.{AddsLanes, AddsHash, HasBy, Keeps, NotesLanes};
ghost use Rattle.bs_chip.specs.Lockstep.{wide_of};

use crate::hashes::lane_hash;
use crate::lanes::wide_for;
use crate::live::cycles_of;
use bs_bits::NoMemory;
use bs_stim::Runs;
use std::collections::HashMap;

/// The cycle of a hash, or another where it has none.
pub fn cycle_of(first: &HashMap<u64, u32>, hash: u64, other: u32) -> u32
    ensures { result ≡ unwrap_or (get nat_eq first.now hash) other }
{
    first.get(&hash).copied().unwrap_or(other)
}

/// Notes that a state has a hash at a cycle.
fn note(first: &mut HashMap<u64, u32>, hash: u64, cycle: u32) -> Result<(), NoMemory>
    requires { cycle ≤ MAX_CYCLES }
    ensures keeps { Keeps first.old first.new }
    ensures notes { OnOk result (HasBy first.new hash cycle) }
    ensures adds { AddsHash first.old first.new hash cycle }
    ensures few { hash_map_len first.new ≤ hash_map_len first.old + 1 }
{
    if cycle_of(first, hash, cycle + 1) <= cycle {
        return Ok(());
    }
    first.insert(hash, cycle)?;
    Ok(())
}

/// Notes the hashes of all runs that last to a cycle, which planes of so many flip-flops show.
pub fn note_lanes(
    first: &mut HashMap<u64, u32>,
    runs: &Runs,
    planes: &[u64],
    width: usize,
    cycle: u32,
) -> Result<(), NoMemory>
    requires few { cycle ≤ MAX_CYCLES }
    requires size { length planes.now ≡ width * wide_of (length (inputs_of runs.now)) }
    ensures keeps { Keeps first.old first.new }
    ensures notes { OnOk result (NotesLanes (inputs_of runs.now) first.new planes.now width cycle (length (inputs_of runs.now))) }
    ensures adds { AddsLanes (inputs_of runs.now) first.old first.new planes.now width cycle (length (inputs_of runs.now)) }
    ensures few { hash_map_len first.new ≤ hash_map_len first.old + length (inputs_of runs.now) }
{
    let wide = wide_for(runs);
    'lanes: for lane in 0..runs.count() {
        if cycle <= cycles_of(runs, lane + 1) {
            let hash = lane_hash(planes, wide, lane as usize, width);
            note(first, hash, cycle)?;
        }
    }
    Ok(())
}
