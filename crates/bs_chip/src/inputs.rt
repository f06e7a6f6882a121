//! The planes of the data inputs at a cycle: a word of 64 runs' bits at a time.
ghost use Rattle.std.specs.Prelude.{◌≡◌, ◌<◌, ◌≤◌, ◌+◌, ◌-◌, ◌*◌, [], false, length, min, slice_index_or};
ghost use Rattle.bs_stim.specs.Runs.{inputs_of};
ghost use Rattle.bs_scan.specs.Moments.{run_of};
ghost use Rattle.bs_break.specs.Masks.{has};
ghost use Rattle.bs_chip.specs.Inputs.{HasBit, HaveInputs, IsInputWord};
ghost use Rattle.bs_chip.specs.Live.{IsLiveWord};

use crate::live::Live;
use bs_stim::Runs;

/// A mask with one more bit, if it is wanted.
fn with_bit(mask: u64, bit: usize, wanted: bool) -> u64
    requires { bit < 64 }
    ensures { HasBit mask result bit wanted }
{
    if wanted { mask | (1 << bit) } else { mask }
}

/// Whether a mask has a bit.
pub fn has_bit(mask: u64, bit: usize) -> bool
    requires { bit < 64 }
    ensures { result ≡ has mask bit }
{
    (mask >> bit) & 1 == 1
}

/// How many lanes of a word belong to one of so many runs.
fn lanes_in(count: u32, word: usize) -> usize
    requires { word < 4 }
    ensures { result ≡ min (count - 64 * word) 64 }
{
    (count as usize).saturating_sub(64 * word).min(64)
}

/// The bit of a data input of a run at a cycle.
fn input_bit(runs: &Runs, run: u32, cycle: u32, place: usize) -> bool
    requires from_one { 1 ≤ run }
    requires there { run ≤ length (inputs_of runs.now) }
    requires recorded { cycle < length (run_of (inputs_of runs.now) run) }
    requires place { place < runs.now.width }
    ensures { result ≡ slice_index_or (slice_index_or (run_of (inputs_of runs.now) run) cycle []) place false }
{
    runs.bit(run, cycle, place)
}

/// The bits of a data input at a cycle, of the runs of a word that last to the next cycle.
fn input_word(runs: &Runs, live: u64, cycle: u32, word: usize, place: usize) -> u64
    requires word { word < 4 }
    requires live { IsLiveWord (inputs_of runs.now) (cycle + 1) word live }
    requires place { place < runs.now.width }
    ensures { IsInputWord (inputs_of runs.now) cycle word place result }
{
    let mut mask = 0;
    'bits: for bit in 0..lanes_in(runs.count(), word) {
        if has_bit(live, bit) {
            let run = (word * 64 + bit) as u32 + 1;
            mask = with_bit(mask, bit, input_bit(runs, run, cycle, place));
        }
    }
    mask
}

/// Writes the inputs of a cycle, of each run that lasts to the next one, into planes of so many words.
pub fn put_inputs(runs: &Runs, live: &Live<'_>, cycle: u32, wide: usize, planes: &mut Vec<u64>)
    requires live { live.now ≡ record { runs = inputs_of runs.now; cycle = cycle + 1 } }
    requires some { 1 ≤ wide }
    requires few { wide ≤ 4 }
    requires size { length planes.old.items ≡ runs.now.width * wide }
    ensures size { length planes.new.items ≡ length planes.old.items }
    ensures inputs { HaveInputs (inputs_of runs.now) cycle wide (length planes.old.items) planes.new.items }
{
    'words: for at in 0..planes.len() {
        let word = at % wide;
        planes[at] = input_word(runs, live.word(word), cycle, word, at / wide);
    }
}
