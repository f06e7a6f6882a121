//! The values of a signal that other runs have, each once.
ghost use Rattle.std.specs.Prelude.{◌≡◌, ◌<◌, ◌+◌, true, [], ◌∷◌, ◌++◌, length, IfOk, OnOk};
ghost use Rattle.bs_break.specs.Masks.{has};
ghost use Rattle.bs_lanes.specs.Planes.{lane as lane_in};
ghost use Rattle.bs_net.specs.Netlist.{circuit};
ghost use Rattle.bs_stim.specs.Runs.{inputs_of};
ghost use Rattle.bs_inspect_near.specs.Values.{AreElsewhere, state_bit};
ghost use Rattle.bs_inspect_near.specs.Shown.{Grows, IsFull, IsMask, ShowsWords, words_value};

use crate::novelty::MAX_VALUES;
use crate::run::{ChosenRun, Column};
use crate::unmatched_lanes::misses;
use bs_bits::{Bits, List, NoMemory};
use bs_lanes::lane_bit;
use std::alloc::Global;

/// The bit of a lane at a place, and 0 past the end.
#[tactic(auto, using(crate::proofs::ValueLemmas::bit_there, crate::proofs::ValueLemmas::bit_past))]
fn bit_of(words: &[u64], place: u32, lane: u32) -> bool
    requires { lane < 64 }
    ensures { result ≡ state_bit (lane_in 1 (length words.now) words.now lane) place }
{
    if (place as usize) < words.len() {
        lane_bit(words, 1, place as usize, lane as usize)
    } else {
        false
    }
}

/// The value of a signal in a lane.
fn value_of(alloc: Global, words: &[u64], places: &[u32], lane: u32) -> Result<Bits, NoMemory>
    requires { lane < 64 }
    ensures { IfOk result (λ bits. bits ≡ words_value places.now words.now lane) }
{
    let mut bits = Bits::new(alloc);
    'places: for place in places {
        bits.push(bit_of(words, *place, lane))?;
    }
    Ok(bits)
}

/// The lowest lane of a mask.
fn lowest(left: u64) -> u32
    requires { 0 < left }
    ensures small { result < 64 }
    ensures one { has left result ≡ true }
{
    left.trailing_zeros()
}

/// Puts the values at the end that lanes show and that are not there, until there are more than `MAX_VALUES`.
#[tactic(auto, using(crate::proofs::ValueLemmas::set_begin, crate::proofs::ValueLemmas::set_more, crate::proofs::ValueLemmas::set_full, crate::proofs::ValueLemmas::set_many, crate::proofs::ValueLemmas::set_wide, crate::proofs::ValueLemmas::set_elsewhere, crate::proofs::ValueLemmas::set_grows))]
pub(crate) fn add_values(
    run: &ChosenRun<'_>,
    column: &Column<'_>,
    places: &[u32],
    values: &mut List<Bits>,
) -> Result<(), NoMemory>
    requires shows { ShowsWords (circuit run.now.net.now) (inputs_of run.now.runs.now) column.now.first column.now.words.now column.now.cycle }
    requires mask { IsMask (inputs_of run.now.runs.now) column.now.first run.now.number column.now.cycle column.now.mask }
    requires elsewhere { AreElsewhere (circuit run.now.net.now) (inputs_of run.now.runs.now) run.now.number places.now values.old }
    ensures elsewhere { OnOk result (AreElsewhere (circuit run.now.net.now) (inputs_of run.now.runs.now) run.now.number places.now values.new) }
    ensures grows { OnOk result (Grows values.old values.new) }
    ensures full { OnOk result (IsFull column.now.words.now places.now column.now.mask values.new) }
{
    'values: for _ in 0..MAX_VALUES + 1 {
        let left = misses(column.words, places, values, column.mask);
        if left == 0 {
            return Ok(());
        }
        let value = value_of(run.alloc, column.words, places, lowest(left))?;
        values.push(value)?;
    }
    Ok(())
}
