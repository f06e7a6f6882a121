//! Which lanes are looked at, and the words of a lane's flip-flops out of planes.
ghost use Rattle.std.specs.Prelude.{◌≡◌, ◌<◌, ◌*◌, ◌+◌, ◌&&◌, length, replicate, slice_index_or, IfOk};
ghost use Rattle.bs_stim.specs.Runs.{inputs_of};
ghost use Rattle.bs_inspect_near.specs.Shown.{is_viewed, IsColumn, IsMask};

use crate::run::ChosenRun;
use bs_bits::NoMemory;
use bs_lanes::put_bit;
use std::alloc::Global;

/// So many words of zeros.
pub(crate) fn zeros(alloc: Global, count: usize) -> Result<Vec<u64>, NoMemory>
    ensures { IfOk result (λ words. words.items ≡ replicate count 0) }
{
    let words = vec![in alloc; 0; count]?;
    Ok(words)
}

/// Whether a lane has a run that is not the one with a number, and lasts to a cycle.
#[tactic(auto, using(crate::proofs::MaskLemmas::viewed_none, crate::proofs::MaskLemmas::viewed_one))]
fn is_viewed(run: &ChosenRun<'_>, first: u32, cycle: u32, lane: u32) -> bool
    requires lane { lane < 64 }
    requires first { first < 1024 }
    ensures { result ≡ is_viewed (inputs_of run.now.runs.now) first run.now.number cycle lane }
{
    if first + lane >= run.runs.count() {
        return false;
    }
    let lasts = cycle <= run.runs.cycles(first + lane + 1);
    let differs = first + lane + 1 != run.number;
    differs && lasts
}

/// A mask of one word, made bit by bit.
#[tactic(auto, using(crate::proofs::MaskLemmas::mask_begin, crate::proofs::MaskLemmas::mask_put, crate::proofs::MaskLemmas::mask_made))]
fn put_lanes(run: &ChosenRun<'_>, first: u32, cycle: u32, words: &mut Vec<u64>)
    requires first { first < 1024 }
    requires one { length words.old.items ≡ 1 }
    ensures one { length words.new.items ≡ 1 }
    ensures mask { IsMask (inputs_of run.now.runs.now) first run.now.number cycle (slice_index_or words.new.items 0 0) }
{
    'lanes: for k in 0..64u32 {
        let viewed = is_viewed(run, first, cycle, k);
        put_bit(words.as_mut_slice(), 0, k as usize, viewed);
    }
}

/// The lanes that have a run that is not the one with a number, and lasts to a cycle.
pub(crate) fn mask_of(run: &ChosenRun<'_>, first: u32, cycle: u32) -> Result<u64, NoMemory>
    requires { first < 1024 }
    ensures { IfOk result (λ mask. IsMask (inputs_of run.now.runs.now) first run.now.number cycle mask) }
{
    let mut words = zeros(run.alloc, 1)?;
    put_lanes(run, first, cycle, &mut words);
    Ok(words[0])
}

/// Writes one word of each plane behind one another.
#[tactic(auto, using(crate::proofs::MaskLemmas::word_fits))]
pub(crate) fn put_column(planes: &[u64], wide: usize, word: usize, words: &mut Vec<u64>)
    requires word { word < wide }
    requires planes { length planes.now ≡ length words.old.items * wide }
    ensures size { length words.new.items ≡ length words.old.items }
    ensures column { IsColumn planes.now wide word words.new.items }
{
    'planes: for i in 0..words.len() {
        words[i] = planes[i * wide + word];
    }
}
