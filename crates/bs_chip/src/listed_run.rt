//! The lowest run in a listed state at a cycle.
ghost use Rattle.std.specs.Prelude.{◌≡◌, ◌<◌, ◌≤◌, ◌+◌, ◌*◌, length, MatchOption};
ghost use Rattle.bs_chip.specs.Lockstep.{IsLowestHit, NoneHits};

use crate::live::Live;
use bs_break::Bank;
use bs_scan::HasState;

/// The lowest run of a word of the planes that lasts to the cycle and shows a listed state.
fn lowest_in_word<S: HasState>(
    live: &Live<'_>,
    bank: &Bank<'_, S>,
    planes: &[u64],
    wide: usize,
    word: usize,
) -> Option<u32>
    requires word { word < wide }
    requires few { wide ≤ 4 }
    requires size { length planes.now ≡ bank.now.width * wide }
    ensures { MatchOption result (NoneHits live.now bank.now wide planes.now (word * 64) (word * 64 + 64)) (IsLowestHit live.now bank.now wide planes.now (word * 64)) }
{
    let hits = bank.word_hits(planes, wide, word, live.word(word));
    if hits == 0 {
        None
    } else {
        Some((word * 64) as u32 + hits.trailing_zeros() + 1)
    }
}

/// The lowest run that lasts to the cycle and shows a listed state.
pub fn lowest_run<S: HasState>(
    live: &Live<'_>,
    bank: &Bank<'_, S>,
    planes: &[u64],
    wide: usize,
) -> Option<u32>
    requires few { wide ≤ 4 }
    requires size { length planes.now ≡ bank.now.width * wide }
    ensures { MatchOption result (NoneHits live.now bank.now wide planes.now 0 (wide * 64)) (IsLowestHit live.now bank.now wide planes.now 0) }
{
    'words: for word in 0..wide {
        if let Some(run) = lowest_in_word(live, bank, planes, wide, word) {
            return Some(run);
        }
    }
    None
}
