//! In how many known bits the state of each of 64 lanes differs from what is seen of a state.
ghost use Rattle.std.specs.Prelude.{◌≡◌, ◌<◌, ◌≤◌, ◌*◌, ◌/◌, length, replicate, IfOk};
ghost use Rattle.bs_net.specs.declared.limits.TheConstants.{MAX_FLOPS};
ghost use Rattle.bs_inspect_near.specs.Visited.{IsCount, ShowsPlace};

use crate::counters::{add, add_four, others};
use bs_bits::NoMemory;
use bs_scan::Seen;
use std::alloc::Global;

/// How many binary digits a counter has: it counts all flip-flops that a netlist may have.
pub const DIGITS: usize = 13;

/// So many words of zeros.
fn zeros(alloc: Global, count: usize) -> Result<Vec<u64>, NoMemory>
    ensures { IfOk result (λ words. words.items ≡ replicate count 0) }
{
    let words = vec![in alloc; 0; count]?;
    Ok(words)
}

/// The lanes of a word of the planes whose states differ at a place, none where its bit is not known.
#[tactic(auto, using(crate::proofs::CountLemmas::word_fits))]
fn others_at(planes: &[u64], wide: usize, word: usize, seen: &Seen, place: usize) -> u64
    requires word { word < wide }
    requires planes { length planes.now ≡ length seen.now.bits * wide }
    requires place { place < length seen.now.bits }
    ensures { ShowsPlace planes.now wide word seen.now place result }
{
    if seen.is_free(place) {
        return 0;
    }
    others(planes[place * wide + word], seen.bits.get(place))
}

/// Counts in each lane of a word of the planes the known bits that differ, of four places at once.
#[tactic(auto, using(crate::proofs::CountLemmas::fours_begin, crate::proofs::CountLemmas::fours_room, crate::proofs::CountLemmas::fours_all))]
fn count_fours(planes: &[u64], wide: usize, word: usize, seen: &Seen, digits: &mut Vec<u64>)
    requires word { word < wide }
    requires planes { length planes.now ≡ length seen.now.bits * wide }
    requires few { length seen.now.bits ≤ MAX_FLOPS }
    requires zeros { digits.old.items ≡ replicate DIGITS 0 }
    ensures { IsCount planes.now wide word seen.now (4 * (length seen.now.bits / 4)) digits.new.items }
{
    let fours = seen.bits.len() / 4;
    'fours: for k in 0..fours {
        let a = others_at(planes, wide, word, seen, 4 * k);
        let b = others_at(planes, wide, word, seen, 4 * k + 1);
        let c = others_at(planes, wide, word, seen, 4 * k + 2);
        let d = others_at(planes, wide, word, seen, 4 * k + 3);
        add_four(digits, a, b, c, d);
    }
}

/// Counts in each lane of a word of the planes the known bits that differ behind those of four places.
#[tactic(auto, using(crate::proofs::CountLemmas::rest_begin, crate::proofs::CountLemmas::count_more, crate::proofs::CountLemmas::count_all))]
fn count_rest(planes: &[u64], wide: usize, word: usize, seen: &Seen, digits: &mut Vec<u64>)
    requires word { word < wide }
    requires planes { length planes.now ≡ length seen.now.bits * wide }
    requires few { length seen.now.bits ≤ MAX_FLOPS }
    requires fours { IsCount planes.now wide word seen.now (4 * (length seen.now.bits / 4)) digits.old.items }
    ensures { IsCount planes.now wide word seen.now (length seen.now.bits) digits.new.items }
{
    let start = 4 * (seen.bits.len() / 4);
    'places: for i in start..seen.bits.len() {
        add(digits, others_at(planes, wide, word, seen, i));
    }
}

/// The counters of each lane of a word of the planes: in how many known bits its state differs from what is seen of a state.
pub(crate) fn count_word(
    alloc: Global,
    planes: &[u64],
    wide: usize,
    word: usize,
    seen: &Seen,
) -> Result<Vec<u64>, NoMemory>
    requires word { word < wide }
    requires planes { length planes.now ≡ length seen.now.bits * wide }
    requires few { length seen.now.bits ≤ MAX_FLOPS }
    ensures { IfOk result (λ digits. IsCount planes.now wide word seen.now (length seen.now.bits) digits.items) }
{
    let mut digits = zeros(alloc, DIGITS)?;
    count_fours(planes, wide, word, seen, &mut digits);
    count_rest(planes, wide, word, seen, &mut digits);
    Ok(digits)
}
