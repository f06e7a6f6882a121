//! The lanes that show a value of a signal which is none of a set.
ghost use Rattle.std.specs.Prelude.{◌≡◌, ◌<◌, length, All, slice_index_or};
ghost use Rattle.bs_break.specs.Masks.{IsCut};
ghost use Rattle.bs_inspect_near.specs.Shown.{Agrees, Misses};

use bs_bits::{Bits, List};

/// The word at a place, and 0 past the end.
#[tactic(auto, using(crate::proofs::LookLemmas::word_there, crate::proofs::LookLemmas::word_past))]
fn word_at(words: &[u64], place: u32) -> u64
    ensures { result ≡ slice_index_or words.now place 0 }
{
    if (place as usize) < words.len() {
        words[place as usize]
    } else {
        0
    }
}

/// The lanes of a mask at which a word shows a bit.
fn cut(mask: u64, word: u64, bit: bool) -> u64
    ensures { IsCut mask word bit result }
{
    if bit { mask & word } else { mask & !word }
}

/// The lanes of a mask that show a value of a signal.
fn agreeing(words: &[u64], places: &[u32], value: &Bits, mask: u64) -> u64
    requires { length value.now ≡ length places.now }
    ensures { Agrees words.now places.now value.now mask result }
{
    let mut left = mask;
    'places: for i in 0..places.len() {
        if left == 0 {
            return 0;
        }
        let place = places[i];
        left = cut(left, word_at(words, place), value.get(i));
    }
    left
}

/// The lanes of a mask whose value is none of these.
pub(crate) fn misses(words: &[u64], places: &[u32], values: &List<Bits>, mask: u64) -> u64
    requires wide { All (λ v. length v ≡ length places.now) values.now }
    ensures { Misses values.now words.now places.now mask result }
{
    let mut left = mask;
    'values: for i in 0..values.len() {
        let hits = agreeing(words, places, values.get(i), left);
        left = cut(left, hits, false);
    }
    left
}
