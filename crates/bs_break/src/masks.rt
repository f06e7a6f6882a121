//! Masks of runs, a bit a run, and what planes leave of them.
ghost use Rattle.std.specs.Prelude.{◌<◌, ◌≤◌, ◌*◌, length, map, All};
ghost use Rattle.bs_break.specs.Masks.{IsCut, Agrees, IsUnion};

use bs_bits::Bits;
use bs_scan::HasState;

/// The runs of a mask at which a word of a plane shows a bit.
fn cut(mask: u64, word: u64, bit: bool) -> u64
    ensures { IsCut mask word bit result }
{
    if bit { mask & word } else { mask & !word }
}

/// The runs of a mask, of one word of the planes, that show the bits of a state at some places. Each plane has `wide`
/// words.
pub fn agreeing(
    planes: &[u64],
    wide: usize,
    word: usize,
    places: &[usize],
    state: &Bits,
    mask: u64,
) -> u64
    requires word { word < wide }
    requires room { length state.now * wide ≤ length planes.now }
    requires places { All (λ place. place < length state.now) places.now }
    ensures { Agrees wide planes.now word places.now state.now mask result }
{
    let mut left = mask;
    'places: for i in 0..places.len() {
        if left == 0 {
            return 0;
        }
        let place = places[i];
        left = cut(left, planes[place * wide + word], state.get(place));
    }
    left
}

/// The runs of a mask that show the bits of one of the states at some places.
pub fn agreeing_with_one<S: HasState>(
    planes: &[u64],
    wide: usize,
    word: usize,
    places: &[usize],
    states: &[S],
    mask: u64,
) -> u64
    requires word { word < wide }
    requires room { All (λ listed. length (S.shown listed) * wide ≤ length planes.now) states.now }
    requires places { All (λ listed. All (λ place. place < length (S.shown listed)) places.now) states.now }
    ensures { IsUnion wide planes.now word places.now (map S.shown states.now) mask result }
{
    let mut hits = 0;
    'states: for i in 0..states.len() {
        hits |= agreeing(planes, wide, word, places, states[i].state(), mask);
    }
    hits
}
