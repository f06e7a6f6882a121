//! The runs whose state at a cycle has a signature, by the planes of the flip-flops alone: of each lane as many items are looked at
//! as agree, and one more.
ghost use Rattle.std.specs.Prelude.{◌≡◌, ◌<◌, ◌*◌, false, length, slice_index_or, MatchOption};
ghost use Rattle.bs_lanes.specs.Planes.{lane as lane_in};
ghost use Rattle.bs_scan.specs.Signature.{signature};
ghost use Rattle.bs_chip.specs.Alike.{shows_signature, IsNextShowing, NoneShowing};
ghost use Rattle.bs_chip.specs.Lockstep.{wide_of, ShowsCycle};
ghost use Rattle.bs_chip.specs.SignatureHashes.{recorded_by, IsNextAlike, NoneAlike};

use crate::inputs::has_bit;
use crate::lockstep::Pass;
use crate::parities::item_word;
use bs_bits::Bits;
use bs_scan::Choice;

/// The bit of an item in the signature of a lane.
fn item_bit(choice: &Choice, planes: &[u64], wide: usize, lane: usize, i: usize) -> bool
    requires lane { lane < 64 * wide }
    requires size { length planes.now ≡ choice.now.width * wide }
    requires item { i < length choice.now.items }
    ensures { result ≡ slice_index_or (signature choice.now (lane_in wide choice.now.width planes.now lane)) i false }
{
    let item = choice.item(i);
    let word = item_word(item.slice(), planes, wide, lane / 64);
    has_bit(word, lane % 64)
}

/// Whether a lane has a signature.
fn shows_signature(choice: &Choice, planes: &[u64], wide: usize, lane: usize, stored: &Bits) -> bool
    requires lane { lane < 64 * wide }
    requires size { length planes.now ≡ choice.now.width * wide }
    requires items { length stored.now ≡ length choice.now.items }
    ensures { result ≡ shows_signature choice.now planes.now wide stored.now lane }
{
    'items: for i in 0..stored.len() {
        if item_bit(choice, planes, wide, lane, i) != stored.get(i) {
            return false;
        }
    }
    true
}

/// The first run behind a number that lasts to a cycle and whose lane has a signature.
fn next_showing(
    pass: &Pass<'_>,
    choice: &Choice,
    planes: &[u64],
    stored: &Bits,
    cycle: u32,
    from: u32,
) -> Option<u32>
    requires size { length planes.now ≡ choice.now.width * wide_of (length pass.now.runs) }
    requires items { length stored.now ≡ length choice.now.items }
    ensures { MatchOption result (NoneShowing choice.now pass.now.runs planes.now stored.now cycle from (length pass.now.runs)) (IsNextShowing choice.now pass.now.runs planes.now stored.now cycle from) }
{
    let wide = pass.wide();
    'runs: for lane in from..pass.count() {
        if shows_signature(choice, planes, wide, lane as usize, stored)
            && cycle <= pass.cycles(lane + 1)
        {
            return Some(lane + 1);
        }
    }
    None
}

/// The first run behind a number that lasts to a cycle and whose state there has a signature. The planes show the cycle.
pub fn next_in(
    pass: &Pass<'_>,
    choice: &Choice,
    planes: &[u64],
    stored: &Bits,
    cycle: u32,
    from: u32,
) -> Option<u32>
    requires width { choice.now.width ≡ length pass.now.circuit.flops }
    requires items { length stored.now ≡ length choice.now.items }
    requires shows { ShowsCycle pass.now.circuit pass.now.runs planes.now cycle }
    ensures { MatchOption result (NoneAlike (recorded_by pass.now choice.now) stored.now cycle from (length pass.now.runs)) (IsNextAlike (recorded_by pass.now choice.now) stored.now cycle from) }
{
    let next = next_showing(pass, choice, planes, stored, cycle, from);
    next
}
