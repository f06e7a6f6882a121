//! The word of a state, and the size of a search, each with the word of its refusal.
ghost use Rattle.std.specs.Prelude.{◌≡◌, ◌*◌, ◌≤◌, [], length, nat_le, true, Some, IfOk, codes};
ghost use Rattle.std.specs.Bool.{OnTrue};
ghost use Rattle.bs_net.specs.Netlist.{circuit};
ghost use Rattle.bs_outside.specs.Plan.{exactly};
ghost use Rattle.bs_outside.specs.Walks.{Reads};
ghost use Rattle.bs_scan.specs.SeenText.{seen_of};
ghost use Rattle.bs_encode.specs.Transition.{variables};
ghost use Rattle.bs_reach_unrolled.specs.declared.limits.TheConstants.{MAX_FRAME_VARIABLES};
ghost use Rattle.bs_top_files.specs.Causes.{CheckSays, NoteSays};
ghost use Rattle.bs_note_calls.specs.Searches.{room_text};
ghost use Rattle.bs_outside.specs.Diagnostic.{noted, worded};
ghost use Rattle.bs_top_reach.specs.Target.{fitting, room_in, state_in};

use bs_bits::NoMemory;
use bs_net::Netlist;
use bs_note_calls::{room_note, state_note};
use bs_outside::{Refusal, Unread, both};
use bs_reach::size;
use bs_reach_unrolled::MAX_FRAME_VARIABLES;
use bs_scan::Seen;
use bs_top_files::worded;
use std::alloc::Global;

/// Bits that are a state of the netlist, known or not: one for each flip-flop.
fn fitting(alloc: Global, seen: Seen, net: &Netlist) -> Result<Seen, Refusal>
    ensures reads { Reads CheckSays (λ state. state) (fitting net.now.raw (exactly (codes "Width")) (Some seen)) result }
    ensures width { IfOk result (λ state. length state.bits ≡ length (circuit net.now).flops) }
{
    if seen.bits.len() == net.raw().flops.len() {
        Ok(seen)
    } else {
        Err(worded(alloc, b"Width"))
    }
}

/// The state of a word: a character 0 or 1 for each flip-flop, or `-` where it is not known.
fn read_state(alloc: Global, word: &str, net: &Netlist) -> Result<Seen, Refusal>
    ensures reads { Reads CheckSays (λ state. state) (fitting net.now.raw (exactly (codes "Width")) (seen_of word.now)) result }
    ensures width { IfOk result (λ state. length state.bits ≡ length (circuit net.now).flops) }
{
    match Seen::read_text(alloc, word.as_bytes())? {
        Some(seen) => fitting(alloc, seen, net),
        None => Err(worded(alloc, b"Width")),
    }
}

/// Whether so many time frames have few enough variables.
fn has_room(variables: u64, cycles: u64) -> bool
    ensures is { result ≡ nat_le (cycles * variables) MAX_FRAME_VARIABLES }
    ensures room { OnTrue result (cycles * variables ≤ MAX_FRAME_VARIABLES) }
{
    match cycles.checked_mul(variables) {
        Some(all) => all <= u64::from(MAX_FRAME_VARIABLES),
        None => false,
    }
}

/// The size of a search of so many cycles.
fn check_room(alloc: Global, net: &Netlist, cycles: u64) -> Result<(), Refusal>
    ensures reads { Reads CheckSays (λ _. true) (room_in net.now.raw cycles) result }
    ensures room { IfOk result (λ _. cycles * variables (circuit net.now) [] ≤ MAX_FRAME_VARIABLES) }
{
    if has_room(size(alloc, net)?, cycles) {
        Ok(())
    } else {
        Err(worded(alloc, b"TooLarge"))
    }
}

/// The state of a word, or the diagnostic of it.
#[tactic(auto, using(crate::proofs::SaidLemmas::state_words, crate::proofs::SaidLemmas::state_fails, crate::proofs::SaidLemmas::state_fits))]
pub fn state_or_diagnostic(alloc: Global, word: &str, net: &Netlist) -> Result<Seen, Unread>
    ensures words { Reads CheckSays (λ state. state) (state_in net.now.raw word.now) (worded result) }
    ensures note { Reads NoteSays (λ state. state) (state_in net.now.raw word.now) (noted result) }
    ensures width { IfOk result (λ state. length state.bits ≡ length (circuit net.now).flops) }
{
    match read_state(alloc, word, net) {
        Ok(state) => Ok(state),
        Err(words) => Err(both(words, state_note(alloc, word, net.raw().flops.len()))),
    }
}

/// The note on a search that is too large.
fn large_search_note(alloc: Global, net: &Netlist) -> Result<Vec<u8>, NoMemory>
    ensures { IfOk result (λ note. note.items ≡ room_text (variables (circuit net.now) [])) }
{
    room_note(alloc, size(alloc, net)?)
}

/// Whether a search of so many cycles is small enough, or the diagnostic of it.
#[tactic(auto, using(crate::proofs::SaidLemmas::room_words, crate::proofs::SaidLemmas::room_fails, crate::proofs::SaidLemmas::room_fits))]
pub fn room_or_diagnostic(alloc: Global, net: &Netlist, cycles: u64) -> Result<(), Unread>
    ensures words { Reads CheckSays (λ _. true) (room_in net.now.raw cycles) (worded result) }
    ensures note { Reads NoteSays (λ _. true) (room_in net.now.raw cycles) (noted result) }
    ensures room { IfOk result (λ _. cycles * variables (circuit net.now) [] ≤ MAX_FRAME_VARIABLES) }
{
    match check_room(alloc, net, cycles) {
        Ok(()) => Ok(()),
        Err(words) => Err(both(words, large_search_note(alloc, net))),
    }
}
