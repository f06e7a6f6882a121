//! The text of what is near to what is seen of a state.
ghost use Rattle.std.specs.Prelude.{◌≡◌, ◌<◌, ◌++◌, length, IfOk, OnOk};
ghost use Rattle.bs_net.specs.Circuit.{reset_state};
ghost use Rattle.bs_net.specs.Netlist.{circuit};
ghost use Rattle.bs_stim.specs.Runs.{inputs_of};
ghost use Rattle.bs_scan.specs.Seen.{known_count};
ghost use Rattle.bs_scan.specs.Moments.{state_of};
ghost use Rattle.bs_inspect_report.specs.Keys.{flop_keys as flop_keys_of};
ghost use Rattle.bs_inspect_near.specs.Hints.{AreHints, asked};
ghost use Rattle.bs_inspect_near.specs.Nearest.{AreNearest, IsNearest, moment_of};
ghost use Rattle.bs_inspect_near.specs.Tells.{differing_text, near_line, TellsNear, TellsOther};

use crate::hints::{Hints, hints_of};
use crate::moment::recorded_state;
use crate::search::{Near, nearest_each};
use crate::states::asked;
use crate::text::{push_differences, push_hints, push_near};
use bs_bits::NoMemory;
use bs_inspect_report::flop_keys;
use bs_net::Netlist;
use bs_scan::Seen;
use bs_stim::Runs;
use std::alloc::Global;

/// Appends what differs from the state of a moment.
#[tactic(auto, using(crate::proofs::NearLemmas::keys_wide, crate::proofs::NearLemmas::recorded_wide))]
fn push_state(
    text: &mut Vec<u8>,
    net: &Netlist,
    runs: &Runs,
    seen: &Seen,
    near: Near,
) -> Result<(), NoMemory>
    requires inputs { runs.now.width ≡ length (circuit net.now).inputs }
    requires size { length seen.now.bits ≡ length (circuit net.now).flops }
    requires nearest { IsNearest (circuit net.now) (inputs_of runs.now) seen.now near }
    ensures { OnOk result (text.new.items ≡ text.old.items ++ differing_text (flop_keys_of net.now.raw) (state_of (circuit net.now) (inputs_of runs.now) (moment_of near)) seen.now near.count) }
{
    let alloc = *text.allocator();
    let recorded = recorded_state(alloc, net, runs, near)?;
    let keys = flop_keys(alloc, net)?;
    push_differences(text, keys.as_slice(), &recorded, seen, near.count)?;
    Ok(())
}

/// The text where no known bit differs.
fn same_text(alloc: Global, known: usize, near: Near) -> Result<Vec<u8>, NoMemory>
    ensures { IfOk result (λ text. text.items ≡ near_line known near) }
{
    let mut text = Vec::new(alloc);
    push_near(&mut text, known, near)?;
    Ok(text)
}

/// The text where some known bit differs, of so many that are known.
#[tactic(auto, using(crate::proofs::NearLemmas::tells_other, crate::proofs::NearLemmas::count_small))]
fn other_text(
    alloc: Global,
    net: &Netlist,
    runs: &Runs,
    seen: &Seen,
    known: usize,
    near: Near,
    hints: Hints,
) -> Result<Vec<u8>, NoMemory>
    requires inputs { runs.now.width ≡ length (circuit net.now).inputs }
    requires size { length seen.now.bits ≡ length (circuit net.now).flops }
    requires known { known ≡ known_count seen.now }
    requires nearest { IsNearest (circuit net.now) (inputs_of runs.now) seen.now near }
    requires hints { AreHints (circuit net.now) (inputs_of runs.now) seen.now hints }
    ensures { IfOk result (λ text. TellsOther net.now.raw (inputs_of runs.now) seen.now near text.items) }
{
    let _raw = net.raw();
    let mut text = Vec::new(alloc);
    push_near(&mut text, known, near)?;
    push_state(&mut text, net, runs, seen, near)?;
    push_hints(&mut text, known, near.count, hints)?;
    Ok(text)
}

/// The text by the nearest moments, of which the first is that of what is seen itself.
#[tactic(auto, using(crate::proofs::HintLemmas::asked_there, crate::proofs::HintLemmas::first_near, crate::proofs::NearLemmas::tells_same, crate::proofs::NearLemmas::tells_near))]
fn text_of(
    alloc: Global,
    net: &Netlist,
    runs: &Runs,
    seen: &Seen,
    nears: &[Near],
) -> Result<Vec<u8>, NoMemory>
    requires inputs { runs.now.width ≡ length (circuit net.now).inputs }
    requires size { length seen.now.bits ≡ length (circuit net.now).flops }
    requires nearest { AreNearest (circuit net.now) (inputs_of runs.now) (asked (reset_state (circuit net.now)) seen.now) nears.now }
    ensures { IfOk result (λ text. TellsNear net.now.raw (inputs_of runs.now) seen.now text.items) }
{
    let near = nears[0];
    let known = seen.known_count(alloc)?;
    if near.count == 0 {
        let text = same_text(alloc, known, near)?;
        return Ok(text);
    }
    let hints = hints_of(net, runs, seen, nears);
    let text = other_text(alloc, net, runs, seen, known, near, hints)?;
    Ok(text)
}

/// The text of the recorded moment whose state differs in the fewest known bits from what is seen of a state, of the first `MAX_PLACES`
/// flip-flops that differ, and of what that hints at. Runs are numbered from 1. The bits are in the order of the netlist's flip-flops.
#[tactic(auto, using(crate::proofs::HintLemmas::asked_nearest))]
pub fn near_text(
    alloc: Global,
    net: &Netlist,
    runs: &Runs,
    seen: &Seen,
) -> Result<Vec<u8>, NoMemory>
    requires inputs { runs.now.width ≡ length (circuit net.now).inputs }
    requires size { length seen.now.bits ≡ length (circuit net.now).flops }
    ensures { IfOk result (λ text. TellsNear net.now.raw (inputs_of runs.now) seen.now text.items) }
{
    let states = asked(alloc, net, seen)?;
    let nears = nearest_each(alloc, net, runs, &states)?;
    let text = text_of(alloc, net, runs, seen, nears.as_slice())?;
    Ok(text)
}
