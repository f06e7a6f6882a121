//! The answer whether a state is reached from reset in a bounded number of cycles.
ghost use Rattle.std.specs.Prelude.{◌≡◌, ◌≢◌, ◌*◌, ◌≤◌, [], length, IfOk, IfSome};
ghost use Rattle.bs_scan.specs.Seen.{Shows};
ghost use Rattle.bs_net.specs.Circuit.{reset_state};
ghost use Rattle.bs_net.specs.Netlist.{circuit};
ghost use Rattle.bs_encode.specs.Transition.{variables};
ghost use Rattle.bs_encode.specs.Encoded.{encoding_of};
ghost use Rattle.bs_reach_unrolled.specs.declared.limits.TheConstants.{MAX_FRAMES, MAX_FRAME_VARIABLES};
ghost use Rattle.bs_reach.specs.Reach.{IsReach};

use crate::answer::{at_reset, look_refuted, never};
use crate::reach::Reach;
use crate::shown::look_shown;
use crate::wider::look_wider;
use bs_clause::NoMemory;
use bs_encode::Encoding;
use bs_net::Netlist;
use bs_reach_unrolled::{Implied, implied_from};
use bs_scan::Seen;
use std::alloc::Global;

/// Lets the clauses of a cycle go.
fn let_go(_encoding: Encoding) {}

/// The answer where what follows from reset denies each length, or an execution of the first length is found that it does not deny.
fn look_denied(
    alloc: Global,
    net: &Netlist,
    encoding: &Encoding,
    implied: &Implied,
    state: &Seen,
    k: u32,
    b: u64,
) -> Result<Option<Reach>, NoMemory>
    requires encoded { encoding.now ≡ encoding_of (circuit net.now) [] }
    requires width { length state.now.bits ≡ length (circuit net.now).flops }
    requires some { 1 ≤ k }
    requires cycles { k ≤ MAX_FRAMES }
    requires room { k * variables (circuit net.now) [] ≤ MAX_FRAME_VARIABLES }
    requires limit { 1 ≤ b }
    requires other { Shows state.now (reset_state (circuit net.now)) → ⊥ }
    ensures { IfOk result (λ o. IfSome o (IsReach (circuit net.now) state.now k b)) }
{
    let denied = implied.len();
    if denied < k as usize {
        return look_shown(alloc, net, encoding, implied, state, denied as u32, k, b);
    }
    look_refuted(alloc, net, encoding, implied, state, k, b)
}

/// The same, and else the answer by a search over time frames.
fn look_implied(
    alloc: Global,
    net: &Netlist,
    encoding: &Encoding,
    implied: &Implied,
    state: &Seen,
    k: u32,
    b: u64,
) -> Result<Reach, NoMemory>
    requires encoded { encoding.now ≡ encoding_of (circuit net.now) [] }
    requires width { length state.now.bits ≡ length (circuit net.now).flops }
    requires some { 1 ≤ k }
    requires cycles { k ≤ MAX_FRAMES }
    requires room { k * variables (circuit net.now) [] ≤ MAX_FRAME_VARIABLES }
    requires limit { 1 ≤ b }
    requires other { Shows state.now (reset_state (circuit net.now)) → ⊥ }
    ensures { IfOk result (IsReach (circuit net.now) state.now k b) }
{
    match look_denied(alloc, net, encoding, implied, state, k, b)? {
        Some(reach) => Ok(reach),
        None => look_wider(alloc, net, encoding, implied, state, k, b),
    }
}

/// The answer by the clauses of a cycle.
fn look_by(
    alloc: Global,
    net: &Netlist,
    encoding: &Encoding,
    state: &Seen,
    k: u32,
    b: u64,
) -> Result<Reach, NoMemory>
    requires encoded { encoding.now ≡ encoding_of (circuit net.now) [] }
    requires width { length state.now.bits ≡ length (circuit net.now).flops }
    requires some { 1 ≤ k }
    requires cycles { k ≤ MAX_FRAMES }
    requires room { k * variables (circuit net.now) [] ≤ MAX_FRAME_VARIABLES }
    requires limit { 1 ≤ b }
    requires other { Shows state.now (reset_state (circuit net.now)) → ⊥ }
    ensures { IfOk result (IsReach (circuit net.now) state.now k b) }
{
    let found = implied_from(alloc, encoding, net.reset(), state, k)?;
    let reach = look_implied(alloc, net, encoding, &found, state, k, b)?;
    Ok(reach)
}

/// The answer for a bound of one cycle or more, where the state at reset does not show this one.
fn look(alloc: Global, net: &Netlist, state: &Seen, k: u32, b: u64) -> Result<Reach, NoMemory>
    requires width { length state.now.bits ≡ length (circuit net.now).flops }
    requires some { 1 ≤ k }
    requires cycles { k ≤ MAX_FRAMES }
    requires room { k * variables (circuit net.now) [] ≤ MAX_FRAME_VARIABLES }
    requires limit { 1 ≤ b }
    requires other { Shows state.now (reset_state (circuit net.now)) → ⊥ }
    ensures { IfOk result (IsReach (circuit net.now) state.now k b) }
{
    let encoding = Encoding::plain(alloc, net)?;
    let reach = look_by(alloc, net, &encoding, state, k, b);
    let_go(encoding);
    reach
}

/// Whether a state that shows this is reached from reset in at most `k` cycles, under any inputs: an execution of as few cycles as there
/// are, a log that refutes each length up to `k`, or the length whose solve logged `b` lemmas without an end. The state has a
/// bit for each flip-flop, and `k` times `size` is at most `MAX_FRAME_VARIABLES`.
pub fn bounded(
    alloc: Global,
    net: &Netlist,
    state: &Seen,
    k: u64,
    b: u64,
) -> Result<Reach, NoMemory>
    requires width { length state.now.bits ≡ length (circuit net.now).flops }
    requires cycles { k ≤ MAX_FRAMES }
    requires room { k * variables (circuit net.now) [] ≤ MAX_FRAME_VARIABLES }
    requires limit { 1 ≤ b }
    ensures { IfOk result (IsReach (circuit net.now) state.now k b) }
{
    let shown = state.is_shown(alloc, net.reset())?;
    if shown {
        return at_reset(alloc, net, state, k, b);
    }
    if k == 0 {
        return Ok(never(alloc, net, state, b));
    }
    look(alloc, net, state, k as u32, b)
}
