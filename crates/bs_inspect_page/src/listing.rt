//! The flip-flops that are shown of a list.
ghost use Rattle.std.specs.Prelude.{◌≡◌, ◌==◌, ◌||◌, ◌<◌, ◌^◌, length, map, filter, All, IfOk};
ghost use Rattle.bs_inspect_view.specs.Signals.{signal_in};
ghost use Rattle.bs_inspect_page.specs.Last.{has_open};
ghost use Rattle.bs_inspect_report.specs.Steps.{differing_bits};
ghost use Rattle.bs_inspect_page.specs.Page.{AreListed, asked_in, is_listed, listed_of};

use crate::drawn::keep_first;
use crate::options::PageOptions;
use bs_bits::{Bits, NoMemory};
use bs_inspect_report::{bit_at, differing_bits, flop_signals};
use bs_inspect_view::{Signal, is_nameless};
use bs_net::Netlist;
use bs_report::Step;
use std::alloc::Global;

/// Whether a bit of a signal is open.
fn has_open(differing: &Bits, places: &[u32]) -> bool
    ensures { result ≡ has_open differing.now places.now }
{
    places
        .iter()
        .any(|place| bit_at(differing, *place as usize))
}

/// Whether a signal with these places is shown: candidates differ at it, or there is but one.
fn is_shown(alone: bool, differing: &Bits, places: &[u32]) -> bool
    ensures { result ≡ alone || has_open differing.now places.now }
{
    alone || has_open(differing, places)
}

/// Whether a signal is shown.
fn is_listed(asked: &PageOptions<'_>, alone: bool, differing: &Bits, signal: &Signal<'_>) -> bool
    ensures { result ≡ is_listed (asked_in asked.now) alone differing.now (signal_in signal.now) }
{
    !asked.only.is_empty()
        || (!is_nameless(signal.base) && is_shown(alone, differing, signal.places.slice()))
}

/// Leaves the signals that are shown.
fn keep_listed(
    asked: &PageOptions<'_>,
    alone: bool,
    differing: &Bits,
    signals: &mut Vec<Signal<'_>>,
)
    requires { All (λ s. length s.places < 2 ^ 32) signals.old.items }
    ensures are { map signal_in signals.new.items ≡ filter (is_listed (asked_in asked.now) alone differing.now) (map signal_in signals.old.items) }
    ensures few { All (λ s. length s.places < 2 ^ 32) signals.new.items }
{
    signals.retain(|signal| is_listed(asked, alone, differing, signal));
}

/// Leaves the first of the signals that are shown of a list.
fn keep_first_listed(
    asked: &PageOptions<'_>,
    step: &Step,
    differing: &Bits,
    signals: &mut Vec<Signal<'_>>,
)
    requires few { All (λ s. length s.places < 2 ^ 32) signals.old.items }
    requires differ { differing.now ≡ differing_bits step.now.cands }
    ensures are { map signal_in signals.new.items ≡ listed_of (asked_in asked.now) step.now (map signal_in signals.old.items) }
    ensures few { All (λ s. length s.places < 2 ^ 32) signals.new.items }
{
    keep_listed(asked, step.cands.len() == 1, differing, signals);
    keep_first(asked.most, signals);
}

/// The flip-flops that are shown, where candidates differ at these.
fn listed_at<'a>(
    alloc: Global,
    net: &'a Netlist,
    asked: &PageOptions<'_>,
    step: &Step,
    differing: &Bits,
) -> Result<Vec<Signal<'a>>, NoMemory>
    requires { differing.now ≡ differing_bits step.now.cands }
    ensures are { IfOk result (λ signals. AreListed net.now.raw (asked_in asked.now) step.now (map signal_in signals.items)) }
    ensures few { IfOk result (λ signals. All (λ s. length s.places < 2 ^ 32) signals.items) }
{
    let mut signals = flop_signals(alloc, net, asked.only)?;
    keep_first_listed(asked, step, differing, &mut signals);
    Ok(signals)
}

/// The flip-flops that are shown.
pub(crate) fn listed_flops<'a>(
    alloc: Global,
    net: &'a Netlist,
    asked: &PageOptions<'_>,
    step: &Step,
) -> Result<Vec<Signal<'a>>, NoMemory>
    ensures are { IfOk result (λ signals. AreListed net.now.raw (asked_in asked.now) step.now (map signal_in signals.items)) }
    ensures few { IfOk result (λ signals. All (λ s. length s.places < 2 ^ 32) signals.items) }
{
    match differing_bits(alloc, step.cands.slice()) {
        Ok(differing) => listed_at(alloc, net, asked, step, &differing),
        Err(refused) => Err(refused),
    }
}
