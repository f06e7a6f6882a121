//! The trace of a report, cycle by cycle.
ghost use Rattle.std.specs.Prelude.{◌≡◌, ◌<◌, ◌^◌, ◌++◌, length, map, All, IfOk, OnOk};
ghost use Rattle.bs_inspect_view.specs.Signals.{AreSignals, signal_in};
ghost use Rattle.bs_inspect_report.specs.Keys.{flop_keys, input_keys};
ghost use Rattle.bs_inspect_report.specs.Lines.{signals_in};
ghost use Rattle.bs_inspect_report.specs.Trace.{AreTraced, TellsTrace, trace_lines};

use crate::keys::{flop_keys, input_keys};
use crate::moment::push_shown;
use crate::named::Signals;
use crate::window::Window;
use bs_bits::NoMemory;
use bs_inspect_view::{Signal, signals};
use bs_net::Netlist;
use bs_report::Report;
use std::alloc::Global;

/// The signals of these names among keys, or of all keys where there are none.
#[tactic(auto, using(crate::proofs::SignalLemmas::few_places))]
fn named_signals<'a>(
    alloc: Global,
    keys: &[&'a str],
    only: &[&str],
) -> Result<Vec<Signal<'a>>, NoMemory>
    requires { length keys.now < 2 ^ 32 }
    ensures are { IfOk result (λ signals. AreSignals (map (λ s. s.now) only.now) (map (λ s. s.now) keys.now) (map signal_in signals.items)) }
    ensures few { IfOk result (λ signals. All (λ s. length s.places < 2 ^ 32) signals.items) }
{
    let signals = signals(alloc, keys, only)?;
    Ok(signals)
}

/// The signals of a netlist's flip-flops.
pub fn flop_signals<'a>(
    alloc: Global,
    net: &'a Netlist,
    only: &[&str],
) -> Result<Vec<Signal<'a>>, NoMemory>
    ensures are { IfOk result (λ signals. AreSignals (map (λ s. s.now) only.now) (flop_keys net.now.raw) (map signal_in signals.items)) }
    ensures few { IfOk result (λ signals. All (λ s. length s.places < 2 ^ 32) signals.items) }
{
    let keys = flop_keys(alloc, net)?;
    let signals = named_signals(alloc, keys.as_slice(), only)?;
    Ok(signals)
}

/// The signals of a netlist's data inputs.
pub fn input_signals<'a>(
    alloc: Global,
    net: &'a Netlist,
    only: &[&str],
) -> Result<Vec<Signal<'a>>, NoMemory>
    ensures are { IfOk result (λ signals. AreSignals (map (λ s. s.now) only.now) (input_keys net.now.raw) (map signal_in signals.items)) }
    ensures few { IfOk result (λ signals. All (λ s. length s.places < 2 ^ 32) signals.items) }
{
    let keys = input_keys(alloc, net)?;
    let signals = named_signals(alloc, keys.as_slice(), only)?;
    Ok(signals)
}

/// Appends the cycles of a trace that are in a window.
#[tactic(auto, using(bs_bits::proofs::RangeLemmas::places_step))]
fn push_trace(
    text: &mut Vec<u8>,
    report: &Report,
    signals: &Signals<'_>,
    all: bool,
    window: Window,
) -> Result<(), NoMemory>
    ensures { OnOk result (text.new.items ≡ text.old.items ++ trace_lines report.now (signals_in signals.now) all window) }
{
    'cycles: for i in 0..report.states.len() {
        push_shown(text, report, signals, all, window, i)?;
    }
    Ok(())
}

/// The signals of a trace: these of its states, and those of a netlist's data inputs.
fn with_inputs<'a>(
    alloc: Global,
    net: &'a Netlist,
    only: &[&str],
    flops: Vec<Signal<'a>>,
) -> Result<Signals<'a>, NoMemory>
    requires are { AreSignals (map (λ s. s.now) only.now) (flop_keys net.now.raw) (map signal_in flops.items) }
    requires few { All (λ s. length s.places < 2 ^ 32) flops.items }
    ensures { IfOk result (λ signals. AreTraced net.now.raw (map (λ s. s.now) only.now) (signals_in signals)) }
{
    match input_signals(alloc, net, only) {
        Ok(inputs) => Ok(Signals { flops, inputs }),
        Err(refused) => Err(refused),
    }
}

/// The signals of a trace.
pub(crate) fn trace_signals<'a>(
    alloc: Global,
    net: &'a Netlist,
    only: &[&str],
) -> Result<Signals<'a>, NoMemory>
    ensures { IfOk result (λ signals. AreTraced net.now.raw (map (λ s. s.now) only.now) (signals_in signals)) }
{
    match flop_signals(alloc, net, only) {
        Ok(flops) => with_inputs(alloc, net, only, flops),
        Err(refused) => Err(refused),
    }
}

/// The text of a trace with these signals.
fn text_of(
    alloc: Global,
    report: &Report,
    signals: &Signals<'_>,
    all: bool,
    window: Window,
) -> Result<Vec<u8>, NoMemory>
    ensures { IfOk result (λ text. text.items ≡ trace_lines report.now (signals_in signals.now) all window) }
{
    let mut text = Vec::new(alloc);
    push_trace(&mut text, report, signals, all, window)?;
    Ok(text)
}

/// The trace of a report with the names of a netlist, cycle by cycle: where the state comes from, and the flip-flops and data inputs that
/// changed (or all); of the cycles in a window. Bits of one vector stand together as one number. Where names are given, these alone.
pub fn trace_text(
    alloc: Global,
    net: &Netlist,
    report: &Report,
    all: bool,
    window: Window,
    only: &[&str],
) -> Result<Vec<u8>, NoMemory>
    ensures { IfOk result (λ text. TellsTrace net.now.raw report.now all window (map (λ s. s.now) only.now) text.items) }
{
    match trace_signals(alloc, net, only) {
        Ok(signals) => text_of(alloc, report, &signals, all, window),
        Err(refused) => Err(refused),
    }
}
