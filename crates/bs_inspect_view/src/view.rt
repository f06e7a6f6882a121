//! The waveform of a trace.
ghost use Rattle.std.specs.Prelude.{◌≡◌, ◌++◌, map, OnOk, IfOk};
ghost use Rattle.bs_inspect_view.specs.Signals.{signal_in};
ghost use Rattle.bs_net.specs.Netlist.{circuit};
ghost use Rattle.bs_inspect_view.specs.Drawn.{asked_in};
ghost use Rattle.bs_inspect_view.specs.View.{IsDrawing, Views, view_lines};
ghost use Rattle.bs_wave.specs.Wave.{IsWayOf};

use crate::drawn::drawn_signals;
use crate::head::push_head;
use crate::moment::push_moments;
use crate::request::ViewRequest;
use crate::signal::Signal;
use bs_bits::{Bits, List, NoMemory};
use bs_net::Netlist;
use bs_wave::{Value, Wave};
use std::alloc::Global;

/// The text of signals over moments, with what is asked.
fn text_of(
    alloc: Global,
    asked: &ViewRequest<'_>,
    signals: &[Signal<'_>],
    moments: &List<List<Value>>,
) -> Result<Vec<u8>, NoMemory>
    ensures { IfOk result (λ text. text.items ≡ view_lines (asked_in asked.now) (map signal_in signals.now) moments.now) }
{
    let mut text = Vec::new(alloc);
    push_head(&mut text, asked.remarks, signals)?;
    push_moments(&mut text, signals, asked.from, asked.recorded, moments)?;
    Ok(text)
}

/// The text of a wave over the nets of a netlist.
fn text_over(
    alloc: Global,
    net: &Netlist,
    asked: &ViewRequest<'_>,
    wave: &Wave,
) -> Result<Vec<u8>, NoMemory>
    ensures { IfOk result (λ text. Views net.now.raw (asked_in asked.now) wave.now text.items) }
{
    match drawn_signals(alloc, net, asked) {
        Ok(signals) => text_of(alloc, asked, signals.as_slice(), &wave.moments),
        Err(refused) => Err(refused),
    }
}

/// The waveform of a trace as a value change dump for viewers, with what is asked: each net that is drawn at each moment of the trace, in
/// the scopes of its path, the bits of a vector as one variable, and after the first moment the values that change. It takes one pass
/// over the gates for each moment.
pub fn drawing(
    alloc: Global,
    net: &Netlist,
    states: &List<Bits>,
    inputs: &List<Bits>,
    asked: &ViewRequest<'_>,
) -> Result<Vec<u8>, NoMemory>
    requires { IsWayOf (circuit net.now) states.now inputs.now }
    ensures { IfOk result (λ text. IsDrawing net.now.raw (asked_in asked.now) states.now inputs.now text.items) }
{
    match Wave::of(alloc, net, states, inputs) {
        Ok(wave) => text_over(alloc, net, asked, &wave),
        Err(refused) => Err(refused),
    }
}
