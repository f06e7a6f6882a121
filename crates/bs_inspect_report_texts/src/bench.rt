//! The test bench of a report's trace.
ghost use Rattle.std.specs.Prelude.{◌≡◌, ◌<◌, ◌+◌, length, map, All, IfOk};
ghost use Rattle.bs_net.specs.Netlist.{circuit, parts_of};
ghost use Rattle.bs_net.specs.Parts.{key_at};
ghost use Rattle.bs_net_names.specs.Keys.{parts_in};
ghost use Rattle.bs_inspect_view.specs.Signals.{signal_in};
ghost use Rattle.bs_stim.specs.Runs.{inputs_of};
ghost use Rattle.bs_inspect_report_texts.specs.Bench.{BenchAnswers, Drives, clock_parts};
ghost use Rattle.bs_inspect_report_texts.specs.Driven.{IsThere, begin_of as begin_in, driven as driven_by};
ghost use Rattle.bs_inspect_report_texts.specs.Text.{bench_lines};

use crate::begin::{begin_of, cycles_before, is_there};
use crate::cycle::push_cycles;
use crate::drive::driven;
use crate::fault::{Bench, BenchFault};
use crate::head::{push_head, push_tail};
use crate::way::first_astray;
use bs_bits::{Bits, List, NoMemory};
use bs_inspect_report::input_signals;
use bs_inspect_view::Signal;
use bs_net::{NetId, Netlist, Raw};
use bs_net_names::{KeyParts, key_parts};
use bs_report::Report;
use bs_scan::Moment;
use bs_stim::Runs;
use std::alloc::Global;

/// The key of a net.
#[tactic(auto, using(crate::proofs::TextLemmas::key_is))]
fn key_of(raw: &Raw, net: NetId) -> &str
    requires { net.0 < length raw.now.names }
    ensures { result.now ≡ key_at (parts_of raw.now) net.0 }
{
    raw.names.key(net)
}

/// What the clock's key says.
fn clock_parts(net: &Netlist) -> KeyParts<'_>
    ensures { parts_in result ≡ clock_parts net.now.raw }
{
    let raw = net.raw();
    let clock = net.clock();
    key_parts(key_of(raw, clock).as_bytes())
}

/// The text of a bench with these ports.
fn lines_of(
    alloc: Global,
    top: &[u8],
    clock: KeyParts<'_>,
    signals: &[Signal<'_>],
    inputs: &List<Bits>,
) -> Result<Vec<u8>, NoMemory>
    ensures { IfOk result (λ text. text.items ≡ bench_lines top.now (parts_in clock.entry) (map signal_in signals.now) inputs.now) }
{
    let mut text = Vec::new(alloc);
    push_head(&mut text, top, clock, signals)?;
    push_cycles(&mut text, clock, signals, inputs)?;
    push_tail(&mut text, inputs.len())?;
    Ok(text)
}

/// The text of a bench that drives these inputs.
#[tactic(auto, using(crate::proofs::TextLemmas::drives_by))]
fn text_of(
    alloc: Global,
    net: &Netlist,
    top: &[u8],
    inputs: &List<Bits>,
) -> Result<Vec<u8>, NoMemory>
    ensures { IfOk result (λ text. Drives net.now.raw top.now inputs.now text.items) }
{
    let clock = clock_parts(net);
    match input_signals(alloc, net, &[]) {
        Ok(signals) => {
            let text = lines_of(alloc, top, clock, signals.as_slice(), inputs);
            drop(signals);
            text
        }
        Err(refused) => Err(refused),
    }
}

/// The bench that drives these inputs, if the netlist goes through the trace under them.
#[tactic(auto, using(crate::proofs::WayLemmas::long_is, crate::proofs::WayLemmas::bench_is, crate::proofs::WayLemmas::strays_at))]
fn bench_by(
    alloc: Global,
    net: &Netlist,
    _runs: &Runs,
    report: &Report,
    top: &[u8],
    begin: Option<Moment>,
    inputs: &List<Bits>,
) -> Result<Bench, NoMemory>
    requires more { length report.now.states ≡ length report.now.inputs + 1 }
    requires widths { All (λ x. length x ≡ length (circuit net.now).inputs) inputs.now }
    requires begin { begin ≡ begin_in report.now }
    requires there { IsThere (inputs_of _runs.now) begin }
    requires driven { inputs.now ≡ driven_by (inputs_of _runs.now) report.now }
    ensures { IfOk result (BenchAnswers net.now.raw (inputs_of _runs.now) report.now top.now) }
{
    let cycles = cycles_before(begin);
    match first_astray(alloc, net, inputs, cycles, &report.states)? {
        Some(place) => Ok(Bench::Refused(BenchFault::State(place))),
        None => {
            let text = text_of(alloc, net, top, inputs)?;
            Ok(Bench::Text(text))
        }
    }
}

/// The bench of a trace whose first moment the runs have.
#[tactic(auto, using(crate::proofs::DriveLemmas::driven_wide))]
fn bench_behind(
    alloc: Global,
    net: &Netlist,
    runs: &Runs,
    report: &Report,
    top: &[u8],
    begin: Option<Moment>,
) -> Result<Bench, NoMemory>
    requires runs { runs.now.width ≡ length (circuit net.now).inputs }
    requires more { length report.now.states ≡ length report.now.inputs + 1 }
    requires inputs { All (λ x. length x ≡ length (circuit net.now).inputs) report.now.inputs }
    requires begin { begin ≡ begin_in report.now }
    requires there { IsThere (inputs_of runs.now) begin }
    ensures { IfOk result (BenchAnswers net.now.raw (inputs_of runs.now) report.now top.now) }
{
    let _count = runs.count();
    match driven(alloc, runs, report, begin) {
        Ok(inputs) => {
            let bench = bench_by(alloc, net, runs, report, top, begin, &inputs);
            drop(inputs);
            bench
        }
        Err(refused) => Err(refused),
    }
}

/// A test bench of a report's trace: a module in Verilog that has the design of this name as `dut`, and drives its inputs cycle by cycle
/// from reset: those of the run that was hit, up to the trace's first state, and then the trace's. Or why there is none. It takes one pass
/// over the gates for each cycle, and a byte for each bit of an input.
#[tactic(auto, using(crate::proofs::WayLemmas::not_there))]
pub fn bench_of(
    alloc: Global,
    net: &Netlist,
    runs: &Runs,
    report: &Report,
    top: &[u8],
) -> Result<Bench, NoMemory>
    requires runs { runs.now.width ≡ length (circuit net.now).inputs }
    requires more { length report.now.states ≡ length report.now.inputs + 1 }
    requires inputs { All (λ x. length x ≡ length (circuit net.now).inputs) report.now.inputs }
    ensures { IfOk result (BenchAnswers net.now.raw (inputs_of runs.now) report.now top.now) }
{
    let begin = begin_of(report);
    if !is_there(runs, begin) {
        return Ok(Bench::Refused(BenchFault::Moment));
    }
    bench_behind(alloc, net, runs, report, top, begin)
}
