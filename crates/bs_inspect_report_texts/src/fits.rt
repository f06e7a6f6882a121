//! Whether a report fits a netlist.
ghost use Rattle.std.specs.Prelude.{◌≡◌, ◌==◌, ◌+◌, length, not, All, IfOk};
ghost use Rattle.std.specs.List.{position};
ghost use Rattle.bs_net.specs.Netlist.{circuit};
ghost use Rattle.bs_inspect_report_texts.specs.Fits.{fit_fault, list_fault, misfit, way_fault, width_fault};

use crate::leading::first_break;
use crate::listed::stray_of;
use crate::misfit::FitFault;
use bs_bits::{Bits, NoMemory};
use bs_net::Netlist;
use bs_report::Report;
use std::alloc::Global;

/// The place of the first of these that has another number of bits.
fn misfit(width: usize, lists: &[Bits]) -> Option<usize>
    ensures { result ≡ misfit width lists.now }
{
    lists.iter().position(|bits| bits.len() != width)
}

/// The first state of a report's trace, or else its first input, that has not a netlist's width.
#[tactic(auto, using(crate::proofs::FitLemmas::wide, crate::proofs::FitLemmas::other_state, crate::proofs::FitLemmas::other_input))]
fn width_fault(net: &Netlist, report: &Report) -> Option<FitFault>
    ensures { result ≡ width_fault net.now.raw report.now }
{
    if let Some(place) = misfit(net.width(), report.states.slice()) {
        return Some(FitFault::State(place));
    }
    if let Some(place) = misfit(net.data_inputs().len(), report.inputs.slice()) {
        return Some(FitFault::Input(place));
    }
    None
}

/// The first candidate of a report's first step that is stray, where the trace is one state alone.
fn list_fault(alloc: Global, net: &Netlist, report: &Report) -> Result<Option<FitFault>, NoMemory>
    ensures { IfOk result (λ fault. fault ≡ list_fault (circuit net.now) report.now) }
{
    match stray_of(alloc, net, report)? {
        Some(number) => Ok(Some(FitFault::Candidate(number))),
        None => Ok(None),
    }
}

/// The first state of a report's trace that does not lead to the one behind it, or else the first stray candidate.
#[tactic(auto, using(crate::proofs::FitLemmas::goes_on, crate::proofs::FitLemmas::goes_astray))]
fn way_fault(alloc: Global, net: &Netlist, report: &Report) -> Result<Option<FitFault>, NoMemory>
    requires more { length report.now.states ≡ length report.now.inputs + 1 }
    requires states { All (λ s. length s ≡ length (circuit net.now).flops) report.now.states }
    requires inputs { All (λ x. length x ≡ length (circuit net.now).inputs) report.now.inputs }
    ensures { IfOk result (λ fault. fault ≡ way_fault (circuit net.now) report.now) }
{
    match first_break(alloc, net, &report.states, &report.inputs)? {
        Some(place) => Ok(Some(FitFault::Astray(place))),
        None => {
            let fault = list_fault(alloc, net, report)?;
            Ok(fault)
        }
    }
}

/// Why a report does not fit a netlist, if it does not. It takes one pass over the gates for each moment of its trace, or for each
/// candidate of its first step where the trace is one state alone.
#[tactic(auto, using(crate::proofs::FitLemmas::way_states, crate::proofs::FitLemmas::way_inputs, crate::proofs::FitLemmas::fault_wide, crate::proofs::FitLemmas::fault_narrow))]
pub fn fit_fault(
    alloc: Global,
    net: &Netlist,
    report: &Report,
) -> Result<Option<FitFault>, NoMemory>
    requires { length report.now.states ≡ length report.now.inputs + 1 }
    ensures { IfOk result (λ fault. fault ≡ fit_fault net.now.raw report.now) }
{
    match width_fault(net, report) {
        Some(fault) => Ok(Some(fault)),
        None => {
            let fault = way_fault(alloc, net, report)?;
            Ok(fault)
        }
    }
}
