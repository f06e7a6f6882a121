//! The requests about a report: `trace`, `steps`, `candidates`, `wave` and `gtkw`.
ghost use Rattle.std.specs.Prelude.{◌≡◌, map, IfOk};
ghost use Rattle.bs_top_words.specs.Asked.{given_in, setting_of};
ghost use Rattle.bs_inspect_words.specs.Asked.{request_in, shown_request, trace_in};
ghost use Rattle.bs_inspect_words.specs.Request.{gtkw_of, gtkw_request, gtkw_words, lists_of, lists_request, lists_words, steps_for, steps_of, steps_request, steps_words, trace_for, trace_of, trace_request, trace_words, wave_of, wave_request, wave_words};

use crate::request::{GtkwRequest, ListsRequest, Request, TraceRequest, WaveRequest};
use bs_bits::NoMemory;
use bs_inspect_usages::{TraceWindow, fit, from_of, is_given, value_of, values_of, window_of};
use bs_top_words::{Flag, Given, Setting};
use std::alloc::Global;

// ---- the trace

/// A trace, as a table or not.
fn trace_for(csv: bool, asked: TraceRequest<'_>) -> Request<'_>
    ensures { request_in result ≡ trace_for csv (trace_in asked.entry) }
{
    if csv {
        Request::TraceTable(asked)
    } else {
        Request::Trace(asked)
    }
}

/// The request of `trace` by what its words say.
fn trace_at<'a>(
    positions: &[&'a str],
    csv: bool,
    all: bool,
    window: Option<TraceWindow>,
    only: Vec<&'a str>,
) -> Option<Request<'a>>
    ensures { shown_request result ≡ trace_of (map (λ s. s.now) positions.now) csv all window (map (λ s. s.now) only.entry.items) }
{
    match (positions, window) {
        ([netlist, report], Some(window)) => Some(trace_for(
            csv,
            TraceRequest {
                netlist,
                report,
                all,
                window,
                only,
            },
        )),
        _ => None,
    }
}

/// The request of `trace` by its words by position and its options.
#[tactic(auto, using(crate::proofs::RequestLemmas::trace_told))]
fn trace_words<'a>(
    alloc: Global,
    positions: &[&'a str],
    settings: &[Setting<'a>],
) -> Result<Option<Request<'a>>, NoMemory>
    ensures { IfOk result (λ request. shown_request request ≡ trace_words (map (λ s. s.now) positions.now) (map setting_of settings.now)) }
{
    let flags = [
        Flag::All,
        Flag::From,
        Flag::To,
        Flag::Last,
        Flag::Only,
        Flag::Csv,
    ];
    if !fit(&flags, settings) {
        return Ok(None);
    }
    let csv = is_given(Flag::Csv, settings);
    let all = is_given(Flag::All, settings);
    let window = window_of(settings);
    let only = values_of(alloc, Flag::Only, settings)?;
    let request = trace_at(positions, csv, all, window, only);
    Ok(request)
}

/// `trace`.
pub fn trace_request<'a>(alloc: Global, given: &Given<'a>) -> Result<Option<Request<'a>>, NoMemory>
    ensures { IfOk result (λ request. shown_request request ≡ trace_request (given_in given.now)) }
{
    let request = trace_words(alloc, &given.positions, &given.settings)?;
    Ok(request)
}

// ---- the steps

/// Steps, as a table or not.
fn steps_for(csv: bool, report: &str) -> Request<'_>
    ensures { request_in result ≡ steps_for csv report.now }
{
    if csv {
        Request::StepsTable(report)
    } else {
        Request::Steps(report)
    }
}

/// The request of `steps` by what its words say.
fn steps_at<'a>(positions: &[&'a str], csv: bool) -> Option<Request<'a>>
    ensures { shown_request result ≡ steps_of (map (λ s. s.now) positions.now) csv }
{
    match positions {
        [report] => Some(steps_for(csv, report)),
        _ => None,
    }
}

/// The request of `steps` by its words by position and its options.
fn steps_words<'a>(positions: &[&'a str], settings: &[Setting<'a>]) -> Option<Request<'a>>
    ensures { shown_request result ≡ steps_words (map (λ s. s.now) positions.now) (map setting_of settings.now) }
{
    if !fit(&[Flag::Csv], settings) {
        return None;
    }
    steps_at(positions, is_given(Flag::Csv, settings))
}

/// `steps`.
pub fn steps_request<'a>(given: &Given<'a>) -> Option<Request<'a>>
    ensures { shown_request result ≡ steps_request (given_in given.now) }
{
    steps_words(&given.positions, &given.settings)
}

// ---- the lists

/// The request of `candidates` by what its words say.
fn lists_at<'a>(positions: &[&'a str], only: Vec<&'a str>) -> Option<Request<'a>>
    ensures { shown_request result ≡ lists_of (map (λ s. s.now) positions.now) (map (λ s. s.now) only.entry.items) }
{
    match positions {
        [netlist, report] => Some(Request::Lists(ListsRequest {
            netlist,
            report,
            only,
        })),
        _ => None,
    }
}

/// The request of `candidates` by its words by position and its options.
#[tactic(auto, using(crate::proofs::RequestLemmas::lists_told))]
fn lists_words<'a>(
    alloc: Global,
    positions: &[&'a str],
    settings: &[Setting<'a>],
) -> Result<Option<Request<'a>>, NoMemory>
    ensures { IfOk result (λ request. shown_request request ≡ lists_words (map (λ s. s.now) positions.now) (map setting_of settings.now)) }
{
    if !fit(&[Flag::Only], settings) {
        return Ok(None);
    }
    let only = values_of(alloc, Flag::Only, settings)?;
    let request = lists_at(positions, only);
    Ok(request)
}

/// `candidates`.
pub fn lists_request<'a>(alloc: Global, given: &Given<'a>) -> Result<Option<Request<'a>>, NoMemory>
    ensures { IfOk result (λ request. shown_request request ≡ lists_request (given_in given.now)) }
{
    let request = lists_words(alloc, &given.positions, &given.settings)?;
    Ok(request)
}

// ---- the waveform

/// The request of `wave` by what its words say.
fn wave_at<'a>(
    positions: &[&'a str],
    from: Option<u64>,
    all: bool,
    only: Vec<&'a str>,
) -> Option<Request<'a>>
    ensures { shown_request result ≡ wave_of (map (λ s. s.now) positions.now) from all (map (λ s. s.now) only.entry.items) }
{
    match (positions, from) {
        ([netlist, report], Some(from)) => Some(Request::Wave(WaveRequest {
            netlist,
            report,
            all,
            from,
            only,
        })),
        _ => None,
    }
}

/// The request of `wave` by its words by position and its options.
#[tactic(auto, using(crate::proofs::RequestLemmas::wave_told))]
fn wave_words<'a>(
    alloc: Global,
    positions: &[&'a str],
    settings: &[Setting<'a>],
) -> Result<Option<Request<'a>>, NoMemory>
    ensures { IfOk result (λ request. shown_request request ≡ wave_words (map (λ s. s.now) positions.now) (map setting_of settings.now)) }
{
    if !fit(&[Flag::All, Flag::From, Flag::Only], settings) {
        return Ok(None);
    }
    let from = from_of(value_of(Flag::From, settings));
    let all = is_given(Flag::All, settings);
    let only = values_of(alloc, Flag::Only, settings)?;
    let request = wave_at(positions, from, all, only);
    Ok(request)
}

/// `wave`.
pub fn wave_request<'a>(alloc: Global, given: &Given<'a>) -> Result<Option<Request<'a>>, NoMemory>
    ensures { IfOk result (λ request. shown_request request ≡ wave_request (given_in given.now)) }
{
    let request = wave_words(alloc, &given.positions, &given.settings)?;
    Ok(request)
}

/// The request of `gtkw` by what its words say.
fn gtkw_at<'a>(
    positions: &[&'a str],
    from: Option<u64>,
    all: bool,
    only: Vec<&'a str>,
) -> Option<Request<'a>>
    ensures { shown_request result ≡ gtkw_of (map (λ s. s.now) positions.now) from all (map (λ s. s.now) only.entry.items) }
{
    match (positions, from) {
        ([netlist, report, wave], Some(from)) => Some(Request::Gtkw(GtkwRequest {
            netlist,
            report,
            wave,
            all,
            from,
            only,
        })),
        _ => None,
    }
}

/// The request of `gtkw` by its words by position and its options.
#[tactic(auto, using(crate::proofs::RequestLemmas::gtkw_told))]
fn gtkw_words<'a>(
    alloc: Global,
    positions: &[&'a str],
    settings: &[Setting<'a>],
) -> Result<Option<Request<'a>>, NoMemory>
    ensures { IfOk result (λ request. shown_request request ≡ gtkw_words (map (λ s. s.now) positions.now) (map setting_of settings.now)) }
{
    if !fit(&[Flag::All, Flag::From, Flag::Only], settings) {
        return Ok(None);
    }
    let from = from_of(value_of(Flag::From, settings));
    let all = is_given(Flag::All, settings);
    let only = values_of(alloc, Flag::Only, settings)?;
    let request = gtkw_at(positions, from, all, only);
    Ok(request)
}

/// `gtkw`.
pub fn gtkw_request<'a>(alloc: Global, given: &Given<'a>) -> Result<Option<Request<'a>>, NoMemory>
    ensures { IfOk result (λ request. shown_request request ≡ gtkw_request (given_in given.now)) }
{
    let request = gtkw_words(alloc, &given.positions, &given.settings)?;
    Ok(request)
}
