//! The requests about the values of a simulator: `stimulus`, `check` and `dump`.
ghost use Rattle.std.specs.Prelude.{◌≡◌, ◌∷◌, map, option_map, IfOk};
ghost use Rattle.bs_bits.specs.Lines.{number_in};
ghost use Rattle.bs_top_words.specs.Asked.{given_in, setting_of};
ghost use Rattle.bs_inspect_words.specs.Asked.{shown_request};
ghost use Rattle.bs_inspect_usages.specs.Settings.{fit};
ghost use Rattle.bs_inspect_words.specs.Request.{are_runs, at_cycle, at_time, check_for, check_of, check_request, check_words, dump_flags, dump_of, dump_options, dump_request, dump_words, stimulus_for, stimulus_of, stimulus_request, stimulus_words, when_of};

use crate::named::copied;
use crate::request::{CheckRequest, DumpRequest, Request, StimulusRequest};
use bs_bits::{NoMemory, read_number};
use bs_inspect_usages::{fit, is_given, value_of};
use bs_stim::{MAX_CYCLES, MAX_RUNS};
use bs_top_words::{Flag, Given, Setting, number_between};
use bs_vcd::When;
use std::alloc::Global;

// ---- runs

/// Whether a stimulus may have so many runs.
fn are_runs(vcds: &[&str]) -> bool
    ensures { result ≡ are_runs (map (λ s. s.now) vcds.now) }
{
    0 < vcds.len() && vcds.len() <= MAX_RUNS as usize
}

/// The request of `stimulus` for a netlist.
#[tactic(auto, using(crate::proofs::RequestLemmas::runs_there, crate::proofs::RequestLemmas::runs_none))]
fn stimulus_for<'a>(
    alloc: Global,
    netlist: &'a str,
    vcds: &[&'a str],
    clock: &'a str,
    scope: Option<&'a str>,
    names: Option<&'a str>,
) -> Result<Option<Request<'a>>, NoMemory>
    ensures { IfOk result (λ request. shown_request request ≡ stimulus_for netlist.now (map (λ s. s.now) vcds.now) clock.now (option_map (λ s. s.now) scope.entry) (option_map (λ s. s.now) names.entry)) }
{
    if !are_runs(vcds) {
        return Ok(None);
    }
    let vcds = copied(alloc, vcds)?;
    Ok(Some(Request::Stimulus(StimulusRequest {
        netlist,
        vcds,
        clock,
        scope,
        names,
    })))
}

/// The request of `stimulus` by what its words say.
fn stimulus_at<'a>(
    alloc: Global,
    positions: &[&'a str],
    clock: Option<&'a str>,
    scope: Option<&'a str>,
    names: Option<&'a str>,
) -> Result<Option<Request<'a>>, NoMemory>
    ensures { IfOk result (λ request. shown_request request ≡ stimulus_of (map (λ s. s.now) positions.now) (option_map (λ s. s.now) clock.entry) (option_map (λ s. s.now) scope.entry) (option_map (λ s. s.now) names.entry)) }
{
    match (positions, clock) {
        ([netlist, vcds @ ..], Some(clock)) => {
            stimulus_for(alloc, netlist, vcds, clock, scope, names)
        }
        _ => Ok(None),
    }
}

/// The request of `stimulus` by its words by position and its options.
fn stimulus_words<'a>(
    alloc: Global,
    positions: &[&'a str],
    settings: &[Setting<'a>],
) -> Result<Option<Request<'a>>, NoMemory>
    ensures { IfOk result (λ request. shown_request request ≡ stimulus_words (map (λ s. s.now) positions.now) (map setting_of settings.now)) }
{
    if !fit(&[Flag::Clock, Flag::Scope, Flag::Map], settings) {
        return Ok(None);
    }
    let clock = value_of(Flag::Clock, settings);
    let scope = value_of(Flag::Scope, settings);
    let names = value_of(Flag::Map, settings);
    stimulus_at(alloc, positions, clock, scope, names)
}

/// `stimulus`.
pub fn stimulus_request<'a>(
    alloc: Global,
    given: &Given<'a>,
) -> Result<Option<Request<'a>>, NoMemory>
    ensures { IfOk result (λ request. shown_request request ≡ stimulus_request (given_in given.now)) }
{
    let request = stimulus_words(alloc, &given.positions, &given.settings)?;
    Ok(request)
}

// ---- runs beside a simulation

/// The request of `check` for a netlist and recorded runs.
#[tactic(auto, using(crate::proofs::RequestLemmas::beside_there, crate::proofs::RequestLemmas::beside_none))]
fn check_for<'a>(
    alloc: Global,
    netlist: &'a str,
    runs: &'a str,
    vcds: &[&'a str],
    clock: Option<&'a str>,
    scope: Option<&'a str>,
    names: Option<&'a str>,
) -> Result<Option<Request<'a>>, NoMemory>
    ensures { IfOk result (λ request. shown_request request ≡ check_for netlist.now runs.now (map (λ s. s.now) vcds.now) (option_map (λ s. s.now) clock.entry) (option_map (λ s. s.now) scope.entry) (option_map (λ s. s.now) names.entry)) }
{
    if !are_runs(vcds) {
        return Ok(None);
    }
    let vcds = copied(alloc, vcds)?;
    Ok(Some(Request::Check(CheckRequest {
        netlist,
        runs,
        vcds,
        clock,
        scope,
        names,
    })))
}

/// The request of `check` by what its words say.
fn check_at<'a>(
    alloc: Global,
    positions: &[&'a str],
    clock: Option<&'a str>,
    scope: Option<&'a str>,
    names: Option<&'a str>,
) -> Result<Option<Request<'a>>, NoMemory>
    ensures { IfOk result (λ request. shown_request request ≡ check_of (map (λ s. s.now) positions.now) (option_map (λ s. s.now) clock.entry) (option_map (λ s. s.now) scope.entry) (option_map (λ s. s.now) names.entry)) }
{
    match positions {
        [netlist, runs, vcds @ ..] => check_for(alloc, netlist, runs, vcds, clock, scope, names),
        _ => Ok(None),
    }
}

/// The request of `check` by its words by position and its options.
fn check_words<'a>(
    alloc: Global,
    positions: &[&'a str],
    settings: &[Setting<'a>],
) -> Result<Option<Request<'a>>, NoMemory>
    ensures { IfOk result (λ request. shown_request request ≡ check_words (map (λ s. s.now) positions.now) (map setting_of settings.now)) }
{
    if !fit(&[Flag::Clock, Flag::Scope, Flag::Map], settings) {
        return Ok(None);
    }
    let clock = value_of(Flag::Clock, settings);
    let scope = value_of(Flag::Scope, settings);
    let names = value_of(Flag::Map, settings);
    check_at(alloc, positions, clock, scope, names)
}

/// `check`.
pub fn check_request<'a>(alloc: Global, given: &Given<'a>) -> Result<Option<Request<'a>>, NoMemory>
    ensures { IfOk result (λ request. shown_request request ≡ check_request (given_in given.now)) }
{
    let request = check_words(alloc, &given.positions, &given.settings)?;
    Ok(request)
}

// ---- a dump

/// A time.
fn at_time(time: Option<u64>) -> Option<When>
    ensures { result ≡ at_time time }
{
    match time {
        Some(time) => Some(When::Time(time)),
        None => None,
    }
}

/// A cycle.
fn at_cycle(cycle: Option<u64>) -> Option<When>
    ensures { result ≡ at_cycle cycle }
{
    match cycle {
        Some(cycle) => Some(When::Cycle(cycle)),
        None => None,
    }
}

/// A time or a cycle.
fn when_of(time: Option<&str>, cycle: Option<&str>) -> Option<When>
    ensures { result ≡ when_of (option_map (λ s. s.now) time.entry) (option_map (λ s. s.now) cycle.entry) }
{
    match (time, cycle) {
        (None, None) => None,
        (Some(time), None) => at_time(read_number(time.as_bytes())),
        (None, Some(cycle)) => at_cycle(number_between(0, MAX_CYCLES as u64, cycle)),
        (Some(_), Some(_)) => None,
    }
}

/// The request of `dump` by what its words say.
fn dump_at<'a>(
    positions: &[&'a str],
    at: Option<When>,
    settings: &[Setting<'a>],
) -> Option<Request<'a>>
    ensures { shown_request result ≡ dump_of (map (λ s. s.now) positions.now) at (dump_options (map setting_of settings.now)) }
{
    match (positions, at) {
        ([netlist, vcd], Some(at)) => Some(Request::Dump(DumpRequest {
            netlist,
            vcd,
            at,
            clock: value_of(Flag::Clock, settings),
            scope: value_of(Flag::Scope, settings),
            names: value_of(Flag::Map, settings),
            signature: value_of(Flag::Signature, settings),
            partial: is_given(Flag::Partial, settings),
        })),
        _ => None,
    }
}

/// Whether each option is one of `dump`, and comes at most once.
fn are_of_dump(settings: &[Setting<'_>]) -> bool
    ensures { result ≡ fit dump_flags (map setting_of settings.now) }
{
    let flags = [
        Flag::Time,
        Flag::Cycle,
        Flag::Clock,
        Flag::Scope,
        Flag::Map,
        Flag::Signature,
        Flag::Partial,
    ];
    fit(&flags, settings)
}

/// The request of `dump` by its words by position and its options.
fn dump_words<'a>(positions: &[&'a str], settings: &[Setting<'a>]) -> Option<Request<'a>>
    ensures { shown_request result ≡ dump_words (map (λ s. s.now) positions.now) (map setting_of settings.now) }
{
    if !are_of_dump(settings) {
        return None;
    }
    let time = value_of(Flag::Time, settings);
    let cycle = value_of(Flag::Cycle, settings);
    dump_at(positions, when_of(time, cycle), settings)
}

/// `dump`.
pub fn dump_request<'a>(given: &Given<'a>) -> Option<Request<'a>>
    ensures { shown_request result ≡ dump_request (given_in given.now) }
{
    dump_words(&given.positions, &given.settings)
}
