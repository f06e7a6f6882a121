//! The requests of commands without options: of names, of a netlist, and of a scan chain.
ghost use Rattle.std.specs.Prelude.{◌≡◌, ◌∷◌, map, option_map, IfOk};
ghost use Rattle.bs_top_words.specs.Asked.{given_in};
ghost use Rattle.bs_inspect_words.specs.Asked.{shown_request};
ghost use Rattle.bs_inspect_words.specs.Request.{alone, bare, bench_asked, bench_request, is_alone, keys_of, keys_request, name_of, named, only_name, near_of, near_request, seen_of, seen_request, unscan_of, unscan_request, Flops as FlopsOf, Help as HelpOf, Inputs as InputsOf, Stats as StatsOf, Version as VersionOf};

use crate::request::{BenchRequest, KeysRequest, NearRequest, Request, SeenRequest, UnscanRequest};
use bs_bits::NoMemory;
use bs_top_words::Given;
use std::alloc::Global;

/// The words by position of a command without options.
fn bare<'a, 'b>(given: &'b Given<'a>) -> Option<&'b [&'a str]>
    ensures { option_map (λ words. map (λ s. s.now) words.now) result ≡ bare (given_in given.now) }
{
    if given.settings.is_empty() {
        Some(given.positions.as_slice())
    } else {
        None
    }
}

/// The one word of these.
fn name_of<'a>(words: &[&'a str]) -> Option<&'a str>
    ensures { option_map (λ s. s.now) result ≡ name_of (map (λ s. s.now) words.now) }
{
    match words {
        [name] => Some(name),
        _ => None,
    }
}

/// The one word by position of a command without options.
#[tactic(auto, using(crate::proofs::RequestLemmas::name_there, crate::proofs::RequestLemmas::name_none))]
fn only_name<'a>(given: &Given<'a>) -> Option<&'a str>
    ensures { option_map (λ s. s.now) result ≡ only_name (given_in given.now) }
{
    match bare(given) {
        Some(words) => name_of(words),
        None => None,
    }
}

/// Whether a command has neither words by position nor options.
fn is_alone(given: &Given<'_>) -> bool
    ensures { result ≡ is_alone (given_in given.now) }
{
    given.settings.is_empty() && given.positions.is_empty()
}

/// `help`.
pub fn help_request<'a>(given: &Given<'a>) -> Option<Request<'a>>
    ensures { shown_request result ≡ alone HelpOf (given_in given.now) }
{
    if is_alone(given) {
        Some(Request::Help)
    } else {
        None
    }
}

/// `version`.
pub fn version_request<'a>(given: &Given<'a>) -> Option<Request<'a>>
    ensures { shown_request result ≡ alone VersionOf (given_in given.now) }
{
    if is_alone(given) {
        Some(Request::Version)
    } else {
        None
    }
}

/// `flops`.
pub fn flops_request<'a>(given: &Given<'a>) -> Option<Request<'a>>
    ensures { shown_request result ≡ named (λ n. FlopsOf n) (given_in given.now) }
{
    match only_name(given) {
        Some(netlist) => Some(Request::Flops(netlist)),
        None => None,
    }
}

/// `inputs`.
pub fn inputs_request<'a>(given: &Given<'a>) -> Option<Request<'a>>
    ensures { shown_request result ≡ named (λ n. InputsOf n) (given_in given.now) }
{
    match only_name(given) {
        Some(netlist) => Some(Request::Inputs(netlist)),
        None => None,
    }
}

/// `stats`.
pub fn stats_request<'a>(given: &Given<'a>) -> Option<Request<'a>>
    ensures { shown_request result ≡ named (λ n. StatsOf n) (given_in given.now) }
{
    match only_name(given) {
        Some(netlist) => Some(Request::Stats(netlist)),
        None => None,
    }
}

/// Words that are copied.
pub fn copied<'a>(alloc: Global, words: &[&'a str]) -> Result<Vec<&'a str>, NoMemory>
    ensures { IfOk result (λ copy. map (λ s. s.now) copy.items ≡ map (λ s. s.now) words.now) }
{
    Ok(words.to_vec(alloc)?)
}

/// What `keys` asks by its words.
fn keys_of<'a>(alloc: Global, words: &[&'a str]) -> Result<Option<Request<'a>>, NoMemory>
    ensures { IfOk result (λ request. shown_request request ≡ keys_of (map (λ s. s.now) words.now)) }
{
    match words {
        [netlist, names @ ..] => keys_for(alloc, netlist, names),
        [] => Ok(None),
    }
}

/// What `keys` asks of a netlist.
#[tactic(auto, using(crate::proofs::RequestLemmas::keys_some, crate::proofs::RequestLemmas::keys_none))]
fn keys_for<'a>(
    alloc: Global,
    netlist: &'a str,
    words: &[&'a str],
) -> Result<Option<Request<'a>>, NoMemory>
    ensures { IfOk result (λ request. shown_request request ≡ keys_of (netlist.now ∷ map (λ s. s.now) words.now)) }
{
    if words.is_empty() {
        return Ok(None);
    }
    let names = copied(alloc, words)?;
    Ok(Some(Request::Keys(KeysRequest { netlist, names })))
}

/// `keys`.
#[tactic(auto, using(crate::proofs::RequestLemmas::keys_there, crate::proofs::RequestLemmas::keys_bare))]
pub fn keys_request<'a>(alloc: Global, given: &Given<'a>) -> Result<Option<Request<'a>>, NoMemory>
    ensures { IfOk result (λ request. shown_request request ≡ keys_request (given_in given.now)) }
{
    match bare(given) {
        Some(words) => keys_of(alloc, words),
        None => Ok(None),
    }
}

/// What `seen` asks by its words.
fn seen_of<'a>(alloc: Global, words: &[&'a str]) -> Result<Option<Request<'a>>, NoMemory>
    ensures { IfOk result (λ request. shown_request request ≡ seen_of (map (λ s. s.now) words.now)) }
{
    match words {
        [netlist, values @ ..] => seen_for(alloc, netlist, values),
        [] => Ok(None),
    }
}

/// What `seen` asks of a netlist.
#[tactic(auto, using(crate::proofs::RequestLemmas::seen_some, crate::proofs::RequestLemmas::seen_none))]
fn seen_for<'a>(
    alloc: Global,
    netlist: &'a str,
    words: &[&'a str],
) -> Result<Option<Request<'a>>, NoMemory>
    ensures { IfOk result (λ request. shown_request request ≡ seen_of (netlist.now ∷ map (λ s. s.now) words.now)) }
{
    if words.is_empty() {
        return Ok(None);
    }
    let values = copied(alloc, words)?;
    Ok(Some(Request::Seen(SeenRequest { netlist, values })))
}

/// `seen`.
#[tactic(auto, using(crate::proofs::RequestLemmas::seen_there, crate::proofs::RequestLemmas::seen_bare))]
pub fn seen_request<'a>(alloc: Global, given: &Given<'a>) -> Result<Option<Request<'a>>, NoMemory>
    ensures { IfOk result (λ request. shown_request request ≡ seen_request (given_in given.now)) }
{
    match bare(given) {
        Some(words) => seen_of(alloc, words),
        None => Ok(None),
    }
}

/// What `unscan` asks by its words.
fn unscan_of<'a>(words: &[&'a str]) -> Option<Request<'a>>
    ensures { shown_request result ≡ unscan_of (map (λ s. s.now) words.now) }
{
    match words {
        [netlist, order, pattern] => Some(Request::Unscan(UnscanRequest {
            netlist,
            order,
            pattern,
        })),
        _ => None,
    }
}

/// `unscan`.
#[tactic(auto, using(crate::proofs::RequestLemmas::unscan_there, crate::proofs::RequestLemmas::unscan_bare))]
pub fn unscan_request<'a>(given: &Given<'a>) -> Option<Request<'a>>
    ensures { shown_request result ≡ unscan_request (given_in given.now) }
{
    match bare(given) {
        Some(words) => unscan_of(words),
        None => None,
    }
}

/// What `near` asks by its words.
fn near_of<'a>(words: &[&'a str]) -> Option<Request<'a>>
    ensures { shown_request result ≡ near_of (map (λ s. s.now) words.now) }
{
    match words {
        [netlist, runs, dump] => Some(Request::Near(NearRequest {
            netlist,
            runs,
            dump,
        })),
        _ => None,
    }
}

/// What `bench` asks by its words.
fn bench_asked<'a>(words: &[&'a str]) -> Option<Request<'a>>
    ensures { shown_request result ≡ bench_asked (map (λ s. s.now) words.now) }
{
    match words {
        [netlist, runs, report, top] => Some(Request::Bench(BenchRequest {
            netlist,
            runs,
            report,
            top,
        })),
        _ => None,
    }
}

/// `near`.
#[tactic(auto, using(crate::proofs::RequestLemmas::near_there, crate::proofs::RequestLemmas::near_bare))]
pub fn near_request<'a>(given: &Given<'a>) -> Option<Request<'a>>
    ensures { shown_request result ≡ near_request (given_in given.now) }
{
    match bare(given) {
        Some(words) => near_of(words),
        None => None,
    }
}

/// `bench`.
#[tactic(auto, using(crate::proofs::RequestLemmas::bench_there, crate::proofs::RequestLemmas::bench_bare))]
pub fn bench_request<'a>(given: &Given<'a>) -> Option<Request<'a>>
    ensures { shown_request result ≡ bench_request (given_in given.now) }
{
    match bare(given) {
        Some(words) => bench_asked(words),
        None => None,
    }
}
