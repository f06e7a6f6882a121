//! The request of `why`.
ghost use Rattle.std.specs.Prelude.{◌≡◌, ◌≤◌, map, IfSome};
ghost use Rattle.bs_top_words.specs.Asked.{given_in, setting_of};
ghost use Rattle.bs_inspect_usages.specs.declared.numbers.TheConstants.{MAX_DEPTH};
ghost use Rattle.bs_inspect_words.specs.Asked.{shown_request};
ghost use Rattle.bs_inspect_words.specs.Request.{why_for, why_of, why_request, why_words};

use crate::causes::WhyRequest;
use crate::request::Request;
use bs_inspect_usages::{cycle_at, fit, is_given, layers, value_of};
use bs_top_words::{Flag, Given, Setting};

/// The request of `why` of a name, by its cycle and its layers.
fn why_for<'a>(
    netlist: &'a str,
    report: &'a str,
    name: &'a str,
    at: Option<Option<u64>>,
    depth: Option<u64>,
    flops: bool,
    all: bool,
    csv: bool,
) -> Option<Request<'a>>
    requires some { IfSome depth (λ depth. 1 ≤ depth) }
    requires few { IfSome depth (λ depth. depth ≤ MAX_DEPTH) }
    ensures { shown_request result ≡ why_for netlist.now report.now name.now at depth flops all csv }
{
    match (at, depth) {
        (Some(at), Some(depth)) => Some(Request::Why(WhyRequest {
            netlist,
            report,
            name,
            at,
            depth,
            flops,
            all,
            csv,
        })),
        _ => None,
    }
}

/// The request of `why` by what its words say.
fn why_at<'a>(
    positions: &[&'a str],
    at: Option<Option<u64>>,
    depth: Option<u64>,
    flops: bool,
    all: bool,
    csv: bool,
) -> Option<Request<'a>>
    requires some { IfSome depth (λ depth. 1 ≤ depth) }
    requires few { IfSome depth (λ depth. depth ≤ MAX_DEPTH) }
    ensures { shown_request result ≡ why_of (map (λ s. s.now) positions.now) at depth flops all csv }
{
    match positions {
        [netlist, report, name] => { why_for(netlist, report, name, at, depth, flops, all, csv) }
        _ => None,
    }
}

/// The request of `why` by its words by position and its options.
fn why_words<'a>(positions: &[&'a str], settings: &[Setting<'a>]) -> Option<Request<'a>>
    ensures { shown_request result ≡ why_words (map (λ s. s.now) positions.now) (map setting_of settings.now) }
{
    if !fit(
        &[Flag::At, Flag::Depth, Flag::Flops, Flag::All, Flag::Csv],
        settings,
    ) {
        return None;
    }
    why_at(
        positions,
        cycle_at(value_of(Flag::At, settings)),
        layers(value_of(Flag::Depth, settings)),
        is_given(Flag::Flops, settings),
        is_given(Flag::All, settings),
        is_given(Flag::Csv, settings),
    )
}

/// `why`.
pub fn why_request<'a>(given: &Given<'a>) -> Option<Request<'a>>
    ensures { shown_request result ≡ why_request (given_in given.now) }
{
    why_words(&given.positions, &given.settings)
}
