//! The request of `page`.
ghost use Rattle.std.specs.Prelude.{◌≡◌, map, option_map, IfOk};
ghost use Rattle.bs_top_words.specs.Asked.{given_in, setting_of};
ghost use Rattle.bs_inspect_words.specs.Asked.{shown_request};
ghost use Rattle.bs_inspect_words.specs.Request.{page_of, page_request, page_words};

use crate::paged::PageRequest;
use crate::request::Request;
use bs_bits::NoMemory;
use bs_inspect_usages::{drawn_most, fit, value_of, values_of};
use bs_top_words::{Flag, Given, Setting};
use std::alloc::Global;

/// The request of `page` by what its words say.
fn page_at<'a>(
    positions: &[&'a str],
    most: Option<u64>,
    signature: Option<&'a str>,
    only: Vec<&'a str>,
) -> Option<Request<'a>>
    ensures { shown_request result ≡ page_of (map (λ s. s.now) positions.now) most (option_map (λ s. s.now) signature.entry) (map (λ s. s.now) only.entry.items) }
{
    match (positions, most) {
        ([netlist, report], Some(most)) => Some(Request::Page(PageRequest {
            netlist,
            report,
            signature,
            most,
            only,
        })),
        _ => None,
    }
}

/// The request of `page` by its words by position and its options.
#[tactic(auto, using(crate::proofs::RequestLemmas::page_told))]
fn page_words<'a>(
    alloc: Global,
    positions: &[&'a str],
    settings: &[Setting<'a>],
) -> Result<Option<Request<'a>>, NoMemory>
    ensures { IfOk result (λ request. shown_request request ≡ page_words (map (λ s. s.now) positions.now) (map setting_of settings.now)) }
{
    if !fit(&[Flag::Only, Flag::Most, Flag::Signature], settings) {
        return Ok(None);
    }
    let only = values_of(alloc, Flag::Only, settings)?;
    let most = drawn_most(value_of(Flag::Most, settings), only.len());
    let signature = value_of(Flag::Signature, settings);
    let request = page_at(positions, most, signature, only);
    Ok(request)
}

/// `page`.
pub fn page_request<'a>(alloc: Global, given: &Given<'a>) -> Result<Option<Request<'a>>, NoMemory>
    ensures { IfOk result (λ request. shown_request request ≡ page_request (given_in given.now)) }
{
    let request = page_words(alloc, &given.positions, &given.settings)?;
    Ok(request)
}
