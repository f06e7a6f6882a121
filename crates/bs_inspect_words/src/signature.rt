//! The request of `signature`.
ghost use Rattle.std.specs.Prelude.{◌≡◌, ◌<◌, map, IfSome};
ghost use Rattle.bs_top_words.specs.Asked.{given_in, setting_of};
ghost use Rattle.bs_inspect_words.specs.Asked.{shown_request};
ghost use Rattle.bs_inspect_words.specs.Request.{signature_of, signature_request, signature_words};

use crate::proposed::SignatureRequest;
use crate::request::Request;
use bs_inspect_usages::{fit, items_in, value_of};
use bs_top_words::{Flag, Given, Setting};

/// The request of `signature` by what its words say.
fn signature_at<'a>(positions: &[&'a str], items: Option<u64>) -> Option<Request<'a>>
    requires { IfSome items (λ items. 0 < items) }
    ensures { shown_request result ≡ signature_of (map (λ s. s.now) positions.now) items }
{
    match (positions, items) {
        ([netlist, runs], Some(items)) => Some(Request::Signature(SignatureRequest {
            netlist,
            runs,
            items,
        })),
        _ => None,
    }
}

/// The request of `signature` by its words by position and its options.
fn signature_words<'a>(positions: &[&'a str], settings: &[Setting<'a>]) -> Option<Request<'a>>
    ensures { shown_request result ≡ signature_words (map (λ s. s.now) positions.now) (map setting_of settings.now) }
{
    if !fit(&[Flag::Bits], settings) {
        return None;
    }
    let items = items_in(value_of(Flag::Bits, settings));
    signature_at(positions, items)
}

/// `signature`.
pub fn signature_request<'a>(given: &Given<'a>) -> Option<Request<'a>>
    ensures { shown_request result ≡ signature_request (given_in given.now) }
{
    signature_words(&given.positions, &given.settings)
}
