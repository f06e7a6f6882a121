//! The requests about a list of a report, or all of them: `cnf` and `lrat`.
ghost use Rattle.std.specs.Prelude.{◌≡◌, map, option_map};
ghost use Rattle.bs_top_words.specs.Asked.{given_in, setting_of};
ghost use Rattle.bs_inspect_words.specs.Asked.{evidence_in, shown_request};
ghost use Rattle.bs_inspect_words.specs.Request.{cnf_request, evidence_of, evidence_words, lrat_request};

use crate::request::{EvidenceRequest, Request};
use bs_inspect_usages::{fit, step_in, value_of};
use bs_top_words::{Flag, Given, Setting};

/// What is asked of lists by what the words say.
fn evidence_at<'a>(positions: &[&'a str], step: Option<Option<u64>>) -> Option<EvidenceRequest<'a>>
    ensures { option_map evidence_in result ≡ evidence_of (map (λ s. s.now) positions.now) step }
{
    match (positions, step) {
        ([netlist, signature, report], Some(step)) => Some(EvidenceRequest {
            netlist,
            signature,
            report,
            step,
        }),
        _ => None,
    }
}

/// What is asked of lists by the words by position and the options.
fn evidence_words<'a>(
    positions: &[&'a str],
    settings: &[Setting<'a>],
) -> Option<EvidenceRequest<'a>>
    ensures { option_map evidence_in result ≡ evidence_words (map (λ s. s.now) positions.now) (map setting_of settings.now) }
{
    if !fit(&[Flag::Step], settings) {
        return None;
    }
    let step = step_in(value_of(Flag::Step, settings));
    evidence_at(positions, step)
}

/// `cnf`.
#[tactic(auto, using(crate::proofs::RequestLemmas::cnf_there, crate::proofs::RequestLemmas::cnf_none))]
pub fn cnf_request<'a>(given: &Given<'a>) -> Option<Request<'a>>
    ensures { shown_request result ≡ cnf_request (given_in given.now) }
{
    match evidence_words(&given.positions, &given.settings) {
        Some(asked) => Some(Request::Cnf(asked)),
        None => None,
    }
}

/// `lrat`.
#[tactic(auto, using(crate::proofs::RequestLemmas::lrat_there, crate::proofs::RequestLemmas::lrat_none))]
pub fn lrat_request<'a>(given: &Given<'a>) -> Option<Request<'a>>
    ensures { shown_request result ≡ lrat_request (given_in given.now) }
{
    match evidence_words(&given.positions, &given.settings) {
        Some(asked) => Some(Request::Lrat(asked)),
        None => None,
    }
}
