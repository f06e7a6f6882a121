//! The request of `novel`.
ghost use Rattle.std.specs.Prelude.{◌≡◌, map};
ghost use Rattle.bs_top_words.specs.Asked.{given_in, setting_of};
ghost use Rattle.bs_inspect_words.specs.Asked.{shown_request};
ghost use Rattle.bs_inspect_words.specs.Request.{novel_for, novel_of, novel_request, novel_words};

use crate::proposed::NovelRequest;
use crate::request::Request;
use bs_inspect_usages::{fit, most_lines, value_of};
use bs_stim::MAX_RUNS;
use bs_top_words::{Flag, Given, Setting, number_between};

/// The request of `novel` of a run, for so many lines.
fn novel_for<'a>(
    netlist: &'a str,
    runs: &'a str,
    run: Option<u64>,
    most: Option<u64>,
) -> Option<Request<'a>>
    ensures { shown_request result ≡ novel_for netlist.now runs.now run most }
{
    match (run, most) {
        (Some(run), Some(most)) => Some(Request::Novel(NovelRequest {
            netlist,
            runs,
            run,
            most,
        })),
        _ => None,
    }
}

/// The request of `novel` by what its words say.
fn novel_at<'a>(positions: &[&'a str], most: Option<u64>) -> Option<Request<'a>>
    ensures { shown_request result ≡ novel_of (map (λ s. s.now) positions.now) most }
{
    match positions {
        [netlist, runs, run] => novel_for(
            netlist,
            runs,
            number_between(1, u64::from(MAX_RUNS), run),
            most,
        ),
        _ => None,
    }
}

/// The request of `novel` by its words by position and its options.
fn novel_words<'a>(positions: &[&'a str], settings: &[Setting<'a>]) -> Option<Request<'a>>
    ensures { shown_request result ≡ novel_words (map (λ s. s.now) positions.now) (map setting_of settings.now) }
{
    if !fit(&[Flag::Most], settings) {
        return None;
    }
    let most = most_lines(value_of(Flag::Most, settings));
    novel_at(positions, most)
}

/// `novel`.
pub fn novel_request<'a>(given: &Given<'a>) -> Option<Request<'a>>
    ensures { shown_request result ≡ novel_request (given_in given.now) }
{
    novel_words(&given.positions, &given.settings)
}
