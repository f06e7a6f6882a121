//! The requests about lengths of an answer, or all that it refutes: `reach-cnf` and `reach-lrat`. Their option stands last.
ghost use Rattle.std.specs.Prelude.{◌≡◌, ◌≤◌, [], length, map, option_map, string_bytes, IfOk};
ghost use Rattle.std.specs.List.{list_all};
ghost use Rattle.bs_top_words.specs.Asked.{shown};
ghost use Rattle.bs_top_words.specs.Given.{read_all, start};
ghost use Rattle.bs_top_words.specs.Job.{is_mark, is_state};
ghost use Rattle.bs_inspect_words.specs.Asked.{lengths_in, shown_request};
ghost use Rattle.bs_inspect_words.specs.Request.{lengths_at, lengths_behind, lengths_for, lengths_words, ReachCnf, ReachLrat};

use crate::request::{LengthsRequest, Request};
use bs_bits::NoMemory;
use bs_inspect_usages::length_of;
use bs_top_words::{Given, read_given};
use std::alloc::Global;

/// Whether all characters are 0, 1 or -.
fn are_marks(word: &[u8]) -> bool
    ensures { result ≡ list_all is_mark word.now }
{
    word.iter().all(|&c| c == b'0' || c == b'1' || c == b'-')
}

/// Whether a word is a state: one or more characters 0, 1 and -.
fn is_state(word: &str) -> bool
    ensures { result ≡ is_state word.now }
{
    let marks = are_marks(word.as_bytes());
    match word.as_bytes() {
        [] => false,
        _ => marks,
    }
}

/// What is asked of lengths, where the second word is a state.
fn lengths_for<'a>(
    netlist: &'a str,
    state: &'a str,
    answer: &'a str,
    length: Option<u64>,
) -> Option<LengthsRequest<'a>>
    ensures { option_map lengths_in result ≡ lengths_for netlist.now state.now answer.now length }
{
    if is_state(state) {
        Some(LengthsRequest {
            netlist,
            state,
            answer,
            length,
        })
    } else {
        None
    }
}

/// What is asked of lengths by what the words say.
fn lengths_at<'a>(positions: &[&'a str], length: Option<Option<u64>>) -> Option<LengthsRequest<'a>>
    ensures { option_map lengths_in result ≡ lengths_at (map (λ s. s.now) positions.now) length }
{
    match (positions, length) {
        ([netlist, state, answer], Some(length)) => lengths_for(netlist, state, answer, length),
        _ => None,
    }
}

/// The words by position, which stand alone.
fn read_positions<'a>(alloc: Global, words: &'a [String]) -> Result<Option<Given<'a>>, NoMemory>
    ensures { IfOk result (λ given. shown given ≡ read_all [] (map string_bytes words.now) start) }
{
    let given = read_given(alloc, &[], words)?;
    Ok(given)
}

/// What is asked of lengths by three words by position and those behind them.
fn lengths_behind<'a>(
    alloc: Global,
    positions: &'a [String],
    behind: &[String],
) -> Result<Option<LengthsRequest<'a>>, NoMemory>
    ensures { IfOk result (λ asked. option_map lengths_in asked ≡ lengths_behind (map string_bytes positions.now) (map string_bytes behind.now)) }
{
    let Some(given) = read_positions(alloc, positions)? else {
        return Ok(None);
    };
    let asked = lengths_at(&given.positions, length_of(behind));
    Ok(asked)
}

/// What is asked of lengths by the words behind the command.
#[tactic(auto, using(crate::proofs::RequestLemmas::lengths_there, crate::proofs::RequestLemmas::lengths_few))]
fn lengths_words<'a>(
    alloc: Global,
    words: &'a [String],
) -> Result<Option<LengthsRequest<'a>>, NoMemory>
    ensures { IfOk result (λ asked. option_map lengths_in asked ≡ lengths_words (map string_bytes words.now)) }
{
    if words.len() < 3 {
        return Ok(None);
    }
    let asked = lengths_behind(alloc, &words[..3], &words[3..])?;
    Ok(asked)
}

/// The request of `reach-cnf`.
fn cnf_of<'a>(asked: Option<LengthsRequest<'a>>) -> Option<Request<'a>>
    ensures { shown_request result ≡ option_map (λ t. ReachCnf t) (option_map lengths_in asked.entry) }
{
    match asked {
        Some(asked) => Some(Request::ReachCnf(asked)),
        None => None,
    }
}

/// The request of `reach-lrat`.
fn lrat_of<'a>(asked: Option<LengthsRequest<'a>>) -> Option<Request<'a>>
    ensures { shown_request result ≡ option_map (λ t. ReachLrat t) (option_map lengths_in asked.entry) }
{
    match asked {
        Some(asked) => Some(Request::ReachLrat(asked)),
        None => None,
    }
}

/// `reach-cnf`.
pub fn reach_cnf_request<'a>(
    alloc: Global,
    words: &'a [String],
) -> Result<Option<Request<'a>>, NoMemory>
    ensures { IfOk result (λ request. shown_request request ≡ option_map (λ t. ReachCnf t) (lengths_words (map string_bytes words.now))) }
{
    let asked = lengths_words(alloc, words)?;
    Ok(cnf_of(asked))
}

/// `reach-lrat`.
pub fn reach_lrat_request<'a>(
    alloc: Global,
    words: &'a [String],
) -> Result<Option<Request<'a>>, NoMemory>
    ensures { IfOk result (λ request. shown_request request ≡ option_map (λ t. ReachLrat t) (lengths_words (map string_bytes words.now))) }
{
    let asked = lengths_words(alloc, words)?;
    Ok(lrat_of(asked))
}
