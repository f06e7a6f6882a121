//! The request that words are.
ghost use Rattle.std.specs.Prelude.{◌≡◌, map, string_bytes, IfOk};
ghost use Rattle.bs_top_words.specs.Asked.{given_in};
ghost use Rattle.bs_inspect_words.specs.Asked.{shown_request};
ghost use Rattle.bs_inspect_words.specs.Request.{bare_request, command_request, given_request, is_help, is_version, other_request, request_of, spelled_request};

use crate::evidence::{cnf_request, lrat_request};
use crate::lengths::{reach_cnf_request, reach_lrat_request};
use crate::named::{
    bench_request, flops_request, help_request, inputs_request, keys_request, near_request,
    seen_request, stats_request, unscan_request, version_request,
};
use crate::novel::novel_request;
use crate::page::page_request;
use crate::report::{gtkw_request, lists_request, steps_request, trace_request, wave_request};
use crate::request::Request;
use crate::signature::signature_request;
use crate::simulation::{check_request, dump_request, stimulus_request};
use crate::why::why_request;
use bs_bits::NoMemory;
use bs_inspect_usages::given_words;
use bs_top_words::Given;
use std::alloc::Global;

/// Whether a command asks how words stand.
fn is_help(command: &str) -> bool
    ensures { result ≡ is_help command.now }
{
    command == "help" || (command == "-h" || command == "--help")
}

/// Whether a command asks for the version.
fn is_version(command: &str) -> bool
    ensures { result ≡ is_version command.now }
{
    command == "version" || (command == "-V" || command == "--version")
}

/// The request of a command without options.
#[tactic(auto, unfolding(crate::specs::Request::bare_request))]
fn bare_request<'a>(command: &str, given: &Given<'a>) -> Option<Request<'a>>
    ensures { shown_request result ≡ bare_request command.now (given_in given.now) }
{
    if is_help(command) {
        return help_request(given);
    }
    if is_version(command) {
        return version_request(given);
    }
    if command == "flops" {
        return flops_request(given);
    }
    if command == "inputs" {
        return inputs_request(given);
    }
    if command == "stats" {
        return stats_request(given);
    }
    None
}

/// The request of a command that has no list of words.
#[tactic(auto, unfolding(crate::specs::Request::other_request))]
fn other_request<'a>(command: &str, given: &Given<'a>) -> Option<Request<'a>>
    ensures { shown_request result ≡ other_request command.now (given_in given.now) }
{
    if command == "steps" {
        return steps_request(given);
    }
    if command == "dump" {
        return dump_request(given);
    }
    if command == "signature" {
        return signature_request(given);
    }
    if command == "unscan" {
        return unscan_request(given);
    }
    if command == "bench" {
        return bench_request(given);
    }
    if command == "cnf" {
        return cnf_request(given);
    }
    if command == "lrat" {
        return lrat_request(given);
    }
    if command == "novel" {
        return novel_request(given);
    }
    if command == "near" {
        return near_request(given);
    }
    if command == "why" {
        return why_request(given);
    }
    bare_request(command, given)
}

/// The request of a command and what stands behind it.
#[tactic(auto, unfolding(crate::specs::Request::command_request))]
fn command_request<'a>(
    alloc: Global,
    command: &str,
    given: &Given<'a>,
) -> Result<Option<Request<'a>>, NoMemory>
    ensures { IfOk result (λ request. shown_request request ≡ command_request command.now (given_in given.now)) }
{
    if command == "trace" {
        return trace_request(alloc, given);
    }
    if command == "candidates" {
        return lists_request(alloc, given);
    }
    if command == "wave" {
        return wave_request(alloc, given);
    }
    if command == "gtkw" {
        return gtkw_request(alloc, given);
    }
    if command == "stimulus" {
        return stimulus_request(alloc, given);
    }
    if command == "check" {
        return check_request(alloc, given);
    }
    if command == "keys" {
        return keys_request(alloc, given);
    }
    if command == "page" {
        return page_request(alloc, given);
    }
    if command == "seen" {
        return seen_request(alloc, given);
    }
    Ok(other_request(command, given))
}

/// The request of a command whose options stand anywhere behind it.
fn given_request<'a>(
    alloc: Global,
    command: &str,
    words: &'a [String],
) -> Result<Option<Request<'a>>, NoMemory>
    ensures { IfOk result (λ request. shown_request request ≡ given_request command.now (map string_bytes words.now)) }
{
    let Some(given) = given_words(alloc, words)? else {
        return Ok(None);
    };
    let request = command_request(alloc, command, &given)?;
    Ok(request)
}

/// The request of a command and the words behind it.
#[tactic(auto, unfolding(crate::specs::Request::spelled_request))]
fn spelled_request<'a>(
    alloc: Global,
    command: &str,
    words: &'a [String],
) -> Result<Option<Request<'a>>, NoMemory>
    ensures { IfOk result (λ request. shown_request request ≡ spelled_request command.now (map string_bytes words.now)) }
{
    if command == "reach-cnf" {
        return reach_cnf_request(alloc, words);
    }
    if command == "reach-lrat" {
        return reach_lrat_request(alloc, words);
    }
    given_request(alloc, command, words)
}

/// The request that the words of a command line are, without the program's name, if they are one. The first word is the
/// command.
pub fn read_request(alloc: Global, words: &[String]) -> Result<Option<Request<'_>>, NoMemory>
    ensures { IfOk result (λ request. shown_request request ≡ request_of (map string_bytes words.now)) }
{
    let [command, rest @ ..] = words else {
        return Ok(None);
    };
    let request = spelled_request(alloc, command.as_str(), rest)?;
    Ok(request)
}
