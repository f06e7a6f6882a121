//! The names of the files of a request, for the notes on them.
ghost use Rattle.std.specs.Prelude.{◌≡◌, map, IfOk, option_map, [], ◌++◌, string_bytes, OnOk};
ghost use Rattle.bs_inspect_words.specs.Asked.{dump_in, near_in, novel_in, signature_in, unscan_in};
ghost use Rattle.std.specs.List.{flat_map};
ghost use Rattle.std.specs.Option.{unwrap_or};
ghost use Rattle.bs_inspect_files.specs.Readings.{file_in};
ghost use Rattle.bs_outside.specs.Prepared.{AnswersStop};
ghost use Rattle.bs_outside.specs.Diagnostic.{line_stop, note_stop};
ghost use Rattle.bs_call.specs.Stops.{StopNoted};
ghost use Rattle.bs_inspect_plans.specs.Sources.{behind_piece, chain_sources, dump_sources, joined, named_runs, named_values, near_sources, netlist_source, novel_sources, runs_sources, source_of, sources_in};

use bs_call::Response;
use bs_inspect_files::file_in;
use bs_inspect_plans::{Sources, or_none, stop_at};
use bs_inspect_words::{DumpRequest, NearRequest, NovelRequest, SignatureRequest, UnscanRequest};
use bs_outside::{NoMemory, WalkStop};
use std::alloc::Global;
use std::io::ErrorKind;

/// A netlist alone.
pub fn netlist_source<'a>(netlist: &'a str) -> Sources<'a>
    ensures { sources_in result ≡ netlist_source netlist.now }
{
    Sources {
        netlist,
        signature: "",
        stimulus: "",
        dump: "",
        report: "",
        vcd: "",
        map: "",
    }
}

/// The name of the file of a pattern, behind `@`, or nothing where its bits are a word.
fn pattern_file<'a>(pattern: &'a str) -> &'a str
    ensures { result.now ≡ unwrap_or (file_in pattern.now) [] }
{
    match file_in(pattern) {
        Some(name) => name,
        None => "",
    }
}

/// A netlist, the order of its scan chain, and the file of a pattern, where it is in one.
pub fn chain_sources<'a>(asked: &UnscanRequest<'a>) -> Sources<'a>
    ensures { sources_in result ≡ chain_sources (unscan_in asked.now) }
{
    Sources {
        netlist: asked.netlist,
        signature: "",
        stimulus: "",
        dump: pattern_file(asked.pattern),
        report: "",
        vcd: "",
        map: asked.order,
    }
}

/// A netlist and recorded runs.
pub fn runs_sources<'a>(asked: &SignatureRequest<'a>) -> Sources<'a>
    ensures { sources_in result ≡ runs_sources (signature_in asked.now) }
{
    Sources {
        netlist: asked.netlist,
        signature: "",
        stimulus: asked.runs,
        dump: "",
        report: "",
        vcd: "",
        map: "",
    }
}

/// A netlist and recorded runs.
pub fn novel_sources<'a>(asked: &NovelRequest<'a>) -> Sources<'a>
    ensures { sources_in result ≡ novel_sources (novel_in asked.now) }
{
    Sources {
        netlist: asked.netlist,
        signature: "",
        stimulus: asked.runs,
        dump: "",
        report: "",
        vcd: "",
        map: "",
    }
}

/// A netlist, recorded runs and a dump.
pub fn near_sources<'a>(asked: &NearRequest<'a>) -> Sources<'a>
    ensures { sources_in result ≡ near_sources (near_in asked.now) }
{
    Sources {
        netlist: asked.netlist,
        signature: "",
        stimulus: asked.runs,
        dump: asked.dump,
        report: "",
        vcd: "",
        map: "",
    }
}

/// A netlist, the values of a simulator, and the names of flip-flops and a signature, where there are files of them.
pub fn dump_sources<'a>(asked: &DumpRequest<'a>) -> Sources<'a>
    ensures { sources_in result ≡ dump_sources (dump_in asked.now) }
{
    Sources {
        netlist: asked.netlist,
        signature: or_none(asked.signature),
        stimulus: "",
        dump: "",
        report: "",
        vcd: asked.vcd,
        map: or_none(asked.names),
    }
}

/// A netlist, the values of a simulator under this name, and the names of inputs, where there is a file of them.
fn named_values<'a>(netlist: &'a str, names: Option<&'a str>, vcd: &'a str) -> Sources<'a>
    ensures { sources_in result ≡ named_values netlist.now (option_map (λ s. s.now) names.entry) vcd.now }
{
    Sources {
        netlist,
        signature: "",
        stimulus: "",
        dump: "",
        report: "",
        vcd,
        map: or_none(names),
    }
}

/// A netlist, recorded runs, the values of a simulator under this name, and the names of flip-flops, where there is a file of them.
fn named_runs<'a>(
    netlist: &'a str,
    runs: &'a str,
    names: Option<&'a str>,
    vcd: &'a str,
) -> Sources<'a>
    ensures { sources_in result ≡ named_runs netlist.now runs.now (option_map (λ s. s.now) names.entry) vcd.now }
{
    Sources {
        netlist,
        signature: "",
        stimulus: runs,
        dump: "",
        report: "",
        vcd,
        map: or_none(names),
    }
}

/// Appends a name behind others.
fn push_behind(text: &mut String, name: &str) -> Result<(), NoMemory>
    ensures { OnOk result (string_bytes text.new ≡ string_bytes text.old ++ behind_piece name.now) }
{
    text.push_str(", ")?;
    text.push_str(name)?;
    Ok(())
}

/// Appends names behind another.
fn push_names(text: &mut String, names: &[&str]) -> Result<(), NoMemory>
    ensures { OnOk result (string_bytes text.new ≡ string_bytes text.old ++ flat_map behind_piece (map (λ s. s.now) names.now)) }
{
    'names: for name in names {
        push_behind(text, name)?;
    }
    Ok(())
}

/// Names, one behind another.
fn joined(alloc: Global, names: &[&str]) -> Result<String, NoMemory>
    ensures { IfOk result (λ text. string_bytes text ≡ joined (map (λ s. s.now) names.now)) }
{
    let mut text = String::new(alloc);
    if let [name, rest @ ..] = names {
        text.push_str(name)?;
        push_names(&mut text, rest)?;
    }
    Ok(text)
}

/// The answer to a stop among the files of `stimulus`, by their names.
pub fn stop_values(
    alloc: Global,
    netlist: &str,
    names: Option<&str>,
    vcds: &[&str],
    kind: Option<ErrorKind>,
    stop: WalkStop,
) -> Result<Response, NoMemory>
    ensures reply { IfOk result (λ answer. AnswersStop (line_stop stop) answer.reply.status answer.reply.text.items) }
    ensures note { IfOk result (λ answer. StopNoted (source_of (named_values netlist.now (option_map (λ s. s.now) names.entry) (joined (map (λ s. s.now) vcds.now)))) (note_stop stop) answer.note) }
{
    let vcd = joined(alloc, vcds)?;
    let answer = stop_at(
        alloc,
        named_values(netlist, names, vcd.as_str()),
        kind,
        stop,
    )?;
    Ok(answer)
}

/// The answer to a walk over runs and files of values that stopped, by the names of them all.
pub fn stop_check(
    alloc: Global,
    netlist: &str,
    runs: &str,
    names: Option<&str>,
    vcds: &[&str],
    kind: Option<ErrorKind>,
    stop: WalkStop,
) -> Result<Response, NoMemory>
    ensures reply { IfOk result (λ answer. AnswersStop (line_stop stop) answer.reply.status answer.reply.text.items) }
    ensures note { IfOk result (λ answer. StopNoted (source_of (named_runs netlist.now runs.now (option_map (λ s. s.now) names.entry) (joined (map (λ s. s.now) vcds.now)))) (note_stop stop) answer.note) }
{
    let vcd = joined(alloc, vcds)?;
    let answer = stop_at(
        alloc,
        named_runs(netlist, runs, names, vcd.as_str()),
        kind,
        stop,
    )?;
    Ok(answer)
}
