//! The names of the files of a request, for the notes on them, and the answer to a walk that stopped at one.
ghost use Rattle.std.specs.Prelude.{◌≡◌, IfOk, option_map, [], IfSome};
ghost use Rattle.std.specs.Option.{unwrap_or};
ghost use Rattle.bs_outside.specs.Prepared.{AnswersStop};
ghost use Rattle.bs_outside.specs.Diagnostic.{line_stop, note_stop};
ghost use Rattle.bs_call.specs.Stops.{stop_file, StopNoted};
ghost use Rattle.bs_inspect_plans.specs.Sources.{source_of, sources_in};

use bs_call::{Response, stop_file, stopped_at};
use bs_outside::{File, NoMemory, WalkStop};
use std::alloc::Global;
use std::io::ErrorKind;

/// The names of the files of a request; a name that it does not give is empty.
#[derive(Clone, Copy)]
pub struct Sources<'a> {
    pub netlist: &'a str,
    pub signature: &'a str,
    pub stimulus: &'a str,
    pub dump: &'a str,
    pub report: &'a str,
    pub vcd: &'a str,
    pub map: &'a str,
}

/// The name of a file of a request, empty for what no request has.
fn source_of<'a>(sources: &Sources<'a>, file: File) -> &'a str
    ensures { result.now ≡ source_of (sources_in sources.now) file }
{
    match file {
        File::Netlist => sources.netlist,
        File::Signature => sources.signature,
        File::Stimulus => sources.stimulus,
        File::Dump => sources.dump,
        File::Report => sources.report,
        File::Vcd => sources.vcd,
        File::Map => sources.map,
        File::State | File::Name => "",
    }
}

/// A name, or nothing where there is none.
pub fn or_none<'a>(name: Option<&'a str>) -> &'a str
    ensures { result.now ≡ unwrap_or (option_map (λ s. s.now) name.entry) [] }
{
    match name {
        Some(name) => name,
        None => "",
    }
}

/// The name of the file at which a walk stopped.
#[tactic(auto, using(bs_call::proofs::NoteLemmas::path_there, bs_call::proofs::NoteLemmas::path_none))]
fn stop_source<'a>(sources: &Sources<'a>, stop: &WalkStop) -> &'a str
    ensures { IfSome (stop_file stop.now) (λ file. result.now ≡ source_of (sources_in sources.now) file) }
{
    match stop_file(stop) {
        Some(file) => source_of(sources, file),
        None => "",
    }
}

/// The answer to a stop, by the names of the files of a request.
pub fn stop_at(
    alloc: Global,
    sources: Sources<'_>,
    kind: Option<ErrorKind>,
    stop: WalkStop,
) -> Result<Response, NoMemory>
    ensures reply { IfOk result (λ answer. AnswersStop (line_stop stop) answer.reply.status answer.reply.text.items) }
    ensures note { IfOk result (λ answer. StopNoted (source_of (sources_in sources.entry)) (note_stop stop) answer.note) }
{
    let path = stop_source(&sources, &stop);
    let answer = stopped_at(alloc, path, kind, stop)?;
    Ok(answer)
}
