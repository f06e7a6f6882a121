//! The answer to each request: its files are taken, and what they tell is told.
ghost use Rattle.std.specs.Prelude.{◌≡◌, find, map, Some, IfOk};
ghost use Rattle.bs_call.specs.Note.{Due, DueText};
ghost use Rattle.bs_call.specs.Prepared.{PreparedNoted};
ghost use Rattle.bs_top_files.specs.Causes.{CheckSays};
ghost use Rattle.bs_inspect_words.specs.Request.{Check as CheckOf, Dump as DumpOf, Flops as FlopsOf, Inputs as InputsOf, Keys as KeysOf, Near as NearOf, Novel as NovelOf, Signature as SignatureOf, Seen as SeenOf, Stats as StatsOf, Stimulus as StimulusOf, Unscan as UnscanOf};
ghost use Rattle.bs_inspect_words.specs.Asked.{check_in, dump_in, keys_in, near_in, novel_in, seen_in, signature_in, stimulus_in, unscan_in};
ghost use Rattle.bs_inspect_plans.specs.Finishes.{finishes};
ghost use Rattle.bs_inspect_plans.specs.Said.{late_doubt, RequestSaid, runs_doubt};
ghost use Rattle.bs_inspect_plans.specs.Work.{plan_of, to_runs};
ghost use Rattle.bs_inspect_notes.specs.Simulations.{data_clock_text, late_text};
ghost use Rattle.bs_inspect_values.specs.Dumped.{dumped_in};
ghost use Rattle.bs_inspect_values.specs.Simulated.{simulated_in};
ghost use Rattle.bs_inspect_values.specs.SimulatedRun.{is_late, run_in};

use crate::chain::state_answer;
use crate::sources::{
    chain_sources, dump_sources, near_sources, netlist_source, novel_sources, runs_sources,
    stop_check, stop_values,
};
use crate::telling::{
    tell_check, tell_dump, tell_flops, tell_inputs, tell_keys, tell_near, tell_novel, tell_runs,
    tell_seen, tell_signature, tell_stats,
};
use bs_call::{Note, Response, note_made};
use bs_inspect_files::{
    CheckFiles, load_checked, load_named, load_one_run, load_run_files, load_scanned,
};
use bs_inspect_notes::{data_clock_note, late_note};
use bs_inspect_plans::{lacking_noted, load_near_files, silent, stop_at};
use bs_inspect_seen::load_named_values;
use bs_inspect_values::{
    Clocked, DumpFiles, Dumped, Simulated, SimulatedRun, clock_key, first_late, load_dumped,
    load_simulated,
};
use bs_inspect_words::{
    CheckRequest, DumpRequest, KeysRequest, NearRequest, NovelRequest, SeenRequest,
    SignatureRequest, StimulusRequest, UnscanRequest,
};
use bs_outside::{NoMemory, Shelf};
use bs_top_files::load_netlist;
use std::alloc::Global;

/// The answer to `flops`.
pub fn flops<S: Shelf>(alloc: Global, shelf: &mut S, netlist: &str) -> Result<Response, NoMemory>
    ensures { PreparedNoted CheckSays finishes (RequestSaid (FlopsOf netlist.now)) S.held S.faults S.leads shelf.old shelf.new (Some (plan_of (FlopsOf netlist.now))) result }
{
    match load_netlist(alloc, shelf, netlist) {
        Ok(net) => silent(tell_flops(alloc, &net)),
        Err(stop) => stop_at(alloc, netlist_source(netlist), shelf.reason(), stop),
    }
}

/// The answer to `inputs`.
pub fn inputs<S: Shelf>(alloc: Global, shelf: &mut S, netlist: &str) -> Result<Response, NoMemory>
    ensures { PreparedNoted CheckSays finishes (RequestSaid (InputsOf netlist.now)) S.held S.faults S.leads shelf.old shelf.new (Some (plan_of (InputsOf netlist.now))) result }
{
    match load_netlist(alloc, shelf, netlist) {
        Ok(net) => silent(tell_inputs(alloc, &net)),
        Err(stop) => stop_at(alloc, netlist_source(netlist), shelf.reason(), stop),
    }
}

/// The answer to `stats`.
pub fn stats<S: Shelf>(alloc: Global, shelf: &mut S, netlist: &str) -> Result<Response, NoMemory>
    ensures { PreparedNoted CheckSays finishes (RequestSaid (StatsOf netlist.now)) S.held S.faults S.leads shelf.old shelf.new (Some (plan_of (StatsOf netlist.now))) result }
{
    match load_netlist(alloc, shelf, netlist) {
        Ok(net) => silent(tell_stats(alloc, &net)),
        Err(stop) => stop_at(alloc, netlist_source(netlist), shelf.reason(), stop),
    }
}

/// The answer to `keys`.
pub fn keys<S: Shelf>(
    alloc: Global,
    shelf: &mut S,
    asked: &KeysRequest<'_>,
) -> Result<Response, NoMemory>
    ensures { PreparedNoted CheckSays finishes (RequestSaid (KeysOf (keys_in asked.now))) S.held S.faults S.leads shelf.old shelf.new (Some (plan_of (KeysOf (keys_in asked.now)))) result }
{
    let names = asked.names.as_slice();
    match load_named(alloc, shelf, asked.netlist, names) {
        Ok(net) => silent(tell_keys(alloc, &net, names)),
        Err(stop) => stop_at(alloc, netlist_source(asked.netlist), shelf.reason(), stop),
    }
}

/// The answer to `seen`.
pub fn seen<S: Shelf>(
    alloc: Global,
    shelf: &mut S,
    asked: &SeenRequest<'_>,
) -> Result<Response, NoMemory>
    ensures { PreparedNoted CheckSays finishes (RequestSaid (SeenOf (seen_in asked.now))) S.held S.faults S.leads shelf.old shelf.new (Some (plan_of (SeenOf (seen_in asked.now)))) result }
{
    let values = asked.values.as_slice();
    match load_named_values(alloc, shelf, asked.netlist, values) {
        Ok(named) => silent(tell_seen(alloc, &named)),
        Err(stop) => stop_at(alloc, netlist_source(asked.netlist), shelf.reason(), stop),
    }
}

/// The answer to `unscan`.
pub fn unscan<S: Shelf>(
    alloc: Global,
    shelf: &mut S,
    asked: &UnscanRequest<'_>,
) -> Result<Response, NoMemory>
    ensures { PreparedNoted CheckSays finishes (RequestSaid (UnscanOf (unscan_in asked.now))) S.held S.faults S.leads shelf.old shelf.new (Some (plan_of (UnscanOf (unscan_in asked.now)))) result }
{
    match load_scanned(alloc, shelf, asked.netlist, asked.order, asked.pattern) {
        Ok(scanned) => state_answer(alloc, &scanned),
        Err(stop) => stop_at(alloc, chain_sources(asked), shelf.reason(), stop),
    }
}

/// The note on a clock that is a data input, where the netlist's own has this key.
fn clock_said(alloc: Global, clock: &str, key: &str) -> Note
    ensures { Due (λ said. said ≡ data_clock_text clock.now key.now) result }
{
    note_made(data_clock_note(alloc, clock, key))
}

/// The note on a run whose values begin late.
fn run_said(alloc: Global, run: &SimulatedRun) -> Note
    ensures { Due (λ said. said ≡ late_text (run_in run.now).run.name (run_in run.now).begin) result }
{
    note_made(late_note(alloc, run.name.as_slice(), run.begin))
}

/// The note on the first run whose values begin late.
#[tactic(auto, using(crate::proofs::NetlistLemmas::run_due, crate::proofs::NetlistLemmas::run_quiet))]
fn late_said(alloc: Global, runs: &[SimulatedRun]) -> Note
    ensures { DueText (late_doubt (find is_late (map run_in runs.now))) result }
{
    match first_late(runs) {
        Some(run) => run_said(alloc, run),
        None => Note::Silent,
    }
}

/// The note on runs whose clock is a data input, or whose values begin late.
#[tactic(auto, using(crate::proofs::NetlistLemmas::clock_due, crate::proofs::NetlistLemmas::late_due))]
fn runs_note(alloc: Global, clock: &str, simulated: &Simulated) -> Note
    ensures { DueText (runs_doubt clock.now (simulated_in simulated.now)) result }
{
    if simulated.sampled.data_clock {
        clock_said(alloc, clock, clock_key(&simulated.net))
    } else {
        late_said(alloc, simulated.sampled.runs.as_slice())
    }
}

/// Runs, and what is doubtful about them.
fn runs_answer(alloc: Global, clock: &str, simulated: &Simulated) -> Result<Response, NoMemory>
    ensures reply { IfOk result (λ answer. finishes (to_runs clock.now (simulated_in simulated.now)) answer.reply.status answer.reply.text.items) }
    ensures note { IfOk result (λ answer. DueText (runs_doubt clock.now (simulated_in simulated.now)) answer.note) }
{
    let reply = tell_runs(alloc, clock, simulated)?;
    let note = runs_note(alloc, clock, simulated);
    Ok(Response { reply, note })
}

/// The answer to `stimulus`.
pub fn stimulus<S: Shelf>(
    alloc: Global,
    shelf: &mut S,
    asked: &StimulusRequest<'_>,
) -> Result<Response, NoMemory>
    ensures { PreparedNoted CheckSays finishes (RequestSaid (StimulusOf (stimulus_in asked.now))) S.held S.faults S.leads shelf.old shelf.new (Some (plan_of (StimulusOf (stimulus_in asked.now)))) result }
{
    let vcds = asked.vcds.as_slice();
    let at = Clocked {
        clock: asked.clock,
        scope: asked.scope,
    };
    match load_simulated(alloc, shelf, asked.netlist, asked.names, at, vcds) {
        Ok(simulated) => runs_answer(alloc, asked.clock, &simulated),
        Err(stop) => stop_values(
            alloc,
            asked.netlist,
            asked.names,
            vcds,
            shelf.reason(),
            stop,
        ),
    }
}

/// The answer to `check`.
pub fn check<S: Shelf>(
    alloc: Global,
    shelf: &mut S,
    asked: &CheckRequest<'_>,
) -> Result<Response, NoMemory>
    ensures { PreparedNoted CheckSays finishes (RequestSaid (CheckOf (check_in asked.now))) S.held S.faults S.leads shelf.old shelf.new (Some (plan_of (CheckOf (check_in asked.now)))) result }
{
    let vcds = asked.vcds.as_slice();
    let files = CheckFiles {
        netlist: asked.netlist,
        stimulus: asked.runs,
        clock: asked.clock,
        scope: asked.scope,
        names: asked.names,
    };
    match load_checked(alloc, shelf, files, vcds) {
        Ok(checked) => silent(tell_check(alloc, &checked)),
        Err(stop) => stop_check(
            alloc,
            asked.netlist,
            asked.runs,
            asked.names,
            vcds,
            shelf.reason(),
            stop,
        ),
    }
}

/// How many flip-flops of a dump are not in the simulation.
fn lacks_in(dumped: &Dumped) -> usize
    ensures { result ≡ (dumped_in dumped.now).taken.lacks }
{
    match dumped {
        Dumped::Plain(plain) => plain.taken.lacks,
        Dumped::Whole(whole) => whole.taken.lacks,
    }
}

/// The answer to `dump`.
pub fn dump<S: Shelf>(
    alloc: Global,
    shelf: &mut S,
    asked: &DumpRequest<'_>,
) -> Result<Response, NoMemory>
    ensures { PreparedNoted CheckSays finishes (RequestSaid (DumpOf (dump_in asked.now))) S.held S.faults S.leads shelf.old shelf.new (Some (plan_of (DumpOf (dump_in asked.now)))) result }
{
    let files = DumpFiles {
        netlist: asked.netlist,
        vcd: asked.vcd,
        at: asked.at,
        clock: asked.clock,
        scope: asked.scope,
        names: asked.names,
        signature: asked.signature,
        partial: asked.partial,
    };
    match load_dumped(alloc, shelf, files) {
        Ok(dumped) => lacking_noted(alloc, lacks_in(&dumped), tell_dump(alloc, &dumped)),
        Err(stop) => stop_at(alloc, dump_sources(asked), shelf.reason(), stop),
    }
}

/// The answer to `signature`.
pub fn signature<S: Shelf>(
    alloc: Global,
    shelf: &mut S,
    asked: &SignatureRequest<'_>,
) -> Result<Response, NoMemory>
    ensures { PreparedNoted CheckSays finishes (RequestSaid (SignatureOf (signature_in asked.now))) S.held S.faults S.leads shelf.old shelf.new (Some (plan_of (SignatureOf (signature_in asked.now)))) result }
{
    match load_run_files(alloc, shelf, asked.netlist, asked.runs) {
        Ok(run_files) => silent(tell_signature(alloc, &run_files, asked.items)),
        Err(stop) => stop_at(alloc, runs_sources(asked), shelf.reason(), stop),
    }
}

/// The answer to `novel`.
pub fn novel<S: Shelf>(
    alloc: Global,
    shelf: &mut S,
    asked: &NovelRequest<'_>,
) -> Result<Response, NoMemory>
    ensures { PreparedNoted CheckSays finishes (RequestSaid (NovelOf (novel_in asked.now))) S.held S.faults S.leads shelf.old shelf.new (Some (plan_of (NovelOf (novel_in asked.now)))) result }
{
    match load_one_run(alloc, shelf, asked.netlist, asked.runs, asked.run) {
        Ok(one_run) => silent(tell_novel(alloc, &one_run, asked.most)),
        Err(stop) => stop_at(alloc, novel_sources(asked), shelf.reason(), stop),
    }
}

/// The answer to `near`.
pub fn near<S: Shelf>(
    alloc: Global,
    shelf: &mut S,
    asked: &NearRequest<'_>,
) -> Result<Response, NoMemory>
    ensures { PreparedNoted CheckSays finishes (RequestSaid (NearOf (near_in asked.now))) S.held S.faults S.leads shelf.old shelf.new (Some (plan_of (NearOf (near_in asked.now)))) result }
{
    match load_near_files(alloc, shelf, asked.netlist, asked.runs, asked.dump) {
        Ok(near_files) => silent(tell_near(alloc, &near_files)),
        Err(stop) => stop_at(alloc, near_sources(asked), shelf.reason(), stop),
    }
}
