//! The answer to each request: its files are taken, and what they tell is told.
ghost use Rattle.std.specs.Prelude.{Some};
ghost use Rattle.bs_call.specs.Prepared.{PreparedNoted};
ghost use Rattle.bs_top_files.specs.Causes.{CheckSays};
ghost use Rattle.bs_inspect_words.specs.Request.{Gtkw as GtkwOf, Bench as BenchOf, Cnf as CnfOf, Lrat as LratOf, ReachCnf as ReachCnfOf, ReachLrat as ReachLratOf, Lists as ListsOf, Page as PageOf, Steps as StepsOf, StepsTable as StepsTableOf, Trace as TraceOf, TraceTable as TraceTableOf, Wave as WaveOf, Why as WhyOf};
ghost use Rattle.bs_inspect_words.specs.Asked.{bench_in, evidence_in, gtkw_in, lengths_in, lists_in, page_in, trace_in, wave_in, why_in};
ghost use Rattle.bs_inspect_plans.specs.Finishes.{finishes};
ghost use Rattle.bs_inspect_plans.specs.Said.{RequestSaid};
ghost use Rattle.bs_inspect_plans.specs.Work.{plan_of};

use crate::reasons::tell_why;
use crate::sources::{
    bench_sources, evidence_sources, lengths_sources, page_sources, report_source, trace_sources,
};
use crate::telling::{
    tell_bench, tell_evidence, tell_lengths, tell_lists, tell_page, tell_save, tell_steps,
    tell_steps_table, tell_table, tell_trace, tell_wave,
};
use bs_call::Response;
use bs_evidence::Format;
use bs_inspect_files::{
    load_bench_files, load_charted, load_page_files, load_picked, load_report_files,
};
use bs_inspect_plans::{Rejecting, rejected_noted, silent, stop_at, window_noted};
use bs_inspect_words::{
    BenchRequest, EvidenceRequest, GtkwRequest, LengthsRequest, ListsRequest, PageRequest,
    TraceRequest, WaveRequest, WhyRequest,
};
use bs_outside::{NoMemory, Shelf};
use bs_reach_answer::load_answer_files;
use bs_top_files::load_report;
use std::alloc::Global;

/// The answer to `steps`.
pub fn steps<S: Shelf>(alloc: Global, shelf: &mut S, report: &str) -> Result<Response, NoMemory>
    ensures { PreparedNoted CheckSays finishes (RequestSaid (StepsOf report.now)) S.held S.faults S.leads shelf.old shelf.new (Some (plan_of (StepsOf report.now))) result }
{
    match load_report(alloc, shelf, report) {
        Ok(content) => {
            let answer = silent(tell_steps(alloc, &content));
            drop(content);
            answer
        }
        Err(stop) => stop_at(alloc, report_source(report), shelf.reason(), stop),
    }
}

/// The answer to `steps` as a table.
pub fn steps_table<S: Shelf>(
    alloc: Global,
    shelf: &mut S,
    report: &str,
) -> Result<Response, NoMemory>
    ensures { PreparedNoted CheckSays finishes (RequestSaid (StepsTableOf report.now)) S.held S.faults S.leads shelf.old shelf.new (Some (plan_of (StepsTableOf report.now))) result }
{
    match load_report(alloc, shelf, report) {
        Ok(content) => {
            let answer = silent(tell_steps_table(alloc, &content));
            drop(content);
            answer
        }
        Err(stop) => stop_at(alloc, report_source(report), shelf.reason(), stop),
    }
}

/// The answer to `trace`.
pub fn trace<S: Shelf>(
    alloc: Global,
    shelf: &mut S,
    asked: &TraceRequest<'_>,
) -> Result<Response, NoMemory>
    ensures { PreparedNoted CheckSays finishes (RequestSaid (TraceOf (trace_in asked.now))) S.held S.faults S.leads shelf.old shelf.new (Some (plan_of (TraceOf (trace_in asked.now)))) result }
{
    let only = asked.only.as_slice();
    match load_picked(alloc, shelf, asked.netlist, asked.report, only) {
        Ok(trace_files) => {
            let answer = window_noted(
                alloc,
                asked.window,
                &trace_files.report,
                tell_trace(alloc, &trace_files, asked.all, asked.window, only),
            );
            drop(trace_files);
            answer
        }
        Err(stop) => stop_at(
            alloc,
            trace_sources(asked.netlist, asked.report),
            shelf.reason(),
            stop,
        ),
    }
}

/// The answer to `trace` as a table.
pub fn trace_table<S: Shelf>(
    alloc: Global,
    shelf: &mut S,
    asked: &TraceRequest<'_>,
) -> Result<Response, NoMemory>
    ensures { PreparedNoted CheckSays finishes (RequestSaid (TraceTableOf (trace_in asked.now))) S.held S.faults S.leads shelf.old shelf.new (Some (plan_of (TraceTableOf (trace_in asked.now)))) result }
{
    let only = asked.only.as_slice();
    match load_picked(alloc, shelf, asked.netlist, asked.report, only) {
        Ok(trace_files) => {
            let answer = window_noted(
                alloc,
                asked.window,
                &trace_files.report,
                tell_table(alloc, &trace_files, asked.window, only),
            );
            drop(trace_files);
            answer
        }
        Err(stop) => stop_at(
            alloc,
            trace_sources(asked.netlist, asked.report),
            shelf.reason(),
            stop,
        ),
    }
}

/// The answer to `candidates`.
pub fn lists<S: Shelf>(
    alloc: Global,
    shelf: &mut S,
    asked: &ListsRequest<'_>,
) -> Result<Response, NoMemory>
    ensures { PreparedNoted CheckSays finishes (RequestSaid (ListsOf (lists_in asked.now))) S.held S.faults S.leads shelf.old shelf.new (Some (plan_of (ListsOf (lists_in asked.now)))) result }
{
    let only = asked.only.as_slice();
    match load_picked(alloc, shelf, asked.netlist, asked.report, only) {
        Ok(trace_files) => {
            let answer = silent(tell_lists(alloc, &trace_files, only));
            drop(trace_files);
            answer
        }
        Err(stop) => stop_at(
            alloc,
            trace_sources(asked.netlist, asked.report),
            shelf.reason(),
            stop,
        ),
    }
}

/// The answer to `wave`.
pub fn wave<S: Shelf>(
    alloc: Global,
    shelf: &mut S,
    asked: &WaveRequest<'_>,
) -> Result<Response, NoMemory>
    ensures { PreparedNoted CheckSays finishes (RequestSaid (WaveOf (wave_in asked.now))) S.held S.faults S.leads shelf.old shelf.new (Some (plan_of (WaveOf (wave_in asked.now)))) result }
{
    let only = asked.only.as_slice();
    match load_charted(alloc, shelf, asked.netlist, asked.report, only) {
        Ok(trace_files) => {
            let answer = silent(tell_wave(alloc, &trace_files, asked.from, asked.all, only));
            drop(trace_files);
            answer
        }
        Err(stop) => stop_at(
            alloc,
            trace_sources(asked.netlist, asked.report),
            shelf.reason(),
            stop,
        ),
    }
}

/// The answer to `gtkw`.
pub fn gtkw<S: Shelf>(
    alloc: Global,
    shelf: &mut S,
    asked: &GtkwRequest<'_>,
) -> Result<Response, NoMemory>
    ensures { PreparedNoted CheckSays finishes (RequestSaid (GtkwOf (gtkw_in asked.now))) S.held S.faults S.leads shelf.old shelf.new (Some (plan_of (GtkwOf (gtkw_in asked.now)))) result }
{
    let only = asked.only.as_slice();
    match load_charted(alloc, shelf, asked.netlist, asked.report, only) {
        Ok(trace_files) => {
            let answer = silent(tell_save(
                alloc,
                &trace_files,
                asked.wave,
                asked.from,
                asked.all,
                only,
            ));
            drop(trace_files);
            answer
        }
        Err(stop) => stop_at(
            alloc,
            trace_sources(asked.netlist, asked.report),
            shelf.reason(),
            stop,
        ),
    }
}

/// The answer to `page`.
pub fn page<S: Shelf>(
    alloc: Global,
    shelf: &mut S,
    asked: &PageRequest<'_>,
) -> Result<Response, NoMemory>
    ensures { PreparedNoted CheckSays finishes (RequestSaid (PageOf (page_in asked.now))) S.held S.faults S.leads shelf.old shelf.new (Some (plan_of (PageOf (page_in asked.now)))) result }
{
    let only = asked.only.as_slice();
    match load_page_files(
        alloc,
        shelf,
        asked.netlist,
        asked.signature,
        asked.report,
        only,
    ) {
        Ok(page_files) => {
            let answer = silent(tell_page(
                alloc,
                &page_files,
                asked.netlist,
                asked.report,
                asked.signature,
                only,
                asked.most,
            ));
            drop(page_files);
            answer
        }
        Err(stop) => stop_at(alloc, page_sources(asked), shelf.reason(), stop),
    }
}

/// The answer to `cnf`.
pub fn cnf<S: Shelf>(
    alloc: Global,
    shelf: &mut S,
    asked: &EvidenceRequest<'_>,
) -> Result<Response, NoMemory>
    ensures { PreparedNoted CheckSays finishes (RequestSaid (CnfOf (evidence_in asked.now))) S.held S.faults S.leads shelf.old shelf.new (Some (plan_of (CnfOf (evidence_in asked.now)))) result }
{
    match load_report_files(alloc, shelf, asked.netlist, asked.signature, asked.report) {
        Ok(report_files) => {
            let answer = rejected_noted(
                alloc,
                Rejecting::Evidence,
                tell_evidence(alloc, Format::Clauses, &report_files, asked.step),
            );
            drop(report_files);
            answer
        }
        Err(stop) => stop_at(alloc, evidence_sources(asked), shelf.reason(), stop),
    }
}

/// The answer to `lrat`.
pub fn lrat<S: Shelf>(
    alloc: Global,
    shelf: &mut S,
    asked: &EvidenceRequest<'_>,
) -> Result<Response, NoMemory>
    ensures { PreparedNoted CheckSays finishes (RequestSaid (LratOf (evidence_in asked.now))) S.held S.faults S.leads shelf.old shelf.new (Some (plan_of (LratOf (evidence_in asked.now)))) result }
{
    match load_report_files(alloc, shelf, asked.netlist, asked.signature, asked.report) {
        Ok(report_files) => {
            let answer = rejected_noted(
                alloc,
                Rejecting::Evidence,
                tell_evidence(alloc, Format::Proof, &report_files, asked.step),
            );
            drop(report_files);
            answer
        }
        Err(stop) => stop_at(alloc, evidence_sources(asked), shelf.reason(), stop),
    }
}

/// The answer to `reach-cnf`.
pub fn reach_cnf<S: Shelf>(
    alloc: Global,
    shelf: &mut S,
    asked: &LengthsRequest<'_>,
) -> Result<Response, NoMemory>
    ensures { PreparedNoted CheckSays finishes (RequestSaid (ReachCnfOf (lengths_in asked.now))) S.held S.faults S.leads shelf.old shelf.new (Some (plan_of (ReachCnfOf (lengths_in asked.now)))) result }
{
    match load_answer_files(alloc, shelf, asked.netlist, asked.state, asked.answer) {
        Ok(answer_files) => {
            let answer = rejected_noted(
                alloc,
                Rejecting::Evidence,
                tell_lengths(alloc, Format::Clauses, &answer_files, asked.length),
            );
            drop(answer_files);
            answer
        }
        Err(stop) => stop_at(alloc, lengths_sources(asked), shelf.reason(), stop),
    }
}

/// The answer to `reach-lrat`.
pub fn reach_lrat<S: Shelf>(
    alloc: Global,
    shelf: &mut S,
    asked: &LengthsRequest<'_>,
) -> Result<Response, NoMemory>
    ensures { PreparedNoted CheckSays finishes (RequestSaid (ReachLratOf (lengths_in asked.now))) S.held S.faults S.leads shelf.old shelf.new (Some (plan_of (ReachLratOf (lengths_in asked.now)))) result }
{
    match load_answer_files(alloc, shelf, asked.netlist, asked.state, asked.answer) {
        Ok(answer_files) => {
            let answer = rejected_noted(
                alloc,
                Rejecting::Evidence,
                tell_lengths(alloc, Format::Proof, &answer_files, asked.length),
            );
            drop(answer_files);
            answer
        }
        Err(stop) => stop_at(alloc, lengths_sources(asked), shelf.reason(), stop),
    }
}

/// The answer to `bench`.
pub fn bench<S: Shelf>(
    alloc: Global,
    shelf: &mut S,
    asked: &BenchRequest<'_>,
) -> Result<Response, NoMemory>
    ensures { PreparedNoted CheckSays finishes (RequestSaid (BenchOf (bench_in asked.now))) S.held S.faults S.leads shelf.old shelf.new (Some (plan_of (BenchOf (bench_in asked.now)))) result }
{
    match load_bench_files(alloc, shelf, asked.netlist, asked.runs, asked.report) {
        Ok(bench_files) => {
            let answer = rejected_noted(
                alloc,
                Rejecting::Bench,
                tell_bench(alloc, &bench_files, asked.top),
            );
            drop(bench_files);
            answer
        }
        Err(stop) => stop_at(alloc, bench_sources(asked), shelf.reason(), stop),
    }
}

/// The answer to `why`.
pub fn why<S: Shelf>(
    alloc: Global,
    shelf: &mut S,
    asked: &WhyRequest<'_>,
) -> Result<Response, NoMemory>
    ensures { PreparedNoted CheckSays finishes (RequestSaid (WhyOf (why_in asked.now))) S.held S.faults S.leads shelf.old shelf.new (Some (plan_of (WhyOf (why_in asked.now)))) result }
{
    match load_charted(alloc, shelf, asked.netlist, asked.report, &[asked.name]) {
        Ok(trace_files) => {
            let answer = rejected_noted(
                alloc,
                Rejecting::Why,
                tell_why(alloc, &trace_files, asked),
            );
            drop(trace_files);
            answer
        }
        Err(stop) => stop_at(
            alloc,
            trace_sources(asked.netlist, asked.report),
            shelf.reason(),
            stop,
        ),
    }
}
