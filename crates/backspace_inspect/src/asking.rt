//! The answer to each request.
ghost use Rattle.std.specs.Prelude.{Some};
ghost use Rattle.bs_call.specs.Prepared.{PreparedNoted};
ghost use Rattle.bs_top_files.specs.Causes.{CheckSays};
ghost use Rattle.bs_inspect_words.specs.Asked.{request_in};
ghost use Rattle.bs_inspect_plans.specs.Finishes.{finishes};
ghost use Rattle.bs_inspect_plans.specs.Said.{RequestSaid};
ghost use Rattle.bs_inspect_plans.specs.Work.{plan_of};

use crate::telling::{tell_usage, tell_version};
use bs_call::Response;
use bs_inspect_netlist_requests::{
    check, dump, flops, inputs, keys, near, novel, seen, signature, stats, stimulus, unscan,
};
use bs_inspect_plans::silent;
use bs_inspect_report_requests::{
    bench, cnf, gtkw, lists, lrat, page, reach_cnf, reach_lrat, steps, steps_table, trace,
    trace_table, wave, why,
};
use bs_inspect_words::Request;
use bs_outside::{NoMemory, Shelf};
use std::alloc::Global;

/// What is to be answered and written for a request, and what is to be said.
pub(crate) fn request_answer<S: Shelf>(
    alloc: Global,
    request: &Request<'_>,
    shelf: &mut S,
) -> Result<Response, NoMemory>
    ensures { PreparedNoted CheckSays finishes (RequestSaid (request_in request.now)) S.held S.faults S.leads shelf.old shelf.new
        (Some (plan_of (request_in request.now))) result }
{
    match request {
        Request::Help => silent(tell_usage(alloc)),
        Request::Version => silent(tell_version(alloc)),
        Request::Flops(netlist) => flops(alloc, shelf, netlist),
        Request::Inputs(netlist) => inputs(alloc, shelf, netlist),
        Request::Stats(netlist) => stats(alloc, shelf, netlist),
        Request::Steps(report) => steps(alloc, shelf, report),
        Request::StepsTable(report) => steps_table(alloc, shelf, report),
        Request::Trace(asked) => trace(alloc, shelf, asked),
        Request::TraceTable(asked) => trace_table(alloc, shelf, asked),
        Request::Stimulus(asked) => stimulus(alloc, shelf, asked),
        Request::Dump(asked) => dump(alloc, shelf, asked),
        Request::Check(asked) => check(alloc, shelf, asked),
        Request::Wave(asked) => wave(alloc, shelf, asked),
        Request::Gtkw(asked) => gtkw(alloc, shelf, asked),
        Request::Signature(asked) => signature(alloc, shelf, asked),
        Request::Lists(asked) => lists(alloc, shelf, asked),
        Request::Keys(asked) => keys(alloc, shelf, asked),
        Request::Seen(asked) => seen(alloc, shelf, asked),
        Request::Unscan(asked) => unscan(alloc, shelf, asked),
        Request::Bench(asked) => bench(alloc, shelf, asked),
        Request::Cnf(asked) => cnf(alloc, shelf, asked),
        Request::Lrat(asked) => lrat(alloc, shelf, asked),
        Request::ReachCnf(asked) => reach_cnf(alloc, shelf, asked),
        Request::ReachLrat(asked) => reach_lrat(alloc, shelf, asked),
        Request::Page(asked) => page(alloc, shelf, asked),
        Request::Novel(asked) => novel(alloc, shelf, asked),
        Request::Near(asked) => near(alloc, shelf, asked),
        Request::Why(asked) => why(alloc, shelf, asked),
    }
}
