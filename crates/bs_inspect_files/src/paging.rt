//! The walk over the files of a page: each file is fetched and read once, up to the first that stops the walk.
ghost use Rattle.std.specs.Prelude.{◌≡◌, None, Some, map, option_map};
ghost use Rattle.bs_outside.specs.Telling.{WalksDiagnosed};
ghost use Rattle.bs_top_files.specs.Causes.{CheckSays, NoteSays};
ghost use Rattle.bs_inspect_files.specs.Paged.{chosen_step, known_step, page_files_in, page_files_of, picked_step, signed_step};
ghost use Rattle.bs_inspect_files.specs.Taken.{trace_files_in};

use crate::fits::known_or_diagnostic;
use crate::ready::{PageFiles, TraceFiles};
use crate::tracing::load_reported;
use bs_net::Netlist;
use bs_outside::{File, Shelf, WalkStop, settle_diagnostic};
use bs_scan::Choice;
use bs_top_files::{load_netlist, load_signature};
use std::alloc::Global;

/// Drops a value, which a walk that stops lets go.
fn let_go<T: Drop>(_value: T) {}

/// A netlist and a report, where the netlist has these names.
fn load_known<S: Shelf>(
    alloc: Global,
    _shelf: &mut S,
    trace_files: TraceFiles,
    only: &[&str],
) -> Result<TraceFiles, WalkStop>
    ensures { WalksDiagnosed CheckSays NoteSays S.held S.faults S.leads _shelf.old _shelf.new
        (known_step (map (λ s. s.now) only.now) (trace_files_in trace_files)) trace_files_in result }
{
    let known = known_or_diagnostic(alloc, &trace_files.net, only);
    match settle_diagnostic(File::Name, known) {
        Ok(()) => Ok(trace_files),
        Err(stop) => {
            let_go(trace_files);
            Err(stop)
        }
    }
}

/// A netlist and the report of a file, where the netlist has these names.
fn load_picked_report<S: Shelf>(
    alloc: Global,
    shelf: &mut S,
    net: Netlist,
    report: &str,
    only: &[&str],
) -> Result<TraceFiles, WalkStop>
    ensures { WalksDiagnosed CheckSays NoteSays S.held S.faults S.leads shelf.old shelf.new
        (picked_step net.raw report.now (map (λ s. s.now) only.now)) trace_files_in result }
{
    match load_reported(alloc, shelf, false, net, report) {
        Ok(trace_files) => load_known(alloc, shelf, trace_files, only),
        Err(stop) => Err(stop),
    }
}

/// The files of a page without a signature, behind the netlist.
fn load_plain<S: Shelf>(
    alloc: Global,
    shelf: &mut S,
    net: Netlist,
    report: &str,
    only: &[&str],
) -> Result<PageFiles, WalkStop>
    ensures { WalksDiagnosed CheckSays NoteSays S.held S.faults S.leads shelf.old shelf.new
        (chosen_step net.raw None report.now (map (λ s. s.now) only.now)) page_files_in result }
{
    match load_picked_report(alloc, shelf, net, report, only) {
        Ok(trace_files) => Ok(PageFiles {
            trace_files,
            choice: None,
        }),
        Err(stop) => Err(stop),
    }
}

/// The files of a page, behind its signature.
fn load_chosen<S: Shelf>(
    alloc: Global,
    shelf: &mut S,
    net: Netlist,
    choice: Choice,
    report: &str,
    only: &[&str],
) -> Result<PageFiles, WalkStop>
    ensures { WalksDiagnosed CheckSays NoteSays S.held S.faults S.leads shelf.old shelf.new
        (chosen_step net.raw (Some choice) report.now (map (λ s. s.now) only.now)) page_files_in result }
{
    match load_picked_report(alloc, shelf, net, report, only) {
        Ok(trace_files) => Ok(PageFiles {
            trace_files,
            choice: Some(choice),
        }),
        Err(stop) => {
            let_go(choice);
            Err(stop)
        }
    }
}

/// The files of a page with the signature of a file, behind the netlist.
fn load_by_signature<S: Shelf>(
    alloc: Global,
    shelf: &mut S,
    net: Netlist,
    file: &str,
    report: &str,
    only: &[&str],
) -> Result<PageFiles, WalkStop>
    ensures { WalksDiagnosed CheckSays NoteSays S.held S.faults S.leads shelf.old shelf.new
        (signed_step net.raw (Some file.now) report.now (map (λ s. s.now) only.now)) page_files_in result }
{
    match load_signature(alloc, shelf, file, &net) {
        Ok(choice) => load_chosen(alloc, shelf, net, choice, report, only),
        Err(stop) => {
            let_go(net);
            Err(stop)
        }
    }
}

/// The files of a page behind its netlist, with a signature where a file of one is asked for.
fn load_signed<S: Shelf>(
    alloc: Global,
    shelf: &mut S,
    net: Netlist,
    signature: Option<&str>,
    report: &str,
    only: &[&str],
) -> Result<PageFiles, WalkStop>
    ensures { WalksDiagnosed CheckSays NoteSays S.held S.faults S.leads shelf.old shelf.new
        (signed_step net.raw (option_map (λ s. s.now) signature.entry) report.now (map (λ s. s.now) only.now)) page_files_in result }
{
    match signature {
        Some(file) => load_by_signature(alloc, shelf, net, file, report, only),
        None => load_plain(alloc, shelf, net, report, only),
    }
}

/// A netlist, a signature where a file of one is asked for, and a report whose trace fits the netlist, where this has these names.
pub fn load_page_files<S: Shelf>(
    alloc: Global,
    shelf: &mut S,
    netlist: &str,
    signature: Option<&str>,
    report: &str,
    only: &[&str],
) -> Result<PageFiles, WalkStop>
    ensures { WalksDiagnosed CheckSays NoteSays S.held S.faults S.leads shelf.old shelf.new
        (page_files_of netlist.now (option_map (λ s. s.now) signature.entry) report.now (map (λ s. s.now) only.now)) page_files_in result }
{
    match load_netlist(alloc, shelf, netlist) {
        Ok(net) => load_signed(alloc, shelf, net, signature, report, only),
        Err(stop) => Err(stop),
    }
}
