//! The walk over the files of a simulation: each is fetched and read once, up to the first that stops the walk.
ghost use Rattle.std.specs.Prelude.{◌≡◌, ◌≤◌, ◌++◌, ◌∷◌, [], length, map, option_map, None, Some, IfErr, OnOk};
ghost use Rattle.std.specs.List.{list_any};
ghost use Rattle.bs_net_names.specs.Keys.{key_parts, parts_in};
ghost use Rattle.bs_net_names.specs.Rtl.{same_name};
ghost use Rattle.bs_outside.specs.declared.limits.TheConstants.{MAX_MAP_BYTES};
ghost use Rattle.bs_outside.specs.declared.diagnostic.WalkStop.TheVariants.{Plain};
ghost use Rattle.bs_outside.specs.declared.file_fetch.JobFault.TheVariants.{NoMemory as NoRoom};
ghost use Rattle.bs_outside.specs.Telling.{WalksDiagnosed};
ghost use Rattle.bs_top_files.specs.Causes.{CheckSays, NoteSays};
ghost use Rattle.bs_inspect_report.specs.Keys.{input_keys};
ghost use Rattle.bs_inspect_values.specs.SimulatedRun.{is_data, run_in, simulated};
ghost use Rattle.bs_inspect_values.specs.Simulated.{clocked_in, lines_of, run_behind, run_of, run_step, runs_behind, sampled_in, sampled_of, sampled_step, simulated_in, simulated_of};

use crate::keys::input_bytes;
use crate::mapping::names_or_diagnostic;
use crate::ready::{Sampled, Simulated};
use crate::run::{SimulatedRun, simulated};
use crate::values::{Sampling, lines_or_diagnostic};
use bs_bits::{List, NoMemory};
use bs_inspect_names::slices_of;
use bs_inspect_notes::Subject;
use bs_net::Netlist;
use bs_net_names::{KeyParts, key_parts, same_name};
use bs_outside::{File, JobFault, Shelf, WalkStop, fetch_file, settle_diagnostic};
use bs_top_files::load_netlist;
use bs_vcd::SampledLines;
use std::alloc::Global;

/// The name of the clock in a simulation, and the path of a scope, where one is asked for.
#[derive(Clone, Copy)]
pub struct Clocked<'a> {
    pub clock: &'a str,
    pub scope: Option<&'a str>,
}

// ---- the values

/// The inputs just before each rising edge of a file, by the names of the inputs, which have these keys in the netlist.
fn load_lines<S: Shelf>(
    alloc: Global,
    shelf: &mut S,
    keys: &[&[u8]],
    names: &[&[u8]],
    at: Clocked<'_>,
    vcd: &str,
) -> Result<SampledLines, WalkStop>
    ensures { WalksDiagnosed CheckSays NoteSays S.held S.faults S.leads shelf.old shelf.new
        (lines_of (map (λ k. k.now) keys.now) (map (λ n. n.now) names.now) (clocked_in at.entry) vcd.now)
        (λ sampled. sampled) result }
{
    let sampling = Sampling {
        vcd,
        clock: at.clock,
        scope: at.scope,
    };
    let bytes = fetch_file(alloc, shelf, File::Vcd, vcd)?;
    settle_diagnostic(
        File::Vcd,
        lines_or_diagnostic(alloc, &bytes, keys, names, sampling),
    )
}

/// Puts the run of a file at the end.
fn put_run(
    alloc: Global,
    runs: &mut Vec<SimulatedRun>,
    path: &str,
    sampled: SampledLines,
) -> Result<(), NoMemory>
    ensures { OnOk result (map run_in runs.new.items ≡ map run_in runs.old.items ++ simulated path.now sampled ∷ []) }
{
    let run = simulated(alloc, path, sampled)?;
    runs.push(run)?;
    Ok(())
}

/// The same, where memory runs out in the walk.
fn put_or_stop(
    alloc: Global,
    runs: &mut Vec<SimulatedRun>,
    path: &str,
    sampled: SampledLines,
) -> Result<(), WalkStop>
    ensures done { OnOk result (map run_in runs.new.items ≡ map run_in runs.old.items ++ simulated path.now sampled ∷ []) }
    ensures want { IfErr result (λ stop. stop ≡ Plain NoRoom) }
{
    match put_run(alloc, runs, path, sampled) {
        Ok(()) => Ok(()),
        Err(_) => Err(WalkStop::Plain(JobFault::NoMemory)),
    }
}

/// The run of a file, behind others.
fn load_one<S: Shelf>(
    alloc: Global,
    shelf: &mut S,
    keys: &[&[u8]],
    names: &[&[u8]],
    at: Clocked<'_>,
    runs: &mut Vec<SimulatedRun>,
    vcd: &str,
) -> Result<(), WalkStop>
    ensures { WalksDiagnosed CheckSays NoteSays S.held S.faults S.leads shelf.old shelf.new
        (run_behind (map (λ k. k.now) keys.now) (map (λ n. n.now) names.now) (clocked_in at.entry) (map run_in runs.old.items) vcd.now)
        (λ _. map run_in runs.new.items) result }
{
    match load_lines(alloc, shelf, keys, names, at, vcd) {
        Ok(sampled) => put_or_stop(alloc, runs, vcd, sampled),
        Err(stop) => Err(stop),
    }
}

/// A run for each of these files, behind others.
fn load_behind<S: Shelf>(
    alloc: Global,
    shelf: &mut S,
    keys: &[&[u8]],
    names: &[&[u8]],
    at: Clocked<'_>,
    runs: &mut Vec<SimulatedRun>,
    vcds: &[&str],
) -> Result<(), WalkStop>
    ensures { WalksDiagnosed CheckSays NoteSays S.held S.faults S.leads shelf.old shelf.new
        (runs_behind (map (λ k. k.now) keys.now) (map (λ n. n.now) names.now) (clocked_in at.entry) (map run_in runs.old.items) (map (λ s. s.now) vcds.now))
        (λ _. map run_in runs.new.items) result }
{
    match vcds.split_first() {
        None => Ok(()),
        Some((vcd, rest)) => match load_one(alloc, shelf, keys, names, at, runs, vcd) {
            Ok(()) => load_behind(alloc, shelf, keys, names, at, runs, rest),
            Err(stop) => Err(stop),
        },
    }
}

/// Whether one of these names is the clock.
fn any_clock(clock: KeyParts<'_>, names: &[&[u8]]) -> bool
    ensures { result ≡ list_any (λ n. same_name (key_parts n.now) (parts_in clock.entry)) names.now }
{
    names.iter().any(|name| same_name(key_parts(name), clock))
}

/// Whether a clock is one of these names.
#[tactic(auto, using(crate::proofs::SimulatedLemmas::data_by))]
fn is_data(clock: &str, names: &[&[u8]]) -> bool
    ensures { result ≡ is_data clock.now (map (λ n. n.now) names.now) }
{
    let parts = key_parts(clock.as_bytes());
    any_clock(parts, names)
}

/// A run for each of these files, and whether their clock is one of the names.
fn load_sampled<'a, S: Shelf>(
    alloc: Global,
    shelf: &mut S,
    keys: &[&'a [u8]],
    names: &[&'a [u8]],
    at: Clocked<'_>,
    vcds: &[&str],
) -> Result<Sampled, WalkStop>
    ensures { WalksDiagnosed CheckSays NoteSays S.held S.faults S.leads shelf.old shelf.new
        (sampled_of (map (λ k. k.now) keys.now) (map (λ n. n.now) names.now) (clocked_in at.entry) (map (λ s. s.now) vcds.now))
        sampled_in result }
{
    let data_clock = is_data(at.clock, names);
    let mut runs = Vec::new(alloc);
    match load_behind(alloc, shelf, keys, names, at, &mut runs, vcds) {
        Ok(()) => Ok(Sampled { data_clock, runs }),
        Err(stop) => {
            drop(runs);
            Err(stop)
        }
    }
}

// ---- the names

/// The runs of a netlist's data inputs, whose names are their keys.
fn load_keyed<S: Shelf>(
    alloc: Global,
    shelf: &mut S,
    net: &Netlist,
    at: Clocked<'_>,
    vcds: &[&str],
) -> Result<Sampled, WalkStop>
    ensures { WalksDiagnosed CheckSays NoteSays S.held S.faults S.leads shelf.old shelf.new
        (run_of (input_keys net.now.raw) None (clocked_in at.entry) (map (λ s. s.now) vcds.now))
        sampled_in result }
{
    match input_bytes(alloc, net) {
        Ok(keys) => {
            let keys = keys.as_slice();
            load_sampled(alloc, shelf, keys, keys, at, vcds)
        }
        Err(_) => Err(WalkStop::Plain(JobFault::NoMemory)),
    }
}

/// The same, by names that are lent.
fn load_spelled<S: Shelf>(
    alloc: Global,
    shelf: &mut S,
    keys: &[&[u8]],
    names: &List<List<u8>>,
    at: Clocked<'_>,
    vcds: &[&str],
) -> Result<Sampled, WalkStop>
    ensures { WalksDiagnosed CheckSays NoteSays S.held S.faults S.leads shelf.old shelf.new
        (sampled_of (map (λ k. k.now) keys.now) names.now (clocked_in at.entry) (map (λ s. s.now) vcds.now))
        sampled_in result }
{
    match slices_of(alloc, names) {
        Ok(slices) => {
            let slices = slices.as_slice();
            load_sampled(alloc, shelf, keys, slices, at, vcds)
        }
        Err(_) => Err(WalkStop::Plain(JobFault::NoMemory)),
    }
}

/// The same, by the names that a text gives.
fn load_by_names<S: Shelf>(
    alloc: Global,
    shelf: &mut S,
    path: &str,
    text: &[u8],
    keys: &[&[u8]],
    at: Clocked<'_>,
    vcds: &[&str],
) -> Result<Sampled, WalkStop>
    requires { length text.now ≤ MAX_MAP_BYTES }
    ensures { WalksDiagnosed CheckSays NoteSays S.held S.faults S.leads shelf.old shelf.new
        (sampled_step path.now (map (λ k. k.now) keys.now) text.now (clocked_in at.entry) (map (λ s. s.now) vcds.now))
        sampled_in result }
{
    match names_or_diagnostic(alloc, Subject::Inputs, path, text, keys) {
        Ok(names) => load_spelled(alloc, shelf, keys, &names, at, vcds),
        Err(unread) => settle_diagnostic(File::Map, Err(unread)),
    }
}

/// The same, by the names that a text gives the data inputs of a netlist.
fn load_renamed<S: Shelf>(
    alloc: Global,
    shelf: &mut S,
    net: &Netlist,
    path: &str,
    text: &[u8],
    at: Clocked<'_>,
    vcds: &[&str],
) -> Result<Sampled, WalkStop>
    requires { length text.now ≤ MAX_MAP_BYTES }
    ensures { WalksDiagnosed CheckSays NoteSays S.held S.faults S.leads shelf.old shelf.new
        (sampled_step path.now (input_keys net.now.raw) text.now (clocked_in at.entry) (map (λ s. s.now) vcds.now))
        sampled_in result }
{
    match input_bytes(alloc, net) {
        Ok(keys) => {
            let keys = keys.as_slice();
            load_by_names(alloc, shelf, path, text, keys, at, vcds)
        }
        Err(_) => Err(WalkStop::Plain(JobFault::NoMemory)),
    }
}

/// The same, by a file of names.
fn load_named<S: Shelf>(
    alloc: Global,
    shelf: &mut S,
    net: &Netlist,
    file: &str,
    at: Clocked<'_>,
    vcds: &[&str],
) -> Result<Sampled, WalkStop>
    ensures { WalksDiagnosed CheckSays NoteSays S.held S.faults S.leads shelf.old shelf.new
        (run_of (input_keys net.now.raw) (Some file.now) (clocked_in at.entry) (map (λ s. s.now) vcds.now))
        sampled_in result }
{
    let bytes = fetch_file(alloc, shelf, File::Map, file)?;
    load_renamed(alloc, shelf, net, file, &bytes, at, vcds)
}

/// The same, by a file of names where there is one.
fn load_run<S: Shelf>(
    alloc: Global,
    shelf: &mut S,
    net: &Netlist,
    names: Option<&str>,
    at: Clocked<'_>,
    vcds: &[&str],
) -> Result<Sampled, WalkStop>
    ensures { WalksDiagnosed CheckSays NoteSays S.held S.faults S.leads shelf.old shelf.new
        (run_of (input_keys net.now.raw) (option_map (λ s. s.now) names.entry) (clocked_in at.entry) (map (λ s. s.now) vcds.now))
        sampled_in result }
{
    match names {
        Some(file) => load_named(alloc, shelf, net, file, at, vcds),
        None => load_keyed(alloc, shelf, net, at, vcds),
    }
}

// ---- the netlist

/// A netlist with its runs.
fn load_runs<S: Shelf>(
    alloc: Global,
    shelf: &mut S,
    net: Netlist,
    names: Option<&str>,
    at: Clocked<'_>,
    vcds: &[&str],
) -> Result<Simulated, WalkStop>
    ensures { WalksDiagnosed CheckSays NoteSays S.held S.faults S.leads shelf.old shelf.new
        (run_step net.raw (option_map (λ s. s.now) names.entry) (clocked_in at.entry) (map (λ s. s.now) vcds.now))
        simulated_in result }
{
    match load_run(alloc, shelf, &net, names, at, vcds) {
        Ok(sampled) => Ok(Simulated { net, sampled }),
        Err(stop) => {
            drop(net);
            Err(stop)
        }
    }
}

/// A netlist, and a run of a stimulus for each of these files of a simulator's values: the inputs just before each rising edge of a
/// clock.
pub fn load_simulated<S: Shelf>(
    alloc: Global,
    shelf: &mut S,
    netlist: &str,
    names: Option<&str>,
    at: Clocked<'_>,
    vcds: &[&str],
) -> Result<Simulated, WalkStop>
    ensures { WalksDiagnosed CheckSays NoteSays S.held S.faults S.leads shelf.old shelf.new
        (simulated_of netlist.now (option_map (λ s. s.now) names.entry) (clocked_in at.entry) (map (λ s. s.now) vcds.now))
        simulated_in result }
{
    match load_netlist(alloc, shelf, netlist) {
        Ok(net) => load_runs(alloc, shelf, net, names, at, vcds),
        Err(stop) => Err(stop),
    }
}
