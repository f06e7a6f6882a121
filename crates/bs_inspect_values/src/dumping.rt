//! The walk over the files of a dump that a simulation gives: each is fetched and read once, up to the first that stops the walk.
ghost use Rattle.std.specs.Prelude.{◌≡◌, ◌≤◌, ◌<◌, length, map, option_map, All, None, Some, IfOk};
ghost use Rattle.bs_net.specs.Netlist.{circuit};
ghost use Rattle.bs_scan.specs.Choice.{depth_of};
ghost use Rattle.bs_outside.specs.declared.limits.TheConstants.{MAX_MAP_BYTES};
ghost use Rattle.bs_outside.specs.Telling.{WalksDiagnosed};
ghost use Rattle.bs_top_files.specs.Causes.{CheckSays, NoteSays};
ghost use Rattle.bs_inspect_report.specs.Keys.{flop_keys};
ghost use Rattle.bs_inspect_values.specs.Dumped.{back_of, chosen_step, clock_or, dump_step, dumped_in, dumped_of, files_in, states_of, states_step, taken_of, taking_in, taking_of};
ghost use Rattle.bs_inspect_values.specs.Simulated.{clock_key};

use crate::keys::flop_bytes;
use crate::mapping::names_or_diagnostic;
use crate::ready::{Dumped, Signed, Unsigned};
use crate::values::{Sampling, states_or_diagnostic};
use bs_bits::List;
use bs_inspect_names::slices_of;
use bs_inspect_notes::Subject;
use bs_net::{NetId, Netlist};
use bs_outside::{File, JobFault, Shelf, WalkStop, fetch_file, settle_diagnostic};
use bs_scan::Choice;
use bs_top_files::{load_netlist, load_signature};
use bs_vcd::{MarkedStates, When};
use std::alloc::Global;

/// The file of values with the name of the clock there and the path of a scope, where one is asked for; the moment, how many earlier
/// states are taken, and whether bits may be unknown at the moment.
#[derive(Clone, Copy)]
pub struct Taking<'a> {
    pub vcd: &'a str,
    pub clock: &'a str,
    pub scope: Option<&'a str>,
    pub at: When,
    pub back: u64,
    pub partial: bool,
}

/// The names of the files of a dump, the moment, and the clock and the scope, where they are asked for; and whether bits may be unknown at
/// the moment.
#[derive(Clone, Copy)]
pub struct DumpFiles<'a> {
    pub netlist: &'a str,
    pub vcd: &'a str,
    pub at: When,
    pub clock: Option<&'a str>,
    pub scope: Option<&'a str>,
    pub names: Option<&'a str>,
    pub signature: Option<&'a str>,
    pub partial: bool,
}

// ---- the values

/// The states, by the names of the flip-flops, which have these keys in the netlist.
fn load_states<'a, S: Shelf>(
    alloc: Global,
    shelf: &mut S,
    keys: &[&'a [u8]],
    names: &[&'a [u8]],
    taking: Taking<'_>,
) -> Result<MarkedStates, WalkStop>
    ensures walks { WalksDiagnosed CheckSays NoteSays S.held S.faults S.leads shelf.old shelf.new
        (states_of (map (λ k. k.now) keys.now) (map (λ n. n.now) names.now) (taking_in taking.entry))
        (λ taken. taken) result }
    ensures some { IfOk result (λ taken. 0 < length taken.states) }
    ensures wide { IfOk result (λ taken. All (λ s. length s ≡ length names.now) taken.states) }
{
    let sampling = Sampling {
        vcd: taking.vcd,
        clock: taking.clock,
        scope: taking.scope,
    };
    let bytes = fetch_file(alloc, shelf, File::Vcd, taking.vcd)?;
    settle_diagnostic(
        File::Vcd,
        states_or_diagnostic(
            alloc,
            &bytes,
            keys,
            names,
            sampling,
            taking.at,
            taking.back,
            taking.partial,
        ),
    )
}

// ---- the names

/// The states of a netlist's flip-flops, whose names are their keys.
fn load_keyed<S: Shelf>(
    alloc: Global,
    shelf: &mut S,
    net: &Netlist,
    taking: Taking<'_>,
) -> Result<MarkedStates, WalkStop>
    ensures walks { WalksDiagnosed CheckSays NoteSays S.held S.faults S.leads shelf.old shelf.new
        (taken_of (flop_keys net.now.raw) None (taking_in taking.entry)) (λ taken. taken) result }
    ensures some { IfOk result (λ taken. 0 < length taken.states) }
    ensures wide { IfOk result (λ taken. All (λ s. length s ≡ length (circuit net.now).flops) taken.states) }
{
    match flop_bytes(alloc, net) {
        Ok(keys) => {
            let keys = keys.as_slice();
            load_states(alloc, shelf, keys, keys, taking)
        }
        Err(_) => Err(WalkStop::Plain(JobFault::NoMemory)),
    }
}

/// The same, by names that are lent.
fn load_spelled<S: Shelf>(
    alloc: Global,
    shelf: &mut S,
    keys: &[&[u8]],
    names: &List<List<u8>>,
    taking: Taking<'_>,
) -> Result<MarkedStates, WalkStop>
    ensures walks { WalksDiagnosed CheckSays NoteSays S.held S.faults S.leads shelf.old shelf.new
        (states_of (map (λ k. k.now) keys.now) names.now (taking_in taking.entry)) (λ taken. taken) result }
    ensures some { IfOk result (λ taken. 0 < length taken.states) }
    ensures wide { IfOk result (λ taken. All (λ s. length s ≡ length names.now) taken.states) }
{
    match slices_of(alloc, names) {
        Ok(slices) => {
            let slices = slices.as_slice();
            load_states(alloc, shelf, keys, slices, taking)
        }
        Err(_) => Err(WalkStop::Plain(JobFault::NoMemory)),
    }
}

/// The same, by the names that a text gives.
fn load_by_names<S: Shelf>(
    alloc: Global,
    shelf: &mut S,
    path: &str,
    text: &[u8],
    keys: &[&[u8]],
    taking: Taking<'_>,
) -> Result<MarkedStates, WalkStop>
    requires { length text.now ≤ MAX_MAP_BYTES }
    ensures walks { WalksDiagnosed CheckSays NoteSays S.held S.faults S.leads shelf.old shelf.new
        (states_step path.now (map (λ k. k.now) keys.now) text.now (taking_in taking.entry))
        (λ taken. taken) result }
    ensures some { IfOk result (λ taken. 0 < length taken.states) }
    ensures wide { IfOk result (λ taken. All (λ s. length s ≡ length keys.now) taken.states) }
{
    match names_or_diagnostic(alloc, Subject::Flops, path, text, keys) {
        Ok(names) => load_spelled(alloc, shelf, keys, &names, taking),
        Err(unread) => settle_diagnostic(File::Map, Err(unread)),
    }
}

/// The same, by the names that a text gives the flip-flops of a netlist.
fn load_renamed<S: Shelf>(
    alloc: Global,
    shelf: &mut S,
    net: &Netlist,
    path: &str,
    text: &[u8],
    taking: Taking<'_>,
) -> Result<MarkedStates, WalkStop>
    requires { length text.now ≤ MAX_MAP_BYTES }
    ensures walks { WalksDiagnosed CheckSays NoteSays S.held S.faults S.leads shelf.old shelf.new
        (states_step path.now (flop_keys net.now.raw) text.now (taking_in taking.entry))
        (λ taken. taken) result }
    ensures some { IfOk result (λ taken. 0 < length taken.states) }
    ensures wide { IfOk result (λ taken. All (λ s. length s ≡ length (circuit net.now).flops) taken.states) }
{
    match flop_bytes(alloc, net) {
        Ok(keys) => {
            let keys = keys.as_slice();
            load_by_names(alloc, shelf, path, text, keys, taking)
        }
        Err(_) => Err(WalkStop::Plain(JobFault::NoMemory)),
    }
}

/// The same, by a file of names.
fn load_named<S: Shelf>(
    alloc: Global,
    shelf: &mut S,
    net: &Netlist,
    file: &str,
    taking: Taking<'_>,
) -> Result<MarkedStates, WalkStop>
    ensures walks { WalksDiagnosed CheckSays NoteSays S.held S.faults S.leads shelf.old shelf.new
        (taken_of (flop_keys net.now.raw) (Some file.now) (taking_in taking.entry)) (λ taken. taken) result }
    ensures some { IfOk result (λ taken. 0 < length taken.states) }
    ensures wide { IfOk result (λ taken. All (λ s. length s ≡ length (circuit net.now).flops) taken.states) }
{
    let bytes = fetch_file(alloc, shelf, File::Map, file)?;
    load_renamed(alloc, shelf, net, file, &bytes, taking)
}

/// The same, by a file of names where there is one.
fn load_taken<S: Shelf>(
    alloc: Global,
    shelf: &mut S,
    net: &Netlist,
    names: Option<&str>,
    taking: Taking<'_>,
) -> Result<MarkedStates, WalkStop>
    ensures walks { WalksDiagnosed CheckSays NoteSays S.held S.faults S.leads shelf.old shelf.new
        (taken_of (flop_keys net.now.raw) (option_map (λ s. s.now) names.entry) (taking_in taking.entry))
        (λ taken. taken) result }
    ensures some { IfOk result (λ taken. 0 < length taken.states) }
    ensures wide { IfOk result (λ taken. All (λ s. length s ≡ length (circuit net.now).flops) taken.states) }
{
    match names {
        Some(file) => load_named(alloc, shelf, net, file, taking),
        None => load_keyed(alloc, shelf, net, taking),
    }
}

// ---- the signature

/// The key of the netlist's clock.
#[tactic(auto, using(crate::proofs::DumpedLemmas::clock_there, crate::proofs::DumpedLemmas::clock_past))]
pub fn clock_key(net: &Netlist) -> &str
    ensures { result.now ≡ clock_key net.now.raw }
{
    let raw = net.raw();
    let clock = net.clock().0;
    if clock < raw.names.len() {
        raw.names.key(NetId(clock))
    } else {
        ""
    }
}

/// The clock that is asked for, or that of the netlist.
pub fn clock_or<'a>(net: &'a Netlist, clock: Option<&'a str>) -> &'a str
    ensures { result.now ≡ clock_or net.now.raw (option_map (λ s. s.now) clock.entry) }
{
    match clock {
        Some(clock) => clock,
        None => clock_key(net),
    }
}

/// What is taken for a dump.
fn taking_of<'a>(files: DumpFiles<'a>, net: &'a Netlist, back: u64) -> Taking<'a>
    ensures { taking_in result ≡ taking_of (files_in files.entry) net.now.raw back }
{
    Taking {
        vcd: files.vcd,
        clock: clock_or(net, files.clock),
        scope: files.scope,
        at: files.at,
        back,
        partial: files.partial,
    }
}

/// The states of a dump of a netlist without a signature.
fn load_plain<S: Shelf>(
    alloc: Global,
    shelf: &mut S,
    files: DumpFiles<'_>,
    net: &Netlist,
) -> Result<Dumped, WalkStop>
    ensures { WalksDiagnosed CheckSays NoteSays S.held S.faults S.leads shelf.old shelf.new
        (dump_step (files_in files.entry) net.now.raw None) dumped_in result }
{
    let taking = taking_of(files, net, 0);
    match load_taken(alloc, shelf, net, files.names, taking) {
        Ok(taken) => Ok(Dumped::Plain(Unsigned { taken })),
        Err(stop) => Err(stop),
    }
}

/// The states of a dump of a netlist with a signature.
#[tactic(auto, using(crate::proofs::DumpedLemmas::choice_wide))]
fn load_signed<S: Shelf>(
    alloc: Global,
    shelf: &mut S,
    files: DumpFiles<'_>,
    net: &Netlist,
    choice: Choice,
) -> Result<Dumped, WalkStop>
    requires { choice.width ≡ length (circuit net.now).flops }
    ensures { WalksDiagnosed CheckSays NoteSays S.held S.faults S.leads shelf.old shelf.new
        (dump_step (files_in files.entry) net.now.raw (Some choice)) dumped_in result }
{
    let taking = taking_of(files, net, choice.depth() as u64);
    match load_taken(alloc, shelf, net, files.names, taking) {
        Ok(taken) => Ok(Dumped::Whole(Signed { choice, taken })),
        Err(stop) => {
            drop(choice);
            Err(stop)
        }
    }
}

/// The states of a dump of a netlist, with a signature where a file of one is asked for.
fn load_chosen<S: Shelf>(
    alloc: Global,
    shelf: &mut S,
    files: DumpFiles<'_>,
    net: &Netlist,
    signature: Option<&str>,
) -> Result<Dumped, WalkStop>
    ensures { WalksDiagnosed CheckSays NoteSays S.held S.faults S.leads shelf.old shelf.new
        (chosen_step (files_in files.entry) net.now.raw (option_map (λ s. s.now) signature.entry))
        dumped_in result }
{
    match signature {
        None => load_plain(alloc, shelf, files, net),
        Some(file) => load_by_signature(alloc, shelf, files, net, file),
    }
}

/// The same, where there is a file of a signature.
fn load_by_signature<S: Shelf>(
    alloc: Global,
    shelf: &mut S,
    files: DumpFiles<'_>,
    net: &Netlist,
    file: &str,
) -> Result<Dumped, WalkStop>
    ensures { WalksDiagnosed CheckSays NoteSays S.held S.faults S.leads shelf.old shelf.new
        (chosen_step (files_in files.entry) net.now.raw (Some file.now)) dumped_in result }
{
    match load_signature(alloc, shelf, file, net) {
        Ok(choice) => load_signed(alloc, shelf, files, net, choice),
        Err(stop) => Err(stop),
    }
}

/// The same of a netlist that goes with it.
fn load_with<S: Shelf>(
    alloc: Global,
    shelf: &mut S,
    files: DumpFiles<'_>,
    net: Netlist,
) -> Result<Dumped, WalkStop>
    ensures { WalksDiagnosed CheckSays NoteSays S.held S.faults S.leads shelf.old shelf.new
        (chosen_step (files_in files.entry) net.raw (files_in files.entry).signature) dumped_in result }
{
    let dumped = load_chosen(alloc, shelf, files, &net, files.signature);
    drop(net);
    dumped
}

/// The last state of a dump that a simulation gives, behind as many as its signature tells of.
pub fn load_dumped<S: Shelf>(
    alloc: Global,
    shelf: &mut S,
    files: DumpFiles<'_>,
) -> Result<Dumped, WalkStop>
    ensures { WalksDiagnosed CheckSays NoteSays S.held S.faults S.leads shelf.old shelf.new
        (dumped_of (files_in files.entry)) dumped_in result }
{
    match load_netlist(alloc, shelf, files.netlist) {
        Ok(net) => load_with(alloc, shelf, files, net),
        Err(stop) => Err(stop),
    }
}
