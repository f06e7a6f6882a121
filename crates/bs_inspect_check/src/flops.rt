//! The flip-flops of one run beside those of one VCD.
ghost use Rattle.std.specs.Prelude.{◌≡◌, ◌<◌, ◌≤◌, ◌+◌, ◌^◌, length, map, option_map};
ghost use Rattle.bs_bits.specs.Reading.{Answers};
ghost use Rattle.bs_net.specs.Netlist.{circuit};
ghost use Rattle.bs_stim.specs.Runs.{run_at};
ghost use Rattle.bs_vcd_header.specs.declared.fault.VcdFault.TheVariants.{NoMemory as Want};
ghost use Rattle.bs_vcd_header.specs.Header.{begun_in, header_in};
ghost use Rattle.bs_vcd_header.specs.Tokens.{tokens_from};
ghost use Rattle.bs_vcd.specs.History.{history_of};
ghost use Rattle.bs_inspect_check.specs.Flops.{compared_by, compared_from, compared_of, flops_compared};
ghost use Rattle.bs_vcd.specs.Found.{is_found};
ghost use Rattle.bs_inspect_check.specs.Tallies.{comparison_in, IsBegin, IsSmall, watch_in, whole};

use crate::replay::Replay;
use crate::sources::found_bits;
use crate::tally::{CycleEnd, RunTally, end_cycle};
use crate::walk::{RunWatch, Sources, no_watch, walk};
use bs_bits::{Bits, List};
use bs_net::Netlist;
use bs_net_names::key_parts;
use bs_stim::Runs;
use bs_vcd::{clock_scope, clock_source, found_sources};
use bs_vcd_header::{Behind, HeaderDeclarations, HeaderState, VcdFault, nothing, take_words};
use std::alloc::Global;

/// How many cycles the run has, how many rising edges the VCD, and the time at which its values begin. How many cycles agree before the
/// first one that differs, how many bits are unknown in these, and that one, if there is one. Which flip-flops the VCD has.
#[derive(Drop)]
pub struct FlopComparison {
    pub cycles: u64,
    pub edges: u64,
    pub begin: u64,
    pub agreed: u64,
    pub unknown: u64,
    pub differing: List<CycleEnd>,
    pub found: Bits,
}

/// A netlist, and one of its runs, numbered from 1.
#[derive(Clone, Copy)]
pub struct RunOf<'a> {
    pub net: &'a Netlist,
    pub runs: &'a Runs,
    pub number: u32,
}

/// All cycles, the last of which the end of the text ends.
#[tactic(auto, using(crate::proofs::FlopLemmas::all_walked, crate::proofs::FlopLemmas::all_faulty))]
fn walk_all<'a>(
    alloc: Global,
    sources: Sources<'_>,
    behind: Behind<'a>,
    replay: &mut Replay<'_>,
    watch: &mut RunWatch<'a>,
) -> Result<(), VcdFault>
    requires lines { behind.line + length behind.rest.now < 2 ^ 64 }
    requires short { length behind.rest.now < 2 ^ 62 }
    requires flops { length sources.flops.now < 2 ^ 32 }
    requires none { watch.old.tally.ended ≡ 0 }
    requires small { IsSmall watch.old.tally }
    ensures { Answers Want (λ _. watch_in watch.new replay.new.state) result (whole sources.entry.clock sources.entry.flops.now replay.old.circuit replay.old.run (watch_in watch.old replay.old.state) (history_of (tokens_from behind.entry.line behind.entry.rest.now))) }
{
    walk(alloc, sources, behind.line, behind.rest, replay, watch)?;
    end_cycle(alloc, &watch.known, sources.flops, replay, &mut watch.tally)?;
    Ok(())
}

/// The cycles of a run, from reset on.
#[tactic(auto, using(crate::proofs::FlopLemmas::run_watched, crate::proofs::FlopLemmas::run_faulty, crate::proofs::FlopLemmas::nothing_small, crate::proofs::FlopLemmas::nothing_ended))]
fn watch_run<'a>(
    alloc: Global,
    run: RunOf<'_>,
    sources: Sources<'_>,
    behind: Behind<'a>,
    watch: &mut RunWatch<'a>,
) -> Result<(), VcdFault>
    requires inputs { run.runs.now.width ≡ length (circuit run.net.now).inputs }
    requires from_one { 1 ≤ run.number }
    requires there { run.number ≤ length run.runs.now.runs }
    requires lines { behind.line + length behind.rest.now < 2 ^ 64 }
    requires short { length behind.rest.now < 2 ^ 62 }
    requires flops { length sources.flops.now < 2 ^ 32 }
    requires none { IsBegin watch.old }
    ensures { Answers Want (λ _. comparison_in (length (run_at run.entry.runs.now run.entry.number).inputs) (map is_found sources.entry.flops.now) watch.new) result
        (compared_by (circuit run.entry.net.now) (run_at run.entry.runs.now run.entry.number).inputs sources.entry.clock sources.entry.flops.now (history_of (tokens_from behind.entry.line behind.entry.rest.now))) }
{
    let mut replay = Replay::new(alloc, run.net, run.runs, run.number)?;
    walk_all(alloc, sources, behind, &mut replay, watch)?;
    Ok(())
}

/// What is counted, as an answer.
fn comparison_of(cycles: u32, found: Bits, watch: RunWatch<'_>) -> FlopComparison
    ensures { result ≡ comparison_in cycles found watch.entry }
{
    let RunWatch {
        first,
        known,
        tally,
    } = watch;
    drop(known);
    let RunTally {
        ended,
        agreed,
        unknown,
        differing,
    } = tally;
    FlopComparison {
        cycles: u64::from(cycles),
        edges: ended.saturating_sub(1),
        begin: first.unwrap_or(0),
        agreed,
        unknown,
        differing,
        found,
    }
}

/// A run by the sources of the clock and the flip-flops.
fn compare_sources(
    alloc: Global,
    run: RunOf<'_>,
    sources: Sources<'_>,
    behind: Behind<'_>,
) -> Result<FlopComparison, VcdFault>
    requires inputs { run.runs.now.width ≡ length (circuit run.net.now).inputs }
    requires from_one { 1 ≤ run.number }
    requires there { run.number ≤ length run.runs.now.runs }
    requires lines { behind.line + length behind.rest.now < 2 ^ 64 }
    requires short { length behind.rest.now < 2 ^ 62 }
    requires flops { length sources.flops.now < 2 ^ 32 }
    ensures { Answers Want (λ m. m) result
        (compared_by (circuit run.entry.net.now) (run_at run.entry.runs.now run.entry.number).inputs sources.entry.clock sources.entry.flops.now (history_of (tokens_from behind.entry.line behind.entry.rest.now))) }
{
    let found = found_bits(alloc, sources.flops)?;
    let cycles = run.runs.cycles(run.number);
    let mut watch = no_watch(alloc);
    match watch_run(alloc, run, sources, behind, &mut watch) {
        Ok(()) => Ok(comparison_of(cycles, found, watch)),
        Err(fault) => {
            drop(found);
            drop(watch);
            Err(fault)
        }
    }
}

/// A run by what is declared and the text behind that.
fn compare_declared(
    alloc: Global,
    run: RunOf<'_>,
    declared: &HeaderDeclarations<'_>,
    behind: Behind<'_>,
    scope: Option<&[u8]>,
    clock: &[u8],
    names: &[&[u8]],
) -> Result<FlopComparison, VcdFault>
    requires inputs { run.runs.now.width ≡ length (circuit run.net.now).inputs }
    requires from_one { 1 ≤ run.number }
    requires there { run.number ≤ length run.runs.now.runs }
    requires lines { behind.line + length behind.rest.now < 2 ^ 64 }
    requires short { length behind.rest.now < 2 ^ 62 }
    requires flops { length names.now < 2 ^ 32 }
    ensures { Answers Want (λ m. m) result
        (compared_of (circuit run.entry.net.now) (run_at run.entry.runs.now run.entry.number).inputs (header_in behind.entry declared.now) (option_map (λ path. path.now) scope.entry) clock.now (map (λ name. name.now) names.now)) }
{
    let clock = key_parts(clock);
    let path = clock_scope(scope, clock, declared)?;
    let source = clock_source(declared, path, clock)?;
    let flops = found_sources(alloc, declared, path, names)?;
    let sources = Sources {
        clock: source,
        flops: flops.as_slice(),
    };
    let comparison = compare_sources(alloc, run, sources, behind)?;
    Ok(comparison)
}

/// A run, where so much is read of the declarations.
fn compare_from<'a>(
    alloc: Global,
    run: RunOf<'_>,
    text: &'a [u8],
    scope: Option<&[u8]>,
    clock: &[u8],
    names: &[&[u8]],
    begun: &mut HeaderState<'a>,
) -> Result<FlopComparison, VcdFault>
    requires inputs { run.runs.now.width ≡ length (circuit run.net.now).inputs }
    requires from_one { 1 ≤ run.number }
    requires there { run.number ≤ length run.runs.now.runs }
    requires short { length text.now < 2 ^ 61 }
    requires flops { length names.now < 2 ^ 32 }
    ensures { Answers Want (λ m. m) result
        (compared_from (circuit run.entry.net.now) (run_at run.entry.runs.now run.entry.number).inputs (begun_in begun.old) (tokens_from 1 text.now) (option_map (λ path. path.now) scope.entry) clock.now (map (λ name. name.now) names.now)) }
{
    let behind = take_words(alloc, 1, text, begun)?;
    let comparison = compare_declared(alloc, run, &begun.declared, behind, scope, clock, names)?;
    Ok(comparison)
}

/// The flip-flops of a run of a netlist beside the text of a VCD, in which they have these names. It takes one pass over the text, and
/// keeps of it what the variables have at one time.
pub(crate) fn compare_flops(
    alloc: Global,
    run: RunOf<'_>,
    text: &[u8],
    scope: Option<&[u8]>,
    clock: &[u8],
    names: &[&[u8]],
) -> Result<FlopComparison, VcdFault>
    requires inputs { run.runs.now.width ≡ length (circuit run.net.now).inputs }
    requires from_one { 1 ≤ run.number }
    requires there { run.number ≤ length run.runs.now.runs }
    requires short { length text.now < 2 ^ 61 }
    requires flops { length names.now < 2 ^ 32 }
    ensures { Answers Want (λ m. m) result
        (flops_compared (circuit run.entry.net.now) (run_at run.entry.runs.now run.entry.number).inputs text.now (option_map (λ path. path.now) scope.entry) clock.now (map (λ name. name.now) names.now)) }
{
    let mut begun = nothing(alloc)?;
    let comparison = compare_from(alloc, run, text, scope, clock, names, &mut begun)?;
    Ok(comparison)
}
