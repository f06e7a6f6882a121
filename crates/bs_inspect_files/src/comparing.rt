//! All runs beside their VCDs, one after another.
ghost use Rattle.std.specs.Prelude.{◌≡◌, ◌<◌, ◌≤◌, ◌+◌, ◌^◌, ◌++◌, ◌∷◌, [], length, map, IfErr, OnOk};
ghost use Rattle.bs_net.specs.Netlist.{circuit};
ghost use Rattle.bs_outside.specs.declared.diagnostic.WalkStop.TheVariants.{Plain};
ghost use Rattle.bs_outside.specs.declared.file_fetch.JobFault.TheVariants.{NoMemory as NoRoom};
ghost use Rattle.bs_outside.specs.Telling.{WalksDiagnosed};
ghost use Rattle.bs_top_files.specs.Causes.{CheckSays, NoteSays};
ghost use Rattle.bs_inspect_files.specs.Checked.{all_behind, all_of, beside_in, next_of, one_of};

use crate::reading::compared_or_diagnostic;
use bs_bits::NoMemory;
use bs_inspect_check::{Comparison, RunOf};
use bs_inspect_values::Sampling;
use bs_net::Netlist;
use bs_outside::{File, JobFault, Shelf, WalkStop, fetch_file, settle_diagnostic};
use bs_stim::Runs;
use std::alloc::Global;

/// A netlist and recorded runs, the clock of the VCDs, and a scope, where one is asked for.
#[derive(Clone, Copy)]
pub struct Beside<'a> {
    pub net: &'a Netlist,
    pub runs: &'a Runs,
    pub clock: &'a str,
    pub scope: Option<&'a str>,
}

/// The run with a number beside its VCD.
fn load_one<'a, S: Shelf>(
    alloc: Global,
    shelf: &mut S,
    keys: &[&'a [u8]],
    names: &[&'a [u8]],
    beside: Beside<'_>,
    number: u32,
    vcd: &str,
) -> Result<Comparison, WalkStop>
    requires inputs { beside.runs.now.width ≡ length (circuit beside.net.now).inputs }
    requires from_one { 1 ≤ number }
    requires there { number ≤ length beside.runs.now.runs }
    requires flops { length names.now < 2 ^ 32 }
    ensures { WalksDiagnosed CheckSays NoteSays S.held S.faults S.leads shelf.old shelf.new
        (one_of (map (λ k. k.now) keys.now) (map (λ n. n.now) names.now) (beside_in beside.entry) number vcd.now) (λ m. m) result }
{
    let sampling = Sampling {
        vcd,
        clock: beside.clock,
        scope: beside.scope,
    };
    let run = RunOf {
        net: beside.net,
        runs: beside.runs,
        number,
    };
    let bytes = fetch_file(alloc, shelf, File::Vcd, vcd)?;
    settle_diagnostic(
        File::Vcd,
        compared_or_diagnostic(alloc, run, &bytes, keys, names, sampling),
    )
}

/// Puts a comparison at the end.
fn put(comparisons: &mut Vec<Comparison>, comparison: Comparison) -> Result<(), NoMemory>
    ensures { OnOk result (comparisons.new.items ≡ comparisons.old.items ++ comparison ∷ []) }
{
    comparisons.push(comparison)?;
    Ok(())
}

/// The same, where memory runs out in the walk.
fn put_or_stop(comparisons: &mut Vec<Comparison>, comparison: Comparison) -> Result<(), WalkStop>
    ensures done { OnOk result (comparisons.new.items ≡ comparisons.old.items ++ comparison ∷ []) }
    ensures want { IfErr result (λ stop. stop ≡ Plain NoRoom) }
{
    match put(comparisons, comparison) {
        Ok(()) => Ok(()),
        Err(_) => Err(WalkStop::Plain(JobFault::NoMemory)),
    }
}

/// The next run beside its VCD, behind others.
fn load_next<'a, S: Shelf>(
    alloc: Global,
    shelf: &mut S,
    keys: &[&'a [u8]],
    names: &[&'a [u8]],
    beside: Beside<'_>,
    comparisons: &mut Vec<Comparison>,
    vcd: &str,
) -> Result<(), WalkStop>
    requires inputs { beside.runs.now.width ≡ length (circuit beside.net.now).inputs }
    requires there { length comparisons.old.items < length beside.runs.now.runs }
    requires flops { length names.now < 2 ^ 32 }
    ensures walks { WalksDiagnosed CheckSays NoteSays S.held S.faults S.leads shelf.old shelf.new
        (next_of (map (λ k. k.now) keys.now) (map (λ n. n.now) names.now) (beside_in beside.entry) comparisons.old.items vcd.now)
        (λ _. comparisons.new.items) result }
    ensures one { OnOk result (length comparisons.new.items ≡ length comparisons.old.items + 1) }
{
    let _count = beside.runs.count();
    let number = comparisons.len() as u32 + 1;
    match load_one(alloc, shelf, keys, names, beside, number, vcd) {
        Ok(comparison) => put_or_stop(comparisons, comparison),
        Err(stop) => Err(stop),
    }
}

/// The next runs beside their VCDs, behind others.
fn load_behind<'a, S: Shelf>(
    alloc: Global,
    shelf: &mut S,
    keys: &[&'a [u8]],
    names: &[&'a [u8]],
    beside: Beside<'_>,
    comparisons: &mut Vec<Comparison>,
    vcds: &[&str],
) -> Result<(), WalkStop>
    requires inputs { beside.runs.now.width ≡ length (circuit beside.net.now).inputs }
    requires there { length comparisons.old.items + length vcds.now ≤ length beside.runs.now.runs }
    requires flops { length names.now < 2 ^ 32 }
    ensures { WalksDiagnosed CheckSays NoteSays S.held S.faults S.leads shelf.old shelf.new
        (all_behind (map (λ k. k.now) keys.now) (map (λ n. n.now) names.now) (beside_in beside.entry) comparisons.old.items (map (λ s. s.now) vcds.now))
        (λ _. comparisons.new.items) result }
{
    match vcds.split_first() {
        None => Ok(()),
        Some((vcd, rest)) => match load_next(alloc, shelf, keys, names, beside, comparisons, vcd) {
            Ok(()) => load_behind(alloc, shelf, keys, names, beside, comparisons, rest),
            Err(stop) => Err(stop),
        },
    }
}

/// All runs beside their VCDs.
pub(crate) fn load_all<'a, S: Shelf>(
    alloc: Global,
    shelf: &mut S,
    keys: &[&'a [u8]],
    names: &[&'a [u8]],
    beside: Beside<'_>,
    vcds: &[&str],
) -> Result<Vec<Comparison>, WalkStop>
    requires inputs { beside.runs.now.width ≡ length (circuit beside.net.now).inputs }
    requires there { length vcds.now ≤ length beside.runs.now.runs }
    requires flops { length names.now < 2 ^ 32 }
    ensures { WalksDiagnosed CheckSays NoteSays S.held S.faults S.leads shelf.old shelf.new
        (all_of (map (λ k. k.now) keys.now) (map (λ n. n.now) names.now) (beside_in beside.entry) (map (λ s. s.now) vcds.now))
        (λ ms. ms.items) result }
{
    let mut comparisons = Vec::new(alloc);
    match load_behind(alloc, shelf, keys, names, beside, &mut comparisons, vcds) {
        Ok(()) => Ok(comparisons),
        Err(stop) => {
            drop(comparisons);
            Err(stop)
        }
    }
}
