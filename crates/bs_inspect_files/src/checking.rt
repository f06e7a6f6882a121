//! The walk over all files.
ghost use Rattle.std.specs.Prelude.{◌≡◌, length, map};
ghost use Rattle.bs_net.specs.Netlist.{circuit};
ghost use Rattle.bs_outside.specs.Telling.{WalksDiagnosed};
ghost use Rattle.bs_top_files.specs.Causes.{CheckSays, NoteSays};
ghost use Rattle.bs_inspect_files.specs.Taken.{run_files_in};
ghost use Rattle.bs_inspect_report.specs.Keys.{flop_keys};
ghost use Rattle.bs_inspect_files.specs.Checked.{all_step, beside_in, beside_of, checked_in, checked_of, checked_step, files_in, named_of};

use crate::comparing::Beside;
use crate::counting::count_or_diagnostic;
use crate::naming::load_named;
use crate::ready::RunFiles;
use crate::tracing::load_run_files;
use bs_inspect_check::Comparison;
use bs_inspect_values::clock_or;
use bs_outside::{File, Shelf, WalkStop, settle_diagnostic};
use std::alloc::Global;

/// The names of the files, and the clock and the scope, where they are asked for.
#[derive(Clone, Copy)]
pub struct CheckFiles<'a> {
    pub netlist: &'a str,
    pub stimulus: &'a str,
    pub clock: Option<&'a str>,
    pub scope: Option<&'a str>,
    pub names: Option<&'a str>,
}

/// A netlist and recorded runs, and the comparison of each.
#[derive(Drop)]
pub struct Checked {
    pub run_files: RunFiles,
    pub comparisons: Vec<Comparison>,
}

/// The comparison of each run of files.
fn load_compared<S: Shelf>(
    alloc: Global,
    shelf: &mut S,
    files: CheckFiles<'_>,
    run_files: &RunFiles,
    vcds: &[&str],
) -> Result<Vec<Comparison>, WalkStop>
    requires { length run_files.now.runs.runs ≡ length vcds.now }
    ensures { WalksDiagnosed CheckSays NoteSays S.held S.faults S.leads shelf.old shelf.new
        (named_of (flop_keys run_files.now.net.raw) (files_in files.entry).names (beside_of (files_in files.entry) (run_files_in run_files.now)) (map (λ s. s.now) vcds.now))
        (λ ms. ms.items) result }
{
    let beside = Beside {
        net: &run_files.net,
        runs: &run_files.runs,
        clock: clock_or(&run_files.net, files.clock),
        scope: files.scope,
    };
    load_named(alloc, shelf, files.names, beside, vcds)
}

/// The same with the netlist.
fn load_all<S: Shelf>(
    alloc: Global,
    shelf: &mut S,
    files: CheckFiles<'_>,
    run_files: RunFiles,
    vcds: &[&str],
) -> Result<Checked, WalkStop>
    requires { length run_files.runs.runs ≡ length vcds.now }
    ensures { WalksDiagnosed CheckSays NoteSays S.held S.faults S.leads shelf.old shelf.new
        (all_step (files_in files.entry) (run_files_in run_files) (map (λ s. s.now) vcds.now)) checked_in result }
{
    match load_compared(alloc, shelf, files, &run_files, vcds) {
        Ok(comparisons) => Ok(Checked {
            run_files,
            comparisons,
        }),
        Err(stop) => {
            drop(run_files);
            Err(stop)
        }
    }
}

/// The same, where there are as many VCDs as runs.
fn load_counted<S: Shelf>(
    alloc: Global,
    shelf: &mut S,
    files: CheckFiles<'_>,
    run_files: RunFiles,
    vcds: &[&str],
) -> Result<Checked, WalkStop>
    ensures { WalksDiagnosed CheckSays NoteSays S.held S.faults S.leads shelf.old shelf.new
        (checked_step (files_in files.entry) (run_files_in run_files) (map (λ s. s.now) vcds.now)) checked_in result }
{
    match settle_diagnostic(
        File::Vcd,
        count_or_diagnostic(alloc, files.stimulus, &run_files.runs, vcds),
    ) {
        Ok(()) => load_all(alloc, shelf, files, run_files, vcds),
        Err(stop) => {
            drop(run_files);
            Err(stop)
        }
    }
}

/// A netlist and recorded runs, and a VCD for each run, with which it is compared.
pub fn load_checked<S: Shelf>(
    alloc: Global,
    shelf: &mut S,
    files: CheckFiles<'_>,
    vcds: &[&str],
) -> Result<Checked, WalkStop>
    ensures { WalksDiagnosed CheckSays NoteSays S.held S.faults S.leads shelf.old shelf.new
        (checked_of (files_in files.entry) (map (λ s. s.now) vcds.now)) checked_in result }
{
    match load_run_files(alloc, shelf, files.netlist, files.stimulus) {
        Ok(run_files) => load_counted(alloc, shelf, files, run_files, vcds),
        Err(stop) => Err(stop),
    }
}
