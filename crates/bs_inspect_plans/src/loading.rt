//! The walk over the files.
ghost use Rattle.std.specs.Prelude.{◌≡◌, length, IfOk};
ghost use Rattle.bs_net.specs.Netlist.{circuit};
ghost use Rattle.bs_outside.specs.Telling.{WalksDiagnosed};
ghost use Rattle.bs_top_files.specs.Causes.{CheckSays, NoteSays};
ghost use Rattle.bs_inspect_files.specs.Taken.{run_files_in};
ghost use Rattle.bs_inspect_plans.specs.Taken.{near_files_in, near_files_of, near_step, state_of};

use crate::reading::state_or_diagnostic;
use crate::ready::NearFiles;
use bs_inspect_files::{RunFiles, load_run_files};
use bs_net::Netlist;
use bs_outside::{File, Shelf, WalkStop, fetch_file, settle_diagnostic};
use bs_scan::Seen;
use std::alloc::Global;

/// Drops a value, which a walk that stops lets go.
fn let_go<T: Drop>(_value: T) {}

/// What is seen of the state in the dump of a file.
fn load_state<S: Shelf>(
    alloc: Global,
    shelf: &mut S,
    net: &Netlist,
    dump: &str,
) -> Result<Seen, WalkStop>
    ensures walks { WalksDiagnosed CheckSays NoteSays S.held S.faults S.leads shelf.old shelf.new
        (state_of net.now.raw dump.now) (λ seen. seen) result }
    ensures size { IfOk result (λ seen. length seen.bits ≡ length (circuit net.now).flops) }
{
    let bytes = fetch_file(alloc, shelf, File::Dump, dump)?;
    settle_diagnostic(File::Dump, state_or_diagnostic(alloc, dump, &bytes, net))
}

/// A netlist and recorded runs, with what is seen of the state in the dump of a file.
fn load_near<S: Shelf>(
    alloc: Global,
    shelf: &mut S,
    run_files: RunFiles,
    dump: &str,
) -> Result<NearFiles, WalkStop>
    ensures { WalksDiagnosed CheckSays NoteSays S.held S.faults S.leads shelf.old shelf.new
        (near_step (run_files_in run_files) dump.now) near_files_in result }
{
    match load_state(alloc, shelf, &run_files.net, dump) {
        Ok(seen) => Ok(NearFiles { run_files, seen }),
        Err(stop) => {
            let_go(run_files);
            Err(stop)
        }
    }
}

/// A netlist, recorded runs, and what is seen of the state of a dump.
pub fn load_near_files<S: Shelf>(
    alloc: Global,
    shelf: &mut S,
    netlist: &str,
    runs: &str,
    dump: &str,
) -> Result<NearFiles, WalkStop>
    ensures { WalksDiagnosed CheckSays NoteSays S.held S.faults S.leads shelf.old shelf.new
        (near_files_of netlist.now runs.now dump.now) near_files_in result }
{
    match load_run_files(alloc, shelf, netlist, runs) {
        Ok(run_files) => load_near(alloc, shelf, run_files, dump),
        Err(stop) => Err(stop),
    }
}
