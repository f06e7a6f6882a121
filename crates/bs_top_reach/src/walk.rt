//! The walk of a search: the netlist, then its state, then its size. A refusal has its line and its note.
ghost use Rattle.std.specs.Prelude.{◌≡◌, length};
ghost use Rattle.bs_net.specs.Netlist.{circuit};
ghost use Rattle.bs_top_files.specs.Causes.{CheckSays, NoteSays};
ghost use Rattle.bs_outside.specs.Telling.{WalksDiagnosed};
ghost use Rattle.bs_top_reach.specs.Target.{sized_step, stated_step, target_of};
ghost use Rattle.bs_top_reach.specs.Shown.{target_in};

use crate::readings::{room_or_diagnostic, state_or_diagnostic};
use crate::target::Target;
use bs_net::Netlist;
use bs_outside::{File, Shelf, WalkStop, settle_diagnostic};
use bs_scan::Seen;
use bs_top_files::load_netlist;
use std::alloc::Global;

/// Drops a value, which a walk that stops lets go.
fn let_go<T: Drop>(_value: T) {}

/// A netlist and a state of it, with a number of cycles for which the search is not too large.
fn load_sized<S: Shelf>(
    alloc: Global,
    _shelf: &mut S,
    net: Netlist,
    state: Seen,
    cycles: u64,
) -> Result<Target, WalkStop>
    requires { length state.bits ≡ length (circuit net).flops }
    ensures { WalksDiagnosed CheckSays NoteSays S.held S.faults S.leads _shelf.old _shelf.new
        (sized_step net.raw state cycles) target_in result }
{
    match settle_diagnostic(File::Netlist, room_or_diagnostic(alloc, &net, cycles)) {
        Ok(()) => Ok(Target { net, state, cycles }),
        Err(stop) => {
            let_go(net);
            let_go(state);
            Err(stop)
        }
    }
}

/// A netlist, with a state of it and such a number of cycles.
fn load_stated<S: Shelf>(
    alloc: Global,
    shelf: &mut S,
    net: Netlist,
    state: &str,
    cycles: u64,
) -> Result<Target, WalkStop>
    ensures { WalksDiagnosed CheckSays NoteSays S.held S.faults S.leads shelf.old shelf.new
        (stated_step net.raw state.now cycles) target_in result }
{
    match settle_diagnostic(File::State, state_or_diagnostic(alloc, state, &net)) {
        Ok(state) => load_sized(alloc, shelf, net, state, cycles),
        Err(stop) => {
            let_go(net);
            Err(stop)
        }
    }
}

/// The netlist of a file, with a state of it and a number of cycles for which the search is not too large.
pub fn load_target<S: Shelf>(
    alloc: Global,
    shelf: &mut S,
    netlist: &str,
    state: &str,
    cycles: u64,
) -> Result<Target, WalkStop>
    ensures { WalksDiagnosed CheckSays NoteSays S.held S.faults S.leads shelf.old shelf.new
        (target_of netlist.now state.now cycles) target_in result }
{
    match load_netlist(alloc, shelf, netlist) {
        Ok(net) => load_stated(alloc, shelf, net, state, cycles),
        Err(stop) => Err(stop),
    }
}
