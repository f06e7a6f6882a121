//! The walk over the file of names with values.
ghost use Rattle.std.specs.Prelude.{◌≡◌, map};
ghost use Rattle.bs_outside.specs.Telling.{WalksDiagnosed};
ghost use Rattle.bs_top_files.specs.Causes.{CheckSays, NoteSays};
ghost use Rattle.bs_inspect_seen.specs.Taken.{named_in, named_of, named_step};

use crate::given::Given;
use crate::reading::givens_or_diagnostic;
use bs_net::Netlist;
use bs_outside::{File, Shelf, WalkStop, settle_diagnostic};
use bs_top_files::load_netlist;
use std::alloc::Global;

/// A netlist, and names of its flip-flops with their values.
#[derive(Drop)]
pub struct Named<'a> {
    pub net: Netlist,
    pub givens: Vec<Given<'a>>,
}

/// Drops a value, which a walk that stops lets go.
fn let_go<T: Drop>(_value: T) {}

/// A netlist with the names and values of words.
fn load_named<'a, S: Shelf>(
    alloc: Global,
    _shelf: &mut S,
    net: Netlist,
    words: &[&'a str],
) -> Result<Named<'a>, WalkStop>
    ensures { WalksDiagnosed CheckSays NoteSays S.held S.faults S.leads _shelf.old _shelf.new
        (named_step net.raw (map (λ s. s.now) words.now)) named_in result }
{
    match settle_diagnostic(File::Name, givens_or_diagnostic(alloc, &net, words)) {
        Ok(givens) => Ok(Named { net, givens }),
        Err(stop) => {
            let_go(net);
            Err(stop)
        }
    }
}

/// A netlist, and names of its flip-flops with their values: each word is `NAME=VALUE`.
pub fn load_named_values<'a, S: Shelf>(
    alloc: Global,
    shelf: &mut S,
    netlist: &str,
    words: &[&'a str],
) -> Result<Named<'a>, WalkStop>
    ensures { WalksDiagnosed CheckSays NoteSays S.held S.faults S.leads shelf.old shelf.new
        (named_of netlist.now (map (λ s. s.now) words.now)) named_in result }
{
    match load_netlist(alloc, shelf, netlist) {
        Ok(net) => load_named(alloc, shelf, net, words),
        Err(stop) => Err(stop),
    }
}
