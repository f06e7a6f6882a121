//! Executions of one length.
ghost use Rattle.std.specs.Prelude.{◌≡◌, length, IfOk, IfSome};
ghost use Rattle.bs_net.specs.Netlist.{circuit};
ghost use Rattle.bs_reach_unrolled.specs.Execution.{IsExecution};

use crate::folding::{are_narrow, folded_of};
use crate::search::inputs_by;
use crate::trial::tried;
use bs_bits::{Bits, List, NoMemory};
use bs_encode::Encoding;
use bs_net::Netlist;
use bs_scan::Seen;
use std::alloc::Global;

/// The states from reset on, one more than inputs, and the inputs between.
#[derive(Drop)]
pub struct Execution {
    pub states: List<Bits>,
    pub inputs: List<Bits>,
}

/// The inputs of an execution, if they are found.
fn inputs_to(
    alloc: Global,
    net: &Netlist,
    encoding: &Encoding,
    state: &Seen,
    cycles: u32,
    conflicts: u64,
) -> Result<Option<List<Bits>>, NoMemory> {
    if !are_narrow(encoding.clauses().slice()) {
        return Ok(None);
    }
    let folded = folded_of(alloc, encoding, net.reset(), state, cycles)?;
    let width = encoding.inputs().len();
    let inputs = inputs_by(alloc, folded, width, cycles, conflicts)?;
    Ok(inputs)
}

/// An execution of so many cycles from reset to a state that shows this, by the clauses of one cycle of the netlist, if one is found with fewer
/// lemmas than `conflicts`.
pub fn execution_of(
    alloc: Global,
    net: &Netlist,
    encoding: &Encoding,
    state: &Seen,
    cycles: u32,
    conflicts: u64,
) -> Result<Option<Execution>, NoMemory>
    requires width { length state.now.bits ≡ length (circuit net.now).flops }
    ensures { IfOk result (λ o. IfSome o (λ x. IsExecution (circuit net.now) cycles state.now x.states x.inputs)) }
{
    match inputs_to(alloc, net, encoding, state, cycles, conflicts)? {
        None => Ok(None),
        Some(inputs) => {
            let found = tried(alloc, net, inputs, state, cycles)?;
            Ok(found)
        }
    }
}
