//! The numbers of all nets, gate by gate.
ghost use Rattle.std.specs.Prelude.{◌≡◌, ◌≤◌, ◌<◌, ◌+◌, ◌^◌, length, All, IfOk, IsTrue, map};
ghost use Rattle.bs_net.specs.Netlist.{parts_of};
ghost use Rattle.bs_net.specs.Order.{IsOrder, gates_in};
ghost use Rattle.bs_net.specs.Parts.{PartsArePlaced};
ghost use Rattle.bs_net.specs.Gate.{takes};
ghost use Rattle.bs_inspect_netlist.specs.Marks.{AreMarks, marked, starts};

use crate::mark::{Measure, gate_mark, start_mark};
use bs_bits::NoMemory;
use bs_net::{Gate, Netlist, Raw};
use std::alloc::Global;

/// The numbers of nets that no gate drives.
#[tactic(auto, using(crate::proofs::MarkLemmas::start_more))]
fn starts(alloc: Global, measure: Measure, count: usize) -> Result<Vec<usize>, NoMemory>
    ensures { IfOk result (λ table. table.items ≡ starts measure count) }
{
    let mut table = Vec::new(alloc);
    'nets: for net in 0..count {
        table.push(start_mark(measure, net))?;
    }
    Ok(table)
}

/// Puts in the numbers of the gates' outputs, in order.
fn mark_gates(measure: Measure, table: &mut Vec<usize>, gates: &[Gate], order: &[u32], bound: usize)
    requires numbered { All (λ i. i < length gates.now) order.now }
    requires outs { All (λ g. g.out.0 < length table.old.items) gates.now }
    requires ins { All (λ g. All (λ n. n.0 < length table.old.items) g.ins) gates.now }
    requires taken { All (λ g. IsTrue (takes g.kind (length g.ins))) gates.now }
    requires small { All (λ m. m ≤ bound) table.old.items }
    requires bound { length table.old.items ≤ bound }
    requires room { bound < 2 ^ 32 }
    requires few { length order.now < 2 ^ 32 }
    ensures { table.new.items ≡ marked measure (gates_in order.now gates.now) table.old.items }
{
    'order: for k in 0..order.len() {
        let gate = &gates[order[k] as usize];
        let mark = gate_mark(measure, table, gate, bound + k);
        table[gate.out.0 as usize] = mark;
    }
}

/// The numbers of the nets of a netlist's parts, with its gates in this order.
fn marks_in(
    alloc: Global,
    measure: Measure,
    raw: &Raw,
    order: &[u32],
) -> Result<Vec<usize>, NoMemory>
    requires placed { PartsArePlaced (parts_of raw.now) }
    requires ordered { IsOrder raw.now.gates order.now }
    ensures { IfOk result (λ table. table.items ≡ marked measure (gates_in order.now raw.now.gates) (starts measure (length raw.now.names))) }
{
    let count = raw.names.len() as usize;
    let mut table = starts(alloc, measure, count)?;
    mark_gates(measure, &mut table, raw.gates.slice(), order, count);
    Ok(table)
}

/// The numbers of a netlist's nets.
pub fn marks(alloc: Global, measure: Measure, net: &Netlist) -> Result<Vec<usize>, NoMemory>
    ensures { IfOk result (λ table. AreMarks measure net.now.raw table.items) }
{
    let raw = net.raw();
    let table = marks_in(alloc, measure, raw, net.order().slice())?;
    Ok(table)
}
