//! The number of a gate's output net by those of its inputs.
ghost use Rattle.std.specs.Prelude.{◌≡◌, ◌≤◌, ◌<◌, ◌+◌, ◌^◌, length, All, IsTrue};
ghost use Rattle.bs_net.specs.Gate.{takes};
ghost use Rattle.bs_inspect_netlist.specs.Marks.{gate_mark, greatest_on, start_mark};

use bs_net::{Gate, Kind, NetId};

/// What is told of each net by a number.
#[derive(Clone, Copy, Debug, PartialEq, Eq)]
pub enum Measure {
    /// The net whose value it shows through `Buf` gates alone.
    Source,
    /// How many gates stand one behind another up to it.
    Level,
}

/// The number of a net that no gate drives.
pub(crate) fn start_mark(measure: Measure, net: usize) -> usize
    ensures { result ≡ start_mark measure net }
{
    match measure {
        Measure::Source => net,
        Measure::Level => 0,
    }
}

/// The greatest number of some nets.
fn greatest_on(table: &[usize], nets: &[NetId], bound: usize) -> usize
    requires placed { All (λ n. n.0 < length table.now) nets.now }
    requires small { All (λ m. m ≤ bound) table.now }
    ensures is { result ≡ greatest_on table.now nets.now }
    ensures small { result ≤ bound }
{
    let mut greatest = 0usize;
    'nets: for net in nets {
        greatest = greatest.max(table[net.0 as usize]);
    }
    greatest
}

/// The number of a gate's output net.
pub(crate) fn gate_mark(measure: Measure, table: &[usize], gate: &Gate, bound: usize) -> usize
    requires placed { All (λ n. n.0 < length table.now) gate.now.ins }
    requires taken { IsTrue (takes gate.now.kind (length gate.now.ins)) }
    requires own { gate.now.out.0 ≤ bound }
    requires small { All (λ m. m ≤ bound) table.now }
    requires room { bound < 2 ^ 63 }
    ensures is { result ≡ gate_mark measure table.now gate.now }
    ensures small { result ≤ bound + 1 }
{
    let ins = gate.ins.slice();
    match (measure, gate.kind) {
        (Measure::Level, _) => greatest_on(table, ins, bound) + 1,
        (Measure::Source, Kind::Buf) => table[ins[0].0 as usize],
        (Measure::Source, _) => gate.out.0 as usize,
    }
}
