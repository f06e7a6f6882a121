//! The nets whose values are settled before any input comes.
ghost use Rattle.std.specs.Prelude.{◌≡◌, ◌<◌, length, map, replicate, true, false, All, IfOk};
ghost use Rattle.bs_net.specs.Circuit.{number};
ghost use Rattle.bs_net.specs.Netlist.{circuit};
ghost use Rattle.bs_wave.specs.Deciding.{marked, decided_marks};

use bs_bits::NoMemory;
use bs_net::{Const, Flop, Gate, NetId, Netlist};
use std::alloc::Global;

/// Gives each of some nets a mark.
fn mark_nets(table: &mut Vec<bool>, nets: &[NetId], bit: bool)
    requires { All (λ n. n.0 < length table.old.items) nets.now }
    ensures wide { length table.new.items ≡ length table.old.items }
    ensures marks { table.new.items ≡ marked bit table.old.items (map number nets.now) }
{
    for net in nets {
        table[net.0 as usize] = bit;
    }
}

/// Gives the outputs of gates the mark of what is not decided.
fn mark_gates(table: &mut Vec<bool>, gates: &[Gate])
    requires { All (λ g. g.out.0 < length table.old.items) gates.now }
    ensures wide { length table.new.items ≡ length table.old.items }
    ensures marks { table.new.items ≡ marked false table.old.items (map (λ g. g.out.0) gates.now) }
{
    for gate in gates {
        table[gate.out.0 as usize] = false;
    }
}

/// Gives the outputs of flip-flops the mark of what is decided.
fn mark_flops(table: &mut Vec<bool>, flops: &[Flop])
    requires { All (λ f. f.q.0 < length table.old.items) flops.now }
    ensures wide { length table.new.items ≡ length table.old.items }
    ensures marks { table.new.items ≡ marked true table.old.items (map number (map (λ f. f.q) flops.now)) }
{
    for flop in flops {
        table[flop.q.0 as usize] = true;
    }
}

/// Gives constants the mark of what is decided.
fn mark_constants(table: &mut Vec<bool>, consts: &[Const])
    requires { All (λ k. k.net.0 < length table.old.items) consts.now }
    ensures wide { length table.new.items ≡ length table.old.items }
    ensures marks { table.new.items ≡ marked true table.old.items (map (λ k. k.net.0) consts.now) }
{
    for constant in consts {
        table[constant.net.0 as usize] = true;
    }
}

/// A table in which every net is decided.
fn all_decided(alloc: Global, count: usize) -> Result<Vec<bool>, NoMemory>
    ensures { IfOk result (λ table. table.items ≡ replicate count true) }
{
    let table = vec![in alloc; true; count]?;
    Ok(table)
}

/// For each net whether its value is settled before any input comes.
pub(crate) fn decided_nets(alloc: Global, net: &Netlist) -> Result<Vec<bool>, NoMemory>
    ensures wide { IfOk result (λ table. length table.items ≡ (circuit net.now).nets) }
    ensures marks { IfOk result (λ table. table.items ≡ decided_marks (circuit net.now)) }
{
    let raw = net.raw();
    let mut table = all_decided(alloc, raw.names.len() as usize)?;
    mark_nets(&mut table, net.data_inputs().slice(), false);
    mark_gates(&mut table, raw.gates.slice());
    mark_flops(&mut table, raw.flops.slice());
    mark_constants(&mut table, raw.consts.slice());
    table[net.clock().0 as usize] = true;
    Ok(table)
}
