//! Tables of how often each net is named, up to twice.
ghost use Rattle.std.specs.Prelude.{◌≡◌, ◌<◌, length, replicate, map, All, IfOk, slice_set};
ghost use Rattle.std.specs.List.{flat_map};
ghost use Rattle.bs_net.specs.Tallies.{raised, tallied, tallies_of, tally_at};
ghost use Rattle.bs_net.specs.Netlist.{parts_of};
ghost use Rattle.bs_net.specs.Parts.{PartsArePlaced, IsModePlaced, mode_nets, load_nets};
ghost use Rattle.bs_net.specs.Check.{driver_nets, reader_nets};

use crate::net::{Const, Flop, Gate, Mode, NetId};
use crate::raw::Raw;
use bs_bits::NoMemory;
use std::alloc::Global;

/// How often a net is named.
#[derive(Clone, Copy)]
pub(crate) enum UseCount {
    Never,
    Once,
    Often,
}

/// The tally after one more.
fn raised(tally: UseCount) -> UseCount
    ensures { result ≡ raised tally }
{
    match tally {
        UseCount::Never => UseCount::Once,
        UseCount::Once => UseCount::Often,
        UseCount::Often => UseCount::Often,
    }
}

/// Counts a net once more.
fn count_net(table: &mut Vec<UseCount>, net: NetId)
    requires { net.0 < length table.old.items }
    ensures { table.new.items ≡ slice_set table.old.items net.0 (raised (tally_at table.old.items net.0)) }
{
    let tally = raised(table[net.0 as usize]);
    table[net.0 as usize] = tally;
}

/// Counts each net where it stands.
fn count_nets(table: &mut Vec<UseCount>, nets: &[NetId])
    requires { All (λ n. n.0 < length table.old.items) nets.now }
    ensures wide { length table.new.items ≡ length table.old.items }
    ensures counts { table.new.items ≡ tallied table.old.items nets.now }
{
    for &net in nets {
        count_net(table, net);
    }
}

/// Counts the nets of the constants.
fn count_constants(table: &mut Vec<UseCount>, consts: &[Const])
    requires { All (λ k. k.net.0 < length table.old.items) consts.now }
    ensures wide { length table.new.items ≡ length table.old.items }
    ensures counts { table.new.items ≡ tallied table.old.items (map (λ k. k.net) consts.now) }
{
    for constant in consts {
        count_net(table, constant.net);
    }
}

/// Counts the gates' outputs.
fn count_outputs(table: &mut Vec<UseCount>, gates: &[Gate])
    requires { All (λ g. g.out.0 < length table.old.items) gates.now }
    ensures wide { length table.new.items ≡ length table.old.items }
    ensures counts { table.new.items ≡ tallied table.old.items (map (λ g. g.out) gates.now) }
{
    for gate in gates {
        count_net(table, gate.out);
    }
}

/// Counts the gates' inputs.
fn count_inputs(table: &mut Vec<UseCount>, gates: &[Gate])
    requires { All (λ g. All (λ n. n.0 < length table.old.items) g.ins) gates.now }
    ensures wide { length table.new.items ≡ length table.old.items }
    ensures counts { table.new.items ≡ tallied table.old.items (flat_map (λ g. g.ins) gates.now) }
{
    for gate in gates {
        count_nets(table, gate.ins.slice());
    }
}

/// Counts the flip-flops' outputs.
fn count_states(table: &mut Vec<UseCount>, flops: &[Flop])
    requires { All (λ f. f.q.0 < length table.old.items) flops.now }
    ensures wide { length table.new.items ≡ length table.old.items }
    ensures counts { table.new.items ≡ tallied table.old.items (map (λ f. f.q) flops.now) }
{
    for flop in flops {
        count_net(table, flop.q);
    }
}

/// Counts the net of an enable or of a clear.
fn count_mode(table: &mut Vec<UseCount>, mode: Mode)
    requires { IsModePlaced (length table.old.items) mode }
    ensures wide { length table.new.items ≡ length table.old.items }
    ensures counts { table.new.items ≡ tallied table.old.items (mode_nets mode) }
{
    match mode {
        Mode::Plain => {}
        Mode::Enable(enable) => count_net(table, enable),
        Mode::Clear(clear) => count_net(table, clear),
    }
}

/// Counts the nets by which the flip-flops load.
fn count_loads(table: &mut Vec<UseCount>, flops: &[Flop])
    requires { All (λ f. (f.d.0 < length table.old.items) × IsModePlaced (length table.old.items) f.mode) flops.now }
    ensures wide { length table.new.items ≡ length table.old.items }
    ensures counts { table.new.items ≡ tallied table.old.items (flat_map load_nets flops.now) }
{
    for flop in flops {
        count_net(table, flop.d);
        count_mode(table, flop.mode);
    }
}

/// Counts the flip-flops' clocks.
fn count_clocks(table: &mut Vec<UseCount>, flops: &[Flop])
    requires { All (λ f. f.ck.0 < length table.old.items) flops.now }
    ensures wide { length table.new.items ≡ length table.old.items }
    ensures counts { table.new.items ≡ tallied table.old.items (map (λ f. f.ck) flops.now) }
{
    for flop in flops {
        count_net(table, flop.ck);
    }
}

/// A table of nets that are never named.
fn unnamed(alloc: Global, count: usize) -> Result<Vec<UseCount>, NoMemory>
    ensures { IfOk result (λ t. t.items ≡ replicate count UseCount.Never) }
{
    let table = vec![in alloc; UseCount::Never; count]?;
    Ok(table)
}

/// How many drivers each net has.
pub(crate) fn driver_tallies(alloc: Global, raw: &Raw) -> Result<Vec<UseCount>, NoMemory>
    requires { PartsArePlaced (parts_of raw.now) }
    ensures { IfOk result (λ t. t.items ≡ tallies_of (length raw.now.names) (driver_nets (parts_of raw.now))) }
{
    let mut table = unnamed(alloc, raw.names.len() as usize)?;
    count_nets(&mut table, raw.inputs.slice());
    count_states(&mut table, raw.flops.slice());
    count_constants(&mut table, raw.consts.slice());
    count_outputs(&mut table, raw.gates.slice());
    Ok(table)
}

/// How many readers each net has.
pub(crate) fn reader_tallies(alloc: Global, raw: &Raw) -> Result<Vec<UseCount>, NoMemory>
    requires { PartsArePlaced (parts_of raw.now) }
    ensures { IfOk result (λ t. t.items ≡ tallies_of (length raw.now.names) (reader_nets (parts_of raw.now))) }
{
    let mut table = unnamed(alloc, raw.names.len() as usize)?;
    count_inputs(&mut table, raw.gates.slice());
    count_loads(&mut table, raw.flops.slice());
    count_clocks(&mut table, raw.flops.slice());
    count_nets(&mut table, raw.outputs.slice());
    Ok(table)
}
