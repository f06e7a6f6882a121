//! The units of the constants and of the nets that show 0.
ghost use Rattle.std.specs.Prelude.{◌≡◌, ◌<◌, ◌≤◌, ◌+◌, ◌++◌, ◌==◌, ◌&&◌, ℕ, not, true, false, None, Option, length, map, replicate, All, IfOk, OnOk};
ghost use Rattle.std.specs.Prelude.{slice_index_or, slice_set};
ghost use Rattle.std.specs.List.{flat_map, range_with_len, list_any};
ghost use Rattle.bs_net.specs.declared.limits.TheConstants.{MAX_NETS};
ghost use Rattle.bs_net.specs.Circuit.{number, drivers};
ghost use Rattle.bs_net.specs.Netlist.{circuit};
ghost use Rattle.bs_clause.specs.Literal.{IsVariable};
ghost use Rattle.bs_encode.specs.Units.{units_of, table_units, with_constants, AreZeros};

use crate::gate_clauses::add_unit;
use bs_bits::List;
use bs_clause::{Clauses, Lit, NoMemory, Var};
use bs_net::{Const, Flop, Gate, NetId, Netlist};
use std::alloc::Global;

/// The numbers of nets.
fn add_numbers(into: &mut List<u32>, nets: &[NetId]) -> Result<(), NoMemory>
    ensures { OnOk result (into.new ≡ into.old ++ map number nets.now) }
{
    for net in nets {
        into.push(net.0)?;
    }
    Ok(())
}

/// The nets that flip-flops drive.
fn add_states(into: &mut List<u32>, flops: &[Flop]) -> Result<(), NoMemory>
    ensures { OnOk result (into.new ≡ into.old ++ map number (map (λ f. f.q) flops.now)) }
{
    for flop in flops {
        into.push(flop.q.0)?;
    }
    Ok(())
}

/// The nets of constants.
fn add_constants(into: &mut List<u32>, consts: &[Const]) -> Result<(), NoMemory>
    ensures { OnOk result (into.new ≡ into.old ++ map (λ k. k.net.0) consts.now) }
{
    for constant in consts {
        into.push(constant.net.0)?;
    }
    Ok(())
}

/// The nets that gates drive.
fn add_outputs(into: &mut List<u32>, gates: &[Gate]) -> Result<(), NoMemory>
    ensures { OnOk result (into.new ≡ into.old ++ map (λ g. g.out.0) gates.now) }
{
    for gate in gates {
        into.push(gate.out.0)?;
    }
    Ok(())
}

/// The driven nets, once for each driver, without the clock.
fn driven_nets(alloc: Global, net: &Netlist) -> Result<List<u32>, NoMemory>
    ensures { IfOk result (λ l. l ≡ drivers (circuit net.now)) }
{
    let raw = net.raw();
    let mut nets = List::new(alloc);
    add_numbers(&mut nets, net.data_inputs().slice())?;
    add_states(&mut nets, raw.flops.slice())?;
    add_constants(&mut nets, raw.consts.slice())?;
    add_outputs(&mut nets, raw.gates.slice())?;
    Ok(nets)
}

/// Clears these places of a table.
fn clear(table: &mut Vec<bool>, nets: &[u32])
    requires placed { All (λ n. n < length table.old.items) nets.now }
    ensures wide { length table.new.items ≡ length table.old.items }
    ensures cleared { (k : ℕ) → k < length table.old.items → slice_index_or table.new.items k false ≡ (slice_index_or table.old.items k false && not (list_any (λ m. k == m) nets.now)) }
{
    for &n in nets {
        table[n as usize] = false;
    }
}

/// Marks a place, where the table has it.
#[tactic(auto, using(crate::proofs::UnitLemmas::set_past))]
fn mark(table: &mut Vec<bool>, n: u32)
    ensures { table.new.items ≡ slice_set table.old.items n true }
{
    if (n as usize) < table.len() {
        table[n as usize] = true;
    }
}

/// A table of ones.
fn ones(alloc: Global, count: usize) -> Result<Vec<bool>, NoMemory>
    ensures { IfOk result (λ t. t.items ≡ replicate count true) }
{
    let table = vec![in alloc; true; count]?;
    Ok(table)
}

/// Fills the table of constants.
fn fill_constants(table: &mut Vec<Option<bool>>, consts: &[Const])
    requires placed { All (λ k. k.net.0 < length table.old.items) consts.now }
    ensures value { table.new.items ≡ with_constants table.old.items consts.now }
    ensures wide { length table.new.items ≡ length table.old.items }
{
    for k in consts {
        table[k.net.0 as usize] = Some(k.value);
    }
}

/// The units of one variable.
fn add_net_units(
    alloc: Global,
    into: &mut Clauses,
    v: u32,
    zero: bool,
    value: Option<bool>,
) -> Result<(), NoMemory>
    requires { IsVariable v }
    ensures { OnOk result (into.new ≡ into.old ++ units_of v zero value) }
{
    if let Some(b) = value {
        add_unit(alloc, into, Lit::new(Var(v), b))?;
    }
    if zero {
        add_unit(alloc, into, Lit::new(Var(v), false))?;
    }
    Ok(())
}

/// The units of all nets, in their order.
pub(crate) fn add_units(
    alloc: Global,
    into: &mut Clauses,
    zero: &[bool],
    values: &[Option<bool>],
) -> Result<(), NoMemory>
    requires same { length values.now ≡ length zero.now }
    requires few { length zero.now ≤ MAX_NETS }
    ensures { OnOk result (into.new ≡ into.old ++ flat_map (table_units zero.now values.now) (range_with_len 0 (length zero.now))) }
{
    for n in 0..zero.len() {
        add_net_units(alloc, into, n as u32 + 1, zero[n], values[n])?;
    }
    Ok(())
}

/// The nets that show 0 in every settled valuation.
pub(crate) fn zero_nets(alloc: Global, net: &Netlist) -> Result<Vec<bool>, NoMemory>
    ensures { IfOk result (λ t. AreZeros (circuit net.now) t.items) }
{
    let _order = net.order();
    let driven = driven_nets(alloc, net)?;
    let mut table = ones(alloc, net.raw().names.len() as usize)?;
    clear(&mut table, driven.slice());
    mark(&mut table, net.clock().0);
    Ok(table)
}

/// No constants.
fn no_constants(alloc: Global, count: usize) -> Result<Vec<Option<bool>>, NoMemory>
    ensures { IfOk result (λ t. t.items ≡ replicate count None) }
{
    let table = vec![in alloc; None; count]?;
    Ok(table)
}

/// The constant of each net, where it has one.
pub(crate) fn constant_table(
    alloc: Global,
    count: usize,
    consts: &[Const],
) -> Result<Vec<Option<bool>>, NoMemory>
    requires { All (λ k. k.net.0 < count) consts.now }
    ensures value { IfOk result (λ t. t.items ≡ with_constants (replicate count None) consts.now) }
    ensures wide { IfOk result (λ t. length t.items ≡ count) }
{
    let mut table = no_constants(alloc, count)?;
    fill_constants(&mut table, consts);
    Ok(table)
}
