//! How many places read each net.
ghost use Rattle.std.specs.Prelude.{◌≡◌, ◌≤◌, ◌<◌, ◌+◌, ◌*◌, ◌^◌, ◌∷◌, [], length, map, replicate, All, IfOk};
ghost use Rattle.std.specs.List.{flat_map};
ghost use Rattle.bs_net.specs.Netlist.{parts_of};
ghost use Rattle.bs_net.specs.Parts.{PartsArePlaced, IsFlopPlaced, IsModePlaced, load_nets, mode_nets};
ghost use Rattle.bs_inspect_netlist.specs.Sizes.{fan_outs};
ghost use Rattle.bs_inspect_netlist.specs.Tallies.{counted};
ghost use Rattle.bs_net.specs.declared.limits.TheConstants.{MAX_TERMINALS};

use bs_bits::NoMemory;
use bs_net::{Flop, Gate, MAX_TERMINALS, Mode, NetId, Raw};
use std::alloc::Global;

/// Counts a net once more.
#[tactic(auto, using(crate::proofs::TallyLemmas::raise_small))]
fn count_net(table: &mut Vec<usize>, net: NetId, bound: usize)
    requires placed { net.0 < length table.old.items }
    requires small { All (λ m. m ≤ bound) table.old.items }
    requires room { bound < 2 ^ 63 }
    ensures wide { length table.new.items ≡ length table.old.items }
    ensures counts { table.new.items ≡ counted table.old.items (net ∷ []) }
    ensures small { All (λ m. m ≤ bound + 1) table.new.items }
{
    let count = table[net.0 as usize] + 1;
    table[net.0 as usize] = count;
}

/// Counts each net where it stands.
#[tactic(auto, using(crate::proofs::TallyLemmas::nets_more))]
fn count_nets(table: &mut Vec<usize>, nets: &[NetId], bound: usize)
    requires placed { All (λ n. n.0 < length table.old.items) nets.now }
    requires small { All (λ m. m ≤ bound) table.old.items }
    requires room { bound + length nets.now < 2 ^ 63 }
    ensures wide { length table.new.items ≡ length table.old.items }
    ensures counts { table.new.items ≡ counted table.old.items nets.now }
    ensures small { All (λ m. m ≤ bound + length nets.now) table.new.items }
{
    'nets: for i in 0..nets.len() {
        count_net(table, nets[i], bound + i);
    }
}

/// Counts the gates' inputs.
#[tactic(auto, using(crate::proofs::TallyLemmas::ins_more))]
fn count_inputs(table: &mut Vec<usize>, gates: &[Gate])
    requires placed { All (λ g. All (λ n. n.0 < length table.old.items) g.ins) gates.now }
    requires narrow { All (λ g. length g.ins ≤ MAX_TERMINALS) gates.now }
    requires few { length gates.now < 2 ^ 32 }
    requires none { All (λ m. m ≤ 0) table.old.items }
    ensures wide { length table.new.items ≡ length table.old.items }
    ensures counts { table.new.items ≡ counted table.old.items (flat_map (λ g. g.ins) gates.now) }
    ensures small { All (λ m. m ≤ MAX_TERMINALS * length gates.now) table.new.items }
{
    'gates: for i in 0..gates.len() {
        count_nets(table, gates[i].ins.slice(), MAX_TERMINALS * i);
    }
}

/// Counts the net of an enable or of a clear.
fn count_mode(table: &mut Vec<usize>, mode: Mode, bound: usize)
    requires placed { IsModePlaced (length table.old.items) mode }
    requires small { All (λ m. m ≤ bound) table.old.items }
    requires room { bound < 2 ^ 63 }
    ensures wide { length table.new.items ≡ length table.old.items }
    ensures counts { table.new.items ≡ counted table.old.items (mode_nets mode) }
    ensures small { All (λ m. m ≤ bound + 1) table.new.items }
{
    match mode {
        Mode::Plain => {}
        Mode::Enable(net) => count_net(table, net, bound),
        Mode::Clear(net) => count_net(table, net, bound),
    }
}

/// Counts the nets by which a flip-flop loads.
fn count_load(table: &mut Vec<usize>, flop: Flop, bound: usize)
    requires placed { IsFlopPlaced (length table.old.items) flop }
    requires small { All (λ m. m ≤ bound) table.old.items }
    requires room { bound + 1 < 2 ^ 63 }
    ensures wide { length table.new.items ≡ length table.old.items }
    ensures counts { table.new.items ≡ counted table.old.items (load_nets flop) }
    ensures small { All (λ m. m ≤ bound + 2) table.new.items }
{
    count_net(table, flop.d, bound);
    count_mode(table, flop.mode, bound + 1);
}

/// Counts the nets by which the flip-flops load.
#[tactic(auto, using(crate::proofs::TallyLemmas::loads_more))]
fn count_loads(table: &mut Vec<usize>, flops: &[Flop], bound: usize)
    requires placed { All (IsFlopPlaced (length table.old.items)) flops.now }
    requires small { All (λ m. m ≤ bound) table.old.items }
    requires room { bound < 2 ^ 60 }
    requires few { length flops.now < 2 ^ 32 }
    ensures counts { table.new.items ≡ counted table.old.items (flat_map load_nets flops.now) }
{
    'flops: for i in 0..flops.len() {
        count_load(table, flops[i], bound + 2 * i);
    }
}

/// A table of nets that are never named.
fn none_counted(alloc: Global, count: usize) -> Result<Vec<usize>, NoMemory>
    ensures { IfOk result (λ t. t.items ≡ replicate count 0) }
{
    let table = vec![in alloc; 0usize; count]?;
    Ok(table)
}

/// How many places read each net.
#[tactic(auto, using(crate::proofs::TallyLemmas::readers_counted))]
pub(crate) fn reader_counts(alloc: Global, raw: &Raw) -> Result<Vec<usize>, NoMemory>
    requires placed { PartsArePlaced (parts_of raw.now) }
    requires narrow { All (λ g. length g.ins ≤ MAX_TERMINALS) raw.now.gates }
    ensures { IfOk result (λ t. t.items ≡ fan_outs (parts_of raw.now)) }
{
    let mut table = none_counted(alloc, raw.names.len() as usize)?;
    count_inputs(&mut table, raw.gates.slice());
    count_loads(
        &mut table,
        raw.flops.slice(),
        MAX_TERMINALS * raw.gates.len(),
    );
    Ok(table)
}
