//! The flip-flops and data inputs that the nets of a name are computed from through gates.
ghost use Rattle.std.specs.Prelude.{◌≡◌, ◌<◌, ◌++◌, length, All, IfOk, OnOk};
ghost use Rattle.bs_net.specs.Netlist.{parts_of};
ghost use Rattle.bs_net.specs.Order.{gates_in, IsOrder};
ghost use Rattle.bs_net.specs.Parts.{key_at, PartsArePlaced};
ghost use Rattle.bs_net_names.specs.Keys.{key_parts, parts_in};
ghost use Rattle.bs_net_names.specs.Naming.{is_named};
ghost use Rattle.bs_inspect_names.specs.Cone.{IsCone, behind, behind_gate, cone_line, flops_piece, from_line, inputs_piece, is_marked, marked_key, marks, named_nets};

use bs_bits::{NoMemory, end_line, push_piece};
use bs_inspect_netlist::key_at;
use bs_net::{Flop, Gate, NetId, Netlist, Raw};
use bs_net_names::{KeyParts, is_named, key_parts};
use std::alloc::Global;

// ---- the nets behind a name

/// What the key of a net says.
pub(crate) fn parts_at(raw: &Raw, net: u32) -> KeyParts<'_>
    requires { net < length raw.now.names }
    ensures { parts_in result ≡ key_parts (key_at (parts_of raw.now) net) }
{
    key_parts(key_at(raw, net))
}

/// Whether a name is a net's own, or its vector's.
fn has_name(raw: &Raw, name: &[u8], net: u32) -> bool
    requires { net < length raw.now.names }
    ensures { result ≡ is_named (key_parts (key_at (parts_of raw.now) net)) name.now }
{
    is_named(parts_at(raw, net), name)
}

/// The nets with a name.
#[tactic(auto, using(crate::proofs::ConeLemmas::named_more))]
fn named_nets(alloc: Global, raw: &Raw, name: &[u8]) -> Result<Vec<bool>, NoMemory>
    ensures { IfOk result (λ table. table.items ≡ named_nets (parts_of raw.now) name.now (length raw.now.names)) }
{
    let mut table = Vec::new(alloc);
    'nets: for net in 0..raw.names.len() {
        table.push(has_name(raw, name, net))?;
    }
    Ok(table)
}

/// Whether a net is marked.
fn is_marked(table: &[bool], net: u32) -> bool
    ensures { result ≡ is_marked table.now net }
{
    let place = net as usize;
    if place < table.len() {
        table[place]
    } else {
        false
    }
}

/// Marks nets.
fn mark_nets(table: &mut Vec<bool>, nets: &[NetId])
    requires { All (λ n. n.0 < length table.old.items) nets.now }
    ensures marks { table.new.items ≡ marks table.old.items nets.now }
    ensures wide { length table.new.items ≡ length table.old.items }
{
    'nets: for net in nets {
        table[net.0 as usize] = true;
    }
}

/// Marks a gate's inputs, where its output is marked.
#[tactic(auto, using(crate::proofs::ConeLemmas::gate_marked, crate::proofs::ConeLemmas::gate_unmarked, crate::proofs::ConeLemmas::marks_wide))]
fn mark_behind(table: &mut Vec<bool>, gate: &Gate)
    requires { All (λ n. n.0 < length table.old.items) gate.now.ins }
    ensures marks { table.new.items ≡ behind_gate gate.now table.old.items }
    ensures wide { length table.new.items ≡ length table.old.items }
{
    if is_marked(table, gate.out.0) {
        mark_nets(table, gate.ins.slice());
    }
}

/// Marks what is behind the nets that are marked, gate by gate, the last one first.
#[tactic(auto, using(crate::proofs::ConeLemmas::behind_start, crate::proofs::ConeLemmas::behind_more, crate::proofs::ConeLemmas::behind_end))]
fn mark_all(table: &mut Vec<bool>, gates: &[Gate], order: &[u32])
    requires numbered { All (λ i. i < length gates.now) order.now }
    requires ins { All (λ g. All (λ n. n.0 < length table.old.items) g.ins) gates.now }
    ensures { table.new.items ≡ behind (gates_in order.now gates.now) table.old.items }
{
    'order: for k in 0..order.len() {
        let at = order.len() - 1 - k;
        mark_behind(table, &gates[order[at] as usize]);
    }
}

/// The nets behind a name, with the gates in this order.
fn cone_in(alloc: Global, raw: &Raw, order: &[u32], name: &[u8]) -> Result<Vec<bool>, NoMemory>
    requires placed { PartsArePlaced (parts_of raw.now) }
    requires ordered { IsOrder raw.now.gates order.now }
    ensures { IfOk result (λ table. table.items ≡ behind (gates_in order.now raw.now.gates) (named_nets (parts_of raw.now) name.now (length raw.now.names))) }
{
    let mut table = named_nets(alloc, raw, name)?;
    mark_all(&mut table, raw.gates.slice(), order);
    Ok(table)
}

/// The nets that those of a name are computed from through gates, and these.
pub(crate) fn cone(alloc: Global, net: &Netlist, name: &[u8]) -> Result<Vec<bool>, NoMemory>
    ensures { IfOk result (λ table. IsCone net.now.raw name.now table.items) }
{
    let raw = net.raw();
    let table = cone_in(alloc, raw, net.order().slice(), name)?;
    Ok(table)
}

// ---- the flip-flops and data inputs among them

/// The key of a net; none past the last.
fn key_of(raw: &Raw, net: u32) -> &[u8]
    ensures { result.now ≡ key_at (parts_of raw.now) net }
{
    if net < raw.names.len() {
        key_at(raw, net)
    } else {
        b""
    }
}

/// Appends the key of a net behind a space, where it is marked.
fn push_marked(text: &mut Vec<u8>, raw: &Raw, table: &[bool], net: u32) -> Result<(), NoMemory>
    ensures { OnOk result (text.new.items ≡ text.old.items ++ marked_key (parts_of raw.now) table.now net) }
{
    if !is_marked(table, net) {
        return Ok(());
    }
    push_piece(text, b" ")?;
    push_piece(text, key_of(raw, net))
}

/// Appends the keys of the flip-flops that are marked.
fn push_flops(text: &mut Vec<u8>, raw: &Raw, table: &[bool], flops: &[Flop]) -> Result<(), NoMemory>
    ensures { OnOk result (text.new.items ≡ text.old.items ++ flops_piece (parts_of raw.now) table.now flops.now) }
{
    'flops: for flop in flops {
        push_marked(text, raw, table, flop.q.0)?;
    }
    Ok(())
}

/// Appends the keys of the data inputs that are marked.
fn push_inputs(
    text: &mut Vec<u8>,
    raw: &Raw,
    table: &[bool],
    inputs: &[NetId],
) -> Result<(), NoMemory>
    ensures { OnOk result (text.new.items ≡ text.old.items ++ inputs_piece (parts_of raw.now) table.now inputs.now) }
{
    'inputs: for input in inputs {
        push_marked(text, raw, table, input.0)?;
    }
    Ok(())
}

/// Appends the line of these flip-flops and data inputs, as far as they are marked.
fn push_from(
    text: &mut Vec<u8>,
    raw: &Raw,
    table: &[bool],
    flops: &[Flop],
    inputs: &[NetId],
) -> Result<(), NoMemory>
    ensures { OnOk result (text.new.items ≡ text.old.items ++ from_line (parts_of raw.now) table.now flops.now inputs.now) }
{
    push_piece(text, b"from")?;
    push_flops(text, raw, table, flops)?;
    push_inputs(text, raw, table, inputs)?;
    end_line(text)
}

/// Appends the line of a name whose nets show no flip-flop.
#[tactic(auto, using(crate::proofs::ConeLemmas::line_put))]
pub(crate) fn push_cone_line(
    text: &mut Vec<u8>,
    net: &Netlist,
    table: &[bool],
) -> Result<(), NoMemory>
    ensures { OnOk result (text.new.items ≡ text.old.items ++ cone_line net.now.raw table.now) }
{
    let raw = net.raw();
    let flops = raw.flops.slice();
    let inputs = net.data_inputs().slice();
    push_from(text, raw, table, flops, inputs)?;
    Ok(())
}
