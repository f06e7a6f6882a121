//! The clauses of the gates, the flip-flops and the items.
ghost use Rattle.std.specs.Prelude.{◌≡◌, ◌<◌, ◌≤◌, ◌+◌, ◌-◌, ◌^◌, ◌++◌, ◌∷◌, [], true, length, map, All, IfOk, OnOk, sum_by};
ghost use Rattle.bs_net.specs.declared.limits.TheConstants.{MAX_NETS};
ghost use Rattle.bs_net.specs.Parts.{IsFlopPlaced};
ghost use Rattle.bs_clause.specs.declared.literal.TheConstants.{VARIABLE_LIMIT};
ghost use Rattle.bs_clause.specs.Literal.{IsVariable};
ghost use Rattle.bs_encode.specs.Tables.{lit, helpers_of, odd_clauses};
ghost use Rattle.bs_encode.specs.Transition.{net_var, gate_helpers, gates_clauses, next_clauses, load_clauses, item_helpers, items_clauses, item_vars, chosen};

use crate::gate_clauses::{add_either, add_gate, add_odd, add_same, add_unless};
use bs_clause::{Clauses, Lit, Lits, NoMemory, Var};
use bs_net::{Flop, Gate, Kind, Mode, NetId};
use bs_scan::Choice;
use std::alloc::Global;

/// The variable of a net.
pub(crate) fn variable(net: NetId) -> u32
    requires { net.0 < MAX_NETS }
    ensures value { result ≡ net_var net }
    ensures range { IsVariable result }
{
    net.0 + 1
}

/// The variables of nets.
fn variables_of(alloc: Global, nets: &[NetId]) -> Result<Vec<u32>, NoMemory>
    requires { All (λ n. n.0 < MAX_NETS) nets.now }
    ensures value { IfOk result (λ l. l.items ≡ map net_var nets.now) }
    ensures range { IfOk result (λ l. All IsVariable l.items) }
{
    let mut variables = Vec::new(alloc);
    for &net in nets {
        variables.push(variable(net))?;
    }
    Ok(variables)
}

/// How many helpers a gate takes.
fn helpers(kind: Kind, count: usize) -> u32
    requires { count < 2 ^ 32 }
    ensures { result ≡ helpers_of kind count }
{
    match kind {
        Kind::Xor => if count < 2 { 0 } else { count as u32 - 2 },
        Kind::Xnor => if count < 2 { 0 } else { count as u32 - 2 },
        _ => 0,
    }
}

/// The clauses of the gates, whose helpers begin at h; the first variable after them.
pub(crate) fn add_gates(
    alloc: Global,
    into: &mut Clauses,
    h: u32,
    gates: &[Gate],
) -> Result<u32, NoMemory>
    requires outs { All (λ g. g.out.0 < MAX_NETS) gates.now }
    requires ins { All (λ g. All (λ n. n.0 < MAX_NETS) g.ins) gates.now }
    requires few { All (λ g. length g.ins < 2 ^ 32) gates.now }
    requires helpers { (1 ≤ h) × (h + sum_by gate_helpers gates.now ≤ VARIABLE_LIMIT) }
    ensures clauses { OnOk result (into.new ≡ into.old ++ gates_clauses h gates.now) }
    ensures after { IfOk result (λ n. n ≡ h + sum_by gate_helpers gates.now) }
{
    let mut helper = h;
    for gate in gates {
        let ins = variables_of(alloc, gate.ins.slice())?;
        let z = variable(gate.out);
        add_gate(alloc, into, gate.kind, helper, z, ins.as_slice())?;
        helper += helpers(gate.kind, ins.len());
    }
    Ok(helper)
}

/// The clauses of a flip-flop, whose next variable is n.
fn add_load(alloc: Global, into: &mut Clauses, n: u32, flop: &Flop) -> Result<(), NoMemory>
    requires placed { IsFlopPlaced MAX_NETS flop.now }
    requires next { IsVariable n }
    ensures { OnOk result (into.new ≡ into.old ++ load_clauses n flop.now) }
{
    let d = variable(flop.d);
    match flop.mode {
        Mode::Plain => add_same(alloc, into, true, n, d),
        Mode::Enable(e) => add_either(alloc, into, n, variable(e), d, variable(flop.q)),
        Mode::Clear(r) => add_unless(alloc, into, n, variable(r), d),
    }
}

/// The clauses of the flip-flops, whose next variables begin at n.
pub(crate) fn add_next(
    alloc: Global,
    into: &mut Clauses,
    n: u32,
    flops: &[Flop],
) -> Result<(), NoMemory>
    requires placed { All (IsFlopPlaced MAX_NETS) flops.now }
    requires next { (1 ≤ n) × (n + length flops.now ≤ VARIABLE_LIMIT) }
    ensures { OnOk result (into.new ≡ into.old ++ next_clauses n flops.now) }
{
    let mut next = n;
    for flop in flops {
        add_load(alloc, into, next, flop)?;
        next += 1;
    }
    Ok(())
}

/// The members of a list at these places.
fn chosen_of(alloc: Global, from: &[u32], places: &[u32]) -> Result<Vec<u32>, NoMemory>
    requires places { All (λ i. i < length from.now) places.now }
    requires range { All IsVariable from.now }
    ensures value { IfOk result (λ l. l.items ≡ chosen from.now places.now) }
    ensures range { IfOk result (λ l. All IsVariable l.items) }
{
    let mut members = Vec::new(alloc);
    for &i in places {
        members.push(from[i as usize])?;
    }
    Ok(members)
}

/// The clauses of an item over the state's variables, whose own variable goes into `own`; the
/// first variable after it.
fn add_item(
    alloc: Global,
    into: &mut Clauses,
    own: &mut Lits,
    states: &[u32],
    v: u32,
    item: &[u32],
) -> Result<u32, NoMemory>
    requires placed { All (λ i. i < length states.now) item.now }
    requires few { length item.now < VARIABLE_LIMIT }
    requires range { All IsVariable states.now }
    requires room { (1 ≤ v) × (v + item_helpers item.now + 1 ≤ VARIABLE_LIMIT) }
    ensures clauses { OnOk result (into.new ≡ into.old ++ odd_clauses true v (v + item_helpers item.now) (chosen states.now item.now)) }
    ensures own { OnOk result (own.new ≡ own.old ++ lit (v + item_helpers item.now) true ∷ []) }
    ensures after { IfOk result (λ n. n ≡ v + item_helpers item.now + 1) }
{
    let ins = chosen_of(alloc, states, item)?;
    let z = v + helpers(Kind::Xor, item.len());
    add_odd(alloc, into, true, v, z, ins.as_slice())?;
    own.push(Lit::new(Var(z), true))?;
    Ok(z + 1)
}

/// The clauses of the items over the state's variables, whose own variables go into `own`; the
/// first variable after them.
pub(crate) fn add_items(
    alloc: Global,
    into: &mut Clauses,
    own: &mut Lits,
    states: &[u32],
    v: u32,
    choice: &Choice,
) -> Result<u32, NoMemory>
    requires width { choice.now.width ≡ length states.now }
    requires few { All (λ item. length item < VARIABLE_LIMIT) choice.now.items }
    requires range { All IsVariable states.now }
    requires room { (1 ≤ v) × (v + sum_by (λ item. item_helpers item + 1) choice.now.items ≤ VARIABLE_LIMIT) }
    ensures clauses { OnOk result (into.new ≡ into.old ++ items_clauses states.now v choice.now.items) }
    ensures own { OnOk result (own.new ≡ own.old ++ map (λ u. lit u true) (item_vars v choice.now.items)) }
    ensures after { IfOk result (λ n. n ≡ v + sum_by (λ item. item_helpers item + 1) choice.now.items) }
{
    let mut next = v;
    'items: for i in 0..choice.items() {
        let item = choice.item(i);
        next = add_item(alloc, into, own, states, next, item.slice())?;
    }
    Ok(next)
}
