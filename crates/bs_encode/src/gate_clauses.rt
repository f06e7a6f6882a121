//! The clauses of one gate.
ghost use Rattle.std.specs.Prelude.{◌≡◌, ◌<◌, ◌≤◌, ◌+◌, ◌-◌, ◌∷◌, [], ◌++◌, true, false, length, map, All, IfOk, OnOk};
ghost use Rattle.bs_clause.specs.declared.literal.TheConstants.{VARIABLE_LIMIT};
ghost use Rattle.bs_clause.specs.Literal.{IsVariable};
ghost use Rattle.bs_encode.specs.Tables.{lit, all_clauses, any_clauses, same_clauses, differ_clauses, either_clauses, unless_clauses, odd_clauses, first_clauses, gate_clauses, helpers_of};

use bs_clause::{Clauses, Lit, Lits, NoMemory, Var};
use bs_net::Kind;
use std::alloc::Global;

/// A clause of one literal.
pub(crate) fn add_unit(alloc: Global, into: &mut Clauses, a: Lit) -> Result<(), NoMemory>
    ensures { OnOk result (into.new ≡ into.old ++ (a ∷ []) ∷ []) }
{
    let mut clause = Lits::new(alloc);
    clause.push(a)?;
    into.push(clause)
}

/// A clause of two literals.
fn add_pair(alloc: Global, into: &mut Clauses, a: Lit, b: Lit) -> Result<(), NoMemory>
    ensures { OnOk result (into.new ≡ into.old ++ (a ∷ b ∷ []) ∷ []) }
{
    let mut clause = Lits::new(alloc);
    clause.push(a)?;
    clause.push(b)?;
    into.push(clause)
}

/// A clause of three literals.
pub(crate) fn add_triple(
    alloc: Global,
    into: &mut Clauses,
    a: Lit,
    b: Lit,
    c: Lit,
) -> Result<(), NoMemory>
    ensures { OnOk result (into.new ≡ into.old ++ (a ∷ b ∷ c ∷ []) ∷ []) }
{
    let mut clause = Lits::new(alloc);
    clause.push(a)?;
    clause.push(b)?;
    clause.push(c)?;
    into.push(clause)
}

/// A literal, and one of a sign for each variable.
fn wide(alloc: Global, first: Lit, ins: &[u32], positive: bool) -> Result<Lits, NoMemory>
    requires { All IsVariable ins.now }
    ensures { IfOk result (λ c. c ≡ first ∷ map (λ a. lit a positive) ins.now) }
{
    let mut clause = Lits::new(alloc);
    clause.push(first)?;
    for &a in ins {
        clause.push(Lit::new(Var(a), positive))?;
    }
    Ok(clause)
}

/// The pair of a literal and each input's.
fn add_pairs(
    alloc: Global,
    into: &mut Clauses,
    first: Lit,
    ins: &[u32],
    positive: bool,
) -> Result<(), NoMemory>
    requires { All IsVariable ins.now }
    ensures { OnOk result (into.new ≡ into.old ++ map (λ a. first ∷ lit a positive ∷ []) ins.now) }
{
    for &a in ins {
        add_pair(alloc, into, first, Lit::new(Var(a), positive))?;
    }
    Ok(())
}

/// z has the value `sense` exactly where every input is 1.
fn add_all(
    alloc: Global,
    into: &mut Clauses,
    sense: bool,
    z: u32,
    ins: &[u32],
) -> Result<(), NoMemory>
    requires output { IsVariable z }
    requires inputs { All IsVariable ins.now }
    ensures { OnOk result (into.new ≡ into.old ++ all_clauses sense z ins.now) }
{
    add_pairs(alloc, into, Lit::new(Var(z), !sense), ins, true)?;
    into.push(wide(alloc, Lit::new(Var(z), sense), ins, false)?)
}

/// z has the value `sense` exactly where some input is 1.
fn add_any(
    alloc: Global,
    into: &mut Clauses,
    sense: bool,
    z: u32,
    ins: &[u32],
) -> Result<(), NoMemory>
    requires output { IsVariable z }
    requires inputs { All IsVariable ins.now }
    ensures { OnOk result (into.new ≡ into.old ++ any_clauses sense z ins.now) }
{
    add_pairs(alloc, into, Lit::new(Var(z), sense), ins, false)?;
    into.push(wide(alloc, Lit::new(Var(z), !sense), ins, true)?)
}

/// z has the value `sense` exactly where a is 1.
pub(crate) fn add_same(
    alloc: Global,
    into: &mut Clauses,
    sense: bool,
    z: u32,
    a: u32,
) -> Result<(), NoMemory>
    requires output { IsVariable z }
    requires input { IsVariable a }
    ensures { OnOk result (into.new ≡ into.old ++ same_clauses sense z a) }
{
    add_pair(
        alloc,
        into,
        Lit::new(Var(z), false),
        Lit::new(Var(a), sense),
    )?;
    add_pair(
        alloc,
        into,
        Lit::new(Var(z), true),
        Lit::new(Var(a), !sense),
    )
}

/// z has the value `sense` exactly where a and b differ.
fn add_differ(
    alloc: Global,
    into: &mut Clauses,
    sense: bool,
    z: u32,
    a: u32,
    b: u32,
) -> Result<(), NoMemory>
    requires output { IsVariable z }
    requires left { IsVariable a }
    requires right { IsVariable b }
    ensures { OnOk result (into.new ≡ into.old ++ differ_clauses sense z a b) }
{
    let (on, off) = (Lit::new(Var(z), sense), Lit::new(Var(z), !sense));
    let (a, not_a) = (Lit::new(Var(a), true), Lit::new(Var(a), false));
    let (b, not_b) = (Lit::new(Var(b), true), Lit::new(Var(b), false));
    add_triple(alloc, into, off, a, b)?;
    add_triple(alloc, into, off, not_a, not_b)?;
    add_triple(alloc, into, on, not_a, b)?;
    add_triple(alloc, into, on, a, not_b)
}

/// z has the value of a where `on` is 1, and that of b where it is 0.
pub(crate) fn add_either(
    alloc: Global,
    into: &mut Clauses,
    z: u32,
    on: u32,
    a: u32,
    b: u32,
) -> Result<(), NoMemory>
    requires output { IsVariable z }
    requires chooser { IsVariable on }
    requires left { IsVariable a }
    requires right { IsVariable b }
    ensures { OnOk result (into.new ≡ into.old ++ either_clauses z on a b) }
{
    let (z, not_z) = (Lit::new(Var(z), true), Lit::new(Var(z), false));
    let (on, off) = (Lit::new(Var(on), true), Lit::new(Var(on), false));
    let (a, not_a) = (Lit::new(Var(a), true), Lit::new(Var(a), false));
    let (b, not_b) = (Lit::new(Var(b), true), Lit::new(Var(b), false));
    add_triple(alloc, into, not_z, off, a)?;
    add_triple(alloc, into, z, off, not_a)?;
    add_triple(alloc, into, not_z, on, b)?;
    add_triple(alloc, into, z, on, not_b)
}

/// z is 0 where `off` is 1, and has the value of a where it is 0.
pub(crate) fn add_unless(
    alloc: Global,
    into: &mut Clauses,
    z: u32,
    off: u32,
    a: u32,
) -> Result<(), NoMemory>
    requires output { IsVariable z }
    requires clear { IsVariable off }
    requires input { IsVariable a }
    ensures { OnOk result (into.new ≡ into.old ++ unless_clauses z off a) }
{
    let (z, not_z) = (Lit::new(Var(z), true), Lit::new(Var(z), false));
    let (off, on) = (Lit::new(Var(off), true), Lit::new(Var(off), false));
    let (a, not_a) = (Lit::new(Var(a), true), Lit::new(Var(a), false));
    add_pair(alloc, into, not_z, a)?;
    add_pair(alloc, into, not_z, on)?;
    add_triple(alloc, into, z, not_a, off)
}

/// z has the value `sense` exactly where an odd number of the inputs are 1; helpers from h on.
fn add_chain(
    alloc: Global,
    into: &mut Clauses,
    sense: bool,
    h: u32,
    z: u32,
    ins: &[u32],
) -> Result<(), NoMemory>
    requires some { 1 < length ins.now }
    requires output { IsVariable z }
    requires inputs { All IsVariable ins.now }
    requires helpers { (1 ≤ h) × (h + (length ins.now - 2) ≤ VARIABLE_LIMIT) }
    ensures { OnOk result (into.new ≡ into.old ++ odd_clauses sense h z ins.now) }
{
    let last = ins.len() - 1;
    let mut sum = ins[0];
    for i in 1..last {
        let helper = h + (i as u32 - 1);
        add_differ(alloc, into, true, helper, sum, ins[i])?;
        sum = helper;
    }
    add_differ(alloc, into, sense, z, sum, ins[last])
}

/// The same of a list of any length.
pub(crate) fn add_odd(
    alloc: Global,
    into: &mut Clauses,
    sense: bool,
    h: u32,
    z: u32,
    ins: &[u32],
) -> Result<(), NoMemory>
    requires output { IsVariable z }
    requires inputs { All IsVariable ins.now }
    requires helpers { (1 ≤ h) × (h + (length ins.now - 2) ≤ VARIABLE_LIMIT) }
    ensures { OnOk result (into.new ≡ into.old ++ odd_clauses sense h z ins.now) }
{
    match ins.len() {
        0 => add_unit(alloc, into, Lit::new(Var(z), !sense)),
        1 => add_same(alloc, into, sense, z, ins[0]),
        _ => add_chain(alloc, into, sense, h, z, ins),
    }
}

/// z has the value `sense` exactly where the first input is 1.
fn add_first(
    alloc: Global,
    into: &mut Clauses,
    sense: bool,
    z: u32,
    ins: &[u32],
) -> Result<(), NoMemory>
    requires output { IsVariable z }
    requires inputs { All IsVariable ins.now }
    ensures { OnOk result (into.new ≡ into.old ++ first_clauses sense z ins.now) }
{
    if ins.len() == 0 {
        add_unit(alloc, into, Lit::new(Var(z), !sense))
    } else {
        add_same(alloc, into, sense, z, ins[0])
    }
}

/// z shows the value of a gate of this kind on these inputs; helpers from h on.
pub(crate) fn add_gate(
    alloc: Global,
    into: &mut Clauses,
    kind: Kind,
    h: u32,
    z: u32,
    ins: &[u32],
) -> Result<(), NoMemory>
    requires output { IsVariable z }
    requires inputs { All IsVariable ins.now }
    requires helpers { (1 ≤ h) × (h + helpers_of kind (length ins.now) ≤ VARIABLE_LIMIT) }
    ensures { OnOk result (into.new ≡ into.old ++ gate_clauses kind h z ins.now) }
{
    match kind {
        Kind::And => add_all(alloc, into, true, z, ins),
        Kind::Nand => add_all(alloc, into, false, z, ins),
        Kind::Or => add_any(alloc, into, true, z, ins),
        Kind::Nor => add_any(alloc, into, false, z, ins),
        Kind::Xor => add_odd(alloc, into, true, h, z, ins),
        Kind::Xnor => add_odd(alloc, into, false, h, z, ins),
        Kind::Buf => add_first(alloc, into, true, z, ins),
        Kind::Not => add_first(alloc, into, false, z, ins),
    }
}
