//! The second time frame, for the cycle before, and its link to the first.
ghost use Rattle.std.specs.Prelude.{◌≡◌, ◌++◌, [], length, IfOk, OnOk, None, Some};
ghost use Rattle.bs_clause.specs.Literal.{IsVariable};
ghost use Rattle.bs_clause.specs.Range.{HasVariables};
ghost use Rattle.bs_encode.specs.Assuming.{signed};
ghost use Rattle.bs_encode.specs.Frame.{raised_all, link, links, under};
ghost use Rattle.bs_encode.specs.Depth.{IsLinkable, link_of, older_clauses};

use crate::encoding::Encoding;
use crate::frames::{add_frame, raise_all};
use crate::gate_clauses::add_triple;
use crate::signs::push_signed;
use bs_bits::Bits;
use bs_clause::{Clauses, Lit, Lits, NoMemory, Var};
use std::alloc::Global;

/// Puts the clauses that under a literal two variables have the same value at the end.
fn add_link(alloc: Global, into: &mut Clauses, l: Lit, n: Var, s: Var) -> Result<(), NoMemory>
    requires next { IsVariable n.0 }
    requires state { IsVariable s.0 }
    ensures { OnOk result (into.new ≡ into.old ++ under l (link n.0 s.0)) }
{
    let off = l.negate();
    add_triple(alloc, into, off, Lit::new(n, false), Lit::new(s, true))?;
    add_triple(alloc, into, off, Lit::new(n, true), Lit::new(s, false))
}

/// Puts the links of two lists of literals under a literal at the end.
fn add_links(
    alloc: Global,
    into: &mut Clauses,
    l: Lit,
    next: &[Lit],
    states: &[Lit],
) -> Result<(), NoMemory>
    requires { length next.now ≡ length states.now }
    ensures { OnOk result (into.new ≡ into.old ++ under l (links next.now states.now)) }
{
    'places: for i in 0..next.len() {
        add_link(alloc, into, l, next[i].var(), states[i].var())?;
    }
    Ok(())
}

/// The literals of the variables of the second time frame.
fn raise_frame(alloc: Global, one: &Encoding, literals: &[Lit]) -> Result<Lits, NoMemory>
    requires linkable { IsLinkable one.now }
    requires range { HasVariables one.now.variables literals.now }
    ensures { IfOk result (λ all. all ≡ raised_all one.now.variables literals.now) }
{
    let all = raise_all(alloc, literals, one.vars())?;
    Ok(all)
}

/// The link of a second time frame and its literals, and those of the first that are true at reset; no link and none where there is
/// one time frame.
pub(crate) struct Older {
    pub(crate) link: Option<Lit>,
    pub(crate) states: Lits,
    pub(crate) inputs: Lits,
    pub(crate) signatures: Lits,
    pub(crate) at_reset: Lits,
}

// One function for every place that drops one, so that the proof of each such place stays small.
impl Drop for Older {
    fn drop(self) {
        let Older {
            link: _,
            states,
            inputs,
            signatures,
            at_reset,
        } = self;
        drop(states);
        drop(inputs);
        drop(signatures);
        drop(at_reset);
    }
}

/// There is no second time frame.
pub(crate) fn no_older(alloc: Global) -> Older
    ensures link { result.link ≡ None }
    ensures states { result.states ≡ [] }
    ensures inputs { result.inputs ≡ [] }
    ensures signatures { result.signatures ≡ [] }
    ensures at_reset { result.at_reset ≡ [] }
{
    Older {
        link: None,
        states: Lits::new(alloc),
        inputs: Lits::new(alloc),
        signatures: Lits::new(alloc),
        at_reset: Lits::new(alloc),
    }
}

/// The literal that links the time frames.
fn link_lit(one: &Encoding) -> Lit
    requires { IsLinkable one.now }
    ensures { result ≡ link_of one.now }
{
    Lit::new(Var(2 * one.vars() + 1), true)
}

/// Writes the literals of the variables of the second time frame.
fn set_raised(
    alloc: Global,
    one: &Encoding,
    literals: &[Lit],
    into: &mut Lits,
) -> Result<(), NoMemory>
    requires linkable { IsLinkable one.now }
    requires range { HasVariables one.now.variables literals.now }
    ensures { OnOk result (into.new ≡ raised_all one.now.variables literals.now) }
{
    *into = raise_frame(alloc, one, literals)?;
    Ok(())
}

/// Writes the link and the literals of a second time frame.
fn fill_older(
    alloc: Global,
    one: &Encoding,
    reset: &Bits,
    older: &mut Older,
) -> Result<(), NoMemory>
    requires linkable { IsLinkable one.now }
    requires width { length one.now.states ≡ length reset.now }
    requires empty { older.old.at_reset ≡ [] }
    ensures link { OnOk result (older.new.link ≡ Some (link_of one.now)) }
    ensures states { OnOk result (older.new.states ≡ raised_all one.now.variables one.now.states) }
    ensures inputs { OnOk result (older.new.inputs ≡ raised_all one.now.variables one.now.inputs) }
    ensures signatures { OnOk result (older.new.signatures ≡ raised_all one.now.variables one.now.signatures) }
    ensures at_reset { OnOk result (older.new.at_reset ≡ signed one.now.states reset.now) }
{
    older.link = Some(link_lit(one));
    set_raised(alloc, one, one.states(), &mut older.states)?;
    set_raised(alloc, one, one.inputs(), &mut older.inputs)?;
    set_raised(alloc, one, one.signatures(), &mut older.signatures)?;
    push_signed(&mut older.at_reset, one.states(), reset)
}

/// The link and the literals of a second time frame.
pub(crate) fn older_literals(alloc: Global, one: &Encoding, reset: &Bits) -> Result<Older, NoMemory>
    requires linkable { IsLinkable one.now }
    requires width { length one.now.states ≡ length reset.now }
    ensures link { IfOk result (λ o. o.link ≡ Some (link_of one.now)) }
    ensures states { IfOk result (λ o. o.states ≡ raised_all one.now.variables one.now.states) }
    ensures inputs { IfOk result (λ o. o.inputs ≡ raised_all one.now.variables one.now.inputs) }
    ensures signatures { IfOk result (λ o. o.signatures ≡ raised_all one.now.variables one.now.signatures) }
    ensures at_reset { IfOk result (λ o. o.at_reset ≡ signed one.now.states reset.now) }
{
    let mut older = no_older(alloc);
    fill_older(alloc, one, reset, &mut older)?;
    Ok(older)
}

/// The clauses of the second time frame, and of its link to the first.
pub(crate) fn older_clauses(alloc: Global, one: &Encoding) -> Result<Clauses, NoMemory>
    requires { IsLinkable one.now }
    ensures { IfOk result (λ all. all ≡ older_clauses one.now) }
{
    let next = raise_frame(alloc, one, one.next())?;
    let mut all = Clauses::new(alloc);
    add_frame(alloc, &mut all, one.clauses().slice(), one.vars())?;
    add_links(alloc, &mut all, link_lit(one), next.slice(), one.states())?;
    Ok(all)
}

/// Puts the clauses at the end of others.
pub(crate) fn append(into: &mut Clauses, more: Clauses) -> Result<(), NoMemory>
    ensures { OnOk result (into.new ≡ into.old ++ more) }
{
    'clauses: for clause in more.into_vec() {
        into.push(clause)?;
    }
    Ok(())
}
