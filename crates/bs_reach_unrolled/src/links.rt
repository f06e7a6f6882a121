//! Links between time frames: what one time frame shows as the next state, the time frame behind it shows as its state.
ghost use Rattle.std.specs.Prelude.{◌≡◌, ◌+◌, ◌-◌, ◌<◌, ◌≤◌, ◌++◌, [], ◌∷◌, length, IfOk, OnOk};
ghost use Rattle.std.specs.List.{flat_map, range_with_len};
ghost use Rattle.bs_clause.specs.Literal.{IsVariable};
ghost use Rattle.bs_encode.specs.Frame.{link, links};
ghost use Rattle.bs_reach_unrolled.specs.Unrolled.{links_of, next_at};
ghost use Rattle.bs_reach_unrolled.specs.Room.{IsUnrollable};

use bs_clause::{Clauses, Lit, Lits, NoMemory, Var};
use bs_encode::{Encoding, raise_all};
use std::alloc::Global;

/// A clause of two literals.
fn pair(alloc: Global, a: Lit, b: Lit) -> Result<Lits, NoMemory>
    ensures { IfOk result (λ c. c ≡ a ∷ b ∷ []) }
{
    let mut clause = Lits::new(alloc);
    clause.push(a)?;
    clause.push(b)?;
    Ok(clause)
}

/// Puts the clauses that two variables have the same value at the end.
fn add_link(alloc: Global, into: &mut Clauses, n: Var, s: Var) -> Result<(), NoMemory>
    requires next { IsVariable n.0 }
    requires state { IsVariable s.0 }
    ensures { OnOk result (into.new ≡ into.old ++ link n.0 s.0) }
{
    into.push(pair(alloc, Lit::new(n, false), Lit::new(s, true))?)?;
    into.push(pair(alloc, Lit::new(n, true), Lit::new(s, false))?)?;
    Ok(())
}

/// Puts the links of two lists of literals at the end.
fn add_links(
    alloc: Global,
    into: &mut Clauses,
    next: &[Lit],
    states: &[Lit],
) -> Result<(), NoMemory>
    requires { length next.now ≡ length states.now }
    ensures { OnOk result (into.new ≡ into.old ++ links next.now states.now) }
{
    'places: for i in 0..next.len() {
        add_link(alloc, into, next[i].var(), states[i].var())?;
    }
    Ok(())
}

/// Puts the links between a time frame, by its next state, and the one behind it at the end.
fn add_links_to(
    alloc: Global,
    into: &mut Clauses,
    encoding: &Encoding,
    next: &[Lit],
    c: u32,
    k: u32,
) -> Result<(), NoMemory>
    requires unrollable { IsUnrollable encoding.now k }
    requires within { c + 1 < k }
    requires shown { next.now ≡ next_at encoding.now c }
    ensures { OnOk result (into.new ≡ into.old ++ links_of encoding.now c) }
{
    let states = raise_all(alloc, encoding.states(), (c + 1) * encoding.vars())?;
    add_links(alloc, into, next, states.slice())
}

/// Puts the links between a time frame and the one behind it at the end.
fn add_links_of(
    alloc: Global,
    into: &mut Clauses,
    encoding: &Encoding,
    c: u32,
    k: u32,
) -> Result<(), NoMemory>
    requires unrollable { IsUnrollable encoding.now k }
    requires within { c + 1 < k }
    ensures { OnOk result (into.new ≡ into.old ++ links_of encoding.now c) }
{
    let next = raise_all(alloc, encoding.next(), c * encoding.vars())?;
    add_links_to(alloc, into, encoding, next.slice(), c, k)
}

/// Puts the links between all time frames at the end.
pub(crate) fn add_all_links(
    alloc: Global,
    into: &mut Clauses,
    encoding: &Encoding,
    k: u32,
) -> Result<(), NoMemory>
    requires some { 1 ≤ k }
    requires unrollable { IsUnrollable encoding.now k }
    ensures { OnOk result (into.new ≡ into.old ++ flat_map (links_of encoding.now) (range_with_len 0 (k - 1))) }
{
    'frames: for c in 0..k - 1 {
        add_links_of(alloc, into, encoding, c, k)?;
    }
    Ok(())
}
