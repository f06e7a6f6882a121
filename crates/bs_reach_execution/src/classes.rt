//! Which variables of one time frame are always equal, or one the other's negation.
use crate::numbers::{NONE, filled, number_or, write};
use crate::template::short;
use bs_clause::{Lit, Lits, NoMemory, is_same};
use std::alloc::Global;

/// A search for a root ends after so many steps.
/// No search comes near: by this bound the loop has an end without a proof that roots are no ring.
const MAX_STEPS: u64 = 1 << 40;

/// For each variable the code of a literal that has its value, its root; and the clauses that do not say that two are equal.
#[derive(Drop)]
pub(crate) struct Classes {
    pub(crate) roots: Vec<u32>,
    pub(crate) clauses: Vec<u32>,
}

/// The code above a literal of this code.
fn above(roots: &[u32], code: u32) -> u32 {
    number_or(roots, (code / 2) as usize, code & 0xffff_fffe) ^ (code & 1)
}

/// The code of the root of the literal of this code. The way up becomes half as long.
fn root_of(roots: &mut Vec<u32>, code: u32) -> u32 {
    let mut at = code;
    for _ in 0..MAX_STEPS {
        let up = above(roots.as_slice(), at);
        if up == at {
            return at;
        }
        let upper = above(roots.as_slice(), up);
        write(roots, (at / 2) as usize, upper ^ (at & 1));
        at = upper;
    }
    at
}

/// Whether two clauses of two literals say that the literals of the first are one the other's negation.
fn are_opposite(a: &[Lit], b: &[Lit]) -> bool {
    if a.len() != 2 || b.len() != 2 {
        return false;
    }
    let first = a[0].negate();
    let second = a[1].negate();
    (is_same(b[0], first) && is_same(b[1], second))
        || (is_same(b[0], second) && is_same(b[1], first))
}

/// Two literals have one root from now on: that of a source, or else the lower one.
fn join(roots: &mut Vec<u32>, sources: &[u32], a: u32, b: u32) {
    let one = root_of(roots, a);
    let other = root_of(roots, b);
    if one / 2 == other / 2 {
        return;
    }
    let source = number_or(sources, (one / 2) as usize, 0) != 0;
    let later = number_or(sources, (other / 2) as usize, 0) != 0;
    if source || (!later && one < other) {
        write(roots, (other / 2) as usize, one ^ (other & 1));
    } else {
        write(roots, (one / 2) as usize, other ^ (one & 1));
    }
}

/// Looks at the clauses in two places. Whether they say that two literals are equal, which then have one root.
fn join_two(roots: &mut Vec<u32>, sources: &[u32], clauses: &[Lits], at: usize) -> bool {
    if at >= clauses.len() || clauses.len() - at < 2 {
        return false;
    }
    let a = clauses[at].slice();
    if !are_opposite(a, clauses[at + 1].slice()) || a.len() != 2 {
        return false;
    }
    join(roots, sources, a[0].code(), a[1].negate().code());
    true
}

/// Looks at all clauses, those that say that two literals are equal standing side by side.
fn join_all(classes: &mut Classes, sources: &[u32], clauses: &[Lits]) -> Result<(), NoMemory> {
    let mut joined = false;
    for at in 0..clauses.len() {
        if joined {
            joined = false;
        } else if join_two(&mut classes.roots, sources, clauses, at) {
            joined = true;
        } else {
            classes.clauses.push(short(at))?;
        }
    }
    Ok(())
}

/// Marks the variables of literals.
fn mark(sources: &mut Vec<u32>, literals: &[Lit]) {
    for l in literals {
        write(sources, l.var().0 as usize, 1);
    }
}

/// Each variable's root is its own.
fn own_roots(alloc: Global, vars: u32) -> Result<Vec<u32>, NoMemory> {
    let mut roots = filled(alloc, NONE, vars as usize + 1)?;
    for at in 0..roots.len() {
        write(&mut roots, at, short(at).wrapping_mul(2));
    }
    Ok(roots)
}

/// Each way up becomes one step.
fn straighten(roots: &mut Vec<u32>) {
    for at in 0..roots.len() {
        let root = root_of(roots, short(at).wrapping_mul(2));
        write(roots, at, root);
    }
}

/// The classes of the variables 1 to `vars` by these clauses; the states and inputs are roots where they can be.
pub(crate) fn classes_of(
    alloc: Global,
    clauses: &[Lits],
    states: &[Lit],
    inputs: &[Lit],
    vars: u32,
) -> Result<Classes, NoMemory> {
    let mut sources = filled(alloc, 0, vars as usize + 1)?;
    mark(&mut sources, states);
    mark(&mut sources, inputs);
    let mut classes = Classes {
        roots: own_roots(alloc, vars)?,
        clauses: Vec::new(alloc),
    };
    join_all(&mut classes, sources.as_slice(), clauses)?;
    straighten(&mut classes.roots);
    Ok(classes)
}
