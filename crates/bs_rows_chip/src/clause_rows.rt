//! Literals, clauses and assignments: each call that takes memory with ample memory, at small and at great sizes.
use bs_clause::{
    Assignment, Clauses, Lit, Lits, NoMemory, VARIABLE_LIMIT, Var, has_literal, resolve,
};
use std::alloc::Global;
use std::test::Fail;

/// The literal of a variable, or of the first one where there is none of this number.
fn literal(variable: u32, positive: bool) -> Lit {
    if 1 <= variable && variable < VARIABLE_LIMIT {
        Lit::new(Var(variable), positive)
    } else {
        Lit::new(Var(1), positive)
    }
}

/// The clause of variable 1, with this sign, and of the positive literals of the others up to the last.
fn clause_up_to(alloc: Global, first: bool, last: u32) -> Result<Lits, NoMemory> {
    let mut clause = Lits::new(alloc);
    clause.push(literal(1, first))?;
    for variable in 1..last {
        clause.push(literal(variable + 1, true))?;
    }
    Ok(clause)
}

/// How many literals the resolvent of two clauses has, where the pivot stands in them.
fn resolvent_len(alloc: Global, left: &Lits, right: &Lits, pivot: Lit) -> Option<usize> {
    if !has_literal(left.slice(), pivot) || !has_literal(right.slice(), pivot.negate()) {
        return None;
    }
    match resolve(alloc, left, right, pivot) {
        Ok(resolvent) => Some(resolvent.len()),
        Err(_) => None,
    }
}

/// How many literals the resolvent of two such clauses has.
fn resolved(alloc: Global, last: u32) -> Result<Option<usize>, NoMemory> {
    let left = clause_up_to(alloc, true, last)?;
    let right = clause_up_to(alloc, false, last)?;
    Ok(resolvent_len(alloc, &left, &right, literal(1, true)))
}

/// How many clauses there are behind this many pushes of a copy.
fn pushed(alloc: Global, clause: &Lits, count: u32) -> Result<usize, NoMemory> {
    let mut clauses = Clauses::new(alloc);
    for _ in 0..count {
        clauses.push(Lits::copy(alloc, clause.slice())?)?;
    }
    Ok(clauses.into_vec().len())
}

/// The value of the last variable before and after it is set.
fn last_values(alloc: Global, last: u32) -> Result<Option<(Option<bool>, Option<bool>)>, NoMemory> {
    if last == 0 {
        return Ok(None);
    }
    let mut values = Assignment::new(alloc, last)?;
    let before = values.get(Var(last));
    values.set(Var(last), Some(false));
    Ok(Some((before, values.get(Var(last)))))
}

/// Whether the copy of a clause of so many literals has these literals.
fn is_copied(alloc: Global, last: u32) -> Result<bool, NoMemory> {
    let clause = clause_up_to(alloc, true, last)?;
    let copied = Lits::copy(alloc, clause.slice())?;
    Ok(copied.slice() == clause.slice() && copied.len() == last as usize)
}

/// How many clauses there are behind this many pushes of a clause of so many literals.
fn pushed_up_to(alloc: Global, last: u32, count: u32) -> Result<usize, NoMemory> {
    let clause = clause_up_to(alloc, true, last)?;
    let count = pushed(alloc, &clause, count)?;
    Ok(count)
}

/// Whether a clause of so many literals is copied, pushed so often and resolved.
fn is_whole(alloc: Global, (last, count, _): &(u32, u32, u32)) -> Result<bool, NoMemory> {
    let want = last.saturating_sub(1) as usize;
    Ok(
        is_copied(alloc, *last)?
            && pushed_up_to(alloc, *last, *count)? == *count as usize
            && resolved(alloc, *last)? == Some(want),
    )
}

/// Whether the last of so many variables is open, and false where it is set.
fn is_set(alloc: Global, (_, _, variables): &(u32, u32, u32)) -> Result<bool, NoMemory> {
    Ok(last_values(alloc, *variables)? == Some((None, Some(false))))
}

/// Numbers of literals, of clauses and of variables.
static SIZES: [(u32, u32, u32); 4] = [(2, 1, 1), (3, 2, 3), (5, 3, 40), (1_000, 5_000, 1_000_000)];

#[test]
fn clauses_small_and_great(rt: HostRuntime) -> Result<(), Fail> {
    for row in &SIZES {
        assert!(rt; is_whole(rt.alloc(), row)?);
    }
    Ok(())
}

#[test]
fn assignments_small_and_great(rt: HostRuntime) -> Result<(), Fail> {
    for row in &SIZES {
        assert!(rt; is_set(rt.alloc(), row)?);
    }
    Ok(())
}
