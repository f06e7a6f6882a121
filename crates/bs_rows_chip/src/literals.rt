//! Literals and clauses that are given as numbers.
use bs_clause::{Clauses, Lit, Lits, NoMemory, VARIABLE_LIMIT, Var};
use std::alloc::Global;

/// A literal as a whole number, negative for a negation; that of variable 1 where there is none of this number.
pub fn literal(number: i32) -> Lit {
    let variable = number.unsigned_abs();
    if 1 <= variable && variable < VARIABLE_LIMIT {
        Lit::new(Var(variable), number > 0)
    } else {
        Lit::new(Var(1), true)
    }
}

/// The literals of the first variables, all with this sign.
pub fn first_literals(alloc: Global, count: u16, positive: bool) -> Result<Lits, NoMemory> {
    let mut literals = Lits::new(alloc);
    for number in 0..count {
        let one = literal(i32::from(number) + 1);
        literals.push(if positive { one } else { one.negate() })?;
    }
    Ok(literals)
}

/// A clause of these literals.
pub fn clause(alloc: Global, numbers: &[i32]) -> Result<Lits, NoMemory> {
    let mut literals = Lits::new(alloc);
    for number in numbers {
        literals.push(literal(*number))?;
    }
    Ok(literals)
}

/// These clauses.
pub fn clauses(alloc: Global, rows: &[&[i32]]) -> Result<Clauses, NoMemory> {
    let mut all = Clauses::new(alloc);
    for row in rows {
        all.push(clause(alloc, row)?)?;
    }
    Ok(all)
}

/// The clauses of this one alone.
pub fn one_clause(alloc: Global, clause: Lits) -> Result<Clauses, NoMemory> {
    let mut all = Clauses::new(alloc);
    all.push(clause)?;
    Ok(all)
}
