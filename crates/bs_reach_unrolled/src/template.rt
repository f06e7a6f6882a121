//! Where each literal stands in the clauses of one time frame.
use bs_clause::{Lits, NoMemory};
use std::alloc::Global;

/// For each code of a literal the clauses that it stands in, one after another, and the clauses of one literal.
#[derive(Drop)]
pub(crate) struct Template {
    pub(crate) starts: Vec<u32>,
    pub(crate) clauses: Vec<u32>,
    pub(crate) units: Vec<u32>,
}

/// The number in a place, or 0 past the end.
pub(crate) fn number_at(numbers: &[u32], at: usize) -> u32 {
    if at < numbers.len() { numbers[at] } else { 0 }
}

/// Writes a number where there is the place.
pub(crate) fn write(numbers: &mut Vec<u32>, at: usize, number: u32) {
    if at < numbers.len() {
        numbers[at] = number;
    }
}

/// Counts each literal of a clause at its code.
fn count(starts: &mut Vec<u32>, clause: &Lits) {
    for l in clause.slice() {
        let code = l.code() as usize;
        let more = number_at(starts.as_slice(), code).wrapping_add(1);
        write(starts, code, more);
    }
}

/// Counts the literals of all clauses.
fn count_all(starts: &mut Vec<u32>, clauses: &[Lits]) {
    for clause in clauses {
        count(starts, clause);
    }
}

/// Each number becomes the sum of those up to it.
fn sum_up(starts: &mut Vec<u32>) {
    let mut sum = 0u32;
    for at in 0..starts.len() {
        sum = sum.wrapping_add(number_at(starts.as_slice(), at));
        write(starts, at, sum);
    }
}

/// Notes a clause under each of its literals; the places of a code are filled from their end.
fn note(starts: &mut Vec<u32>, into: &mut Vec<u32>, clause: &Lits, at: usize) {
    for l in clause.slice() {
        let code = l.code() as usize;
        let place = number_at(starts.as_slice(), code).wrapping_sub(1);
        write(starts, code, place);
        write(into, place as usize, (at % 0x1_0000_0000) as u32);
    }
}

/// Notes all clauses.
fn note_all(starts: &mut Vec<u32>, into: &mut Vec<u32>, clauses: &[Lits]) {
    for at in 0..clauses.len() {
        note(starts, into, &clauses[at], at);
    }
}

/// The clauses of one literal.
fn units_of(alloc: Global, clauses: &[Lits]) -> Result<Vec<u32>, NoMemory> {
    let mut units = Vec::new(alloc);
    for at in 0..clauses.len() {
        if clauses[at].len() == 1 {
            units.push((at % 0x1_0000_0000) as u32)?;
        }
    }
    Ok(units)
}

/// So many zeros.
pub(crate) fn zeros(alloc: Global, count: usize) -> Result<Vec<u32>, NoMemory> {
    let numbers = vec![in alloc; 0u32; count]?;
    Ok(numbers)
}

/// The template of clauses over the variables 1 to `vars`.
pub(crate) fn template_of(
    alloc: Global,
    clauses: &[Lits],
    vars: u32,
) -> Result<Template, NoMemory> {
    let mut starts = zeros(alloc, 2 * vars as usize + 3)?;
    count_all(&mut starts, clauses);
    sum_up(&mut starts);
    let all = number_at(starts.as_slice(), 2 * vars as usize + 2) as usize;
    let mut noted = zeros(alloc, all)?;
    note_all(&mut starts, &mut noted, clauses);
    Ok(Template {
        starts,
        clauses: noted,
        units: units_of(alloc, clauses)?,
    })
}
