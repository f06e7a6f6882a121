//! Tables of numbers, with an answer for each place, and the codes of literals and constants in them.
use bs_clause::{Lit, NoMemory, VARIABLE_LIMIT, Var};
use std::alloc::Global;

/// A constant, where a literal's code may stand: codes of literals are 2 and more.
pub(crate) const TRUE: u32 = 0;

/// The other constant; the last bit of a code turns it, as that of a literal.
pub(crate) const FALSE: u32 = 1;

/// Neither a constant nor a code.
pub(crate) const NONE: u32 = 0xffff_ffff;

/// The number in a place, or this one past the end.
pub(crate) fn number_or(numbers: &[u32], at: usize, other: u32) -> u32 {
    if at < numbers.len() {
        numbers[at]
    } else {
        other
    }
}

/// Writes a number where there is the place.
pub(crate) fn write(numbers: &mut Vec<u32>, at: usize, number: u32) {
    if at < numbers.len() {
        numbers[at] = number;
    }
}

/// So many times a number.
pub(crate) fn filled(alloc: Global, number: u32, count: usize) -> Result<Vec<u32>, NoMemory> {
    let numbers = vec![in alloc; number; count]?;
    Ok(numbers)
}

/// Writes a number into all places.
pub(crate) fn fill(numbers: &mut Vec<u32>, number: u32) {
    for at in 0..numbers.len() {
        numbers[at] = number;
    }
}

/// The code turned where the literal is negated.
pub(crate) fn turned(code: u32, l: Lit) -> u32 {
    if l.positive() { code } else { code ^ 1 }
}

/// The literal of a code; that of a variable which there is none of is that of the first.
pub(crate) fn literal_of(code: u32) -> Lit {
    let variable = code / 2;
    if variable >= 1 && variable < VARIABLE_LIMIT {
        return Lit::new(Var(variable), code % 2 == 0);
    }
    Lit::new(Var(1), true)
}
