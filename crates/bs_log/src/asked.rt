//! What a step's list stands on.
use crate::line::Line;
use bs_bits::List;
use bs_clause::{Clauses, Lits};

/// All parts of what is asked for have fewer members than this.
/// So a place among them has four bytes, and sums of ids stay below 2^64.
pub const FEW: usize = 4_294_967_296;

/// A step that a log finishes: clauses over the variables 1 to `vars`, the assumptions of each step, the lines of the log before the
/// step's finish line, the number of the step, counted from 1, and the id of the lemma that finishes it.
#[derive(Clone, Copy)]
pub struct Refuted<'a> {
    pub vars: u32,
    pub clauses: &'a Clauses,
    pub steps: &'a List<Lits>,
    pub lines: &'a [Line],
    pub step: u64,
    pub id: u64,
}
