//! What a log is about.
use bs_bits::List;
use bs_clause::{Clauses, Lits};

/// Clauses over the variables 1 to `vars`, and the assumptions of each step.
#[derive(Clone, Copy)]
pub struct Problem<'a> {
    pub vars: u32,
    pub clauses: &'a Clauses,
    pub steps: &'a List<Lits>,
}
