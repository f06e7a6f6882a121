//! A log with what it is about.
ghost use Rattle.std.specs.Prelude.{◌≡◌};
ghost use Rattle.bs_evidence.specs.WholeWalk.{has_finish, is_finish};

use bs_bits::List;
use bs_clause::{Clauses, Lits};
use bs_log::Line;

/// A log: clauses over the variables 1 to `vars`, the assumptions of each step, and all its lines.
#[derive(Clone, Copy)]
pub struct WholeLog<'a> {
    pub vars: u32,
    pub clauses: &'a Clauses,
    pub steps: &'a List<Lits>,
    pub lines: &'a [Line],
}

/// Whether a line finishes a step.
fn is_finish(line: &Line) -> bool
    ensures { result ≡ is_finish line.now }
{
    match line {
        Line::Finish { .. } => true,
        _ => false,
    }
}

/// Whether one of some lines finishes a step.
pub(crate) fn has_finish(lines: &[Line]) -> bool
    ensures { result ≡ has_finish lines.now }
{
    lines.iter().any(|line| is_finish(line))
}
