//! Time frames of clauses over higher variables.
ghost use Rattle.std.specs.Prelude.{◌≡◌, ◌++◌, map, IfOk, OnOk};
ghost use Rattle.bs_encode.specs.Frame.{raised_all, HasRoom, HasRooms};

use bs_clause::{Clauses, Lit, Lits, NoMemory, Var};
use std::alloc::Global;

/// The literals of the variables that are so much higher.
pub fn raise_all(alloc: Global, literals: &[Lit], by: u32) -> Result<Lits, NoMemory>
    requires { HasRoom by literals.now }
    ensures { IfOk result (λ all. all ≡ raised_all by literals.now) }
{
    let mut all = Lits::new(alloc);
    'literals: for l in literals {
        all.push(Lit::new(Var(by + l.var().0), l.positive()))?;
    }
    Ok(all)
}

/// Puts clauses over the variables that are so much higher at the end.
pub fn add_frame(
    alloc: Global,
    into: &mut Clauses,
    clauses: &[Lits],
    by: u32,
) -> Result<(), NoMemory>
    requires { HasRooms by clauses.now }
    ensures { OnOk result (into.new ≡ into.old ++ map (raised_all by) clauses.now) }
{
    'clauses: for clause in clauses {
        into.push(raise_all(alloc, clause.slice(), by)?)?;
    }
    Ok(())
}
