//! The clauses of a list beside those of a netlist.
ghost use Rattle.std.specs.Prelude.{◌≡◌, ◌≤◌, ◌+◌, ◌++◌, cond, [], ◌∷◌, OnOk};
ghost use Rattle.std.specs.List.{flat_map};
ghost use Rattle.bs_clause.specs.declared.literal.TheConstants.{VARIABLE_LIMIT};
ghost use Rattle.bs_log.specs.Clauses.{block_at, clause_text, closed_from};

use crate::line::Line;
use crate::words::{push_clause, push_unit};
use bs_bits::NoMemory;
use bs_clause::{Lit, Var};

/// Appends a clause that is wanted.
fn push_if(text: &mut Vec<u8>, wanted: bool, clause: &[Lit]) -> Result<(), NoMemory>
    ensures { OnOk result (text.new.items ≡ text.old.items ++ flat_map clause_text (cond wanted (clause.now ∷ []) [])) }
{
    if wanted {
        push_clause(text, clause)?;
    }
    Ok(())
}

/// Appends the block that a line adds to a step, where this step is under way.
pub(crate) fn push_block(
    text: &mut Vec<u8>,
    line: &Line,
    now: u64,
    step: u64,
) -> Result<(), NoMemory>
    ensures { OnOk result (text.new.items ≡ text.old.items ++ flat_map clause_text (block_at line.now now step)) }
{
    match line {
        Line::Block { lits, .. } => push_if(text, now == step, lits.slice()),
        _ => Ok(()),
    }
}

/// Appends the clauses that turn so many steps off, from one on.
pub(crate) fn push_closed(
    text: &mut Vec<u8>,
    vars: u32,
    first: u64,
    count: u64,
) -> Result<(), NoMemory>
    requires first { 1 ≤ first }
    requires room { vars + (first + count) ≤ VARIABLE_LIMIT }
    ensures { OnOk result (text.new.items ≡ text.old.items ++ flat_map clause_text (closed_from vars first count)) }
{
    'steps: for i in 0..count {
        push_unit(text, Lit::new(Var(vars + (first + i) as u32), false))?;
    }
    Ok(())
}
