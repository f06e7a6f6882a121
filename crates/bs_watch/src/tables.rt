//! The tables of a trail: values by literal code, causes by variable.
ghost use Rattle.std.specs.Prelude.{◌≡◌, ◌-◌, ◌+◌, ◌<◌, ◌≤◌, [], ◌∷◌, ◌++◌, true, false, length, replicate, slice_set, vec_len, vec_capacity, IfOk, OnOk};
ghost use Rattle.bs_clause.specs.Literal.{code_of};
ghost use Rattle.bs_watch.specs.Tables.{no_cause};

use crate::cause::Cause;
use bs_arena::Ref;
use bs_clause::{Lit, NoMemory};
use std::alloc::Global;

/// So many values, none true.
pub fn no_values(alloc: Global, count: usize) -> Result<Vec<bool>, NoMemory>
    ensures { IfOk result (λ v. v.items ≡ replicate count false) }
{
    let values = vec![in alloc; false; count]?;
    Ok(values)
}

/// So many causes, which say nothing.
pub fn no_causes(alloc: Global, count: usize) -> Result<Vec<Cause>, NoMemory>
    ensures { IfOk result (λ v. v.items ≡ replicate count no_cause) }
{
    let causes = vec![in alloc; Cause {
        reason: None,
        level: 0
    }; count]?;
    Ok(causes)
}

/// Notes the value under which a literal is true, by variable, if it is to be kept and there is a place for it.
pub fn note_phase(phases: &mut Vec<bool>, l: Lit, is_kept: bool)
    ensures kept { is_kept ≡ true → l.variable < length phases.old.items →
        phases.new.items ≡ slice_set phases.old.items l.variable l.positive }
    ensures left { is_kept ≡ false → phases.new.items ≡ phases.old.items }
{
    let at = l.var().0 as usize;
    if is_kept && at < phases.len() {
        phases[at] = l.positive();
    }
}

/// Notes whether the literal is true.
pub fn set_value(values: &mut Vec<bool>, l: Lit, value: bool)
    requires { code_of l < length values.old.items }
    ensures { values.new.items ≡ slice_set values.old.items (code_of l) value }
{
    values[l.code() as usize] = value;
}

/// Notes the cause of the literal's variable.
pub fn set_cause(causes: &mut Vec<Cause>, l: Lit, reason: Option<Ref>, level: u32)
    requires { l.variable < length causes.old.items }
    ensures cause { causes.new.items ≡ slice_set causes.old.items l.variable
        (record { reason = reason; level = level }) }
    ensures low { 1 ≤ l.variable }
{
    causes[l.var().0 as usize] = Cause { reason, level };
}

/// One more literal where there is room.
pub fn push_literal(literals: &mut Vec<Lit>, l: Lit)
    requires { vec_len literals.old < vec_capacity literals.old }
    ensures items { literals.new.items ≡ literals.old.items ++ l ∷ [] }
    ensures capacity { vec_capacity literals.old ≤ vec_capacity literals.new }
{
    let _ = literals.push(l);
}

/// Makes room in the tables for one more variable, so that there is room for a literal of each.
pub fn make_room(
    values: &mut Vec<bool>,
    causes: &mut Vec<Cause>,
    literals: &mut Vec<Lit>,
    vars: usize,
) -> Result<(), NoMemory>
    ensures values { values.new.items ≡ values.old.items }
    ensures causes { causes.new.items ≡ causes.old.items }
    ensures literals { literals.new.items ≡ literals.old.items }
    ensures kept { vec_capacity literals.old ≤ vec_capacity literals.new }
    ensures for_values { OnOk result (vec_len values.new + 2 ≤ vec_capacity values.new) }
    ensures for_causes { OnOk result (vec_len causes.new + 1 ≤ vec_capacity causes.new) }
    ensures for_literals { OnOk result (vars ≤ vec_capacity literals.new) }
{
    values.reserve(2)?;
    causes.reserve(1)?;
    literals.reserve(vars.saturating_sub(literals.len()))?;
    Ok(())
}

/// The values of one more variable where there is room.
pub fn push_values(values: &mut Vec<bool>)
    requires { vec_len values.old + 2 ≤ vec_capacity values.old }
    ensures { values.new.items ≡ values.old.items ++ false ∷ false ∷ [] }
{
    let _ = values.push(false);
    let _ = values.push(false);
}

/// The cause of one more variable where there is room.
pub fn push_cause(causes: &mut Vec<Cause>)
    requires { vec_len causes.old + 1 ≤ vec_capacity causes.old }
    ensures { causes.new.items ≡ causes.old.items ++ no_cause ∷ [] }
{
    let _ = causes.push(Cause {
        reason: None,
        level: 0,
    });
}
