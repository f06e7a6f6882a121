//! The values that a trail gives to the variables.
ghost use Rattle.std.specs.Prelude.{◌≡◌, ◌*◌, ◌<◌, ◌≤◌, ◌^◌, false, length, slice_index_or, IfOk};
ghost use Rattle.bs_clause.specs.Literal.{has_literal, code_of};
ghost use Rattle.bs_watch.specs.Places.{literals_of};
ghost use Rattle.bs_solve_lemmas.specs.Values.{positive, HasValues};
ghost use Rattle.bs_solve.specs.Between.{AreBetween};

use bs_clause::{Lit, NoMemory, Var};
use bs_solve_lemmas::Solution;
use bs_watch::Watch;
use std::alloc::Global;

/// Whether the literal is true.
pub fn is_true(watch: &Watch, l: Lit) -> bool
    requires { l.variable ≤ watch.now.trail.vars }
    ensures { result ≡ has_literal (literals_of watch.now.trail.places) l }
{
    watch.holds_levels();
    match watch.value(l) {
        Some(is_true) => is_true,
        None => false,
    }
}

// Whether a variable is true, by the values of all literals.
fn is_set(trues: &[bool], number: u32) -> bool
    requires low { 1 ≤ number }
    requires high { number < 2 ^ 30 }
    requires within { 2 * number < length trues.now }
    ensures { result ≡ slice_index_or trues.now (code_of (positive number)) false }
{
    trues[Lit::new(Var(number), true).code() as usize]
}

// The values of the variables from one to before another, by the values of all literals.
fn values_between(
    alloc: Global,
    trues: &[bool],
    first: u32,
    past: u32,
) -> Result<Vec<bool>, NoMemory>
    requires low { 1 ≤ first }
    requires order { first ≤ past }
    requires high { past ≤ 2 ^ 30 }
    requires within { 2 * past ≤ length trues.now }
    ensures { IfOk result (λ values. AreBetween trues.now first past values.items) }
{
    let mut values = Vec::new(alloc);
    values.reserve((past - first) as usize)?;
    'numbers: for number in first..past {
        values.push(is_set(trues, number))?;
    }
    Ok(values)
}

/// The values of all variables. Those of the watch's span are not looked at.
pub fn values(alloc: Global, watch: &Watch, vars: u32) -> Result<Solution, NoMemory>
    requires vars { watch.now.trail.vars ≡ vars }
    requires range { vars < 2 ^ 30 }
    ensures { IfOk result (HasValues (literals_of watch.now.trail.places) vars) }
{
    watch.holds_levels();
    let trues = watch.values();
    let span = watch.span();
    let front = values_between(alloc, trues, 1, span.first)?;
    let back = values_between(alloc, trues, span.past, vars + 1)?;
    Ok(Solution::new(front, span.past - span.first, back))
}
