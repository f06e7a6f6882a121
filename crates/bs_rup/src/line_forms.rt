//! The tests of a line's own form.
ghost use Rattle.std.specs.Prelude.{◌≡◌, ◌+◌, ◌≤◌, nat_le};
ghost use Rattle.std.specs.List.{list_all};
ghost use Rattle.bs_log.specs.Refusal.{is_ascending, is_block_of};
ghost use Rattle.bs_log.specs.History.{Problem};

use bs_clause::{Lit, VARIABLE_LIMIT};

/// Whether each id is greater than the one before it.
pub fn is_ascending(ids: &[u64]) -> bool
    ensures { result ≡ is_ascending ids.now }
{
    for i in 1..ids.len() {
        if ids[i - 1] >= ids[i] {
            return false;
        }
    }
    true
}

/// Whether each variable is at most this one.
fn is_over(lits: &[Lit], vars: u32) -> bool
    ensures { result ≡ list_all (λ l. nat_le l.variable vars) lits.now }
{
    for l in lits {
        if l.var().0 > vars {
            return false;
        }
    }
    true
}

/// Whether the clause is the negation of the step's activation literal and then literals of the clauses' own variables.
pub fn is_block_of(vars: u32, step: u64, lits: &[Lit]) -> bool
    requires { vars + step ≤ VARIABLE_LIMIT }
    ensures { (p : Problem) → p.vars ≡ vars → result ≡ is_block_of p step lits.now }
{
    match lits {
        [] => false,
        [first, rest @ ..] => {
            u64::from(first.var().0) == u64::from(vars) + step
                && !first.positive()
                && is_over(rest, vars)
        }
    }
}
