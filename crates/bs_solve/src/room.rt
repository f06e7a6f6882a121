//! What a solver counts of the clauses that it is given: room in the watch lists, so that each list has its room at once and no
//! more, and how active each variable begins.
ghost use Rattle.std.specs.Prelude.{◌≡◌, ◌^◌, ◌<◌, [], length, IfOk};
ghost use Rattle.bs_watch.specs.Watch.{HasNone, ServesAll};

use bs_clause::{Lit, Lits, NoMemory};
use bs_watch::Watch;
use std::alloc::Global;

/// Counts one more at a place, if there is one.
fn count_one(counts: &mut [u32], at: usize)
    ensures { length counts.new ≡ length counts.old }
{
    if at < counts.len() {
        counts[at] = counts[at].saturating_add(1);
    }
}

/// Counts the two literals that watch a clause of two or more.
fn count_pair(counts: &mut [u32], lits: &[Lit])
    ensures { length counts.new ≡ length counts.old }
{
    if let [first, second, ..] = lits {
        count_one(counts, first.code() as usize);
        count_one(counts, second.code() as usize);
    }
}

/// Counts for each code the clauses that its literal is to watch.
fn count_pairs(counts: &mut [u32], clauses: &[Lits])
    ensures { length counts.new ≡ length counts.old }
{
    'clauses: for clause in clauses {
        count_pair(counts, clause.slice());
    }
}

/// Makes the room that was counted.
fn reserve_all(watch: &mut Watch, counts: &[u32]) -> Result<(), NoMemory>
    ensures { watch.new ≡ watch.old }
{
    'codes: for code in 0..counts.len() {
        watch.reserve(code, counts[code] as usize)?;
    }
    Ok(())
}

/// Makes room in the watch lists for clauses.
fn make_room(alloc: Global, watch: &mut Watch, clauses: &[Lits]) -> Result<(), NoMemory>
    ensures { watch.new ≡ watch.old }
{
    let mut counts = vec![in alloc; 0u32; 2 * watch.vars() as usize + 2]?;
    count_pairs(&mut counts, clauses);
    reserve_all(watch, &counts)
}

/// Bumps the variables of a clause, those that the watch has.
fn rank_clause(watch: &mut Watch, lits: &[Lit])
    ensures { watch.new ≡ watch.old }
{
    'literals: for l in lits {
        let variable = l.var();
        if variable.0 <= watch.vars() {
            watch.bump(variable);
        }
    }
}

/// Variables begin as active as they have literals in the clauses: a search decides those first that most clauses have.
fn rank_all(watch: &mut Watch, clauses: &[Lits])
    ensures { watch.new ≡ watch.old }
{
    'clauses: for clause in clauses {
        rank_clause(watch, clause.slice());
    }
}

/// An empty trail over the variables 1 to `vars`, and no attached clause, with room in the watch lists for these ones, of whose
/// variables those are decided first that most of them have.
pub fn roomy_watch(alloc: Global, vars: u32, clauses: &[Lits]) -> Result<Watch, NoMemory>
    requires { vars < 2 ^ 30 }
    ensures vars { IfOk result (λ w. w.trail ≡ record { vars = vars; places = [] }) }
    ensures levels { IfOk result (λ w. w.levels ≡ []) }
    ensures serves { IfOk result ServesAll }
    ensures attached { IfOk result HasNone }
{
    let mut watch = Watch::new(alloc, vars)?;
    make_room(alloc, &mut watch, clauses)?;
    rank_all(&mut watch, clauses);
    Ok(watch)
}
