//! The clauses that a solver is given, and the variables that it gets.
ghost use Rattle.std.specs.Prelude.{◌≡◌, ◌+◌, ◌^◌, ◌<◌, ◌≤◌, [], true, All, IfOk, OnOk};
ghost use Rattle.bs_clause.specs.Range.{HasVariables};
ghost use Rattle.bs_log.specs.History.{axioms_from};
ghost use Rattle.bs_log.specs.Refusal.{has_distinct_variables};
ghost use Rattle.bs_arena.specs.Arena.{live_words};
ghost use Rattle.bs_watch.specs.Watch.{Serves};
ghost use Rattle.bs_solve_lemmas.specs.Marks.{IsClear};
ghost use Rattle.bs_solve.specs.Database.{HoldsEntries};
ghost use Rattle.bs_solve.specs.Starting.{KeepsRest};

use crate::database::{Database, add_clause};
use crate::room::roomy_watch;
use bs_arena::Arena;
use bs_clause::{Lits, NoMemory};
use bs_log::Origin;
use bs_solve_lemmas::Marks;
use bs_watch::Watch;
use std::alloc::Global;

// Adds clauses under the ids 1, 2, 3 and so on.
fn add_all(
    watch: &mut Watch,
    arena: &mut Arena,
    database: &mut Database,
    clauses: &[Lits],
) -> Result<(), NoMemory>
    requires serves { Serves watch.old arena.old.clauses }
    requires empty { watch.old.trail.places ≡ [] }
    requires none { arena.old.clauses ≡ [] }
    requires short { database.old.shorts.items ≡ [] }
    requires rows { database.old.rows.items ≡ [] }
    requires words { arena.old.words ≡ 0 }
    requires range { All (HasVariables watch.old.trail.vars) clauses.now }
    requires distinct { All (λ c. has_distinct_variables c ≡ true) clauses.now }
    ensures holds_entries { OnOk result (HoldsEntries watch.new.lists arena.new.clauses database.new (axioms_from 1 clauses.now)) }
    ensures serves { OnOk result (Serves watch.new arena.new.clauses) }
    ensures trail { OnOk result (watch.new.trail ≡ watch.old.trail) }
    ensures levels { OnOk result (watch.new.levels ≡ watch.old.levels) }
    ensures words { OnOk result (arena.new.words ≡ live_words arena.new.clauses) }
{
    'clauses: for at in 0..clauses.len() {
        add_clause(
            watch,
            arena,
            database,
            at as u64 + 1,
            clauses[at].slice(),
            Origin::Axiom,
        )?;
    }
    Ok(())
}

/// Clauses in an arena, watched, and noted.
#[derive(Drop)]
pub struct Standing {
    pub watch: Watch,
    pub arena: Arena,
    pub database: Database,
}

/// Clauses under the ids 1, 2, 3 and so on, over the variables 1 to `vars`, of which none has a value.
pub fn filled(alloc: Global, vars: u32, clauses: &[Lits]) -> Result<Standing, NoMemory>
    requires vars { vars < 2 ^ 30 }
    requires range { All (HasVariables vars) clauses.now }
    requires distinct { All (λ c. has_distinct_variables c ≡ true) clauses.now }
    ensures holds_entries { IfOk result (λ f. HoldsEntries f.watch.lists f.arena.clauses f.database (axioms_from 1 clauses.now)) }
    ensures serves { IfOk result (λ f. Serves f.watch f.arena.clauses) }
    ensures trail { IfOk result (λ f. f.watch.trail ≡ record { vars = vars; places = [] }) }
    ensures levels { IfOk result (λ f. f.watch.levels ≡ []) }
    ensures words { IfOk result (λ f. f.arena.words ≡ live_words f.arena.clauses) }
{
    let mut watch = roomy_watch(alloc, vars, clauses)?;
    let mut arena = Arena::new(alloc);
    let mut database = Database {
        shorts: Vec::new(alloc),
        rows: Vec::new(alloc),
    };
    add_all(&mut watch, &mut arena, &mut database, clauses)?;
    Ok(Standing {
        watch,
        arena,
        database,
    })
}

/// One more variable, where the last one is missing.
pub fn grow_to(
    alloc: Global,
    watch: &mut Watch,
    marks: &mut Marks,
    vars: u32,
) -> Result<(), NoMemory>
    requires low { watch.old.trail.vars ≤ vars }
    requires high { vars ≤ watch.old.trail.vars + 1 }
    requires bound { vars < 2 ^ 30 }
    requires clear { IsClear (watch.old.trail.vars + 1) marks.old }
    ensures vars { OnOk result (watch.new.trail.vars ≡ vars) }
    ensures rest { OnOk result (KeepsRest watch.old watch.new vars) }
    ensures clear { OnOk result (IsClear (vars + 1) marks.new) }
{
    if watch.vars() < vars {
        watch.grow(alloc)?;
        marks.grow()?;
    }
    Ok(())
}
