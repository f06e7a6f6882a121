//! What is learnt from a conflict: a clause in the log, in the arena and on the trail.
ghost use Rattle.std.specs.Prelude.{◌≡◌, ◌+◌, ◌^◌, ◌<◌, ◌≤◌, length, map, reverse, true, All, IfOk, OnOk, OnErr, is_some};
ghost use Rattle.bs_log.specs.History.{phase_of};
ghost use Rattle.bs_log.specs.Refusal.{in_solve};
ghost use Rattle.bs_arena.specs.Arena.{held_at};
ghost use Rattle.bs_solve_lemmas.specs.Marks.{IsClear};
ghost use Rattle.bs_solve.specs.Database.{id_in};
ghost use Rattle.bs_solve.specs.Ground.{IsOwn};
ghost use Rattle.bs_solve.specs.Learning.{IsSomeConflict, LearnsFrom};

use crate::activity::reward;
use crate::backjump::jump_back;
use crate::database::Database;
use bs_arena::{Arena, Ref};
use bs_bits::List;
use bs_clause::NoMemory;
use bs_solve_lemmas::{Marks, Recording, first_point};
use bs_watch::Watch;
use std::alloc::Global;

/// The ids of clauses, the last one first.
pub fn ids_of(alloc: Global, arena: &Arena, refs: &[Ref]) -> Result<List<u64>, NoMemory>
    requires { All (λ r. is_some (held_at arena.now.clauses r) ≡ true) refs.now }
    ensures { IfOk result (λ ids. ids ≡ map (id_in arena.now.clauses) (reverse refs.now)) }
{
    let mut ids = List::new(alloc);
    let mut left = refs.len();
    while left > 0 {
        left -= 1;
        if ids.push(id_of(arena, refs[left])).is_err() {
            return Err(NoMemory);
        }
    }
    Ok(ids)
}

// The id of a live clause.
fn id_of(arena: &Arena, r: Ref) -> u64
    requires { is_some (held_at arena.now.clauses r) ≡ true }
    ensures { result ≡ id_in arena.now.clauses r }
{
    arena.id(r)
}

/// Learns from a conflict above the first level: goes back to the first decision before which the learnt clause would have
/// implied its literal, and assigns that literal. The variables of the clauses that were resolved are decided earlier from then on.
pub fn learn(
    alloc: Global,
    proof: &mut Recording,
    watch: &mut Watch,
    arena: &mut Arena,
    database: &mut Database,
    marks: &mut Marks,
    conflict: Ref,
) -> Result<(), NoMemory>
    requires some { IsSomeConflict proof.old watch.old arena.old.clauses database.old conflict }
    requires deep { 2 ≤ length watch.old.levels }
    requires own { IsOwn proof.old.problem }
    requires bound { watch.old.trail.vars < 2 ^ 30 }
    requires phase { in_solve (phase_of proof.old.history) ≡ true }
    requires clear { IsClear (watch.old.trail.vars + 1) marks.old }
    ensures ok { OnOk result (LearnsFrom proof.old proof.new watch.old watch.new arena.old.clauses arena.new.clauses database.old database.new conflict) }
    ensures clear { OnOk result (IsClear (watch.old.trail.vars + 1) marks.new) }
    ensures err { OnErr result (proof.new ≡ proof.old) }
{
    watch.holds_levels();
    arena.holds_clauses();
    let _ = proof.log();
    let learnt = first_point(alloc, watch, arena, marks, conflict)?;
    reward(watch, arena, learnt.hints.as_slice());
    let hints = ids_of(alloc, arena, learnt.hints.as_slice())?;
    let id = proof.next_id()?;
    jump_back(watch, arena, database, id, learnt.lits.slice())?;
    proof.log_lemma(learnt.lits, hints)?;
    Ok(())
}
