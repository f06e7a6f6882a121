//! A lemma that is known ends the step, without a search.
ghost use Rattle.std.specs.Prelude.{◌≡◌, ◌<◌, ◌^◌, length, true, All, IfOk, OnErr};
ghost use Rattle.bs_clause.specs.Range.{HasVariables};
ghost use Rattle.bs_log.specs.History.{phase_of};
ghost use Rattle.bs_log.specs.Refusal.{in_solve, denies};
ghost use Rattle.bs_solve_lemmas.specs.ProofLog.{standing};
ghost use Rattle.bs_solve_lemmas.specs.Search.{assumed};
ghost use Rattle.bs_solve_lemmas.specs.Walk.{IsLoggedLearnt};
ghost use Rattle.bs_solve.specs.Database.{entries};
ghost use Rattle.bs_solve.specs.Learning.{IsAtRest};
ghost use Rattle.bs_solve.specs.Searching.{HasEndedBy};

use crate::database::{Database, add_clause};
use bs_arena::Arena;
use bs_bits::List;
use bs_clause::{Lits, NoMemory};
use bs_log::Origin;
use bs_solve_lemmas::Recording;
use bs_watch::Watch;

/// A lemma, and the ids of the clauses that it follows from.
#[derive(Drop)]
pub struct FailedAssumption {
    pub lits: Lits,
    pub hints: List<u64>,
}

/// Logs a lemma that denies only assumptions and is right by these hints. It answers its id, and nothing is assigned.
pub fn end_by(
    proof: &mut Recording,
    watch: &mut Watch,
    arena: &mut Arena,
    database: &mut Database,
    lits: Lits,
    hints: List<u64>,
) -> Result<u64, NoMemory>
    requires rest { IsAtRest proof.old watch.old arena.old.clauses database.old }
    requires bound { watch.old.trail.vars < 2 ^ 30 }
    requires range { All (HasVariables watch.old.trail.vars) (standing proof.old) }
    requires phase { in_solve (phase_of proof.old.history) ≡ true }
    requires learnt { IsLoggedLearnt (entries proof.old) lits hints }
    requires ends { denies (assumed proof.old) lits ≡ true }
    requires few { length lits < 2 }
    ensures ok { IfOk result (HasEndedBy proof.old proof.new watch.old.trail.vars watch.new arena.new.clauses database.new) }
    ensures err { OnErr result (proof.new ≡ proof.old) }
{
    let next = proof.next_id()?;
    add_clause(watch, arena, database, next, lits.slice(), Origin::Learnt)?;
    let id = proof.log_lemma(lits, hints)?;
    Ok(id)
}
