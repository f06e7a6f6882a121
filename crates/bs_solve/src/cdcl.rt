//! The search (CDCL): it decides, propagates and learns.
ghost use Rattle.std.specs.Prelude.{◌≡◌, ◌+◌, ◌≤◌, ◌<◌, ◌^◌, length, true, All, IfOk, OnErr};
ghost use Rattle.bs_log.specs.History.{phase_of};
ghost use Rattle.bs_log.specs.Refusal.{in_solve, has_distinct_variables};
ghost use Rattle.bs_clause.specs.Range.{HasVariables};
ghost use Rattle.bs_solve_lemmas.specs.Marks.{IsClear};
ghost use Rattle.bs_solve_lemmas.specs.ProofLog.{standing};
ghost use Rattle.bs_solve_lemmas.specs.Search.{assumed};
ghost use Rattle.bs_solve_lemmas.specs.Ending.{SomeLemmas};
ghost use Rattle.bs_solve_lemmas.specs.Values.{AreAssigned};
ghost use Rattle.bs_solve.specs.Learning.{IsAtRest};
ghost use Rattle.bs_solve.specs.Pausing.{IsSomePause, IsKept};
ghost use Rattle.bs_solve.specs.Ground.{IsOwn};
ghost use Rattle.bs_solve.specs.Searching.{IsSomeFirstConflict, IsFailedAssumption, IsSomeRound, Decides, HasPropagated, IsOver, HasEndedBy};
ghost use Rattle.bs_watch.specs.Places.{IsImpliedBy, HasNoReason, literals_of};
ghost use Rattle.bs_watch.specs.Watch.{Serves};

use crate::database::{Database, add_clause};
use crate::first_level::{LevelStart, begin_level};
use crate::learning::{ids_of, learn};
use crate::value::values;
use bs_arena::{Arena, Ref};
use bs_clause::{Lit, NoMemory};
use bs_log::Origin;
use bs_solve_lemmas::{Answer, Marks, Recording, guarded, to_reasonless};
use bs_watch::{Outcome, Watch};
use std::alloc::Global;

// Whether each variable has a value.
fn is_full(watch: &Watch) -> bool
    ensures { result ≡ true → AreAssigned (literals_of watch.now.trail.places) watch.now.trail.vars }
{
    watch.holds_levels();
    watch.trail().len() == watch.vars() as usize
}

// Makes the preferred literal of the open variable that comes first true, on a new level. Whether there was one. A full trail is
// not searched.
fn decide(watch: &mut Watch) -> bool
    requires few { length watch.old.levels ≤ length watch.old.trail.places + 1 }
    requires bound { watch.old.trail.vars < 2 ^ 30 }
    ensures { Decides watch.old watch.new result }
{
    watch.holds_levels();
    if is_full(watch) {
        return false;
    }
    match watch.first_open() {
        None => false,
        Some(variable) => {
            watch.decide();
            let literal = watch.preferred(variable);
            watch.assign(literal, None);
            true
        }
    }
}

/// Assigns what is implied, until no clause is unit, or one is false.
pub fn propagate(watch: &mut Watch, arena: &mut Arena) -> Result<Outcome, NoMemory>
    requires { Serves watch.old arena.old.clauses }
    ensures { IfOk result (HasPropagated watch.old watch.new arena.old.clauses arena.new.clauses) }
{
    let outcome = watch.propagate(arena)?;
    watch.holds_levels();
    Ok(outcome)
}

/// Logs the clause that is learnt from a conflict on the first level, which denies only assumptions. It answers its id, and
/// nothing is assigned then.
pub fn refute(
    alloc: Global,
    proof: &mut Recording,
    watch: &mut Watch,
    arena: &mut Arena,
    database: &mut Database,
    marks: &mut Marks,
    conflict: Ref,
) -> Result<u64, NoMemory>
    requires some { IsSomeFirstConflict proof.old watch.old arena.old.clauses database.old conflict }
    requires own { IsOwn proof.old.problem }
    requires bound { watch.old.trail.vars < 2 ^ 30 }
    requires phase { in_solve (phase_of proof.old.history) ≡ true }
    requires clear { IsClear (watch.old.trail.vars + 1) marks.old }
    ensures ok { IfOk result (HasEndedBy proof.old proof.new watch.old.trail.vars watch.new arena.new.clauses database.new) }
    ensures clear { IfOk result (λ _. IsClear (watch.old.trail.vars + 1) marks.new) }
    ensures err { OnErr result (proof.new ≡ proof.old) }
{
    arena.holds_clauses();
    watch.holds_levels();
    let _ = proof.log();
    let learnt = to_reasonless(alloc, watch, arena, marks, conflict)?;
    let hints = ids_of(alloc, arena, learnt.hints.as_slice())?;
    let id = proof.next_id()?;
    watch.cancel_to(0);
    add_clause(
        watch,
        arena,
        database,
        id,
        learnt.lits.slice(),
        Origin::Learnt,
    )?;
    let id = proof.log_lemma(learnt.lits, hints)?;
    Ok(id)
}

// The clause that implied the literal's variable.
fn unit_of(watch: &Watch, denied: Lit) -> Ref
    requires range { denied.variable ≤ watch.now.trail.vars }
    requires some { ¬ HasNoReason watch.now.trail.places denied }
    ensures { IsImpliedBy watch.now.trail.places denied result }
{
    watch.reason(denied).unwrap()
}

// Logs the clause that denies an assumption whose negation stands for good. It answers its id.
fn deny(
    alloc: Global,
    proof: &mut Recording,
    watch: &mut Watch,
    arena: &mut Arena,
    database: &mut Database,
    denied: Lit,
) -> Result<u64, NoMemory>
    requires failed_assumption { IsFailedAssumption proof.old watch.old arena.old.clauses database.old denied }
    requires bound { watch.old.trail.vars < 2 ^ 30 }
    requires phase { in_solve (phase_of proof.old.history) ≡ true }
    ensures ok { IfOk result (HasEndedBy proof.old proof.new watch.old.trail.vars watch.new arena.new.clauses database.new) }
    ensures err { OnErr result (proof.new ≡ proof.old) }
{
    watch.holds_levels();
    let unit = unit_of(watch, denied);
    let lits = guarded(alloc, denied.negate(), &[])?;
    let hints = ids_of(alloc, arena, &[unit])?;
    let next = proof.next_id()?;
    watch.cancel_to(0);
    add_clause(watch, arena, database, next, lits.slice(), Origin::Learnt)?;
    let id = proof.log_lemma(lits, hints)?;
    Ok(id)
}

/// Decides, propagates and learns until the solve ends. The first propagation had this outcome, and was quiet where there is
/// no decision. Where values are found, the trail stays.
pub fn decide_and_learn(
    alloc: Global,
    proof: &mut Recording,
    watch: &mut Watch,
    arena: &mut Arena,
    database: &mut Database,
    marks: &mut Marks,
    limit: u64,
    first: Outcome,
) -> Result<Answer, NoMemory>
    requires bound { watch.old.trail.vars < 2 ^ 30 }
    requires own { IsOwn proof.old.problem }
    requires clear { IsClear (watch.old.trail.vars + 1) marks.old }
    requires round { IsSomeRound proof.old watch.old.trail.vars 0 limit proof.old watch.old arena.old.clauses database.old first }
    ensures over { IfOk result (IsOver proof.old proof.new watch.old.trail.vars limit watch.new arena.new.clauses database.new) }
    ensures clear { IfOk result (λ _. IsClear (watch.old.trail.vars + 1) marks.new) }
    ensures lemmas { SomeLemmas proof.old proof.new }
{
    watch.holds_levels();
    let vars = watch.vars();
    let mut outcome = first;
    let mut conflicts = 0;
    'rounds: loop {
        match outcome {
            Outcome::Quiet => {
                if !decide(watch) {
                    let assignment = values(alloc, watch, vars)?;
                    return Ok(Answer::Found(assignment));
                }
                outcome = propagate(watch, arena)?;
            }
            Outcome::Conflict(r) => {
                if watch.level() < 2 {
                    let id = refute(alloc, proof, watch, arena, database, marks, r)?;
                    return Ok(Answer::Refuted(id));
                }
                learn(alloc, proof, watch, arena, database, marks, r)?;
                conflicts += 1;
                if conflicts == limit {
                    watch.cancel_to(0);
                    return Ok(Answer::Spent);
                }
                outcome = propagate(watch, arena)?;
            }
        }
    }
}

// Goes on from where the solve before found values, with the clause that has come since.
fn resume(
    alloc: Global,
    proof: &mut Recording,
    watch: &mut Watch,
    arena: &mut Arena,
    database: &mut Database,
    marks: &mut Marks,
    limit: u64,
) -> Result<Answer, NoMemory>
    requires pause { IsSomePause proof.old watch.old arena.old.clauses database.old }
    requires bound { watch.old.trail.vars < 2 ^ 30 }
    requires own { IsOwn proof.old.problem }
    requires range { All (HasVariables watch.old.trail.vars) (standing proof.old) }
    requires distinct { All (λ c. has_distinct_variables c ≡ true) (standing proof.old) }
    requires assumed_range { HasVariables watch.old.trail.vars (assumed proof.old) }
    requires phase { in_solve (phase_of proof.old.history) ≡ true }
    requires limit { 1 ≤ limit }
    requires clear { IsClear (watch.old.trail.vars + 1) marks.old }
    ensures over { IfOk result (IsOver proof.old proof.new watch.old.trail.vars limit watch.new arena.new.clauses database.new) }
    ensures clear { IfOk result (λ _. IsClear (watch.old.trail.vars + 1) marks.new) }
    ensures lemmas { SomeLemmas proof.old proof.new }
{
    match propagate(watch, arena)? {
        Outcome::Quiet => decide_and_learn(
            alloc,
            proof,
            watch,
            arena,
            database,
            marks,
            limit,
            Outcome::Quiet,
        ),
        Outcome::Conflict(r) => {
            if watch.level() < 2 {
                let id = refute(alloc, proof, watch, arena, database, marks, r)?;
                return Ok(Answer::Refuted(id));
            }
            decide_and_learn(
                alloc,
                proof,
                watch,
                arena,
                database,
                marks,
                limit,
                Outcome::Conflict(r),
            )
        }
    }
}

// Begins the first level, and decides, propagates and learns until the solve ends.
fn begin(
    alloc: Global,
    proof: &mut Recording,
    watch: &mut Watch,
    arena: &mut Arena,
    database: &mut Database,
    marks: &mut Marks,
    assumptions: &[Lit],
    limit: u64,
) -> Result<Answer, NoMemory>
    requires rest { IsAtRest proof.old watch.old arena.old.clauses database.old }
    requires bound { watch.old.trail.vars < 2 ^ 30 }
    requires own { IsOwn proof.old.problem }
    requires range { All (HasVariables watch.old.trail.vars) (standing proof.old) }
    requires distinct { All (λ c. has_distinct_variables c ≡ true) (standing proof.old) }
    requires assumed { assumed proof.old ≡ assumptions.now }
    requires assumed_range { HasVariables watch.old.trail.vars assumptions.now }
    requires assumed_distinct { has_distinct_variables assumptions.now ≡ true }
    requires phase { in_solve (phase_of proof.old.history) ≡ true }
    requires limit { 1 ≤ limit }
    requires clear { IsClear (watch.old.trail.vars + 1) marks.old }
    ensures over { IfOk result (IsOver proof.old proof.new watch.old.trail.vars limit watch.new arena.new.clauses database.new) }
    ensures clear { IfOk result (λ _. IsClear (watch.old.trail.vars + 1) marks.new) }
    ensures lemmas { SomeLemmas proof.old proof.new }
{
    match begin_level(watch, arena, database.shorts.as_slice(), assumptions) {
        LevelStart::Failed(l) => {
            let id = deny(alloc, proof, watch, arena, database, l)?;
            Ok(Answer::Refuted(id))
        }
        LevelStart::Clash(r) => {
            let id = refute(alloc, proof, watch, arena, database, marks, r)?;
            Ok(Answer::Refuted(id))
        }
        LevelStart::Assigned => resume(alloc, proof, watch, arena, database, marks, limit),
    }
}

/// Searches for values under which the standing clauses and the assumptions are true, and logs what it learns, at most
/// `limit` lemmas. It begins where nothing is assigned, or goes on after the solve before, and where it finds values its trail
/// stays.
pub fn search(
    alloc: Global,
    proof: &mut Recording,
    watch: &mut Watch,
    arena: &mut Arena,
    database: &mut Database,
    marks: &mut Marks,
    assumptions: &[Lit],
    limit: u64,
) -> Result<Answer, NoMemory>
    requires kept { IsKept proof.old watch.old arena.old.clauses database.old }
    requires bound { watch.old.trail.vars < 2 ^ 30 }
    requires own { IsOwn proof.old.problem }
    requires range { All (HasVariables watch.old.trail.vars) (standing proof.old) }
    requires distinct { All (λ c. has_distinct_variables c ≡ true) (standing proof.old) }
    requires assumed { assumed proof.old ≡ assumptions.now }
    requires assumed_range { HasVariables watch.old.trail.vars assumptions.now }
    requires assumed_distinct { has_distinct_variables assumptions.now ≡ true }
    requires phase { in_solve (phase_of proof.old.history) ≡ true }
    requires limit { 1 ≤ limit }
    requires clear { IsClear (watch.old.trail.vars + 1) marks.old }
    ensures over { IfOk result (IsOver proof.old proof.new watch.old.trail.vars limit watch.new arena.new.clauses database.new) }
    ensures clear { IfOk result (λ _. IsClear (watch.old.trail.vars + 1) marks.new) }
    ensures lemmas { SomeLemmas proof.old proof.new }
{
    if watch.level() == 0 {
        begin(
            alloc,
            proof,
            watch,
            arena,
            database,
            marks,
            assumptions,
            limit,
        )
    } else {
        resume(alloc, proof, watch, arena, database, marks, limit)
    }
}
