//! An incremental solver that logs what it learns: clauses stay from one step to the next.
ghost use Rattle.std.specs.Prelude.{◌≡◌, ◌⊎◌, ◌+◌, ◌*◌, ◌^◌, ◌<◌, ◌≤◌, [], true, false, All, IfOk, IfErr, IfSome};
ghost use Rattle.bs_log.specs.History.{step_of, activation_of, live};
ghost use Rattle.bs_log.specs.Refusal.{has_distinct_variables, history_of, NoneRefused, IsAccepted};
ghost use Rattle.bs_log.specs.Lean.{LemmasAreLean, StepsLeaveKept};
ghost use Rattle.bs_log.specs.LineForms.{HasText};
ghost use Rattle.bs_solve_lemmas.specs.declared.stage.Stage.TheVariants.{Idle, Begun, Solved, Ended};
ghost use Rattle.bs_clause.specs.Range.{HasVariables};
ghost use Rattle.bs_solve_lemmas.specs.ProofLog.{standing, lemma_ids};
ghost use Rattle.bs_solve_lemmas.specs.Stages.{is_begun, is_solved};
ghost use Rattle.bs_solve_lemmas.specs.Solver.{MaySolve, HasSolved, HasBlocked, HasEnded, Follows, finished};
ghost use Rattle.bs_arena.specs.Arena.{live_words};
ghost use Rattle.bs_solve.specs.Opening.{HasOpened};
ghost use Rattle.bs_solve.specs.Failure.{FailsBy, HasDenied};
ghost use Rattle.bs_solve.specs.Starting.{HoldsStanding};

use crate::blocking::add_between;
use crate::cdcl::search;
use crate::database::Database;
use crate::dropping::CountedRows;
use crate::ending::{prepare, settle};
use crate::failure::{FailedAssumption, end_by};
use crate::pausing::rest;
use crate::starting::{filled, grow_to};
use bs_arena::{Arena, Renaming};
use bs_bits::List;
use bs_clause::{Clauses, Lit, Lits, NoMemory, Var};
use bs_log::Log;
use bs_solve_lemmas::{
    Activations, Answer, Marks, Recording, Stage, begin_solve, finish, guarded, is_begun,
    stage_after,
};
use bs_watch::Watch;
use std::alloc::Global;
use std::marker::Model;

/// A solver. Contracts see its log with what it is about, the number of variables in use, where it stands, and whether
/// a call has answered out of memory; each later call that can answers it again.
#[derive(Drop)]
pub struct Solver {
    proof: Recording,
    watch: Watch,
    arena: Arena,
    database: Database,
    marks: Marks,
    renaming: Renaming,
    own: u32,
    known: CountedRows,
    vars: u32,
    stage: Stage,
    failed: bool,
}

impl Model for Solver {
    ghost use Rattle.bs_solve_lemmas.specs.Solver.{SolverState};
    ghost use Rattle.bs_solve.specs.Starting.{IsEngine};

    ghost Value = { SolverState };

    ghost view = { λ s. record { proof = s.proof; vars = s.vars; stage = s.stage; failed = s.failed } };

    ghost invariant = { λ s. IsEngine (record { proof = s.proof; vars = s.vars; stage = s.stage; failed = s.failed }) s.watch s.arena s.database s.marks s.own s.known };
}

impl Solver {
    /// A solver over the variables 1 to `vars`, with these clauses under the ids 1, 2, 3 and so on.
    pub fn new(alloc: Global, vars: u32, axioms: Clauses) -> Result<Solver, NoMemory>
        requires range { All (HasVariables vars) axioms }
        requires distinct { All (λ c. has_distinct_variables c ≡ true) axioms }
        requires vars { vars < 2 ^ 30 }
        ensures { IfOk result (λ s. s ≡ record {
          proof = record { problem = record { vars = vars; clauses = axioms; steps = [] }; history = [] };
          vars = vars;
          stage = Idle;
          failed = false;
        }) }
    {
        let solver = Solver::over(alloc, vars, &axioms)?;
        Ok(solver)
    }

    // The same, while the clauses are lent.
    fn over(alloc: Global, vars: u32, axioms: &Clauses) -> Result<Solver, NoMemory>
        requires range { All (HasVariables vars) axioms.now }
        requires distinct { All (λ c. has_distinct_variables c ≡ true) axioms.now }
        requires vars { vars < 2 ^ 30 }
        ensures { IfOk result (λ s. s ≡ record {
          proof = record { problem = record { vars = vars; clauses = axioms.now; steps = [] }; history = [] };
          vars = vars;
          stage = Idle;
          failed = false;
        }) }
    {
        let marks = Marks::new(alloc, vars)?;
        let filled = filled(alloc, vars, axioms.slice())?;
        let proof = Recording::new(alloc, vars, axioms);
        Ok(Solver {
            proof,
            watch: filled.watch,
            arena: filled.arena,
            database: filled.database,
            marks,
            renaming: Renaming::new(alloc),
            own: vars,
            known: CountedRows { rows: 0, long: 0 },
            vars,
            stage: Stage::Idle,
            failed: false,
        })
    }

    /// Begins a step, and gives its activation literal, a new variable.
    pub fn begin_step(&mut self) -> Result<Lit, NoMemory>
        requires stage { self.old.failed ≡ false → self.old.stage ≡ Idle }
        requires room { self.old.vars + 1 < 2 ^ 30 }
        ensures well { IfOk result (λ _. self.old.failed ≡ false) }
        ensures activation { IfOk result (λ activation. activation ≡ activation_of self.old.proof.problem (step_of self.old.proof.history)) }
        ensures ok { IfOk result (λ _. self.new ≡ record { proof = self.old.proof; vars = self.old.vars + 1; stage = Begun; failed = false }) }
        ensures err { IfErr result (λ _. (self.old.failed ≡ true) × (self.new ≡ self.old)) }
    {
        let failed = self.failed;
        if failed {
            return Err(NoMemory);
        }
        self.vars += 1;
        self.stage = Stage::Begun;
        Ok(Lit::new(Var(self.vars), true))
    }

    /// Searches for values under which the standing clauses and the assumptions are true, and logs at most `limit`
    /// lemmas. A solve after a block goes on where the one before found values.
    pub fn solve(
        &mut self,
        alloc: Global,
        assumptions: &Lits,
        limit: u64,
    ) -> Result<Answer, NoMemory>
        requires stage { MaySolve self.old assumptions.now }
        requires range { HasVariables self.old.vars assumptions.now }
        requires distinct { has_distinct_variables assumptions.now ≡ true }
        requires limit { 1 ≤ limit }
        ensures ok { IfOk result (HasSolved self.old self.new assumptions.now limit) }
        ensures lines { Follows (is_begun self.old.stage) self.old.proof self.new.proof assumptions.now }
        ensures err { IfErr result (λ _. self.new.failed ≡ true) }
    {
        if self.failed {
            return Err(NoMemory);
        }
        self.failed = true;
        begin_solve(alloc, &mut self.proof, is_begun(self.stage), assumptions)?;
        grow_to(alloc, &mut self.watch, &mut self.marks, self.vars)?;
        let answer = search(
            alloc,
            &mut self.proof,
            &mut self.watch,
            &mut self.arena,
            &mut self.database,
            &mut self.marks,
            assumptions.slice(),
            limit,
        )?;
        self.stage = stage_after(&answer);
        self.failed = false;
        Ok(answer)
    }

    /// Ends the first solve of a step by a lemma that the caller knows from the clauses that the solver was given: nothing is
    /// searched. It answers the lemma's id.
    pub fn solve_denied(
        &mut self,
        alloc: Global,
        assumptions: &Lits,
        failed_assumption: FailedAssumption,
    ) -> Result<u64, NoMemory>
        requires stage { MaySolve self.old assumptions.now }
        requires first { self.old.failed ≡ false → self.old.stage ≡ Begun }
        requires failed_assumption { FailsBy self.old.proof.problem.clauses assumptions.now failed_assumption }
        ensures ok { IfOk result (HasDenied self.old self.new assumptions.now) }
        ensures lines { Follows (is_begun self.old.stage) self.old.proof self.new.proof assumptions.now }
        ensures err { IfErr result (λ _. self.new.failed ≡ true) }
    {
        if self.failed {
            return Err(NoMemory);
        }
        self.failed = true;
        begin_solve(alloc, &mut self.proof, is_begun(self.stage), assumptions)?;
        grow_to(alloc, &mut self.watch, &mut self.marks, self.vars)?;
        let _ = self.proof.log();
        let id = end_by(
            &mut self.proof,
            &mut self.watch,
            &mut self.arena,
            &mut self.database,
            failed_assumption.lits,
            failed_assumption.hints,
        )?;
        self.stage = Stage::Ended(id);
        self.failed = false;
        Ok(id)
    }

    /// Begins a solve for values that the caller knows: nothing is searched, and no lemma is logged. A block may follow.
    pub fn solve_unsearched(&mut self, alloc: Global, assumptions: &Lits) -> Result<(), NoMemory>
        requires stage { MaySolve self.old assumptions.now }
        ensures ok { IfOk result (λ _. HasOpened self.old self.new assumptions.now) }
        ensures lines { Follows (is_begun self.old.stage) self.old.proof self.new.proof assumptions.now }
        ensures err { IfErr result (λ _. self.new.failed ≡ true) }
    {
        if self.failed {
            return Err(NoMemory);
        }
        self.failed = true;
        begin_solve(alloc, &mut self.proof, is_begun(self.stage), assumptions)?;
        grow_to(alloc, &mut self.watch, &mut self.marks, self.vars)?;
        self.stage = Stage::Solved;
        self.failed = false;
        Ok(())
    }

    /// Keeps a solution from coming again in this step: adds the clause of the negated activation literal and these literals. It
    /// answers the clause's id.
    pub fn block(&mut self, alloc: Global, lits: &Lits) -> Result<u64, NoMemory>
        requires stage { self.old.failed ≡ false → self.old.stage ≡ Solved }
        requires range { HasVariables self.old.proof.problem.vars lits.now }
        requires distinct { has_distinct_variables lits.now ≡ true }
        ensures ok { IfOk result (HasBlocked self.old self.new lits.now) }
        ensures err { IfErr result (λ _. (self.new.failed ≡ true) × (self.new.proof ≡ self.old.proof)) }
    {
        if self.failed {
            return Err(NoMemory);
        }
        self.failed = true;
        let clause = guarded(alloc, Lit::new(Var(self.vars), false), lits.slice())?;
        let next = self.proof.next_id()?;
        add_between(
            &mut self.watch,
            &mut self.arena,
            &mut self.database,
            next,
            clause.slice(),
        )?;
        let id = self.proof.log_block(clause)?;
        self.stage = Stage::Blocked;
        self.failed = false;
        Ok(id)
    }

    /// Ends the step: logs the lemma that ends it, if there is one, that its activation literal is retired, and that what is not kept goes,
    /// if anything is not: the blocks, each lemma that names a retired activation literal, and of the long lemmas all but the newest.
    pub fn end_step(&mut self, alloc: Global, end: Option<u64>) -> Result<(), NoMemory>
        requires stage { self.old.failed ≡ false → is_solved self.old.stage ≡ true }
        requires end { IfSome end (λ id. self.old.failed ≡ false → self.old.stage ≡ Ended id) }
        ensures ok { IfOk result (λ _. HasEnded self.old self.new end) }
        ensures err { IfErr result (λ _. self.new.failed ≡ true) }
        ensures lines { IfErr result (λ _. (self.new.proof ≡ self.old.proof) ⊎ (self.new.proof ≡ finished self.old.proof end)) }
    {
        if self.failed {
            return Err(NoMemory);
        }
        self.failed = true;
        rest(&mut self.watch);
        let activation = Lit::new(Var(self.vars), true);
        let activations = Activations {
            own: self.own,
            steps: self.vars - self.own,
        };
        let leaving = prepare(
            alloc,
            &self.proof,
            &mut self.watch,
            &mut self.arena,
            &mut self.renaming,
            &mut self.database,
            activations,
            self.known,
            activation,
        )?;
        finish(&mut self.proof, end)?;
        self.proof.holds_end(activation);
        self.proof.log_end(alloc, leaving.ids.slice())?;
        self.known = settle(
            &mut self.watch,
            &mut self.arena,
            &mut self.renaming,
            &mut self.database,
            &leaving,
            activations,
            self.known,
        );
        self.stage = Stage::Idle;
        self.failed = false;
        Ok(())
    }

    /// The arena of the clauses that stand. Between two steps it has at most twice the words of these.
    pub fn arena(&self) -> &Arena
        ensures standing { self.now.failed ≡ false → HoldsStanding result.now.clauses (live self.now.proof.problem self.now.proof.history) }
        ensures words { self.now.failed ≡ false → is_solved self.now.stage ≡ false → result.now.words ≤ 2 * live_words result.now.clauses }
    {
        &self.arena
    }

    /// The assumptions of each step that has had a solve, in order.
    pub fn steps(&self) -> &List<Lits>
        ensures { result.now ≡ self.now.proof.problem.steps }
    {
        self.proof.steps()
    }

    /// The log. No line of it is refused for `steps`, its lemmas are lean, and each line has a text. Between two steps
    /// it is accepted, while no call has answered out of memory.
    pub fn log(&self) -> &Log
        ensures lines { history_of result.now ≡ self.now.proof.history }
        ensures right { NoneRefused self.now.proof.problem (history_of result.now) }
        ensures lean { LemmasAreLean self.now.proof.problem (history_of result.now) }
        ensures steps { self.now.failed ≡ false → StepsLeaveKept self.now.proof.problem (history_of result.now) }
        ensures texts { All HasText result.now }
        ensures accepted { self.now.failed ≡ false → self.now.stage ≡ Idle → IsAccepted self.now.proof.problem result.now }
    {
        self.proof.log()
    }

    /// The log, when the solver is done with. It is as `log` says.
    pub fn into_log(self) -> Log
        ensures lines { history_of result ≡ self.proof.history }
        ensures right { NoneRefused self.proof.problem (history_of result) }
        ensures lean { LemmasAreLean self.proof.problem (history_of result) }
        ensures steps { self.failed ≡ false → StepsLeaveKept self.proof.problem (history_of result) }
        ensures texts { All HasText result }
        ensures accepted { self.failed ≡ false → self.stage ≡ Idle → IsAccepted self.proof.problem result }
    {
        self.proof.into_log()
    }

    /// The ids of the lemmas that stand, in ascending order.
    pub fn lemma_ids(&self) -> &[u64]
        ensures { result.now ≡ lemma_ids self.now.proof }
    {
        self.proof.lemma_ids()
    }

    /// The number of variables in use: those of `new` and the activation literals given so far.
    pub fn vars(&self) -> u32
        ensures { result ≡ self.now.vars }
    {
        self.vars
    }
}
