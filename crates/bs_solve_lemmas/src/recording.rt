//! The one door of the log: each line goes in together with what is recorded beside it.
ghost use Rattle.std.specs.Prelude.{◌≡◌, ◌<◌, ◌==◌, ◌∷◌, ◌++◌, [], true, Some, None, false, not, length, All, IfOk, OnOk, OnErr, filter};
ghost use Rattle.std.specs.List.{list_any};
ghost use Rattle.bs_clause.specs.Literal.{negation};
ghost use Rattle.bs_log.specs.declared.line.Line.TheVariants.{Solve, Block, Finish, Retire, Delete};
ghost use Rattle.bs_log.specs.declared.origin.Origin.TheVariants.{Learnt, Blocked, Retired};
ghost use Rattle.bs_log.specs.History.{phase_of, state_of, step_of, activation_of, live};
ghost use Rattle.bs_log.specs.Refusal.{in_order, in_solve, is_between_steps, has_distinct_variables, is_block_of, passes, is_lemma, entry_of, denies};
ghost use Rattle.bs_log.specs.Refusal.{history_of, refusal, NoneRefused};
ghost use Rattle.bs_log.specs.Lean.{IsNew, LemmasAreLean};
ghost use Rattle.bs_log.specs.LineForms.{HasVariable, HasText};
ghost use Rattle.bs_solve_lemmas.specs.Rows.{AreInOrder};
ghost use Rattle.bs_solve_lemmas.specs.Walk.{IsLoggedLearnt};
ghost use Rattle.bs_solve_lemmas.specs.ProofLog.{standing, lemma_ids, next_id, with_line, with_lemma, with_member, without};
ghost use Rattle.bs_solve_lemmas.specs.Search.{assumed};
ghost use Rattle.bs_solve_lemmas.specs.Solver.{retired, leaving, ended};

use crate::ids::{copied, push_id, take_out};
use bs_bits::List;
use bs_clause::{Clauses, Lit, Lits, NoMemory};
use bs_log::{Line, Log};
use std::alloc::Global;
use std::marker::Model;
use std::snapshot::Snapshot;

/// A log that is right so far, with the last id that was given and the ids of the lemmas that stand. Contracts see what
/// the log is about, and its lines.
#[derive(Drop)]
pub struct Recording {
    vars: u32,
    axioms: Snapshot<Clauses>,
    last: u64,
    lemmas: Vec<u64>,
    steps: List<Lits>,
    log: Log,
}

impl Model for Recording {
    ghost use Rattle.std.specs.Prelude.{reverse};
    ghost use Rattle.bs_solve_lemmas.specs.ProofLog.{ProofLog, IsRecorded};

    ghost Value = { ProofLog };

    ghost view = { λ r. record { problem = record { vars = r.vars; clauses = r.axioms.value; steps = r.steps }; history = reverse r.log } };

    ghost invariant = { λ r. IsRecorded r.last r.lemmas.items (record { problem = record { vars = r.vars; clauses = r.axioms.value; steps = r.steps }; history = reverse r.log }) };
}

impl Recording {
    /// An empty log over these clauses, whose ids are 1, 2, 3 and so on.
    pub fn new(alloc: Global, vars: u32, axioms: &Clauses) -> Recording
        ensures { result ≡ record { problem = record { vars = vars; clauses = axioms.now; steps = [] }; history = [] } }
    {
        Recording {
            vars,
            axioms: Snapshot::of(axioms),
            last: axioms.len() as u64,
            lemmas: Vec::new(alloc),
            steps: List::new(alloc),
            log: Log::new(alloc),
        }
    }

    /// The log. No line of it is refused, its lemmas are lean, and each line has a text.
    #[tactic(auto, using(crate::proofs::ProofLogs::texts_in_order))]
    pub fn log(&self) -> &Log
        ensures lines { history_of result.now ≡ self.now.history }
        ensures right { NoneRefused self.now.problem (history_of result.now) }
        ensures lean { LemmasAreLean self.now.problem (history_of result.now) }
        ensures texts { All HasText result.now }
    {
        &self.log
    }

    /// The log, without what was recorded beside it.
    #[tactic(auto, using(crate::proofs::ProofLogs::texts_in_order))]
    pub fn into_log(self) -> Log
        ensures lines { history_of result ≡ self.history }
        ensures right { NoneRefused self.problem (history_of result) }
        ensures lean { LemmasAreLean self.problem (history_of result) }
        ensures texts { All HasText result }
    {
        self.log
    }

    /// The assumptions of each step that has had a solve, in order.
    pub fn steps(&self) -> &List<Lits>
        ensures { result.now ≡ self.now.problem.steps }
    {
        &self.steps
    }

    /// The ids of the lemmas that stand, in ascending order.
    pub fn lemma_ids(&self) -> &[u64]
        ensures { result.now ≡ lemma_ids self.now }
    {
        self.lemmas.as_slice()
    }

    /// The id that the next clause gets.
    pub fn next_id(&self) -> Result<u64, NoMemory>
        ensures id { IfOk result (λ id. id ≡ next_id self.now) }
        ensures fresh { IfOk result (λ id. entry_of (live self.now.problem self.now.history) id ≡ None) }
    {
        match self.last.checked_add(1) {
            Some(id) => Ok(id),
            None => Err(NoMemory),
        }
    }

    /// The ids of what stands ascend.
    pub fn holds_ids(&self)
        ensures { AreInOrder (live self.now.problem self.now.history) }
    {
        let _ = self.log.len();
    }

    /// Adds the assumptions of the step that begins.
    pub fn add_step(&mut self, member: Lits) -> Result<(), NoMemory>
        ensures ok { OnOk result (self.new ≡ with_member self.old member) }
        ensures stands { OnOk result (live self.new.problem self.new.history ≡ live self.old.problem self.old.history) }
        ensures err { OnErr result (self.new ≡ self.old) }
    {
        match self.steps.push(member) {
            Ok(()) => {}
            Err(_) => return Err(NoMemory),
        }
        Ok(())
    }

    /// Logs that a solve begins.
    pub fn log_solve(&mut self) -> Result<(), NoMemory>
        requires { in_order self.old.problem (state_of self.old.problem self.old.history) Solve ≡ true }
        ensures ok { OnOk result (self.new ≡ with_line self.old Solve) }
        ensures err { OnErr result (self.new ≡ self.old) }
    {
        match self.log.push(Line::Solve) {
            Ok(()) => {}
            Err(_) => return Err(NoMemory),
        }
        Ok(())
    }

    /// Logs that a lemma ends the step.
    pub fn log_finish(&mut self, id: u64) -> Result<(), NoMemory>
        requires phase { in_solve (phase_of self.old.history) ≡ true }
        requires lemma { passes is_lemma (entry_of (live self.old.problem self.old.history) id) ≡ true }
        requires ends { passes (λ e. denies (assumed self.old) e.literals) (entry_of (live self.old.problem self.old.history) id) ≡ true }
        ensures ok { OnOk result (self.new ≡ with_line self.old (Finish id)) }
        ensures err { OnErr result (self.new ≡ self.old) }
    {
        match self.log.push(Line::Finish { id }) {
            Ok(()) => {}
            Err(_) => return Err(NoMemory),
        }
        Ok(())
    }

    /// Logs a block under the next id, which it answers.
    pub fn log_block(&mut self, lits: Lits) -> Result<u64, NoMemory>
        requires phase { in_solve (phase_of self.old.history) ≡ true }
        requires distinct { has_distinct_variables lits ≡ true }
        requires range { All HasVariable lits }
        requires block { is_block_of self.old.problem (step_of self.old.history) lits ≡ true }
        ensures id { IfOk result (λ id. id ≡ next_id self.old) }
        ensures line { IfOk result (λ id. self.new ≡ with_line self.old (Block id lits)) }
        ensures stands { IfOk result (λ id. live self.new.problem self.new.history
            ≡ live self.old.problem self.old.history ++ record { id = id; origin = Blocked; literals = lits } ∷ []) }
        ensures err { OnErr result (self.new ≡ self.old) }
    {
        let id = self.next_id()?;
        match self.log.push(Line::Block { id, lits }) {
            Ok(()) => {}
            Err(_) => return Err(NoMemory),
        }
        self.last = id;
        Ok(id)
    }

    /// The unit of the negated activation literal stands last, once the step under way has ended.
    pub fn holds_end(&self, activation: Lit)
        requires { activation ≡ activation_of self.now.problem (step_of self.now.history) }
        ensures { live (retired self.now).problem (retired self.now).history
            ≡ live self.now.problem self.now.history ++ record { id = next_id self.now; origin = Retired; literals = negation activation ∷ [] } ∷ [] }
    {
        let _ = self.log.len();
    }

    /// Logs that the step ends, and that what is not kept goes, if anything is not: these ids. Both lines come, or neither.
    pub fn log_end(&mut self, alloc: Global, ids: &[u64]) -> Result<(), NoMemory>
        requires phase { is_between_steps (phase_of self.old.history) ≡ false }
        requires leaving { ids.now ≡ leaving self.old }
        ensures lines { OnOk result (self.new ≡ ended self.old) }
        ensures order { AreInOrder (live (retired self.old).problem (retired self.old).history) }
        ensures stands { OnOk result (live self.new.problem self.new.history
            ≡ filter (λ e. not (list_any (λ d. e.id == d) ids.now)) (live (retired self.old).problem (retired self.old).history)) }
        ensures err { OnErr result (self.new ≡ self.old) }
    {
        let _ = self.log.len();
        if ids.len() == 0 {
            self.log_retire()
        } else {
            self.log_both(alloc, ids)
        }
    }

    // Logs that the step ends.
    fn log_retire(&mut self) -> Result<(), NoMemory>
        requires { is_between_steps (phase_of self.old.history) ≡ false }
        ensures ok { OnOk result (self.new ≡ retired self.old) }
        ensures err { OnErr result (self.new ≡ self.old) }
    {
        let id = self.next_id()?;
        match self.log.push(Line::Retire { id }) {
            Ok(()) => {}
            Err(_) => return Err(NoMemory),
        }
        self.last = id;
        Ok(())
    }

    // Logs that the step ends, and that clauses are taken away. Their ids stay given. Both lines come, or neither.
    fn log_both(&mut self, alloc: Global, ids: &[u64]) -> Result<(), NoMemory>
        requires phase { is_between_steps (phase_of self.old.history) ≡ false }
        requires some { 0 < length ids.now }
        requires gone { refusal self.old.problem (state_of self.old.problem (retired self.old).history) (Delete ids.now) ≡ None }
        ensures ok { OnOk result (self.new ≡ without (retired self.old) ids.now) }
        ensures err { OnErr result (self.new ≡ self.old) }
    {
        let id = self.next_id()?;
        let named = copied(alloc, ids)?;
        match self
            .log
            .push_two(Line::Retire { id }, Line::Delete { ids: named })
        {
            Ok(()) => {}
            Err(_) => return Err(NoMemory),
        }
        self.last = id;
        take_out(&mut self.lemmas, ids);
        Ok(())
    }

    /// Logs a lemma with its hints under the next id, which it answers.
    pub fn log_lemma(&mut self, lits: Lits, hints: List<u64>) -> Result<u64, NoMemory>
        requires phase { in_solve (phase_of self.old.history) ≡ true }
        requires learnt { IsLoggedLearnt (live self.old.problem self.old.history) lits hints }
        requires range { All HasVariable lits }
        requires new { IsNew self.old.problem self.old.history lits }
        ensures id { IfOk result (λ id. id ≡ next_id self.old) }
        ensures line { IfOk result (λ id. self.new ≡ with_lemma self.old id lits hints) }
        ensures stands { IfOk result (λ id. live self.new.problem self.new.history
            ≡ live self.old.problem self.old.history ++ record { id = id; origin = Learnt; literals = lits } ∷ []) }
        ensures entry { IfOk result (λ id. entry_of (live self.new.problem self.new.history) id ≡ Some (record { id = id; origin = Learnt; literals = lits })) }
        ensures err { OnErr result (self.new ≡ self.old) }
    {
        let id = self.next_id()?;
        self.lemmas.reserve(1)?;
        match self.log.push(Line::Lemma { id, lits, hints }) {
            Ok(()) => {}
            Err(_) => return Err(NoMemory),
        }
        self.last = id;
        push_id(&mut self.lemmas, id);
        Ok(id)
    }
}
