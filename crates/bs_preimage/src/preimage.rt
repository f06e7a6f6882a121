//! Lists of candidates by one solver, whose log goes on from list to list.
ghost use Rattle.std.specs.Prelude.{◌≡◌, ◌+◌, ◌<◌, ◌≤◌, true, false, length, All, IfOk, IfErr, IfSome, None, option_map};
ghost use Rattle.bs_net.specs.Netlist.{circuit};
ghost use Rattle.bs_log.specs.Refusal.{has_distinct_variables, history_of, NoneRefused, IsAccepted};
ghost use Rattle.bs_log.specs.Lean.{LemmasAreLean, StepsLeaveKept};
ghost use Rattle.bs_log.specs.LineForms.{HasText};
ghost use Rattle.bs_clause.specs.declared.literal.TheConstants.{VARIABLE_LIMIT};
ghost use Rattle.bs_clause.specs.Range.{HasVariables};
ghost use Rattle.bs_scan.specs.Choice.{depth_of};
ghost use Rattle.bs_encode.specs.Assuming.{AreWide};
ghost use Rattle.bs_encode.specs.Depth.{encoding_by};
ghost use Rattle.bs_encode.specs.declared.encoding.TheConstants.{MAX_ACTIVATIONS};
ghost use Rattle.bs_preimage.specs.Preimage.{fresh, assumptions_in, GoesOn, MayHaveStep};
ghost use Rattle.bs_preimage.specs.Rest.{made};
ghost use Rattle.bs_preimage.specs.Asking.{KeepsSource, KnowsRight};
ghost use Rattle.bs_preimage.specs.Listed.{HasListed, HasListedAsking, IsRightCand};

use crate::listing::Listing;
use crate::probe::Probe;
use crate::source::{KnownBefore, Source};
use crate::step::{Question, list_step};
use bs_bits::{Bits, NoMemory};
use bs_clause::{Clauses, Lits};
use bs_encode::{Encoding, encodings_are_tidy};
use bs_log::Log;
use bs_net::Netlist;
use bs_report::Cand;
use bs_scan::{Choice, Seen};
use bs_solve::Solver;
use std::alloc::Global;
use std::marker::Model;

/// The clauses again, for the solver to keep.
fn copied(alloc: Global, clauses: &Clauses) -> Result<Clauses, NoMemory>
    ensures { IfOk result (λ all. all ≡ clauses.now) }
{
    let mut all = Clauses::new(alloc);
    'clauses: for clause in clauses.slice() {
        all.push(Lits::copy(alloc, clause.slice())?)?;
    }
    Ok(all)
}

/// A solver over the clauses of an encoding.
pub(crate) fn solver_of(alloc: Global, encoding: &Encoding) -> Result<Solver, NoMemory>
    requires range { All (HasVariables encoding.now.variables) encoding.now.clauses }
    requires distinct { All (λ c. has_distinct_variables c ≡ true) encoding.now.clauses }
    requires vars { encoding.now.variables < VARIABLE_LIMIT }
    ensures { IfOk result (λ s. s ≡ made encoding.now) }
{
    let clauses = copied(alloc, encoding.clauses())?;
    let solver = Solver::new(alloc, encoding.vars(), clauses)?;
    Ok(solver)
}

/// What lists candidates. Contracts see its netlist's circuit, what the signature is taken of, what its log is about, the
/// log's lines, the newest first, how many lists were asked for, and whether memory ran out.
pub struct Preimage<'a> {
    net: &'a Netlist,
    choice: &'a Choice,
    encoding: Encoding,
    solver: Solver,
    calls: u64,
    failed: bool,
}

// One function for every place that drops it, so that the proof of each such place stays small.
impl<'a> Drop for Preimage<'a> {
    fn drop(self) {
        let Preimage {
            net: _,
            choice: _,
            encoding,
            solver,
            calls: _,
            failed: _,
        } = self;
        drop(encoding);
        drop(solver);
    }
}

impl<'a> Model for Preimage<'a> {
    ghost use Rattle.bs_net.specs.Netlist.{circuit};
    ghost use Rattle.bs_preimage.specs.Preimage.{PreimageState};
    ghost use Rattle.bs_preimage.specs.Rest.{IsPrepared};

    ghost Value = { PreimageState };

    ghost view = { λ p. record { circuit = circuit p.net.now; choice = p.choice.now; problem = p.solver.proof.problem; history = p.solver.proof.history; calls = p.calls; failed = p.failed } };

    ghost invariant = { λ p. IsPrepared (circuit p.net.now) p.choice.now p.encoding p.solver p.calls p.failed };
}

impl<'a> Preimage<'a> {
    /// What lists candidates in a netlist by a signature of its width.
    pub fn new(
        alloc: Global,
        net: &'a Netlist,
        choice: &'a Choice,
    ) -> Result<Preimage<'a>, NoMemory>
        requires { choice.now.width ≡ length (circuit net.now).flops }
        ensures { IfOk result (λ p. p ≡ fresh (circuit net.now) choice.now) }
    {
        let encoding = Encoding::new(alloc, net, choice)?;
        Preimage::over(alloc, net, choice, encoding)
    }

    /// The same over the encoding of the netlist.
    fn over(
        alloc: Global,
        net: &'a Netlist,
        choice: &'a Choice,
        encoding: Encoding,
    ) -> Result<Preimage<'a>, NoMemory>
        requires width { choice.now.width ≡ length (circuit net.now).flops }
        requires encoding { encoding ≡ encoding_by (circuit net.now) choice.now }
        ensures { IfOk result (λ p. p ≡ fresh (circuit net.now) choice.now) }
    {
        encodings_are_tidy(net, choice);
        let solver = solver_of(alloc, &encoding)?;
        Ok(Preimage {
            net,
            choice,
            encoding,
            solver,
            calls: 0,
            failed: false,
        })
    }

    /// Lists the states that agree with the stored signature and the older one, which is none where the register keeps one,
    /// and that lead to the present state, each with an input under which it does, and with a state and an input before it
    /// where there is an older signature: all of them, or `k` of them, or those that are found until a solve has logged `b` lemmas.
    /// A candidate that is known is among `k` of them. Once memory ran out, every later list answers it and logs nothing.
    pub fn list(
        &mut self,
        alloc: Global,
        present: &Seen,
        stored: &Bits,
        older: Option<&Bits>,
        known: &Option<Cand>,
        k: u64,
        b: u64,
    ) -> Result<Listing, NoMemory>
        requires state { length present.now.bits ≡ length self.old.circuit.flops }
        requires signature { length stored.now ≡ length self.old.choice.items }
        requires older { AreWide (length self.old.choice.items) (option_map (λ bits. bits.now) older) }
        requires alone { depth_of self.old.choice ≡ 1 → option_map (λ bits. bits.now) older ≡ None }
        requires known { IfSome known.now (IsRightCand self.old.circuit self.old.choice present.now stored.now (option_map (λ bits. bits.now) older)) }
        requires candidates { 1 ≤ k }
        requires conflicts { 1 ≤ b }
        requires calls { self.old.calls < MAX_ACTIVATIONS }
        ensures ok { IfOk result (HasListed self.old self.new present.now stored.now (option_map (λ bits. bits.now) older.entry) known.now k b) }
        ensures err { IfErr result (λ _. self.new.failed ≡ true) }
        ensures goes_on { GoesOn self.old self.new }
        ensures steps { MayHaveStep self.old self.new (assumptions_in self.old present.now stored.now (option_map (λ bits. bits.now) older.entry)) }
        ensures stays { self.old.failed ≡ true → (self.new.problem ≡ self.old.problem) × (self.new.history ≡ self.old.history) }
        ensures calls { self.new.calls ≡ self.old.calls + 1 }
    {
        let mut held = KnownBefore { known };
        let listing = self.list_asking(alloc, present, stored, older, &mut held, k, b)?;
        Ok(listing)
    }

    /// The list as `list` makes it, where a source is asked for what is known: once at most, where one place is left and the list is
    /// neither finished nor spent. With `k` 1 it is asked before anything is searched.
    pub fn list_asking<S: Source>(
        &mut self,
        alloc: Global,
        present: &Seen,
        stored: &Bits,
        older: Option<&Bits>,
        source: &mut S,
        k: u64,
        b: u64,
    ) -> Result<Listing, NoMemory>
        requires state { length present.now.bits ≡ length self.old.circuit.flops }
        requires signature { length stored.now ≡ length self.old.choice.items }
        requires older { AreWide (length self.old.choice.items) (option_map (λ bits. bits.now) older) }
        requires alone { depth_of self.old.choice ≡ 1 → option_map (λ bits. bits.now) older ≡ None }
        requires ready { S.ready source.old }
        requires right { KnowsRight S.knows source.old (IsRightCand self.old.circuit self.old.choice present.now stored.now (option_map (λ bits. bits.now) older)) }
        requires candidates { 1 ≤ k }
        requires conflicts { 1 ≤ b }
        requires calls { self.old.calls < MAX_ACTIVATIONS }
        ensures ok { IfOk result (HasListedAsking S.knows source.old source.new self.old self.new present.now stored.now (option_map (λ bits. bits.now) older.entry) k b) }
        ensures err { IfErr result (λ _. self.new.failed ≡ true) }
        ensures goes_on { GoesOn self.old self.new }
        ensures steps { MayHaveStep self.old self.new (assumptions_in self.old present.now stored.now (option_map (λ bits. bits.now) older.entry)) }
        ensures stays { self.old.failed ≡ true → (self.new.problem ≡ self.old.problem) × (self.new.history ≡ self.old.history) }
        ensures calls { self.new.calls ≡ self.old.calls + 1 }
        ensures source { KeepsSource S.stays source.old source.new }
    {
        self.calls += 1;
        if self.failed {
            return Err(NoMemory);
        }
        self.failed = true;
        let asked = Question {
            present,
            stored,
            older,
            k,
            b,
        };
        let listing = list_step(
            alloc,
            self.net,
            self.choice,
            &self.encoding,
            &mut self.solver,
            &asked,
            source,
        )?;
        self.failed = false;
        Ok(listing)
    }

    /// What answers about single states of the same netlist, by the same signature.
    pub fn probe(&self, alloc: Global) -> Result<Probe<'a>, NoMemory>
        ensures { IfOk result (λ p. p ≡ record { circuit = self.now.circuit; choice = self.now.choice }) }
    {
        Probe::new(alloc, self.net, self.choice)
    }

    /// How many lists were asked for.
    pub fn calls(&self) -> u64
        ensures { result ≡ self.now.calls }
    {
        self.calls
    }

    /// The log. No line of it is refused, its lemmas are lean, and each line has a text. While memory has not run out it is
    /// accepted, and each step has left what is kept.
    pub fn into_log(self) -> Log
        ensures lines { history_of result ≡ self.entry.history }
        ensures right { NoneRefused self.entry.problem (history_of result) }
        ensures lean { LemmasAreLean self.entry.problem (history_of result) }
        ensures steps { self.entry.failed ≡ false → StepsLeaveKept self.entry.problem (history_of result) }
        ensures texts { All HasText result }
        ensures accepted { self.entry.failed ≡ false → IsAccepted self.entry.problem result }
    {
        let Preimage {
            net: _,
            choice: _,
            encoding,
            solver,
            calls: _,
            failed: _,
        } = self;
        drop(encoding);
        solver.into_log()
    }
}
