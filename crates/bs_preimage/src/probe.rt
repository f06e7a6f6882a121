//! A private search, whose log is not written: whether one state is a predecessor.
ghost use Rattle.std.specs.Prelude.{◌≡◌, ◌+◌, ◌<◌, ◌≤◌, true, false, length, IfOk, IfSome, option_map};
ghost use Rattle.std.specs.Bool.{OnTrue};
ghost use Rattle.bs_net.specs.Netlist.{circuit};
ghost use Rattle.bs_log.specs.Refusal.{has_distinct_variables};
ghost use Rattle.bs_encode.specs.Assuming.{asking, AreWide};
ghost use Rattle.bs_encode.specs.Depth.{encoding_by};
ghost use Rattle.bs_encode.specs.declared.encoding.TheConstants.{MAX_ACTIVATIONS};
ghost use Rattle.bs_preimage.specs.Rest.{IsAbout};
ghost use Rattle.bs_preimage.specs.Turn.{IsReadable, MayTurn, TurnsTo};
ghost use Rattle.bs_preimage.specs.Probe.{last_of, probed_of, probing_at, probing_for, HasAnswered, HasProbed, IsPaused, IsProbed, IsQuestion, IsReadyEngine, IsReadyFor, MayProbe};

use crate::next_candidate::{TurnEnd, take_turn};
use crate::preimage::solver_of;
use bs_bits::Bits;
use bs_clause::{Lit, Lits, NoMemory};
use bs_encode::{
    Encoding, encodings_are_tidy, predecessors_are_shown, push_signed, solutions_are_predecessors,
};
use bs_net::Netlist;
use bs_report::Cand;
use bs_scan::{Choice, Seen};
use bs_solve::Solver;
use std::alloc::Global;
use std::marker::Model;

/// How many states one solver is asked about, before another one takes its place.
/// As many as a search for a recorded moment asks about.
pub const MAX_PROBES: u64 = 1_000;

/// What is said of a state.
#[derive(Drop)]
pub enum Probed {
    /// It is a predecessor. This is the candidate that shows it.
    Predecessor(Cand),
    /// It is no predecessor.
    NoPredecessor,
    /// It is not known: the solve spent its budget, or the register keeps two signatures and holds one.
    Unknown,
}

/// What is asked: whether a state that agrees with the stored signature and the older one leads to the present one, with at
/// most `b` lemmas.
#[derive(Clone, Copy)]
struct ProbeRequest<'a> {
    present: &'a Seen,
    stored: &'a Bits,
    older: Option<&'a Bits>,
    state: &'a Bits,
    b: u64,
}

/// What a step assumes that is about one state: the next bits first, the state last.
fn assumed(
    alloc: Global,
    encoding: &Encoding,
    activation: Lit,
    asked: &ProbeRequest<'_>,
) -> Result<Lits, NoMemory>
    requires present { length asked.now.present.now.bits ≡ length encoding.now.next }
    requires stored { length asked.now.stored.now ≡ length encoding.now.signatures }
    requires older { AreWide (length encoding.now.older_signatures) (option_map (λ bits. bits.now) asked.now.older) }
    requires state { length encoding.now.states ≡ length asked.now.state.now }
    ensures { IfOk result (λ all. all ≡ probing_for encoding.now activation (asking asked.now.present.now asked.now.stored.now (option_map (λ bits. bits.now) asked.now.older)) asked.now.state.now) }
{
    let mut all = encoding.assumptions(
        alloc,
        activation,
        asked.present,
        asked.stored,
        asked.older,
    )?;
    push_signed(&mut all, encoding.states(), asked.state)?;
    Ok(all)
}

/// Searches once in a step that has begun.
fn probe_turn(
    alloc: Global,
    encoding: &Encoding,
    solver: &mut Solver,
    activation: Lit,
    asked: &ProbeRequest<'_>,
) -> Result<TurnEnd, NoMemory>
    requires readable { IsReadable encoding.now }
    requires may { MayTurn encoding.now solver.old (probing_for encoding.now activation (asking asked.now.present.now asked.now.stored.now (option_map (λ bits. bits.now) asked.now.older)) asked.now.state.now) }
    requires present { length asked.now.present.now.bits ≡ length encoding.now.next }
    requires stored { length asked.now.stored.now ≡ length encoding.now.signatures }
    requires older { AreWide (length encoding.now.older_signatures) (option_map (λ bits. bits.now) asked.now.older) }
    requires state { length encoding.now.states ≡ length asked.now.state.now }
    requires limit { 1 ≤ asked.now.b }
    ensures ok { IfOk result (TurnsTo encoding.now (probing_for encoding.now activation (asking asked.now.present.now asked.now.stored.now (option_map (λ bits. bits.now) asked.now.older)) asked.now.state.now) asked.now.b solver.old solver.new) }
{
    let assumptions = assumed(alloc, encoding, activation, asked)?;
    let end = take_turn(alloc, encoding, solver, &assumptions, asked.b)?;
    Ok(end)
}

/// The lemma that ends a step, if there is one.
fn ending(end: &TurnEnd) -> Option<u64>
    ensures { result ≡ last_of end.now }
{
    match end {
        TurnEnd::Listed(_) => None,
        TurnEnd::Refuted(id) => Some(*id),
        TurnEnd::Spent => None,
    }
}

/// Begins a step about one state, searches once, and ends the step.
fn probe_once(
    alloc: Global,
    encoding: &Encoding,
    solver: &mut Solver,
    asked: &ProbeRequest<'_>,
) -> Result<TurnEnd, NoMemory>
    requires readable { IsReadable encoding.now }
    requires vars { solver.old.proof.problem.vars ≡ encoding.now.variables }
    requires clauses { solver.old.proof.problem.clauses ≡ encoding.now.clauses }
    requires rest { IsPaused solver.old }
    requires few { length solver.old.proof.problem.steps < MAX_ACTIVATIONS }
    requires distinct { has_distinct_variables (probing_at encoding.now solver.old.proof asked.now.present.now asked.now.stored.now (option_map (λ bits. bits.now) asked.now.older) asked.now.state.now) ≡ true }
    requires present { length asked.now.present.now.bits ≡ length encoding.now.next }
    requires stored { length asked.now.stored.now ≡ length encoding.now.signatures }
    requires older { AreWide (length encoding.now.older_signatures) (option_map (λ bits. bits.now) asked.now.older) }
    requires state { length encoding.now.states ≡ length asked.now.state.now }
    requires limit { 1 ≤ asked.now.b }
    ensures ok { IfOk result (HasProbed encoding.now solver.old solver.new (probing_at encoding.now solver.old.proof asked.now.present.now asked.now.stored.now (option_map (λ bits. bits.now) asked.now.older) asked.now.state.now) asked.now.b) }
{
    let activation = solver.begin_step()?;
    let end = probe_turn(alloc, encoding, solver, activation, asked)?;
    solver.end_step(alloc, ending(&end))?;
    Ok(end)
}

/// What the end of a search says.
fn said_by(end: TurnEnd) -> Probed
    ensures { result ≡ probed_of end }
{
    match end {
        TurnEnd::Listed(cand) => Probed::Predecessor(cand),
        TurnEnd::Refuted(_) => Probed::NoPredecessor,
        TurnEnd::Spent => Probed::Unknown,
    }
}

/// Answers a question in a step of its own.
fn probe_step(
    alloc: Global,
    net: &Netlist,
    choice: &Choice,
    encoding: &Encoding,
    solver: &mut Solver,
    asked: &ProbeRequest<'_>,
) -> Result<Probed, NoMemory>
    requires about { IsAbout (circuit net.now) choice.now encoding.now solver.old.proof }
    requires rest { IsPaused solver.old }
    requires few { length solver.old.proof.problem.steps < MAX_ACTIVATIONS }
    requires present { length asked.now.present.now.bits ≡ length (circuit net.now).flops }
    requires stored { length asked.now.stored.now ≡ length choice.now.items }
    requires older { AreWide (length choice.now.items) (option_map (λ bits. bits.now) asked.now.older) }
    requires state { length asked.now.state.now ≡ length (circuit net.now).flops }
    requires may { MayProbe choice.now (option_map (λ bits. bits.now) asked.now.older) }
    requires limit { 1 ≤ asked.now.b }
    ensures ok { IfOk result (HasAnswered (circuit net.now) choice.now encoding.now solver.old solver.new asked.now.present.now asked.now.stored.now (option_map (λ bits. bits.now) asked.now.older) asked.now.state.now asked.now.b) }
{
    encodings_are_tidy(net, choice);
    predecessors_are_shown(net, choice);
    solutions_are_predecessors(net, choice);
    let _raw = net.raw();
    let _items = choice.items();
    let end = probe_once(alloc, encoding, solver, asked)?;
    let _log = solver.log();
    Ok(said_by(end))
}

/// Puts a new solver in the place of one that has answered many questions.
fn renew(
    alloc: Global,
    net: &Netlist,
    choice: &Choice,
    encoding: &Encoding,
    solver: &mut Solver,
    count: &mut u64,
) -> Result<(), NoMemory>
    requires ready { IsReadyFor (circuit net.now) choice.now encoding.now solver.old count.old }
    ensures ready { IfOk result (λ _. IsReadyFor (circuit net.now) choice.now encoding.now solver.new count.new) }
    ensures few { IfOk result (λ _. count.new < MAX_PROBES) }
{
    if *count < MAX_PROBES {
        return Ok(());
    }
    encodings_are_tidy(net, choice);
    *solver = solver_of(alloc, encoding)?;
    *count = 0;
    Ok(())
}

/// Whether one signature is kept, or both are there.
fn may_ask(choice: &Choice, older: Option<&Bits>) -> bool
    ensures may { OnTrue result (MayProbe choice.now (option_map (λ bits. bits.now) older.entry)) }
    ensures may_not { result ≡ false → ¬ MayProbe choice.now (option_map (λ bits. bits.now) older.entry) }
{
    match older {
        None => choice.depth() == 1,
        Some(_) => choice.depth() == 2,
    }
}

/// The encoding of a netlist, a solver over it whose log is not written, and how many questions the solver has answered.
struct Engine {
    encoding: Encoding,
    solver: Solver,
    count: u64,
}

// One function for every place that drops an engine, so that the proof of each such place stays small.
impl Drop for Engine {
    fn drop(self) {
        let Engine {
            encoding,
            solver,
            count: _,
        } = self;
        drop(encoding);
        drop(solver);
    }
}

/// An engine over the encoding of a netlist, which has answered no question.
fn engine_over(
    alloc: Global,
    net: &Netlist,
    choice: &Choice,
    encoding: Encoding,
) -> Result<Engine, NoMemory>
    requires width { choice.now.width ≡ length (circuit net.now).flops }
    requires encoding { encoding ≡ encoding_by (circuit net.now) choice.now }
    ensures { IfOk result (IsReadyEngine (circuit net.now) choice.now) }
{
    encodings_are_tidy(net, choice);
    let solver = solver_of(alloc, &encoding)?;
    Ok(Engine {
        encoding,
        solver,
        count: 0,
    })
}

/// An engine that has answered no question.
fn engine_of(alloc: Global, net: &Netlist, choice: &Choice) -> Result<Engine, NoMemory>
    requires { choice.now.width ≡ length (circuit net.now).flops }
    ensures { IfOk result (IsReadyEngine (circuit net.now) choice.now) }
{
    let encoding = Encoding::new(alloc, net, choice)?;
    engine_over(alloc, net, choice, encoding)
}

/// Answers a question by an engine.
fn answer_by(
    alloc: Global,
    net: &Netlist,
    choice: &Choice,
    engine: &mut Engine,
    asked: &ProbeRequest<'_>,
) -> Result<Probed, NoMemory>
    requires ready { IsReadyEngine (circuit net.now) choice.now engine.old }
    requires question { IsQuestion (circuit net.now) choice.now asked.now.present.now asked.now.stored.now (option_map (λ bits. bits.now) asked.now.older) asked.now.state.now asked.now.b }
    ensures ready { IfOk result (λ _. IsReadyEngine (circuit net.now) choice.now engine.new) }
    ensures probed { IfOk result (IsProbed (circuit net.now) choice.now asked.now.present.now asked.now.stored.now (option_map (λ bits. bits.now) asked.now.older) asked.now.state.now asked.now.b) }
{
    renew(
        alloc,
        net,
        choice,
        &engine.encoding,
        &mut engine.solver,
        &mut engine.count,
    )?;
    let answer = probe_step(
        alloc,
        net,
        choice,
        &engine.encoding,
        &mut engine.solver,
        asked,
    )?;
    engine.count += 1;
    Ok(answer)
}

/// Answers the first question, by an engine that is made for it.
fn answer_first(
    alloc: Global,
    net: &Netlist,
    choice: &Choice,
    place: &mut Option<Engine>,
    asked: &ProbeRequest<'_>,
) -> Result<Probed, NoMemory>
    requires width { choice.now.width ≡ length (circuit net.now).flops }
    requires question { IsQuestion (circuit net.now) choice.now asked.now.present.now asked.now.stored.now (option_map (λ bits. bits.now) asked.now.older) asked.now.state.now asked.now.b }
    ensures ready { IfOk result (λ _. IfSome place.new (IsReadyEngine (circuit net.now) choice.now)) }
    ensures probed { IfOk result (IsProbed (circuit net.now) choice.now asked.now.present.now asked.now.stored.now (option_map (λ bits. bits.now) asked.now.older) asked.now.state.now asked.now.b) }
{
    let mut engine = engine_of(alloc, net, choice)?;
    let answer = answer_by(alloc, net, choice, &mut engine, asked)?;
    *place = Some(engine);
    Ok(answer)
}

/// Answers a question by the engine that is there, or by one that is made.
fn answer_in(
    alloc: Global,
    net: &Netlist,
    choice: &Choice,
    place: &mut Option<Engine>,
    asked: &ProbeRequest<'_>,
) -> Result<Probed, NoMemory>
    requires width { choice.now.width ≡ length (circuit net.now).flops }
    requires ready { IfSome place.old (IsReadyEngine (circuit net.now) choice.now) }
    requires question { IsQuestion (circuit net.now) choice.now asked.now.present.now asked.now.stored.now (option_map (λ bits. bits.now) asked.now.older) asked.now.state.now asked.now.b }
    ensures ready { IfOk result (λ _. IfSome place.new (IsReadyEngine (circuit net.now) choice.now)) }
    ensures probed { IfOk result (IsProbed (circuit net.now) choice.now asked.now.present.now asked.now.stored.now (option_map (λ bits. bits.now) asked.now.older) asked.now.state.now asked.now.b) }
{
    match place {
        None => answer_first(alloc, net, choice, place, asked),
        Some(engine) => answer_by(alloc, net, choice, engine, asked),
    }
}

/// What answers whether states are predecessors. Its encoding and its solver are made at the first question that needs them.
/// Contracts see its netlist's circuit and what the signature is taken of.
#[derive(Drop)]
pub struct Probe<'a> {
    net: &'a Netlist,
    choice: &'a Choice,
    engine: Option<Engine>,
    failed: bool,
}

impl<'a> Model for Probe<'a> {
    ghost use Rattle.bs_net.specs.Netlist.{circuit};
    ghost use Rattle.bs_preimage.specs.Probe.{Prober, IsProbing};

    ghost Value = { Prober };

    ghost view = { λ p. record { circuit = circuit p.net.now; choice = p.choice.now } };

    ghost invariant = { λ p. IsProbing (circuit p.net.now) p.choice.now p.engine p.failed };
}

impl<'a> Probe<'a> {
    /// What answers about states of a netlist, by a signature of its width. It takes no memory yet.
    pub fn new(_alloc: Global, net: &'a Netlist, choice: &'a Choice) -> Result<Probe<'a>, NoMemory>
        requires { choice.now.width ≡ length (circuit net.now).flops }
        ensures { IfOk result (λ p. p ≡ record { circuit = circuit net.now; choice = choice.now }) }
    {
        Ok(Probe {
            net,
            choice,
            engine: None,
            failed: false,
        })
    }

    /// Whether a state agrees with the stored signature and the older one, which is none where the register keeps one, and
    /// leads to the present state. Nothing is said where a solve of this question has logged `b` lemmas, and where the register keeps two
    /// signatures and holds one: only the reset state may be before. Once memory ran out, every later question answers it.
    pub fn ask(
        &mut self,
        alloc: Global,
        present: &Seen,
        stored: &Bits,
        older: Option<&Bits>,
        state: &Bits,
        b: u64,
    ) -> Result<Probed, NoMemory>
        requires present { length present.now.bits ≡ length self.old.circuit.flops }
        requires stored { length stored.now ≡ length self.old.choice.items }
        requires older { AreWide (length self.old.choice.items) (option_map (λ bits. bits.now) older) }
        requires state { length state.now ≡ length self.old.circuit.flops }
        requires conflicts { 1 ≤ b }
        ensures probed { IfOk result (IsProbed self.old.circuit self.old.choice present.now stored.now (option_map (λ bits. bits.now) older.entry) state.now b) }
        ensures kept { self.new ≡ self.old }
    {
        if !may_ask(self.choice, older) {
            return Ok(Probed::Unknown);
        }
        let asked = ProbeRequest {
            present,
            stored,
            older,
            state,
            b,
        };
        self.answer(alloc, &asked)
    }

    /// Answers a question, where one signature is kept or both are there.
    fn answer(&mut self, alloc: Global, asked: &ProbeRequest<'_>) -> Result<Probed, NoMemory>
        requires { IsQuestion self.old.circuit self.old.choice asked.now.present.now asked.now.stored.now (option_map (λ bits. bits.now) asked.now.older) asked.now.state.now asked.now.b }
        ensures probed { IfOk result (IsProbed self.old.circuit self.old.choice asked.now.present.now asked.now.stored.now (option_map (λ bits. bits.now) asked.now.older) asked.now.state.now asked.now.b) }
        ensures kept { self.new ≡ self.old }
    {
        if self.failed {
            return Err(NoMemory);
        }
        self.failed = true;
        let answer = answer_in(alloc, self.net, self.choice, &mut self.engine, asked)?;
        self.failed = false;
        Ok(answer)
    }
}
