//! A turn of the search for candidates: one solve, and what comes of it, or a candidate that is known.
ghost use Rattle.std.specs.Prelude.{◌≡◌, ◌≤◌, [], false, length, IfOk, IfSome, Some};
ghost use Rattle.std.specs.List.{list_any};
ghost use Rattle.bs_bits.specs.Bits.{bits_eq};
ghost use Rattle.bs_solve_lemmas.specs.Stages.{is_begun};
ghost use Rattle.bs_solve_lemmas.specs.declared.stage.Stage.TheVariants.{Solved};
ghost use Rattle.bs_preimage.specs.Turn.{IsReadable, MayTurn, TurnsTo, Extends, HasShown, HasBlockedState, HasBlockedKnown, HasTakenKnown, GoesTo};

use crate::candidate::{candidate, copied};
use bs_bits::Bits;
use bs_clause::{Lits, NoMemory};
use bs_encode::Encoding;
use bs_report::Cand;
use bs_solve::Solver;
use bs_solve_lemmas::{Answer, Solution};
use std::alloc::Global;

/// How a turn of the search ends.
#[derive(Drop)]
pub(crate) enum TurnEnd {
    /// A candidate, whose state is now blocked.
    Listed(Cand),
    /// There is no further candidate: the lemma of this id says so.
    Refuted(u64),
    /// The limit of lemmas was reached.
    Spent,
}

/// Solves once. The state of a candidate that is found is blocked.
pub(crate) fn take_turn(
    alloc: Global,
    encoding: &Encoding,
    solver: &mut Solver,
    assumptions: &Lits,
    limit: u64,
) -> Result<TurnEnd, NoMemory>
    requires readable { IsReadable encoding.now }
    requires may { MayTurn encoding.now solver.old assumptions.now }
    requires limit { 1 ≤ limit }
    ensures ok { IfOk result (TurnsTo encoding.now assumptions.now limit solver.old solver.new) }
    ensures lines { Extends (is_begun solver.old.stage) solver.old.proof solver.new.proof assumptions.now }
{
    match solver.solve(alloc, assumptions, limit)? {
        Answer::Found(values) => list_one(alloc, encoding, solver, &values),
        Answer::Refuted(id) => Ok(TurnEnd::Refuted(id)),
        Answer::Spent => Ok(TurnEnd::Spent),
    }
}

/// Blocks a state behind a solve.
fn block_state(
    alloc: Global,
    encoding: &Encoding,
    solver: &mut Solver,
    state: &Bits,
) -> Result<(), NoMemory>
    requires readable { IsReadable encoding.now }
    requires stage { solver.old.failed ≡ false → solver.old.stage ≡ Solved }
    requires vars { solver.old.proof.problem.vars ≡ encoding.now.variables }
    requires width { length state.now ≡ length encoding.now.states }
    ensures ok { IfOk result (λ _. HasBlockedState encoding.now state.now solver.old solver.new) }
    ensures lines { Extends false solver.old.proof solver.new.proof [] }
{
    let clause = encoding.block(alloc, state)?;
    let _id = solver.block(alloc, &clause)?;
    Ok(())
}

/// Reads the candidate that values show, and blocks its state.
fn list_one(
    alloc: Global,
    encoding: &Encoding,
    solver: &mut Solver,
    values: &Solution,
) -> Result<TurnEnd, NoMemory>
    requires readable { IsReadable encoding.now }
    requires stage { solver.old.failed ≡ false → solver.old.stage ≡ Solved }
    requires vars { solver.old.proof.problem.vars ≡ encoding.now.variables }
    requires values { encoding.now.variables ≤ length values.now }
    ensures ok { IfOk result (HasShown encoding.now values.now solver.old solver.new) }
    ensures lines { Extends false solver.old.proof solver.new.proof [] }
{
    let cand = candidate(alloc, encoding, values)?;
    block_state(alloc, encoding, solver, &cand.state)?;
    Ok(TurnEnd::Listed(cand))
}

/// Whether a state is that of a candidate found.
fn is_found(found: &[Cand], state: &Bits) -> bool
    ensures { result ≡ list_any (λ cand. bits_eq state.now cand.state) found.now }
{
    found.iter().any(|cand| state.equals(&cand.state))
}

/// Blocks a state that is known. Nothing is searched.
fn block_known(
    alloc: Global,
    encoding: &Encoding,
    solver: &mut Solver,
    assumptions: &Lits,
    state: &Bits,
) -> Result<(), NoMemory>
    requires readable { IsReadable encoding.now }
    requires may { MayTurn encoding.now solver.old assumptions.now }
    requires width { length state.now ≡ length encoding.now.states }
    ensures ok { IfOk result (λ _. HasBlockedKnown encoding.now assumptions.now state.now solver.old solver.new) }
    ensures lines { Extends (is_begun solver.old.stage) solver.old.proof solver.new.proof assumptions.now }
{
    solver.solve_unsearched(alloc, assumptions)?;
    block_state(alloc, encoding, solver, state)?;
    Ok(())
}

/// Lists a candidate that is known, and blocks its state. Nothing is searched.
fn list_known(
    alloc: Global,
    encoding: &Encoding,
    solver: &mut Solver,
    assumptions: &Lits,
    known: &Cand,
) -> Result<TurnEnd, NoMemory>
    requires readable { IsReadable encoding.now }
    requires may { MayTurn encoding.now solver.old assumptions.now }
    requires width { length known.now.state ≡ length encoding.now.states }
    ensures ok { IfOk result (HasTakenKnown encoding.now assumptions.now known.now solver.old solver.new) }
    ensures lines { Extends (is_begun solver.old.stage) solver.old.proof solver.new.proof assumptions.now }
{
    block_known(alloc, encoding, solver, assumptions, &known.state)?;
    let listed = copied(known)?;
    Ok(TurnEnd::Listed(listed))
}

/// A turn beside a known candidate: it takes the place, unless its state was found before. Then a solve is made.
fn turn_beside(
    alloc: Global,
    encoding: &Encoding,
    solver: &mut Solver,
    assumptions: &Lits,
    found: &[Cand],
    known: &Cand,
    limit: u64,
) -> Result<TurnEnd, NoMemory>
    requires readable { IsReadable encoding.now }
    requires may { MayTurn encoding.now solver.old assumptions.now }
    requires width { length known.now.state ≡ length encoding.now.states }
    requires limit { 1 ≤ limit }
    ensures ok { IfOk result (GoesTo encoding.now assumptions.now limit found.now (Some known.now) solver.old solver.new) }
    ensures lines { Extends (is_begun solver.old.stage) solver.old.proof solver.new.proof assumptions.now }
{
    if is_found(found, &known.state) {
        take_turn(alloc, encoding, solver, assumptions, limit)
    } else {
        list_known(alloc, encoding, solver, assumptions, known)
    }
}

/// The turn for the last place, behind the candidates found, where one may be known.
pub(crate) fn last_turn(
    alloc: Global,
    encoding: &Encoding,
    solver: &mut Solver,
    assumptions: &Lits,
    found: &[Cand],
    known: &Option<Cand>,
    limit: u64,
) -> Result<TurnEnd, NoMemory>
    requires readable { IsReadable encoding.now }
    requires may { MayTurn encoding.now solver.old assumptions.now }
    requires width { IfSome known.now (λ cand. length cand.state ≡ length encoding.now.states) }
    requires limit { 1 ≤ limit }
    ensures ok { IfOk result (GoesTo encoding.now assumptions.now limit found.now known.now solver.old solver.new) }
    ensures lines { Extends (is_begun solver.old.stage) solver.old.proof solver.new.proof assumptions.now }
{
    match known {
        None => take_turn(alloc, encoding, solver, assumptions, limit),
        Some(cand) => turn_beside(alloc, encoding, solver, assumptions, found, cand, limit),
    }
}
