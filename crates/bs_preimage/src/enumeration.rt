//! The search for the candidates of a step.
ghost use Rattle.std.specs.Prelude.{◌≡◌, ◌≤◌, ◌∷◌, ◌++◌, [], true, length, IfOk, IfSome};
ghost use Rattle.bs_solve_lemmas.specs.Stages.{is_begun};
ghost use Rattle.bs_solve_lemmas.specs.declared.stage.Stage.TheVariants.{Begun};
ghost use Rattle.bs_preimage.specs.Asking.{HasAsked, IsTold, KeepsSource, KnowsRight};
ghost use Rattle.bs_preimage.specs.Turn.{IsReadable, MayTurn, Extends};
ghost use Rattle.bs_preimage.specs.Finding.{HasComeTo, HasEndedSearch, HasFilled};

use crate::next_candidate::{TurnEnd, last_turn, take_turn};
use crate::source::Source;
use bs_clause::{Lits, NoMemory};
use bs_encode::Encoding;
use bs_report::{Cand, ListEnd};
use bs_solve::Solver;
use std::alloc::Global;

/// Finds candidates, each another state, until one of `k` is left to find, or there is no further one, or a solve has logged `b`
/// lemmas. They come in the order in which they are found.
fn find_most(
    alloc: Global,
    encoding: &Encoding,
    solver: &mut Solver,
    assumptions: &Lits,
    found: &mut Vec<Cand>,
    k: u64,
    b: u64,
) -> Result<Option<ListEnd>, NoMemory>
    requires readable { IsReadable encoding.now }
    requires may { MayTurn encoding.now solver.old assumptions.now }
    requires begun { solver.old.stage ≡ Begun }
    requires none { found.old.items ≡ [] }
    requires candidates { 1 ≤ k }
    requires conflicts { 1 ≤ b }
    ensures ok { IfOk result (HasComeTo encoding.now assumptions.now k b solver.old solver.new found.new.items) }
    ensures lines { Extends true solver.old.proof solver.new.proof assumptions.now }
{
    let most = k - 1;
    'turns: while (found.len() as u64) < most {
        match take_turn(alloc, encoding, solver, assumptions, b)? {
            TurnEnd::Listed(cand) => found.push(cand)?,
            TurnEnd::Refuted(id) => return Ok(Some(ListEnd::Finished(id))),
            TurnEnd::Spent => return Ok(Some(ListEnd::Conflicts)),
        }
    }
    Ok(None)
}

/// Puts a candidate behind those found.
fn push_last(found: &mut Vec<Cand>, cand: Cand) -> Result<ListEnd, NoMemory>
    ensures { IfOk result (λ end. (end ≡ ListEnd.Candidates) × (found.new.items ≡ found.old.items ++ cand ∷ [])) }
{
    found.push(cand)?;
    Ok(ListEnd::Candidates)
}

/// Fills the last place: with the known candidate, unless it was found before, or with one more that is found.
fn fill(
    alloc: Global,
    encoding: &Encoding,
    solver: &mut Solver,
    assumptions: &Lits,
    found: &mut Vec<Cand>,
    known: &Option<Cand>,
    b: u64,
) -> Result<ListEnd, NoMemory>
    requires readable { IsReadable encoding.now }
    requires may { MayTurn encoding.now solver.old assumptions.now }
    requires width { IfSome known.now (λ cand. length cand.state ≡ length encoding.now.states) }
    requires conflicts { 1 ≤ b }
    ensures ok { IfOk result (HasFilled encoding.now assumptions.now b found.old.items known.now solver.old solver.new found.new.items) }
    ensures lines { Extends (is_begun solver.old.stage) solver.old.proof solver.new.proof assumptions.now }
{
    match last_turn(
        alloc,
        encoding,
        solver,
        assumptions,
        found.as_slice(),
        known,
        b,
    )? {
        TurnEnd::Listed(cand) => push_last(found, cand),
        TurnEnd::Refuted(id) => Ok(ListEnd::Finished(id)),
        TurnEnd::Spent => Ok(ListEnd::Conflicts),
    }
}

/// Fills the last place, with what the source knows.
fn fill_asking<S: Source>(
    alloc: Global,
    encoding: &Encoding,
    solver: &mut Solver,
    assumptions: &Lits,
    found: &mut Vec<Cand>,
    source: &mut S,
    b: u64,
) -> Result<ListEnd, NoMemory>
    requires readable { IsReadable encoding.now }
    requires may { MayTurn encoding.now solver.old assumptions.now }
    requires ready { S.ready source.old }
    requires right { KnowsRight S.knows source.old (λ cand. length cand.state ≡ length encoding.now.states) }
    requires conflicts { 1 ≤ b }
    ensures ok { IfOk result (λ end. IsTold S.knows source.old source.new (λ known. HasFilled encoding.now assumptions.now b found.old.items known solver.old solver.new found.new.items end)) }
    ensures lines { Extends (is_begun solver.old.stage) solver.old.proof solver.new.proof assumptions.now }
    ensures source { S.stays source.old source.new }
{
    let known = source.known(alloc)?;
    let end = fill(alloc, encoding, solver, assumptions, found, &known, b)?;
    Ok(end)
}

/// Finds candidates, each another state, until there is no further one, or `k` are found, or a solve has logged `b` lemmas.
/// They come in the order in which they are found. Where one place is left the source is asked: what it knows is the last of `k`,
/// unless it was found before.
pub(crate) fn find<S: Source>(
    alloc: Global,
    encoding: &Encoding,
    solver: &mut Solver,
    assumptions: &Lits,
    found: &mut Vec<Cand>,
    source: &mut S,
    k: u64,
    b: u64,
) -> Result<ListEnd, NoMemory>
    requires readable { IsReadable encoding.now }
    requires may { MayTurn encoding.now solver.old assumptions.now }
    requires begun { solver.old.stage ≡ Begun }
    requires none { found.old.items ≡ [] }
    requires ready { S.ready source.old }
    requires right { KnowsRight S.knows source.old (λ cand. length cand.state ≡ length encoding.now.states) }
    requires candidates { 1 ≤ k }
    requires conflicts { 1 ≤ b }
    ensures ok { IfOk result (λ end. HasAsked S.knows source.old source.new (λ known. HasEndedSearch encoding.now assumptions.now known k b solver.old solver.new found.new.items end) k (length found.new.items) end) }
    ensures lines { Extends true solver.old.proof solver.new.proof assumptions.now }
    ensures source { KeepsSource S.stays source.old source.new }
{
    match find_most(alloc, encoding, solver, assumptions, found, k, b)? {
        Some(end) => Ok(end),
        None => fill_asking(alloc, encoding, solver, assumptions, found, source, b),
    }
}
