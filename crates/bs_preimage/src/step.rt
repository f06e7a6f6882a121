//! A step of the log: the list of candidates for one present state.
ghost use Rattle.std.specs.Prelude.{◌≡◌, ◌≤◌, ◌<◌, [], true, length, IfOk, None, option_map};
ghost use Rattle.bs_net.specs.Netlist.{circuit};
ghost use Rattle.bs_scan.specs.Choice.{depth_of};
ghost use Rattle.bs_encode.specs.Assuming.{AreWide};
ghost use Rattle.bs_encode.specs.declared.encoding.TheConstants.{MAX_ACTIVATIONS};
ghost use Rattle.bs_preimage.specs.Asking.{HasAsked, KeepsSource, KnowsRight};
ghost use Rattle.bs_preimage.specs.Listed.{IsRightCand};
ghost use Rattle.bs_preimage.specs.Rest.{IsAbout, IsAtRest};
ghost use Rattle.bs_preimage.specs.Turn.{IsReadable, Extends};
ghost use Rattle.bs_preimage.specs.Step.{ending_of, assumptions_at, HasSought, HasMadeStep};

use crate::enumeration::find;
use crate::listing::Listing;
use crate::order::ascending;
use crate::source::Source;
use bs_bits::Bits;
use bs_clause::NoMemory;
use bs_encode::{Encoding, encodings_are_tidy, predecessors_are_shown, solutions_are_predecessors};
use bs_net::Netlist;
use bs_report::{Cand, ListEnd};
use bs_scan::{Choice, Seen};
use bs_solve::Solver;
use std::alloc::Global;

/// What is asked: which states that agree with the stored signature and the older one lead to the present one, at most `k`
/// of them, with at most `b` lemmas in a solve.
#[derive(Clone, Copy)]
pub(crate) struct Question<'a> {
    pub(crate) present: &'a Seen,
    pub(crate) stored: &'a Bits,
    pub(crate) older: Option<&'a Bits>,
    pub(crate) k: u64,
    pub(crate) b: u64,
}

/// The lemma that ends a list's step, if there is one.
fn ending(end: ListEnd) -> Option<u64>
    ensures { result ≡ ending_of end }
{
    match end {
        ListEnd::Finished(id) => Some(id),
        ListEnd::Candidates => None,
        ListEnd::Conflicts => None,
    }
}

/// Makes a step of the log, and finds the candidates of the question. A source may be asked.
fn seek<S: Source>(
    alloc: Global,
    encoding: &Encoding,
    solver: &mut Solver,
    asked: &Question<'_>,
    source: &mut S,
    found: &mut Vec<Cand>,
) -> Result<ListEnd, NoMemory>
    requires readable { IsReadable encoding.now }
    requires vars { solver.old.proof.problem.vars ≡ encoding.now.variables }
    requires clauses { solver.old.proof.problem.clauses ≡ encoding.now.clauses }
    requires rest { IsAtRest solver.old }
    requires few { length solver.old.proof.problem.steps < MAX_ACTIVATIONS }
    requires state { length asked.now.present.now.bits ≡ length encoding.now.next }
    requires signature { length asked.now.stored.now ≡ length encoding.now.signatures }
    requires older { AreWide (length encoding.now.older_signatures) (option_map (λ bits. bits.now) asked.now.older) }
    requires ready { S.ready source.old }
    requires right { KnowsRight S.knows source.old (λ cand. length cand.state ≡ length encoding.now.states) }
    requires candidates { 1 ≤ asked.now.k }
    requires conflicts { 1 ≤ asked.now.b }
    requires none { found.old.items ≡ [] }
    ensures ok { IfOk result (λ end. HasAsked S.knows source.old source.new (λ known. HasSought encoding.now solver.old solver.new asked.now.present.now asked.now.stored.now (option_map (λ bits. bits.now) asked.now.older) known asked.now.k asked.now.b found.new.items end) asked.now.k (length found.new.items) end) }
    ensures lines { Extends true solver.old.proof solver.new.proof (assumptions_at encoding.now solver.old.proof asked.now.present.now asked.now.stored.now (option_map (λ bits. bits.now) asked.now.older)) }
    ensures source { KeepsSource S.stays source.old source.new }
{
    let activation = solver.begin_step()?;
    let assumptions = encoding.assumptions(
        alloc,
        activation,
        asked.present,
        asked.stored,
        asked.older,
    )?;
    let end = find(
        alloc,
        encoding,
        solver,
        &assumptions,
        found,
        source,
        asked.k,
        asked.b,
    )?;
    solver.end_step(alloc, ending(end))?;
    Ok(end)
}

/// The list that answers a question, as a step of the log, where a source may be asked.
pub(crate) fn list_step<S: Source>(
    alloc: Global,
    net: &Netlist,
    choice: &Choice,
    encoding: &Encoding,
    solver: &mut Solver,
    asked: &Question<'_>,
    source: &mut S,
) -> Result<Listing, NoMemory>
    requires about { IsAbout (circuit net.now) choice.now encoding.now solver.old.proof }
    requires rest { IsAtRest solver.old }
    requires few { length solver.old.proof.problem.steps < MAX_ACTIVATIONS }
    requires state { length asked.now.present.now.bits ≡ length (circuit net.now).flops }
    requires signature { length asked.now.stored.now ≡ length choice.now.items }
    requires older { AreWide (length choice.now.items) (option_map (λ bits. bits.now) asked.now.older) }
    requires alone { depth_of choice.now ≡ 1 → option_map (λ bits. bits.now) asked.now.older ≡ None }
    requires ready { S.ready source.old }
    requires right { KnowsRight S.knows source.old (IsRightCand (circuit net.now) choice.now asked.now.present.now asked.now.stored.now (option_map (λ bits. bits.now) asked.now.older)) }
    requires candidates { 1 ≤ asked.now.k }
    requires conflicts { 1 ≤ asked.now.b }
    ensures ok { IfOk result (λ listing. HasAsked S.knows source.old source.new (λ known. HasMadeStep (circuit net.now) choice.now solver.old solver.new asked.now.present.now asked.now.stored.now (option_map (λ bits. bits.now) asked.now.older) known asked.now.k asked.now.b listing) asked.now.k (length listing.cands) listing.end) }
    ensures lines { Extends true solver.old.proof solver.new.proof (assumptions_at encoding.now solver.old.proof asked.now.present.now asked.now.stored.now (option_map (λ bits. bits.now) asked.now.older)) }
    ensures source { KeepsSource S.stays source.old source.new }
{
    encodings_are_tidy(net, choice);
    predecessors_are_shown(net, choice);
    solutions_are_predecessors(net, choice);
    let _items = choice.items();
    let mut found = Vec::new(alloc);
    let end = seek(alloc, encoding, solver, asked, source, &mut found)?;
    let _log = solver.log();
    let cands = ascending(alloc, found)?;
    Ok(Listing { cands, end })
}
