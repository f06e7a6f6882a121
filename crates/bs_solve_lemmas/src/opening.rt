//! The lines with which a solve begins and a step ends.
ghost use Rattle.std.specs.Prelude.{◌≡◌, ◌∷◌, true, IfOk, IfSome, OnOk, OnErr};
ghost use Rattle.bs_solve_lemmas.specs.ProofLog.{standing};
ghost use Rattle.bs_solve_lemmas.specs.Stages.{MayBegin, EndsStep, begun_proof};
ghost use Rattle.bs_solve_lemmas.specs.Solver.{Follows, finished};

use crate::recording::Recording;
use bs_clause::{Lit, Lits, NoMemory};
use std::alloc::Global;

/// The line of the lemma that ends a step, if there is one.
pub fn finish(proof: &mut Recording, end: Option<u64>) -> Result<(), NoMemory>
    requires { IfSome end (EndsStep proof.old) }
    ensures ok { OnOk result (proof.new ≡ finished proof.old end) }
    ensures err { OnErr result (proof.new ≡ proof.old) }
{
    match end {
        Some(id) => proof.log_finish(id),
        None => Ok(()),
    }
}

/// A literal before others.
pub fn guarded(alloc: Global, first: Lit, rest: &[Lit]) -> Result<Lits, NoMemory>
    ensures { IfOk result (λ clause. clause ≡ first ∷ rest.now) }
{
    let mut clause = Lits::new(alloc);
    clause.push(first)?;
    for literal in rest {
        clause.push(*literal)?;
    }
    Ok(clause)
}

/// The line of a solve, after the assumptions of a step that begins.
pub fn begin_solve(
    alloc: Global,
    proof: &mut Recording,
    first: bool,
    assumptions: &Lits,
) -> Result<(), NoMemory>
    requires stage { MayBegin proof.old first }
    ensures ok { OnOk result (proof.new ≡ begun_proof first proof.old assumptions.now) }
    ensures stands { OnOk result (standing proof.new ≡ standing proof.old) }
    ensures lines { Follows first proof.old proof.new assumptions.now }
{
    if first {
        return begin_first(alloc, proof, assumptions);
    }
    proof.log_solve()
}

// The assumptions of a step, and the line of its first solve.
fn begin_first(alloc: Global, proof: &mut Recording, assumptions: &Lits) -> Result<(), NoMemory>
    requires stage { MayBegin proof.old true }
    ensures ok { OnOk result (proof.new ≡ begun_proof true proof.old assumptions.now) }
    ensures stands { OnOk result (standing proof.new ≡ standing proof.old) }
    ensures lines { Follows true proof.old proof.new assumptions.now }
{
    let member = Lits::copy(alloc, assumptions.slice())?;
    proof.add_step(member)?;
    proof.log_solve()
}
