//! Reverse unit propagation along the hints of a lemma.
ghost use Rattle.std.specs.Prelude.{◌≡◌, IfOk, IsTrue};
ghost use Rattle.bs_log.specs.Propagation.{is_false, unit_literal};
ghost use Rattle.bs_log.specs.Refusal.{clauses_of};
ghost use Rattle.bs_rup.specs.LiveClauses.{live_from};
ghost use Rattle.bs_rup.specs.Rules.{all_stand, hints_refusal};

use crate::live_clauses::{Stored, lits_at};
use crate::trail::TrueLiterals;
use bs_bits::NoMemory;
use bs_clause::Lit;
use bs_log::Why;

/// The literal that a unit clause makes true: it is unassigned, and all others are false.
fn unit_literal(trail: &TrueLiterals, clause: &[Lit]) -> Option<Lit>
    ensures { result ≡ unit_literal trail.now clause.now }
{
    let mut found = None;
    for l in clause {
        if !trail.is_false(*l) {
            if found.is_some() {
                return None;
            }
            found = Some(*l);
        }
    }
    let l = found?;
    if trail.is_true(l) { None } else { Some(l) }
}

/// Whether all literals of the clause are false.
pub fn is_false(trail: &TrueLiterals, clause: &[Lit]) -> bool
    ensures { result ≡ is_false trail.now clause.now }
{
    for literal in clause {
        if !trail.is_false(*literal) {
            return false;
        }
    }
    true
}

/// What is wrong with the hints of a lemma, if anything. The trail has the negations of the lemma's literals, and then
/// also what the hints make true.
pub fn hints_fault<'a>(
    trail: &mut TrueLiterals,
    stored: &[Stored<'a>],
    hints: &[u64],
) -> Result<Option<Why>, NoMemory>
    requires { IsTrue (all_stand (live_from 1 stored.now) hints.now) }
    ensures { IfOk result (λ why. why ≡ hints_refusal trail.old (clauses_of (live_from 1 stored.now) hints.now)) }
{
    let count = hints.len();
    if count == 0 {
        return Ok(Some(Why::NotFalse));
    }
    for i in 0..count - 1 {
        match unit_literal(trail, lits_at(stored, hints[i])) {
            None => return Ok(Some(Why::NotUnit)),
            Some(l) => trail.set(l)?,
        }
    }
    if is_false(trail, lits_at(stored, hints[count - 1])) {
        Ok(None)
    } else {
        Ok(Some(Why::NotFalse))
    }
}
