//! Literals with the signs of bits.
ghost use Rattle.std.specs.Prelude.{◌≡◌, ◌++◌, not, length, map, OnOk};
ghost use Rattle.bs_scan.specs.Seen.{kept_one};
ghost use Rattle.bs_encode.specs.Tables.{lit};
ghost use Rattle.bs_encode.specs.Assuming.{signed, signed_seen};

use bs_bits::Bits;
use bs_clause::{Lit, Lits, NoMemory};
use bs_scan::Seen;

/// Puts the literals at the end.
pub(crate) fn push_all(into: &mut Lits, literals: &[Lit]) -> Result<(), NoMemory>
    ensures { OnOk result (into.new ≡ into.old ++ literals.now) }
{
    'literals: for l in literals {
        into.push(*l)?;
    }
    Ok(())
}

/// Puts each literal's variable with the sign of its bit at the end.
pub fn push_signed(into: &mut Lits, literals: &[Lit], bits: &Bits) -> Result<(), NoMemory>
    requires { length literals.now ≡ length bits.now }
    ensures { OnOk result (into.new ≡ into.old ++ signed literals.now bits.now) }
{
    for i in 0..literals.len() {
        into.push(Lit::new(literals[i].var(), bits.get(i)))?;
    }
    Ok(())
}

/// Puts a literal's variable with the sign of its bit at the end, unless the bit is not known.
fn push_known(into: &mut Lits, literal: Lit, bit: bool, free: bool) -> Result<(), NoMemory>
    ensures { OnOk result (into.new ≡ into.old ++ kept_one free (lit literal.variable bit)) }
{
    if free {
        return Ok(());
    }
    into.push(Lit::new(literal.var(), bit))
}

/// Puts each literal's variable with the sign of its bit at the end, where the bit is known.
fn push_partial(into: &mut Lits, literals: &[Lit], seen: &Seen) -> Result<(), NoMemory>
    requires { length literals.now ≡ length seen.now.bits }
    ensures { OnOk result (into.new ≡ into.old ++ signed_seen literals.now seen.now) }
{
    for i in 0..literals.len() {
        push_known(into, literals[i], seen.bits.get(i), seen.is_free(i))?;
    }
    Ok(())
}

/// Puts each literal's variable with the sign of its bit at the end, where the bit is known.
#[tactic(auto, using(crate::proofs::SignLemmas::signed_whole))]
pub fn push_seen(into: &mut Lits, literals: &[Lit], seen: &Seen) -> Result<(), NoMemory>
    requires { length literals.now ≡ length seen.now.bits }
    ensures { OnOk result (into.new ≡ into.old ++ signed_seen literals.now seen.now) }
{
    if seen.is_whole() {
        return push_signed(into, literals, &seen.bits);
    }
    push_partial(into, literals, seen)
}

/// Puts each literal's variable with the sign that its bit makes false at the end.
pub(crate) fn push_denied(into: &mut Lits, literals: &[Lit], bits: &Bits) -> Result<(), NoMemory>
    requires { length literals.now ≡ length bits.now }
    ensures { OnOk result (into.new ≡ into.old ++ signed literals.now (map not bits.now)) }
{
    for i in 0..literals.len() {
        into.push(Lit::new(literals[i].var(), !bits.get(i)))?;
    }
    Ok(())
}
