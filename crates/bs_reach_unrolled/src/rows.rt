//! Clauses of the unrolled list, made from one time frame, with their ids there.
ghost use Rattle.std.specs.Prelude.{◌≡◌, ◌+◌, ◌*◌, ◌^◌, ◌<◌, ◌≤◌, ◌∷◌, [], length, IfOk};
ghost use Rattle.bs_reach_unrolled.specs.declared.limits.TheConstants.{MAX_FRAMES};
ghost use Rattle.bs_reach_unrolled.specs.Room.{IsUnrollable};
ghost use Rattle.bs_reach_unrolled.specs.Unrolled.{unrolled};
ghost use Rattle.bs_reach_unrolled.specs.declared.rows.TheConstants.{ROW_ROOM};
ghost use Rattle.bs_reach_unrolled.specs.Rows.{IsRow};

use bs_bits::Bits;
use bs_clause::{Lit, Lits, NoMemory, Var};
use bs_encode::{Encoding, raise_all};
use std::alloc::Global;

/// A time frame's clauses and flip-flops are at most so many where a row is made.
/// So no id wraps. No encoding comes near.
pub(crate) const ROW_ROOM: u64 = 1 << 30;

/// A clause of the unrolled list, and its id there.
#[derive(Drop)]
pub struct UnrolledClause {
    pub id: u64,
    pub clause: Lits,
}

/// So many times a number.
fn times(n: u32, size: u64) -> u64
    requires few { n ≤ MAX_FRAMES }
    requires small { size ≤ 2 * ROW_ROOM }
    ensures product { result ≡ n * size }
    ensures small { result ≤ MAX_FRAMES * (2 * ROW_ROOM) }
{
    u64::from(n) * size
}

/// Clause number `i` of time frame number `c`.
pub(crate) fn frame_row(
    alloc: Global,
    encoding: &Encoding,
    _reset: &Bits,
    c: u32,
    k: u32,
    i: usize,
) -> Result<UnrolledClause, NoMemory>
    requires unrollable { IsUnrollable encoding.now k }
    requires within { c < k }
    requires there { i < length encoding.now.clauses }
    requires small { length encoding.now.clauses ≤ ROW_ROOM }
    ensures { IfOk result (IsRow (unrolled encoding.now _reset.now k)) }
{
    let before = times(c, encoding.clauses().len() as u64);
    let clause = raise_all(
        alloc,
        encoding.clauses().get(i).slice(),
        c * encoding.vars(),
    )?;
    Ok(UnrolledClause {
        id: before + i as u64 + 1,
        clause,
    })
}

/// A clause of one literal.
fn unit(alloc: Global, l: Lit) -> Result<Lits, NoMemory>
    ensures { IfOk result (λ c. c ≡ l ∷ []) }
{
    let mut clause = Lits::new(alloc);
    clause.push(l)?;
    Ok(clause)
}

/// A clause of two literals.
fn pair(alloc: Global, a: Lit, b: Lit) -> Result<Lits, NoMemory>
    ensures { IfOk result (λ c. c ≡ a ∷ b ∷ []) }
{
    let mut clause = Lits::new(alloc);
    clause.push(a)?;
    clause.push(b)?;
    Ok(clause)
}

/// The unit of a flip-flop at reset.
pub(crate) fn reset_row(
    alloc: Global,
    encoding: &Encoding,
    reset: &Bits,
    k: u32,
    f: usize,
) -> Result<UnrolledClause, NoMemory>
    requires some { 1 ≤ k }
    requires unrollable { IsUnrollable encoding.now k }
    requires there { f < length encoding.now.states }
    requires width { length encoding.now.states ≡ length reset.now }
    requires small { length encoding.now.clauses ≤ ROW_ROOM }
    requires narrow { length encoding.now.states ≤ ROW_ROOM }
    ensures { IfOk result (IsRow (unrolled encoding.now reset.now k)) }
{
    let before = times(k, encoding.clauses().len() as u64);
    let state = encoding.state_lit(f).var();
    let clause = unit(alloc, Lit::new(state, reset.get(f)))?;
    Ok(UnrolledClause {
        id: before + f as u64 + 1,
        clause,
    })
}

/// The variable that is so much higher.
fn above(by: u32, v: Var) -> Var
    requires { by + v.0 < 2 ^ 30 }
    ensures { result.0 ≡ by + v.0 }
{
    Var(by + v.0)
}

/// The link by which a flip-flop of time frame number `c + 1` has the value that time frame number `c` leads to.
pub(crate) fn link_row(
    alloc: Global,
    encoding: &Encoding,
    _reset: &Bits,
    c: u32,
    k: u32,
    f: usize,
    positive: bool,
) -> Result<UnrolledClause, NoMemory>
    requires unrollable { IsUnrollable encoding.now k }
    requires within { c + 1 < k }
    requires there { f < length encoding.now.states }
    requires width { length encoding.now.states ≡ length _reset.now }
    requires small { length encoding.now.clauses ≤ ROW_ROOM }
    requires narrow { length encoding.now.states ≤ ROW_ROOM }
    ensures { IfOk result (IsRow (unrolled encoding.now _reset.now k)) }
{
    let flops = encoding.states().len() as u64;
    let before = times(k, encoding.clauses().len() as u64) + flops + times(c, 2 * flops);
    let next = above(c * encoding.vars(), encoding.next_lit(f).var());
    let state = above((c + 1) * encoding.vars(), encoding.state_lit(f).var());
    let clause = pair(alloc, Lit::new(next, !positive), Lit::new(state, positive))?;
    let second = if positive { 0 } else { 1 };
    Ok(UnrolledClause {
        id: before + 2 * f as u64 + second + 1,
        clause,
    })
}
