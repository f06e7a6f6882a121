//! What the step of each length assumes.
ghost use Rattle.std.specs.Prelude.{◌≡◌, ◌+◌, ◌<◌, ◌≤◌, ◌^◌, true, length, map, IfOk};
ghost use Rattle.std.specs.List.{range_with_len};
ghost use Rattle.bs_encode.specs.Tables.{lit};
ghost use Rattle.bs_reach_unrolled.specs.Room.{IsUnrollable};
ghost use Rattle.bs_reach_unrolled.specs.Unrolled.{length_assumes};

use bs_bits::{List, NoMemory};
use bs_clause::{Lit, Lits, Var};
use bs_encode::Encoding;
use bs_reach_unrolled::assume_length;
use bs_scan::Seen;
use std::alloc::Global;

/// The activation literal of a step, counted from 0, above so many variables.
fn activation_of(vars: u32, c: u32) -> Lit
    requires { vars + (c + 1) < 2 ^ 30 }
    ensures { result ≡ lit (vars + (c + 1)) true }
{
    Lit::new(Var(vars + (c + 1)), true)
}

/// What the step of the length `c + 1` assumes.
#[tactic(auto, using(crate::proofs::LengthLemmas::is_assumed))]
fn assumed(
    alloc: Global,
    encoding: &Encoding,
    state: &Seen,
    k: u32,
    c: u32,
) -> Result<Lits, NoMemory>
    requires unrollable { IsUnrollable encoding.now k }
    requires within { c < k }
    requires width { length encoding.now.next ≡ length state.now.bits }
    ensures { IfOk result (λ l. l ≡ length_assumes encoding.now k state.now (c + 1)) }
{
    let activation = activation_of(k * encoding.vars(), c);
    let all = assume_length(alloc, encoding, activation, state, c, k)?;
    Ok(all)
}

/// What the step of each length from 1 on assumes, over so many time frames.
pub fn assumptions(
    alloc: Global,
    encoding: &Encoding,
    state: &Seen,
    k: u32,
    count: u32,
) -> Result<List<Lits>, NoMemory>
    requires unrollable { IsUnrollable encoding.now k }
    requires within { count ≤ k }
    requires width { length encoding.now.next ≡ length state.now.bits }
    ensures { IfOk result (λ l. l ≡ map (length_assumes encoding.now k state.now) (range_with_len 1 count)) }
{
    let mut all = List::new(alloc);
    'lengths: for c in 0..count {
        all.push(assumed(alloc, encoding, state, k, c)?)?;
    }
    Ok(all)
}
