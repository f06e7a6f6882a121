//! The candidates in ascending order of their states.
ghost use Rattle.std.specs.Prelude.{◌≡◌, IfOk};
ghost use Rattle.bs_preimage.specs.Order.{IsInOrder};

use bs_bits::{List, NoMemory};
use bs_report::Cand;
use std::alloc::Global;

/// The candidates as a list.
fn listed(alloc: Global, found: Vec<Cand>) -> Result<List<Cand>, NoMemory>
    ensures { IfOk result (λ cands. cands ≡ found.items) }
{
    let mut cands = List::new(alloc);
    'cands: for cand in found {
        cands.push(cand)?;
    }
    Ok(cands)
}

/// The candidates in ascending order.
pub(crate) fn ascending(alloc: Global, found: Vec<Cand>) -> Result<List<Cand>, NoMemory>
    ensures { IfOk result (IsInOrder found.items) }
{
    let mut cands = found;
    cands.sort_by(|a, b| a.state.order(&b.state))?;
    listed(alloc, cands)
}
