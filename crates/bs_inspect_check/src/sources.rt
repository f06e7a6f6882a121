//! Which flip-flops a VCD has.
ghost use Rattle.std.specs.Prelude.{◌≡◌, map, IfOk};
ghost use Rattle.bs_vcd.specs.Found.{is_found};

use bs_bits::{Bits, NoMemory};
use bs_vcd::is_found;
use bs_vcd_header::BitSource;
use std::alloc::Global;

/// Which flip-flops are there.
#[tactic(auto, using(crate::proofs::SourceLemmas::found_more))]
pub(crate) fn found_bits(alloc: Global, sources: &[Option<BitSource>]) -> Result<Bits, NoMemory>
    ensures { IfOk result (λ bits. bits ≡ map is_found sources.now) }
{
    let mut bits = Bits::new(alloc);
    'sources: for source in sources {
        bits.push(is_found(*source))?;
    }
    Ok(bits)
}
