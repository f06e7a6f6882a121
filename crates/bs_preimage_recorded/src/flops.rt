//! Flip-flops that no data input moves once one data input has a value.
ghost use Rattle.std.specs.Prelude.{◌≡◌, length, map, All, IfOk};
ghost use Rattle.bs_net.specs.Netlist.{circuit};
ghost use Rattle.bs_net.specs.Parts.{IsFlopPlaced};
ghost use Rattle.bs_preimage_recorded.specs.Independent.{IsIndependent};
ghost use Rattle.bs_sim.specs.Marks.{flop_mark, is_known};

use crate::nets::marks_of;
use bs_bits::{Bits, NoMemory};
use bs_net::{Flop, Netlist};
use bs_sim::{Mark, flop_mark, is_known};
use std::alloc::Global;

/// Whether each flip-flop's next bit is known to be the same.
fn known_flops(alloc: Global, marks: &[Mark], flops: &[Flop]) -> Result<Bits, NoMemory>
    requires { All (IsFlopPlaced (length marks.now)) flops.now }
    ensures { IfOk result (λ flags. flags ≡ map (λ f. is_known (flop_mark marks.now f)) flops.now) }
{
    let mut flags = Bits::new(alloc);
    'flops: for &flop in flops {
        flags.push(is_known(flop_mark(marks, flop)))?;
    }
    Ok(flags)
}

/// A flag for each flip-flop: those whose next bits no other data input moves, once this one (counted from 0) has a value.
/// Where there is no such data input: those that no data input moves. It takes time linear in the nets and in the gates'
/// inputs.
pub fn independent_flops(
    alloc: Global,
    net: &Netlist,
    input: usize,
    value: bool,
) -> Result<Bits, NoMemory>
    ensures { IfOk result (λ flags. IsIndependent (circuit net.now) input value flags) }
{
    let marks = marks_of(alloc, net, input, value)?;
    let raw = net.raw();
    let flags = known_flops(alloc, marks.as_slice(), raw.flops.slice())?;
    Ok(flags)
}
