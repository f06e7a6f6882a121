//! The data input of which most flip-flops become independent.
ghost use Rattle.std.specs.Prelude.{◌≡◌, ◌<◌, ◌≤◌, ◌*◌, length, true, count_by, IfOk, MatchOption};
ghost use Rattle.bs_net.specs.Gate.{is_one};
ghost use Rattle.bs_net.specs.Netlist.{circuit};
ghost use Rattle.bs_preimage_recorded.specs.Independent.{IsSplit};

use crate::flops::independent_flops;
use bs_bits::{Bits, NoMemory};
use bs_net::Netlist;
use std::alloc::Global;

/// How many data inputs are tried.
/// Each takes two passes over the gates.
pub const MAX_TRIED: usize = 64;

/// A data input, counted from 0, and flags of flip-flops that no other data input moves where it is 0, and where it is 1.
#[derive(Drop)]
pub struct Split {
    pub input: u32,
    pub low: Bits,
    pub high: Bits,
}

/// How many bits are 1.
fn ones(bits: &Bits) -> usize
    ensures { result ≡ count_by is_one bits.now }
{
    let mut count = 0;
    'bits: for i in 0..bits.len() {
        if bits.get(i) {
            count += 1;
        }
    }
    count
}

/// The flip-flops that become independent by a data input.
fn split_by(alloc: Global, net: &Netlist, input: u32) -> Result<Split, NoMemory>
    requires { input < length (circuit net.now).inputs }
    ensures split { IfOk result (λ split. IsSplit (circuit net.now) split) }
    ensures input { IfOk result (λ split. split.input ≡ input) }
{
    let low = independent_flops(alloc, net, input as usize, false)?;
    let high = independent_flops(alloc, net, input as usize, true)?;
    Ok(Split { input, low, high })
}

/// How many flip-flops a data input frees where it is 0, and how many where it is 1, both together.
fn independent_by(alloc: Global, net: &Netlist, input: u32) -> Result<usize, NoMemory>
    requires { input < length (circuit net.now).inputs }
    ensures { IfOk result (λ independent_count. independent_count ≤ 2 * length (circuit net.now).flops) }
{
    let split = split_by(alloc, net, input)?;
    Ok(ones(&split.low) + ones(&split.high))
}

/// Of the first data inputs, so many, the first that frees most.
fn best_input(alloc: Global, net: &Netlist, tried: u32) -> Result<u32, NoMemory>
    requires some { 0 < tried }
    requires there { tried ≤ length (circuit net.now).inputs }
    ensures { IfOk result (λ input. input < tried) }
{
    let mut best = 0;
    let mut most = 0;
    'inputs: for input in 0..tried {
        let independent_count = independent_by(alloc, net, input)?;
        if independent_count > most {
            best = input;
            most = independent_count;
        }
    }
    Ok(best)
}

/// The data input of which most flip-flops become independent where it is 0 and where it is 1, both together: the first such one among the
/// first `MAX_TRIED`. None where there is no data input.
pub fn split_of(alloc: Global, net: &Netlist) -> Result<Option<Split>, NoMemory>
    ensures { IfOk result (λ found. MatchOption found (length (circuit net.now).inputs ≡ 0) (IsSplit (circuit net.now))) }
{
    let tried = net.data_inputs().len().min(MAX_TRIED) as u32;
    if tried == 0 {
        return Ok(None);
    }
    let best = best_input(alloc, net, tried)?;
    let split = split_by(alloc, net, best)?;
    Ok(Some(split))
}
