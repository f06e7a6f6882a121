//! Names that are asked for: which are those of no flip-flop, data input or vector of a netlist.
ghost use Rattle.std.specs.Prelude.{◌≡◌, ◌<◌, ◌^◌, ◌||◌, length, map, not, option_map, IfOk};
ghost use Rattle.std.specs.List.{find};
ghost use Rattle.bs_inspect_report.specs.Known.{first_unknown, has_named};

use crate::keys::{flop_keys, input_keys};
use bs_bits::NoMemory;
use bs_inspect_view::members;
use bs_net::Netlist;
use std::alloc::Global;

/// Whether a name is that of a bit with one of these keys, or of its vector.
#[tactic(auto, using(crate::proofs::KnownLemmas::some_named))]
fn has_named(alloc: Global, keys: &[&str], name: &str) -> Result<bool, NoMemory>
    requires { length keys.now < 2 ^ 32 }
    ensures { IfOk result (λ named. named ≡ has_named (map (λ s. s.now) keys.now) name.now) }
{
    let named = members(alloc, keys, &[name])?;
    Ok(!named.is_empty())
}

/// Whether a name is one of flip-flops with these keys, or of data inputs with those.
fn is_known(alloc: Global, flops: &[&str], inputs: &[&str], name: &str) -> Result<bool, NoMemory>
    requires flops { length flops.now < 2 ^ 32 }
    requires inputs { length inputs.now < 2 ^ 32 }
    ensures { IfOk result (λ known. known ≡ has_named (map (λ s. s.now) flops.now) name.now || has_named (map (λ s. s.now) inputs.now) name.now) }
{
    let flop = has_named(alloc, flops, name)?;
    let input = has_named(alloc, inputs, name)?;
    Ok(flop || input)
}

/// The first of these names that is none of these flip-flops and data inputs.
#[tactic(auto, using(crate::proofs::KnownLemmas::unknown_more, crate::proofs::KnownLemmas::unknown_found, crate::proofs::KnownLemmas::unknown_none))]
fn unknown_among<'a>(
    alloc: Global,
    flops: &[&str],
    inputs: &[&str],
    only: &[&'a str],
) -> Result<Option<&'a str>, NoMemory>
    requires flops { length flops.now < 2 ^ 32 }
    requires inputs { length inputs.now < 2 ^ 32 }
    ensures { IfOk result (λ name. option_map (λ s. s.now) name ≡ find (λ name. not (has_named (map (λ s. s.now) flops.now) name || has_named (map (λ s. s.now) inputs.now) name)) (map (λ s. s.now) only.now)) }
{
    'names: for &name in only {
        if !is_known(alloc, flops, inputs, name)? {
            return Ok(Some(name));
        }
    }
    Ok(None)
}

/// The first of these names that is neither the key of a flip-flop or data input of a netlist nor the name of a vector of such
/// bits, if there is one. A `\` in front of a name is passed over.
pub fn first_unknown<'a>(
    alloc: Global,
    net: &Netlist,
    only: &[&'a str],
) -> Result<Option<&'a str>, NoMemory>
    ensures { IfOk result (λ name. option_map (λ s. s.now) name ≡ first_unknown net.now.raw (map (λ s. s.now) only.now)) }
{
    let flops = flop_keys(alloc, net)?;
    let inputs = input_keys(alloc, net)?;
    let name = unknown_among(alloc, flops.as_slice(), inputs.as_slice(), only)?;
    Ok(name)
}
