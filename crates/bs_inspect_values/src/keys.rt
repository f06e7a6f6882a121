//! The keys of a netlist's flip-flops and data inputs, as bytes.
ghost use Rattle.std.specs.Prelude.{◌≡◌, ◌++◌, map, option_map, IfOk, OnOk};
ghost use Rattle.bs_inspect_values.specs.Saying.{all_keys};
ghost use Rattle.bs_inspect_report.specs.Keys.{flop_keys, input_keys};

use bs_bits::NoMemory;
use bs_inspect_report::{flop_keys, input_keys};
use bs_net::Netlist;
use std::alloc::Global;

/// Puts the bytes of texts at the end.
#[tactic(auto, using(crate::proofs::KeyLemmas::bytes_none, crate::proofs::KeyLemmas::bytes_more, crate::proofs::KeyLemmas::bytes_end))]
fn push_bytes<'a>(into: &mut Vec<&'a [u8]>, texts: &[&'a str]) -> Result<(), NoMemory>
    ensures { OnOk result (map (λ s. s.now) into.new.items ≡ map (λ s. s.now) into.old.items ++ map (λ s. s.now) texts.now) }
{
    'texts: for &text in texts {
        into.push(text.as_bytes())?;
    }
    Ok(())
}

/// The keys of the data inputs.
pub fn input_bytes<'a>(alloc: Global, net: &'a Netlist) -> Result<Vec<&'a [u8]>, NoMemory>
    ensures { IfOk result (λ keys. map (λ s. s.now) keys.items ≡ input_keys net.now.raw) }
{
    let keys = input_keys(alloc, net)?;
    let all = keys.as_slice();
    let mut bytes = Vec::new(alloc);
    push_bytes(&mut bytes, all)?;
    Ok(bytes)
}

/// The keys of the flip-flops.
pub fn flop_bytes<'a>(alloc: Global, net: &'a Netlist) -> Result<Vec<&'a [u8]>, NoMemory>
    ensures { IfOk result (λ keys. map (λ s. s.now) keys.items ≡ flop_keys net.now.raw) }
{
    let keys = flop_keys(alloc, net)?;
    let all = keys.as_slice();
    let mut bytes = Vec::new(alloc);
    push_bytes(&mut bytes, all)?;
    Ok(bytes)
}

/// The keys of the flip-flops, and then those of the data inputs.
pub fn all_bytes<'a>(alloc: Global, net: &'a Netlist) -> Result<Vec<&'a [u8]>, NoMemory>
    ensures { IfOk result (λ keys. map (λ s. s.now) keys.items ≡ all_keys net.now.raw) }
{
    let flops = flop_keys(alloc, net)?;
    let first = flops.as_slice();
    let mut bytes = Vec::new(alloc);
    push_bytes(&mut bytes, first)?;
    push_inputs(alloc, &mut bytes, net)?;
    Ok(bytes)
}

/// Puts the keys of the data inputs at the end.
fn push_inputs<'a>(
    alloc: Global,
    into: &mut Vec<&'a [u8]>,
    net: &'a Netlist,
) -> Result<(), NoMemory>
    ensures { OnOk result (map (λ s. s.now) into.new.items ≡ map (λ s. s.now) into.old.items ++ input_keys net.now.raw) }
{
    let keys = input_keys(alloc, net)?;
    let all = keys.as_slice();
    push_bytes(into, all)?;
    Ok(())
}

/// The bytes of a text, where there is one.
pub fn maybe_bytes(text: Option<&str>) -> Option<&[u8]>
    ensures { option_map (λ s. s.now) result ≡ option_map (λ s. s.now) text.entry }
{
    match text {
        Some(text) => Some(text.as_bytes()),
        None => None,
    }
}
