//! The keys of a netlist's flip-flops.
ghost use Rattle.std.specs.Prelude.{◌≡◌, ◌<◌, ◌^◌, [], length, map, slice_index_or, IfOk};
ghost use Rattle.bs_net.specs.Netlist.{parts_of};
ghost use Rattle.bs_inspect_signature.specs.Proposal.{flop_keys};

use bs_bits::NoMemory;
use bs_net::{Netlist, Raw};
use std::alloc::Global;

/// The keys of the flip-flops of a netlist's parts.
#[tactic(auto, using(crate::proofs::KeyLemmas::key_more))]
fn keys_of<'a>(alloc: Global, raw: &'a Raw) -> Result<Vec<&'a str>, NoMemory>
    ensures { IfOk result (λ keys. map (λ s. s.now) keys.items ≡ flop_keys (parts_of raw.now)) }
{
    let mut keys = Vec::new(alloc);
    'flops: for i in 0..raw.flops.len() {
        keys.push(raw.names.key(raw.flops.get(i).q))?;
    }
    Ok(keys)
}

/// The keys of the flip-flops, in the order of a state's bits.
#[tactic(auto, using(crate::proofs::KeyLemmas::keys_count))]
pub(crate) fn flop_keys<'a>(alloc: Global, net: &'a Netlist) -> Result<Vec<&'a str>, NoMemory>
    ensures are { IfOk result (λ keys. map (λ s. s.now) keys.items ≡ flop_keys net.now.raw) }
    ensures count { IfOk result (λ keys. length keys.items ≡ length net.now.raw.flops) }
    ensures few { IfOk result (λ keys. length keys.items < 2 ^ 20) }
{
    let keys = keys_of(alloc, net.raw())?;
    Ok(keys)
}
