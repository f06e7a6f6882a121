//! What the keys of flip-flops say, and the flip-flop that alone has a name as RTL writes it.
ghost use Rattle.std.specs.Prelude.{◌≡◌, ◌<◌, length, map, count_by, IfOk, IfSome};
ghost use Rattle.std.specs.List.{position};
ghost use Rattle.bs_net.specs.Netlist.{parts_of};
ghost use Rattle.bs_net.specs.Parts.{key_at};
ghost use Rattle.bs_net_names.specs.Keys.{parts_in};
ghost use Rattle.bs_net_names.specs.Rtl.{same_name};
ghost use Rattle.bs_scan.specs.ChoiceText.{flop_called, flop_parts, only_place};

use bs_bits::NoMemory;
use bs_net::{NetId, Raw};
use bs_net_names::{KeyParts, key_parts, same_name};
use std::alloc::Global;

/// The key of a net.
#[tactic(auto, using(crate::proofs::KeyLemmas::key_is))]
fn key_of(raw: &Raw, net: u32) -> &[u8]
    requires { net < length raw.now.names }
    ensures { result.now ≡ key_at (parts_of raw.now) net }
{
    raw.names.key(NetId(net)).as_bytes()
}

/// What the key of each flip-flop says.
#[tactic(auto, using(crate::proofs::KeyLemmas::parts_more))]
pub fn flop_parts<'a>(alloc: Global, raw: &'a Raw) -> Result<Vec<KeyParts<'a>>, NoMemory>
    ensures { IfOk result (λ keys. map parts_in keys.items ≡ flop_parts (parts_of raw.now)) }
{
    let mut keys = Vec::new(alloc);
    'flops: for i in 0..raw.flops.len() {
        keys.push(key_parts(key_of(raw, raw.flops.get(i).q.0)))?;
    }
    Ok(keys)
}

/// How many of these keys are one name with another.
fn count_called(keys: &[KeyParts<'_>], name: KeyParts<'_>) -> usize
    ensures { result ≡ count_by (λ key. same_name (parts_in key) (parts_in name.entry)) keys.now }
{
    keys.iter().filter(|key| same_name(**key, name)).count()
}

/// The first of these keys that is one name with another.
fn place_of(keys: &[KeyParts<'_>], name: KeyParts<'_>) -> Option<usize>
    ensures { result ≡ position (λ key. same_name (parts_in key) (parts_in name.entry)) keys.now }
{
    keys.iter().position(|key| same_name(*key, name))
}

/// The only one of these keys that is one name with another.
fn only_called(keys: &[KeyParts<'_>], name: KeyParts<'_>) -> Option<usize>
    ensures { result ≡ only_place (λ key. same_name (parts_in key) (parts_in name.entry)) keys.now }
{
    let count = count_called(keys, name);
    if count == 1 {
        place_of(keys, name)
    } else {
        None
    }
}

/// The flip-flop whose key, out of what all of them say, alone is a name as RTL writes it.
pub(crate) fn flop_called(keys: &[KeyParts<'_>], name: &[u8]) -> Option<usize>
    ensures is { result ≡ flop_called (map parts_in keys.now) name.now }
    ensures within { IfSome result (λ flop. flop < length keys.now) }
{
    only_called(keys, key_parts(name))
}
