//! The numbers of the nets that a name stands for.
ghost use Rattle.std.specs.Prelude.{◌≡◌, ◌<◌, ◌≤◌, ◌++◌, [], ◌∷◌, length, Ok, Some};
ghost use Rattle.bs_verilog_scope.specs.Keys as keys_spec;
ghost use Rattle.bs_verilog_scope.specs.Nets as spec;
ghost use Rattle.bs_bits.specs.Reading.{Answers};
ghost use Rattle.bs_verilog_syntax.specs.declared.fault.VerilogFault.TheVariants.{NoMemory as want};

use crate::keys::{bit_key, index_at, scalar_key, width};
use bs_net::{Names, NetId};
use bs_verilog_syntax::{Range, VerilogFault};
use std::alloc::Global;

/// The net of a key that is there.
pub fn net_of(names: &Names, key: &str) -> NetId
    ensures { result ≡ spec.net_of names.now key.now }
{
    names.number(key).unwrap_or(NetId(0))
}

/// The nets of a vector's bits, from the left bound to the right.
fn bit_nets(
    alloc: Global,
    names: &Names,
    name: &str,
    range: Range,
) -> Result<Vec<NetId>, VerilogFault>
    ensures { Answers want (λ v. v.items) result (Ok (spec.nets_of names.now (keys_spec.keys name.now (Some range)))) }
{
    let mut nets = Vec::new(alloc);
    let count = width(range);
    'bits: for bit in 0..count {
        let key = bit_key(alloc, name, index_at(range, bit))?;
        nets.push(net_of(names, &key))?;
    }
    Ok(nets)
}

fn scalar_net(alloc: Global, names: &Names, name: &str) -> Result<NetId, VerilogFault>
    ensures { Answers want (λ n. n) result (Ok (spec.net_of names.now (keys_spec.scalar_key name.now))) }
{
    let key = scalar_key(alloc, name)?;
    Ok(net_of(names, &key))
}

fn one_net(alloc: Global, net: NetId) -> Result<Vec<NetId>, VerilogFault>
    ensures { Answers want (λ v. v.items) result (Ok (net ∷ [])) }
{
    let mut nets = Vec::new(alloc);
    nets.push(net)?;
    Ok(nets)
}

/// The nets of a declared name.
#[tactic(auto, unfolding(crate::specs::Keys::keys))]
pub fn nets_of(
    alloc: Global,
    names: &Names,
    name: &str,
    range: Option<Range>,
) -> Result<Vec<NetId>, VerilogFault>
    ensures { Answers want (λ v. v.items) result (Ok (spec.nets_of names.now (keys_spec.keys name.now range))) }
{
    match range {
        None => {
            let net = scalar_net(alloc, names, name)?;
            one_net(alloc, net)
        }
        Some(r) => bit_nets(alloc, names, name, r),
    }
}
