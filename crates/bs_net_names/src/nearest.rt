//! How far two names are apart, and the flip-flops whose keys are nearest to a name.
ghost use Rattle.std.specs.Prelude.{◌≡◌, ◌≤◌, ◌<◌, ◌+◌, ◌++◌, length, reverse, IfOk, OnOk};
ghost use Rattle.std.specs.Bool.{MatchBool};
ghost use Rattle.bs_net.specs.Netlist.{parts_of};
ghost use Rattle.bs_net_names.specs.Rtl.{rtl_name};
ghost use Rattle.bs_net_names.specs.Ranges.{range_text};
ghost use Rattle.bs_net_names.specs.Nearest.{apart, AreNearest, AreNearestBelow, common, flop_apart, IsFirstNearest, IsLeast, IsNearest, key_at, net_key};

use crate::key::key_parts;
use crate::naming::plain;
use crate::range::push_range;
use bs_bits::NoMemory;
use bs_net::{NetId, Raw};
use std::alloc::Global;

/// How many keys are named at most.
/// A note is to be read at a glance.
pub const NAMED: usize = 3;

/// How many bytes two names have in common at their front.
fn common_front(a: &[u8], b: &[u8]) -> usize
    ensures is { result ≡ common a.now b.now }
    ensures left { result ≤ length a.now }
    ensures right { result ≤ length b.now }
{
    let mut n = 0;
    'bytes: while n < a.len() && n < b.len() && a[n] == b[n] {
        n += 1;
    }
    n
}

/// How many bytes two names have in common at their end.
fn common_back(a: &[u8], b: &[u8]) -> usize
    ensures is { result ≡ common (reverse a.now) (reverse b.now) }
    ensures left { result ≤ length a.now }
    ensures right { result ≤ length b.now }
{
    let mut n = 0;
    'bytes: while n < a.len() && n < b.len() && a[a.len() - 1 - n] == b[b.len() - 1 - n] {
        n += 1;
    }
    n
}

/// How many bytes of the longer name are left where the common front and then the common end are taken away.
pub fn apart(a: &[u8], b: &[u8]) -> usize
    ensures { result ≡ apart a.now b.now }
{
    let front = common_front(a, b);
    let back = common_back(&a[front..], &b[front..]);
    a.len().max(b.len()) - front - back
}

/// The key of a net.
fn net_key(raw: &Raw, net: NetId) -> &[u8]
    requires { net.0 < length raw.now.names }
    ensures { result.now ≡ net_key (parts_of raw.now) net }
{
    raw.names.key(net).as_bytes()
}

/// The key of a flip-flop: that of its output net.
pub fn flop_key(raw: &Raw, flop: usize) -> &[u8]
    requires { flop < length raw.now.flops }
    ensures { result.now ≡ key_at (parts_of raw.now) flop }
{
    net_key(raw, raw.flops.get(flop).q)
}

/// Appends the number of a bit in brackets, where there is one.
fn push_bit(name: &mut Vec<u8>, bit: Option<u64>) -> Result<(), NoMemory>
    ensures { OnOk result (name.new.items ≡ name.old.items ++ range_text bit 1) }
{
    match bit {
        Some(bit) => push_range(name, bit, 1),
        None => Ok(()),
    }
}

/// The name of a key as RTL writes it.
fn rtl_name(alloc: Global, key: &[u8]) -> Result<Vec<u8>, NoMemory>
    ensures { IfOk result (λ name. name.items ≡ rtl_name key.now) }
{
    let parts = key_parts(key);
    let mut name = plain(parts.base).to_vec(alloc)?;
    push_bit(&mut name, parts.bit)?;
    Ok(name)
}

/// How far the key of a flip-flop, as RTL writes it, is from a name that RTL writes.
fn flop_apart(alloc: Global, raw: &Raw, flop: usize, name: &[u8]) -> Result<usize, NoMemory>
    requires { flop < length raw.now.flops }
    ensures { IfOk result (λ far. far ≡ flop_apart (parts_of raw.now) name.now flop) }
{
    let key = rtl_name(alloc, flop_key(raw, flop))?;
    Ok(apart(name, &key))
}

/// The first flip-flop whose key is nearest to a name.
fn nearest_flop(alloc: Global, raw: &Raw, name: &[u8]) -> Result<usize, NoMemory>
    requires { 0 < length raw.now.flops }
    ensures { IfOk result (λ flop. IsFirstNearest (parts_of raw.now) name.now flop) }
{
    let mut nearest = 0;
    let mut least = flop_apart(alloc, raw, 0, name)?;
    'flops: for flop in 1..raw.flops.len() {
        let far = flop_apart(alloc, raw, flop, name)?;
        if far < least {
            nearest = flop;
            least = far;
        }
    }
    Ok(nearest)
}

/// Whether the key of a flip-flop is as far from a name as that of a nearest one.
fn is_like(
    alloc: Global,
    raw: &Raw,
    name: &[u8],
    first: usize,
    flop: usize,
) -> Result<bool, NoMemory>
    requires first { IsNearest (parts_of raw.now) name.now first }
    requires there { flop < length raw.now.flops }
    ensures { IfOk result (λ is. MatchBool is
        (IsNearest (parts_of raw.now) name.now flop)
        (flop_apart (parts_of raw.now) name.now first < flop_apart (parts_of raw.now) name.now flop)) }
{
    let least = flop_apart(alloc, raw, first, name)?;
    let far = flop_apart(alloc, raw, flop, name)?;
    Ok(far == least)
}

/// Puts a flip-flop behind the nearest of those before it, where it is one and they are few.
fn add_like(
    alloc: Global,
    nearest: &mut Vec<usize>,
    raw: &Raw,
    name: &[u8],
    first: usize,
    flop: usize,
) -> Result<(), NoMemory>
    requires first { IsNearest (parts_of raw.now) name.now first }
    requires there { flop < length raw.now.flops }
    requires nearest { AreNearestBelow (parts_of raw.now) name.now flop nearest.old.items }
    ensures { OnOk result (AreNearestBelow (parts_of raw.now) name.now (flop + 1) nearest.new.items) }
{
    if nearest.len() >= NAMED {
        return Ok(());
    }
    let like = is_like(alloc, raw, name, first, flop)?;
    if !like {
        return Ok(());
    }
    nearest.push(flop)?;
    Ok(())
}

/// The flip-flops whose keys are as far from a name as that of the first nearest one, the first `NAMED` of them in scan order.
#[tactic(auto, using(crate::proofs::NearestLemmas::below_start))]
fn flops_like(alloc: Global, raw: &Raw, name: &[u8], first: usize) -> Result<Vec<usize>, NoMemory>
    requires { IsFirstNearest (parts_of raw.now) name.now first }
    ensures { IfOk result (λ flops. AreNearestBelow (parts_of raw.now) name.now (length raw.now.flops) flops.items) }
{
    let mut nearest = vec![in alloc; first]?;
    'flops: for flop in first + 1..raw.flops.len() {
        add_like(alloc, &mut nearest, raw, name, first, flop)?;
    }
    Ok(nearest)
}

/// The same with the first nearest one before them.
fn flops_near(alloc: Global, raw: &Raw, name: &[u8]) -> Result<Vec<usize>, NoMemory>
    requires { 0 < length raw.now.flops }
    ensures { IfOk result (λ flops. AreNearestBelow (parts_of raw.now) name.now (length raw.now.flops) flops.items) }
{
    let first = nearest_flop(alloc, raw, name)?;
    let flops = flops_like(alloc, raw, name, first)?;
    Ok(flops)
}

/// The flip-flops whose keys are nearest to a name that RTL writes.
#[tactic(auto, using(crate::proofs::NearestLemmas::none_nearest))]
fn nearest_named(alloc: Global, raw: &Raw, name: &[u8]) -> Result<Vec<usize>, NoMemory>
    ensures { IfOk result (λ flops. AreNearest (parts_of raw.now) name.now flops.items) }
{
    if raw.flops.len() == 0 {
        return Ok(Vec::new(alloc));
    }
    let flops = flops_near(alloc, raw, name)?;
    Ok(flops)
}

/// The flip-flops whose keys are nearest to a name, at most `NAMED` of them in scan order: name and keys as RTL writes them, so that
/// `tx.level[0]` is next to the key `[0]\tx.level`.
pub fn nearest_flops(alloc: Global, raw: &Raw, name: &[u8]) -> Result<Vec<usize>, NoMemory>
    ensures { IfOk result (λ flops. AreNearest (parts_of raw.now) (rtl_name name.now) flops.items) }
{
    let rtl = rtl_name(alloc, name)?;
    let flops = nearest_named(alloc, raw, &rtl)?;
    Ok(flops)
}
