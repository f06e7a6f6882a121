//! The order of a scan chain, by the names of its flip-flops.
ghost use Rattle.std.specs.Prelude.{◌≡◌, ◌<◌, ◌∷◌, [], ◌++◌, ◌==◌, length, map, IfOk, OnOk};
ghost use Rattle.std.specs.List.{list_any, position};
ghost use Rattle.bs_bits.specs.Lines.{lines_of};
ghost use Rattle.bs_bits.specs.Reading.{Answers};
ghost use Rattle.bs_net_names.specs.Keys.{parts_in};
ghost use Rattle.bs_net_names.specs.Rtl.{same_name};
ghost use Rattle.bs_inspect_netlist.specs.declared.fault.OrderFault.TheVariants.{NoMemory as Want};
ghost use Rattle.bs_inspect_netlist.specs.Order.{flop_named, if_new, is_listed, is_unlisted, listed_at, listed_from, order_in, unlisted_count};

use crate::fault::OrderFault;
use bs_bits::{NoMemory, is_name, next_line};
use bs_net::Netlist;
use bs_net_names::{KeyParts, key_parts, same_name};
use bs_scan::flop_parts;
use std::alloc::Global;

/// The first of these keys that is one name with another.
fn place_of(keys: &[KeyParts<'_>], name: KeyParts<'_>) -> Option<usize>
    ensures { result ≡ position (λ key. same_name (parts_in key) (parts_in name.entry)) keys.now }
{
    keys.iter().position(|key| same_name(*key, name))
}

/// The first flip-flop with a name.
#[tactic(auto, using(bs_scan::proofs::KeyLemmas::named_at))]
fn flop_named(flops: &[KeyParts<'_>], name: &[u8]) -> Option<usize>
    ensures { result ≡ flop_named (map parts_in flops.now) name.now }
{
    place_of(flops, key_parts(name))
}

/// Whether a flip-flop is one of these.
fn is_listed(flops: &[usize], flop: usize) -> bool
    ensures { result ≡ is_listed flops.now flop }
{
    flops.iter().any(|other| *other == flop)
}

/// A flip-flop, where it is none of the lines before.
fn if_new(earlier: &[usize], flop: Option<usize>) -> Result<usize, OrderFault>
    ensures { Answers Want (λ flop. flop) result (if_new earlier.now flop) }
{
    let number = earlier.len() as u64 + 1;
    match flop {
        None => Err(OrderFault::Unknown(number)),
        Some(flop) => {
            if is_listed(earlier, flop) {
                Err(OrderFault::Twice(number))
            } else {
                Ok(flop)
            }
        }
    }
}

/// The flip-flop of a line behind those of the lines before it.
fn listed_at(flops: &[KeyParts<'_>], earlier: &[usize], line: &[u8]) -> Result<usize, OrderFault>
    ensures { Answers Want (λ flop. flop) result (listed_at (map parts_in flops.now) earlier.now line.now) }
{
    if is_name(line) {
        if_new(earlier, flop_named(flops, line))
    } else {
        Err(OrderFault::Line(earlier.len() as u64 + 1))
    }
}

/// Puts a flip-flop at the end.
fn put(order: &mut Vec<usize>, flop: usize) -> Result<(), NoMemory>
    ensures { OnOk result (order.new.items ≡ order.old.items ++ flop ∷ []) }
{
    order.push(flop)?;
    Ok(())
}

/// The flip-flops of the lines of a text.
#[tactic(auto, using(crate::proofs::OrderLemmas::line_more, crate::proofs::OrderLemmas::line_faulty, crate::proofs::OrderLemmas::lines_end))]
fn read_listed(alloc: Global, flops: &[KeyParts<'_>], text: &[u8]) -> Result<Vec<usize>, OrderFault>
    ensures { Answers Want (λ order. order.items) result (listed_from (map parts_in flops.now) [] (lines_of text.now)) }
{
    let mut order = Vec::new(alloc);
    let mut rest = text;
    'lines: while let Some((line, behind)) = next_line(rest) {
        let flop = listed_at(flops, order.as_slice(), line)?;
        put(&mut order, flop)?;
        rest = behind;
    }
    Ok(order)
}

/// The flip-flops of a scan chain in its order: a line of the text is the key of one, or that name as RTL writes it, and none has two
/// (docs/FORMATS.md, "Orders of a scan chain"). A flip-flop is its number in the netlist, from 0.
pub fn read_order(alloc: Global, net: &Netlist, text: &[u8]) -> Result<Vec<usize>, OrderFault>
    ensures { Answers Want (λ order. order.items) result (order_in net.now.raw text.now) }
{
    let flops = flop_parts(alloc, net.raw())?;
    let order = read_listed(alloc, flops.as_slice(), text)?;
    Ok(order)
}

/// Whether a flip-flop is none of these.
pub(crate) fn is_unlisted(order: &[usize], flop: usize) -> bool
    ensures { result ≡ is_unlisted order.now flop }
{
    !is_listed(order, flop)
}

/// How many of so many flip-flops are not in an order.
pub fn unlisted_count(width: usize, order: &[usize]) -> usize
    ensures { result ≡ unlisted_count width order.now }
{
    (0..width).filter(|flop| is_unlisted(order, *flop)).count()
}
