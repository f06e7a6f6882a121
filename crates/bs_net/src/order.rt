//! The order of the gates, in which each stands after its fan-in, or else a loop of gates.
ghost use Rattle.std.specs.Prelude.{◌≡◌, ◌<◌, ◌≤◌, ◌^◌, ◌++◌, ℕ, None, length, replicate, reverse, drop, take, All, IfOk, IfErr, slice_index_or, nat_eq, map};
ghost use Rattle.std.specs.List.{IsDistinct};
ghost use Rattle.bs_net.specs.Loops.{up_to, IsLeastFirst, IsLevelling};
ghost use Rattle.bs_net.specs.Order.{IsOrder};
ghost use Rattle.bs_net.specs.Netlist.{parts_of};
ghost use Rattle.bs_net.specs.Parts.{PartsArePlaced};
ghost use Rattle.bs_net.specs.Check.{PassesNets, IsFault};
ghost use Rattle.bs_net.specs.Search.{filled};

use crate::fault::NetFault;
use crate::net::Gate;
use crate::raw::Raw;
use crate::search::Search;
use bs_bits::{List, NoMemory};
use std::alloc::Global;

/// The gate that drives each net, where one does.
fn fill_table(table: &mut Vec<Option<u32>>, gates: &[Gate])
    requires placed { All (λ g. g.out.0 < length table.old.items) gates.now }
    requires few { length gates.now < 2 ^ 32 }
    ensures { table.new.items ≡ filled table.old.items 0 gates.now }
{
    for i in 0..gates.len() {
        let out = gates[i].out;
        table[out.0 as usize] = Some(i as u32);
    }
}

/// The end of a path, from its newest gate back to gate h.
fn path_to(alloc: Global, path: &[u32], h: u32) -> Result<List<u32>, NoMemory>
    ensures { IfOk result (λ l. l ≡ up_to h (reverse path.now)) }
{
    let mut part = List::new(alloc);
    for i in (0..path.len()).rev() {
        part.push(path[i])?;
        if path[i] == h {
            return Ok(part);
        }
    }
    Ok(part)
}

/// The place of the lowest number.
fn lowest(numbers: &[u32]) -> usize
    requires { 0 < length numbers.now }
    ensures place { result < length numbers.now }
    ensures lowest { All (λ n. slice_index_or numbers.now result 0 ≤ n) numbers.now }
{
    let mut low = 0;
    for i in 1..numbers.len() {
        if numbers[i] < numbers[low] {
            low = i;
        }
    }
    low
}

/// The same loop from its lowest gate on.
fn from_lowest(alloc: Global, numbers: &[u32]) -> Result<List<u32>, NoMemory>
    requires { 0 < length numbers.now }
    ensures rotated { IfOk result (λ l. (k : ℕ) × (l ≡ drop k numbers.now ++ take k numbers.now)) }
    ensures least_first { IfOk result (λ l. IsLeastFirst l) }
{
    let low = lowest(numbers);
    let mut turned = List::new(alloc);
    for i in low..numbers.len() {
        turned.push(numbers[i])?;
    }
    for i in 0..low {
        turned.push(numbers[i])?;
    }
    Ok(turned)
}

/// What a search of all gates finds, by their numbers.
#[derive(Drop)]
pub enum Levelling {
    /// All gates once, each reading no output of itself or a later one.
    Ordered(List<u32>),
    /// Distinct gates, each one's output read by the next and the last one's by the first, from the lowest number on.
    Looped(List<u32>),
}

/// A table without a driver.
fn no_drivers(alloc: Global, nets: usize) -> Result<Vec<Option<u32>>, NoMemory>
    ensures { IfOk result (λ t. t.items ≡ replicate nets None) }
{
    let table = vec![in alloc; None; nets]?;
    Ok(table)
}

/// The numbers as a list.
fn list_of(alloc: Global, numbers: &[u32]) -> Result<List<u32>, NoMemory>
    ensures { IfOk result (λ l. l ≡ numbers.now) }
{
    let mut list = List::new(alloc);
    for &n in numbers {
        list.push(n)?;
    }
    Ok(list)
}

/// An order of gates that drive distinct nets, all nets below a count; or a loop of them. It takes time linear in the
/// nets and in the gates' inputs.
pub fn levelize(alloc: Global, gates: &[Gate], nets: usize) -> Result<Levelling, NoMemory>
    requires outs { All (λ g. g.out.0 < nets) gates.now }
    requires ins { All (λ g. All (λ n. n.0 < nets) g.ins) gates.now }
    requires narrow { All (λ g. length g.ins < 2 ^ 32) gates.now }
    requires few { length gates.now < 2 ^ 32 }
    requires single { IsDistinct nat_eq (map (λ g. g.out.0) gates.now) }
    ensures { IfOk result (λ levels. IsLevelling gates.now levels) }
{
    let mut table = no_drivers(alloc, nets)?;
    fill_table(&mut table, gates);
    let mut search = Search::new(alloc, gates)?;
    match search.run(gates, table.as_slice())? {
        None => Ok(Levelling::Ordered(list_of(alloc, search.listed())?)),
        Some(h) => {
            let part = path_to(alloc, search.path(), h)?;
            Ok(Levelling::Looped(from_lowest(alloc, part.slice())?))
        }
    }
}

/// An order of a netlist's gates; or the refusal where they make a loop.
pub(crate) fn gate_order(alloc: Global, raw: &Raw) -> Result<List<u32>, NetFault>
    requires placed { PartsArePlaced (parts_of raw.now) }
    requires nets { PassesNets (parts_of raw.now) }
    ensures ok { IfOk result (λ order. IsOrder raw.now.gates order) }
    ensures err { IfErr result (λ fault. IsFault (parts_of raw.now) fault) }
{
    match levelize(alloc, raw.gates.slice(), raw.names.len() as usize)? {
        Levelling::Ordered(order) => Ok(order),
        Levelling::Looped(gates) => Err(NetFault::Loop(gates)),
    }
}
