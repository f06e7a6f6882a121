//! The places of the nets' planes: the gates' outputs in the order of their evaluation, and the other nets behind them.
ghost use Rattle.std.specs.Prelude.{◌≡◌, ◌<◌, ◌≤◌, ◌+◌, ◌^◌, ◌++◌, ◌∷◌, [], length, All, IfOk, OnOk};
ghost use Rattle.bs_net.specs.declared.limits.TheConstants.{MAX_NETS};
ghost use Rattle.bs_lanes.specs.Layout.{place_of, IsPlacing, IsListed, AreListed, Grows, IsGateOf};

use crate::levels::zeros;
use bs_bits::{List, NoMemory};
use bs_net::Gate;
use std::alloc::Global;

/// The outputs of the gates, in the order of their evaluation.
fn outputs_of(
    alloc: Global,
    gates: &[Gate],
    order: &[u32],
    nets: usize,
) -> Result<List<u32>, NoMemory>
    requires numbered { All (λ i. i < length gates.now) order.now }
    requires placed { All (IsGateOf nets) gates.now }
    ensures size { IfOk result (λ listed. length listed ≡ length order.now) }
    ensures below { IfOk result (All (λ n. n < nets)) }
{
    let mut listed = List::new(alloc);
    'gates: for i in 0..order.len() {
        listed.push(gates[order[i] as usize].out.0)?;
    }
    Ok(listed)
}

/// Writes at each listed net where it stands in the list.
fn mark(marks: &mut [u32], listed: &[u32])
    requires few { length listed.now < 2 ^ 32 }
    requires below { All (λ n. n < length marks.old) listed.now }
{
    'listed: for i in 0..listed.len() {
        marks[listed[i] as usize] = i as u32;
    }
}

/// For each of so many nets, where it may stand in a list.
fn marks_of(alloc: Global, nets: usize, listed: &[u32]) -> Result<Vec<u32>, NoMemory>
    requires few { length listed.now < 2 ^ 32 }
    requires below { All (λ n. n < nets) listed.now }
    ensures { IfOk result (λ marks. length marks.items ≡ nets) }
{
    let mut marks = zeros(alloc, nets)?;
    mark(marks.as_mut_slice(), listed);
    Ok(marks)
}

/// Where a net stands in a list: at its mark, or else at the end, where it is put then.
fn list_net(listed: &mut List<u32>, mark: u32, net: u32) -> Result<u32, NoMemory>
    requires { length listed.old < 2 ^ 32 }
    ensures listed { IfOk result (λ place. IsListed listed.new place net) }
    ensures grown { OnOk result (Grows listed.old listed.new) }
{
    if (mark as usize) < listed.len() && *listed.get(mark as usize) == net {
        return Ok(mark);
    }
    let place = listed.len() as u32;
    listed.push(net)?;
    Ok(place)
}

/// Where each of so many nets stands in a list, which gets those that it lacks.
fn list_nets(
    alloc: Global,
    nets: usize,
    marks: &[u32],
    listed: &mut List<u32>,
) -> Result<List<u32>, NoMemory>
    requires marks { length marks.now ≡ nets }
    requires few { length listed.old + nets < 2 ^ 32 }
    ensures places { IfOk result (AreListed listed.new) }
    ensures size { IfOk result (λ places. length places ≡ nets) }
    ensures few { OnOk result (length listed.new ≤ length listed.old + nets) }
{
    let mut places = List::new(alloc);
    'nets: for n in 0..nets {
        let place = list_net(listed, marks[n], n as u32)?;
        places.push(place)?;
    }
    Ok(places)
}

/// The places of so many nets, and how many places there are.
pub(crate) fn places_of(
    alloc: Global,
    nets: usize,
    gates: &[Gate],
    order: &[u32],
) -> Result<(List<u32>, usize), NoMemory>
    requires nets { nets ≤ MAX_NETS }
    requires few { length order.now ≤ nets }
    requires numbered { All (λ i. i < length gates.now) order.now }
    requires placed { All (IsGateOf nets) gates.now }
    ensures { IfOk result (λ p. IsPlacing nets p.1 p.0) }
{
    let mut listed = outputs_of(alloc, gates, order, nets)?;
    let marks = marks_of(alloc, nets, listed.slice())?;
    let places = list_nets(alloc, nets, marks.as_slice(), &mut listed)?;
    let planes = listed.len();
    Ok((places, planes))
}
