//! Which nets flip-flops and data inputs drive.
ghost use Rattle.std.specs.Prelude.{◌≡◌, ◌<◌, [], false, length, map, replicate, All, IfOk};
ghost use Rattle.bs_net.specs.Netlist.{circuit};
ghost use Rattle.bs_inspect_causes.specs.Layers.{AreDrivers, MarksThese, marks_net};

use bs_bits::{List, NoMemory};
use bs_net::{Flop, NetId, Netlist};
use std::alloc::Global;

/// Which nets flip-flops and data inputs drive, with a mark for each net.
#[derive(Drop)]
pub(crate) struct Drivers {
    /// The nets that flip-flops drive, in the order of a state's bits.
    pub(crate) flops: List<NetId>,
    pub(crate) by_flop: List<bool>,
    pub(crate) by_input: List<bool>,
}

/// So many nets, none of them marked.
fn no_marks(alloc: Global, count: usize) -> Result<Vec<bool>, NoMemory>
    ensures { IfOk result (λ marks. marks.items ≡ replicate count false) }
{
    let marks = vec![in alloc; false; count]?;
    Ok(marks)
}

/// Marks some nets.
fn put_marks(marks: &mut Vec<bool>, nets: &[NetId])
    requires placed { All (λ n. n.0 < length marks.old.items) nets.now }
    requires none { MarksThese [] marks.old.items }
    ensures { MarksThese nets.now marks.new.items }
{
    'nets: for net in nets {
        marks[net.0 as usize] = true;
    }
}

/// For each of so many nets, whether it is one of these.
#[tactic(auto, using(crate::proofs::DriverLemmas::none_marked))]
fn marks_of(alloc: Global, count: usize, nets: &[NetId]) -> Result<List<bool>, NoMemory>
    requires { All (λ n. n.0 < count) nets.now }
    ensures { IfOk result (λ marks. MarksThese nets.now marks) }
{
    let mut marks = no_marks(alloc, count)?;
    put_marks(&mut marks, nets);
    Ok(List::of(marks))
}

/// The outputs of flip-flops.
fn flop_nets(alloc: Global, flops: &[Flop]) -> Result<List<NetId>, NoMemory>
    ensures { IfOk result (λ nets. nets ≡ map (λ f. f.q) flops.now) }
{
    let mut nets = List::new(alloc);
    'flops: for flop in flops {
        nets.push(flop.q)?;
    }
    Ok(nets)
}

impl Drivers {
    /// What drives the nets of a netlist.
    #[tactic(auto, using(crate::proofs::DriverLemmas::drivers_are, crate::proofs::DriverLemmas::flops_placed, crate::proofs::DriverLemmas::inputs_placed))]
    pub(crate) fn of(alloc: Global, net: &Netlist) -> Result<Drivers, NoMemory>
        ensures { IfOk result (λ d. AreDrivers (circuit net.now) d) }
    {
        let _order = net.order();
        let raw = net.raw();
        let count = raw.names.len() as usize;
        let flops = flop_nets(alloc, raw.flops.slice())?;
        let by_flop = marks_of(alloc, count, flops.slice())?;
        let by_input = marks_of(alloc, count, net.data_inputs().slice())?;
        Ok(Drivers {
            flops,
            by_flop,
            by_input,
        })
    }
}

/// Whether a net is marked.
#[tactic(auto, using(crate::proofs::DriverLemmas::mark_there, crate::proofs::DriverLemmas::mark_past))]
pub(crate) fn is_marked(marks: &[bool], net: NetId) -> bool
    ensures { result ≡ marks_net marks.now net }
{
    let place = net.0 as usize;
    if place < marks.len() {
        marks[place]
    } else {
        false
    }
}
