//! The marks of one cycle, which are set and taken back.
ghost use Rattle.std.specs.Prelude.{◌≡◌, ◌<◌, length, All, IfOk, OnOk};
ghost use Rattle.bs_net.specs.Netlist.{circuit};
ghost use Rattle.bs_net_facts.specs.Marked.{Marks, Unmarks, Blank};

use bs_bits::NoMemory;
use bs_net::{NetId, Netlist};
use bs_sim::{Mark, is_known, mark_constants, unmarked};
use std::alloc::Global;
use std::marker::Model;

/// The marks of a netlist's nets at one cycle. Between two cycles they say what holds in every valuation that fits.
#[derive(Drop)]
pub(crate) struct Board<'a> {
    net: &'a Netlist,
    marks: Vec<Mark>,
    /// The nets that were marked in this cycle.
    trail: Vec<u32>,
}

impl<'a> Model for Board<'a> {
    ghost use Rattle.bs_net_facts.specs.Marked.{Marking, IsKept};

    ghost Value = { Marking };

    ghost view = { λ b. record { net = b.net.now; marks = b.marks.items } };

    ghost invariant = { λ b. IsKept b.net.now b.marks.items b.trail.items };
}

/// The marks that hold in every valuation that fits.
fn standing(alloc: Global, net: &Netlist) -> Result<Vec<Mark>, NoMemory>
    ensures { IfOk result (λ marks. Blank (record { net = net.now; marks = marks.items })) }
{
    let raw = net.raw();
    let mut marks = unmarked(alloc, raw.names.len() as usize)?;
    mark_constants(marks.as_mut_slice(), raw.consts.slice());
    Ok(marks)
}

/// Takes the marks of some nets back.
#[tactic(auto, using(crate::proofs::BoardLemmas::unmarks_none, crate::proofs::BoardLemmas::unmarks_taken))]
fn unmark(marks: &mut Vec<Mark>, nets: &[u32])
    requires { All (λ n. n < length marks.old.items) nets.now }
    ensures { Unmarks nets.now marks.old.items marks.new.items }
{
    'nets: for net in nets {
        marks[*net as usize] = Mark::Moved;
    }
}

impl<'a> Board<'a> {
    /// Marks of which no cycle has begun.
    #[tactic(auto, using(crate::proofs::BoardLemmas::blank_kept))]
    pub(crate) fn new(alloc: Global, net: &'a Netlist) -> Result<Board<'a>, NoMemory>
        ensures net { IfOk result (λ b. b.net ≡ net.now) }
        ensures blank { IfOk result (λ b. Blank b) }
    {
        let marks = standing(alloc, net)?;
        let trail = Vec::new(alloc);
        Ok(Board { net, marks, trail })
    }

    /// The marks.
    pub(crate) fn marks(&self) -> &[Mark]
        ensures marks { result.now ≡ self.now.marks }
        ensures size { length result.now ≡ (circuit self.now.net).nets }
    {
        self.marks.as_slice()
    }

    /// The netlist.
    pub(crate) fn net(&self) -> &'a Netlist
        ensures { result.now ≡ self.now.net }
    {
        self.net
    }

    /// Marks a net, if there is such a one, unless something is known of it.
    #[tactic(auto, using(crate::proofs::BoardLemmas::kept_pushed, crate::proofs::BoardLemmas::marks_set, crate::proofs::BoardLemmas::marks_same))]
    pub(crate) fn put(&mut self, net: NetId, mark: Mark) -> Result<(), NoMemory>
        ensures net { self.new.net ≡ self.old.net }
        ensures put { OnOk result (Marks net.0 mark self.old.marks self.new.marks) }
    {
        let place = net.0 as usize;
        if place >= self.marks.len() {
            return Ok(());
        }
        if is_known(self.marks[place]) {
            return Ok(());
        }
        self.trail.push(net.0)?;
        self.marks[place] = mark;
        Ok(())
    }

    /// Takes this cycle's marks back.
    #[tactic(auto, using(crate::proofs::BoardLemmas::cleared_blank, crate::proofs::BoardLemmas::blank_kept))]
    pub(crate) fn clear(&mut self)
        ensures net { self.new.net ≡ self.old.net }
        ensures blank { Blank self.new }
    {
        unmark(&mut self.marks, self.trail.as_slice());
        self.trail.truncate(0);
    }
}
