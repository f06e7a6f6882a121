//! What is known of flip-flops behind a clock edge.
ghost use Rattle.std.specs.Prelude.{◌≡◌, [], ◌∷◌, ◌++◌, length, OnOk};
ghost use Rattle.bs_net.specs.Netlist.{circuit};
ghost use Rattle.bs_net_facts.specs.Marked.{Carry, CarryOn};

use bs_bits::NoMemory;
use bs_net::{NetId, Netlist};
use bs_sim::{Mark, flop_mark};

/// What is known of a net before the gates of its cycle are marked.
#[derive(Clone, Copy)]
pub(crate) struct KnownNet {
    pub(crate) net: NetId,
    pub(crate) mark: Mark,
}

/// Puts what is known of a net at the end.
fn push_kept(kept: &mut Vec<KnownNet>, net: NetId, mark: Mark) -> Result<(), NoMemory>
    ensures { OnOk result (kept.new.items ≡ kept.old.items ++ record { net = net; mark = mark } ∷ []) }
{
    kept.push(KnownNet { net, mark })?;
    Ok(())
}

/// What is known of the bit that the flip-flop of a number loads, if there is one.
#[tactic(auto, using(crate::proofs::CycleLemmas::carry_same, crate::proofs::CycleLemmas::carry_pushed))]
fn carry_numbered(
    marks: &[Mark],
    net: &Netlist,
    number: u32,
    kept: &mut Vec<KnownNet>,
) -> Result<(), NoMemory>
    requires { length marks.now ≡ (circuit net.now).nets }
    ensures { OnOk result (CarryOn (circuit net.now) marks.now kept.old.items kept.new.items) }
{
    let flops = net.raw().flops.slice();
    let place = number as usize;
    if place >= flops.len() {
        return Ok(());
    }
    let flop = flops[place];
    push_kept(kept, flop.q, flop_mark(marks, flop))?;
    Ok(())
}

/// What is known of the bits that some flip-flops load.
#[tactic(auto, using(crate::proofs::CycleLemmas::carry_none, crate::proofs::CycleLemmas::carry_done))]
pub(crate) fn carry(
    marks: &[Mark],
    net: &Netlist,
    flops: &[u32],
    kept: &mut Vec<KnownNet>,
) -> Result<(), NoMemory>
    requires { length marks.now ≡ (circuit net.now).nets }
    ensures { OnOk result (Carry (circuit net.now) marks.now kept.new.items) }
{
    kept.truncate(0);
    'flops: for number in flops {
        carry_numbered(marks, net, *number, kept)?;
    }
    Ok(())
}
