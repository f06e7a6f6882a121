//! The block that is proposed for some bits: since when they have stood, what set them, what has kept them.
ghost use Rattle.std.specs.Prelude.{◌≡◌, IfOk};

use crate::choice::{ChosenSources, choose};
use crate::driver::Driver;
use crate::fanin::{Fanin, fanin_of};
use crate::hold::{Keeping, keep_all, share};
use crate::idle::push_idle;
use crate::need::roots_of;
use crate::rare::{KeptCycles, push_rare};
use crate::scene::TraceScene;
use crate::tables::{at, bit_of, cycles_from, flag, has, put_facts};
use crate::view::{Desk, Site, give_constants};
use bs_bits::{List, NoMemory};
use bs_net::NetId;
use bs_net_facts::{Block, Cone, Fact, Moments};
use std::alloc::Global;

/// A block that the choice proposes, what a pass over it needs, and facts to tell beside it.
#[derive(Drop)]
pub struct Proposal {
    pub block: Block,
    pub cone: Cone,
    /// What shows 1 below the bits, is not forced by the block's facts and does not matter: at the cycle of the causes, the nearest
    /// first; then where the bits were kept, of a few nets that show 1 there at a few cycles.
    pub idle: List<Fact>,
}

/// What is found of some bits.
#[derive(Drop)]
struct FoundSources {
    /// The cycle from which on they stand.
    since: u32,
    /// Whether they stand there since the first moment.
    begun: bool,
    given: List<Fact>,
    cone: Cone,
    idle: List<Fact>,
}

/// Puts in what nets show at a cycle, where the trace tells it.
fn push_facts(
    moments: &Moments<'_>,
    facts: &mut List<Fact>,
    nets: &[NetId],
    cycle: u32,
) -> Result<(), NoMemory> {
    'nets: for net in nets {
        if let Some(bit) = moments.bit(*net, cycle) {
            facts.push(Fact {
                net: *net,
                cycle,
                bit,
            })?;
        }
    }
    Ok(())
}

/// Finds what decides the bits at a cycle, or what their flip-flops load there.
fn find_causes(desk: &mut Desk<'_>, cycle: u32, found: &mut FoundSources) -> Result<(), NoMemory> {
    let moments = desk.site.scene.moments;
    desk.look(cycle, bit_of(cycle), false);
    let ChosenSources { nets, own: _ } = choose(desk)?;
    push_facts(moments, &mut found.given, nets.as_slice(), cycle)?;
    let done = push_idle(desk, nets.as_slice(), &mut found.idle);
    drop(nets);
    done
}

/// Puts in the facts of holds, by ascending cycles.
fn push_holds(kept: &KeptCycles<'_>, facts: &mut List<Fact>) -> Result<(), NoMemory> {
    'cycles: for cycle in kept.first..kept.site.end {
        'holds: for hold in kept.holds {
            if has(hold.cycles.as_slice(), cycle) {
                push_facts(kept.site.scene.moments, facts, hold.nets.as_slice(), cycle)?;
            }
        }
    }
    Ok(())
}

/// Finds what set the bits of flip-flops, unless they have stood since the first moment, what has kept them, which is noted, and what to
/// tell beside it.
fn find_with(
    desk: &mut Desk<'_>,
    keeping: &mut Keeping,
    found: &mut FoundSources,
) -> Result<(), NoMemory> {
    let site = desk.site;
    let since = keep_all(desk, keeping)?;
    found.since = since;
    found.begun = since == 0;
    if since > 0 {
        find_causes(desk, since - 1, found)?;
    }
    let mut left = cycles_from(site.alloc, since, site.end)?;
    share(&mut keeping.holds, &mut left);
    drop(left);
    let kept = KeptCycles {
        site,
        holds: keeping.holds.as_slice(),
        first: since,
    };
    push_holds(&kept, &mut found.given)?;
    push_rare(&kept, desk, &mut found.idle)
}

/// Whether all nets have their bits at a cycle.
fn are_shown(site: &Site<'_>, cycle: u32) -> bool {
    'facts: for fact in site.facts {
        if site.scene.moments.bit(fact.net, cycle) != Some(fact.bit) {
            return false;
        }
    }
    true
}

/// The cycle from which on all nets have their bits.
fn shown_since(site: &Site<'_>) -> u32 {
    let end = site.end;
    'cycles: for back in 0..end {
        let cycle = end - 1 - back;
        if !are_shown(site, cycle) {
            return cycle + 1;
        }
    }
    0
}

/// Finds what set the bits of flip-flops, and what has kept them.
fn find_kept(desk: &mut Desk<'_>, found: &mut FoundSources) -> Result<(), NoMemory> {
    let site = desk.site;
    let first = shown_since(site);
    let mut keeping = Keeping {
        first,
        cycles: cycles_from(site.alloc, first, site.end)?,
        holds: Vec::new(site.alloc),
    };
    let done = find_with(desk, &mut keeping, found);
    drop(keeping);
    done
}

/// Puts in the gates of the fan-in that are needed, and the flip-flops that drive the bits.
fn push_cone(desk: &Desk<'_>, cone: &mut Cone) -> Result<(), NoMemory> {
    let site = desk.site;
    'gates: for place in site.fanin.gates.as_slice() {
        if let Some(gate) = site.scene.gate(*place) {
            if flag(desk.used.as_slice(), gate.out) {
                cone.gates.push(at(site.scene.order, *place, u32::MAX))?;
            }
        }
    }
    'facts: for fact in site.facts {
        if let Driver::Flop(number, _) = site.scene.driver(fact.net) {
            cone.flops.push(number)?;
        }
    }
    Ok(())
}

/// Finds what forces the bits, and what a pass over them needs.
fn find(site: &Site<'_>, found: &mut FoundSources) -> Result<(), NoMemory> {
    let mut desk = Desk::new(&*site)?;
    give_constants(&mut desk, site.fanin.leaves.as_slice());
    put_facts(&mut desk.own, site.facts, true);
    if site.flop {
        find_kept(&mut desk, found)?;
    } else {
        find_causes(&mut desk, site.end, found)?;
    }
    push_cone(&desk, &mut found.cone)?;
    Ok(())
}

/// What is below the nets of some bits, or below that which their flip-flops load.
fn fanin_below(alloc: Global, scene: &TraceScene<'_>, facts: &[Fact]) -> Result<Fanin, NoMemory> {
    let mut ends = Vec::from_slice(alloc, scene.stops)?;
    put_facts(&mut ends, facts, false);
    let roots = roots_of(alloc, scene, facts)?;
    let fanin = fanin_of(alloc, scene, roots.as_slice(), ends);
    drop(roots);
    fanin
}

/// Finds what forces bits at a cycle, which flip-flops drive or none, with what is below them.
fn find_below(
    alloc: Global,
    scene: &TraceScene<'_>,
    facts: &[Fact],
    end: u32,
    flop: bool,
    found: &mut FoundSources,
) -> Result<(), NoMemory> {
    let fanin = fanin_below(alloc, scene, facts)?;
    let site = Site {
        alloc,
        scene,
        fanin: &fanin,
        facts,
        flop,
        end,
    };
    let done = find(&site, found);
    drop(fanin);
    done
}

/// The proposal for some bits at a cycle by what is found of them.
fn proposal_of(bits: List<Fact>, at: u32, found: FoundSources) -> Proposal
    ensures bits { result.block.bits ≡ bits }
    ensures at { result.block.at ≡ at }
{
    let FoundSources {
        since,
        begun,
        given,
        cone,
        idle,
    } = found;
    let block = Block {
        bits,
        since,
        at,
        given,
        begun,
    };
    Proposal { block, cone, idle }
}

/// The block that is proposed for bits of one vector at a cycle, which flip-flops drive or none.
pub fn propose(
    alloc: Global,
    scene: &TraceScene<'_>,
    bits: List<Fact>,
    at: u32,
    flop: bool,
) -> Result<Proposal, NoMemory>
    ensures bits { IfOk result (λ p. p.block.bits ≡ bits) }
    ensures at { IfOk result (λ p. p.block.at ≡ at) }
{
    let mut found = FoundSources {
        since: at,
        begun: false,
        given: List::new(alloc),
        cone: Cone {
            gates: List::new(alloc),
            flops: List::new(alloc),
        },
        idle: List::new(alloc),
    };
    match find_below(alloc, scene, bits.slice(), at, flop, &mut found) {
        Ok(()) => Ok(proposal_of(bits, at, found)),
        Err(refused) => {
            drop(found);
            drop(bits);
            Err(refused)
        }
    }
}
