//! Which nets decide a bit of a block.

use crate::driver::Driver;
use crate::scene::TraceScene;
use crate::view::Desk;
use bs_bits::NoMemory;
use bs_net::{Flop, Mode, NetId};
use bs_net_facts::Fact;
use std::alloc::Global;

/// Two nets that decide a bit: both together, or each by itself. One that decides it alone stands twice.
#[derive(Clone, Copy)]
pub(crate) struct Need {
    pub(crate) one: NetId,
    pub(crate) other: NetId,
    pub(crate) both: bool,
}

impl Need {
    /// Whether the bit is decided, by whether the nets are there.
    pub(crate) fn is_met(self, one: bool, other: bool) -> bool {
        if self.both {
            one && other
        } else {
            one || other
        }
    }
}

/// Which nets decide the bit that a flip-flop loads at a moment.
fn flop_need(desk: &Desk<'_>, flop: Flop) -> Need {
    let high = desk.with_bit(flop.d, true) != 0;
    let (one, other, both) = match flop.mode {
        Mode::Plain => (flop.d, flop.d, false),
        Mode::Enable(enable) => {
            let enabled = desk.with_bit(enable, true) != 0;
            (enable, if enabled { flop.d } else { flop.q }, true)
        }
        Mode::Clear(clear) => match (desk.with_bit(clear, true) != 0, high) {
            (true, true) => (clear, clear, false),
            (false, false) => (flop.d, flop.d, false),
            _ => (clear, flop.d, high),
        },
    };
    Need { one, other, both }
}

/// Which nets decide a net's bit at a moment, or what its flip-flop loads there.
pub(crate) fn need_of(desk: &Desk<'_>, net: NetId) -> Need {
    match desk.site.scene.driver(net) {
        Driver::Flop(_, flop) => flop_need(desk, flop),
        _ => Need {
            one: net,
            other: net,
            both: false,
        },
    }
}

/// The nets of some bits, or the nets by which their flip-flops load them.
pub(crate) fn roots_of(
    alloc: Global,
    scene: &TraceScene<'_>,
    facts: &[Fact],
) -> Result<Vec<NetId>, NoMemory> {
    let mut roots = Vec::new(alloc);
    'facts: for fact in facts {
        match scene.driver(fact.net) {
            Driver::Flop(_, flop) => {
                roots.push(flop.d)?;
                match flop.mode {
                    Mode::Plain => {}
                    Mode::Enable(enable) => {
                        roots.push(enable)?;
                        roots.push(flop.q)?;
                    }
                    Mode::Clear(clear) => roots.push(clear)?,
                }
            }
            _ => roots.push(fact.net)?,
        }
    }
    Ok(roots)
}

/// Whether what is known at a moment decides all bits.
pub(crate) fn are_met(desk: &Desk<'_>) -> bool {
    'facts: for fact in desk.site.facts {
        let need = need_of(desk, fact.net);
        let one = desk.known_at(need.one) != 0;
        let other = desk.known_at(need.other) != 0;
        if !need.is_met(one, other) {
            return false;
        }
    }
    true
}

/// The moments at which a flip-flop loads the bit that it has, by what is known beside that bit.
fn flop_kept(desk: &Desk<'_>, flop: Flop) -> u64 {
    let input = desk.known_at(flop.d);
    match flop.mode {
        Mode::Plain => input,
        Mode::Enable(enable) => { desk.known_at(enable) & (desk.with_bit(enable, false) | input) }
        Mode::Clear(clear) => {
            let low = input & desk.with_bit(flop.d, false);
            low | (desk.known_at(clear) & (desk.with_bit(clear, true) | input))
        }
    }
}

/// The moments at which the flip-flops of the bits load the bits that they have.
pub(crate) fn all_kept(desk: &Desk<'_>) -> u64 {
    let mut kept = desk.cycles;
    'facts: for fact in desk.site.facts {
        kept = match desk.site.scene.driver(fact.net) {
            Driver::Flop(_, flop) => kept & flop_kept(desk, flop),
            _ => 0,
        };
    }
    kept
}
