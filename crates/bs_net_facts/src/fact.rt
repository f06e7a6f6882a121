//! A net's bit at a cycle.
ghost use Rattle.std.specs.Prelude.{◌≡◌};
ghost use Rattle.std.specs.Bool.{beq};
ghost use Rattle.bs_net_facts.specs.Facts.{is_again};

use bs_net::NetId;

/// A net's bit at a cycle of a trace. The first moment is cycle 0.
#[derive(Clone, Copy)]
pub struct Fact {
    pub net: NetId,
    pub cycle: u32,
    pub bit: bool,
}

/// Whether two bits are the same.
fn same_bit(one: bool, other: bool) -> bool
    ensures { result ≡ beq one other }
{
    one == other
}

/// Whether a fact is the same as another one, a cycle later.
pub fn is_again(fact: Fact, later: Fact) -> bool
    ensures { result ≡ is_again fact later }
{
    later.net.0 == fact.net.0
        && (same_bit(later.bit, fact.bit) && u64::from(later.cycle) == u64::from(fact.cycle) + 1)
}
