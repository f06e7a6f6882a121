//! The netlist, its check, and its meaning as a machine.
//!
//! Modules: `net` and `gate` (what a netlist is made of, a gate's value), `names`, `raw` (`Raw`,
//! the parts), `netlist` (`Netlist::check`), which takes `sizes`, `tallies` (how often each net is
//! named), `drivers`, `search` and `order` (an order of gates or a loop), `clock`; `law` (functions
//! with empty bodies). Used above: on a checked netlist exactly one valuation fits each state and
//! input (`exactly_one_valuation_fits`). What a flip-flop loads: `loaded` in `specs/Circuit`. What
//! drives or reads a net: `specs/Check` and `tallies`. A new refusal: a variant of `NetFault`, its
//! place in `specs/Check` and `specs/Decided`, and `proofs/RefusalLemmas`.
#![tactic(auto)]

mod clock;
mod drivers;
mod fault;
mod gate;
mod law;
mod limits;
mod names;
mod net;
mod netlist;
mod order;
mod raw;
mod search;
mod sizes;
mod tallies;

pub use fault::{Count, NetFault, Refused};
pub use gate::Kind;
pub use law::{
    every_schedule_settles_alike, exactly_one_valuation_fits, loops_have_no_order,
    next_state_is_led_to, refused_netlists_do_not_pass, tests_decide_the_check,
};
pub use limits::{MAX_FLOPS, MAX_INPUTS, MAX_NETS, MAX_TERMINALS};
pub use names::Names;
pub use net::{Const, Flop, Gate, Mode, NetId, Terms};
pub use netlist::Netlist;
pub use order::{Levelling, levelize};
pub use raw::Raw;
