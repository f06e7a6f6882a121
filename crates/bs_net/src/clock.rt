//! One input port bit clocks all flip-flops and is no data.
ghost use Rattle.std.specs.Prelude.{◌≡◌, ◌==◌, not, find};
ghost use Rattle.std.specs.List.{list_any};
ghost use Rattle.std.specs.Option.{option_map};
ghost use Rattle.bs_net.specs.Netlist.{parts_of, clock_of};
ghost use Rattle.bs_net.specs.Check.{mixed_clock};
ghost use Rattle.bs_net.specs.Parts.{mode_nets, load_nets};

use crate::net::{Flop, Gate, Mode, NetId};
use crate::raw::Raw;

/// Whether a net is among some.
fn is_among(nets: &[NetId], net: NetId) -> bool
    ensures { result ≡ list_any (λ m. net.0 == m.0) nets.now }
{
    nets.iter().any(|m| net.0 == m.0)
}

/// Whether a gate reads a net.
fn gate_reads(gates: &[Gate], net: NetId) -> bool
    ensures { result ≡ list_any (λ g. list_any (λ m. net.0 == m.0) g.ins) gates.now }
{
    gates.iter().any(|g| is_among(g.ins.slice(), net))
}

/// Whether an enable or a clear is a net.
fn mode_reads(mode: Mode, net: NetId) -> bool
    ensures { result ≡ list_any (λ m. net.0 == m.0) (mode_nets mode) }
{
    match mode {
        Mode::Plain => false,
        Mode::Enable(enable) => net.0 == enable.0,
        Mode::Clear(clear) => net.0 == clear.0,
    }
}

/// Whether a flip-flop loads by a net.
fn loads_by(flop: Flop, net: NetId) -> bool
    ensures { result ≡ list_any (λ m. net.0 == m.0) (load_nets flop) }
{
    let by_mode = mode_reads(flop.mode, net);
    net.0 == flop.d.0 || by_mode
}

/// Whether one of some flip-flops loads by a net.
fn flop_loads(flops: &[Flop], net: NetId) -> bool
    ensures { result ≡ list_any (λ f. list_any (λ m. net.0 == m.0) (load_nets f)) flops.now }
{
    flops.iter().any(|&f| loads_by(f, net))
}

/// The clock of the first flip-flop that another net clocks.
fn other_clock(flops: &[Flop], clock: NetId) -> Option<NetId>
    ensures { result ≡ option_map (λ f. f.ck) (find (λ f. not (f.ck.0 == clock.0)) flops.now) }
{
    for flop in flops {
        if flop.ck.0 != clock.0 {
            return Some(flop.ck);
        }
    }
    None
}

/// The net for which there is no single clock: the first clock, or another one.
pub(crate) fn mixed_clock(raw: &Raw, clock: NetId) -> Option<NetId>
    requires { clock ≡ clock_of raw.now.flops }
    ensures { result ≡ mixed_clock (parts_of raw.now) }
{
    if !is_among(raw.inputs.slice(), clock) {
        return Some(clock);
    }
    if let Some(other) = other_clock(raw.flops.slice(), clock) {
        return Some(other);
    }
    let by_gate = gate_reads(raw.gates.slice(), clock);
    let by_flop = flop_loads(raw.flops.slice(), clock);
    if by_gate || by_flop {
        Some(clock)
    } else {
        None
    }
}
