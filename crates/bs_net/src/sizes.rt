//! The greatest sizes of a netlist.
ghost use Rattle.std.specs.Prelude.{◌≡◌, ◌<◌, ◌^◌, length, All, find, nat_lt};
ghost use Rattle.bs_net.specs.Netlist.{parts_of};
ghost use Rattle.bs_net.specs.Parts.{PartsArePlaced};
ghost use Rattle.bs_net.specs.Check.{too_many, wide_gate};

use crate::fault::Count;
use crate::limits::{MAX_FLOPS, MAX_INPUTS, MAX_TERMINALS};
use crate::net::Gate;
use crate::raw::Raw;

/// The number of inputs of the first gate with too many.
fn wide_gate(gates: &[Gate]) -> Option<(Count, u32)>
    requires { All (λ g. length g.ins < 2 ^ 32) gates.now }
    ensures { result ≡ wide_gate (find (λ g. nat_lt MAX_TERMINALS (length g.ins)) gates.now) }
{
    for gate in gates {
        let inputs = gate.ins.slice().len();
        if inputs > MAX_TERMINALS {
            return Some((Count::Terminals, inputs as u32));
        }
    }
    None
}

/// What there is too much of, and how many: flip-flops, then input port bits, then the inputs of a gate.
pub(crate) fn too_many(raw: &Raw) -> Option<(Count, u32)>
    requires { PartsArePlaced (parts_of raw.now) }
    ensures { result ≡ too_many (parts_of raw.now) }
{
    if raw.flops.len() > MAX_FLOPS {
        return Some((Count::Flops, raw.flops.len() as u32));
    }
    if raw.inputs.len() > MAX_INPUTS {
        return Some((Count::Inputs, raw.inputs.len() as u32));
    }
    wide_gate(raw.gates.slice())
}
