//! How many variables the clauses of one cycle have, without the clauses.
ghost use Rattle.std.specs.Prelude.{◌≡◌, ◌+◌, ◌<◌, ◌^◌, [], sum_by, IfOk};
ghost use Rattle.bs_net.specs.Netlist.{circuit};
ghost use Rattle.bs_encode.specs.Transition.{gate_helpers, variables};

use bs_clause::NoMemory;
use bs_net::{Gate, Kind, Netlist};
use std::alloc::Global;

/// The variables that a gate takes beside those of its nets.
fn helpers(gate: &Gate) -> u64
    ensures { result ≡ gate_helpers gate.now }
{
    let terms = gate.ins.slice().len() as u64;
    match gate.kind {
        Kind::Xor => terms.saturating_sub(2),
        Kind::Xnor => terms.saturating_sub(2),
        _ => 0,
    }
}

/// The same of all gates.
fn all_helpers(gates: &[Gate]) -> u64
    requires { sum_by gate_helpers gates.now < 2 ^ 30 }
    ensures { result ≡ sum_by gate_helpers gates.now }
{
    let mut sum = 0;
    for gate in gates {
        sum += helpers(gate);
    }
    sum
}

/// The sum of the variables of nets, gates and flip-flops.
fn sum_of(nets: u32, helpers: u64, flops: usize) -> u64
    requires helpers { helpers < 2 ^ 30 }
    requires flops { flops < 2 ^ 30 }
    ensures { result ≡ nets + helpers + flops }
{
    u64::from(nets) + helpers + flops as u64
}

/// The number of variables that the clauses of one cycle have. It takes no memory.
pub fn size(_alloc: Global, net: &Netlist) -> Result<u64, NoMemory>
    ensures { IfOk result (λ n. n ≡ variables (circuit net.now) []) }
{
    let raw = net.raw();
    let nets = raw.names.len();
    let flops = raw.flops.len();
    let helpers = all_helpers(raw.gates.slice());
    Ok(sum_of(nets, helpers, flops))
}
