//! Parts of a module once more.
ghost use Rattle.std.specs.Prelude.{◌≡◌, ◌++◌, IfOk, OnOk};

use bs_bits::{List, NoMemory};
use bs_net::{Flop, Gate, NetId, Terms};
use std::alloc::Global;

/// Puts nets at the end.
pub fn add_nets(all: &mut List<NetId>, from: &[NetId]) -> Result<(), NoMemory>
    ensures { OnOk result (all.new ≡ all.old ++ from.now) }
{
    'nets: for net in from {
        all.push(*net)?;
    }
    Ok(())
}

/// Puts flip-flops at the end.
pub fn add_flops(all: &mut List<Flop>, from: &[Flop]) -> Result<(), NoMemory>
    ensures { OnOk result (all.new ≡ all.old ++ from.now) }
{
    'flops: for flop in from {
        all.push(*flop)?;
    }
    Ok(())
}

/// Puts nets at the end of a gate's inputs.
fn add_terms(all: &mut Terms, from: &[NetId]) -> Result<(), NoMemory>
    ensures { OnOk result (all.new ≡ all.old ++ from.now) }
{
    'nets: for net in from {
        all.push(*net)?;
    }
    Ok(())
}

/// A gate once more.
fn gate(alloc: Global, from: &Gate) -> Result<Gate, NoMemory>
    ensures { IfOk result (λ g. g ≡ from.now) }
{
    let mut ins = Terms::new(alloc);
    add_terms(&mut ins, from.ins.slice())?;
    Ok(Gate {
        kind: from.kind,
        out: from.out,
        ins,
    })
}

/// Puts gates at the end.
pub fn add_gates(alloc: Global, all: &mut List<Gate>, from: &[Gate]) -> Result<(), NoMemory>
    ensures { OnOk result (all.new ≡ all.old ++ from.now) }
{
    'gates: for one in from {
        let copy = gate(alloc, one)?;
        all.push(copy)?;
    }
    Ok(())
}
