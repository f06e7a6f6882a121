//! The fourth pass: gates, flip-flops and constants.
ghost use Rattle.std.specs.Prelude.{◌≡◌, ◌<◌, ◌≤◌, ◌-◌, ◌++◌, [], ◌∷◌, length, Ok, map, take, drop};
ghost use Rattle.bs_verilog_scope.specs.Checking.{looked};
ghost use Rattle.bs_verilog.specs.Building as spec;
ghost use Rattle.bs_bits.specs.Reading.{Answers};
ghost use Rattle.bs_verilog_syntax.specs.declared.fault.VerilogFault.TheVariants.{NoMemory as want};

use crate::pins::{Control, Pins, cell_pins, is_assignment, is_gate, is_single};
use crate::placing::{NetTable, connection_nets};
use crate::reset::starts_as_one;
use bs_bits::List;
use bs_lex::{Cell, NameTable};
use bs_net::{Flop, Gate, Kind, Mode, NetId, Terms};
use bs_verilog_scope::Scope;
use bs_verilog_syntax::{Component, PackedConnection, Shape, VerilogFault};
use std::alloc::Global;

/// What the parts so far have built.
#[derive(Drop)]
pub struct Built {
    pub made: NetTable,
    pub gates: List<Gate>,
    pub flops: List<Flop>,
}

fn net_at(nets: &[NetId], place: usize) -> NetId
    ensures { result ≡ spec.net_at nets.now place }
{
    nets.get(place).copied().unwrap_or(NetId(0))
}

fn one_term(alloc: Global, net: NetId) -> Result<Terms, VerilogFault>
    ensures { Answers want (λ t. t) result (Ok (net ∷ [])) }
{
    let mut terms = Terms::new(alloc);
    terms.push(net)?;
    Ok(terms)
}

fn terms_of(alloc: Global, nets: &[NetId]) -> Result<Terms, VerilogFault>
    ensures { Answers want (λ t. t) result (Ok nets.now) }
{
    let mut terms = Terms::new(alloc);
    'nets: for net in nets {
        terms.push(*net)?;
    }
    Ok(terms)
}

/// Adds one gate per output, each with the same input.
fn add_single_gates(
    alloc: Global,
    gates: &mut List<Gate>,
    kind: Kind,
    outputs: &[NetId],
    input: NetId,
) -> Result<(), VerilogFault>
    ensures { Answers want (λ _. gates.new) result (Ok (gates.old ++ map (λ out. record { kind = kind; out = out; ins = input ∷ [] }) outputs.now)) }
{
    'outputs: for out in outputs {
        let ins = one_term(alloc, input)?;
        gates.push(Gate {
            kind,
            out: *out,
            ins,
        })?;
    }
    Ok(())
}

/// The nets but the last.
fn all_but_last(nets: &[NetId]) -> &[NetId]
    ensures { result.now ≡ take (length nets.now - 1) nets.now }
{
    &nets[..nets.len().saturating_sub(1)]
}

/// The nets but the first.
fn all_but_first(nets: &[NetId]) -> &[NetId]
    ensures { result.now ≡ drop 1 nets.now }
{
    &nets[nets.len().min(1)..]
}

/// Adds the gates of a gate's nets.
#[tactic(auto, unfolding(crate::specs::Building::gates_of))]
fn add_gates(
    alloc: Global,
    gates: &mut List<Gate>,
    kind: Kind,
    nets: &[NetId],
) -> Result<(), VerilogFault>
    ensures { Answers want (λ _. gates.new) result (Ok (gates.old ++ spec.gates_of kind nets.now)) }
{
    if is_single(kind) {
        let input = net_at(nets, nets.len().saturating_sub(1));
        return add_single_gates(alloc, gates, kind, all_but_last(nets), input);
    }
    let ins = terms_of(alloc, all_but_first(nets))?;
    gates.push(Gate {
        kind,
        out: net_at(nets, 0),
        ins,
    })?;
    Ok(())
}

/// What the flip-flop of a cell with these nets loads.
fn mode_of(control: Control, nets: &[NetId]) -> Mode
    ensures { result ≡ spec.mode_of control nets.now }
{
    match control {
        Control::Plain => Mode::Plain,
        Control::Enable(place) => Mode::Enable(net_at(nets, place)),
        Control::Clear(place) => Mode::Clear(net_at(nets, place)),
    }
}

fn flop_of(cell: Cell, pins: Pins, nets: &[NetId]) -> Flop
    ensures { result ≡ spec.flop_of cell pins nets.now }
{
    Flop {
        q: net_at(nets, pins.output),
        d: net_at(nets, pins.input),
        ck: net_at(nets, pins.clock),
        reset: starts_as_one(cell),
        mode: mode_of(pins.control, nets),
    }
}

fn with_gates(
    alloc: Global,
    built: &mut Built,
    table: &NameTable,
    scope: &Scope,
    kind: Kind,
    cs: &[PackedConnection],
) -> Result<(), VerilogFault>
    ensures { Answers want (λ _. built.new) result (spec.with_gates table.now (looked scope.now) kind built.old cs.now) }
{
    let nets = connection_nets(alloc, &mut built.made, table, scope, cs)?;
    add_gates(alloc, &mut built.gates, kind, &nets)?;
    Ok(())
}

fn with_flop(
    alloc: Global,
    built: &mut Built,
    table: &NameTable,
    scope: &Scope,
    cell: Cell,
    pins: Pins,
    cs: &[PackedConnection],
) -> Result<(), VerilogFault>
    ensures { Answers want (λ _. built.new) result (spec.with_flop table.now (looked scope.now) cell pins built.old cs.now) }
{
    let nets = connection_nets(alloc, &mut built.made, table, scope, cs)?;
    built.flops.push(flop_of(cell, pins, &nets))?;
    Ok(())
}

/// Adds a gate, a cell or an assignment.
#[tactic(auto, unfolding(crate::specs::Building::with_part))]
fn with_part(
    alloc: Global,
    built: &mut Built,
    table: &NameTable,
    scope: &Scope,
    part: &Component,
) -> Result<(), VerilogFault>
    ensures { Answers want (λ _. built.new) result (spec.with_part table.now (looked scope.now) built.old part.now) }
{
    let cs = part.connections.slice();
    match part.shape {
        Shape::Gate(kind) => {
            if is_gate(kind, cs) {
                with_gates(alloc, built, table, scope, kind, cs)
            } else {
                Err(VerilogFault::Terminals(part.at))
            }
        }
        Shape::Cell(cell) => match cell_pins(table, cell, cs) {
            Some(pins) => with_flop(alloc, built, table, scope, cell, pins, cs),
            None => Err(VerilogFault::Terminals(part.at)),
        },
        Shape::Assign => {
            if is_assignment(cs) {
                with_gates(alloc, built, table, scope, Kind::Buf, cs)
            } else {
                Err(VerilogFault::Terminals(part.at))
            }
        }
    }
}

/// Adds the parts in file order.
pub fn with_parts(
    alloc: Global,
    built: &mut Built,
    table: &NameTable,
    scope: &Scope,
    parts: &[Component],
) -> Result<(), VerilogFault>
    ensures { Answers want (λ _. built.new) result (spec.with_parts table.now (looked scope.now) built.old parts.now) }
{
    'parts: for part in parts {
        with_part(alloc, built, table, scope, part)?;
    }
    Ok(())
}
