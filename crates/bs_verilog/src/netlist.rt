//! The parts of a netlist, from what a module says.
ghost use Rattle.std.specs.Prelude.{◌≡◌, ◌<◌, ◌≤◌, ◌^◌, ℕ, [], length, IfErr, IfOk, Ok, None, MatchResult};
ghost use Rattle.bs_net.specs.Netlist.{parts_of};
ghost use Rattle.bs_verilog_scope.specs.Checking.{looked};
ghost use Rattle.bs_verilog.specs.Placement.{AreShort, IsFinished, WillFinish};
ghost use Rattle.bs_verilog_scope.specs.Declaring as declaring_spec;
ghost use Rattle.bs_verilog.specs.Netlist as spec;
ghost use Rattle.bs_verilog_syntax.specs.declared.fault.VerilogFault.TheVariants.{NoMemory as OutOfMemory};
ghost use Rattle.bs_bits.specs.Reading.{Answers};
ghost use Rattle.bs_verilog_syntax.specs.declared.fault.VerilogFault.TheVariants.{NoMemory as want};
ghost use Rattle.bs_verilog_syntax.specs.declared.tree.Direction.TheVariants as directions;

use crate::building::{Built, with_parts};
use crate::placing::NetTable;
use crate::ports::{port_nets, supplies};
use bs_bits::List;
use bs_lex::{Name, NameTable};
use bs_net::{Names, NetId, Raw};
use bs_verilog_scope::{Known, Scope, declare, numbered};
use bs_verilog_syntax::{Component, Direction, Module, VerilogFault};
use std::alloc::Global;

/// A list of 2^32 members and more is past the memory that a text of 16 MiB can ask for.
fn short(count: usize) -> Result<(), VerilogFault>
    ensures { MatchResult result (λ _. count < 2 ^ 32) (λ fault. fault ≡ OutOfMemory) }
{
    if count <= 4294967295 {
        Ok(())
    } else {
        Err(VerilogFault::NoMemory)
    }
}

/// Each part has fewer than 2^32 connections.
fn short_parts(parts: &[Component]) -> Result<(), VerilogFault>
    ensures { MatchResult result (λ _. AreShort parts.now) (λ fault. fault ≡ OutOfMemory) }
{
    'parts: for part in parts {
        short(part.connections.len())?;
    }
    Ok(())
}

/// So many inputs, outputs, constants, gates and flip-flops are each fewer than 2^32.
fn are_short(
    inputs: usize,
    outputs: usize,
    consts: usize,
    gates: usize,
    flops: usize,
) -> Result<(), VerilogFault>
    ensures inputs { IfOk result (λ _. inputs < 2 ^ 32) }
    ensures outputs { IfOk result (λ _. outputs < 2 ^ 32) }
    ensures consts { IfOk result (λ _. consts < 2 ^ 32) }
    ensures gates { IfOk result (λ _. gates < 2 ^ 32) }
    ensures flops { IfOk result (λ _. flops < 2 ^ 32) }
    ensures refused { IfErr result (λ fault. fault ≡ OutOfMemory) }
{
    short(inputs)?;
    short(outputs)?;
    short(consts)?;
    short(gates)?;
    short(flops)?;
    Ok(())
}

/// The parts of a netlist.
fn raw_of(built: Built, inputs: List<NetId>, outputs: List<NetId>) -> Result<Raw, VerilogFault>
    requires { IsFinished built inputs outputs }
    ensures { Answers want parts_of result (Ok (spec.parts_with built inputs outputs)) }
{
    match are_short(
        inputs.len(),
        outputs.len(),
        built.made.consts.len(),
        built.gates.len(),
        built.flops.len(),
    ) {
        Ok(()) => Ok(Raw {
            names: built.made.names,
            inputs,
            outputs,
            consts: built.made.consts,
            gates: built.gates,
            flops: built.flops,
        }),
        Err(fault) => {
            drop(built);
            drop(inputs);
            drop(outputs);
            Err(fault)
        }
    }
}

/// What stands before the first part: the declared nets and the supplies.
fn start(
    alloc: Global,
    table: &NameTable,
    top: &Module,
    nets: &[Known],
) -> Result<Built, VerilogFault>
    requires nets { nets.now ≡ declaring_spec.known_nets top.now }
    requires few { declaring_spec.first_over table.now 0 nets.now ≡ None }
    ensures { Answers want (λ b. b) result (Ok (spec.start_of table.now top.now)) }
{
    let names = numbered(alloc, table, nets)?;
    match supplies(alloc, table, &names, top.declared.slice()) {
        Ok(consts) => Ok(Built {
            made: NetTable { names, consts },
            gates: List::new(alloc),
            flops: List::new(alloc),
        }),
        Err(fault) => {
            drop(names);
            Err(fault)
        }
    }
}

/// The nets of a module's ports, by direction.
#[derive(Drop)]
struct PortNets {
    inputs: List<NetId>,
    outputs: List<NetId>,
}

/// The nets of the ports that a header names.
fn all_port_nets(
    alloc: Global,
    table: &NameTable,
    scope: &Scope,
    names: &Names,
    header: &[Name],
) -> Result<PortNets, VerilogFault>
    ensures inputs { Answers want (λ p. p.inputs) result (Ok (spec.port_nets directions.Input table.now (looked scope.now) names.now header.now)) }
    ensures outputs { Answers want (λ p. p.outputs) result (Ok (spec.port_nets directions.Output table.now (looked scope.now) names.now header.now)) }
{
    let inputs = port_nets(alloc, Direction::Input, table, scope, names, header)?;
    let outputs = port_nets(alloc, Direction::Output, table, scope, names, header)?;
    Ok(PortNets { inputs, outputs })
}

/// What the parts build after what stands before them, with these ports.
fn finished_with(
    alloc: Global,
    table: &NameTable,
    scope: &Scope,
    _header: &[Name],
    parts: &[Component],
    start: Built,
    ports: PortNets,
) -> Result<Raw, VerilogFault>
    requires finish { WillFinish table.now (looked scope.now) _header.now parts.now start }
    requires inputs { spec.port_nets directions.Input table.now (looked scope.now) start.made.names _header.now ≡ ports.inputs }
    requires outputs { spec.port_nets directions.Output table.now (looked scope.now) start.made.names _header.now ≡ ports.outputs }
    ensures { Answers want parts_of result (spec.finished_of table.now (looked scope.now) _header.now parts.now start) }
{
    let mut built = start;
    match with_parts(alloc, &mut built, table, scope, parts) {
        Ok(()) => raw_of(built, ports.inputs, ports.outputs),
        Err(fault) => {
            drop(built);
            drop(ports);
            Err(fault)
        }
    }
}

/// What the parts build after what stands before them.
fn finished(
    alloc: Global,
    table: &NameTable,
    scope: &Scope,
    header: &[Name],
    parts: &[Component],
    start: Built,
) -> Result<Raw, VerilogFault>
    requires { WillFinish table.now (looked scope.now) header.now parts.now start }
    ensures { Answers want parts_of result (spec.finished_of table.now (looked scope.now) header.now parts.now start) }
{
    match all_port_nets(alloc, table, scope, &start.made.names, header) {
        Ok(ports) => finished_with(alloc, table, scope, header, parts, start, ports),
        Err(fault) => {
            drop(start);
            Err(fault)
        }
    }
}

/// What a module builds whose declarations are in order.
fn built(
    alloc: Global,
    table: &NameTable,
    top: &Module,
    scope: &Scope,
    nets: &[Known],
) -> Result<Raw, VerilogFault>
    requires scope { looked scope.now ≡ declaring_spec.said top.now.declared }
    requires nets { nets.now ≡ declaring_spec.known_nets top.now }
    requires few { declaring_spec.many_fault table.now nets.now ≡ None }
    ensures { Answers want parts_of result (spec.built_of table.now top.now) }
{
    let header = top.header.slice();
    let parts = top.parts.slice();
    short_parts(parts)?;
    let before = start(alloc, table, top, nets)?;
    finished(alloc, table, scope, header, parts, before)
}

/// The third pass, and the fourth.
#[tactic(auto, unfolding(crate::specs::Netlist::meaning_of))]
pub fn meaning(alloc: Global, table: &NameTable, top: &Module) -> Result<Raw, VerilogFault>
    ensures { Answers want parts_of result (spec.meaning_of table.now top.now) }
{
    let declarations = declare(alloc, table, top)?;
    built(
        alloc,
        table,
        top,
        &declarations.scope,
        declarations.nets.slice(),
    )
}
