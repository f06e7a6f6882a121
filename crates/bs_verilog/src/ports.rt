//! The nets of ports and of supplies.
ghost use Rattle.std.specs.Prelude.{◌≡◌, ◌<◌, ◌≤◌, ◌++◌, [], ◌∷◌, length, Ok, Some, map};
ghost use Rattle.std.specs.List.{flat_map};
ghost use Rattle.bs_verilog_scope.specs.Checking.{looked};
ghost use Rattle.bs_verilog.specs.Netlist as spec;
ghost use Rattle.bs_bits.specs.Reading.{Answers};
ghost use Rattle.bs_verilog_syntax.specs.declared.fault.VerilogFault.TheVariants.{NoMemory as want};

use bs_bits::List;
use bs_lex::{Name, NameTable};
use bs_net::{Const, Names, NetId};
use bs_verilog_scope::{Scope, direction_of, entry, known_net, nets_of};
use bs_verilog_syntax::{Declared, Direction, Net, VerilogFault};
use std::alloc::Global;

fn is_towards(direction: Direction, of: Option<Direction>) -> bool
    ensures { result ≡ spec.is_towards direction of }
{
    match direction {
        Direction::Input => match of {
            Some(Direction::Input) => true,
            Some(Direction::Output) => false,
            None => false,
        },
        Direction::Output => match of {
            Some(Direction::Input) => false,
            Some(Direction::Output) => true,
            None => false,
        },
    }
}

fn add_nets(into: &mut List<NetId>, nets: &[NetId]) -> Result<(), VerilogFault>
    ensures { Answers want (λ _. into.new) result (Ok (into.old ++ nets.now)) }
{
    'nets: for net in nets {
        into.push(*net)?;
    }
    Ok(())
}

/// Adds the bits of a port, where it has this direction.
#[tactic(auto, unfolding(crate::specs::Netlist::port_bits))]
fn add_port(
    alloc: Global,
    ports: &mut List<NetId>,
    direction: Direction,
    table: &NameTable,
    scope: &Scope,
    names: &Names,
    name: Name,
) -> Result<(), VerilogFault>
    ensures { Answers want (λ _. ports.new) result (Ok (ports.old ++ spec.port_bits direction table.now (looked scope.now) names.now name)) }
{
    let says = entry(scope, name.id);
    if !is_towards(direction, direction_of(says)) {
        return Ok(());
    }
    let net = known_net(scope, name);
    let nets = nets_of(alloc, names, table.text(net.name), net.range)?;
    add_nets(ports, &nets)
}

/// The port bits of one direction, in header order.
pub fn port_nets(
    alloc: Global,
    direction: Direction,
    table: &NameTable,
    scope: &Scope,
    names: &Names,
    header: &[Name],
) -> Result<List<NetId>, VerilogFault>
    ensures { Answers want (λ l. l) result (Ok (spec.port_nets direction table.now (looked scope.now) names.now header.now)) }
{
    let mut ports = List::new(alloc);
    'ports: for name in header {
        add_port(alloc, &mut ports, direction, table, scope, names, *name)?;
    }
    Ok(ports)
}

fn supplied(net: Option<Net>) -> Option<bool>
    ensures { result ≡ spec.supplied net }
{
    match net {
        Some(Net::Supply0) => Some(false),
        Some(Net::Supply1) => Some(true),
        Some(Net::Wire) => None,
        None => None,
    }
}

fn add_consts(consts: &mut List<Const>, nets: &[NetId], value: bool) -> Result<(), VerilogFault>
    ensures { Answers want (λ _. consts.new) result (Ok (consts.old ++ spec.consts_of value nets.now)) }
{
    'nets: for net in nets {
        consts.push(Const { net: *net, value })?;
    }
    Ok(())
}

/// Adds the constants that a declared name is, if it is a supply.
#[tactic(auto, unfolding(crate::specs::Netlist::supply_consts))]
fn add_supply(
    alloc: Global,
    consts: &mut List<Const>,
    table: &NameTable,
    names: &Names,
    d: Declared,
) -> Result<(), VerilogFault>
    ensures { Answers want (λ _. consts.new) result (Ok (consts.old ++ spec.supply_consts table.now names.now d)) }
{
    match supplied(d.says.net) {
        Some(value) => {
            let nets = nets_of(alloc, names, table.text(d.name), d.says.range)?;
            add_consts(consts, &nets, value)
        }
        None => Ok(()),
    }
}

/// The constants that the declared supplies are, in file order.
pub fn supplies(
    alloc: Global,
    table: &NameTable,
    names: &Names,
    declared: &[Declared],
) -> Result<List<Const>, VerilogFault>
    ensures { Answers want (λ l. l) result (Ok (flat_map (spec.supply_consts table.now names.now) declared.now)) }
{
    let mut consts = List::new(alloc);
    'declared: for d in declared {
        add_supply(alloc, &mut consts, table, names, *d)?;
    }
    Ok(consts)
}
