//! The ports of a module.
ghost use Rattle.std.specs.Prelude.{◌≡◌, ◌≤◌, ◌+◌, ◌==◌, [], ◌∷◌, ◌++◌, map, IfOk, OnOk, slice_get, position};
ghost use Rattle.bs_verilog_scope.specs.Checking.{looked};
ghost use Rattle.bs_verilog_scope.specs.Declaring as declaring;
ghost use Rattle.bs_verilog.specs.Netlist.{is_towards};
ghost use Rattle.bs_verilog_syntax.specs.declared.tree.Direction.TheVariants as directions;
ghost use Rattle.bs_flat_connect.specs.Ports as spec;

use crate::naming::{bit_count, said};
use bs_bits::{List, NoMemory};
use bs_flat_modules::Own;
use bs_lex::Name;
use bs_verilog_scope::{Scope, direction_of, entry, known_net};
use bs_verilog_syntax::{Direction, Says};
use indexmap::IndexSet;
use std::alloc::Global;

/// A port: the number of its first net, how many nets it has, and whether it is an output.
#[derive(Clone, Copy)]
pub struct Port {
    pub first: u32,
    pub width: u32,
    pub is_output: bool,
}

/// The ports of a module in the order of its header, and the number of each port's name.
#[derive(Drop)]
pub struct Ports {
    pub ids: IndexSet<u32>,
    pub ports: List<Port>,
}

impl Ports {
    /// The port at a place, from 0.
    pub fn at(&self, place: usize) -> Option<Port>
        ensures { result ≡ slice_get self.now.ports place }
    {
        self.ports.slice().get(place).copied()
    }

    /// The place of the port with this name.
    pub fn index_of(&self, id: u32) -> Option<usize>
        ensures { result ≡ position (λ k. k == id) self.now.ids.keys }
    {
        self.ids.get_index_of(&id)
    }

    /// Adds a port, whose name has no port yet. That it has one, as in no text, is answered as out of memory.
    fn add(&mut self, id: u32, port: Port) -> Result<(), NoMemory>
        ensures ids { OnOk result (self.new.ids.keys ≡ self.old.ids.keys ++ id ∷ []) }
        ensures ports { OnOk result (self.new.ports ≡ self.old.ports ++ port ∷ []) }
    {
        let (_, is_new) = self.ids.insert_full(id)?;
        if !is_new {
            return Err(NoMemory);
        }
        self.ports.push(port)?;
        Ok(())
    }
}

/// Whether a name is an output.
fn is_output(says: Option<Says>) -> bool
    ensures { result ≡ is_towards directions.Output (declaring.direction_of says) }
{
    match direction_of(says) {
        Some(Direction::Output) => true,
        Some(Direction::Input) => false,
        None => false,
    }
}

/// The port of a name, whose bits begin here. A net more than 2^32 - 1, as in no text, is answered as out of memory.
fn port_from(scope: &Scope, name: Name, first: u32) -> Result<Port, NoMemory>
    ensures port { IfOk result (λ p. p ≡ spec.port_from (looked scope.now) first name) }
    ensures few { IfOk result (λ p. p.first + p.width ≤ 4294967295) }
{
    let bits = bit_count(known_net(scope, name).range);
    if first as usize + bits > 4294967295 {
        return Err(NoMemory);
    }
    Ok(Port {
        first,
        width: bits as u32,
        is_output: is_output(entry(scope, name.id)),
    })
}

/// The ports of a header.
fn header_ports(alloc: Global, scope: &Scope, header: &[Name]) -> Result<Ports, NoMemory>
    ensures ids { IfOk result (λ p. p.ids.keys ≡ map (λ n. n.id) header.now) }
    ensures ports { IfOk result (λ p. p.ports ≡ spec.ports_in (looked scope.now) 0 header.now) }
{
    let mut ports = Ports {
        ids: IndexSet::new(alloc),
        ports: List::new(alloc),
    };
    let mut first: u32 = 0;
    'names: for name in header {
        let port = port_from(scope, *name, first)?;
        ports.add(name.id, port)?;
        first = port.first + port.width;
    }
    Ok(ports)
}

/// The ports of a module.
pub(crate) fn ports_of(alloc: Global, own: &Own) -> Result<Ports, NoMemory>
    ensures { IfOk result (λ p. spec.ArePortsOf own.now p) }
{
    let scope = said(alloc, own.says.declared.slice())?;
    let ports = header_ports(alloc, &scope, own.says.header.slice())?;
    Ok(ports)
}
