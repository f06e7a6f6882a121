//! The connections of an instance, each with its port.
ghost use Rattle.std.specs.Prelude.{◌≡◌, ◌++◌, ℕ, false, nat_eq, IfOk, OnOk};
ghost use Rattle.std.specs.HashSet.{contains};
ghost use Rattle.bs_flat_connect.specs.Matching as spec;

use crate::ports::{Port, Ports};
use bs_bits::{List, NoMemory};
use bs_lex::Name;
use bs_verilog_syntax::{Connection, PackedConnection, Term};
use std::alloc::Global;
use std::collections::HashSet;

/// A connection: the place of its pin, where that is refused, its term, if it has one, and its port, if there is one.
#[derive(Clone, Copy)]
pub struct Matched {
    pub refused: Option<u32>,
    pub term: Option<Term>,
    pub port: Option<Port>,
}

/// The port with a name, if there is one.
fn port_with(ports: &Ports, id: u32) -> Option<Port>
    ensures { result ≡ spec.port_with ports.now.ids.keys ports.now.ports id }
{
    match ports.index_of(id) {
        Some(place) => ports.at(place),
        None => None,
    }
}

/// The term of a connection by place.
fn term_by_place(connection: Connection) -> Option<Term>
    ensures { result ≡ spec.term_by_place connection }
{
    match connection {
        Connection::Place(term) => Some(term),
        Connection::Empty => None,
        Connection::Pin(_, _) => None,
    }
}

/// A connection by place with its port.
fn by_place(port: Option<Port>, connection: Connection) -> Matched
    ensures { result ≡ spec.by_place port connection }
{
    Matched {
        refused: None,
        term: term_by_place(connection),
        port,
    }
}

/// The place of a pin that has no port, or stands before.
fn refused_pin(pin: Name, has_port: bool, is_second: bool) -> Option<u32>
    ensures { result ≡ spec.refused_pin pin has_port is_second }
{
    if !has_port || is_second {
        Some(pin.at)
    } else {
        None
    }
}

/// A connection by pin with its port.
fn by_pin(ports: &Ports, pin: Name, is_second: bool, term: Option<Term>) -> Matched
    ensures { result ≡ spec.by_pin ports.now.ids.keys ports.now.ports is_second pin term }
{
    let port = port_with(ports, pin.id);
    Matched {
        refused: refused_pin(pin, port.is_some(), is_second),
        term,
        port,
    }
}

/// The connections with the ports in order.
fn by_places(
    alloc: Global,
    ports: &Ports,
    connections: &[PackedConnection],
) -> Result<List<Matched>, NoMemory>
    ensures { IfOk result (λ all. all ≡ spec.places_from ports.now.ports 0 connections.now) }
{
    let mut all = List::new(alloc);
    'connections: for (place, connection) in connections.iter().enumerate() {
        all.push(by_place(ports.at(place), connection.get()))?;
    }
    Ok(all)
}

/// Adds a connection by pin, if it is one. `given` has the names of the pins before.
fn add_pin(
    ports: &Ports,
    given: &mut HashSet<u32>,
    all: &mut List<Matched>,
    connection: Connection,
) -> Result<(), NoMemory>
    ensures adds { OnOk result (all.new ≡ all.old ++ spec.pin_of ports.now.ids.keys ports.now.ports (λ id. contains nat_eq given.old id) connection) }
    ensures given { OnOk result ((id : ℕ) → contains nat_eq given.new id ≡ spec.given_with (λ pin. contains nat_eq given.old pin) connection id) }
{
    if let Connection::Pin(pin, term) = connection {
        let is_new = given.insert(pin.id)?;
        all.push(by_pin(ports, pin, !is_new, term))?;
    }
    Ok(())
}

/// The connections by pin.
fn by_pins(
    alloc: Global,
    ports: &Ports,
    connections: &[PackedConnection],
) -> Result<List<Matched>, NoMemory>
    ensures { IfOk result (λ all. all ≡ spec.pins_from ports.now.ids.keys ports.now.ports (λ id. false) connections.now) }
{
    let mut given = HashSet::new(alloc);
    let mut all = List::new(alloc);
    'connections: for connection in connections {
        add_pin(ports, &mut given, &mut all, connection.get())?;
    }
    Ok(all)
}

/// Whether connections begin with a pin.
fn has_pins(connections: &[PackedConnection]) -> bool
    ensures { result ≡ spec.has_pins connections.now }
{
    match connections.first() {
        Some(first) => is_pin(first.get()),
        None => false,
    }
}

fn is_pin(connection: Connection) -> bool
    ensures { result ≡ spec.is_pin connection }
{
    match connection {
        Connection::Pin(_, _) => true,
        Connection::Empty => false,
        Connection::Place(_) => false,
    }
}

/// The connections of an instance of a module with these ports, each with its port.
pub fn match_ports(
    alloc: Global,
    ports: &Ports,
    connections: &[PackedConnection],
) -> Result<List<Matched>, NoMemory>
    ensures { IfOk result (λ all. spec.AreMatched ports.now connections.now all) }
{
    if has_pins(connections) {
        by_pins(alloc, ports, connections)
    } else {
        by_places(alloc, ports, connections)
    }
}
