//! The nets that the connections of a module's instances add to its own.
ghost use Rattle.std.specs.Prelude.{◌≡◌, [], ◌∷◌, OnOk, IfOk};
ghost use Rattle.std.specs.List.{flat_map};
ghost use Rattle.bs_verilog_scope.specs.Checking.{looked};
ghost use Rattle.bs_verilog_scope.specs.Keys as keys_spec;
ghost use Rattle.bs_verilog.specs.Terminals as terminals;
ghost use Rattle.bs_flat_meaning.specs.Connecting as spec;
ghost use Rattle.bs_flat_connect.specs.Growing as growing;

use crate::naming::scalar;
use crate::nets::Keys;
use bs_bits::{List, NoMemory};
use bs_flat_meaning::Written;
use bs_lex::NameTable;
use bs_net::{Const, Names, NetId};
use bs_verilog_scope::{Scope, constant_key, entry};
use bs_verilog_syntax::{Connection, PackedConnection, Term};
use std::alloc::Global;

/// The keys of a module and its constants.
#[derive(Drop)]
pub struct ModuleNets {
    pub keys: Keys,
    pub consts: List<Const>,
}

/// The keys of a module's own nets.
fn own_keys(alloc: Global, names: &Names) -> Result<Keys, NoMemory>
    ensures { IfOk result (λ k. k ≡ names.now) }
{
    let mut keys = Keys::new(alloc);
    'names: for i in 0..names.len() {
        keys.push(alloc, names.key(NetId(i)))?;
    }
    Ok(keys)
}

/// A module's own constants.
fn own_consts(alloc: Global, consts: &[Const]) -> Result<List<Const>, NoMemory>
    ensures { IfOk result (λ l. l ≡ consts.now) }
{
    let mut copy = List::new(alloc);
    'consts: for c in consts {
        copy.push(*c)?;
    }
    Ok(copy)
}

/// A module's own keys and constants.
pub fn own_made(alloc: Global, names: &Names, consts: &[Const]) -> Result<ModuleNets, NoMemory>
    ensures keys { IfOk result (λ m. m.keys ≡ names.now) }
    ensures consts { IfOk result (λ m. m.consts ≡ consts.now) }
{
    let keys = own_keys(alloc, names)?;
    match own_consts(alloc, consts) {
        Ok(consts) => Ok(ModuleNets { keys, consts }),
        Err(want) => {
            drop(keys);
            Err(want)
        }
    }
}

/// Adds a constant where it is new.
fn add_constant(alloc: Global, made: &mut ModuleNets, bit: bool) -> Result<(), NoMemory>
    ensures { OnOk result (growing.bare made.new ≡ growing.with_constant (growing.bare made.old) bit) }
{
    let key = constant_key(bit);
    if made.keys.number(key).is_some() {
        return Ok(());
    }
    let net = made.keys.append(alloc, key)?;
    made.consts.push(Const { net, value: bit })?;
    Ok(())
}

/// Adds the net of a name that is not declared.
fn add_name(alloc: Global, made: &mut ModuleNets, name: &str) -> Result<(), NoMemory>
    ensures { OnOk result (growing.bare made.new ≡ spec.with_net (growing.bare made.old) (keys_spec.scalar_key name.now)) }
{
    let key = scalar(alloc, name)?;
    made.keys.add(alloc, &key)?;
    Ok(())
}

/// Adds the net of a term where it is new.
fn add_term(
    alloc: Global,
    made: &mut ModuleNets,
    table: &NameTable,
    scope: &Scope,
    term: Term,
) -> Result<(), NoMemory>
    ensures { OnOk result (growing.bare made.new ≡ spec.with_term table.now (looked scope.now) (growing.bare made.old) term) }
{
    match term {
        Term::Constant(_, bit) => add_constant(alloc, made, bit),
        Term::Named(name, _) => match entry(scope, name.id) {
            Some(_) => Ok(()),
            None => add_name(alloc, made, table.text(name)),
        },
    }
}

/// The term of a connection, where it has one.
fn term_of(c: Connection) -> Option<Term>
    ensures { result ≡ terminals.term_of c }
{
    match c {
        Connection::Place(t) => Some(t),
        Connection::Pin(_, t) => t,
        Connection::Empty => None,
    }
}

/// Adds the net of a connection where it is new.
fn add_connection(
    alloc: Global,
    made: &mut ModuleNets,
    table: &NameTable,
    scope: &Scope,
    c: &PackedConnection,
) -> Result<(), NoMemory>
    ensures { OnOk result (growing.bare made.new ≡ growing.with_connection table.now (looked scope.now) (growing.bare made.old) c.now) }
{
    match term_of(c.get()) {
        Some(term) => add_term(alloc, made, table, scope, term),
        None => Ok(()),
    }
}

/// Adds the nets of an instance's connections.
fn add_connections(
    alloc: Global,
    made: &mut ModuleNets,
    table: &NameTable,
    scope: &Scope,
    cs: &[PackedConnection],
) -> Result<(), NoMemory>
    ensures { OnOk result (growing.bare made.new ≡ spec.with_terms table.now (looked scope.now) (growing.bare made.old) (spec.terms_of cs.now)) }
{
    'connections: for c in cs {
        add_connection(alloc, made, table, scope, c)?;
    }
    Ok(())
}

/// Adds the nets of the connections of all instances.
pub fn add_instances(
    alloc: Global,
    made: &mut ModuleNets,
    table: &NameTable,
    scope: &Scope,
    written: &[Written],
) -> Result<(), NoMemory>
    ensures { OnOk result (growing.bare made.new ≡ spec.with_terms table.now (looked scope.now) (growing.bare made.old) (growing.terms_in written.now)) }
{
    'instances: for instance in written {
        add_connections(alloc, made, table, scope, instance.connections.slice())?;
    }
    Ok(())
}
