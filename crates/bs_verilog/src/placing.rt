//! The nets of terms.
ghost use Rattle.std.specs.Prelude.{◌≡◌, ◌<◌, ◌≤◌, ◌++◌, [], length, Ok, string_bytes};
ghost use Rattle.bs_verilog_scope.specs.Checking.{looked};
ghost use Rattle.bs_verilog_scope.specs.Keys as keys_spec;
ghost use Rattle.bs_verilog.specs.Building as spec;
ghost use Rattle.bs_bits.specs.Reading.{Answers};
ghost use Rattle.bs_verilog_syntax.specs.declared.fault.VerilogFault.TheVariants.{NoMemory as want};

use crate::pins::term_of;
use bs_bits::List;
use bs_lex::{Name, NameTable};
use bs_net::{Const, MAX_NETS, Names, NetId};
use bs_verilog_scope::{Scope, bit_key, constant_key, entry, has_index, net_of, scalar_key};
use bs_verilog_syntax::{PackedConnection, Range, Says, Term, VerilogFault, What};
use std::alloc::Global;

/// What the terms so far have made: the names in net order, and the constants.
#[derive(Drop)]
pub struct NetTable {
    pub names: Names,
    pub consts: List<Const>,
}

fn has_key(names: &Names, key: &str) -> bool
    ensures { result ≡ spec.has_key names.now key.now }
{
    names.number(key).is_some()
}

fn is_full(names: &Names, key: &str) -> bool
    ensures { result ≡ spec.is_full names.now key.now }
{
    let known = has_key(names, key);
    !known && MAX_NETS <= names.len()
}

#[tactic(auto, unfolding(crate::specs::Building::implicit_net))]
fn implicit_net(
    alloc: Global,
    made: &mut NetTable,
    key: &str,
    name: Name,
    index: Option<u32>,
) -> Result<NetId, VerilogFault>
    ensures { Answers want (λ net. (net, made.new)) result (spec.implicit_net key.now name index made.old) }
{
    if is_full(&made.names, key) {
        return Err(VerilogFault::TooManyNets(name.at));
    }
    if index.is_some() {
        return Err(VerilogFault::Index(name.at));
    }
    let net = made.names.add(alloc, key)?;
    Ok(net)
}

#[tactic(auto, unfolding(crate::specs::Building::declared_key))]
fn declared_key(
    alloc: Global,
    text: &str,
    range: Option<Range>,
    name: Name,
    index: Option<u32>,
) -> Result<String, VerilogFault>
    ensures { Answers want (λ key. string_bytes key) result (spec.declared_key text.now range name index) }
{
    match range {
        None => match index {
            None => scalar_key(alloc, text),
            Some(_) => Err(VerilogFault::Index(name.at)),
        },
        Some(r) => match index {
            Some(i) => {
                if has_index(r, i) {
                    bit_key(alloc, text, i)
                } else {
                    Err(VerilogFault::Index(name.at))
                }
            }
            None => {
                if r.left == r.right {
                    bit_key(alloc, text, r.left)
                } else {
                    Err(VerilogFault::Unsupported(name.at, What::Width))
                }
            }
        },
    }
}

#[tactic(auto, unfolding(crate::specs::Building::constant_net))]
fn constant_net(
    alloc: Global,
    made: &mut NetTable,
    at: u32,
    bit: bool,
) -> Result<NetId, VerilogFault>
    ensures { Answers want (λ net. (net, made.new)) result (spec.constant_net at bit made.old) }
{
    let key = constant_key(bit);
    if is_full(&made.names, key) {
        return Err(VerilogFault::TooManyNets(at));
    }
    if has_key(&made.names, key) {
        return Ok(net_of(&made.names, key));
    }
    let net = made.names.add(alloc, key)?;
    made.consts.push(Const { net, value: bit })?;
    Ok(net)
}

#[tactic(auto, unfolding(crate::specs::Building::named_net))]
fn named_net(
    alloc: Global,
    made: &mut NetTable,
    text: &str,
    says: Option<Says>,
    name: Name,
    index: Option<u32>,
) -> Result<NetId, VerilogFault>
    ensures { Answers want (λ net. (net, made.new)) result (spec.named_net text.now says name index made.old) }
{
    match says {
        Some(said) => {
            let key = declared_key(alloc, text, said.range, name, index)?;
            Ok(net_of(&made.names, &key))
        }
        None => {
            let key = scalar_key(alloc, text)?;
            implicit_net(alloc, made, &key, name, index)
        }
    }
}

#[tactic(auto, unfolding(crate::specs::Building::term_net))]
fn term_net(
    alloc: Global,
    made: &mut NetTable,
    table: &NameTable,
    scope: &Scope,
    term: Term,
) -> Result<NetId, VerilogFault>
    ensures { Answers want (λ net. (net, made.new)) result (spec.term_net table.now (looked scope.now) term made.old) }
{
    match term {
        Term::Constant(at, bit) => constant_net(alloc, made, at, bit),
        Term::Named(name, index) => {
            let says = entry(scope, name.id);
            named_net(alloc, made, table.text(name), says, name, index)
        }
    }
}

/// Adds the net of one connection, where it has a term.
#[tactic(auto, unfolding(crate::specs::Building::with_connection))]
fn place(
    alloc: Global,
    made: &mut NetTable,
    nets: &mut Vec<NetId>,
    table: &NameTable,
    scope: &Scope,
    c: &PackedConnection,
) -> Result<(), VerilogFault>
    ensures { Answers want (λ _. (nets.new.items, made.new)) result (spec.with_connection table.now (looked scope.now) (nets.old.items, made.old) c.now) }
{
    match term_of(c.get()) {
        Some(term) => {
            let net = term_net(alloc, made, table, scope, term)?;
            nets.push(net)?;
            Ok(())
        }
        None => Ok(()),
    }
}

/// The nets of connections, from left to right.
pub fn connection_nets(
    alloc: Global,
    made: &mut NetTable,
    table: &NameTable,
    scope: &Scope,
    cs: &[PackedConnection],
) -> Result<Vec<NetId>, VerilogFault>
    ensures { Answers want (λ nets. (nets.items, made.new)) result (spec.connection_nets table.now (looked scope.now) cs.now made.old) }
{
    let mut nets = Vec::new(alloc);
    'connections: for c in cs {
        place(alloc, made, &mut nets, table, scope, c)?;
    }
    Ok(nets)
}
