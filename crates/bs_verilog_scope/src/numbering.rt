//! The declared nets and their numbers.
ghost use Rattle.std.specs.Prelude.{◌≡◌, ◌<◌, ◌≤◌, ◌+◌, ◌++◌, ℕ, List, [], length, Ok, IfOk, map, filter, not};
ghost use Rattle.std.specs.List.{flat_map};
ghost use Rattle.bs_verilog_scope.specs.Checking.{Checks, looked, marked};
ghost use Rattle.bs_verilog_scope.specs.Keys as keys_spec;
ghost use Rattle.bs_net.specs.declared.limits.TheConstants.{MAX_NETS};
ghost use Rattle.bs_verilog_scope.specs.Declaring as spec;
ghost use Rattle.bs_verilog_scope.specs.Nets.{with_keys};
ghost use Rattle.bs_bits.specs.Reading.{Answers};
ghost use Rattle.bs_verilog_syntax.specs.declared.fault.VerilogFault.TheVariants.{NoMemory as want};

use crate::keys::{bit_key, index_at, scalar_key, width};
use crate::redeclaring::{entry, is_marked};
use crate::tables::{NameMarks, Scope};
use bs_bits::List;
use bs_lex::{Name, NameTable};
use bs_net::{MAX_NETS, Names};
use bs_verilog_syntax::{Declared, Range, Says, VerilogFault};
use std::alloc::Global;

/// A net that a module declares: its name, where that is numbered, and its range.
#[derive(Clone, Copy)]
pub struct Known {
    pub name: Name,
    pub range: Option<Range>,
}

fn range_of(says: Option<Says>) -> Option<Range>
    ensures { result ≡ spec.range_of says }
{
    match says {
        Some(said) => said.range,
        None => None,
    }
}

/// A declared net by its name.
pub fn known_net(scope: &Scope, name: Name) -> Known
    ensures { result ≡ spec.known (looked scope.now) name }
{
    Known {
        name,
        range: range_of(entry(scope, name.id)),
    }
}

/// Adds the header's ports.
fn add_ports(nets: &mut List<Known>, scope: &Scope, header: &[Name]) -> Result<(), VerilogFault>
    ensures { Answers want (λ _. nets.new) result (Ok (nets.old ++ map (spec.known (looked scope.now)) header.now)) }
{
    'ports: for name in header {
        nets.push(known_net(scope, *name))?;
    }
    Ok(())
}

/// Adds the declared names that are no ports.
fn add_others(
    nets: &mut List<Known>,
    scope: &Scope,
    marks: &NameMarks,
    declared: &[Declared],
) -> Result<(), VerilogFault>
    ensures { Answers want (λ _. nets.new) result (Ok (nets.old ++ map (λ d. spec.known (looked scope.now) d.name) (filter (λ d. not (marked marks.now d.name.id)) declared.now))) }
{
    'declared: for d in declared {
        if !is_marked(marks, d.name.id) {
            nets.push(known_net(scope, d.name))?;
        }
    }
    Ok(())
}

/// The header's ports in header order, and then the other declared names in file order.
pub fn known_nets(
    alloc: Global,
    scope: &Scope,
    marks: &NameMarks,
    header: &[Name],
    declared: &[Declared],
) -> Result<List<Known>, VerilogFault>
    ensures { Answers want (λ nets. nets) result (Ok (spec.nets_in (looked scope.now) (marked marks.now) header.now declared.now)) }
{
    let mut nets = List::new(alloc);
    add_ports(&mut nets, scope, header)?;
    add_others(&mut nets, scope, marks, declared)?;
    Ok(nets)
}

/// How many bits a net has.
#[tactic(auto, unfolding(crate::specs::Keys::keys))]
fn bits_of(range: Option<Range>) -> usize
    ensures count { (name : List ℕ) → result ≡ length (keys_spec.keys name range) }
    ensures few { result ≤ 4294967296 }
{
    match range {
        None => 1,
        Some(r) => width(r),
    }
}

/// The net by which the count of nets passes `MAX_NETS`.
pub fn first_over(table: &NameTable, nets: &[Known]) -> Option<Known>
    ensures { result ≡ spec.first_over table.now 0 nets.now }
{
    let mut count = 0;
    'nets: for net in nets {
        count = count + bits_of(net.range);
        if (MAX_NETS as usize) < count {
            return Some(*net);
        }
    }
    None
}

/// Numbers the bits of a vector.
fn add_bits(alloc: Global, names: &mut Names, name: &str, range: Range) -> Result<(), VerilogFault>
    requires { length names.old + length (keys_spec.keys name.now (Some range)) ≤ MAX_NETS }
    ensures made { Answers want (λ _. names.new) result (Ok (with_keys names.old (keys_spec.keys name.now (Some range)))) }
{
    let count = width(range);
    'bits: for bit in 0..count {
        let key = bit_key(alloc, name, index_at(range, bit))?;
        names.add(alloc, &key)?;
    }
    Ok(())
}

/// Numbers the bits of a net.
fn add_net(
    alloc: Global,
    names: &mut Names,
    name: &str,
    range: Option<Range>,
) -> Result<(), VerilogFault>
    requires { length names.old + length (keys_spec.keys name.now range) ≤ MAX_NETS }
    ensures made { Answers want (λ _. names.new) result (Ok (with_keys names.old (keys_spec.keys name.now range))) }
{
    match range {
        None => {
            let key = scalar_key(alloc, name)?;
            names.add(alloc, &key)?;
            Ok(())
        }
        Some(r) => add_bits(alloc, names, name, r),
    }
}

/// The names of the declared nets, in the order of their numbers.
pub fn numbered(alloc: Global, table: &NameTable, nets: &[Known]) -> Result<Names, VerilogFault>
    requires { spec.first_over table.now 0 nets.now ≡ None }
    ensures { Answers want (λ names. names) result (Ok (with_keys [] (flat_map (spec.keys_of table.now) nets.now))) }
{
    let mut names = Names::new(alloc);
    'nets: for net in nets {
        add_net(alloc, &mut names, table.text(net.name), net.range)?;
    }
    Ok(names)
}
