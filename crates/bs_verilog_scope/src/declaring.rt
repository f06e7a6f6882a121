//! The third pass: which names a module declares, and its nets.
ghost use Rattle.std.specs.Prelude.{◌≡◌, ◌<◌, ◌≤◌, ℕ, None};
ghost use Rattle.bs_verilog_scope.specs.Checking.{Checks, looked, marked};
ghost use Rattle.bs_verilog_scope.specs.Declaring as spec;

use crate::numbering::{Known, first_over, known_nets};
use crate::redeclaring::{bare_fault, header_marks, scope_of, stray_fault, wide_fault};
use crate::tables::{NameMarks, Scope};
use bs_bits::List;
use bs_lex::{Name, NameTable};
use bs_verilog_syntax::{Declared, Module, VerilogFault};
use std::alloc::Global;

/// What a module declares: what is said of each name, and the nets in the order of their numbers.
#[derive(Drop)]
pub struct Declarations {
    pub scope: Scope,
    pub nets: List<Known>,
}

fn many_fault(table: &NameTable, nets: &[Known]) -> Option<VerilogFault>
    ensures { result ≡ spec.many_fault table.now nets.now }
{
    first_over(table, nets).map(|net| VerilogFault::TooManyNets(net.name.at))
}

fn none_of(fault: Option<VerilogFault>) -> Result<(), VerilogFault>
    ensures { Checks result fault (λ _. fault ≡ None) }
{
    match fault {
        Some(found) => Err(found),
        None => Ok(()),
    }
}

/// The nets of names that are declared at most once each, or the first fault of ports, bounds and their count.
#[tactic(auto, unfolding(crate::specs::Declaring::naming_fault))]
fn named(
    alloc: Global,
    table: &NameTable,
    marks: &NameMarks,
    scope: &Scope,
    header: &[Name],
    declared: &[Declared],
) -> Result<List<Known>, VerilogFault>
    ensures { Checks result (spec.naming_fault table.now (marked marks.now) (looked scope.now) header.now declared.now) (λ nets. (nets ≡ spec.nets_in (looked scope.now) (marked marks.now) header.now declared.now) × (spec.many_fault table.now nets ≡ None)) }
{
    none_of(stray_fault(marks, declared))?;
    none_of(bare_fault(scope, header))?;
    none_of(wide_fault(declared))?;
    let nets = known_nets(alloc, scope, marks, header, declared)?;
    none_of(many_fault(table, nets.slice()))?;
    Ok(nets)
}

/// What a module declares whose names have these marks, where no name of its header stands twice.
fn declared_with(
    alloc: Global,
    table: &NameTable,
    marks: &NameMarks,
    header: &[Name],
    declared: &[Declared],
) -> Result<Declarations, VerilogFault>
    ensures { Checks result (spec.declared_fault table.now (marked marks.now) header.now declared.now) (λ d. (looked d.scope ≡ spec.said declared.now) × (d.nets ≡ spec.nets_in (looked d.scope) (marked marks.now) header.now declared.now) × (spec.many_fault table.now d.nets ≡ None)) }
{
    let scope = scope_of(alloc, declared)?;
    match named(alloc, table, marks, &scope, header, declared) {
        Ok(nets) => Ok(Declarations { scope, nets }),
        Err(fault) => {
            drop(scope);
            Err(fault)
        }
    }
}

/// What a module declares, or the first fault of its declarations.
#[tactic(auto, unfolding(crate::specs::Declaring::declaring_fault))]
pub fn declare(alloc: Global, table: &NameTable, top: &Module) -> Result<Declarations, VerilogFault>
    ensures { Checks result (spec.declaring_fault table.now top.now) (λ d. (looked d.scope ≡ spec.said top.now.declared) × (d.nets ≡ spec.known_nets top.now) × (spec.many_fault table.now d.nets ≡ None)) }
{
    let header = top.header.slice();
    let declared = top.declared.slice();
    let marks = header_marks(alloc, header)?;
    let declarations = declared_with(alloc, table, &marks, header, declared);
    drop(marks);
    declarations
}
