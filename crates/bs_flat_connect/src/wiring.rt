//! All the nets of a module: its own, and those that its connections add.
ghost use Rattle.std.specs.Prelude.{◌≡◌, IfOk};
ghost use Rattle.bs_verilog_scope.specs.Checking.{looked};
ghost use Rattle.bs_verilog_scope.specs.Declaring as declaring;
ghost use Rattle.bs_flat_meaning.specs.Connecting.{with_terms};
ghost use Rattle.bs_flat_connect.specs.Growing.{bare, bare_of, terms_in};
ghost use Rattle.bs_flat_connect.specs.Wiring as spec;

use crate::growing::{ModuleNets, add_instances, own_made};
use crate::naming::said;
use crate::nets::Keys;
use crate::spans::{Spans, spans_of};
use bs_bits::{List, NoMemory};
use bs_flat_meaning::Written;
use bs_flat_modules::Own;
use bs_lex::NameTable;
use bs_net::Const;
use bs_verilog_scope::Scope;
use std::alloc::Global;

/// The nets of a module with those of its connections, its constants, and of each declared name what is said of it, and the first
/// of its nets where these stand side by side.
#[derive(Drop)]
pub struct Wiring {
    pub keys: Keys,
    pub consts: List<Const>,
    pub scope: Scope,
    pub spans: Spans,
}

/// The keys and the constants of a module with these instances.
fn made(
    alloc: Global,
    table: &NameTable,
    own: &Own,
    scope: &Scope,
    written: &[Written],
) -> Result<ModuleNets, NoMemory>
    ensures { IfOk result (λ m. bare m ≡ with_terms table.now (looked scope.now) (bare_of own.now.parts.names own.now.parts.consts) (terms_in written.now)) }
{
    let mut made = own_made(alloc, &own.parts.names, own.parts.consts.slice())?;
    match add_instances(alloc, &mut made, table, scope, written) {
        Ok(()) => Ok(made),
        Err(want) => {
            drop(made);
            Err(want)
        }
    }
}

/// The wiring of a module with these instances, by what is said of its names and by its nets.
fn wiring_of(
    alloc: Global,
    table: &NameTable,
    own: &Own,
    _written: &[Written],
    scope: Scope,
    nets: ModuleNets,
) -> Result<Wiring, NoMemory>
    requires scope { looked scope ≡ declaring.said own.now.says.declared }
    requires nets { bare nets ≡ with_terms table.now (looked scope) (bare_of own.now.parts.names own.now.parts.consts) (terms_in _written.now) }
    ensures { IfOk result (λ w. spec.IsWiringOf table.now (spec.read_of own.now _written.now) w) }
{
    match spans_of(alloc, table, &nets.keys, &scope, own.says.declared.slice()) {
        Ok(spans) => Ok(Wiring {
            keys: nets.keys,
            consts: nets.consts,
            scope,
            spans,
        }),
        Err(want) => {
            drop(scope);
            drop(nets);
            Err(want)
        }
    }
}

/// The wiring of a module with these instances.
pub fn wire(
    alloc: Global,
    table: &NameTable,
    own: &Own,
    written: &[Written],
) -> Result<Wiring, NoMemory>
    ensures { IfOk result (λ w. spec.IsWiringOf table.now (spec.read_of own.now written.now) w) }
{
    let scope = said(alloc, own.says.declared.slice())?;
    match made(alloc, table, own, &scope, written) {
        Ok(nets) => wiring_of(alloc, table, own, written, scope, nets),
        Err(want) => {
            drop(scope);
            Err(want)
        }
    }
}
