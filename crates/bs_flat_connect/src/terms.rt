//! The nets of terms.
ghost use Rattle.std.specs.Prelude.{◌≡◌, [], ◌∷◌, Some, IfOk};
ghost use Rattle.bs_verilog_syntax.specs.declared.tree.Term.TheVariants.{Named};
ghost use Rattle.bs_verilog_scope.specs.Keys as keys_spec;
ghost use Rattle.bs_flat_meaning.specs.Connecting as flat;
ghost use Rattle.bs_flat_connect.specs.Wiring as spec;

use crate::naming::{bit_count, scalar, vector_bit};
use crate::nets::Keys;
use crate::wiring::Wiring;
use bs_bits::NoMemory;
use bs_lex::{Name, NameTable};
use bs_verilog_scope::{constant_key, entry, has_index};
use bs_verilog_syntax::{Range, Term};
use std::alloc::Global;

/// Nets side by side: the number of the first, and how many they are.
#[derive(Clone, Copy)]
pub struct NetRange {
    pub first: u32,
    pub width: usize,
}

/// The net of a key. A key that is not there, as no text has one, is answered as out of memory.
fn key_net(keys: &Keys, key: &str) -> Result<Option<NetRange>, NoMemory>
    ensures { IfOk result (λ s. spec.AreNets keys.now (Some (key.now ∷ [])) s) }
{
    match keys.number(key) {
        Some(net) => Ok(Some(NetRange {
            first: net.0,
            width: 1,
        })),
        None => Err(NoMemory),
    }
}

/// The net of a name of one bit.
fn scalar_net(alloc: Global, keys: &Keys, name: &str) -> Result<Option<NetRange>, NoMemory>
    ensures { IfOk result (λ s. spec.AreNets keys.now (Some (keys_spec.scalar_key name.now ∷ [])) s) }
{
    let key = scalar(alloc, name)?;
    let net = key_net(keys, &key)?;
    Ok(net)
}

/// The net of a vector's bit.
fn bit_net(alloc: Global, keys: &Keys, name: &str, index: u32) -> Result<Option<NetRange>, NoMemory>
    ensures { IfOk result (λ s. spec.AreNets keys.now (Some (keys_spec.bit_key name.now index ∷ [])) s) }
{
    let key = vector_bit(alloc, name, index)?;
    let net = key_net(keys, &key)?;
    Ok(net)
}

/// The net of a bit of a declared name, if it has that bit.
fn indexed_net(
    alloc: Global,
    keys: &Keys,
    name: &str,
    range: Option<Range>,
    index: u32,
) -> Result<Option<NetRange>, NoMemory>
    ensures { IfOk result (λ s. spec.AreNets keys.now (flat.indexed_keys name.now range index) s) }
{
    match range {
        Some(range) => {
            if has_index(range, index) {
                bit_net(alloc, keys, name, index)
            } else {
                Ok(None)
            }
        }
        None => Ok(None),
    }
}

/// The nets of a declared name. That they do not stand side by side, as in no text, is answered as out of memory.
fn whole_nets(range: Option<Range>, span: Option<u32>) -> Result<Option<NetRange>, NoMemory>
    ensures { IfOk result (λ s. spec.IsStretch range span s) }
{
    match span {
        Some(first) => Ok(Some(NetRange {
            first,
            width: bit_count(range),
        })),
        None => Err(NoMemory),
    }
}

/// The nets of a declared name, whole or of one bit.
fn declared_nets(
    alloc: Global,
    keys: &Keys,
    name: &str,
    range: Option<Range>,
    index: Option<u32>,
    span: Option<u32>,
) -> Result<Option<NetRange>, NoMemory>
    ensures { IfOk result (λ s. spec.TellsDeclared keys.now name.now range index span s) }
{
    match index {
        Some(index) => {
            let net = indexed_net(alloc, keys, name, range, index)?;
            Ok(net)
        }
        None => {
            let nets = whole_nets(range, span)?;
            Ok(nets)
        }
    }
}

/// The net of a name that is not declared; none where it has an index.
fn undeclared_net(
    alloc: Global,
    keys: &Keys,
    name: &str,
    index: Option<u32>,
) -> Result<Option<NetRange>, NoMemory>
    ensures { IfOk result (λ s. spec.AreNets keys.now (flat.undeclared_keys name.now index) s) }
{
    match index {
        Some(_) => Ok(None),
        None => scalar_net(alloc, keys, name),
    }
}

/// The nets of a name, whole or of one bit.
fn named_nets(
    alloc: Global,
    table: &NameTable,
    wiring: &Wiring,
    name: Name,
    index: Option<u32>,
) -> Result<Option<NetRange>, NoMemory>
    ensures { IfOk result (λ s. spec.TellsTerm table.now wiring.now (Named name index) s) }
{
    let text = table.text(name);
    match entry(&wiring.scope, name.id) {
        Some(says) => {
            let span = wiring.spans.first(name.id);
            let nets = declared_nets(alloc, &wiring.keys, text, says.range, index, span)?;
            Ok(nets)
        }
        None => {
            let net = undeclared_net(alloc, &wiring.keys, text, index)?;
            Ok(net)
        }
    }
}

/// The net of a constant.
fn constant_net(keys: &Keys, bit: bool) -> Result<Option<NetRange>, NoMemory>
    ensures { IfOk result (λ s. spec.AreNets keys.now (Some (keys_spec.constant_key bit ∷ [])) s) }
{
    let key = constant_key(bit);
    let net = key_net(keys, key)?;
    Ok(net)
}

/// The nets of the bits for which a term stands, from left to right; none where its index names no bit.
pub(crate) fn term_nets(
    alloc: Global,
    table: &NameTable,
    wiring: &Wiring,
    term: Term,
) -> Result<Option<NetRange>, NoMemory>
    ensures { IfOk result (λ s. spec.TellsTerm table.now wiring.now term s) }
{
    match term {
        Term::Constant(_, bit) => {
            let net = constant_net(&wiring.keys, bit)?;
            Ok(net)
        }
        Term::Named(name, index) => {
            let nets = named_nets(alloc, table, wiring, name, index)?;
            Ok(nets)
        }
    }
}
