//! The names whose nets stand side by side.
ghost use Rattle.std.specs.Prelude.{◌≡◌, ◌+◌, ◌<◌, ◌≤◌, ◌==◌, ◌++◌, ◌∷◌, ℕ, List, [], length, Some, true, false, IfNone, IfOk, IfSome, OnOk};
ghost use Rattle.bs_net.specs.Names.{number_of};
ghost use Rattle.bs_verilog_scope.specs.Checking.{looked};
ghost use Rattle.bs_verilog_scope.specs.Keys as keys_spec;
ghost use Rattle.bs_flat_connect.specs.Wiring as spec;

use crate::naming::{scalar, vector_bit};
use crate::nets::Keys;
use bs_bits::NoMemory;
use bs_lex::{Name, NameTable};
use bs_net::NetId;
use bs_verilog_scope::{Scope, entry, index_at, width};
use bs_verilog_syntax::{Declared, Range, Says};
use indexmap::IndexMap;
use std::alloc::Global;
use std::marker::Model;

/// Whether a net stands so far behind the first.
fn is_behind(net: NetId, first: u32, bit: usize) -> bool
    ensures { result ≡ (net.0 == first + bit) }
{
    first <= net.0 && (net.0 - first) as usize == bit
}

/// Whether a key has the net so far behind the first.
fn is_net(keys: &Keys, key: &str, first: u32, bit: usize) -> bool
    ensures { result ≡ spec.is_number (number_of keys.now key.now) (first + bit) }
{
    match keys.number(key) {
        Some(net) => is_behind(net, first, bit),
        None => false,
    }
}

/// Whether the nets of a vector's bits stand side by side from one on.
fn is_rising(
    alloc: Global,
    keys: &Keys,
    name: &str,
    range: Range,
    first: u32,
) -> Result<bool, NoMemory>
    ensures stand { IfOk result (λ b. b ≡ true → spec.StandFrom keys.now (keys_spec.keys name.now (Some range)) first) }
    ensures apart { IfOk result (λ b. b ≡ false → spec.AreInTurn keys.now (keys_spec.keys name.now (Some range)) first → ⊥) }
{
    let count = width(range);
    'bits: for bit in 0..count {
        let key = vector_bit(alloc, name, index_at(range, bit))?;
        if !is_net(keys, &key, first, bit) {
            return Ok(false);
        }
    }
    Ok(true)
}

/// The net of a name of one bit.
fn scalar_span(alloc: Global, keys: &Keys, name: &str) -> Result<Option<u32>, NoMemory>
    ensures some { IfOk result (λ o. IfSome o (λ first. spec.StandFrom keys.now (keys_spec.keys name.now None) first)) }
    ensures none { IfOk result (λ o. IfNone o (spec.AreInNoTurn keys.now (keys_spec.keys name.now None))) }
{
    let key = scalar(alloc, name)?;
    match keys.number(&key) {
        Some(net) => Ok(Some(net.0)),
        None => Ok(None),
    }
}

/// The first net of a vector, where its nets stand side by side.
fn vector_span(
    alloc: Global,
    keys: &Keys,
    name: &str,
    range: Range,
) -> Result<Option<u32>, NoMemory>
    ensures some { IfOk result (λ o. IfSome o (λ first. spec.StandFrom keys.now (keys_spec.keys name.now (Some range)) first)) }
    ensures none { IfOk result (λ o. IfNone o (spec.AreInNoTurn keys.now (keys_spec.keys name.now (Some range)))) }
{
    let key = vector_bit(alloc, name, index_at(range, 0))?;
    let first = keys.number(&key).unwrap_or(NetId(0)).0;
    if is_rising(alloc, keys, name, range, first)? {
        Ok(Some(first))
    } else {
        Ok(None)
    }
}

/// The first net of a declared name, where its nets stand side by side.
fn span(
    alloc: Global,
    keys: &Keys,
    name: &str,
    range: Option<Range>,
) -> Result<Option<u32>, NoMemory>
    ensures some { IfOk result (λ o. IfSome o (λ first. spec.StandFrom keys.now (keys_spec.keys name.now range) first)) }
    ensures none { IfOk result (λ o. IfNone o (spec.AreInNoTurn keys.now (keys_spec.keys name.now range))) }
{
    match range {
        None => {
            let span = scalar_span(alloc, keys, name)?;
            Ok(span)
        }
        Some(range) => {
            let span = vector_span(alloc, keys, name, range)?;
            Ok(span)
        }
    }
}

/// The first net of a name of which this is said, where its nets stand side by side.
fn span_of(
    alloc: Global,
    table: &NameTable,
    keys: &Keys,
    says: Option<Says>,
    name: Name,
) -> Result<Option<u32>, NoMemory>
    ensures some { IfOk result (λ o. IfSome o (λ first. spec.IsSpan table.now keys.now says name.id first)) }
    ensures none { IfOk result (λ o. IfNone o (spec.IsNoSpan table.now keys.now says name.id)) }
{
    match says {
        None => Ok(None),
        Some(said) => {
            let span = span(alloc, keys, table.text(name), said.range)?;
            Ok(span)
        }
    }
}

/// The first net of each name whose nets stand side by side, by the name's number.
#[derive(Drop)]
pub struct Spans {
    firsts: IndexMap<u32, u32>,
}

impl Model for Spans {
    ghost use Rattle.std.specs.Prelude.{List, ℕ};

    ghost Value = { List (ℕ × ℕ) };

    ghost view = { λ spans. spans.firsts.entries };
}

impl Spans {
    /// No names.
    fn new(alloc: Global) -> Spans
        ensures { result ≡ [] }
    {
        Spans {
            firsts: IndexMap::new(alloc),
        }
    }

    /// The first net of the name with a number.
    pub fn first(&self, id: u32) -> Option<u32>
        ensures { result ≡ spec.spanned self.now id }
    {
        self.firsts.get(&id).copied()
    }

    /// Puts the first net of the name with a number.
    fn put(&mut self, id: u32, first: u32) -> Result<(), NoMemory>
        ensures { OnOk result ((k : ℕ) → spec.spanned self.new k ≡ spec.with_span (spec.spanned self.old) id first k) }
    {
        self.firsts.insert(id, first)?;
        Ok(())
    }
}

/// Adds the first net of a declared name, where its nets stand side by side.
fn add_span(
    alloc: Global,
    spans: &mut Spans,
    table: &NameTable,
    keys: &Keys,
    scope: &Scope,
    name: Name,
) -> Result<(), NoMemory>
    ensures stand { OnOk result (spec.AreSpans table.now keys.now (looked scope.now) spans.old → spec.AreSpans table.now keys.now (looked scope.now) spans.new) }
    ensures turns { OnOk result ((ids : List ℕ) → spec.HaveSpans table.now keys.now (looked scope.now) ids spans.old
        → spec.HaveSpans table.now keys.now (looked scope.now) (ids ++ name.id ∷ []) spans.new) }
{
    let span = span_of(alloc, table, keys, entry(scope, name.id), name)?;
    match span {
        Some(first) => {
            spans.put(name.id, first)?;
            Ok(())
        }
        None => Ok(()),
    }
}

/// The first net of each declared name whose nets stand side by side.
pub fn spans_of(
    alloc: Global,
    table: &NameTable,
    keys: &Keys,
    scope: &Scope,
    declared: &[Declared],
) -> Result<Spans, NoMemory>
    ensures stand { IfOk result (λ s. spec.AreSpans table.now keys.now (looked scope.now) s) }
    ensures turns { IfOk result (λ s. spec.HaveSpans table.now keys.now (looked scope.now) (spec.ids_of declared.now) s) }
{
    let mut spans = Spans::new(alloc);
    'names: for d in declared {
        add_span(alloc, &mut spans, table, keys, scope, d.name)?;
    }
    Ok(spans)
}
