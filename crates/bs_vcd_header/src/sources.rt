//! Which bit of which variable a name is, and the scope.
ghost use Rattle.std.specs.Prelude.{◌≡◌, [], map, option_map, slice_index_or};
ghost use Rattle.bs_net_names.specs.Keys.{parts_in};
ghost use Rattle.bs_vcd_header.specs.Header.{declared_in, shape_in, variable_in};
ghost use Rattle.bs_vcd_header.specs.Sources.{behind, first_path, names_variable, is_local, lies_in, named_at, scope_of, source_at, source_named, source_here, source_if, source_in, source_of};

use crate::header::{HeaderDeclarations, Variable};
use crate::range::{NameWithBits, named_in};
use crate::words::is_text;
use bs_bits::List;
use bs_net_names::{KeyParts, place_in, plain};

/// A bit of the variables with a code, by its place from the last character of their values.
#[derive(Clone, Copy)]
pub struct BitSource {
    pub id: u64,
    pub place: u64,
}

/// The bit at a place.
fn source_at(id: u64, place: Option<u64>) -> Option<BitSource>
    ensures { result ≡ source_at id place }
{
    match place {
        Some(place) => Some(BitSource { id, place }),
        None => None,
    }
}

/// The bit of this name, if it is one of these.
fn source_if(key: KeyParts<'_>, id: u64, own: NameWithBits<'_>) -> Option<BitSource>
    ensures { result ≡ source_if (parts_in key.entry) id (named_at own.entry) }
{
    if is_text(own.name, plain(key.base)) {
        source_at(id, place_in(own.bits, key.bit))
    } else {
        None
    }
}

/// The bit of this name, if it is one of the variable's.
fn source_of(key: KeyParts<'_>, variable: Variable<'_>) -> Option<BitSource>
    ensures { result ≡ source_of (parts_in key.entry) (shape_in variable.entry) }
{
    source_if(key, variable.id, named_in(variable))
}

/// The path of a scope.
pub fn path_of(paths: &List<List<u8>>, scope: usize) -> &[u8]
    ensures { result.now ≡ slice_index_or paths.now scope [] }
{
    if scope < paths.len() {
        paths.get(scope).slice()
    } else {
        b""
    }
}

/// Whether a text begins with a path and a point, and goes on behind them.
pub fn lies_in(outer: &[u8], text: &[u8]) -> bool
    ensures { result ≡ lies_in outer.now text.now }
{
    if outer.len() < text.len() {
        text[outer.len()] == b'.' && is_text(&text[..outer.len()], outer)
    } else {
        false
    }
}

/// What stands behind a path and a point.
pub fn behind<'a>(outer: &[u8], text: &'a [u8]) -> &'a [u8]
    ensures { result.now ≡ behind outer.now text.now }
{
    if outer.len() < text.len() {
        &text[outer.len() + 1..]
    } else {
        b""
    }
}

/// Whether a text is a name in a path, as `tx.level` is `level` in `tx`.
fn is_local(inner: &[u8], name: &[u8], base: &[u8]) -> bool
    ensures { result ≡ is_local inner.now name.now base.now }
{
    lies_in(inner, base) && is_text(behind(inner, base), name)
}

/// Whether a variable of a scope is what a text says in the scope with a path.
fn names_variable(path: &[u8], own: &[u8], name: &[u8], base: &[u8]) -> bool
    ensures { result ≡ names_variable path.now own.now name.now base.now }
{
    if is_text(own, path) {
        return is_text(name, base);
    }
    if path.is_empty() {
        return is_local(own, name, base);
    }
    lies_in(path, own) && is_local(behind(path, own), name, base)
}

/// The bit of this name in the scope with a path, if it is one of these.
fn source_named(
    own: &[u8],
    path: &[u8],
    key: KeyParts<'_>,
    id: u64,
    variable: NameWithBits<'_>,
) -> Option<BitSource>
    ensures { result ≡ source_named own.now path.now (parts_in key.entry) id (named_at variable.entry) }
{
    if names_variable(path, own, variable.name, plain(key.base)) {
        source_at(id, place_in(variable.bits, key.bit))
    } else {
        None
    }
}

/// The bit of this name in the scope with a path, if it is one of the variable's.
pub fn source_here(
    paths: &List<List<u8>>,
    path: &[u8],
    key: KeyParts<'_>,
    variable: Variable<'_>,
) -> Option<BitSource>
    ensures { result ≡ source_here paths.now path.now (parts_in key.entry) (variable_in variable.entry) }
{
    source_named(
        path_of(paths, variable.scope),
        path,
        key,
        variable.id,
        named_in(variable),
    )
}

/// The bit of this name of the first variable that has one in the scope with a path.
#[tactic(auto, using(crate::proofs::SourceLemmas::source_more, crate::proofs::SourceLemmas::source_found, crate::proofs::SourceLemmas::source_none))]
pub fn source_in(
    paths: &List<List<u8>>,
    path: &[u8],
    key: KeyParts<'_>,
    variables: &[Variable<'_>],
) -> Option<BitSource>
    ensures { result ≡ source_in paths.now path.now (parts_in key.entry) (map variable_in variables.now) }
{
    'variables: for variable in variables {
        if let Some(source) = source_here(paths, path, key, *variable) {
            return Some(source);
        }
    }
    None
}

/// The path of the scope of the first variable that has a bit of this name.
#[tactic(auto, using(crate::proofs::SourceLemmas::path_more, crate::proofs::SourceLemmas::path_found, crate::proofs::SourceLemmas::path_none))]
fn first_path<'a>(
    paths: &'a List<List<u8>>,
    key: KeyParts<'_>,
    variables: &[Variable<'_>],
) -> Option<&'a [u8]>
    ensures { option_map (λ path. path.now) result ≡ first_path paths.now (parts_in key.entry) (map variable_in variables.now) }
{
    'variables: for variable in variables {
        if let Some(_) = source_of(key, *variable) {
            return Some(path_of(paths, variable.scope));
        }
    }
    None
}

/// The path of the scope: the one that is asked for, or that of the first variable that has the clock.
pub fn scope_of<'a>(
    scope: Option<&'a [u8]>,
    clock: KeyParts<'_>,
    declared: &'a HeaderDeclarations<'_>,
) -> Option<&'a [u8]>
    ensures { option_map (λ path. path.now) result ≡ scope_of (option_map (λ path. path.now) scope.entry) (parts_in clock.entry) (declared_in declared.now) }
{
    match scope {
        Some(path) => Some(path),
        None => first_path(&declared.paths, clock, declared.variables.as_slice()),
    }
}
