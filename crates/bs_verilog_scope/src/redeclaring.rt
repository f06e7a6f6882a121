//! What a module says of its names: which may be declared twice and which are refused, and the other faults of its declarations.
ghost use Rattle.std.specs.Prelude.{◌≡◌, Some, nat_lt, ◌||◌};
ghost use Rattle.bs_verilog_scope.specs.Checking.{Checks, looked, marked};
ghost use Rattle.bs_lex.specs.declared.number_limits.TheConstants.{MAX_INDEX};
ghost use Rattle.bs_verilog_scope.specs.Declaring as spec;

use crate::tables::{NameMarks, Scope};
use bs_lex::{MAX_INDEX, Name};
use bs_verilog_syntax::{Declared, Direction, Net, Range, Says, VerilogFault};
use std::alloc::Global;

/// What is said of the name with a number.
pub fn entry(scope: &Scope, id: u32) -> Option<Says>
    ensures { result ≡ looked scope.now id }
{
    scope.get(id)
}

/// Whether the name with a number is marked.
pub fn is_marked(marks: &NameMarks, id: u32) -> bool
    ensures { result ≡ marked marks.now id }
{
    marks.has(id)
}

fn is_supply(net: Option<Net>) -> bool
    ensures { result ≡ spec.is_supply net }
{
    match net {
        Some(Net::Supply0) => true,
        Some(Net::Supply1) => true,
        Some(Net::Wire) => false,
        None => false,
    }
}

fn is_equal(a: Range, b: Range) -> bool
    ensures { result ≡ spec.range_eq (Some a) (Some b) }
{
    a.left == b.left && a.right == b.right
}

fn are_equal(a: Option<Range>, b: Option<Range>) -> bool
    ensures { result ≡ spec.range_eq a b }
{
    match a {
        None => b.is_none(),
        Some(x) => match b {
            None => false,
            Some(y) => is_equal(x, y),
        },
    }
}

fn is_clash(a: Says, b: Says) -> bool
    ensures { result ≡ spec.is_clash a b }
{
    let directions = a.direction.is_some() && b.direction.is_some();
    let nets = a.net.is_some() && b.net.is_some();
    let supplies = is_supply(a.net) || is_supply(b.net);
    let ranges = !are_equal(a.range, b.range);
    directions || nets || supplies || ranges
}

/// Whether a declaration does not go with what was said of its name before.
fn clashes(before: Option<Says>, says: Says) -> bool
    ensures { result ≡ spec.clashes before says }
{
    match before {
        None => false,
        Some(said) => is_clash(said, says),
    }
}

fn later_direction(a: Option<Direction>, b: Option<Direction>) -> Option<Direction>
    ensures { result ≡ spec.or_later a b }
{
    match a {
        Some(d) => Some(d),
        None => b,
    }
}

fn later_net(a: Option<Net>, b: Option<Net>) -> Option<Net>
    ensures { result ≡ spec.or_later a b }
{
    match a {
        Some(n) => Some(n),
        None => b,
    }
}

/// What is said of a name together with one declaration more.
fn together(before: Option<Says>, says: Says) -> Says
    ensures { Some result ≡ spec.together before (Some says) }
{
    match before {
        None => says,
        Some(said) => Says {
            direction: later_direction(said.direction, says.direction),
            net: later_net(said.net, says.net),
            range: said.range,
        },
    }
}

/// The direction that is said of a name.
pub fn direction_of(says: Option<Says>) -> Option<Direction>
    ensures { result ≡ spec.direction_of says }
{
    match says {
        Some(said) => said.direction,
        None => None,
    }
}

/// The names of the header, marked. A name that stands twice is refused.
pub fn header_marks(alloc: Global, header: &[Name]) -> Result<NameMarks, VerilogFault>
    ensures { Checks result (spec.repeated_fault header.now) (λ m. marked m ≡ spec.is_in header.now) }
{
    let mut seen = NameMarks::new(alloc);
    'names: for name in header {
        if is_marked(&seen, name.id) {
            return Err(VerilogFault::Redeclared(name.at));
        }
        seen.put(name.id)?;
    }
    Ok(seen)
}

/// What is said of each name that is declared. A declaration that does not go with those before it is refused.
pub fn scope_of(alloc: Global, declared: &[Declared]) -> Result<Scope, VerilogFault>
    ensures { Checks result (spec.redeclared_fault declared.now) (λ s. looked s ≡ spec.said declared.now) }
{
    let mut scope = Scope::new(alloc);
    'declared: for d in declared {
        let before = entry(&scope, d.name.id);
        if clashes(before, d.says) {
            return Err(VerilogFault::Redeclared(d.name.at));
        }
        scope.put(d.name.id, together(before, d.says))?;
    }
    Ok(scope)
}

fn is_stray(marks: &NameMarks, d: Declared) -> bool
    ensures { result ≡ spec.is_stray (marked marks.now) d }
{
    let marked = is_marked(marks, d.name.id);
    d.says.direction.is_some() && !marked
}

fn is_bare(scope: &Scope, name: Name) -> bool
    ensures { result ≡ spec.is_bare (looked scope.now) name }
{
    match entry(scope, name.id) {
        Some(says) => says.direction.is_none(),
        None => true,
    }
}

fn is_wide(range: Range) -> bool
    ensures { result ≡ (nat_lt MAX_INDEX range.left || nat_lt MAX_INDEX range.right) }
{
    MAX_INDEX < range.left || MAX_INDEX < range.right
}

fn is_too_wide(d: Declared) -> bool
    ensures { result ≡ spec.is_too_wide d }
{
    match d.says.range {
        Some(range) => is_wide(range),
        None => false,
    }
}

fn range_place(d: Declared) -> u32
    ensures { result ≡ spec.range_place d }
{
    match d.says.range {
        Some(range) => range.at,
        None => d.name.at,
    }
}

/// The fault of the first direction for a name that is not in the header.
pub fn stray_fault(marks: &NameMarks, declared: &[Declared]) -> Option<VerilogFault>
    ensures { result ≡ spec.stray_fault (marked marks.now) declared.now }
{
    declared
        .iter()
        .find(|d| is_stray(marks, **d))
        .map(|d| VerilogFault::Port(d.name.at))
}

/// The fault of the first name of the header without a direction.
pub fn bare_fault(scope: &Scope, header: &[Name]) -> Option<VerilogFault>
    ensures { result ≡ spec.bare_fault (looked scope.now) header.now }
{
    header
        .iter()
        .find(|n| is_bare(scope, **n))
        .map(|n| VerilogFault::Port(n.at))
}

/// The fault of the first range with a bound above `MAX_INDEX`.
pub fn wide_fault(declared: &[Declared]) -> Option<VerilogFault>
    ensures { result ≡ spec.wide_fault declared.now }
{
    declared
        .iter()
        .find(|d| is_too_wide(**d))
        .map(|d| VerilogFault::Index(range_place(*d)))
}
