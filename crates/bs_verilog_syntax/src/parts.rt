//! Gates, cells and assignments.
ghost use Rattle.std.specs.Prelude.{◌≡◌, ◌≤◌, ◌<◌, ◌++◌, length, IfOk, Ok, [], ◌∷◌};
ghost use Rattle.bs_verilog_syntax.specs.Reading as spec;
ghost use Rattle.bs_verilog_syntax.specs.Parts as parts;
ghost use Rattle.bs_bits.specs.Reading.{Answers};
ghost use Rattle.bs_verilog_syntax.specs.declared.fault.VerilogFault.TheVariants.{NoMemory as want};
ghost use Rattle.bs_verilog_syntax.specs.declared.tree.Connection.TheVariants.{Place};

use crate::fault::{VerilogFault, What};
use crate::listing::{Reader, closed, listed};
use crate::packed::PackedConnection;
use crate::reading::{Due, expect, expect_name, is_at, place_of, rest_of, sort_of};
use crate::terms::{delay, term};
use crate::tree::{Component, Connection, Shape, Term};
use bs_bits::List;
use bs_lex::{Cell, Lexeme, Name, Sort, Word, is_name};
use bs_net::Kind;
use std::alloc::Global;

/// A term, by its place.
#[tactic(auto, unfolding(crate::specs::Parts::by_place))]
fn by_place(ts: &[Lexeme]) -> Result<(PackedConnection, &[Lexeme]), VerilogFault>
    ensures reads { spec.Reads (λ c. c) result (parts.by_place ts.now) }
    ensures within { IfOk result (λ x. length x.1.now ≤ length ts.now) }
{
    let (term, rest) = term(ts)?;
    let packed = PackedConnection::new(Connection::Place(term))?;
    Ok((packed, rest))
}

/// Reads the terminals of a gate.
#[derive(Drop)]
struct TerminalReader;

impl Reader<PackedConnection> for TerminalReader {
    ghost reading = { λ _. parts.by_place };

    fn read<'a>(
        &self,
        _alloc: Global,
        ts: &'a [Lexeme],
    ) -> Result<(PackedConnection, &'a [Lexeme]), VerilogFault> {
        by_place(ts)
    }
}

/// After an instance name, if there is one.
fn instance_name(ts: &[Lexeme]) -> &[Lexeme]
    ensures rest { result.now ≡ parts.instance_name ts.now }
    ensures within { length result.now ≤ length ts.now }
{
    if is_name(sort_of(ts)) {
        rest_of(ts)
    } else {
        ts
    }
}

/// After the `(` of a gate or cell.
fn opened<'a>(ts: &[Lexeme], here: &'a [Lexeme]) -> Result<&'a [Lexeme], VerilogFault>
    ensures skips { spec.Skips result (parts.opened ts.now here.now) }
    ensures within { IfOk result (λ rest. length rest.now ≤ length here.now) }
{
    if is_name(sort_of(ts)) {
        expect(b'(', Due::AfterInstance, here)
    } else {
        expect(b'(', Due::Nothing, here)
    }
}

/// Reads the gates of a statement.
#[derive(Drop)]
struct GateReader {
    kind: Kind,
}

impl Reader<Component> for GateReader {
    ghost reading = { λ gates. parts.gate gates.kind };

    #[tactic(auto, unfolding(crate::specs::Parts::gate))]
    fn read<'a>(
        &self,
        alloc: Global,
        ts: &'a [Lexeme],
    ) -> Result<(Component, &'a [Lexeme]), VerilogFault> {
        let here = instance_name(ts);
        let inside = opened(ts, here)?;
        let (terms, rest) = listed(alloc, &TerminalReader, inside)?;
        let (connections, rest) = closed(b')', Due::AfterTerm, terms, rest)?;
        let part = Component {
            shape: Shape::Gate(self.kind),
            at: place_of(here),
            connections,
        };
        Ok((part, rest))
    }
}

/// Whether a lexeme is a drive strength.
fn is_strength(sort: Sort) -> bool
    ensures { result ≡ parts.is_strength sort }
{
    matches!(
        sort,
        Sort::Word(Word::Strength | Word::Supply0 | Word::Supply1)
    )
}

/// A gate statement after its kind.
#[tactic(auto, unfolding(crate::specs::Parts::gates))]
pub fn gates(
    alloc: Global,
    kind: Kind,
    ts: &[Lexeme],
) -> Result<(List<Component>, &[Lexeme]), VerilogFault>
    ensures reads { spec.Reads (λ p. p) result (parts.gates kind ts.now) }
{
    if is_at(b'(', ts) && is_strength(sort_of(rest_of(ts))) {
        return Err(VerilogFault::Unsupported(place_of(rest_of(ts)), What::Strength));
    }
    let first = delay(alloc, ts)?;
    let (parts, rest) = listed(alloc, &GateReader { kind }, first)?;
    closed(b';', Due::Nothing, parts, rest)
}

/// Reads the connections of a cell by place.
#[derive(Drop)]
struct PlaceReader;

impl Reader<PackedConnection> for PlaceReader {
    ghost reading = { λ _. parts.place };

    #[tactic(auto, unfolding(crate::specs::Parts::place))]
    fn read<'a>(
        &self,
        _alloc: Global,
        ts: &'a [Lexeme],
    ) -> Result<(PackedConnection, &'a [Lexeme]), VerilogFault> {
        if is_at(b',', ts) || is_at(b')', ts) {
            let packed = PackedConnection::new(Connection::Empty)?;
            Ok((packed, ts))
        } else {
            by_place(ts)
        }
    }
}

/// The term of a pin with a name, if it has one, and the pin's `)`.
fn pin_term(name: Name, inside: &[Lexeme]) -> Result<(PackedConnection, &[Lexeme]), VerilogFault>
    ensures reads { spec.Reads (λ c. c) result (parts.pin_term name inside.now) }
    ensures within { IfOk result (λ x. length x.1.now ≤ length inside.now) }
{
    if is_at(b')', inside) {
        let packed = PackedConnection::new(Connection::Pin(name, None))?;
        return Ok((packed, rest_of(inside)));
    }
    let (term, rest) = term(inside)?;
    let rest = expect(b')', Due::AfterTerm, rest)?;
    let packed = PackedConnection::new(Connection::Pin(name, Some(term)))?;
    Ok((packed, rest))
}

/// Reads the connections of a cell by pin.
#[derive(Drop)]
struct PinReader;

impl Reader<PackedConnection> for PinReader {
    ghost reading = { λ _. parts.pin };

    #[tactic(auto, unfolding(crate::specs::Parts::pin))]
    fn read<'a>(
        &self,
        _alloc: Global,
        ts: &'a [Lexeme],
    ) -> Result<(PackedConnection, &'a [Lexeme]), VerilogFault> {
        let dot = expect(b'.', Due::Nothing, ts)?;
        let (name, after) = expect_name(dot)?;
        let inside = expect(b'(', Due::Nothing, after)?;
        pin_term(name, inside)
    }
}

/// The connections of a cell by pin, and its `)`.
fn pins(alloc: Global, ts: &[Lexeme]) -> Result<(List<PackedConnection>, &[Lexeme]), VerilogFault>
    ensures reads { spec.Reads (λ c. c) result (parts.pins ts.now) }
    ensures within { IfOk result (λ x. length x.1.now ≤ length ts.now) }
{
    let (pins, rest) = listed(alloc, &PinReader, ts)?;
    closed(b')', Due::Nothing, pins, rest)
}

/// The connections of a cell by place, and its `)`.
fn places(alloc: Global, ts: &[Lexeme]) -> Result<(List<PackedConnection>, &[Lexeme]), VerilogFault>
    ensures reads { spec.Reads (λ c. c) result (parts.places ts.now) }
    ensures within { IfOk result (λ x. length x.1.now ≤ length ts.now) }
{
    let (places, rest) = listed(alloc, &PlaceReader, ts)?;
    closed(b')', Due::AfterTerm, places, rest)
}

/// The connections of a cell, and its `)`.
#[tactic(auto, unfolding(crate::specs::Parts::connections))]
pub fn connections(
    alloc: Global,
    ts: &[Lexeme],
) -> Result<(List<PackedConnection>, &[Lexeme]), VerilogFault>
    ensures reads { spec.Reads (λ c. c) result (parts.connections ts.now) }
    ensures within { IfOk result (λ x. length x.1.now ≤ length ts.now) }
{
    if is_at(b')', ts) {
        Ok((List::new(alloc), rest_of(ts)))
    } else if is_at(b'.', ts) {
        pins(alloc, ts)
    } else {
        places(alloc, ts)
    }
}

/// Reads the cells of a statement.
#[derive(Drop)]
struct CellReader {
    cell: Cell,
}

impl Reader<Component> for CellReader {
    ghost reading = { λ cells. parts.instance cells.cell };

    #[tactic(auto, unfolding(crate::specs::Parts::instance))]
    fn read<'a>(
        &self,
        alloc: Global,
        ts: &'a [Lexeme],
    ) -> Result<(Component, &'a [Lexeme]), VerilogFault> {
        let here = instance_name(ts);
        let inside = opened(ts, here)?;
        let (connections, rest) = connections(alloc, inside)?;
        let part = Component {
            shape: Shape::Cell(self.cell),
            at: place_of(here),
            connections,
        };
        Ok((part, rest))
    }
}

/// A cell statement after the cell's name.
#[tactic(auto, unfolding(crate::specs::Parts::instances))]
pub fn instances(
    alloc: Global,
    cell: Cell,
    ts: &[Lexeme],
) -> Result<(List<Component>, &[Lexeme]), VerilogFault>
    ensures reads { spec.Reads (λ p. p) result (parts.instances cell ts.now) }
{
    if is_at(b'#', ts) {
        return Err(VerilogFault::Unsupported(place_of(ts), What::Parameter));
    }
    let (parts, rest) = listed(alloc, &CellReader { cell }, ts)?;
    closed(b';', Due::Nothing, parts, rest)
}

/// Puts a term at the end.
fn add_side(sides: &mut List<PackedConnection>, term: Term) -> Result<(), VerilogFault>
    ensures { Answers want (λ _. sides.new) result (Ok (sides.old ++ Place term ∷ [])) }
{
    let packed = PackedConnection::new(Connection::Place(term))?;
    sides.push(packed)?;
    Ok(())
}

/// Both sides of an assignment.
fn sides(alloc: Global, left: Term, right: Term) -> Result<List<PackedConnection>, VerilogFault>
    ensures { Answers want (λ c. c) result (Ok (Place left ∷ Place right ∷ [])) }
{
    let mut both = List::new(alloc);
    add_side(&mut both, left)?;
    add_side(&mut both, right)?;
    Ok(both)
}

/// Reads the pairs of an assignment.
#[derive(Drop)]
struct PairReader;

impl Reader<Component> for PairReader {
    ghost reading = { λ _. parts.assignment };

    #[tactic(auto, unfolding(crate::specs::Parts::assignment))]
    fn read<'a>(
        &self,
        alloc: Global,
        ts: &'a [Lexeme],
    ) -> Result<(Component, &'a [Lexeme]), VerilogFault> {
        let (left, rest) = term(ts)?;
        let rest = expect(b'=', Due::AfterTerm, rest)?;
        let (right, rest) = term(rest)?;
        let part = Component {
            shape: Shape::Assign,
            at: place_of(ts),
            connections: sides(alloc, left, right)?,
        };
        Ok((part, rest))
    }
}

/// An assignment after its word.
#[tactic(auto, unfolding(crate::specs::Parts::assignments))]
pub fn assignments(
    alloc: Global,
    ts: &[Lexeme],
) -> Result<(List<Component>, &[Lexeme]), VerilogFault>
    ensures reads { spec.Reads (λ p. p) result (parts.assignments ts.now) }
{
    let first = delay(alloc, ts)?;
    let (parts, rest) = listed(alloc, &PairReader, first)?;
    closed(b';', Due::AfterTerm, parts, rest)
}
