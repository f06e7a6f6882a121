//! Which connections a gate, a cell or an assignment may have.
ghost use Rattle.std.specs.Prelude.{◌≡◌, ◌<◌, ◌≤◌, length, take, position, slice_index_or};
ghost use Rattle.std.specs.List.{list_all, list_any};
ghost use Rattle.bs_verilog.specs.Terminals as spec;
ghost use Rattle.bs_verilog_syntax.specs.declared.tree.Connection.TheVariants.{Empty};

use crate::cells::{Pin, pin_list, pin_name};
use bs_lex::{Cell, NameTable};
use bs_net::Kind;
use bs_verilog_syntax::{Connection, PackedConnection, Term};

/// Where the pin of a cell stands that decides what its flip-flop loads, if there is one.
#[derive(Clone, Copy)]
pub enum Control {
    Plain,
    Enable(usize),
    Clear(usize),
}

/// Where a cell's pins stand among its connections.
#[derive(Clone, Copy)]
pub struct Pins {
    pub clock: usize,
    pub output: usize,
    pub input: usize,
    pub control: Control,
}

/// The term of a connection, where it has one.
pub fn term_of(c: Connection) -> Option<Term>
    ensures { result ≡ spec.term_of c }
{
    match c {
        Connection::Place(t) => Some(t),
        Connection::Pin(_, t) => t,
        Connection::Empty => None,
    }
}

fn is_constant_term(t: Option<Term>) -> bool
    ensures { result ≡ spec.is_constant_term t }
{
    match t {
        Some(Term::Constant(_, _)) => true,
        Some(Term::Named(_, _)) => false,
        None => false,
    }
}

fn is_constant(c: Connection) -> bool
    ensures { result ≡ spec.is_constant c }
{
    is_constant_term(term_of(c))
}

fn is_place(c: Connection) -> bool
    ensures { result ≡ spec.is_place c }
{
    match c {
        Connection::Place(_) => true,
        Connection::Pin(_, _) => false,
        Connection::Empty => false,
    }
}

fn is_pin(table: &NameTable, name: &str, c: Connection) -> bool
    ensures { result ≡ spec.is_pin table.now name.now c }
{
    match c {
        Connection::Place(_) => false,
        Connection::Pin(n, _) => table.text(n) == name,
        Connection::Empty => false,
    }
}

/// Whether a kind of gate has one input.
pub fn is_single(kind: Kind) -> bool
    ensures { result ≡ spec.is_single kind }
{
    match kind {
        Kind::Buf => true,
        Kind::Not => true,
        Kind::And => false,
        Kind::Nand => false,
        Kind::Or => false,
        Kind::Nor => false,
        Kind::Xor => false,
        Kind::Xnor => false,
    }
}

fn output_count(kind: Kind, count: usize) -> usize
    requires { 2 ≤ count }
    ensures value { result ≡ spec.output_count kind count }
    ensures within { result ≤ count }
{
    if is_single(kind) { count - 1 } else { 1 }
}

fn are_full(cs: &[PackedConnection]) -> bool
    ensures { result ≡ list_all spec.has_term cs.now }
{
    cs.iter().all(|c| term_of(c.get()).is_some())
}

fn are_places(cs: &[PackedConnection]) -> bool
    ensures { result ≡ list_all spec.is_place cs.now }
{
    cs.iter().all(|c| is_place(c.get()))
}

fn have_constant(cs: &[PackedConnection]) -> bool
    ensures { result ≡ list_any spec.is_constant cs.now }
{
    cs.iter().any(|c| is_constant(c.get()))
}

fn have_constant_output(kind: Kind, cs: &[PackedConnection]) -> bool
    requires { 2 ≤ length cs.now }
    ensures { result ≡ list_any spec.is_constant (take (spec.output_count kind (length cs.now)) cs.now) }
{
    have_constant(&cs[..output_count(kind, cs.len())])
}

/// Whether a gate of this kind may have these connections.
#[tactic(auto, unfolding(crate::specs::Terminals::is_gate))]
pub fn is_gate(kind: Kind, cs: &[PackedConnection]) -> bool
    ensures { result ≡ spec.is_gate kind cs.now }
{
    if cs.len() < 2 {
        return false;
    }
    let full = are_full(cs);
    let constant = have_constant_output(kind, cs);
    full && !constant
}

fn is_constant_at(cs: &[PackedConnection], place: usize) -> bool
    ensures { result ≡ spec.is_constant (slice_index_or cs.now place Empty) }
{
    match cs.get(place) {
        Some(c) => is_constant(c.get()),
        None => false,
    }
}

/// Whether an assignment may have these connections.
#[tactic(auto, unfolding(crate::specs::Terminals::is_assignment))]
pub fn is_assignment(cs: &[PackedConnection]) -> bool
    ensures { result ≡ spec.is_assignment cs.now }
{
    !is_constant_at(cs, 0)
}

/// Where a pin stands in the order of a cell's pins.
fn ordered_place(cell: Cell, pin: Pin) -> Option<usize>
    ensures { result ≡ spec.ordered_place cell pin }
{
    pin_list(cell)
        .iter()
        .position(|p| pin_name(*p) == pin_name(pin))
}

/// Where a pin stands by its name.
fn named_place(table: &NameTable, cs: &[PackedConnection], pin: Pin) -> Option<usize>
    ensures { result ≡ spec.named_place table.now cs.now pin }
{
    let name = pin_name(pin);
    cs.iter().position(|c| is_pin(table, name, c.get()))
}

/// Where a pin of a cell stands among the connections.
fn pin_place(table: &NameTable, cell: Cell, cs: &[PackedConnection], pin: Pin) -> Option<usize>
    ensures { result ≡ spec.pin_place table.now cell cs.now pin }
{
    if are_places(cs) {
        ordered_place(cell, pin)
    } else {
        named_place(table, cs, pin)
    }
}

/// Where the pin of a cell stands that decides what its flip-flop loads.
fn control_place(table: &NameTable, cell: Cell, cs: &[PackedConnection]) -> Option<Control>
    ensures { result ≡ spec.control_place table.now cell cs.now }
{
    match cell {
        Cell::Dff | Cell::Dffs => Some(Control::Plain),
        Cell::Dffe => {
            let place = pin_place(table, cell, cs, Pin::Enable)?;
            Some(Control::Enable(place))
        }
        Cell::Dffr => {
            let place = pin_place(table, cell, cs, Pin::Clear)?;
            Some(Control::Clear(place))
        }
    }
}

#[tactic(auto, unfolding(crate::specs::Terminals::pins_of))]
fn pins_of(table: &NameTable, cell: Cell, cs: &[PackedConnection]) -> Option<Pins>
    ensures { result ≡ spec.pins_of table.now cell cs.now }
{
    let clock = pin_place(table, cell, cs, Pin::Clock)?;
    let output = pin_place(table, cell, cs, Pin::Output)?;
    let input = pin_place(table, cell, cs, Pin::Input)?;
    let control = control_place(table, cell, cs)?;
    Some(Pins {
        clock,
        output,
        input,
        control,
    })
}

/// The pins of a cell, where it may have these connections.
#[tactic(auto, unfolding(crate::specs::Terminals::cell_pins))]
pub fn cell_pins(table: &NameTable, cell: Cell, cs: &[PackedConnection]) -> Option<Pins>
    ensures { result ≡ spec.cell_pins table.now cell cs.now }
{
    let full = are_full(cs);
    if !(cs.len() == pin_list(cell).len() && full) {
        return None;
    }
    match pins_of(table, cell, cs) {
        Some(pins) => {
            if is_constant_at(cs, pins.output) {
                None
            } else {
                Some(pins)
            }
        }
        None => None,
    }
}
