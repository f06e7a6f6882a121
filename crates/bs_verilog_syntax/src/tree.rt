//! What a netlist text says, before its names are looked up.

use crate::packed::PackedConnection;
use bs_bits::List;
use bs_lex::{Cell, Name};
use bs_net::Kind;

/// The bounds of a vector, from its left to its right bit, and the place of its `[`. A bound from `GREAT` on is no number:
/// equal ones stand for equal numbers above `MAX_INDEX`, of any length.
#[derive(Clone, Copy)]
pub struct Range {
    pub at: u32,
    pub left: u32,
    pub right: u32,
}

/// The direction of a port.
#[derive(Clone, Copy)]
pub enum Direction {
    Input,
    Output,
}

/// The kind of a declared net.
#[derive(Clone, Copy)]
pub enum Net {
    Wire,
    Supply0,
    Supply1,
}

/// What is said of each name in a declaration.
#[derive(Clone, Copy)]
pub struct Says {
    pub direction: Option<Direction>,
    pub net: Option<Net>,
    pub range: Option<Range>,
}

/// A declared name.
#[derive(Clone, Copy)]
pub struct Declared {
    pub says: Says,
    pub name: Name,
}

/// A term: a constant of one bit, or a name and maybe an index.
#[derive(Clone, Copy)]
pub enum Term {
    Constant(u32, bool),
    Named(Name, Option<u32>),
}

/// What stands between two commas of a gate or cell.
#[derive(Clone, Copy)]
pub enum Connection {
    Empty,
    Place(Term),
    Pin(Name, Option<Term>),
}

/// What a part is.
#[derive(Clone, Copy)]
pub enum Shape {
    Gate(Kind),
    Cell(Cell),
    Assign,
}

/// A gate, a cell or an assignment. `at` is its `(`, or where its left side begins.
#[derive(Drop)]
pub struct Component {
    pub shape: Shape,
    pub at: u32,
    pub connections: List<PackedConnection>,
}

/// The top module.
#[derive(Drop)]
pub struct Module {
    pub header: List<Name>,
    pub declared: List<Declared>,
    pub parts: List<Component>,
}

/// A port of a header: what it says before its name, if anything.
#[derive(Clone, Copy)]
pub struct HeaderPort {
    pub says: Option<Says>,
    pub name: Name,
}

/// The names of a header, and those that it declares.
#[derive(Drop)]
pub struct Ports {
    pub header: List<Name>,
    pub declared: List<Declared>,
}

/// What an item adds to its module.
#[derive(Drop)]
pub struct Adds {
    pub declared: List<Declared>,
    pub parts: List<Component>,
}
