//! A connection in sixteen bytes.
ghost use Rattle.std.specs.Prelude.{◌≡◌, IfOk};
ghost use Rattle.bs_verilog_syntax.specs.Packed as packing;
ghost use Rattle.bs_verilog_syntax.specs.declared.tree.Connection.TheVariants as connections;

use crate::tree::{Connection, Term};
use bs_bits::NoMemory;
use bs_lex::Name;
use std::marker::Model;

/// What a connection has.
#[derive(Clone, Copy)]
pub enum Tag {
    Empty,
    Zero,
    One,
    Named,
    Indexed,
    Open,
    PinZero,
    PinOne,
    PinNamed,
    PinIndexed,
}

/// A number below 2^24, in three bytes.
#[derive(Drop)]
struct Small {
    high: u8,
    middle: u8,
    low: u8,
}

impl Model for Small {
    ghost use Rattle.std.specs.Prelude.{ℕ};
    ghost use Rattle.bs_verilog_syntax.specs.Packed.{joined};

    ghost Value = { ℕ };

    ghost view = { λ n. joined n.high n.middle n.low };
}

impl Small {
    /// The number in three bytes. One from 2^24 on is answered as out of memory: no text of 16 MiB has such a place or so many names.
    fn new(number: u32) -> Result<Small, NoMemory>
        ensures { IfOk result (λ n. n ≡ number) }
    {
        if number >= 16777216 {
            return Err(NoMemory);
        }
        Ok(Small {
            high: (number / 65536) as u8,
            middle: (number / 256 % 256) as u8,
            low: (number % 256) as u8,
        })
    }

    /// The number.
    fn get(&self) -> u32
        ensures { result ≡ self.now }
    {
        65536 * (self.high as u32) + 256 * (self.middle as u32) + self.low as u32
    }
}

/// What stands between two commas of a gate or cell, in sixteen bytes. Contracts see it as a `Connection`.
#[derive(Drop)]
pub struct PackedConnection {
    tag: Tag,
    pin_at: Small,
    pin: Small,
    at: Small,
    name: Small,
    index: Small,
}

impl Model for PackedConnection {
    ghost use Rattle.bs_verilog_syntax.specs.Packed.{connection_in, name_in};
    ghost use Rattle.bs_verilog_syntax.specs.declared.tree.Connection as seen;

    ghost Value = { seen.Connection };

    ghost view = { λ c. connection_in c.tag (name_in c.pin_at c.pin) (name_in c.at c.name) c.index };
}

/// The name where there is none.
const NO_NAME: Name = Name { at: 0, id: 0 };

/// The connection of these parts.
fn made(tag: Tag, pin: Name, name: Name, index: u32) -> Result<PackedConnection, NoMemory>
    ensures { IfOk result (λ c. c ≡ packing.connection_in tag pin name index) }
{
    Ok(PackedConnection {
        tag,
        pin_at: Small::new(pin.at)?,
        pin: Small::new(pin.id)?,
        at: Small::new(name.at)?,
        name: Small::new(name.id)?,
        index: Small::new(index)?,
    })
}

/// A term by its place.
fn by_place(term: Term) -> Result<PackedConnection, NoMemory>
    ensures { IfOk result (λ c. c ≡ connections.Place term) }
{
    match term {
        Term::Constant(at, false) => made(Tag::Zero, NO_NAME, Name { at, id: 0 }, 0),
        Term::Constant(at, true) => made(Tag::One, NO_NAME, Name { at, id: 0 }, 0),
        Term::Named(name, None) => made(Tag::Named, NO_NAME, name, 0),
        Term::Named(name, Some(index)) => made(Tag::Indexed, NO_NAME, name, index),
    }
}

/// A pin, and maybe its term.
fn by_pin(pin: Name, term: Option<Term>) -> Result<PackedConnection, NoMemory>
    ensures { IfOk result (λ c. c ≡ connections.Pin pin term) }
{
    match term {
        None => made(Tag::Open, pin, NO_NAME, 0),
        Some(Term::Constant(at, false)) => made(Tag::PinZero, pin, Name { at, id: 0 }, 0),
        Some(Term::Constant(at, true)) => made(Tag::PinOne, pin, Name { at, id: 0 }, 0),
        Some(Term::Named(name, None)) => made(Tag::PinNamed, pin, name, 0),
        Some(Term::Named(name, Some(index))) => made(Tag::PinIndexed, pin, name, index),
    }
}

/// The connection of these parts.
fn connection_in(tag: Tag, pin: Name, name: Name, index: u32) -> Connection
    ensures { result ≡ packing.connection_in tag pin name index }
{
    match tag {
        Tag::Empty => Connection::Empty,
        Tag::Zero => Connection::Place(Term::Constant(name.at, false)),
        Tag::One => Connection::Place(Term::Constant(name.at, true)),
        Tag::Named => Connection::Place(Term::Named(name, None)),
        Tag::Indexed => Connection::Place(Term::Named(name, Some(index))),
        Tag::Open => Connection::Pin(pin, None),
        Tag::PinZero => Connection::Pin(pin, Some(Term::Constant(name.at, false))),
        Tag::PinOne => Connection::Pin(pin, Some(Term::Constant(name.at, true))),
        Tag::PinNamed => Connection::Pin(pin, Some(Term::Named(name, None))),
        Tag::PinIndexed => Connection::Pin(pin, Some(Term::Named(name, Some(index)))),
    }
}

impl PackedConnection {
    /// The connection in sixteen bytes. A place or a number from 2^24 on, which no text of 16 MiB has, is answered as out of memory.
    pub fn new(connection: Connection) -> Result<PackedConnection, NoMemory>
        ensures { IfOk result (λ c. c ≡ connection) }
    {
        match connection {
            Connection::Empty => made(Tag::Empty, NO_NAME, NO_NAME, 0),
            Connection::Place(term) => by_place(term),
            Connection::Pin(pin, term) => by_pin(pin, term),
        }
    }

    /// The connection.
    pub fn get(&self) -> Connection
        ensures { result ≡ self.now }
    {
        let pin = Name {
            at: self.pin_at.get(),
            id: self.pin.get(),
        };
        let name = Name {
            at: self.at.get(),
            id: self.name.get(),
        };
        connection_in(self.tag, pin, name, self.index.get())
    }
}
