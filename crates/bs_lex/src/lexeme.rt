//! What the grammar sees of a token.
ghost use Rattle.std.specs.Prelude.{◌≡◌};
ghost use Rattle.bs_lex.specs.Lexemes as spec;

use bs_net::Kind;

/// A library cell, which stands for a flip-flop. `Dffe` has an enable, `Dffr` a synchronous reset.
#[derive(Clone, Copy)]
pub enum Cell {
    Dff,
    Dffs,
    Dffe,
    Dffr,
}

/// A keyword, or the group of keywords that the grammar treats alike.
#[derive(Clone, Copy)]
pub enum Word {
    Module,
    Endmodule,
    Input,
    Output,
    Inout,
    Wire,
    Supply0,
    Supply1,
    Assign,
    Gate(Kind),
    Reg,
    Behaviour,
    Parameter,
    NetType,
    Switch,
    Primitive,
    Strength,
}

/// What a token is to the grammar.
#[derive(Clone, Copy)]
pub enum Sort {
    Word(Word),
    /// A name, and the cell that has this name.
    Name(Option<Cell>),
    /// A number of one bit.
    Bit(bool),
    /// A number of digits alone. One above `MAX_INDEX` is told by its place among the names of the text: it is `GREAT` and more.
    Digits(u32),
    Number,
    Symbol(u8),
    AttrOpen,
    AttrClose,
    Text,
    System,
    Directive,
    /// The end of the text.
    End,
}

/// A name: where its token begins, and its number among the names of the text.
#[derive(Clone, Copy)]
pub struct Name {
    pub at: u32,
    pub id: u32,
}

/// Whether a lexeme is a name.
pub fn is_name(sort: Sort) -> bool
    ensures { result ≡ spec.is_name sort }
{
    matches!(sort, Sort::Name(_))
}
