//! A lexeme in eight bytes.
ghost use Rattle.std.specs.Prelude.{◌≡◌, ◌<◌, ◌+◌, ◌*◌, ◌^◌, if◌then◌else◌};
ghost use Rattle.bs_lex.specs.declared.limits.TheConstants.{MAX_BYTES};
ghost use Rattle.bs_lex.specs.Lexemes as spec;
ghost use Rattle.bs_lex.specs.Packed as packing;
ghost use Rattle.bs_lex.specs.declared.lexeme.Sort.TheVariants as sorts;

use crate::lexeme::{Cell, Sort, Word};
use crate::number_limits::{GREAT, MAX_INDEX};
use crate::tag::Tag;
use bs_net::Kind;
use std::marker::Model;

/// A token as the grammar sees it, in eight bytes. Contracts see what it is, where it begins, and the number of its name
/// among the names of the text (0 where it has none); a number above `MAX_INDEX` stands among the names.
#[derive(Drop)]
pub struct Lexeme {
    at: u32,
    low: u16,
    high: u8,
    tag: Tag,
}

impl Model for Lexeme {
    ghost use Rattle.bs_lex.specs.Packed.{Lexeme as Seen, unpacked};

    ghost Value = { Seen };

    ghost view = { λ l. unpacked l.tag l.at l.high l.low };
}

impl Lexeme {
    /// The lexeme of these parts.
    fn made(tag: Tag, at: u32, high: u8, low: u16) -> Lexeme
        ensures { result ≡ packing.unpacked tag at high low }
    {
        Lexeme { at, low, high, tag }
    }

    /// The lexeme with a number below `MAX_BYTES`.
    fn numbered(tag: Tag, at: u32, number: u32) -> Lexeme
        requires { number < MAX_BYTES }
        ensures { result ≡ packing.numbered tag at number }
    {
        let high = (number / 65536) as u8;
        let low = (number % 65536) as u16;
        Lexeme::made(tag, at, high, low)
    }

    /// The lexeme of a sort that begins at a place. A name and a number above `MAX_INDEX` take their number among the names,
    /// which is below `MAX_BYTES`.
    pub fn new(sort: Sort, at: u32, number: u32) -> Lexeme
        requires { number < MAX_BYTES }
        ensures { result ≡ record { sort = spec.numbered_sort number sort; at = at; name = if spec.has_number sort then number else 0 } }
    {
        match sort {
            Sort::Word(word) => Lexeme::made(tag_of(word), at, 0, 0),
            Sort::Name(None) => Lexeme::numbered(Tag::Name, at, number),
            Sort::Name(Some(Cell::Dff)) => Lexeme::numbered(Tag::Dff, at, number),
            Sort::Name(Some(Cell::Dffs)) => Lexeme::numbered(Tag::Dffs, at, number),
            Sort::Name(Some(Cell::Dffe)) => Lexeme::numbered(Tag::Dffe, at, number),
            Sort::Name(Some(Cell::Dffr)) => Lexeme::numbered(Tag::Dffr, at, number),
            Sort::Bit(false) => Lexeme::made(Tag::Zero, at, 0, 0),
            Sort::Bit(true) => Lexeme::made(Tag::One, at, 0, 0),
            Sort::Digits(digits) => {
                if digits > MAX_INDEX {
                    Lexeme::numbered(Tag::Great, at, number)
                } else {
                    Lexeme::made(Tag::Small, at, 0, digits as u16)
                }
            }
            Sort::Number => Lexeme::made(Tag::Number, at, 0, 0),
            Sort::Symbol(byte) => Lexeme::made(Tag::Symbol, at, byte, 0),
            Sort::AttrOpen => Lexeme::made(Tag::AttrOpen, at, 0, 0),
            Sort::AttrClose => Lexeme::made(Tag::AttrClose, at, 0, 0),
            Sort::Text => Lexeme::made(Tag::Text, at, 0, 0),
            Sort::System => Lexeme::made(Tag::System, at, 0, 0),
            Sort::Directive => Lexeme::made(Tag::Directive, at, 0, 0),
            Sort::End => Lexeme::made(Tag::End, at, 0, 0),
        }
    }

    /// What it is.
    pub fn sort(&self) -> Sort
        ensures { result ≡ self.now.sort }
    {
        sort_in(self.tag, self.high, joined(self.high, self.low))
    }

    /// Where it begins.
    pub fn at(&self) -> u32
        ensures { result ≡ self.now.at }
    {
        self.at
    }

    /// The number of its name, or 0.
    pub fn name(&self) -> u32
        ensures { result ≡ self.now.name }
    {
        name_in(self.tag, joined(self.high, self.low))
    }
}

/// The number of these parts.
fn joined(high: u8, low: u16) -> u32
    ensures number { result ≡ 65536 * high + low }
    ensures range { result < 2 ^ 24 }
{
    65536 * (high as u32) + low as u32
}

/// The tag of a word.
fn tag_of(word: Word) -> Tag
    ensures sort { packing.sort_in result 0 0 ≡ sorts.Word word }
    ensures name { packing.name_in result 0 ≡ 0 }
{
    match word {
        Word::Module => Tag::Module,
        Word::Endmodule => Tag::Endmodule,
        Word::Input => Tag::Input,
        Word::Output => Tag::Output,
        Word::Inout => Tag::Inout,
        Word::Wire => Tag::Wire,
        Word::Supply0 => Tag::Supply0,
        Word::Supply1 => Tag::Supply1,
        Word::Assign => Tag::Assign,
        Word::Gate(Kind::And) => Tag::And,
        Word::Gate(Kind::Nand) => Tag::Nand,
        Word::Gate(Kind::Or) => Tag::Or,
        Word::Gate(Kind::Nor) => Tag::Nor,
        Word::Gate(Kind::Xor) => Tag::Xor,
        Word::Gate(Kind::Xnor) => Tag::Xnor,
        Word::Gate(Kind::Buf) => Tag::Buf,
        Word::Gate(Kind::Not) => Tag::Not,
        Word::Reg => Tag::Reg,
        Word::Behaviour => Tag::Behaviour,
        Word::Parameter => Tag::Parameter,
        Word::NetType => Tag::NetType,
        Word::Switch => Tag::Switch,
        Word::Primitive => Tag::Primitive,
        Word::Strength => Tag::Strength,
    }
}

/// What a lexeme with this tag is.
fn sort_in(tag: Tag, high: u8, number: u32) -> Sort
    requires { number < 2 ^ 24 }
    ensures { result ≡ packing.sort_in tag high number }
{
    match tag {
        Tag::Module => Sort::Word(Word::Module),
        Tag::Endmodule => Sort::Word(Word::Endmodule),
        Tag::Input => Sort::Word(Word::Input),
        Tag::Output => Sort::Word(Word::Output),
        Tag::Inout => Sort::Word(Word::Inout),
        Tag::Wire => Sort::Word(Word::Wire),
        Tag::Supply0 => Sort::Word(Word::Supply0),
        Tag::Supply1 => Sort::Word(Word::Supply1),
        Tag::Assign => Sort::Word(Word::Assign),
        Tag::And => Sort::Word(Word::Gate(Kind::And)),
        Tag::Nand => Sort::Word(Word::Gate(Kind::Nand)),
        Tag::Or => Sort::Word(Word::Gate(Kind::Or)),
        Tag::Nor => Sort::Word(Word::Gate(Kind::Nor)),
        Tag::Xor => Sort::Word(Word::Gate(Kind::Xor)),
        Tag::Xnor => Sort::Word(Word::Gate(Kind::Xnor)),
        Tag::Buf => Sort::Word(Word::Gate(Kind::Buf)),
        Tag::Not => Sort::Word(Word::Gate(Kind::Not)),
        Tag::Reg => Sort::Word(Word::Reg),
        Tag::Behaviour => Sort::Word(Word::Behaviour),
        Tag::Parameter => Sort::Word(Word::Parameter),
        Tag::NetType => Sort::Word(Word::NetType),
        Tag::Switch => Sort::Word(Word::Switch),
        Tag::Primitive => Sort::Word(Word::Primitive),
        Tag::Strength => Sort::Word(Word::Strength),
        Tag::Name => Sort::Name(None),
        Tag::Dff => Sort::Name(Some(Cell::Dff)),
        Tag::Dffs => Sort::Name(Some(Cell::Dffs)),
        Tag::Dffe => Sort::Name(Some(Cell::Dffe)),
        Tag::Dffr => Sort::Name(Some(Cell::Dffr)),
        Tag::Zero => Sort::Bit(false),
        Tag::One => Sort::Bit(true),
        Tag::Small => Sort::Digits(number),
        Tag::Great => Sort::Digits(GREAT + number),
        Tag::Number => Sort::Number,
        Tag::Symbol => Sort::Symbol(high),
        Tag::AttrOpen => Sort::AttrOpen,
        Tag::AttrClose => Sort::AttrClose,
        Tag::Text => Sort::Text,
        Tag::System => Sort::System,
        Tag::Directive => Sort::Directive,
        Tag::End => Sort::End,
    }
}

/// The number of a name or of a great number among the names, or 0.
fn name_in(tag: Tag, number: u32) -> u32
    ensures { result ≡ packing.name_in tag number }
{
    match tag {
        Tag::Name | Tag::Dff | Tag::Dffs | Tag::Dffe | Tag::Dffr | Tag::Great => number,
        _ => 0,
    }
}
