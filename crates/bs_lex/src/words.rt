//! The words of a netlist: keywords, the names of cells, and numbers.
ghost use Rattle.std.specs.Prelude.{◌≡◌, ◌≤◌, ◌+◌, ◌-◌, ◌*◌, min};
ghost use Rattle.std.specs.List.{list_all, list_any};
ghost use Rattle.std.specs.Str.{bytes_eq};
ghost use Rattle.bs_lex.specs.Bytes.{◌∈◌, is_digit};
ghost use Rattle.bs_lex.specs.declared.number_limits.TheConstants.{GREAT};
ghost use Rattle.bs_lex.specs.Lexemes as spec;

use crate::classes::{byte_at, is_base};
use crate::lexeme::{Cell, Sort, Word};
use crate::number_limits::GREAT;
use crate::token::TokenKind;
use bs_net::Kind;

/// The keywords of behaviour, `reg` apart.
const BEHAVIOUR_WORDS: [&str; 11] = [
    "always", "initial", "integer", "real", "time", "event", "task", "function", "specify",
    "generate", "genvar",
];

/// The keywords of parameters.
const PARAMETER_WORDS: [&str; 3] = ["parameter", "localparam", "defparam"];

/// The net types that are left out.
const NET_WORDS: [&str; 9] = [
    "tri", "uwire", "wand", "wor", "tri0", "tri1", "triand", "trior", "trireg",
];

/// The primitives that are left out.
const SWITCH_WORDS: [&str; 18] = [
    "bufif0", "bufif1", "notif0", "notif1", "nmos", "pmos", "cmos", "rnmos", "rpmos", "rcmos",
    "tran", "tranif0", "tranif1", "rtran", "rtranif0", "rtranif1", "pullup", "pulldown",
];

/// The strengths that are keywords of nothing else.
const STRENGTH_WORDS: [&str; 8] = [
    "strong0", "pull0", "weak0", "highz0", "strong1", "pull1", "weak1", "highz1",
];

/// The keywords that the grammar tells apart.
const OWN_WORDS: [(&str, Word); 19] = [
    ("module", Word::Module),
    ("endmodule", Word::Endmodule),
    ("input", Word::Input),
    ("output", Word::Output),
    ("inout", Word::Inout),
    ("wire", Word::Wire),
    ("supply0", Word::Supply0),
    ("supply1", Word::Supply1),
    ("assign", Word::Assign),
    ("reg", Word::Reg),
    ("primitive", Word::Primitive),
    ("and", Word::Gate(Kind::And)),
    ("nand", Word::Gate(Kind::Nand)),
    ("or", Word::Gate(Kind::Or)),
    ("nor", Word::Gate(Kind::Nor)),
    ("xor", Word::Gate(Kind::Xor)),
    ("xnor", Word::Gate(Kind::Xnor)),
    ("buf", Word::Gate(Kind::Buf)),
    ("not", Word::Gate(Kind::Not)),
];

/// The cells and their names.
const CELLS: [(&str, Cell); 4] = [
    ("dff", Cell::Dff),
    ("dffs", Cell::Dffs),
    ("dffe", Cell::Dffe),
    ("dffr", Cell::Dffr),
];

/// Whether a name is one of these words.
fn is_one_of(name: &[u8], words: &[&str]) -> bool
    ensures { result ≡ list_any (λ word. bytes_eq name.now word.now) words.now }
{
    words.iter().any(|word| name == word.as_bytes())
}

/// Whether a name is a keyword of behaviour.
fn is_behaviour(name: &[u8]) -> bool
    ensures { result ≡ spec.is_one_of name.now spec.behaviour_words }
{
    is_one_of(name, &BEHAVIOUR_WORDS)
}

/// Whether a name is a keyword of parameters.
fn is_parameter(name: &[u8]) -> bool
    ensures { result ≡ spec.is_one_of name.now spec.parameter_words }
{
    is_one_of(name, &PARAMETER_WORDS)
}

/// Whether a name is the keyword of a net type that is left out.
fn is_net_type(name: &[u8]) -> bool
    ensures { result ≡ spec.is_one_of name.now spec.net_words }
{
    is_one_of(name, &NET_WORDS)
}

/// Whether a name is the keyword of a primitive that is left out.
fn is_switch(name: &[u8]) -> bool
    ensures { result ≡ spec.is_one_of name.now spec.switch_words }
{
    is_one_of(name, &SWITCH_WORDS)
}

/// Whether a name is the keyword of a strength, and of nothing else.
fn is_strength(name: &[u8]) -> bool
    ensures { result ≡ spec.is_one_of name.now spec.strength_words }
{
    is_one_of(name, &STRENGTH_WORDS)
}

/// What a table has beside a name.
fn among<T: Copy>(name: &[u8], table: &[(&str, T)]) -> Option<T>
    ensures { result ≡ spec.first_by (λ entry. bytes_eq name.now entry.0.now) (λ entry. entry.1) table.now }
{
    'entries: for entry in table {
        if name == entry.0.as_bytes() {
            return Some(entry.1);
        }
    }
    None
}

/// The keyword that a name is, of those which the grammar tells apart.
fn own_word(name: &[u8]) -> Option<Word>
    ensures { result ≡ spec.among name.now spec.own_words }
{
    among(name, &OWN_WORDS)
}

/// The keyword that a name is.
#[tactic(auto, unfolding(crate::specs::Lexemes::word_of))]
fn word_of(name: &[u8]) -> Option<Word>
    ensures { result ≡ spec.word_of name.now }
{
    if is_behaviour(name) {
        Some(Word::Behaviour)
    } else if is_parameter(name) {
        Some(Word::Parameter)
    } else if is_net_type(name) {
        Some(Word::NetType)
    } else if is_switch(name) {
        Some(Word::Switch)
    } else if is_strength(name) {
        Some(Word::Strength)
    } else {
        own_word(name)
    }
}

/// The cell of a name.
fn cell_of(name: &[u8]) -> Option<Cell>
    ensures { result ≡ spec.cell_of name.now }
{
    among(name, &CELLS)
}

/// What a name is to the grammar.
fn sort_of_name(name: &[u8]) -> Sort
    ensures { result ≡ spec.sort_of_name name.now }
{
    match word_of(name) {
        Some(word) => Sort::Word(word),
        None => Sort::Name(cell_of(name)),
    }
}

/// The number that digits are; `GREAT` stands for all greater ones.
fn saturated(digits: &[u8]) -> u32
    ensures { result ≡ min (spec.decimal_from 0 digits.now) GREAT }
{
    let mut number = 0;
    'digits: for &digit in digits {
        number = next_number(number, digit);
    }
    number
}

/// The number after one more digit; `GREAT` stands for all greater ones.
fn next_number(number: u32, digit: u8) -> u32
    requires { number ≤ GREAT }
    ensures { result ≡ min (10 * number + (digit - 48)) GREAT }
{
    (10 * number + digit.saturating_sub(b'0') as u32).min(GREAT)
}

/// Whether a number is digits alone.
fn are_digits(text: &[u8]) -> bool
    ensures { result ≡ list_all is_digit text.now }
{
    text.iter().all(|b| b.is_ascii_digit())
}

/// Whether a byte is the digit of a bit.
fn is_bit(byte: u8) -> bool
    ensures { result ≡ (byte ∈ "01") }
{
    byte == b'0' || byte == b'1'
}

/// Whether a number is one bit, such as `1'b0`.
fn is_one_bit(text: &[u8]) -> bool
    ensures { result ≡ spec.is_one_bit text.now }
{
    text.len() == 4
        && byte_at(text, 0) == b'1'
        && byte_at(text, 1) == b'\''
        && is_base(byte_at(text, 2))
        && is_bit(byte_at(text, 3))
}

/// What a number is to the grammar.
fn sort_of_number(text: &[u8]) -> Sort
    ensures { result ≡ spec.sort_of_number text.now }
{
    if are_digits(text) {
        Sort::Digits(saturated(text))
    } else if is_one_bit(text) {
        Sort::Bit(byte_at(text, 3) == b'1')
    } else {
        Sort::Number
    }
}

/// What a token of this kind and spelling is to the grammar.
#[tactic(auto, unfolding(crate::specs::Lexemes::sort_of))]
pub fn sort_of(kind: TokenKind, text: &[u8]) -> Sort
    ensures { result ≡ spec.sort_of kind text.now }
{
    match kind {
        TokenKind::Name => sort_of_name(text),
        TokenKind::Escaped => Sort::Name(cell_of(text)),
        TokenKind::System => Sort::System,
        TokenKind::Number => sort_of_number(text),
        TokenKind::Text => Sort::Text,
        TokenKind::Directive => Sort::Directive,
        TokenKind::AttrOpen => Sort::AttrOpen,
        TokenKind::AttrClose => Sort::AttrClose,
        TokenKind::Sym => Sort::Symbol(byte_at(text, 0)),
    }
}
