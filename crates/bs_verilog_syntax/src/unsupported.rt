//! Which lexemes are unsupported where they cannot go on, by what is due there.
ghost use Rattle.std.specs.Prelude.{◌≡◌, ◌==◌, if◌then◌else◌, Some, None};
ghost use Rattle.bs_lex.specs.Bytes.{◌∈◌};
ghost use Rattle.bs_verilog_syntax.specs.Unsupported as table;
ghost use Rattle.bs_verilog_syntax.specs.declared.fault.What.TheVariants.{Expression as expression};

use crate::fault::What;
use crate::reading::Due;
use bs_lex::{Sort, Word};

/// The symbol that a lexeme is, or 0.
pub fn symbol_of(sort: Sort) -> u8
    ensures { result ≡ table.symbol sort }
{
    match sort {
        Sort::Symbol(c) => c,
        _ => 0,
    }
}

/// Whether a symbol is an operator.
fn is_operator(c: u8) -> bool
    ensures { result ≡ (c ∈ "+-*/%&|^~!<>?=") }
{
    matches!(
        c,
        b'+' | b'-'
            | b'*'
            | b'/'
            | b'%'
            | b'&'
            | b'|'
            | b'^'
            | b'~'
            | b'!'
            | b'<'
            | b'>'
            | b'?'
            | b'='
    )
}

/// Whether a symbol begins an expression.
fn begins_expression(c: u8) -> bool
    ensures { result ≡ (c ∈ "{(+-*/%&|^~!<>?=") }
{
    c == b'{' || c == b'(' || is_operator(c)
}

/// What is left out where a term must begin.
fn in_term(sort: Sort) -> Option<What>
    ensures { result ≡ table.in_term sort }
{
    match sort {
        Sort::Digits(_) => Some(What::Constant),
        Sort::Number => Some(What::Constant),
        Sort::Symbol(c) => {
            if begins_expression(c) {
                Some(What::Expression)
            } else {
                None
            }
        }
        _ => None,
    }
}

/// A net type after a direction.
pub fn after_direction(sort: Sort) -> Option<What>
    ensures { result ≡ table.after_direction sort }
{
    match sort {
        Sort::Word(Word::NetType) => Some(What::NetType),
        Sort::Word(Word::Reg) => Some(What::NetType),
        _ => None,
    }
}

/// What is left out where an item may begin.
fn in_item(sort: Sort) -> Option<What>
    ensures { result ≡ table.in_item sort }
{
    match sort {
        Sort::Word(Word::Behaviour) => Some(What::Behaviour),
        Sort::Word(Word::Reg) => Some(What::Behaviour),
        Sort::Word(Word::Parameter) => Some(What::Parameter),
        Sort::Word(Word::NetType) => Some(What::NetType),
        Sort::Word(Word::Switch) => Some(What::Primitive),
        Sort::Word(Word::Inout) => Some(What::Direction),
        Sort::Name(None) => Some(What::Hierarchy),
        _ => None,
    }
}

/// What a symbol stands for, if it is this symbol.
fn left_out(byte: u8, what: What, sort: Sort) -> Option<What>
    ensures { result ≡ (if table.symbol sort == byte then Some what else None) }
{
    if symbol_of(sort) == byte {
        Some(what)
    } else {
        None
    }
}

/// What is left out after a whole term.
fn after_term(sort: Sort) -> Option<What>
    ensures { result ≡ table.left_out "+-*/%&|^~!<>?=" expression sort }
{
    if is_operator(symbol_of(sort)) {
        Some(What::Expression)
    } else {
        None
    }
}

/// What is left out where a port of a header may begin.
fn in_port(sort: Sort) -> Option<What>
    ensures { result ≡ table.in_port sort }
{
    match sort {
        Sort::Word(Word::Inout) => Some(What::Direction),
        _ => None,
    }
}

/// What is left out where a module may begin.
fn in_module(sort: Sort) -> Option<What>
    ensures { result ≡ table.in_module sort }
{
    match sort {
        Sort::Word(Word::Primitive) => Some(What::Primitive),
        _ => None,
    }
}

/// Which part of the language, that is left out, a lexeme shows where it cannot go on.
pub fn unsupported(due: Due, sort: Sort) -> Option<What>
    ensures { result ≡ table.unsupported due sort }
{
    match due {
        Due::Nothing => None,
        Due::Term => in_term(sort),
        Due::AfterTerm => after_term(sort),
        Due::AfterIndex => left_out(b':', What::Width, sort),
        Due::AfterDeclared => left_out(b'=', What::Expression, sort),
        Due::AfterInstance => left_out(b'[', What::Array, sort),
        Due::AfterModule => left_out(b'#', What::Parameter, sort),
        Due::AfterDirection => after_direction(sort),
        Due::Port => in_port(sort),
        Due::Item => in_item(sort),
        Due::Module => in_module(sort),
    }
}
