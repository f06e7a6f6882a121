//! The next lexeme of a text, and what is wrong where it cannot go on.
ghost use Rattle.std.specs.Prelude.{◌≡◌, ◌≢◌, ◌<◌, ◌==◌, ◌≤◌, if◌then◌else◌, length, IfOk, MatchOption, Ok, Err, Some, None, true, false};
ghost use Rattle.bs_verilog_syntax.specs.declared.fault.VerilogFault.TheVariants.{NoMemory};
ghost use Rattle.bs_verilog_syntax.specs.Reading as spec;
ghost use Rattle.bs_verilog_syntax.specs.Unsupported as table;
ghost use Rattle.bs_verilog_syntax.specs.Terms as terms;

use crate::fault::{VerilogFault, What};
use crate::unsupported::{symbol_of, unsupported};
use bs_lex::{Lexeme, Name, Sort, is_name};

/// What is due where a lexeme cannot go on.
#[derive(Clone, Copy)]
pub enum Due {
    Nothing,
    Term,
    AfterTerm,
    AfterIndex,
    AfterDeclared,
    AfterInstance,
    AfterModule,
    AfterDirection,
    Port,
    Item,
    Module,
}

/// What a lexeme is to attributes.
#[derive(Clone, Copy)]
pub enum AttributeStep {
    /// The attributes go on, and whether one is open then.
    On(bool),
    Over,
    Unclosed,
}

/// What the next lexeme is.
pub fn sort_of(ts: &[Lexeme]) -> Sort
    ensures { result ≡ spec.sort ts.now }
{
    match ts {
        [] => Sort::End,
        [t, ..] => t.sort(),
    }
}

/// Where the next lexeme begins.
pub fn place_of(ts: &[Lexeme]) -> u32
    ensures { result ≡ spec.at ts.now }
{
    match ts {
        [] => 0,
        [t, ..] => t.at(),
    }
}

/// The next lexeme as a name.
pub fn name_of(ts: &[Lexeme]) -> Name
    ensures { result ≡ spec.name ts.now }
{
    match ts {
        [] => Name { at: 0, id: 0 },
        [t, ..] => Name {
            at: t.at(),
            id: t.name(),
        },
    }
}

/// What follows the next lexeme.
pub fn rest_of(ts: &[Lexeme]) -> &[Lexeme]
    ensures rest { result.now ≡ spec.rest ts.now }
    ensures within { length result.now ≤ length ts.now }
    ensures shorter { 0 < length ts.now → length result.now < length ts.now }
{
    match ts {
        [] => ts,
        [_, rest @ ..] => rest,
    }
}

/// Whether this symbol is next.
pub fn is_at(byte: u8, ts: &[Lexeme]) -> bool
    ensures { result ≡ (table.symbol (spec.sort ts.now) == byte) }
{
    symbol_of(sort_of(ts)) == byte
}

/// Whether a lexeme is a directive.
fn is_directive(sort: Sort) -> bool
    ensures { result ≡ spec.is_directive sort }
{
    matches!(sort, Sort::Directive)
}

/// The fault of the next lexeme, which cannot go on.
#[tactic(auto, unfolding(crate::specs::Reading::refused))]
pub fn refused(due: Due, ts: &[Lexeme]) -> VerilogFault
    ensures fault { result ≡ spec.refused due ts.now }
    ensures found { result ≢ NoMemory }
{
    match unsupported(due, sort_of(ts)) {
        Some(what) => VerilogFault::Unsupported(place_of(ts), what),
        None => {
            if is_directive(sort_of(ts)) {
                VerilogFault::Unsupported(place_of(ts), What::Directive)
            } else {
                VerilogFault::Syntax(place_of(ts))
            }
        }
    }
}

/// What follows this symbol, which must be next.
pub fn expect(byte: u8, due: Due, ts: &[Lexeme]) -> Result<&[Lexeme], VerilogFault>
    ensures skips { spec.Skips result (if table.symbol (spec.sort ts.now) == byte then Ok (spec.rest ts.now) else Err (spec.refused due ts.now)) }
    ensures within { IfOk result (λ rest. length rest.now ≤ length ts.now) }
{
    if is_at(byte, ts) {
        Ok(rest_of(ts))
    } else {
        Err(refused(due, ts))
    }
}

/// A name, which must be next.
pub fn expect_name(ts: &[Lexeme]) -> Result<(Name, &[Lexeme]), VerilogFault>
    ensures reads { spec.Reads (λ n. n) result (spec.expect_name ts.now) }
    ensures within { IfOk result (λ x. length x.1.now ≤ length ts.now) }
{
    if is_name(sort_of(ts)) {
        Ok((name_of(ts), rest_of(ts)))
    } else {
        Err(refused(Due::Nothing, ts))
    }
}

/// The number that a lexeme is, if it is digits alone.
fn digits_of(sort: Sort) -> Option<u32>
    ensures { result ≡ spec.digits sort }
{
    match sort {
        Sort::Digits(n) => Some(n),
        _ => None,
    }
}

/// A number of digits alone, which must be next.
pub fn expect_digits(ts: &[Lexeme]) -> Result<(u32, &[Lexeme]), VerilogFault>
    ensures reads { spec.Reads (λ n. n) result (spec.expect_digits ts.now) }
    ensures within { IfOk result (λ x. length x.1.now ≤ length ts.now) }
{
    match digits_of(sort_of(ts)) {
        Some(n) => Ok((n, rest_of(ts))),
        None => Err(refused(Due::Nothing, ts)),
    }
}

/// What follows a comma, if one is next.
pub fn after_comma(ts: &[Lexeme]) -> Option<&[Lexeme]>
    ensures { MatchOption result (spec.is_at "," ts.now ≡ false) (λ rest. (spec.is_at "," ts.now ≡ true) × (rest.now ≡ spec.rest ts.now) × (length rest.now < length ts.now)) }
{
    match ts {
        [] => None,
        [t, rest @ ..] => {
            if symbol_of(t.sort()) == b',' {
                Some(rest)
            } else {
                None
            }
        }
    }
}

/// What a lexeme is to attributes; the flag says that one is open.
fn attribute_step(inside: bool, sort: Sort) -> AttributeStep
    ensures { result ≡ terms.attribute_step inside sort }
{
    if inside {
        match sort {
            Sort::AttrClose => AttributeStep::On(false),
            Sort::End => AttributeStep::Unclosed,
            _ => AttributeStep::On(true),
        }
    } else {
        match sort {
            Sort::AttrOpen => AttributeStep::On(true),
            _ => AttributeStep::Over,
        }
    }
}

/// What follows the attributes that may come next.
pub fn attributes(ts: &[Lexeme]) -> Result<&[Lexeme], VerilogFault>
    ensures skips { spec.Skips result (terms.attributes ts.now) }
    ensures within { IfOk result (λ rest. length rest.now ≤ length ts.now) }
{
    let mut inside = false;
    let mut rest = ts;
    while rest.len() > 0 {
        match attribute_step(inside, sort_of(rest)) {
            AttributeStep::On(next) => inside = next,
            AttributeStep::Over => return Ok(rest),
            AttributeStep::Unclosed => return Err(VerilogFault::Syntax(place_of(rest))),
        }
        rest = rest_of(rest);
    }
    Ok(rest)
}
