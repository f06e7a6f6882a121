//! The pieces of a text: modules with their attributes, and what stands in none.
ghost use Rattle.std.specs.Prelude.{◌≡◌, ◌<◌, ◌≤◌, length, take, drop, IfOk, MatchOption, Some, None, Ok};
ghost use Rattle.bs_verilog_syntax.specs.Terms as terms;
ghost use Rattle.bs_flat_meaning.specs.Pieces as pieces;
ghost use Rattle.bs_flat_modules.specs.Dealing as spec;

use crate::sorts::{is_cell, is_endmodule, is_module};
use bs_bits::NoMemory;
use bs_lex::Lexeme;
use bs_verilog_syntax::{VerilogFault, attributes, rest_of, sort_of};

/// How many lexemes of a piece stand before its `module`, and how many it has. Both are its size where it is no module.
#[derive(Clone, Copy)]
pub struct Cut {
    pub body: usize,
    pub stop: usize,
}

/// How many lexemes the attributes are that may come next, if they are closed.
pub fn attributes_size(ts: &[Lexeme]) -> Result<Option<usize>, NoMemory>
    ensures { IfOk result (λ o. spec.IsPast ts.now o) }
{
    match attributes(ts) {
        Ok(here) => Ok(Some(ts.len() - here.len())),
        Err(VerilogFault::NoMemory) => Err(NoMemory),
        Err(_) => Ok(None),
    }
}

/// How many lexemes there are up to and with the next `endmodule`.
fn size_to_endmodule(ts: &[Lexeme]) -> Option<usize>
    ensures { MatchOption result (pieces.to_endmodule ts.now ≡ None) (λ size. spec.EndsAt ts.now size) }
{
    let mut at = 0;
    'lexemes: while at < ts.len() {
        if is_endmodule(sort_of(&ts[at..])) {
            return Some(at + 1);
        }
        at += 1;
    }
    None
}

/// The first piece, which has so many lexemes of attributes.
fn cut_behind(ts: &[Lexeme], size: usize) -> Cut
    requires some { 0 < length ts.now }
    requires passed { terms.attributes ts.now ≡ Ok (drop size ts.now) }
    requires within { size ≤ length ts.now }
    ensures { spec.CutsFirst ts.now result }
{
    let here = &ts[size..];
    if is_module(sort_of(here)) {
        match size_to_endmodule(here) {
            Some(more) => Cut {
                body: size,
                stop: size + more,
            },
            None => Cut {
                body: ts.len(),
                stop: ts.len(),
            },
        }
    } else if size == 0 {
        Cut { body: 1, stop: 1 }
    } else {
        Cut {
            body: size,
            stop: size,
        }
    }
}

/// The piece that stands first, by the size of its attributes, if they are closed.
fn cut_of(ts: &[Lexeme], size: Option<usize>) -> Cut
    requires some { 0 < length ts.now }
    requires past { spec.IsPast ts.now size }
    ensures { spec.CutsFirst ts.now result }
{
    match size {
        Some(size) => cut_behind(ts, size),
        None => Cut {
            body: ts.len(),
            stop: ts.len(),
        },
    }
}

/// The piece that stands first.
pub fn first_cut(ts: &[Lexeme]) -> Result<Cut, NoMemory>
    requires { 0 < length ts.now }
    ensures { IfOk result (λ c. spec.CutsFirst ts.now c) }
{
    let size = attributes_size(ts)?;
    Ok(cut_of(ts, size))
}

/// Whether a piece with this body is a module that is no cell.
pub fn is_design(body: &[Lexeme]) -> bool
    ensures { result ≡ spec.is_design_body body.now }
{
    is_module(sort_of(body)) && !is_cell(sort_of(rest_of(body)))
}
