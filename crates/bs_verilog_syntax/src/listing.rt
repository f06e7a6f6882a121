//! Lists with commas.
ghost use Rattle.std.specs.Prelude.{◌≤◌, ◌<◌, length, IfOk};
ghost use Rattle.bs_verilog_syntax.specs.Reading as spec;

use crate::fault::VerilogFault;
use crate::reading::{Due, after_comma, expect};
use bs_bits::List;
use bs_lex::Lexeme;
use std::alloc::Global;

/// What reads one member of a list.
pub trait Reader<T> {
    /// What it reads.
    ghost reading: { Self → spec.Rest → spec.Read T };

    fn read<'a>(&self, alloc: Global, ts: &'a [Lexeme]) -> Result<(T, &'a [Lexeme]), VerilogFault>
        ensures reads { spec.Reads (λ x. x) result (reading self.now ts.now) }
        ensures within { IfOk result (λ x. length x.1.now ≤ length ts.now) };
}

/// One or more members with commas between them. The list takes no more room than its members need.
pub fn listed<'a, T: Drop, R: Reader<T>>(
    alloc: Global,
    reader: &R,
    ts: &'a [Lexeme],
) -> Result<(List<T>, &'a [Lexeme]), VerilogFault>
    ensures reads { spec.Reads (λ xs. xs) result (spec.listed (R.reading reader.now) ts.now) }
    ensures within { IfOk result (λ x. length x.1.now ≤ length ts.now) }
{
    let mut items = Vec::new(alloc);
    let mut rest = ts;
    'members: loop {
        let (one, after) = reader.read(alloc, rest)?;
        items.push(one)?;
        match after_comma(after) {
            Some(next) => rest = next,
            None => {
                items.shrink_to_fit();
                return Ok((List::of(items), after));
            }
        }
    }
}

/// A list behind which this symbol must be next, and what follows the symbol.
pub fn closed<'a, T: Drop>(
    byte: u8,
    due: Due,
    list: List<T>,
    ts: &'a [Lexeme],
) -> Result<(List<T>, &'a [Lexeme]), VerilogFault>
    ensures reads { spec.Reads (λ xs. xs) result (spec.closed byte due list ts.now) }
    ensures within { IfOk result (λ x. length x.1.now ≤ length ts.now) }
{
    match expect(byte, due, ts) {
        Ok(rest) => Ok((list, rest)),
        Err(fault) => {
            drop(list);
            Err(fault)
        }
    }
}
