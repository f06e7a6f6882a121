//! Terms, delays and attributes.
ghost use Rattle.std.specs.Prelude.{◌≡◌, ◌≤◌, ◌<◌, length, IfOk};
ghost use Rattle.bs_verilog_syntax.specs.Reading as spec;
ghost use Rattle.bs_verilog_syntax.specs.Terms as terms;

use crate::fault::VerilogFault;
use crate::listing::{Reader, listed};
use crate::reading::{
    Due, expect, expect_digits, is_at, name_of, place_of, refused, rest_of, sort_of,
};
use crate::tree::Term;
use bs_lex::{Lexeme, Sort, is_name};
use std::alloc::Global;

/// The index of a term, if there is one.
#[tactic(auto, unfolding(crate::specs::Terms::index))]
fn index(ts: &[Lexeme]) -> Result<(Option<u32>, &[Lexeme]), VerilogFault>
    ensures reads { spec.Reads (λ i. i) result (terms.index ts.now) }
    ensures within { IfOk result (λ x. length x.1.now ≤ length ts.now) }
{
    if is_at(b'[', ts) {
        let (number, rest) = expect_digits(rest_of(ts))?;
        let rest = expect(b']', Due::AfterIndex, rest)?;
        Ok((Some(number), rest))
    } else {
        Ok((None, ts))
    }
}

/// The bit that a lexeme is.
fn bit_of(sort: Sort) -> Option<bool>
    ensures { result ≡ spec.bit sort }
{
    match sort {
        Sort::Bit(b) => Some(b),
        _ => None,
    }
}

/// A term: a name and maybe an index, or a constant of one bit.
#[tactic(auto, unfolding(crate::specs::Terms::term))]
pub fn term(ts: &[Lexeme]) -> Result<(Term, &[Lexeme]), VerilogFault>
    ensures reads { spec.Reads (λ t. t) result (terms.term ts.now) }
    ensures within { IfOk result (λ x. length x.1.now ≤ length ts.now) }
{
    if let Some(value) = bit_of(sort_of(ts)) {
        return Ok((Term::Constant(place_of(ts), value), rest_of(ts)));
    }
    if is_name(sort_of(ts)) {
        let (index, rest) = index(rest_of(ts))?;
        Ok((Term::Named(name_of(ts), index), rest))
    } else {
        Err(refused(Due::Term, ts))
    }
}

/// After a number of a delay, which may have a fraction.
#[tactic(auto, unfolding(crate::specs::Terms::num))]
fn number(ts: &[Lexeme]) -> Result<&[Lexeme], VerilogFault>
    ensures skips { spec.Skips result (terms.num ts.now) }
    ensures within { IfOk result (λ rest. length rest.now ≤ length ts.now) }
{
    let (_, rest) = expect_digits(ts)?;
    if is_at(b'.', rest) {
        let (_, rest) = expect_digits(rest_of(rest))?;
        Ok(rest)
    } else {
        Ok(rest)
    }
}

/// After a time, which may be three: least, typical and greatest.
#[tactic(auto, unfolding(crate::specs::Terms::time))]
fn time(ts: &[Lexeme]) -> Result<&[Lexeme], VerilogFault>
    ensures skips { spec.Skips result (terms.time ts.now) }
    ensures within { IfOk result (λ rest. length rest.now ≤ length ts.now) }
{
    let rest = number(ts)?;
    if is_at(b':', rest) {
        let rest = number(rest_of(rest))?;
        let rest = expect(b':', Due::Nothing, rest)?;
        number(rest)
    } else {
        Ok(rest)
    }
}

/// Reads the times of a delay.
#[derive(Drop)]
struct TimeReader;

impl Reader<bool> for TimeReader {
    ghost reading = { λ _. terms.timed };

    #[tactic(auto, unfolding(crate::specs::Terms::timed))]
    fn read<'a>(
        &self,
        _alloc: Global,
        ts: &'a [Lexeme],
    ) -> Result<(bool, &'a [Lexeme]), VerilogFault> {
        let rest = time(ts)?;
        Ok((true, rest))
    }
}

/// After a delay, if there is one.
#[tactic(auto, unfolding(crate::specs::Terms::delay))]
pub fn delay(alloc: Global, ts: &[Lexeme]) -> Result<&[Lexeme], VerilogFault>
    ensures skips { spec.Skips result (terms.delay ts.now) }
{
    if !is_at(b'#', ts) {
        return Ok(ts);
    }
    let after = rest_of(ts);
    if is_at(b'(', after) {
        let (_, rest) = listed(alloc, &TimeReader, rest_of(after))?;
        expect(b')', Due::Nothing, rest)
    } else {
        time(after)
    }
}
