//! Lexemes that are put together from parts of a text.
ghost use Rattle.std.specs.Prelude.{◌≡◌, ◌++◌, IfOk, OnOk};
ghost use Rattle.bs_flat_modules.specs.Copying as spec;

use bs_bits::{List, NoMemory};
use bs_lex::{GREAT, Lexeme, MAX_BYTES, MAX_INDEX, Sort};

/// The lexemes from a place on, up to another, as far as they are there.
pub fn part(ts: &[Lexeme], from: usize, stop: usize) -> &[Lexeme]
    ensures { result.now ≡ spec.part ts.now from stop }
{
    let rest = &ts[from.min(ts.len())..];
    &rest[..stop.saturating_sub(from).min(rest.len())]
}

/// The lexemes of a text that stand before a later part of it.
pub fn before<'a>(ts: &'a [Lexeme], later: &[Lexeme]) -> &'a [Lexeme]
    ensures { result.now ≡ spec.part ts.now 0 (spec.left ts.now later.now) }
{
    part(ts, 0, ts.len().saturating_sub(later.len()))
}

/// Whether a lexeme of a text may have this number: its name's, or that by which a great number is told.
fn is_numbered(sort: Sort, number: u32) -> bool
    ensures { result ≡ spec.is_numbered sort number }
{
    match sort {
        Sort::Name(_) => (number as usize) < MAX_BYTES,
        Sort::Digits(digits) => {
            if digits > MAX_INDEX {
                digits - GREAT == number && (number as usize) < MAX_BYTES
            } else {
                number == 0
            }
        }
        _ => number == 0,
    }
}

/// A lexeme once more. One that no text of 16 MiB has is answered as out of memory.
fn copied(lexeme: &Lexeme) -> Result<Lexeme, NoMemory>
    ensures { IfOk result (λ l. l ≡ lexeme.now) }
{
    let sort = lexeme.sort();
    let number = lexeme.name();
    if is_numbered(sort, number) {
        Ok(Lexeme::new(sort, lexeme.at(), number))
    } else {
        Err(NoMemory)
    }
}

/// Puts lexemes at the end.
pub fn copy(into: &mut List<Lexeme>, ts: &[Lexeme]) -> Result<(), NoMemory>
    ensures { OnOk result (into.new ≡ into.old ++ ts.now) }
{
    'lexemes: for t in ts {
        let lexeme = copied(t)?;
        into.push(lexeme)?;
    }
    Ok(())
}
