//! A module's own text alone: where all that stands outside the modules are cells, it says what it says with them, so that
//! what stands outside is read with one module and not with each.
ghost use Rattle.std.specs.Prelude.{◌≡◌, not, length, false, IfOk};
ghost use Rattle.std.specs.List.{list_all};
ghost use Rattle.bs_verilog_syntax.specs.Modules.{is_end as is_end_of};
ghost use Rattle.bs_flat_meaning.specs.Pieces as pieces;
ghost use Rattle.bs_flat_modules.specs.Alone as spec;

use crate::copying::part;
use crate::items::stays_inside;
use crate::pieces::first_cut;
use crate::sorts::{is_end, is_endmodule, is_module};
use bs_bits::NoMemory;
use bs_lex::Lexeme;
use bs_verilog_syntax::sort_of;

/// Whether `endmodule` stands last and nowhere before, and no attribute is open there.
pub fn is_shut(ts: &[Lexeme]) -> bool
    ensures { result ≡ spec.is_shut false ts.now }
{
    let mut inside = false;
    let mut left = ts.len();
    'lexemes: for t in ts {
        let sort = t.sort();
        if is_endmodule(sort) {
            return !inside && left == 1;
        }
        inside = stays_inside(inside, sort);
        left -= 1;
    }
    false
}

/// Whether no lexeme is the end of a text.
fn is_endless(ts: &[Lexeme]) -> bool
    ensures { result ≡ list_all (λ t. not (is_end_of t.sort)) ts.now }
{
    ts.iter().all(|t| !is_end(t.sort()))
}

/// Whether a module is next that has no end of a text in it.
fn is_whole_module(body: &[Lexeme]) -> bool
    ensures { result ≡ spec.is_whole_module body.now }
{
    is_module(sort_of(body)) && is_endless(body)
}

/// Whether each piece of a text is a module, but for the end of the text; a text may be so and not be told.
pub fn is_tidy(ts: &[Lexeme]) -> Result<bool, NoMemory>
    ensures { IfOk result (λ b. spec.IsSure b (pieces.pieces ts.now)) }
{
    let mut from = 0;
    'pieces: while from < ts.len() {
        let rest = &ts[from..];
        if is_end(sort_of(rest)) {
            return Ok(rest.len() == 1);
        }
        let cut = first_cut(rest)?;
        if !is_whole_module(part(rest, cut.body, cut.stop)) {
            return Ok(false);
        }
        from += cut.stop;
    }
    Ok(false)
}
