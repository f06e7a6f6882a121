//! The line of a flaw.
ghost use Rattle.std.specs.Prelude.{◌≡◌, ◌++◌, codes, decimal, IfOk, OnOk};
ghost use Rattle.bs_evidence.specs.Words.{flaw_text, flaw_words, why_word};

use crate::flaw::Flaw;
use bs_bits::{NoMemory, end_line, push_number, push_piece};
use bs_log::Why;
use std::alloc::Global;

/// The word of a reason.
fn why_word(why: Why) -> &'static [u8]
    ensures { result.now ≡ why_word why }
{
    match why {
        Why::Order => b"Order",
        Why::NoClause => b"NoClause",
        Why::Duplicate => b"Duplicate",
        Why::NotUnit => b"NotUnit",
        Why::NotFalse => b"NotFalse",
        Why::BadBlock => b"BadBlock",
        Why::BadEnd => b"BadEnd",
    }
}

/// Appends the words of a refused line of the log.
fn push_refused(text: &mut Vec<u8>, number: u64, why: Why) -> Result<(), NoMemory>
    ensures { OnOk result (text.new.items ≡ text.old.items ++ (codes "log " ++ (decimal number ++ (codes " " ++ why_word why)))) }
{
    push_piece(text, b"log ")?;
    push_number(text, number)?;
    push_piece(text, b" ")?;
    push_piece(text, why_word(why))
}

/// Appends the words of a step.
fn push_step(text: &mut Vec<u8>, number: u64, part: &[u8]) -> Result<(), NoMemory>
    ensures { OnOk result (text.new.items ≡ text.old.items ++ (codes "step " ++ (decimal number ++ part.now))) }
{
    push_piece(text, b"step ")?;
    push_number(text, number)?;
    push_piece(text, part)
}

/// Appends the words of a flaw.
fn push_words(text: &mut Vec<u8>, flaw: Flaw) -> Result<(), NoMemory>
    ensures { OnOk result (text.new.items ≡ text.old.items ++ flaw_words flaw) }
{
    match flaw {
        Flaw::Format => push_piece(text, b"format"),
        Flaw::Stop => push_piece(text, b"stop"),
        Flaw::Present(i) => push_step(text, i, b" present"),
        Flaw::Stored(i) => push_step(text, i, b" stored"),
        Flaw::NoStep => push_piece(text, b"nostep"),
        Flaw::Log(number, why) => push_refused(text, number, why),
        Flaw::Unfinished => push_piece(text, b"unfinished"),
        Flaw::Long => push_piece(text, b"long"),
    }
}

/// The line of a flaw.
pub fn flaw_text(alloc: Global, flaw: Flaw) -> Result<Vec<u8>, NoMemory>
    ensures { IfOk result (λ text. text.items ≡ flaw_text flaw) }
{
    let mut text = Vec::new(alloc);
    push_piece(&mut text, b"rejected ")?;
    push_words(&mut text, flaw)?;
    end_line(&mut text)?;
    Ok(text)
}
