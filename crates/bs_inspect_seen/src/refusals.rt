//! The words of a refusal line (docs/FORMATS.md, "Values of flip-flops").
ghost use Rattle.std.specs.Prelude.{◌≡◌, ◌++◌, decimal, IfOk};
ghost use Rattle.bs_inspect_seen.specs.declared.fault.GivenFault.TheVariants.{NoMemory as GivenWant};
ghost use Rattle.bs_outside.specs.declared.file_fetch.Refusal.TheVariants.{NoMemory as Want};
ghost use Rattle.bs_top_files.specs.Refusals.{HasWords};
ghost use Rattle.bs_inspect_seen.specs.Readings.{given_words};

use crate::fault::GivenFault;
use bs_bits::{NoMemory, push_number, push_piece};
use bs_outside::Refusal;
use std::alloc::Global;

/// A word and a number.
fn number_words(alloc: Global, word: &[u8], number: u64) -> Result<Vec<u8>, NoMemory>
    ensures { IfOk result (λ why. why.items ≡ word.now ++ decimal number) }
{
    let mut why = Vec::new(alloc);
    push_piece(&mut why, word)?;
    push_number(&mut why, number)?;
    Ok(why)
}

/// The refusal of a word and a number.
fn numbered(alloc: Global, word: &[u8], number: u64) -> Refusal
    ensures { HasWords (word.now ++ decimal number) result }
{
    match number_words(alloc, word, number) {
        Ok(why) => Refusal::Why(why),
        Err(_) => Refusal::NoMemory,
    }
}

/// Why words give no values.
pub(crate) fn given_refusal(alloc: Global, fault: GivenFault) -> Refusal
    ensures why { HasWords (given_words fault) result }
    ensures want { fault ≡ GivenWant → result ≡ Want }
{
    match fault {
        GivenFault::Form(word) => numbered(alloc, b"Form ", word),
        GivenFault::Unknown(word) => numbered(alloc, b"Unknown ", word),
        GivenFault::Wide(word) => numbered(alloc, b"Wide ", word),
        GivenFault::Twice(word) => numbered(alloc, b"Twice ", word),
        GivenFault::NoMemory => Refusal::NoMemory,
    }
}
