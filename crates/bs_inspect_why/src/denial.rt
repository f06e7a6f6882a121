//! Why there is no account.
ghost use Rattle.std.specs.Prelude.{◌≡◌, ◌++◌, IfOk, OnOk};
ghost use Rattle.bs_inspect_why.specs.Denials.{denial_text, denial_words};

use bs_bits::{NoMemory, end_line, push_piece};
use std::alloc::Global;

/// Why there is no account of what is asked.
#[derive(Clone, Copy)]
pub enum Denial {
    /// The moment is not one of the trace's.
    Moment,
    /// The name is that of data inputs and of nets without a driver alone, which nothing forces.
    Input,
    /// At the last moment, which has no input, a bit is open.
    Open,
}

/// An answer: a text, or why there is none.
#[derive(Drop)]
pub enum WhyAnswer {
    Text(Vec<u8>),
    Denied(Denial),
}

/// Appends the words of a denial.
fn push_words(text: &mut Vec<u8>, denial: Denial) -> Result<(), NoMemory>
    ensures { OnOk result (text.new.items ≡ text.old.items ++ denial_words denial) }
{
    match denial {
        Denial::Moment => push_piece(text, b"moment"),
        Denial::Input => push_piece(text, b"input"),
        Denial::Open => push_piece(text, b"open"),
    }
}

/// The line of a denial.
pub fn denial_text(alloc: Global, denial: Denial) -> Result<Vec<u8>, NoMemory>
    ensures { IfOk result (λ text. text.items ≡ denial_text denial) }
{
    let mut text = Vec::new(alloc);
    push_piece(&mut text, b"rejected ")?;
    push_words(&mut text, denial)?;
    end_line(&mut text)?;
    Ok(text)
}
