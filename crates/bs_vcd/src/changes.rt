//! What comes of a word among the value changes.
ghost use Rattle.std.specs.Prelude.{◌≡◌};
ghost use Rattle.bs_vcd.specs.History.{maybe_step, mode_in, named_step, step, step_in, step_of, remark_step};
ghost use Rattle.bs_vcd_header.specs.Words.{said_of, id_in};

use bs_vcd_header::{Said, id_in, is_text, said_of};

/// The new value of the variables with a code: a character a bit, the lowest last.
#[derive(Clone, Copy)]
pub struct ValueChange<'a> {
    pub id: u64,
    pub bits: &'a [u8],
}

/// Where a word stands.
#[derive(Clone, Copy)]
pub enum WordPlace<'a> {
    /// Where a change may begin.
    Plain,
    /// Behind the bits of a vector.
    Value(&'a [u8]),
    /// Behind a value without bits.
    Skip,
    /// In a comment.
    Remark,
}

/// What comes of a word.
#[derive(Clone, Copy)]
pub enum WordEffect<'a> {
    /// A place for the next one.
    Goes(WordPlace<'a>),
    /// A change.
    Changes(ValueChange<'a>),
    /// A time.
    Begins(u64),
    /// The dump is switched off.
    Stops,
}

/// What comes of a word where a change may begin.
fn plain_step(text: &[u8]) -> Option<WordEffect<'_>>
    ensures { maybe_step result ≡ step_of (said_of text.now) }
{
    match said_of(text) {
        None => None,
        Some(Said::Time(time)) => Some(WordEffect::Begins(time)),
        Some(Said::Scalar(bits, id)) => Some(WordEffect::Changes(ValueChange { id, bits })),
        Some(Said::Vector(bits)) => Some(WordEffect::Goes(WordPlace::Value(bits))),
        Some(Said::Passed) => Some(WordEffect::Goes(WordPlace::Skip)),
        Some(Said::Comment) => Some(WordEffect::Goes(WordPlace::Remark)),
        Some(Said::Nothing) => Some(WordEffect::Goes(WordPlace::Plain)),
        Some(Said::Off) => Some(WordEffect::Stops),
    }
}

/// The change of the variable that a word names.
fn named_step<'a>(bits: &'a [u8], text: &[u8]) -> Option<WordEffect<'a>>
    ensures { maybe_step result ≡ named_step bits.now (id_in text.now) }
{
    match id_in(text) {
        Some(id) => Some(WordEffect::Changes(ValueChange { id, bits })),
        None => None,
    }
}

/// What comes of a word in a comment.
fn remark_step<'a>(text: &[u8]) -> WordEffect<'a>
    ensures { step_in result ≡ remark_step text.now }
{
    if is_text(text, b"$end") {
        WordEffect::Goes(WordPlace::Plain)
    } else {
        WordEffect::Goes(WordPlace::Remark)
    }
}

/// What comes of a word at its place, if it may stand there.
pub fn word_step<'a>(mode: WordPlace<'a>, text: &'a [u8]) -> Option<WordEffect<'a>>
    ensures { maybe_step result ≡ step (mode_in mode.entry) text.now }
{
    match mode {
        WordPlace::Plain => plain_step(text),
        WordPlace::Value(bits) => named_step(bits, text),
        WordPlace::Skip => Some(WordEffect::Goes(WordPlace::Plain)),
        WordPlace::Remark => Some(remark_step(text)),
    }
}
