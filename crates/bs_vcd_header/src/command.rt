//! The commands of the declarations, by their words.
ghost use Rattle.std.specs.Prelude.{◌≡◌, map};
ghost use Rattle.bs_bits.specs.Lines.{number_in};
ghost use Rattle.bs_vcd_header.specs.Words.{id_in};
ghost use Rattle.bs_vcd_header.specs.Header.{command_of, declares, is_keyword, keyed, maybe_command, opens, shaped};

use crate::header::Variable;
use crate::words::{id_in, is_text};
use bs_bits::read_number;

/// What the words of a command say, without the `$end` behind them.
#[derive(Clone, Copy)]
pub enum Command<'a> {
    /// A scope with this name begins in the one that is open.
    Opens(&'a [u8]),
    /// The scope that is open ends.
    Closes,
    /// A variable.
    Declares(Variable<'a>),
    /// The declarations end.
    Finishes,
    /// Nothing that is asked for.
    Passes,
}

/// A scope that begins, by the words behind `$scope`.
fn opens<'a>(words: &[&'a [u8]]) -> Option<Command<'a>>
    ensures { maybe_command result ≡ opens (map (λ w. w.now) words.now) }
{
    match words {
        [_, name, ..] => Some(Command::Opens(name)),
        _ => None,
    }
}

/// A variable of so many bits.
fn shaped<'a>(
    width: Option<u64>,
    id: Option<u64>,
    name: &'a [u8],
    range: &'a [u8],
) -> Option<Command<'a>>
    ensures { maybe_command result ≡ shaped width id name.now range.now }
{
    match (width, id) {
        (Some(width), Some(id)) => Some(Command::Declares(Variable {
            scope: 0,
            width,
            id,
            name,
            range,
        })),
        _ => None,
    }
}

/// A variable, by the words behind `$var`.
fn declares<'a>(words: &[&'a [u8]]) -> Option<Command<'a>>
    ensures { maybe_command result ≡ declares (map (λ w. w.now) words.now) }
{
    match words {
        [_, width, id, name] => shaped(read_number(width), id_in(id), name, b""),
        [_, width, id, name, range, ..] => shaped(read_number(width), id_in(id), name, range),
        _ => None,
    }
}

/// Whether a word is a keyword.
fn is_keyword(word: &[u8]) -> bool
    ensures { result ≡ is_keyword word.now }
{
    match word {
        [] => false,
        [first, ..] => *first == b'$',
    }
}

/// What a command says.
fn keyed<'a>(key: &[u8], rest: &[&'a [u8]]) -> Option<Command<'a>>
    ensures { maybe_command result ≡ keyed key.now (map (λ w. w.now) rest.now) }
{
    if is_text(key, b"$scope") {
        return opens(rest);
    }
    if is_text(key, b"$upscope") {
        return Some(Command::Closes);
    }
    if is_text(key, b"$var") {
        return declares(rest);
    }
    if is_text(key, b"$enddefinitions") {
        return Some(Command::Finishes);
    }
    if is_keyword(key) {
        Some(Command::Passes)
    } else {
        None
    }
}

/// What words are a command, if they are one.
pub fn command_of<'a>(words: &[&'a [u8]]) -> Option<Command<'a>>
    ensures { maybe_command result ≡ command_of (map (λ w. w.now) words.now) }
{
    match words {
        [] => None,
        [key, rest @ ..] => keyed(key, rest),
    }
}
