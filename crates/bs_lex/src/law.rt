//! A law of the definitions.
ghost use Rattle.bs_lex.specs.Apart.{TellsNumbersApart};

use crate::token::Token;

/// Numbers of digits are told apart as the numbers that they stand for, of any length.
pub fn numbers_are_told_apart(source: &[u8], tokens: &[Token])
    ensures { TellsNumbersApart source.now tokens.now }
{}
