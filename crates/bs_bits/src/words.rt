//! The words of a line that are left, taken out one after another.
ghost use Rattle.std.specs.Prelude.{◌≡◌, ◌==◌, [], ◌∷◌, length, MatchOption};
ghost use Rattle.bs_bits.specs.Lines.{words_of};

use crate::lines::next_word;
use std::marker::Model;

/// The words of a line that are left. Contracts see the list of their bytes.
#[derive(Drop)]
pub struct Words<'a> {
    rest: Option<&'a [u8]>,
}

impl<'a> Model for Words<'a> {
    ghost use Rattle.std.specs.Prelude.{List, ℕ, [], option_map, unwrap_or};
    ghost use Rattle.bs_bits.specs.Lines.{words_of};

    ghost Value = { List (List ℕ) };

    ghost view = { λ words. unwrap_or (option_map (λ text. words_of text.now) words.rest) [] };
}

impl<'a> Words<'a> {
    /// The words of this line.
    pub fn of(line: &'a [u8]) -> Words<'a>
        ensures { result ≡ words_of line.now }
    {
        Words { rest: Some(line) }
    }

    /// Takes the first word out.
    pub fn next(&mut self) -> Option<&'a [u8]>
        ensures { MatchOption result ((self.old ≡ []) × (self.new ≡ [])) (λ word. self.old ≡ word.now ∷ self.new) }
    {
        let line = self.rest?;
        let (word, rest) = next_word(line);
        self.rest = rest;
        Some(word)
    }

    /// Whether no word is left. A word that is left may be taken out.
    pub fn end(&mut self) -> bool
        ensures { result ≡ (length self.old == 0) }
    {
        match self.next() {
            None => true,
            Some(_) => false,
        }
    }
}
