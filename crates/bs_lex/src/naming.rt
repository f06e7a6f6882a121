//! The lexemes of a text, and the table of its names.
ghost use Rattle.std.specs.Prelude.{◌≡◌, ◌≤◌, ◌<◌, [], length, Some, None, IfOk, IfSome, OnOk, Ok, slice_index_or};
ghost use Rattle.std.specs.Str.{IsAscii};
ghost use Rattle.bs_bits.specs.Reading.{Answers};
ghost use Rattle.bs_net.specs.Names.{with_key, number_of};
ghost use Rattle.bs_lex.specs.Placing.{token_text, IsAsciiName, LiesIn};
ghost use Rattle.bs_lex.specs.declared.limits.TheConstants.{MAX_BYTES};
ghost use Rattle.bs_lex.specs.Lexemes as spec;
ghost use Rattle.bs_lex.specs.declared.fault.LexFault.TheVariants.{NoMemory as want};

use crate::fault::LexFault;
use crate::lexeme::{Name, Sort, is_name};
use crate::number_limits::MAX_INDEX;
use crate::packed::Lexeme;
use crate::scan::next_token;
use crate::token::{Next, Token, TokenKind};
use crate::words::sort_of;
use bs_bits::{List, NoMemory};
use indexmap::IndexSet;
use std::alloc::Global;
use std::marker::Model;

/// The names of a text and its numbers above 65,535, each once, in the order in which they first occur. The number of a
/// name is its place, from 0; contracts see the names' bytes.
#[derive(Drop)]
pub struct NameTable {
    names: IndexSet<String>,
}

impl Model for NameTable {
    ghost use Rattle.std.specs.Prelude.{List, ℕ, map, length, ◌≤◌};
    ghost use Rattle.std.specs.String.{string_bytes};
    ghost use Rattle.bs_lex.specs.declared.limits.TheConstants.{MAX_BYTES};

    ghost Value = { List (List ℕ) };

    ghost view = { λ table. map string_bytes table.names.keys };

    ghost invariant = { λ table. length table.names.keys ≤ MAX_BYTES };
}

impl NameTable {
    /// No names.
    fn new(alloc: Global) -> NameTable
        ensures { result ≡ [] }
    {
        NameTable {
            names: IndexSet::new(alloc),
        }
    }

    /// The text of a name, or no text where it is not of this table.
    pub fn text(&self, name: Name) -> &str
        ensures { result.now ≡ slice_index_or self.now name.id [] }
    {
        match self.names.get_index(name.id as usize) {
            Some(text) => text.as_str(),
            None => "",
        }
    }

    /// The number of a name, if it is there.
    fn number(&self, name: &str) -> Option<u32>
        ensures number { result ≡ number_of self.now name.now }
        ensures range { IfSome result (λ number. number < MAX_BYTES) }
    {
        match self.names.get_index_of(name) {
            Some(number) => Some(number as u32),
            None => None,
        }
    }

    /// The number of a name, which is put at the end where it is not there yet.
    fn add(&mut self, alloc: Global, name: &str) -> Result<u32, NoMemory>
        requires { length self.old < MAX_BYTES }
        ensures ok { OnOk result (self.new ≡ with_key self.old name.now) }
        ensures number { IfOk result (λ number. Some number ≡ number_of self.new name.now) }
        ensures range { IfOk result (λ number. number < MAX_BYTES) }
    {
        match self.number(name) {
            Some(number) => Ok(number),
            None => self.append(alloc, name),
        }
    }

    /// Puts a new name at the end.
    fn append(&mut self, alloc: Global, name: &str) -> Result<u32, NoMemory>
        requires absent { number_of self.old name.now ≡ None }
        requires room { length self.old < MAX_BYTES }
        ensures ok { OnOk result (self.new ≡ with_key self.old name.now) }
        ensures number { IfOk result (λ number. Some number ≡ number_of self.new name.now) }
        ensures range { IfOk result (λ number. number < MAX_BYTES) }
    {
        let text = String::from_str(alloc, name)?;
        let (number, _) = self.names.insert_full(text)?;
        Ok(number as u32)
    }
}

/// Bytes that are ASCII, as a text.
fn ascii_text(bytes: &[u8]) -> &str
    requires { IsAscii bytes.now }
    ensures { result.now ≡ bytes.now }
{
    std::str::from_utf8(bytes).unwrap()
}

/// Whether a token is an escaped name.
fn is_escaped(kind: TokenKind) -> bool
    ensures { result ≡ spec.is_escaped kind }
{
    matches!(kind, TokenKind::Escaped)
}

/// The text of a token, of an escaped name without its `\`.
fn spelling(source: &[u8], token: Token) -> &[u8]
    requires { LiesIn source.now token }
    ensures { result.now ≡ spec.spelling source.now token }
{
    let text = &source[token.start as usize..token.stop as usize];
    if is_escaped(token.kind) {
        &text[1..]
    } else {
        text
    }
}

/// Whether a number of digits is above 65,535.
fn is_great(sort: Sort) -> bool
    ensures { result ≡ spec.is_great sort }
{
    if let Sort::Digits(number) = sort {
        number > MAX_INDEX
    } else {
        false
    }
}

/// Whether the first digit is a zero.
fn has_leading_zero(digits: &[u8]) -> bool
    ensures { result ≡ spec.has_leading_zero digits.now }
{
    match digits {
        [] => false,
        [first, ..] => *first == b'0',
    }
}

/// Digits without leading zeros.
#[tactic(auto, using(crate::proofs::NamingLemmas::no_zero_left, crate::proofs::NamingLemmas::some_digit))]
fn without_zeros(digits: &[u8]) -> &[u8]
    ensures { result.now ≡ spec.without_zeros digits.now }
{
    let mut rest = digits;
    'zeros: while has_leading_zero(rest) {
        rest = &rest[1..];
    }
    rest
}

/// The lexeme of a token, whose name is put into the table, as a number above 65,535 is.
#[tactic(auto, unfolding(crate::specs::Lexemes::name_text))]
fn lexeme(
    alloc: Global,
    table: &mut NameTable,
    source: &[u8],
    token: Token,
) -> Result<Lexeme, NoMemory>
    requires placed { LiesIn source.now token }
    requires ascii { IsAsciiName token.kind (token_text source.now token) }
    requires room { length table.old < MAX_BYTES }
    ensures names { OnOk result (table.new ≡ spec.with_name table.old (spec.name_text source.now token)) }
    ensures lexeme { IfOk result (λ l. l ≡ spec.lexeme_of table.new source.now token) }
{
    let text = spelling(source, token);
    let sort = sort_of(token.kind, text);
    if is_name(sort) {
        let number = table.add(alloc, ascii_text(text))?;
        Ok(Lexeme::new(sort, token.start, number))
    } else if is_great(sort) {
        let number = table.add(alloc, ascii_text(without_zeros(text)))?;
        Ok(Lexeme::new(sort, token.start, number))
    } else {
        Ok(Lexeme::new(sort, token.start, 0))
    }
}

/// The end of a text, as a lexeme.
fn end(source: &[u8]) -> Lexeme
    requires { length source.now ≤ MAX_BYTES }
    ensures { result ≡ spec.end_of source.now }
{
    Lexeme::new(Sort::End, source.len() as u32, 0)
}

/// Adds the lexemes of a text of at most 16 MiB: one for each token, and the end. With them go the names of the text. Otherwise
/// the first place where no token begins.
fn add_lexemes(
    alloc: Global,
    source: &[u8],
    table: &mut NameTable,
    lexemes: &mut List<Lexeme>,
) -> Result<(), LexFault>
    requires size { length source.now ≤ MAX_BYTES }
    requires names { table.old ≡ [] }
    requires lexemes { lexemes.old ≡ [] }
    ensures { Answers want (λ _. (lexemes.new, table.new)) result (spec.lexed source.now) }
{
    let mut at: usize = 0;
    'each: loop {
        match next_token(source, at) {
            Next::Found(token) => {
                let lexeme = lexeme(alloc, table, source, token)?;
                lexemes.push(lexeme)?;
                at = token.stop as usize;
            }
            Next::Refused(place) => return Err(LexFault::BadByte(place)),
            Next::End => {
                lexemes.push(end(source))?;
                return Ok(());
            }
        }
    }
}

/// The lexemes of a text of at most 16 MiB: one for each token, and the end. With them the names of the text. Otherwise
/// the first place where no token begins.
pub fn lexemes(alloc: Global, source: &[u8]) -> Result<(List<Lexeme>, NameTable), LexFault>
    requires { length source.now ≤ MAX_BYTES }
    ensures { Answers want (λ x. x) result (spec.lexed source.now) }
{
    let mut table = NameTable::new(alloc);
    let mut lexemes = List::new(alloc);
    match add_lexemes(alloc, source, &mut table, &mut lexemes) {
        Ok(()) => Ok((lexemes, table)),
        Err(fault) => {
            drop(table);
            Err(fault)
        }
    }
}
