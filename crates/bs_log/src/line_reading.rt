//! The lines of a log that texts are.
ghost use Rattle.std.specs.Prelude.{◌≡◌, IfOk, IfSome, Some, None, MatchOption, option_map, ◌&&◌, nat_lt, length, if◌then◌else◌};
ghost use Rattle.bs_bits.specs.Lines.{number_in};
ghost use Rattle.bs_clause.specs.Literal.{IsVariable};
ghost use Rattle.bs_log.specs.LineForms.{IsLineOf};
ghost use Rattle.bs_log.specs.LineReading.{block_in, id_in, is_letter, lemma_in, line_in, literal_in, signed, sole_id, solve_in, some_to_end};
ghost use Rattle.bs_log.specs.LineReading.{up_to_zero, variable_of, with_hints};

use crate::line::Line;
use bs_bits::{List, NoMemory, Words, read_number};
use bs_clause::{Lit, Lits, VARIABLE_LIMIT, Var};
use std::alloc::Global;

impl Line {
    /// The line that a text is (docs/FORMATS.md, "The log"), without a line feed; `None` where it is none.
    pub fn read(alloc: Global, text: &[u8]) -> Result<Option<Line>, NoMemory>
        ensures value { IfOk result (λ line. line ≡ line_in text.now) }
        ensures exact { IfOk result (IsLineOf text.now) }
    {
        read_line(alloc, text)
    }
}

/// The line of the words of a text.
fn read_line(alloc: Global, text: &[u8]) -> Result<Option<Line>, NoMemory>
    ensures { IfOk result (λ line. line ≡ line_in text.now) }
{
    let mut words = Words::of(text);
    let Some(first) = words.next() else {
        return Ok(None);
    };
    if is_letter(first, b's') {
        Ok(solve_line(&mut words))
    } else if is_letter(first, b'b') {
        block_line(alloc, &mut words)
    } else if is_letter(first, b'e') {
        Ok(finish_line(&mut words))
    } else if is_letter(first, b'r') {
        Ok(retire_line(&mut words))
    } else if is_letter(first, b'd') {
        delete_line(alloc, &mut words)
    } else {
        lemma_line(alloc, first, &mut words)
    }
}

fn solve_line<'a>(words: &mut Words<'a>) -> Option<Line>
    ensures { result ≡ solve_in words.old }
{
    match words.next() {
        None => Some(Line::Solve),
        Some(_) => None,
    }
}

fn finish_line<'a>(words: &mut Words<'a>) -> Option<Line>
    ensures { result ≡ option_map (λ id. Line.Finish id) (sole_id words.old) }
{
    match sole_id(words) {
        None => None,
        Some(id) => Some(Line::Finish { id }),
    }
}

fn retire_line<'a>(words: &mut Words<'a>) -> Option<Line>
    ensures { result ≡ option_map (λ id. Line.Retire id) (sole_id words.old) }
{
    match sole_id(words) {
        None => None,
        Some(id) => Some(Line::Retire { id }),
    }
}

fn delete_line<'a>(alloc: Global, words: &mut Words<'a>) -> Result<Option<Line>, NoMemory>
    ensures { IfOk result (λ line. line ≡ option_map (λ ids. Line.Delete ids) (some_to_end id_in words.old)) }
{
    match ids_to_end(alloc, words)? {
        None => Ok(None),
        Some(ids) => Ok(Some(Line::Delete { ids })),
    }
}

fn block_line<'a>(alloc: Global, words: &mut Words<'a>) -> Result<Option<Line>, NoMemory>
    ensures { IfOk result (λ line. line ≡ block_in words.old) }
{
    match words.next() {
        None => Ok(None),
        Some(word) => match read_id(word) {
            None => Ok(None),
            Some(id) => block_of(alloc, id, words),
        },
    }
}

/// The block of this id, with the literals of the words.
fn block_of<'a>(alloc: Global, id: u64, words: &mut Words<'a>) -> Result<Option<Line>, NoMemory>
    ensures { IfOk result (λ line. line ≡ option_map (λ lits. Line.Block id lits) (some_to_end literal_in words.old)) }
{
    match literals(alloc, words)? {
        None => Ok(None),
        Some(lits) => {
            let ended = words.end();
            Ok(block_if(id, lits, ended))
        }
    }
}

/// The block, if it has a literal and the text ends.
fn block_if(id: u64, lits: Lits, ended: bool) -> Option<Line>
    ensures { result ≡ (if nat_lt 0 (length lits) && ended then Some (Line.Block id lits) else None) }
{
    if lits.len() > 0 && ended {
        Some(Line::Block { id, lits })
    } else {
        None
    }
}

fn lemma_line<'a>(
    alloc: Global,
    first: &[u8],
    words: &mut Words<'a>,
) -> Result<Option<Line>, NoMemory>
    ensures { IfOk result (λ line. line ≡ lemma_in first.now words.old) }
{
    match read_id(first) {
        None => Ok(None),
        Some(id) => lemma_of(alloc, id, words),
    }
}

/// The lemma of this id, with the literals and the hints of the words.
fn lemma_of<'a>(alloc: Global, id: u64, words: &mut Words<'a>) -> Result<Option<Line>, NoMemory>
    ensures { IfOk result (λ line. line ≡ with_hints id (up_to_zero literal_in words.old)) }
{
    match literals(alloc, words)? {
        None => Ok(None),
        Some(lits) => match ids_to_end(alloc, words)? {
            None => Ok(None),
            Some(hints) => Ok(Some(Line::Lemma { id, lits, hints })),
        },
    }
}

/// The id that the last word is.
fn sole_id<'a>(words: &mut Words<'a>) -> Option<u64>
    ensures { result ≡ sole_id words.old }
{
    let word = words.next()?;
    match words.next() {
        None => read_id(word),
        Some(_) => None,
    }
}

/// One or more ids and then a word `0` as the last one.
fn ids_to_end<'a>(alloc: Global, words: &mut Words<'a>) -> Result<Option<List<u64>>, NoMemory>
    ensures { IfOk result (λ ids. ids ≡ some_to_end id_in words.old) }
{
    match ids(alloc, words)? {
        None => Ok(None),
        Some(ids) => {
            let ended = words.end();
            Ok(ids_if(ids, ended))
        }
    }
}

/// The ids, if there is one and the text ends.
fn ids_if(ids: List<u64>, ended: bool) -> Option<List<u64>>
    ensures { result ≡ (if nat_lt 0 (length ids) && ended then Some ids else None) }
{
    if ids.len() > 0 && ended {
        Some(ids)
    } else {
        None
    }
}

/// The ids up to a word `0`, which is taken out too.
#[tactic(auto, using(crate::proofs::Reading::words_read))]
fn ids<'a>(alloc: Global, words: &mut Words<'a>) -> Result<Option<List<u64>>, NoMemory>
    ensures { IfOk result (λ found. MatchOption found (up_to_zero id_in words.old ≡ None) (λ ids. up_to_zero id_in words.old ≡ Some (ids, words.new))) }
{
    let mut ids = List::new(alloc);
    'words: while let Some(word) = words.next() {
        if is_letter(word, b'0') {
            return Ok(Some(ids));
        }
        match read_id(word) {
            None => return Ok(None),
            Some(id) => ids.push(id)?,
        }
    }
    Ok(None)
}

/// The literals up to a word `0`, which is taken out too.
#[tactic(auto, using(crate::proofs::Reading::words_read))]
fn literals<'a>(alloc: Global, words: &mut Words<'a>) -> Result<Option<Lits>, NoMemory>
    ensures { IfOk result (λ found. MatchOption found (up_to_zero literal_in words.old ≡ None) (λ lits. up_to_zero literal_in words.old ≡ Some (lits, words.new))) }
{
    let mut lits = Lits::new(alloc);
    'words: while let Some(word) = words.next() {
        if is_letter(word, b'0') {
            return Ok(Some(lits));
        }
        match read_literal(word) {
            None => return Ok(None),
            Some(literal) => lits.push(literal)?,
        }
    }
    Ok(None)
}

/// Whether a word is this one character.
fn is_letter(word: &[u8], letter: u8) -> bool
    ensures { result ≡ is_letter letter word.now }
{
    match word {
        [only] => *only == letter,
        _ => false,
    }
}

/// The id that a word is.
fn read_id(word: &[u8]) -> Option<u64>
    ensures { result ≡ id_in word.now }
{
    match read_number(word) {
        None => None,
        Some(number) => { if number == 0 { None } else { Some(number) } }
    }
}

/// The literal that a word is.
fn read_literal(word: &[u8]) -> Option<Lit>
    ensures { result ≡ literal_in word.now }
{
    match word {
        [] => None,
        [first, rest @ ..] => {
            if *first == b'-' {
                literal_of(false, rest)
            } else {
                literal_of(true, word)
            }
        }
    }
}

/// The literal of a variable and a sign.
fn literal_of(positive: bool, digits: &[u8]) -> Option<Lit>
    ensures { result ≡ signed positive (variable_of (number_in digits.now)) }
{
    match read_variable(digits) {
        None => None,
        Some(variable) => Some(Lit::new(Var(variable), positive)),
    }
}

/// The variable that a word is.
fn read_variable(digits: &[u8]) -> Option<u32>
    ensures value { result ≡ variable_of (number_in digits.now) }
    ensures range { IfSome result IsVariable }
{
    match read_number(digits) {
        None => None,
        Some(number) => {
            if 1 <= number && number < u64::from(VARIABLE_LIMIT) {
                Some(number as u32)
            } else {
                None
            }
        }
    }
}
