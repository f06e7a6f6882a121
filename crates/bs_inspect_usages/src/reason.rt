//! Why the words behind a command do not stand as it takes them: an option is missing, is none of the command or is given twice, or a
//! value is missing, needless, or a number out of its bounds.
ghost use Rattle.std.specs.Prelude.{◌≡◌, ◌<◌, ◌≤◌, ◌++◌, ◌&&◌, [], drop, length, map, option_map, slice_index_or, string_bytes, IfOk, IfSome, OnOk};
ghost use Rattle.std.specs.List.{list_any};
ghost use Rattle.std.specs.Str.{bytes_eq};
ghost use Rattle.bs_bits.specs.Lines.{number_in};
ghost use Rattle.bs_inspect_usages.specs.Usages.{bad_text, bad_word_text, bound_text, bounds_in, bounds_of, bounds_or, bounds_piece, first_bad, gives, is_bad, is_between, is_ill, is_misplaced, is_outside, lack_if, lack_of, number_text, once_of, option_name, reason_for, reason_of, stand_of};
ghost use Rattle.bs_inspect_usages.specs.Usages.{value_of, value_text};

use crate::foreign::{foreign_sentence, is_foreign};
use crate::numbers::{MAX_DEPTH, MAX_DRAWN, MAX_LINES};
use crate::positions::placed_sentence;
use crate::twice::{again_sentence, first_again};
use crate::usage::option_name;
use crate::valued::{has_needless, is_worded, lack_sentence, lacks_value, needless_sentence};
use bs_bits::{NoMemory, push_number, push_piece, read_number};
use bs_inspect_notes::push_word;
use bs_net_names::first_split;
use bs_stim::MAX_CYCLES;
use bs_top_words::{MAX_BITS, MAX_BOUND, MAX_STEPS};
use bs_vcd_header::is_text;
use std::alloc::Global;

/// The least and the greatest number behind an option.
#[derive(Clone, Copy)]
pub struct Bounds {
    pub least: u64,
    pub most: u64,
}

/// The last time of a simulation.
pub const LAST_TIME: u64 = 18_446_744_073_709_551_615;

/// The numbers that options of commands take.
const RANGES: [((&str, &str), Bounds); 16] = [
    (
        ("signature", "--bits"),
        Bounds {
            least: 1,
            most: MAX_BITS,
        },
    ),
    (
        ("trace", "--from"),
        Bounds {
            least: 0,
            most: MAX_CYCLES as u64,
        },
    ),
    (
        ("trace", "--to"),
        Bounds {
            least: 0,
            most: MAX_CYCLES as u64,
        },
    ),
    (
        ("trace", "--last"),
        Bounds {
            least: 1,
            most: MAX_CYCLES as u64,
        },
    ),
    (
        ("wave", "--from"),
        Bounds {
            least: 0,
            most: MAX_CYCLES as u64,
        },
    ),
    (
        ("gtkw", "--from"),
        Bounds {
            least: 0,
            most: MAX_CYCLES as u64,
        },
    ),
    (
        ("dump", "--cycle"),
        Bounds {
            least: 0,
            most: MAX_CYCLES as u64,
        },
    ),
    (
        ("dump", "--time"),
        Bounds {
            least: 0,
            most: LAST_TIME,
        },
    ),
    (
        ("cnf", "--step"),
        Bounds {
            least: 1,
            most: MAX_STEPS,
        },
    ),
    (
        ("lrat", "--step"),
        Bounds {
            least: 1,
            most: MAX_STEPS,
        },
    ),
    (
        ("page", "--most"),
        Bounds {
            least: 1,
            most: MAX_DRAWN,
        },
    ),
    (
        ("novel", "--most"),
        Bounds {
            least: 1,
            most: MAX_LINES,
        },
    ),
    (
        ("reach-cnf", "--length"),
        Bounds {
            least: 1,
            most: MAX_BOUND,
        },
    ),
    (
        ("reach-lrat", "--length"),
        Bounds {
            least: 1,
            most: MAX_BOUND,
        },
    ),
    (
        ("why", "--at"),
        Bounds {
            least: 0,
            most: MAX_CYCLES as u64,
        },
    ),
    (
        ("why", "--depth"),
        Bounds {
            least: 1,
            most: MAX_DEPTH,
        },
    ),
];

/// The word at a place, and an empty one behind the last.
#[tactic(auto, using(crate::proofs::ReasonLemmas::word_there, crate::proofs::ReasonLemmas::word_past))]
pub fn word_or(words: &[String], at: usize) -> &[u8]
    ensures { result.now ≡ slice_index_or (map string_bytes words.now) at [] }
{
    if at < words.len() {
        words[at].as_bytes()
    } else {
        b""
    }
}

// ---- a number

/// Whether these are a command and an option of it.
fn are_named(command: &[u8], name: &[u8], names: (&str, &str)) -> bool
    ensures { result ≡ (bytes_eq command.now names.entry.0.now && bytes_eq name.now names.entry.1.now) }
{
    is_text(command, names.0.as_bytes()) && is_text(name, names.1.as_bytes())
}

/// The bounds in a table of the number behind an option of a command, where it takes one.
#[tactic(auto, using(crate::proofs::ReasonLemmas::entry_found, crate::proofs::ReasonLemmas::entry_next, crate::proofs::ReasonLemmas::entry_none))]
pub fn bounds_in(command: &[u8], name: &[u8], table: &[((&str, &str), Bounds)]) -> Option<Bounds>
    ensures { result ≡ bounds_in command.now name.now table.now }
{
    'entries: for entry in table {
        if are_named(command, name, entry.0) {
            return Some(entry.1);
        }
    }
    None
}

/// The bounds of the number behind an option of a command, where it takes one.
fn bounds_of(command: &[u8], name: &[u8]) -> Option<Bounds>
    ensures { result ≡ bounds_of command.now name.now }
{
    bounds_in(command, name, &RANGES)
}

/// The bounds of the number behind an option of a command, or none at all.
fn bounds_or(command: &[u8], name: &[u8]) -> Bounds
    ensures { result ≡ bounds_or command.now name.now }
{
    match bounds_of(command, name) {
        Some(bounds) => bounds,
        None => Bounds { least: 0, most: 0 },
    }
}

/// The value that a word gives its option: what stands behind its first `=`, or else the next word.
fn value_of<'a>(word: &'a [u8], next: &'a [u8]) -> &'a [u8]
    ensures { result.now ≡ value_of word.now next.now }
{
    match first_split(b'=', word) {
        Some((_, value)) => value,
        None => next,
    }
}

/// Whether there is a number, and it lies in bounds.
pub fn is_between(bounds: Bounds, number: Option<u64>) -> bool
    ensures { result ≡ is_between bounds number }
{
    match number {
        Some(number) => bounds.least <= number && number <= bounds.most,
        None => false,
    }
}

/// Whether a word behind a command gives an option another value than a number in its bounds.
fn is_outside(command: &[u8], word: &[u8], next: &[u8]) -> bool
    ensures { result ≡ is_outside (bounds_of command.now (option_name word.now)) (value_of word.now next.now) }
{
    match bounds_of(command, option_name(word)) {
        Some(bounds) => !is_between(bounds, read_number(value_of(word, next))),
        None => false,
    }
}

/// Whether a word behind a command gives its option no value that it takes.
fn is_ill(command: &[u8], word: &[u8], next: &[u8]) -> bool
    ensures { result ≡ is_ill command.now word.now next.now }
{
    let outside = is_outside(command, word, next);
    let lacks = lacks_value(word, next);
    let needless = has_needless(word);
    outside || (lacks || needless)
}

/// Whether a word behind a command gives an option of another one, or no value that its option takes.
#[tactic(auto, unfolding(crate::specs::Usages::is_bad))]
fn is_bad(command: &[u8], word: &[u8], next: &[u8]) -> bool
    ensures { result ≡ is_bad command.now word.now next.now }
{
    let foreign = is_foreign(command, word);
    let ill = is_ill(command, word, next);
    foreign || ill
}

/// The number, from 1, of the first word behind a command that is bad.
#[tactic(auto, using(crate::proofs::ReasonLemmas::bad_stop, crate::proofs::ReasonLemmas::bad_found, crate::proofs::ReasonLemmas::bad_next, crate::proofs::ReasonLemmas::bad_none))]
fn first_bad(command: &[u8], words: &[String]) -> Option<usize>
    ensures is { result ≡ first_bad command.now 2 (drop 1 (map string_bytes words.now)) }
    ensures there { IfSome result (λ number. (0 < number) × (number ≤ length words.now)) }
{
    'words: for at in 1..words.len() {
        let word = word_or(words, at);
        let next = word_or(words, at + 1);
        if word == b"--".as_slice() {
            return None;
        }
        if is_bad(command, word, next) {
            return Some(at + 1);
        }
    }
    None
}

/// Appends what is wanted in place of a number out of its bounds.
#[tactic(auto, unfolding(crate::specs::Usages::bounds_piece))]
pub fn push_bounds(said: &mut Vec<u8>, bounds: Bounds) -> Result<(), NoMemory>
    ensures { OnOk result (said.new.items ≡ said.old.items ++ bounds_piece bounds) }
{
    push_piece(said, b", wants a number in digits from ")?;
    push_number(said, bounds.least)?;
    push_piece(said, b" to ")?;
    push_number(said, bounds.most)
}

/// Appends what is said of a word with its number, whose option takes a number in these bounds.
#[tactic(auto, unfolding(crate::specs::Usages::bound_text))]
fn push_bound(said: &mut Vec<u8>, number: u64, word: &[u8], bounds: Bounds) -> Result<(), NoMemory>
    ensures { OnOk result (said.new.items ≡ said.old.items ++ bound_text number word.now bounds) }
{
    push_word(said, number, word)?;
    push_bounds(said, bounds)
}

/// What is said of a word with its number, whose option takes a number in these bounds.
fn bound_sentence(
    alloc: Global,
    number: u64,
    word: &[u8],
    bounds: Bounds,
) -> Result<Vec<u8>, NoMemory>
    ensures { IfOk result (λ said. said.items ≡ bound_text number word.now bounds) }
{
    let mut said = Vec::new(alloc);
    push_bound(&mut said, number, word, bounds)?;
    Ok(said)
}

/// What is said of a word with its number, whose option takes a number.
fn outside_sentence(
    alloc: Global,
    command: &[u8],
    number: u64,
    word: &[u8],
) -> Result<Vec<u8>, NoMemory>
    ensures { IfOk result (λ said. said.items ≡ bound_text number word.now (bounds_or command.now (option_name word.now))) }
{
    let bounds = bounds_or(command, option_name(word));
    let said = bound_sentence(alloc, number, word, bounds)?;
    Ok(said)
}

/// What is said of a word with its number by its option's value.
#[tactic(auto, using(crate::proofs::ReasonLemmas::lack_said, crate::proofs::ReasonLemmas::needless_said, crate::proofs::ReasonLemmas::outside_said))]
fn value_sentence(
    alloc: Global,
    command: &[u8],
    number: u64,
    word: &[u8],
) -> Result<Vec<u8>, NoMemory>
    ensures { IfOk result (λ said. said.items ≡ value_text command.now number word.now) }
{
    if is_worded(word) {
        return lack_sentence(alloc, number, word);
    }
    if has_needless(word) {
        return needless_sentence(alloc, number, word);
    }
    outside_sentence(alloc, command, number, word)
}

/// What is said of a word with its number that is bad.
#[tactic(auto, using(crate::proofs::ReasonLemmas::foreign_said, crate::proofs::ReasonLemmas::value_said))]
fn bad_word(alloc: Global, command: &[u8], number: u64, word: &[u8]) -> Result<Vec<u8>, NoMemory>
    ensures { IfOk result (λ said. said.items ≡ bad_word_text command.now number word.now) }
{
    if is_foreign(command, word) {
        foreign_sentence(alloc, number, word)
    } else {
        value_sentence(alloc, command, number, word)
    }
}

/// What is said of the word with a number, from 1, that is bad.
fn bad_sentence(
    alloc: Global,
    command: &[u8],
    words: &[String],
    number: usize,
) -> Result<Vec<u8>, NoMemory>
    requires { 0 < number }
    ensures { IfOk result (λ said. said.items ≡ bad_text command.now (map string_bytes words.now) number) }
{
    let word = word_or(words, number - 1);
    let said = bad_word(alloc, command, number as u64, word)?;
    Ok(said)
}

// ---- an option that is missing

/// Whether some word gives an option with this name.
fn any_gives(words: &[String], option: &[u8]) -> bool
    ensures { result ≡ list_any (λ word. bytes_eq (option_name (string_bytes word)) option.now) words.now }
{
    words
        .iter()
        .any(|word| is_text(option_name(word.as_bytes()), option))
}

/// Whether some word gives an option with this name.
#[tactic(auto, using(crate::proofs::ReasonLemmas::gives_by))]
pub fn gives(words: &[String], option: &[u8]) -> bool
    ensures { result ≡ gives option.now (map string_bytes words.now) }
{
    any_gives(words, option)
}

/// What is said of an option, unless it is given.
fn lack_if(given: bool, sentence: &'static str) -> Option<&'static str>
    ensures { option_map (λ s. s.now) result ≡ lack_if given sentence.now }
{
    if given { None } else { Some(sentence) }
}

/// What is said of an option without which a command does not go, where the words lack it.
fn lack_of(command: &[u8], words: &[String]) -> Option<&'static str>
    ensures { option_map (λ s. s.now) result ≡ lack_of command.now (map string_bytes words.now) }
{
    if is_text(command, b"stimulus") {
        return lack_if(
            gives(words, b"--clock"),
            "`--clock NAME` is missing: the name that the clock has in the simulation",
        );
    }
    if is_text(command, b"signature") {
        return lack_if(
            gives(words, b"--bits"),
            "`--bits N` is missing: how many bits the signature has",
        );
    }
    if is_text(command, b"dump") {
        let cycle = gives(words, b"--cycle");
        let time = gives(words, b"--time");
        return lack_if(
            cycle || time,
            "`--cycle N` or `--time T` is missing: the moment of the dump",
        );
    }
    None
}

// ---- the reason

/// A copy of a text.
pub fn copy_of(alloc: Global, text: &str) -> Result<Vec<u8>, NoMemory>
    ensures { IfOk result (λ said. said.items ≡ text.now) }
{
    let said = text.as_bytes().to_vec(alloc)?;
    Ok(said)
}

/// Whether a command that takes `--length` behind its files alone is given it otherwise.
fn is_misplaced(command: &[u8], words: &[String]) -> bool
    ensures { result ≡ is_misplaced command.now (map string_bytes words.now) }
{
    let trailing = is_text(command, b"reach-cnf") || is_text(command, b"reach-lrat");
    let given = gives(words, b"--length");
    let behind = is_text(word_or(words, 4), b"--length");
    trailing && (given && !behind)
}

/// What is said where no word is wrong by itself.
#[tactic(auto, using(crate::proofs::ReasonLemmas::misplaced_said, crate::proofs::ReasonLemmas::placed_said))]
fn stand_sentence(alloc: Global, command: &[u8], words: &[String]) -> Result<Vec<u8>, NoMemory>
    ensures { IfOk result (λ said. said.items ≡ stand_of command.now (map string_bytes words.now)) }
{
    if is_misplaced(command, words) {
        copy_of(
            alloc,
            "`--length J` stands behind the files, and J is a word of its own",
        )
    } else {
        placed_sentence(alloc, command, words)
    }
}

/// What is said by the first word that says what an option before it says, where there is one.
fn once_sentence(alloc: Global, command: &[u8], words: &[String]) -> Result<Vec<u8>, NoMemory>
    ensures { IfOk result (λ said. said.items ≡ once_of command.now (map string_bytes words.now)) }
{
    match first_again(words) {
        Some(number) => again_sentence(alloc, words, number),
        None => stand_sentence(alloc, command, words),
    }
}

/// What is said by the first word that is bad, where there is one.
fn number_sentence(alloc: Global, command: &[u8], words: &[String]) -> Result<Vec<u8>, NoMemory>
    ensures { IfOk result (λ said. said.items ≡ number_text command.now (map string_bytes words.now) (first_bad command.now 2 (drop 1 (map string_bytes words.now)))) }
{
    match first_bad(command, words) {
        Some(number) => bad_sentence(alloc, command, words, number),
        None => once_sentence(alloc, command, words),
    }
}

/// Why the words of a command do not stand as it takes them.
fn reason_for(alloc: Global, command: &[u8], words: &[String]) -> Result<Vec<u8>, NoMemory>
    ensures { IfOk result (λ said. said.items ≡ reason_for command.now (map string_bytes words.now)) }
{
    match lack_of(command, words) {
        Some(sentence) => copy_of(alloc, sentence),
        None => number_sentence(alloc, command, words),
    }
}

/// Why the words of a command, which is the first, do not stand as it takes them.
pub fn reason_sentence(alloc: Global, words: &[String]) -> Result<Vec<u8>, NoMemory>
    ensures { IfOk result (λ said. said.items ≡ reason_of (map string_bytes words.now)) }
{
    let command = word_or(words, 0);
    let said = reason_for(alloc, command, words)?;
    Ok(said)
}
