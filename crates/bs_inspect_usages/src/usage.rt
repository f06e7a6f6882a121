//! How the words of each command stand, and the note on words that are none of them.
ghost use Rattle.std.specs.Prelude.{◌≡◌, ◌++◌, ◌<◌, ◌≤◌, [], codes, drop, length, map, option_map, slice_index_or, string_bytes, IfOk, IfSome, OnOk};
ghost use Rattle.std.specs.List.{flat_map, list_any};
ghost use Rattle.std.specs.Str.{bytes_eq};
ghost use Rattle.bs_bits.specs.Lines.{line};
ghost use Rattle.bs_note_files.specs.Notes.{plain_text};
ghost use Rattle.bs_inspect_usages.specs.Usages.{behind_text, budget_text, command_text, commands, first_wrong, hint, is_budget, is_dashed, is_others, is_wrong, line_among, line_in, option_name, options, others_hint, others_text, reason_of};
ghost use Rattle.bs_inspect_usages.specs.Usages.{unknown_text, unread_text, usages, word_text, words_text, wrong_text};

use crate::reason::{reason_sentence, word_or};
use bs_bits::{NoMemory, push_line, push_piece};
use bs_inspect_notes::{is_one_of, push_some_near, push_word};
use bs_net_names::first_split;
use bs_note_files::pair_note;
use std::alloc::Global;

/// The commands, and how the words of each stand.
const USAGES: [(&str, &str); 26] = [
    ("flops", "usage: backspace_inspect flops NETLIST"),
    ("keys", "usage: backspace_inspect keys NETLIST NAME .."),
    (
        "seen",
        "usage: backspace_inspect seen NETLIST NAME=VALUE ..",
    ),
    ("inputs", "usage: backspace_inspect inputs NETLIST"),
    ("stats", "usage: backspace_inspect stats NETLIST"),
    (
        "trace",
        "usage: backspace_inspect trace NETLIST REPORT [--all] [--from I] [--to J] [--last N] [--only NAME ..] [--csv]",
    ),
    ("steps", "usage: backspace_inspect steps REPORT [--csv]"),
    (
        "candidates",
        "usage: backspace_inspect candidates NETLIST REPORT [--only NAME ..]",
    ),
    (
        "wave",
        "usage: backspace_inspect wave NETLIST REPORT [--all] [--from CYCLE] [--only NAME ..]",
    ),
    (
        "gtkw",
        "usage: backspace_inspect gtkw NETLIST REPORT WAVE [--all] [--from CYCLE] [--only NAME ..]",
    ),
    (
        "page",
        "usage: backspace_inspect page NETLIST REPORT [--signature FILE] [--only NAME ..] [--most N]",
    ),
    (
        "stimulus",
        "usage: backspace_inspect stimulus NETLIST VCD .. --clock NAME [--scope PATH] [--map FILE]",
    ),
    (
        "check",
        "usage: backspace_inspect check NETLIST STIMULUS VCD .. [--clock NAME] [--scope PATH] [--map FILE]",
    ),
    (
        "dump",
        "usage: backspace_inspect dump NETLIST VCD --cycle N|--time T [--clock NAME] [--scope PATH] [--map FILE] [--signature FILE] [--partial]",
    ),
    (
        "signature",
        "usage: backspace_inspect signature NETLIST STIMULUS --bits N",
    ),
    (
        "unscan",
        "usage: backspace_inspect unscan NETLIST ORDER BITS",
    ),
    (
        "bench",
        "usage: backspace_inspect bench NETLIST STIMULUS REPORT TOP",
    ),
    (
        "cnf",
        "usage: backspace_inspect cnf NETLIST SIGNATURE REPORT [--step K]",
    ),
    (
        "lrat",
        "usage: backspace_inspect lrat NETLIST SIGNATURE REPORT [--step K]",
    ),
    (
        "reach-cnf",
        "usage: backspace_inspect reach-cnf NETLIST STATE ANSWER [--length J]",
    ),
    (
        "reach-lrat",
        "usage: backspace_inspect reach-lrat NETLIST STATE ANSWER [--length J]",
    ),
    (
        "novel",
        "usage: backspace_inspect novel NETLIST STIMULUS RUN [--most N]",
    ),
    (
        "near",
        "usage: backspace_inspect near NETLIST STIMULUS DUMP",
    ),
    (
        "why",
        "usage: backspace_inspect why NETLIST REPORT NAME [--at CYCLE] [--depth N] [--flops] [--all] [--csv]",
    ),
    ("help", "usage: backspace_inspect help"),
    ("version", "usage: backspace_inspect version"),
];

/// The options of all commands.
const OPTIONS: [&[u8]; 20] = [
    b"--all",
    b"--only",
    b"--clock",
    b"--scope",
    b"--map",
    b"--bits",
    b"--csv",
    b"--from",
    b"--to",
    b"--last",
    b"--cycle",
    b"--time",
    b"--signature",
    b"--step",
    b"--most",
    b"--at",
    b"--depth",
    b"--flops",
    b"--partial",
    b"--length",
];

/// The commands.
const COMMANDS: [&[u8]; 26] = [
    b"flops",
    b"keys",
    b"seen",
    b"inputs",
    b"stats",
    b"trace",
    b"steps",
    b"candidates",
    b"wave",
    b"gtkw",
    b"page",
    b"stimulus",
    b"check",
    b"dump",
    b"signature",
    b"unscan",
    b"bench",
    b"cnf",
    b"lrat",
    b"reach-cnf",
    b"reach-lrat",
    b"novel",
    b"near",
    b"why",
    b"help",
    b"version",
];

/// The options of the program `backspace`, none of which is one here. `--steps` is taken for a misspelt `--step`.
const BUDGETS: [&[u8]; 2] = [b"--candidates", b"--conflicts"];

/// The commands of the program `backspace` that are none here.
const OTHERS: [&[u8]; 4] = [b"run", b"audit", b"reach", b"demo"];

// ---- how words stand

/// Appends the line of each command of a table.
fn push_lines(text: &mut Vec<u8>, table: &[(&str, &str)]) -> Result<(), NoMemory>
    ensures { OnOk result (text.new.items ≡ text.old.items ++ flat_map (λ e. line e.1.now) table.now) }
{
    'entries: for entry in table {
        push_line(text, entry.1.as_bytes())?;
    }
    Ok(())
}

/// Appends a line for each command.
pub fn push_usages(text: &mut Vec<u8>) -> Result<(), NoMemory>
    ensures { OnOk result (text.new.items ≡ text.old.items ++ flat_map (λ u. line u.line) usages) }
{
    push_lines(text, &USAGES)
}

/// The line of a command in a table.
fn line_in<'a>(name: &[u8], table: &[(&str, &'a str)]) -> Option<&'a str>
    ensures { option_map (λ s. s.now) result ≡ line_in name.now table.now }
{
    'entries: for entry in table {
        if name == entry.0.as_bytes() {
            return Some(entry.1);
        }
    }
    None
}

// ---- wrong words

/// The name of the option that a word gives.
pub fn option_name(word: &[u8]) -> &[u8]
    ensures { result.now ≡ option_name word.now }
{
    match first_split(b'=', word) {
        Some((name, _)) => name,
        None => word,
    }
}

/// Whether a word begins as an option.
pub fn is_dashed(word: &[u8]) -> bool
    ensures { result ≡ is_dashed word.now }
{
    let dashed = word.starts_with(b"-".as_slice());
    let named = 1 < word.len();
    dashed && named
}

/// Whether a word begins as an option and is none.
fn is_wrong(word: &[u8]) -> bool
    ensures { result ≡ is_wrong word.now }
{
    let dashed = is_dashed(word);
    let known = is_one_of(option_name(word), &OPTIONS);
    dashed && !known
}

/// The number, from 1, of the first word behind the command that begins as an option and is none.
#[tactic(auto, using(crate::proofs::WordLemmas::wrong_stop, crate::proofs::WordLemmas::wrong_found, crate::proofs::WordLemmas::wrong_next, crate::proofs::WordLemmas::wrong_none))]
fn first_wrong(words: &[String]) -> Option<usize>
    ensures is { result ≡ first_wrong 2 (drop 1 (map string_bytes words.now)) }
    ensures there { IfSome result (λ number. (0 < number) × (number ≤ length words.now)) }
{
    'words: for at in 1..words.len() {
        let word = word_or(words, at);
        if word == b"--".as_slice() {
            return None;
        }
        if is_wrong(word) {
            return Some(at + 1);
        }
    }
    None
}

/// What is said of a word with its number, which is none of these names.
#[tactic(auto, unfolding(crate::specs::Usages::word_text))]
fn word_sentence(
    alloc: Global,
    number: u64,
    word: &[u8],
    name: &[u8],
    what: &str,
    known: &[&[u8]],
) -> Result<Vec<u8>, NoMemory>
    ensures { IfOk result (λ said. said.items ≡ word_text number word.now name.now what.now (map (λ n. n.now) known.now)) }
{
    let mut said = Vec::new(alloc);
    push_word(&mut said, number, word)?;
    push_piece(&mut said, b", is no ")?;
    push_piece(&mut said, what.as_bytes())?;
    push_some_near(alloc, &mut said, name, known)?;
    Ok(said)
}

/// Whether a word gives an option of the program `backspace`.
fn is_budget(word: &[u8]) -> bool
    ensures { result ≡ is_budget word.now }
{
    is_one_of(option_name(word), &BUDGETS)
}

/// What is said of such a word with its number.
#[tactic(auto, unfolding(crate::specs::Usages::budget_text))]
fn budget_sentence(alloc: Global, number: u64, word: &[u8]) -> Result<Vec<u8>, NoMemory>
    ensures { IfOk result (λ said. said.items ≡ budget_text number word.now) }
{
    let mut said = Vec::new(alloc);
    push_word(&mut said, number, word)?;
    push_piece(&mut said, b", is an option of the program `backspace`")?;
    Ok(said)
}

/// What is said of a word with its number that begins as an option and is one of no program.
fn misspelt_sentence(alloc: Global, number: u64, word: &[u8]) -> Result<Vec<u8>, NoMemory>
    ensures { IfOk result (λ said. said.items ≡ word_text number word.now (option_name word.now) (codes "option") options) }
{
    let said = word_sentence(alloc, number, word, option_name(word), "option", &OPTIONS)?;
    Ok(said)
}

/// What is said of a word with its number that begins as an option and is none.
#[tactic(auto, using(crate::proofs::WordLemmas::budget_said, crate::proofs::WordLemmas::no_budget_said))]
fn wrong_sentence(alloc: Global, number: u64, word: &[u8]) -> Result<Vec<u8>, NoMemory>
    ensures { IfOk result (λ said. said.items ≡ wrong_text number word.now) }
{
    if is_budget(word) {
        budget_sentence(alloc, number, word)
    } else {
        misspelt_sentence(alloc, number, word)
    }
}

/// A note on a word that begins as an option and is none.
fn option_note(alloc: Global, number: usize, word: &[u8], line: &str) -> Result<Vec<u8>, NoMemory>
    ensures { IfOk result (λ note. note.items ≡ plain_text (wrong_text number word.now) ++ plain_text line.now) }
{
    let said = wrong_sentence(alloc, number as u64, word)?;
    pair_note(alloc, &said, line.as_bytes())
}

/// A note on the words of a command that stand so, by the reason why these do not.
fn reason_note(alloc: Global, words: &[String], line: &str) -> Result<Vec<u8>, NoMemory>
    ensures { IfOk result (λ note. note.items ≡ plain_text (reason_of (map string_bytes words.now)) ++ plain_text line.now) }
{
    let said = reason_sentence(alloc, words)?;
    pair_note(alloc, &said, line.as_bytes())
}

/// A note on the words behind a command that stand so.
#[tactic(auto, using(crate::proofs::WordLemmas::behind_found, crate::proofs::WordLemmas::behind_none))]
fn behind_note(alloc: Global, words: &[String], line: &str) -> Result<Vec<u8>, NoMemory>
    ensures { IfOk result (λ note. note.items ≡ behind_text (map string_bytes words.now) line.now (first_wrong 2 (drop 1 (map string_bytes words.now)))) }
{
    match first_wrong(words) {
        Some(number) => option_note(alloc, number, word_or(words, number - 1), line),
        None => reason_note(alloc, words, line),
    }
}

/// Whether a word is a command of the program `backspace` that is none here.
fn is_others(command: &[u8]) -> bool
    ensures { result ≡ is_others command.now }
{
    is_one_of(command, &OTHERS)
}

/// What is said of such a word.
#[tactic(auto, unfolding(crate::specs::Usages::others_text))]
fn others_sentence(alloc: Global, command: &[u8]) -> Result<Vec<u8>, NoMemory>
    ensures { IfOk result (λ said. said.items ≡ others_text command.now) }
{
    let mut said = Vec::new(alloc);
    push_word(&mut said, 1, command)?;
    push_piece(&mut said, b", is a command of the program `backspace`")?;
    Ok(said)
}

/// A note on such a word.
fn others_note(alloc: Global, command: &[u8]) -> Result<Vec<u8>, NoMemory>
    ensures { IfOk result (λ note. note.items ≡ plain_text (others_text command.now) ++ plain_text others_hint) }
{
    let said = others_sentence(alloc, command)?;
    pair_note(
        alloc,
        &said,
        b"`backspace help` tells how the words of its commands stand",
    )
}

/// A note on a word that is a command of no program.
fn misspelt_note(alloc: Global, command: &[u8]) -> Result<Vec<u8>, NoMemory>
    ensures { IfOk result (λ note. note.items ≡ plain_text (word_text 1 command.now command.now (codes "command") commands) ++ plain_text hint) }
{
    let said = word_sentence(alloc, 1, command, command, "command", &COMMANDS)?;
    pair_note(
        alloc,
        &said,
        b"`backspace_inspect help` tells how the words of each command stand",
    )
}

/// A note on a word that is no command.
#[tactic(auto, using(crate::proofs::WordLemmas::others_said, crate::proofs::WordLemmas::misspelt_said))]
fn unknown_note(alloc: Global, command: &[u8]) -> Result<Vec<u8>, NoMemory>
    ensures { IfOk result (λ note. note.items ≡ unknown_text command.now) }
{
    if is_others(command) {
        others_note(alloc, command)
    } else {
        misspelt_note(alloc, command)
    }
}

/// A note on words that begin with this one.
fn command_note(alloc: Global, command: &[u8], words: &[String]) -> Result<Vec<u8>, NoMemory>
    ensures { IfOk result (λ note. note.items ≡ command_text command.now (map string_bytes words.now) (line_among command.now usages)) }
{
    match line_in(command, &USAGES) {
        Some(line) => behind_note(alloc, words, line),
        None => unknown_note(alloc, command),
    }
}

/// A note on words that are no request: a command or an option that is none, with the nearest, and how the command's words stand.
#[tactic(auto, using(crate::proofs::WordLemmas::no_words, crate::proofs::WordLemmas::some_words))]
pub fn words_note(alloc: Global, words: &[String]) -> Result<Vec<u8>, NoMemory>
    ensures { IfOk result (λ note. note.items ≡ words_text (map string_bytes words.now)) }
{
    if words.len() == 0 {
        return pair_note(
            alloc,
            b"there are no words",
            b"`backspace_inspect help` tells how the words of each command stand",
        );
    }
    command_note(alloc, word_or(words, 0), words)
}

/// A note on words that are no text.
pub fn unread_note(alloc: Global) -> Result<Vec<u8>, NoMemory>
    ensures { IfOk result (λ note. note.items ≡ unread_text) }
{
    pair_note(
        alloc,
        b"the words of the command line are no text in UTF-8",
        b"`backspace_inspect help` tells how the words of each command stand",
    )
}
