//! Words that are no job: what is wrong, at which word, and how the command is used. A request for help or for the version is none.
ghost use Rattle.std.specs.Prelude.{◌≡◌, ◌<◌, ◌≤◌, ◌^◌, [], length, map, slice_index_or, string_bytes};
ghost use Rattle.std.specs.Str.{bytes_eq};
ghost use Rattle.bs_net_names.specs.Splits.{first_split};
ghost use Rattle.bs_top_words.specs.Faults.{command_of, IsWordFault};
ghost use Rattle.bs_note_calls.specs.Words.{before_sign, command_sentence, command_text, counted_sentence, counted_text, fault_text, help_text, is_companions, is_companions_option, is_help, IsWordsNote, listed_in, named_sentence, named_text, option_sentence, option_text};
ghost use Rattle.bs_note_calls.specs.Words.{rest_sentence, unread_text, usage, usages_text, version_sentence};

use crate::brief::{Brief, brief_pair, brief_plain};
use bs_net_names::first_split;
use bs_top_words::{VERSION, WordFault, word_fault};

/// The commands of the program `backspace_inspect` that are none here.
const COMPANIONS: [&str; 22] = [
    "flops",
    "keys",
    "seen",
    "inputs",
    "stats",
    "trace",
    "steps",
    "candidates",
    "gtkw",
    "page",
    "stimulus",
    "check",
    "signature",
    "unscan",
    "bench",
    "cnf",
    "lrat",
    "reach-cnf",
    "reach-lrat",
    "novel",
    "near",
    "why",
];

/// The options of the program `backspace_inspect`, none of which is one here. `--step` is taken for a misspelt `--steps`.
const COMPANION_OPTIONS: [&str; 19] = [
    "--all",
    "--only",
    "--clock",
    "--scope",
    "--map",
    "--bits",
    "--csv",
    "--from",
    "--to",
    "--last",
    "--cycle",
    "--time",
    "--signature",
    "--most",
    "--at",
    "--depth",
    "--flops",
    "--partial",
    "--length",
];

/// The words that ask for help or for the version.
const HELPS: [&str; 6] = ["help", "-h", "--help", "version", "-V", "--version"];

/// What is said behind the version where one of them is given.
const HELP: &str = "note: the commands of `backspace`; options stand anywhere behind a command\n\
    usage: backspace run NETLIST SIGNATURE STIMULUS DUMP [--steps L] [--candidates K] [--conflicts B]\n\
    writes the report of the way back from the dump, state by state\n\
    usage: backspace audit NETLIST SIGNATURE STIMULUS DUMP REPORT\n\
    writes `accepted`, or `rejected` and the first part of the report that fails\n\
    usage: backspace wave NETLIST SIGNATURE STIMULUS DUMP REPORT\n\
    writes a valid report's trace as a waveform, every net at every cycle\n\
    usage: backspace dump NETLIST SIGNATURE STIMULUS RUN CYCLE\n\
    writes the dump that a recorded run gives at that cycle\n\
    usage: backspace reach NETLIST STATE CYCLES [--conflicts B]\n\
    writes a shortest execution from reset to the state, or that none has CYCLES cycles or fewer\n\
    usage: backspace demo NUMBER\n\
    writes one line about a backtrace on a generated netlist; NUMBER is the seed\n\
    note: `backspace_inspect help` tells how the commands are used that make and show its files\n";

/// How a command is used, or all of them.
fn usage(command: &str) -> &'static str
    ensures text { result.now ≡ usage command.now }
    ensures short { length result.now ≤ 256 }
{
    if command == "run" {
        return "usage: backspace run NETLIST SIGNATURE STIMULUS DUMP [--steps L] [--candidates K] [--conflicts B]";
    }
    if command == "audit" {
        return "usage: backspace audit NETLIST SIGNATURE STIMULUS DUMP REPORT";
    }
    if command == "wave" {
        return "usage: backspace wave NETLIST SIGNATURE STIMULUS DUMP REPORT";
    }
    if command == "dump" {
        return "usage: backspace dump NETLIST SIGNATURE STIMULUS RUN CYCLE";
    }
    if command == "demo" {
        return "usage: backspace demo NUMBER";
    }
    if command == "reach" {
        return "usage: backspace reach NETLIST STATE CYCLES [--conflicts B]";
    }
    "usage: backspace run NETLIST SIGNATURE STIMULUS DUMP [options], audit NETLIST SIGNATURE STIMULUS DUMP REPORT, wave NETLIST SIGNATURE STIMULUS DUMP REPORT, dump NETLIST SIGNATURE STIMULUS RUN CYCLE, reach NETLIST STATE CYCLES [--conflicts B], or demo NUMBER"
}

/// What else may be wrong where each word is of its form and their number is right.
fn rest_sentence(command: &str) -> &'static str
    ensures text { result.now ≡ rest_sentence command.now }
    ensures short { length result.now ≤ 128 }
{
    if command == "run" {
        return "an option is given twice";
    }
    if command == "dump" {
        return "RUN lies between 1 and 256 and CYCLE between 0 and 65536, each in digits alone";
    }
    if command == "reach" {
        return "STATE is one or more characters 0, 1 and `-`, CYCLES lies between 0 and 1024, in digits alone, and an option is given once";
    }
    "NUMBER lies below 2^64, in digits alone"
}

/// Whether these are the same word.
fn is_same(one: &str, other: &str) -> bool
    ensures { result ≡ bytes_eq one.now other.now }
{
    one == other
}

/// Whether a word stands in a table.
fn listed_in(word: &str, table: &[&str]) -> bool
    ensures { result ≡ listed_in word.now table.now }
{
    table.iter().any(|other| is_same(*other, word))
}

/// Whether a word is a command of the program `backspace_inspect` that is none here.
fn is_companions(command: &str) -> bool
    ensures { result ≡ is_companions command.now }
{
    listed_in(command, &COMPANIONS)
}

/// What is said of a first word that is no command.
fn command_sentence(command: &str) -> &'static str
    ensures text { result.now ≡ command_sentence command.now }
    ensures short { length result.now ≤ 96 }
{
    if is_companions(command) {
        "is a command of the program `backspace_inspect`"
    } else {
        "is no command"
    }
}

/// Whether a name stands in a table.
fn named_in(name: &[u8], table: &[&str]) -> bool
    ensures { result ≡ listed_in name.now table.now }
{
    table.iter().any(|other| is_text(*other, name))
}

/// Whether a text has these bytes.
fn is_text(text: &str, bytes: &[u8]) -> bool
    ensures { result ≡ bytes_eq text.now bytes.now }
{
    text.as_bytes() == bytes
}

/// The name of the option that a word gives: what stands before its first `=`.
fn option_name(word: &[u8]) -> &[u8]
    ensures { result.now ≡ before_sign word.now (first_split 61 word.now) }
{
    match first_split(b'=', word) {
        Some((name, _)) => name,
        None => word,
    }
}

/// Whether a word gives an option of the program `backspace_inspect`.
fn is_companions_option(word: &str) -> bool
    ensures { result ≡ is_companions_option word.now }
{
    named_in(option_name(word.as_bytes()), &COMPANION_OPTIONS)
}

/// What is said of a word that begins as an option, and is none of the command.
fn option_sentence(word: &str) -> &'static str
    ensures text { result.now ≡ option_sentence word.now }
    ensures short { length result.now ≤ 96 }
{
    if is_companions_option(word) {
        "is an option of the program `backspace_inspect`"
    } else {
        "is no option of this command"
    }
}

/// What is said of a word: its number from 1, the word, and a sentence.
fn named_sentence(at: usize, word: &str, sentence: &str) -> Brief
    requires at { at < 2 ^ 63 }
    requires short { length sentence.now ≤ 96 }
    ensures text { result ≡ named_sentence at word.now sentence.now }
    ensures short { length result ≤ 767 }
{
    let mut said = Brief::of(b"word ");
    said.push_number(at as u64 + 1);
    said.push(b", `");
    said.push_shown(word.as_bytes());
    said.push(b"`, ");
    said.push(sentence.as_bytes());
    said
}

/// A note on a word; then how the command is used.
fn named_note(at: usize, word: &str, sentence: &str, usage: &str) -> Brief
    requires at { at < 2 ^ 63 }
    requires sentence { length sentence.now ≤ 96 }
    requires usage { length usage.now ≤ 256 }
    ensures { result ≡ named_text at word.now sentence.now usage.now }
{
    let said = named_sentence(at, word, sentence);
    brief_pair(said.bytes(), usage.as_bytes())
}

/// A note on a word that begins as an option, and is none of the command.
fn option_note(at: usize, word: &str, usage: &str) -> Brief
    requires at { at < 2 ^ 63 }
    requires usage { length usage.now ≤ 256 }
    ensures { result ≡ option_text at word.now usage.now }
{
    named_note(at, word, option_sentence(word), usage)
}

/// The name of the program and its version.
fn version_sentence() -> Brief
    ensures text { result ≡ version_sentence }
    ensures short { length result ≤ 64 }
{
    let mut said = Brief::of(b"backspace ");
    said.push_number(VERSION);
    said
}

/// How each command is used, and what it writes.
fn usage_words() -> &'static str
    ensures text { result.now ≡ usages_text }
    ensures short { length result.now ≤ 1152 }
{
    HELP
}

/// A note on the version, and on how each command is used.
fn help_note() -> Brief
    ensures { result ≡ help_text }
{
    let said = version_sentence();
    let mut note = brief_plain(said.bytes());
    note.push(usage_words().as_bytes());
    note
}

/// Whether a word asks for help or for the version.
fn is_help(command: &str) -> bool
    ensures { result ≡ is_help command.now }
{
    listed_in(command, &HELPS)
}

/// A note on a first word that is no command: what is asked for, where it asks for help or the version.
fn command_note(command: &str) -> Brief
    ensures { result ≡ command_text command.now }
{
    if is_help(command) {
        return help_note();
    }
    named_note(0, command, command_sentence(command), usage(command))
}

/// What is said of the number of words by position.
fn counted_sentence(given: usize) -> Brief
    ensures text { result ≡ counted_sentence given }
    ensures short { length result ≤ 128 }
{
    let mut said = Brief::of(b"the number of words by position behind the command is ");
    said.push_number(given as u64);
    said.push(b"; a file name with a space in it stands in quotes");
    said
}

/// A note on the number of words by position.
fn counted_note(given: usize, usage: &str) -> Brief
    requires { length usage.now ≤ 256 }
    ensures { result ≡ counted_text given usage.now }
{
    let said = counted_sentence(given);
    brief_pair(said.bytes(), usage.as_bytes())
}

/// The first word, or none.
fn command_of(words: &[String]) -> &str
    ensures { result.now ≡ command_of (map string_bytes words.now) }
{
    match words.first() {
        Some(command) => command.as_str(),
        None => "",
    }
}

/// The word at a place.
fn word_at(words: &[String], at: usize) -> &str
    requires { at < length words.now }
    ensures { result.now ≡ slice_index_or (map string_bytes words.now) at [] }
{
    words[at].as_str()
}

/// A note on what is wrong with words.
#[tactic(auto, using(bs_top_words::proofs::FaultLemmas::option_there, bs_top_words::proofs::FaultLemmas::value_there))]
fn fault_note(words: &[String], fault: WordFault) -> Brief
    requires { IsWordFault (map string_bytes words.now) fault }
    ensures { result ≡ fault_text (map string_bytes words.now) fault }
{
    let command = command_of(words);
    let usage = usage(command);
    match fault {
        WordFault::Absent => brief_pair(b"there are no words", usage.as_bytes()),
        WordFault::Command => command_note(command),
        WordFault::Option(at) => option_note(at, word_at(words, at), usage),
        WordFault::Value(at) => named_note(
            at,
            word_at(words, at),
            "wants a number in digits: --steps and --candidates 1 to 65536, --conflicts 1 to 2^40",
            usage,
        ),
        WordFault::Positions(given) => counted_note(given, usage),
        WordFault::Rest => brief_pair(rest_sentence(command).as_bytes(), usage.as_bytes()),
    }
}

/// A note on words that are no job.
pub fn words_note(words: &[String]) -> Brief
    ensures { IsWordsNote (map string_bytes words.now) result }
{
    let fault = word_fault(words);
    fault_note(words, fault)
}

/// A note on words that are no text.
pub fn unread_words_note() -> Brief
    ensures { result ≡ unread_text }
{
    brief_pair(
        b"the words of the command line are no text in UTF-8",
        usage("").as_bytes(),
    )
}
