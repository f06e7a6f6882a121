//! Which word is wrong, where words are no job of `backspace`.
ghost use Rattle.std.specs.Prelude.{◌≡◌, ◌<◌, ◌≤◌, map, string_bytes, IfOk};
ghost use Rattle.std.specs.Option.{option_copied};
ghost use Rattle.bs_top_words.specs.Faults.{any_word, end_of, fault_behind, fault_if, fault_of, IsWordFault, opening_behind, opening_by, opening_if, opening_of};
ghost use Rattle.bs_top_words.specs.Faults.{opening_value, option_word, scan_all, scan_word, scanned, taken, takes, value_word};
ghost use Rattle.bs_top_words.specs.Options.{value_in};
ghost use Rattle.bs_top_words.specs.declared.fault.NextWord.TheVariants.{Any as TheAny};

use crate::flags::{Flag, kind_name, value_behind};
use crate::job::has_budget;
use crate::options::{BudgetKind, is_option, value_in};

/// What is wrong with words that are no job. Places count from 0.
#[derive(Clone, Copy)]
pub enum WordFault {
    /// There are none.
    Absent,
    /// The first word is no command.
    Command,
    /// The word at this place is no option of the command.
    Option(usize),
    /// The option at this place has no value, or none that it takes.
    Value(usize),
    /// There are so many words by position, and the command takes another number.
    Positions(usize),
    /// An option stands there twice, or a word by position is none that the command takes.
    Rest,
}

/// What the next word may be.
#[derive(Clone, Copy)]
pub enum NextWord {
    /// A word by position, or an option.
    Any,
    /// The value of this budget, whose name stands at the place.
    Value(usize, BudgetKind),
    /// A word by position: a word `--` has come.
    Position,
}

/// What the next word may be, and how many words by position have come.
#[derive(Clone, Copy)]
pub struct Scan {
    pub due: NextWord,
    pub count: usize,
}

/// What a word is that begins as an option.
#[derive(Clone, Copy)]
pub enum Opening {
    /// The name of a budget, whose value is the next word.
    Waits(BudgetKind),
    /// A budget with its value.
    Whole,
    /// A budget with a value that it does not take.
    Bad,
    /// No option of the command.
    Unknown,
}

/// How many words by position a command takes, if it is one.
fn taken(command: &str) -> Option<usize>
    ensures { result ≡ taken command.now }
{
    if command == "run" {
        return Some(4);
    }
    if command == "audit" {
        return Some(5);
    }
    if command == "wave" {
        return Some(5);
    }
    if command == "dump" {
        return Some(5);
    }
    if command == "demo" {
        return Some(1);
    }
    if command == "reach" {
        return Some(3);
    }
    None
}

/// Whether a command takes a budget.
fn takes(command: &str, kind: BudgetKind) -> bool
    ensures { result ≡ takes command.now kind }
{
    match kind {
        BudgetKind::Conflicts => has_budget(command),
        BudgetKind::Steps => command == "run",
        BudgetKind::Candidates => command == "run",
    }
}

/// What a budget is with this value behind its `=`.
fn opening_value(value: Option<u64>) -> Opening
    ensures { result ≡ opening_value value }
{
    match value {
        Some(_) => Opening::Whole,
        None => Opening::Bad,
    }
}

/// What a word is with this text behind the name of a budget and `=`, or else the other.
fn opening_behind(kind: BudgetKind, value: Option<&str>, other: Opening) -> Opening
    ensures { result ≡ opening_behind kind (option_copied value.entry) other }
{
    match value {
        Some(value) => opening_value(value_in(kind, value)),
        None => other,
    }
}

/// What a word is as an option of this budget, or else the other.
fn opening_by(kind: BudgetKind, word: &str, other: Opening) -> Opening
    ensures { result ≡ opening_by kind word.now other }
{
    if word == kind_name(kind) {
        return Opening::Waits(kind);
    }
    opening_behind(kind, value_behind(Flag::Budget(kind), word), other)
}

/// The same where the command takes the budget.
fn opening_if(command: &str, kind: BudgetKind, word: &str, other: Opening) -> Opening
    ensures { result ≡ opening_if command.now kind word.now other }
{
    if takes(command, kind) {
        opening_by(kind, word, other)
    } else {
        other
    }
}

/// What a word is that begins as an option of a command.
fn opening_of(command: &str, word: &str) -> Opening
    ensures { result ≡ opening_of command.now word.now }
{
    let conflicts = opening_if(command, BudgetKind::Conflicts, word, Opening::Unknown);
    let candidates = opening_if(command, BudgetKind::Candidates, word, conflicts);
    opening_if(command, BudgetKind::Steps, word, candidates)
}

/// Takes the word at a place that begins as an option.
fn option_word(at: usize, count: usize, opening: Opening) -> Result<Scan, WordFault>
    ensures is { result ≡ option_word at count opening }
    ensures few { IfOk result (λ next. next.count ≤ count) }
{
    match opening {
        Opening::Waits(kind) => Ok(Scan {
            due: NextWord::Value(at, kind),
            count,
        }),
        Opening::Whole => Ok(Scan {
            due: NextWord::Any,
            count,
        }),
        Opening::Bad => Err(WordFault::Value(at)),
        Opening::Unknown => Err(WordFault::Option(at)),
    }
}

/// Takes the word at a place, where neither a value is due nor a word `--` has come.
fn any_word(command: &str, at: usize, count: usize, word: &str) -> Result<Scan, WordFault>
    requires { count < at }
    ensures is { result ≡ any_word command.now at count word.now }
    ensures few { IfOk result (λ next. next.count ≤ at) }
{
    if word == "--" {
        return Ok(Scan {
            due: NextWord::Position,
            count,
        });
    }
    if !is_option(word) {
        return Ok(Scan {
            due: NextWord::Any,
            count: count + 1,
        });
    }
    option_word(at, count, opening_of(command, word))
}

/// Takes the value of the option at a place.
fn value_word(place: usize, count: usize, value: Option<u64>) -> Result<Scan, WordFault>
    ensures is { result ≡ value_word place count value }
    ensures few { IfOk result (λ next. next.count ≤ count) }
{
    match value {
        Some(_) => Ok(Scan {
            due: NextWord::Any,
            count,
        }),
        None => Err(WordFault::Value(place)),
    }
}

/// Takes the word at a place.
fn scan_word(command: &str, at: usize, scan: Scan, word: &str) -> Result<Scan, WordFault>
    requires { scan.count < at }
    ensures is { result ≡ scan_word command.now at scan word.now }
    ensures few { IfOk result (λ next. next.count ≤ at) }
{
    match scan.due {
        NextWord::Any => any_word(command, at, scan.count, word),
        NextWord::Value(place, kind) => value_word(place, scan.count, value_in(kind, word)),
        NextWord::Position => Ok(Scan {
            due: NextWord::Position,
            count: scan.count + 1,
        }),
    }
}

/// How many words by position there are, where no value is due any more.
fn end_of(scan: Scan) -> Result<usize, WordFault>
    ensures { result ≡ end_of scan.due scan.count }
{
    match scan.due {
        NextWord::Any => Ok(scan.count),
        NextWord::Value(place, _) => Err(WordFault::Value(place)),
        NextWord::Position => Ok(scan.count),
    }
}

/// How many words by position stand behind a command, or what is wrong with the first word that is.
fn scan_all(command: &str, words: &[String]) -> Result<usize, WordFault>
    ensures { result ≡ scan_all command.now 1 (map string_bytes words.now) (scanned TheAny 0) }
{
    let mut scan = Scan {
        due: NextWord::Any,
        count: 0,
    };
    'words: for (i, word) in words.iter().enumerate() {
        scan = scan_word(command, i + 1, scan, word.as_str())?;
    }
    end_of(scan)
}

/// What is wrong where a command takes so many words by position.
fn fault_if(wanted: usize, counted: Result<usize, WordFault>) -> WordFault
    ensures { result ≡ fault_if wanted counted }
{
    match counted {
        Err(fault) => fault,
        Ok(count) if count == wanted => WordFault::Rest,
        Ok(count) => WordFault::Positions(count),
    }
}

/// What is wrong with words behind a command that takes so many by position, if it is one.
fn fault_behind(command: &str, words: &[String], wanted: Option<usize>) -> WordFault
    ensures { result ≡ fault_behind command.now (map string_bytes words.now) wanted }
{
    match wanted {
        Some(wanted) => fault_if(wanted, scan_all(command, words)),
        None => WordFault::Command,
    }
}

/// What is wrong, word by word.
fn fault_of(words: &[String]) -> WordFault
    ensures { result ≡ fault_of (map string_bytes words.now) }
{
    let [command, rest @ ..] = words else {
        return WordFault::Absent;
    };
    let command = command.as_str();
    fault_behind(command, rest, taken(command))
}

/// What is wrong with words that are no job: of several wrong words the first.
#[tactic(auto, using(crate::proofs::FaultLemmas::fault_is))]
pub fn word_fault(words: &[String]) -> WordFault
    ensures { IsWordFault (map string_bytes words.now) result }
{
    fault_of(words)
}
