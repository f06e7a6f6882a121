//! The words behind a command of `backspace`: words by position, and the budgets that are given.
ghost use Rattle.std.specs.Prelude.{◌≡◌, map, string_bytes, IfOk};
ghost use Rattle.bs_top_words.specs.Asked.{given_in, setting_of, shown as shown_given};
ghost use Rattle.bs_top_words.specs.Flags.{budgets_if};
ghost use Rattle.bs_top_words.specs.Given.{read_all, start};
ghost use Rattle.bs_top_words.specs.CommandLine.{line_of, read_line, set_all, set_flag, set_to};
ghost use Rattle.bs_top_words.specs.Shown.{line_in, shown, Takes};

use crate::flags::Flag;
use crate::given::{Given, Setting, read_given};
use crate::options::{BudgetKind, value_in};
use std::alloc::{AllocError, Global};

/// The words by position, and the values of the options that are given.
#[derive(Drop)]
pub struct CommandLine<'a> {
    pub positions: Vec<&'a str>,
    pub steps: Option<u64>,
    pub candidates: Option<u64>,
    pub conflicts: Option<u64>,
}

/// Gives a budget its value, unless it has one.
fn set_to(line: &mut CommandLine<'_>, kind: BudgetKind, word: &str) -> bool
    ensures { Takes result (line_in line.new) (set_to (line_in line.old) kind word.now) }
{
    let slot = match kind {
        BudgetKind::Steps => line.steps,
        BudgetKind::Candidates => line.candidates,
        BudgetKind::Conflicts => line.conflicts,
    };
    if slot.is_some() {
        return false;
    }
    let Some(value) = value_in(kind, word) else {
        return false;
    };
    match kind {
        BudgetKind::Steps => line.steps = Some(value),
        BudgetKind::Candidates => line.candidates = Some(value),
        BudgetKind::Conflicts => line.conflicts = Some(value),
    }
    true
}

/// Gives an option its value, if it is a budget.
fn set_flag(line: &mut CommandLine<'_>, flag: Flag, word: &str) -> bool
    ensures { Takes result (line_in line.new) (set_flag (line_in line.old) flag word.now) }
{
    match flag {
        Flag::Budget(kind) => set_to(line, kind, word),
        _ => false,
    }
}

/// Gives the options their values, one after another.
fn set_all(line: &mut CommandLine<'_>, settings: &[Setting<'_>]) -> bool
    ensures { Takes result (line_in line.new) (set_all (line_in line.old) (map setting_of settings.now)) }
{
    'settings: for setting in settings {
        if !set_flag(line, setting.flag, setting.value) {
            return false;
        }
    }
    true
}

/// The line of what was read.
fn line_of(given: Given<'_>) -> Option<CommandLine<'_>>
    ensures { shown result ≡ line_of (given_in given.entry) }
{
    let mut line = CommandLine {
        positions: given.positions,
        steps: None,
        candidates: None,
        conflicts: None,
    };
    if set_all(&mut line, &given.settings) {
        Some(line)
    } else {
        None
    }
}

/// The words by position and the budgets in their order.
fn read_budgets<'a>(
    alloc: Global,
    options: bool,
    words: &'a [String],
) -> Result<Option<Given<'a>>, AllocError>
    ensures { IfOk result (λ given. shown_given given ≡ read_all (budgets_if options) (map string_bytes words.now) start) }
{
    if options {
        let budgets = [
            Flag::Budget(BudgetKind::Steps),
            Flag::Budget(BudgetKind::Candidates),
            Flag::Budget(BudgetKind::Conflicts),
        ];
        return read_given(alloc, &budgets, words);
    }
    read_given(alloc, &[], words)
}

/// The words by position and the budgets, or none where the words are out of form. `options` says whether the command
/// takes any.
pub fn read_line<'a>(
    alloc: Global,
    options: bool,
    words: &'a [String],
) -> Result<Option<CommandLine<'a>>, AllocError>
    ensures { IfOk result (λ line. shown line ≡ read_line options (map string_bytes words.now)) }
{
    match read_budgets(alloc, options, words)? {
        Some(given) => Ok(line_of(given)),
        None => Ok(None),
    }
}
