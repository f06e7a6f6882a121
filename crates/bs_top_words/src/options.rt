//! Numbers among the words, and the words that are options.
ghost use Rattle.std.specs.Prelude.{◌≡◌};
ghost use Rattle.std.specs.Option.{option_copied};
ghost use Rattle.bs_top_words.specs.Options.{greatest, has_dash, is_option, number_between, rest_of, value_in};

use crate::limits::{MAX_CANDIDATES, MAX_CONFLICTS, MAX_STEPS};
use bs_bits::read_number;

/// A budget of a run or of a search.
#[derive(Clone, Copy)]
pub enum BudgetKind {
    Steps,
    Candidates,
    Conflicts,
}

/// The number that a word is, if it lies between two bounds, both included.
pub fn number_between(low: u64, high: u64, word: &str) -> Option<u64>
    ensures { result ≡ number_between low high word.now }
{
    match read_number(word.as_bytes()) {
        Some(number) if low <= number && number <= high => Some(number),
        _ => None,
    }
}

/// The greatest value of a budget. The least is 1.
fn greatest(kind: BudgetKind) -> u64
    ensures { result ≡ greatest kind }
{
    match kind {
        BudgetKind::Steps => MAX_STEPS,
        BudgetKind::Candidates => MAX_CANDIDATES,
        BudgetKind::Conflicts => MAX_CONFLICTS,
    }
}

/// The value that a word gives a budget.
pub fn value_in(kind: BudgetKind, word: &str) -> Option<u64>
    ensures { result ≡ value_in kind word.now }
{
    number_between(1, greatest(kind), word)
}

/// Whether a word begins with `-`.
pub fn has_dash(word: &str) -> bool
    ensures { result ≡ has_dash word.now }
{
    match word.as_bytes() {
        [first, ..] => *first == b'-',
        [] => false,
    }
}

/// Whether a word begins with `-` and is not the single `-`.
pub fn is_option(word: &str) -> bool
    ensures { result ≡ is_option word.now }
{
    has_dash(word) && word != "-"
}

/// What stands behind a prefix.
pub fn rest_of<'a>(prefix: &str, word: &'a str) -> Option<&'a str>
    ensures { option_copied result ≡ rest_of prefix.now word.now }
{
    word.strip_prefix(prefix)
}
