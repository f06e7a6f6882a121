//! The numbers that options take.
ghost use Rattle.std.specs.Prelude.{◌≡◌, ◌<◌, ◌≤◌, map, option_map, string_bytes, IfSome};
ghost use Rattle.bs_inspect_usages.specs.declared.numbers.TheConstants.{MAX_DEPTH};
ghost use Rattle.bs_inspect_usages.specs.Numbers.{cycles_behind, cycles_of, drawn_most, items_in, layers, length_of, most_lines, step_in, step_of};

use bs_top_words::{MAX_BITS, MAX_BOUND, number_between};

/// How many layers of accounts may be asked for.
/// Nobody reads so many.
pub const MAX_DEPTH: u64 = 256;

/// How many are told where none are asked for.
/// The causes, and the causes of these: about a screen.
pub const DEFAULT_DEPTH: u64 = 2;

/// How many lines of a run's own values may be asked for: a netlist has no more flip-flops.
pub const MAX_LINES: u64 = 4_096;

/// How many signals of a kind a page may draw.
/// No netlist has so many: at most 4,096 flip-flops and as many inputs.
pub const MAX_DRAWN: u64 = 65_536;

/// How many it draws where neither a number nor a name is given.
/// A page is looked through by eye.
pub const DEFAULT_DRAWN: u64 = 100;

/// A step of a report is one of so many.
pub const MAX_STEP: u64 = 65_536;

// ---- `why`, `novel`, `page` and `signature`

/// The number of layers that a word is.
pub fn layers(word: Option<&str>) -> Option<u64>
    ensures value { result ≡ layers (option_map (λ s. s.now) word.entry) }
    ensures some { IfSome result (λ depth. 1 ≤ depth) }
    ensures few { IfSome result (λ depth. depth ≤ MAX_DEPTH) }
{
    match word {
        Some(word) => number_between(1, MAX_DEPTH, word),
        None => Some(DEFAULT_DEPTH),
    }
}

/// The number of lines that a word is: all where there is none.
pub fn most_lines(word: Option<&str>) -> Option<u64>
    ensures { result ≡ most_lines (option_map (λ s. s.now) word.entry) }
{
    match word {
        Some(word) => number_between(1, MAX_LINES, word),
        None => Some(MAX_LINES),
    }
}

/// How many signals of a kind a page draws at most, by how many are named.
pub fn drawn_most(word: Option<&str>, named: usize) -> Option<u64>
    ensures { result ≡ drawn_most (option_map (λ s. s.now) word.entry) named }
{
    match word {
        Some(word) => number_between(1, MAX_DRAWN, word),
        None => {
            if named == 0 {
                Some(DEFAULT_DRAWN)
            } else {
                Some(MAX_DRAWN)
            }
        }
    }
}

/// The number of items that a word is.
pub fn items_in(word: Option<&str>) -> Option<u64>
    ensures value { result ≡ items_in (option_map (λ s. s.now) word.entry) }
    ensures some { IfSome result (λ items. 0 < items) }
{
    match word {
        Some(word) => number_between(1, MAX_BITS, word),
        None => None,
    }
}

// ---- `cnf` and `lrat`

/// The number of a step that a word is.
fn step_of(word: &str) -> Option<Option<u64>>
    ensures { result ≡ step_of word.now }
{
    match number_between(1, MAX_STEP, word) {
        Some(step) => Some(Some(step)),
        None => None,
    }
}

/// The number of a step, if there is a word.
pub fn step_in(word: Option<&str>) -> Option<Option<u64>>
    ensures { result ≡ step_in (option_map (λ s. s.now) word.entry) }
{
    match word {
        Some(word) => step_of(word),
        None => Some(None),
    }
}

// ---- `reach-cnf` and `reach-lrat`

/// The length that a word is.
fn cycles_of(word: &str) -> Option<Option<u64>>
    ensures { result ≡ cycles_of word.now }
{
    match number_between(1, MAX_BOUND, word) {
        Some(length) => Some(Some(length)),
        None => None,
    }
}

/// The length that an option and its value say.
fn cycles_behind(option: &str, number: &str) -> Option<Option<u64>>
    ensures { result ≡ cycles_behind option.now number.now }
{
    if option == "--length" {
        cycles_of(number)
    } else {
        None
    }
}

/// The length behind the words by position, if there is one.
pub fn length_of(behind: &[String]) -> Option<Option<u64>>
    ensures { result ≡ length_of (map string_bytes behind.now) }
{
    match behind {
        [] => Some(None),
        [option, number] => cycles_behind(option.as_str(), number.as_str()),
        _ => None,
    }
}
