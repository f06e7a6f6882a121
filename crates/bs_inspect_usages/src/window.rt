//! Which states of a trace `trace` tells.
ghost use Rattle.std.specs.Prelude.{◌≡◌, map, option_map};
ghost use Rattle.bs_top_words.specs.Asked.{setting_of};
ghost use Rattle.bs_inspect_usages.specs.Numbers.{cycle_at, from_of, last_of, some_cycle, window_for, window_of};

use crate::settings::value_of;
use bs_stim::MAX_CYCLES;
use bs_top_words::{Flag, Setting, number_between};

/// Which states of a trace are told: from the one with a number on, up to the one with another, and of the last so many, where these are
/// given.
#[derive(Clone, Copy)]
pub struct TraceWindow {
    pub from: u64,
    pub to: Option<u64>,
    pub last: Option<u64>,
}

/// The cycle at which a waveform begins, or the first state that is told.
pub fn from_of(word: Option<&str>) -> Option<u64>
    ensures { result ≡ from_of (option_map (λ s. s.now) word.entry) }
{
    match word {
        Some(word) => number_between(0, MAX_CYCLES as u64, word),
        None => Some(0),
    }
}

/// A number, where it is one.
fn some_cycle(cycle: Option<u64>) -> Option<Option<u64>>
    ensures { result ≡ some_cycle cycle }
{
    match cycle {
        Some(cycle) => Some(Some(cycle)),
        None => None,
    }
}

/// The cycle that a word is, and none where there is no word.
pub fn cycle_at(word: Option<&str>) -> Option<Option<u64>>
    ensures { result ≡ cycle_at (option_map (λ s. s.now) word.entry) }
{
    match word {
        Some(word) => some_cycle(number_between(0, u64::from(MAX_CYCLES), word)),
        None => Some(None),
    }
}

/// How many of the last states a word says, and none where there is no word.
fn last_of(word: Option<&str>) -> Option<Option<u64>>
    ensures { result ≡ last_of (option_map (λ s. s.now) word.entry) }
{
    match word {
        Some(word) => some_cycle(number_between(1, u64::from(MAX_CYCLES), word)),
        None => Some(None),
    }
}

/// The states that are told, where each number is one.
fn window_for(
    from: Option<u64>,
    to: Option<Option<u64>>,
    last: Option<Option<u64>>,
) -> Option<TraceWindow>
    ensures { result ≡ window_for from to last }
{
    match (from, to, last) {
        (Some(from), Some(to), Some(last)) => Some(TraceWindow { from, to, last }),
        _ => None,
    }
}

/// The states that are told by these options.
pub fn window_of(settings: &[Setting<'_>]) -> Option<TraceWindow>
    ensures { result ≡ window_of (map setting_of settings.now) }
{
    window_for(
        from_of(value_of(Flag::From, settings)),
        cycle_at(value_of(Flag::To, settings)),
        last_of(value_of(Flag::Last, settings)),
    )
}
