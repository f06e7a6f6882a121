//! The options behind a command, and their values.
ghost use Rattle.std.specs.Prelude.{◌≡◌, map, option_map, IfOk};
ghost use Rattle.std.specs.List.{list_all, list_any};
ghost use Rattle.bs_top_words.specs.Asked.{setting_of};
ghost use Rattle.bs_top_words.specs.Flags.{is_flag};
ghost use Rattle.bs_inspect_usages.specs.Settings.{fit, is_among, is_given, is_once, times, value_of, values_of};

use bs_bits::NoMemory;
use bs_top_words::{Flag, Setting, is_flag};
use std::alloc::Global;

/// How often an option is given.
fn times(flag: Flag, settings: &[Setting<'_>]) -> usize
    ensures { result ≡ times flag (map setting_of settings.now) }
{
    settings.iter().filter(|s| is_flag(flag, s.flag)).count()
}

/// Whether one of these options is this one.
fn any_flag(flag: Flag, settings: &[Setting<'_>]) -> bool
    ensures { result ≡ list_any (λ s. is_flag flag s.flag) settings.now }
{
    settings.iter().any(|s| is_flag(flag, s.flag))
}

/// Whether an option is given.
#[tactic(auto, using(crate::proofs::SettingLemmas::given_by))]
pub fn is_given(flag: Flag, settings: &[Setting<'_>]) -> bool
    ensures { result ≡ is_given flag (map setting_of settings.now) }
{
    any_flag(flag, settings)
}

/// The values that an option is given.
pub fn values_of<'a>(
    alloc: Global,
    flag: Flag,
    settings: &[Setting<'a>],
) -> Result<Vec<&'a str>, NoMemory>
    ensures { IfOk result (λ values. map (λ s. s.now) values.items ≡ values_of flag (map setting_of settings.now)) }
{
    let mut values = Vec::new(alloc);
    'settings: for setting in settings {
        if is_flag(flag, setting.flag) {
            values.push(setting.value)?;
        }
    }
    Ok(values)
}

/// The first value that an option is given.
#[tactic(auto, using(crate::proofs::ValueLemmas::value_more, crate::proofs::ValueLemmas::value_found, crate::proofs::ValueLemmas::value_none))]
pub fn value_of<'a>(flag: Flag, settings: &[Setting<'a>]) -> Option<&'a str>
    ensures { option_map (λ s. s.now) result ≡ value_of flag (map setting_of settings.now) }
{
    'settings: for setting in settings {
        if is_flag(flag, setting.flag) {
            return Some(setting.value);
        }
    }
    None
}

/// Whether an option is one of these.
fn is_among(flags: &[Flag], flag: Flag) -> bool
    ensures { result ≡ is_among flags.now flag }
{
    flags.iter().any(|f| is_flag(*f, flag))
}

/// Whether each option is one of these.
fn all_among(flags: &[Flag], settings: &[Setting<'_>]) -> bool
    ensures { result ≡ list_all (λ s. is_among flags.now s.flag) settings.now }
{
    settings.iter().all(|s| is_among(flags, s.flag))
}

/// Whether an option comes at most once, unless it is `--only`.
fn is_once(settings: &[Setting<'_>], flag: Flag) -> bool
    ensures { result ≡ is_once (map setting_of settings.now) flag }
{
    is_flag(Flag::Only, flag) || times(flag, settings) <= 1
}

/// Whether each of these options comes at most once.
fn each_once(flags: &[Flag], settings: &[Setting<'_>]) -> bool
    ensures { result ≡ list_all (λ f. is_once (map setting_of settings.now) f) flags.now }
{
    flags.iter().all(|f| is_once(settings, *f))
}

/// Whether each option is one of these, and comes at most once unless it is `--only`.
#[tactic(auto, using(crate::proofs::SettingLemmas::fit_then, crate::proofs::SettingLemmas::fit_else))]
pub fn fit(flags: &[Flag], settings: &[Setting<'_>]) -> bool
    ensures { result ≡ fit flags.now (map setting_of settings.now) }
{
    let each = all_among(flags, settings);
    let once = each_once(flags, settings);
    each && once
}
