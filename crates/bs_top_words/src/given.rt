//! The words behind the command, one after another: words by position, and options of the command's table with their values
//! among them.
ghost use Rattle.std.specs.Prelude.{◌≡◌, map, string_bytes, IfOk, Some};
ghost use Rattle.bs_top_words.specs.Shown.{Takes};
ghost use Rattle.bs_top_words.specs.Given.{add_position, add_setting, awaited_after, equals_step, more_step, option_step, plain_step, read_all, setting_in, start, step, value_step};
ghost use Rattle.bs_top_words.specs.Asked.{given_in, shown, shown_setting, progress_in};

use crate::flags::{Flag, flag_of, has_value, value_behind};
use crate::options::{has_dash, is_option};
use std::alloc::{AllocError, Global};

/// What the next word may be.
#[derive(Clone, Copy)]
pub enum Awaited {
    /// A word by position, or an option.
    Plain,
    /// The value of this option.
    Value(Flag),
    /// A further name of `--only`, or an option.
    More,
    /// A word by position: a word `--` has come.
    Positions,
}

/// An option with its value. An option without one has the empty value.
#[derive(Clone, Copy)]
pub struct Setting<'a> {
    pub flag: Flag,
    pub value: &'a str,
}

/// The words by position, and the options in their order.
#[derive(Drop)]
pub struct Given<'a> {
    pub positions: Vec<&'a str>,
    pub settings: Vec<Setting<'a>>,
}

/// What has been read, and what may come.
#[derive(Drop)]
pub struct Progress<'a> {
    pub awaited: Awaited,
    pub given: Given<'a>,
}

/// Takes a word by position.
fn add_position<'a>(
    progress: &mut Progress<'a>,
    awaited: Awaited,
    word: &'a str,
) -> Result<bool, AllocError>
    ensures { IfOk result (λ went. Takes went (progress_in progress.new) (Some (record { awaited = awaited; given = add_position (given_in progress.old.given) word.now }))) }
{
    progress.given.positions.push(word)?;
    progress.awaited = awaited;
    Ok(true)
}

/// Takes an option with its value.
fn add_setting<'a>(
    progress: &mut Progress<'a>,
    awaited: Awaited,
    flag: Flag,
    value: &'a str,
) -> Result<bool, AllocError>
    ensures { IfOk result (λ went. Takes went (progress_in progress.new) (Some (record { awaited = awaited; given = add_setting (given_in progress.old.given) flag value.now }))) }
{
    progress.given.settings.push(Setting { flag, value })?;
    progress.awaited = awaited;
    Ok(true)
}

/// What may come after the value of an option.
fn awaited_after(flag: Flag) -> Awaited
    ensures { result ≡ awaited_after flag }
{
    match flag {
        Flag::Only => Awaited::More,
        _ => Awaited::Plain,
    }
}

/// Takes the name of an option.
fn option_step<'a>(progress: &mut Progress<'a>, flag: Flag) -> Result<bool, AllocError>
    ensures { IfOk result (λ went. Takes went (progress_in progress.new) (Some (option_step (given_in progress.old.given) flag))) }
{
    if !has_value(flag) {
        return add_setting(progress, Awaited::Plain, flag, "");
    }
    progress.awaited = Awaited::Value(flag);
    Ok(true)
}

/// The option of a table, and the value, of a word such as `--clock=ck`.
#[tactic(auto, using(crate::proofs::ValueLemmas::setting_more, crate::proofs::ValueLemmas::setting_found, crate::proofs::ValueLemmas::setting_none))]
fn setting_in<'a>(flags: &[Flag], word: &'a str) -> Option<Setting<'a>>
    ensures { shown_setting result ≡ setting_in flags.now word.now }
{
    'flags: for &flag in flags {
        if let Some(value) = value_behind(flag, word) {
            return Some(Setting { flag, value });
        }
    }
    None
}

/// Takes a word with an option and its value.
fn equals_step<'a>(
    flags: &[Flag],
    progress: &mut Progress<'a>,
    word: &'a str,
) -> Result<bool, AllocError>
    ensures { IfOk result (λ went. Takes went (progress_in progress.new) (equals_step flags.now (given_in progress.old.given) word.now)) }
{
    match setting_in(flags, word) {
        Some(setting) => add_setting(
            progress,
            awaited_after(setting.flag),
            setting.flag,
            setting.value,
        ),
        None => Ok(false),
    }
}

/// Takes a word where neither a value is due nor a word `--` has come.
fn plain_step<'a>(
    flags: &[Flag],
    progress: &mut Progress<'a>,
    word: &'a str,
) -> Result<bool, AllocError>
    ensures { IfOk result (λ went. Takes went (progress_in progress.new) (plain_step flags.now (given_in progress.old.given) word.now)) }
{
    if word == "--" {
        progress.awaited = Awaited::Positions;
        return Ok(true);
    }
    if !is_option(word) {
        return add_position(progress, Awaited::Plain, word);
    }
    match flag_of(flags, word) {
        Some(flag) => option_step(progress, flag),
        None => equals_step(flags, progress, word),
    }
}

/// Takes a word where a further name may stand.
fn more_step<'a>(
    flags: &[Flag],
    progress: &mut Progress<'a>,
    word: &'a str,
) -> Result<bool, AllocError>
    ensures { IfOk result (λ went. Takes went (progress_in progress.new) (more_step flags.now (given_in progress.old.given) word.now)) }
{
    if is_option(word) {
        return plain_step(flags, progress, word);
    }
    add_setting(progress, Awaited::More, Flag::Only, word)
}

/// Takes the value of an option.
fn value_step<'a>(
    progress: &mut Progress<'a>,
    flag: Flag,
    word: &'a str,
) -> Result<bool, AllocError>
    ensures { IfOk result (λ went. Takes went (progress_in progress.new) (value_step (given_in progress.old.given) flag word.now)) }
{
    if has_dash(word) {
        return Ok(false);
    }
    add_setting(progress, awaited_after(flag), flag, word)
}

/// Takes the next word, if it may stand there.
fn step<'a>(flags: &[Flag], progress: &mut Progress<'a>, word: &'a str) -> Result<bool, AllocError>
    ensures { IfOk result (λ went. Takes went (progress_in progress.new) (step flags.now progress.old.awaited (given_in progress.old.given) word.now)) }
{
    match progress.awaited {
        Awaited::Plain => plain_step(flags, progress, word),
        Awaited::More => more_step(flags, progress, word),
        Awaited::Value(flag) => value_step(progress, flag, word),
        Awaited::Positions => add_position(progress, Awaited::Positions, word),
    }
}

/// The words by position and the options, or none where the words are out of form.
pub fn read_given<'a>(
    alloc: Global,
    flags: &[Flag],
    words: &'a [String],
) -> Result<Option<Given<'a>>, AllocError>
    ensures { IfOk result (λ given. shown given ≡ read_all flags.now (map string_bytes words.now) start) }
{
    let mut progress = Progress {
        awaited: Awaited::Plain,
        given: Given {
            positions: Vec::new(alloc),
            settings: Vec::new(alloc),
        },
    };
    for word in words {
        if !step(flags, &mut progress, word.as_str())? {
            return Ok(None);
        }
    }
    match progress.awaited {
        Awaited::Value(_) => Ok(None),
        _ => Ok(Some(progress.given)),
    }
}
