//! The options of all commands by their names, and the words that are one of a table.
ghost use Rattle.std.specs.Prelude.{◌≡◌};
ghost use Rattle.std.specs.Option.{option_copied};
ghost use Rattle.bs_top_words.specs.Flags.{flag_of, has_value, is_flag, is_kind, is_named, kind_name, name_of, value_behind};

use crate::options::{BudgetKind, rest_of};

/// An option.
#[derive(Clone, Copy)]
pub enum Flag {
    /// A budget.
    Budget(BudgetKind),
    /// All flip-flops in each cycle; it has no value.
    All,
    /// Names; it has one value or more.
    Only,
    /// The name of the clock.
    Clock,
    /// The path of a scope.
    Scope,
    /// The name of a file of names.
    Map,
    /// A number of items.
    Bits,
    /// The cycle at which a waveform begins, or the first state that is told.
    From,
    /// The last state that is told.
    To,
    /// How many states before the end are told.
    Last,
    /// A time of a simulation.
    Time,
    /// A cycle of a simulation.
    Cycle,
    /// The name of a file with a signature.
    Signature,
    /// A table; it has no value.
    Csv,
    /// A number of lines or of signals.
    Most,
    /// A cycle of a trace.
    At,
    /// A number of layers.
    Depth,
    /// Flip-flops alone; it has no value.
    Flops,
    /// The number of a step.
    Step,
    /// Bits that are not known may be; it has no value.
    Partial,
}

/// The name of a budget.
pub fn kind_name(kind: BudgetKind) -> &'static str
    ensures { result.now ≡ kind_name kind }
{
    match kind {
        BudgetKind::Steps => "--steps",
        BudgetKind::Candidates => "--candidates",
        BudgetKind::Conflicts => "--conflicts",
    }
}

/// The name of an option.
fn name_of(flag: Flag) -> &'static str
    ensures { result.now ≡ name_of flag }
{
    match flag {
        Flag::Budget(kind) => kind_name(kind),
        Flag::All => "--all",
        Flag::Only => "--only",
        Flag::Clock => "--clock",
        Flag::Scope => "--scope",
        Flag::Map => "--map",
        Flag::Bits => "--bits",
        Flag::From => "--from",
        Flag::To => "--to",
        Flag::Last => "--last",
        Flag::Time => "--time",
        Flag::Cycle => "--cycle",
        Flag::Signature => "--signature",
        Flag::Csv => "--csv",
        Flag::Most => "--most",
        Flag::At => "--at",
        Flag::Depth => "--depth",
        Flag::Flops => "--flops",
        Flag::Step => "--step",
        Flag::Partial => "--partial",
    }
}

/// Whether an option has a value.
pub fn has_value(flag: Flag) -> bool
    ensures { result ≡ has_value flag }
{
    match flag {
        Flag::All | Flag::Csv | Flag::Flops | Flag::Partial => false,
        _ => true,
    }
}

/// Whether two budgets are the same.
fn is_kind(one: BudgetKind, other: BudgetKind) -> bool
    ensures { result ≡ is_kind one other }
{
    match (one, other) {
        (BudgetKind::Steps, BudgetKind::Steps) => true,
        (BudgetKind::Candidates, BudgetKind::Candidates) => true,
        (BudgetKind::Conflicts, BudgetKind::Conflicts) => true,
        _ => false,
    }
}

/// Whether two options are the same.
pub fn is_flag(one: Flag, other: Flag) -> bool
    ensures { result ≡ is_flag one other }
{
    match (one, other) {
        (Flag::Budget(one), Flag::Budget(other)) => is_kind(one, other),
        (Flag::All, Flag::All) => true,
        (Flag::Only, Flag::Only) => true,
        (Flag::Clock, Flag::Clock) => true,
        (Flag::Scope, Flag::Scope) => true,
        (Flag::Map, Flag::Map) => true,
        (Flag::Bits, Flag::Bits) => true,
        (Flag::From, Flag::From) => true,
        (Flag::To, Flag::To) => true,
        (Flag::Last, Flag::Last) => true,
        (Flag::Time, Flag::Time) => true,
        (Flag::Cycle, Flag::Cycle) => true,
        (Flag::Signature, Flag::Signature) => true,
        (Flag::Csv, Flag::Csv) => true,
        (Flag::Most, Flag::Most) => true,
        (Flag::At, Flag::At) => true,
        (Flag::Depth, Flag::Depth) => true,
        (Flag::Flops, Flag::Flops) => true,
        (Flag::Step, Flag::Step) => true,
        (Flag::Partial, Flag::Partial) => true,
        _ => false,
    }
}

/// Whether a word is the name of an option.
fn is_named(flag: Flag, word: &str) -> bool
    ensures { result ≡ is_named word.now flag }
{
    word == name_of(flag)
}

/// The option of a table that a word names.
pub fn flag_of(flags: &[Flag], word: &str) -> Option<Flag>
    ensures { result ≡ flag_of flags.now word.now }
{
    flags.iter().copied().find(|&flag| is_named(flag, word))
}

/// The value of an option in a word such as `--clock=ck`.
pub fn value_behind<'a>(flag: Flag, word: &'a str) -> Option<&'a str>
    ensures { option_copied result ≡ value_behind flag word.now }
{
    if !has_value(flag) {
        return None;
    }
    match rest_of(name_of(flag), word) {
        Some(rest) => rest_of("=", rest),
        None => None,
    }
}
