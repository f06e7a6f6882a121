//! The lines of the causes of one cycle.
ghost use Rattle.std.specs.Prelude.{◌≡◌, ◌<◌, ◌&&◌, ◌^◌, ◌++◌, length, slice_index_or, map, All, IfOk, OnOk};
ghost use Rattle.std.specs.Bool.{beq};
ghost use Rattle.std.specs.List.{flat_map};
ghost use Rattle.bs_net.specs.Netlist.{circuit};
ghost use Rattle.bs_inspect_view.specs.Signals.{signal_in};
ghost use Rattle.bs_net_facts.specs.Facts.{IsReal, IsWayOf};
ghost use Rattle.bs_inspect_why_words.specs.Causes.{age_words, by_line, by_words, first_cycle, HasRows, is_old, old_line, old_row, old_rows, only_bit, row_line, row_name, row_names, rows_lines, TellsRows, TellsRowsOf};
ghost use Rattle.bs_inspect_why_words.specs.Blocks.{Appends};
ghost use Rattle.bs_inspect_why_words.specs.Facts.{signal_at};

use crate::key::{fact_bits, fact_signals};
use crate::limits::{Limits, RECENT};
use crate::row::{Row, ordered, rows_of};
use crate::words::{first_of, push_comma, push_more, push_signal};
use bs_bits::{Bits, NoMemory, end_line, push_number, push_piece};
use bs_inspect_causes::ages;
use bs_inspect_report::bit_at;
use bs_inspect_view::{Signal, push_rtl_name, push_value};
use bs_net_facts::{Fact, Moments};
use std::alloc::Global;

/// Appends when a signal changed last.
fn push_age(text: &mut Vec<u8>, cycle: u32, since: u32) -> Result<(), NoMemory>
    ensures { OnOk result (text.new.items ≡ text.old.items ++ age_words cycle since) }
{
    if since == cycle && 0 < cycle {
        return push_piece(text, b", new");
    }
    push_piece(text, b", since ")?;
    push_number(text, u64::from(since))
}

/// Appends what a line of causes begins with.
fn push_by(text: &mut Vec<u8>, cycle: u32) -> Result<(), NoMemory>
    ensures { OnOk result (text.new.items ≡ text.old.items ++ by_words cycle) }
{
    push_piece(text, b"    by ")?;
    push_number(text, u64::from(cycle))?;
    push_piece(text, b" ")
}

/// The signals of the causes in one cycle, with their bits, and whether older single bits share a line.
#[derive(Clone, Copy)]
struct Causes<'a> {
    cycle: u32,
    shares: bool,
    bits: &'a Bits,
    signals: &'a [Signal<'a>],
}

/// Appends the line of a signal.
fn push_cause(
    text: &mut Vec<u8>,
    causes: &Causes<'_>,
    signal: &Signal<'_>,
    since: u32,
) -> Result<(), NoMemory>
    requires { length signal.now.places < 2 ^ 32 }
    ensures { OnOk result (text.new.items ≡ text.old.items ++ by_line causes.now.cycle causes.now.bits.now (signal_in signal.now) since) }
{
    push_by(text, causes.cycle)?;
    push_signal(text, causes.bits, signal)?;
    push_age(text, causes.cycle, since)?;
    end_line(text)
}

/// Whether a signal stands in a line with others.
#[tactic(auto, using(crate::proofs::CauseLemmas::old_is))]
fn is_old(causes: &Causes<'_>, row: Row) -> bool
    requires { row.place < length causes.now.signals.now }
    ensures { result ≡ is_old causes.now.shares causes.now.cycle (map signal_in causes.now.signals.now) row }
{
    let signal = &causes.signals[row.place];
    let single = signal.places.len() == 1;
    let older = u64::from(row.since) + u64::from(RECENT) < u64::from(causes.cycle);
    causes.shares && (single && older)
}

/// Appends the line of a signal that has one of its own.
#[tactic(auto, using(crate::proofs::CauseLemmas::row_old, crate::proofs::CauseLemmas::row_alone, crate::proofs::WordLemmas::narrow_here))]
fn push_row(text: &mut Vec<u8>, causes: &Causes<'_>, row: Row) -> Result<(), NoMemory>
    requires narrow { All (λ s. length s.places < 2 ^ 32) causes.now.signals.now }
    requires placed { row.place < length causes.now.signals.now }
    ensures { OnOk result (text.new.items ≡ text.old.items ++ row_line causes.now.shares causes.now.cycle causes.now.bits.now (map signal_in causes.now.signals.now) row) }
{
    if is_old(causes, row) {
        return Ok(());
    }
    let signal = &causes.signals[row.place];
    push_cause(text, causes, signal, row.since)?;
    Ok(())
}

/// Appends the lines of the signals that have one of their own.
fn push_rows(text: &mut Vec<u8>, causes: &Causes<'_>, rows: &[Row]) -> Result<(), NoMemory>
    requires narrow { All (λ s. length s.places < 2 ^ 32) causes.now.signals.now }
    requires placed { All (λ r. r.place < length causes.now.signals.now) rows.now }
    ensures { OnOk result (text.new.items ≡ text.old.items ++ flat_map (row_line causes.now.shares causes.now.cycle causes.now.bits.now (map signal_in causes.now.signals.now)) rows.now) }
{
    'rows: for i in 0..rows.len() {
        push_row(text, causes, rows[i])?;
    }
    Ok(())
}

/// The place at the front; 0 where there is none.
fn front(places: &[u32]) -> u32
    ensures { result ≡ slice_index_or places.now 0 0 }
{
    match places {
        [] => 0,
        [place, ..] => *place,
    }
}

/// The bit of a signal of one bit.
fn only_bit(bits: &Bits, signal: &Signal<'_>) -> bool
    ensures { result ≡ only_bit bits.now (signal_in signal.now) }
{
    bit_at(bits, front(signal.places.slice()) as usize)
}

/// Whether a signal stands in the line of a bit.
#[tactic(auto, using(crate::proofs::CauseLemmas::old_with))]
fn is_old_with(causes: &Causes<'_>, bit: bool, row: Row) -> bool
    requires { row.place < length causes.now.signals.now }
    ensures { result ≡ (is_old causes.now.shares causes.now.cycle (map signal_in causes.now.signals.now) row && beq (only_bit causes.now.bits.now (signal_at (map signal_in causes.now.signals.now) row.place)) bit) }
{
    let signal = &causes.signals[row.place];
    let old = is_old(causes, row);
    let agrees = only_bit(causes.bits, signal) == bit;
    old && agrees
}

/// Puts a row at the end whose signal stands in the line of a bit.
fn put_old(olds: &mut Vec<Row>, causes: &Causes<'_>, bit: bool, row: Row) -> Result<(), NoMemory>
    requires { row.place < length causes.now.signals.now }
    ensures { OnOk result (olds.new.items ≡ olds.old.items ++ old_row causes.now.shares causes.now.cycle causes.now.bits.now (map signal_in causes.now.signals.now) bit row) }
{
    if is_old_with(causes, bit, row) {
        olds.push(row)?;
    }
    Ok(())
}

/// The rows whose signals stand in the line of a bit.
fn old_rows(
    alloc: Global,
    causes: &Causes<'_>,
    bit: bool,
    rows: &[Row],
) -> Result<Vec<Row>, NoMemory>
    requires { All (λ r. r.place < length causes.now.signals.now) rows.now }
    ensures are { IfOk result (λ olds. olds.items ≡ old_rows causes.now.shares causes.now.cycle causes.now.bits.now (map signal_in causes.now.signals.now) bit rows.now) }
{
    let mut olds = Vec::new(alloc);
    'rows: for i in 0..rows.len() {
        put_old(&mut olds, causes, bit, rows[i])?;
    }
    Ok(olds)
}

/// Appends the name of a signal.
#[tactic(auto, using(crate::proofs::CauseLemmas::name_is))]
fn push_name(text: &mut Vec<u8>, signals: &[Signal<'_>], row: Row) -> Result<(), NoMemory>
    requires { row.place < length signals.now }
    ensures { OnOk result (text.new.items ≡ text.old.items ++ row_name (map signal_in signals.now) row) }
{
    let signal = &signals[row.place];
    push_rtl_name(text, signal)?;
    Ok(())
}

/// Appends the names of signals, one behind another.
fn push_names(text: &mut Vec<u8>, signals: &[Signal<'_>], rows: &[Row]) -> Result<(), NoMemory>
    requires { All (λ r. r.place < length signals.now) rows.now }
    ensures { OnOk result (text.new.items ≡ text.old.items ++ row_names (map signal_in signals.now) rows.now) }
{
    'rows: for i in 0..rows.len() {
        push_comma(text, i)?;
        push_name(text, signals, rows[i])?;
    }
    Ok(())
}

/// Appends the line of the signals with a bit.
#[tactic(auto, using(crate::proofs::CauseLemmas::first_placed, crate::proofs::CauseLemmas::old_none, crate::proofs::CauseLemmas::old_some))]
fn push_old_line(
    text: &mut Vec<u8>,
    causes: &Causes<'_>,
    most: usize,
    bit: bool,
    rows: &[Row],
) -> Result<(), NoMemory>
    requires { All (λ r. r.place < length causes.now.signals.now) rows.now }
    ensures { OnOk result (text.new.items ≡ text.old.items ++ old_line most causes.now.cycle (map signal_in causes.now.signals.now) bit rows.now) }
{
    if rows.is_empty() {
        return Ok(());
    }
    push_by(text, causes.cycle)?;
    push_names(text, causes.signals, first_of(rows, most))?;
    push_more(text, rows.len().saturating_sub(most))?;
    push_piece(text, b" = ")?;
    push_value(text, &[bit])?;
    end_line(text)?;
    Ok(())
}

/// Appends the line of the signals with a bit, of all rows.
#[tactic(auto, using(crate::proofs::CauseLemmas::olds_placed))]
fn push_olds(
    text: &mut Vec<u8>,
    causes: &Causes<'_>,
    most: usize,
    bit: bool,
    rows: &[Row],
) -> Result<(), NoMemory>
    requires { All (λ r. r.place < length causes.now.signals.now) rows.now }
    ensures { OnOk result (text.new.items ≡ text.old.items ++ old_line most causes.now.cycle (map signal_in causes.now.signals.now) bit (old_rows causes.now.shares causes.now.cycle causes.now.bits.now (map signal_in causes.now.signals.now) bit rows.now)) }
{
    let olds = old_rows(*text.allocator(), causes, bit, rows)?;
    push_old_line(text, causes, most, bit, olds.as_slice())
}

/// Appends the lines of all signals.
fn push_lines(
    text: &mut Vec<u8>,
    causes: &Causes<'_>,
    most: usize,
    rows: &[Row],
) -> Result<(), NoMemory>
    requires narrow { All (λ s. length s.places < 2 ^ 32) causes.now.signals.now }
    requires placed { All (λ r. r.place < length causes.now.signals.now) rows.now }
    ensures { OnOk result (text.new.items ≡ text.old.items ++ rows_lines most causes.now.shares causes.now.cycle causes.now.bits.now (map signal_in causes.now.signals.now) rows.now) }
{
    push_rows(text, causes, rows)?;
    push_olds(text, causes, most, false, rows)?;
    push_olds(text, causes, most, true, rows)
}

/// The cycle of the first of some facts; 0 where there is none.
pub(crate) fn first_cycle(facts: &[Fact]) -> u32
    ensures { result ≡ first_cycle facts.now }
{
    match facts {
        [] => 0,
        [fact, ..] => fact.cycle,
    }
}

/// The signals of facts, the last change first.
#[tactic(auto, using(crate::proofs::CauseLemmas::has_rows))]
fn rows_told(
    alloc: Global,
    moments: &Moments<'_>,
    facts: &[Fact],
    signals: &[Signal<'_>],
) -> Result<Vec<Row>, NoMemory>
    requires way { IsWayOf (circuit moments.now.net) moments.now.states moments.now.inputs }
    requires real { All (λ f. IsReal (circuit moments.now.net) moments.now.states moments.now.inputs f) facts.now }
    ensures { IfOk result (λ rows. HasRows (circuit moments.now.net) moments.now.states moments.now.inputs facts.now (map signal_in signals.now) rows.items) }
{
    let ages = ages(alloc, moments, facts)?;
    let rows = rows_of(alloc, ages.as_slice(), signals)?;
    let ordered = ordered(rows)?;
    Ok(ordered)
}

/// Appends the lines of some signals with the bits of facts.
#[tactic(auto, using(crate::proofs::CauseLemmas::placed_of, crate::proofs::CauseLemmas::rows_told))]
fn push_signals_of(
    text: &mut Vec<u8>,
    moments: &Moments<'_>,
    limits: Limits,
    facts: &[Fact],
    signals: &[Signal<'_>],
) -> Result<(), NoMemory>
    requires way { IsWayOf (circuit moments.now.net) moments.now.states moments.now.inputs }
    requires real { All (λ f. IsReal (circuit moments.now.net) moments.now.states moments.now.inputs f) facts.now }
    requires narrow { All (λ s. length s.places < 2 ^ 32) signals.now }
    ensures { OnOk result (Appends (TellsRowsOf moments.now limits facts.now (map signal_in signals.now)) text.old.items text.new.items) }
{
    let bits = fact_bits(*text.allocator(), facts)?;
    let rows = rows_told(*text.allocator(), moments, facts, signals)?;
    let causes = Causes {
        cycle: first_cycle(facts),
        shares: limits.causes < rows.len(),
        bits: &bits,
        signals,
    };
    push_lines(text, &causes, limits.names, rows.as_slice())?;
    Ok(())
}

/// Appends the lines of causes in one cycle.
#[tactic(auto, using(crate::proofs::CauseLemmas::causes_told))]
pub(crate) fn push_stretch(
    text: &mut Vec<u8>,
    moments: &Moments<'_>,
    limits: Limits,
    facts: &[Fact],
) -> Result<(), NoMemory>
    requires way { IsWayOf (circuit moments.now.net) moments.now.states moments.now.inputs }
    requires real { All (λ f. IsReal (circuit moments.now.net) moments.now.states moments.now.inputs f) facts.now }
    ensures { OnOk result (Appends (TellsRows moments.now limits facts.now) text.old.items text.new.items) }
{
    let signals = fact_signals(*text.allocator(), moments.net().raw(), facts)?;
    push_signals_of(text, moments, limits, facts, signals.as_slice())?;
    Ok(())
}
