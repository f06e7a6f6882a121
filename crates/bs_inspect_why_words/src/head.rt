//! The first line of a block.
ghost use Rattle.std.specs.Prelude.{◌≡◌, ◌<◌, ◌≤◌, ◌+◌, ◌-◌, ◌^◌, ◌++◌, length, map, All, IfOk, OnOk, option_map};
ghost use Rattle.bs_net.specs.Netlist.{circuit};
ghost use Rattle.bs_inspect_view.specs.Signals.{signal_in};
ghost use Rattle.bs_inspect_why_words.specs.Blocks.{Appends};
ghost use Rattle.bs_inspect_why_words.specs.Heads.{AreBefore, at_words, before_count, before_words, episode_in, front_words, head_line, hit_moment, moment_words, since_words, step_moment, steps_words, TellsHead, TellsHeadOf, value_behind, values_words};

use crate::episode::Episode;
use crate::key::{fact_bits, fact_signals};
use crate::words::push_signals;
use bs_bits::{Bits, NoMemory, end_line, push_number, push_piece};
use bs_inspect_causes::known_bit;
use bs_inspect_report::{is_execution, member, push_signal_value};
use bs_inspect_view::Signal;
use bs_net_facts::{Fact, Moments};
use bs_report::{HitLine, Report, Step};
use std::alloc::Global;

/// Appends the run and the cycle of a hit.
fn push_hit(text: &mut Vec<u8>, hit: &Option<HitLine>) -> Result<(), NoMemory>
    ensures { OnOk result (text.new.items ≡ text.old.items ++ hit_moment hit.now) }
{
    match hit {
        Some(hit) => {
            push_piece(text, b" (run ")?;
            push_number(text, u64::from(hit.run))?;
            push_piece(text, b" cycle ")?;
            push_number(text, u64::from(hit.cycle))?;
            push_piece(text, b")")
        }
        None => Ok(()),
    }
}

/// Appends the run and the cycle of a step's hit.
fn push_step(text: &mut Vec<u8>, step: Option<&Step>) -> Result<(), NoMemory>
    ensures { OnOk result (text.new.items ≡ text.old.items ++ step_moment (option_map (λ s. s.now) step.entry)) }
{
    match step {
        Some(step) => push_hit(text, &step.hit),
        None => Ok(()),
    }
}

/// Appends where a state of the trace comes from.
fn push_moment(text: &mut Vec<u8>, report: &Report, i: usize) -> Result<(), NoMemory>
    requires { i + 1 < 2 ^ 64 }
    ensures { OnOk result (text.new.items ≡ text.old.items ++ moment_words report.now i) }
{
    if is_execution(report) {
        return Ok(());
    }
    if report.states.len() <= i + 1 {
        return push_piece(text, b" (dump)");
    }
    push_step(text, member(&report.steps, report.states.len() - 2 - i))
}

/// Appends since when bits stand.
fn push_since(text: &mut Vec<u8>, episode: &Episode<'_>) -> Result<(), NoMemory>
    ensures { OnOk result (text.new.items ≡ text.old.items ++ since_words (episode_in episode.now)) }
{
    if episode.begun {
        return push_piece(text, b", since 0");
    }
    if episode.since < episode.at {
        push_piece(text, b", since ")?;
        push_number(text, u64::from(episode.since))
    } else {
        Ok(())
    }
}

/// Appends a value behind a space.
fn push_value_behind(text: &mut Vec<u8>, bits: &Bits, signal: &Signal<'_>) -> Result<(), NoMemory>
    requires { length signal.now.places < 2 ^ 32 }
    ensures { OnOk result (text.new.items ≡ text.old.items ++ value_behind bits.now (signal_in signal.now)) }
{
    push_piece(text, b" ")?;
    push_signal_value(text, bits, signal.places.slice())
}

/// Appends the values of signals.
fn push_values(text: &mut Vec<u8>, bits: &Bits, signals: &[Signal<'_>]) -> Result<(), NoMemory>
    requires { All (λ s. length s.places < 2 ^ 32) signals.now }
    ensures { OnOk result (text.new.items ≡ text.old.items ++ values_words bits.now (map signal_in signals.now)) }
{
    'signals: for signal in signals {
        push_value_behind(text, bits, signal)?;
    }
    Ok(())
}

/// Appends a cycle.
fn push_at(text: &mut Vec<u8>, cycle: u32) -> Result<(), NoMemory>
    ensures { OnOk result (text.new.items ≡ text.old.items ++ at_words cycle) }
{
    push_piece(text, b" at ")?;
    push_number(text, u64::from(cycle))
}

/// What the line of a block, or of a chain of so many steps, tells of its signals: their bits, and the bits before a cycle.
#[derive(Clone, Copy)]
struct SignalBits<'a> {
    steps: usize,
    signals: &'a [Signal<'a>],
    bits: &'a Bits,
    befores: &'a Bits,
    since: u32,
}

/// Appends the first value of a chain, and its cycle.
fn push_steps(text: &mut Vec<u8>, change: &SignalBits<'_>) -> Result<(), NoMemory>
    requires narrow { All (λ s. length s.places < 2 ^ 32) change.now.signals.now }
    requires since { 0 < change.now.since }
    ensures { OnOk result (text.new.items ≡ text.old.items ++ steps_words change.now.steps (map signal_in change.now.signals.now) change.now.befores.now (change.now.since - 1)) }
{
    push_piece(text, b", in ")?;
    push_number(text, change.steps as u64)?;
    push_piece(text, b" steps from")?;
    push_values(text, change.befores, change.signals)?;
    push_at(text, change.since - 1)?;
    Ok(())
}

/// Appends what bits were before, where there is a before.
fn push_before(text: &mut Vec<u8>, change: &SignalBits<'_>) -> Result<(), NoMemory>
    requires { All (λ s. length s.places < 2 ^ 32) change.now.signals.now }
    ensures { OnOk result (text.new.items ≡ text.old.items ++ before_words change.now.steps (map signal_in change.now.signals.now) change.now.bits.now change.now.befores.now change.now.since) }
{
    if change.since == 0 {
        return Ok(());
    }
    if 1 < change.steps {
        return push_steps(text, change);
    }
    if change.befores.equals(change.bits) {
        return push_piece(text, b", as before");
    }
    push_piece(text, b", before")?;
    push_values(text, change.befores, change.signals)
}

/// The bits of nets in the cycle before one, where there is such a one.
#[tactic(auto, using(crate::proofs::HeadLemmas::befores_begin, crate::proofs::HeadLemmas::net_here, crate::proofs::HeadLemmas::befores_none, crate::proofs::HeadLemmas::befores_all))]
fn bits_before(
    alloc: Global,
    moments: &Moments<'_>,
    facts: &[Fact],
    since: u32,
) -> Result<Bits, NoMemory>
    requires placed { All (λ f. f.net.0 < (circuit moments.now.net).nets) facts.now }
    requires in_time { since ≤ length moments.now.inputs }
    ensures { IfOk result (λ befores. AreBefore (circuit moments.now.net) moments.now.states moments.now.inputs facts.now since (before_count since facts.now) befores) }
{
    let mut befores = Bits::new(alloc);
    if since == 0 {
        return Ok(befores);
    }
    'facts: for i in 0..facts.len() {
        befores.push(known_bit(moments, facts[i].net, since - 1))?;
    }
    Ok(befores)
}

/// Appends what the line of a block begins with: its cycle, its bits, and since when they stand.
fn push_front(
    text: &mut Vec<u8>,
    first: &Episode<'_>,
    change: &SignalBits<'_>,
) -> Result<(), NoMemory>
    requires { All (λ s. length s.places < 2 ^ 32) change.now.signals.now }
    ensures { OnOk result (text.new.items ≡ text.old.items ++ front_words (map signal_in change.now.signals.now) change.now.bits.now (episode_in first.now)) }
{
    push_number(text, u64::from(first.at))?;
    push_piece(text, b" ")?;
    push_signals(text, change.bits, change.signals)?;
    push_since(text, first)?;
    Ok(())
}

/// Appends the line of a block by its signals, its bits and the bits before.
fn push_line_with(
    text: &mut Vec<u8>,
    report: &Report,
    first: &Episode<'_>,
    change: &SignalBits<'_>,
) -> Result<(), NoMemory>
    requires { All (λ s. length s.places < 2 ^ 32) change.now.signals.now }
    ensures { OnOk result (text.new.items ≡ text.old.items ++ head_line report.now change.now.steps (map signal_in change.now.signals.now) change.now.bits.now change.now.befores.now (episode_in first.now) change.now.since) }
{
    push_front(text, first, change)?;
    push_before(text, change)?;
    push_moment(text, report, first.at as usize)?;
    end_line(text)?;
    Ok(())
}

/// Appends the line of a block by its signals.
#[tactic(auto, using(crate::proofs::HeadLemmas::line_told))]
fn push_head_of(
    text: &mut Vec<u8>,
    moments: &Moments<'_>,
    report: &Report,
    steps: usize,
    signals: &[Signal<'_>],
    first: &Episode<'_>,
    last: &Episode<'_>,
) -> Result<(), NoMemory>
    requires placed { All (λ f. f.net.0 < (circuit moments.now.net).nets) (episode_in last.now).bits }
    requires in_time { last.now.since ≤ length moments.now.inputs }
    requires narrow { All (λ s. length s.places < 2 ^ 32) signals.now }
    ensures { OnOk result (Appends (TellsHeadOf moments.now report.now steps (map signal_in signals.now) (episode_in first.now) (episode_in last.now)) text.old.items text.new.items) }
{
    let befores = bits_before(*text.allocator(), moments, last.bits, last.since)?;
    let bits = fact_bits(*text.allocator(), first.bits)?;
    let change = SignalBits {
        steps,
        signals,
        bits: &bits,
        befores: &befores,
        since: last.since,
    };
    push_line_with(text, report, first, &change)?;
    Ok(())
}

/// Appends the line of a block, or of a chain of so many.
#[tactic(auto, using(crate::proofs::HeadLemmas::head_told))]
pub(crate) fn push_head(
    text: &mut Vec<u8>,
    moments: &Moments<'_>,
    report: &Report,
    steps: usize,
    first: &Episode<'_>,
    last: &Episode<'_>,
) -> Result<(), NoMemory>
    requires placed { All (λ f. f.net.0 < (circuit moments.now.net).nets) (episode_in last.now).bits }
    requires in_time { last.now.since ≤ length moments.now.inputs }
    ensures { OnOk result (Appends (TellsHead moments.now report.now steps (episode_in first.now) (episode_in last.now)) text.old.items text.new.items) }
{
    let signals = fact_signals(*text.allocator(), moments.net().raw(), first.bits)?;
    push_head_of(
        text,
        moments,
        report,
        steps,
        signals.as_slice(),
        first,
        last,
    )?;
    Ok(())
}
